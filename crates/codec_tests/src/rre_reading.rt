//! RRE is read: bytes worked by hand, whole, in pieces, and what ends too early.

ghost use Rattle.std.specs.Prelude.{◌≡◌};

use crate::colours::{BLUE, RED};
use fault::Fault;
use pixel_format::Format;
use raster::Raster;
use rre_codec::Reader;
use std::alloc::Global;
use std::test::Fail;

/// Red, and two blue pixels after it: one subrectangle.
const DATA: [u8; 20] = [
    0, 0, 0, 1, 0, 0, 0xFF, 0, 0xFF, 0, 0, 0, 0, 1, 0, 0, 0, 2, 0, 1,
];

/// Whether a reader that isn't whole uses all of a piece.
fn uses(reader: &mut Reader, raster: &mut Raster, piece: &[u8]) -> bool
    requires across { reader.old.width ≡ raster.old.width }
    requires down { reader.old.height ≡ raster.old.height }
    ensures across { reader.new.width ≡ reader.old.width }
    ensures down { reader.new.height ≡ reader.old.height }
    ensures wide { raster.new.width ≡ raster.old.width }
    ensures high { raster.new.height ≡ raster.old.height }
{
    if reader.whole() {
        return false;
    }
    match reader.feed(raster, piece) {
        Ok(used) => used == piece.len(),
        Err(_) => false,
    }
}

/// Whether the data, fed in pieces of this many bytes, are whole only after the last piece, each piece was used, and
/// they show red and blue.
fn is_read(alloc: Global, size: usize) -> Result<bool, Fail> {
    let mut raster = Raster::new(alloc, 3, 1)?;
    let mut reader = Reader::new(3, 1, Format::HOST);
    let mut each_used = true;
    for piece in DATA.chunks(size.max(1)) {
        each_used = uses(&mut reader, &mut raster, piece) && each_used;
    }
    Ok(each_used && reader.whole() && raster.row(0) == [RED, BLUE, BLUE].as_slice())
}

#[test]
fn red_blue_blue(rt: HostRuntime) -> Result<(), Fail> {
    assert!(rt; is_read(rt.alloc(), 20)?);
    assert!(rt; is_read(rt.alloc(), 1)?, "byte by byte");
    Ok(())
}

/// Whether the first 19 bytes are used, and the rest is refused.
fn fails_at_last(alloc: Global, data: &[u8; 20]) -> Result<bool, Fail> {
    let mut raster = Raster::new(alloc, 3, 1)?;
    let mut reader = Reader::new(3, 1, Format::HOST);
    let used = uses(&mut reader, &mut raster, &data[..19]);
    let refused = reader.feed(&mut raster, &data[19..]);
    Ok(used && matches!(refused, Err(Fault::SubrectOutside)) && !reader.whole())
}

/// The width of the subrectangle is one too many, which its last byte shows.
#[test]
fn subrectangle_outside(rt: HostRuntime) -> Result<(), Fail> {
    let mut data = DATA;
    data[17] = 3;
    assert!(rt; fails_at_last(rt.alloc(), &data)?);
    Ok(())
}

/// Whether three pieces are each used whole, and leave a rectangle of three pixels unfinished.
fn are_unfinished(alloc: Global, first: &[u8], second: &[u8], third: &[u8]) -> Result<bool, Fail> {
    let mut raster = Raster::new(alloc, 3, 1)?;
    let mut reader = Reader::new(3, 1, Format::HOST);
    let one = uses(&mut reader, &mut raster, first);
    let two = uses(&mut reader, &mut raster, second);
    let three = uses(&mut reader, &mut raster, third);
    Ok(one && two && three && !reader.whole())
}

#[test]
fn prefixes_are_unfinished(rt: HostRuntime) -> Result<(), Fail> {
    for cut in 0..20 {
        assert!(rt;
            are_unfinished(rt.alloc(), &DATA[..cut], &[], &[])?,
            "at {cut}"
        );
    }
    Ok(())
}

#[test]
fn more_subrectangles_than_bytes(rt: HostRuntime) -> Result<(), Fail> {
    let unfinished = are_unfinished(rt.alloc(), &[0xFF; 4], &DATA[4..], &DATA[8..])?;
    assert!(rt; unfinished);
    Ok(())
}
