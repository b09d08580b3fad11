//! Hextile is read: vectors worked by hand, sizes, prefixes and faults.

ghost use Rattle.std.specs.Prelude.{◌≡◌, ◌≤◌, ◌<◌};

use crate::colours::{BLUE, GREEN, RED};
use crate::hextile_fed::{Fed, fails_at_last, fault_after, feed, feed_new, shows_row};
use fault::Fault;
use hextile_codec::Reader;
use pixel_format::Format;
use raster::Raster;
use std::alloc::Global;
use std::test::Fail;

/// One red and seven blue pixels, eight green: two tiles of two colours around a coloured one.
const THREE_TILES: [u8; 32] = [
    0x0E, 0, 0, 0xFF, 0, 0xFF, 0, 0, 0, 1, 0x10, 0xE0, // one red, fifteen blue
    0x18, 2, 0xFF, 0, 0, 0, 0x10, 0x60, 0, 0xFF, 0, 0, 0x80, 0x70, // one red, seven blue, eight green
    0x08, 1, 0x10, 0xE0, // as the first
    0, 0,
];

/// Foreground and coloured subrectangles together: the foreground, black, is read and not painted.
#[test]
fn red_blue(rt: HostRuntime) {
    let data = [
        0x1E, 0, 0, 0xFF, 0, 0, 0, 0, 0, 1, 0xFF, 0, 0, 0, 0x10, 0x00,
    ];
    assert!(rt; shows_row(rt.alloc(), &data, &[RED, BLUE]));
}

#[test]
fn three_tiles(rt: HostRuntime) {
    let mut row = [BLUE; 48];
    row[0] = RED;
    row[16] = RED;
    row[24..32].fill(GREEN);
    row[32] = RED;
    assert!(rt; shows_row(rt.alloc(), &THREE_TILES[..30], &row));
}

/// Bytes after the rectangle are not used, and no beginning of it is whole or at fault.
#[test]
fn beginnings(rt: HostRuntime) -> Result<(), Fail> {
    let all = feed_new(rt.alloc(), 48, 1, &THREE_TILES, 4096)?;
    assert!(rt;
        all == Fed {
            used: 30,
            whole: true
        }
    );
    for len in 0..30 {
        let begun = feed_new(rt.alloc(), 48, 1, &THREE_TILES[..len], 7)?;
        assert!(rt;
            begun
                == Fed {
                    used: len,
                    whole: false
                },
            "at {len}"
        );
    }
    Ok(())
}

/// Whether a rectangle of this size is whole before the first byte, and uses none.
fn is_whole_at_once(alloc: Global, w: u64, h: u64) -> Result<bool, Fault>
    requires wide { w ≤ 4096 }
    requires high { h ≤ 4096 }
{
    let mut raster = Raster::new(alloc, w, h)?;
    let mut reader = Reader::new(w, h, Format::HOST);
    let at_once = reader.whole();
    let used = reader.feed(&mut raster, &[2, 1])?;
    Ok(at_once && used == 0 && reader.whole())
}

#[test]
fn empty_rectangles(rt: HostRuntime) -> Result<(), Fail> {
    for (w, h) in [(0, 0), (0, 5), (5, 0), (4096, 0)] {
        assert!(rt; is_whole_at_once(rt.alloc(), w, h)?, "{w} by {h}");
    }
    Ok(())
}

/// Whether a raster of 33 by 17 shows the numbers of six tiles: three across and two down.
fn shows_six_tiles(raster: &Raster) -> bool
    requires width { raster.now.width ≡ 33 }
    requires height { raster.now.height ≡ 17 }
{
    let mut row = [1; 33];
    row[16..32].fill(2);
    row[32] = 3;
    let mut last = [4; 33];
    last[16..32].fill(5);
    last[32] = 6;
    (0..16).all(|y| raster.row(y) == row.as_slice()) && raster.row(16) == last.as_slice()
}

/// Six tiles, three across and two down; those at the right are 1 wide, those below 1 high. Each has its own value.
#[test]
fn cut_tiles(rt: HostRuntime) -> Result<(), Fail> {
    let data = [
        2, 1, 0, 0, 0, 2, 2, 0, 0, 0, 2, 3, 0, 0, 0, 2, 4, 0, 0, 0, 2, 5, 0, 0, 0, 2, 6, 0, 0, 0,
    ];
    let mut raster = Raster::new(rt.alloc(), 33, 17)?;
    let fed = feed(&mut raster, Format::HOST, &data, 3)?;
    assert!(rt;
        fed == Fed {
            used: 30,
            whole: true
        } && shows_six_tiles(&raster)
    );
    Ok(())
}

/// Whether a raster of 19 by 2 shows a green line from 1, 1 on, 3 wide, on red, and after it the six pixels of a tile.
fn shows_green_line(raster: &Raster) -> bool
    requires width { raster.now.width ≡ 19 }
    requires height { raster.now.height ≡ 2 }
{
    raster.get(0, 0) == 0xF800
        && raster.get(0, 1) == 0xF800
        && raster.get(1, 1) == 0x07E0
        && raster.get(3, 1) == 0x07E0
        && raster.get(4, 1) == 0xF800
        && raster.get(16, 0) == 1
        && raster.get(18, 0) == 3
        && raster.get(16, 1) == 0x100
        && raster.get(18, 1) == 0x300
}

/// Whether these bytes show that line, in pieces of one size.
fn shows_green_line_by(
    alloc: Global,
    format: Format,
    bytes: &[u8],
    size: usize,
) -> Result<bool, Fault>
    requires { 0 < size }
{
    let mut raster = Raster::new(alloc, 19, 2)?;
    let fed = feed(&mut raster, format, bytes, size)?;
    Ok(fed.whole && shows_green_line(&raster))
}

/// A Raw tile of 3 by 2 after one of 16 by 2, in 16 bits, most significant byte first.
#[test]
fn pixels_of_two_bytes(rt: HostRuntime) -> Result<(), Fail> {
    let format = Format::read(&[16, 16, 1, 1, 0, 31, 0, 63, 0, 31, 11, 5, 0, 0, 0, 0])?;
    // Nothing is said of a foreground.
    assert_eq!(rt; fault_after(rt.alloc(), 19, 2, &[0x0A], 1), 11);
    let data = [
        0x1A, 0xF8, 0x00, 1, 0x07, 0xE0, 0x11, 0x20, // green from 1, 1 on, 3 wide
        1, 0, 1, 0, 2, 0, 3, 1, 0, 2, 0, 3, 0,
    ];
    for size in [1, 2, 5, 64] {
        assert!(rt;
            shows_green_line_by(rt.alloc(), format, &data, size)?,
            "{size}"
        );
    }
    Ok(())
}

/// Whether 65,536 tiles are read, each but the first with the background of the one before.
fn reads_plain_screen(raster: &mut Raster, reader: &mut Reader) -> Result<bool, Fault>
    requires wide { raster.old.width ≡ 4096 }
    requires high { raster.old.height ≡ 4096 }
    requires across { reader.old.width ≡ 4096 }
    requires down { reader.old.height ≡ 4096 }
{
    reader.feed(raster, &[2, 0, 0, 0xFF, 0])?;
    reader.feed(raster, &[0; 4095])?;
    if reader.whole() || raster.get(4095, 255) != RED || raster.get(0, 256) != 0 {
        return Ok(false);
    }
    for _ in 0..15 {
        if reader.feed(raster, &[0; 4096])? != 4096 {
            return Ok(false);
        }
    }
    Ok(reader.whole() && raster.get(4095, 4095) == RED)
}

#[test]
fn plain_screen(rt: HostRuntime) -> Result<(), Fail> {
    let mut raster = Raster::new(rt.alloc(), 4096, 4096)?;
    let mut reader = Reader::new(4096, 4096, Format::HOST);
    let is_read = reads_plain_screen(&mut raster, &mut reader)?;
    assert!(rt; is_read);
    Ok(())
}

/// From x 1 on and 2 wide in a tile 2 wide.
#[test]
fn subrectangle_outside(rt: HostRuntime) {
    let data = [0x0E, 0, 0, 0xFF, 0, 0xFF, 0, 0, 0, 1, 0x10, 0x10];
    assert!(rt; fails_at_last(rt.alloc(), 2, 1, &data, 9));
}

/// The fault of a rectangle of one tile that has one subrectangle of these two bytes, or 0.
fn fault_of_subrect(alloc: Global, w: u64, h: u64, position: u8, size: u8) -> u64
    requires wide { w ≤ 16 }
    requires high { h ≤ 16 }
{
    let data = [0x0E, 0, 0, 0, 0, 0, 0, 0, 0, 1, position, size];
    fault_after(alloc, w, h, &data, 5)
}

/// Whether a subrectangle from column `x` up to the edge is fine, and one pixel more is not; 17 can't be written.
fn ends_at_the_right(alloc: Global, w: u64, h: u64, x: u64) -> bool
    requires wide { w ≤ 16 }
    requires high { h ≤ 16 }
    requires inside { x < w }
{
    let position = (x * 16) as u8;
    let fits = ((w - x - 1) * 16) as u8;
    let over = ((w - x) % 16 * 16) as u8;
    let fault = if w - x < 16 { 9 } else { 0 };
    fault_of_subrect(alloc, w, h, position, fits) == 0
        && fault_of_subrect(alloc, w, h, position, over) == fault
}

/// Whether a subrectangle from row `y` down to the edge is fine, and one pixel more is not.
fn ends_at_the_bottom(alloc: Global, w: u64, h: u64, y: u64) -> bool
    requires wide { w ≤ 16 }
    requires high { h ≤ 16 }
    requires inside { y < h }
{
    let fits = (h - y - 1) as u8;
    let over = ((h - y) % 16) as u8;
    let fault = if h - y < 16 { 9 } else { 0 };
    fault_of_subrect(alloc, w, h, y as u8, fits) == 0
        && fault_of_subrect(alloc, w, h, y as u8, over) == fault
}

/// In whole and in cut tiles.
#[test]
fn edges(rt: HostRuntime) {
    for (w, h) in [(16, 16), (5, 3), (1, 1), (16, 1)] {
        for x in 0..w {
            assert!(rt; ends_at_the_right(rt.alloc(), w, h, x), "{x} of {w}");
        }
        for y in 0..h {
            assert!(rt; ends_at_the_bottom(rt.alloc(), w, h, y), "{y} of {h}");
        }
    }
}

/// The last tile of 17 by 17 is 1 by 1.
#[test]
fn outside_the_last_tile(rt: HostRuntime) {
    let data = [2, 0, 0, 0xFF, 0, 0, 0, 0x18, 1, 0, 0, 0, 0, 0x00, 0x01];
    assert!(rt; fails_at_last(rt.alloc(), 17, 17, &data, 9));
    let inside = [2, 0, 0, 0xFF, 0, 0, 0, 0x18, 1, 0, 0, 0, 0, 0x00, 0x00];
    assert_eq!(rt; fault_after(rt.alloc(), 17, 17, &inside, 1), 0);
}

/// Whether each of three bytes is answered by the same fault.
fn stays_at_fault(raster: &mut Raster, reader: &mut Reader) -> bool
    requires wide { raster.old.width ≡ reader.old.width }
    requires high { raster.old.height ≡ reader.old.height }
{
    for _ in 0..3 {
        let answer = reader.feed(raster, &[0x0A]);
        if !matches!(answer, Err(Fault::NoForeground)) || reader.whole() {
            return false;
        }
    }
    true
}

/// A fault is final: it is answered again, and no byte is used.
#[test]
fn faults_stay(rt: HostRuntime) -> Result<(), Fail> {
    let mut raster = Raster::new(rt.alloc(), 2, 1)?;
    let mut reader = Reader::new(2, 1, Format::HOST);
    let stays = stays_at_fault(&mut raster, &mut reader);
    assert!(rt; stays);
    Ok(())
}
