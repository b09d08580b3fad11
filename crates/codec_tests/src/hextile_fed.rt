//! Rectangles in Hextile, fed in pieces of one size to a raster.

ghost use Rattle.std.specs.Prelude.{◌≡◌, ◌≤◌, ◌<◌, length};

use fault::Fault;
use hextile_codec::Reader;
use pixel_format::Format;
use raster::Raster;
use std::alloc::Global;

/// What was read: how many bytes were used, and whether the rectangle is whole.
#[derive(Clone, Copy, PartialEq, Eq)]
pub struct Fed {
    pub used: usize,
    pub whole: bool,
}

/// Feeds a rectangle of a raster's size in a format, in pieces of this many bytes.
pub fn feed(raster: &mut Raster, format: Format, bytes: &[u8], size: usize) -> Result<Fed, Fault>
    requires wide { raster.old.width ≤ 4096 }
    requires high { raster.old.height ≤ 4096 }
    requires some { 0 < size }
    ensures width { raster.new.width ≡ raster.old.width }
    ensures height { raster.new.height ≡ raster.old.height }
{
    let mut reader = Reader::new(raster.width(), raster.height(), format);
    let mut used: usize = 0;
    for piece in bytes.chunks(size) {
        used = used.saturating_add(reader.feed(raster, piece)?);
    }
    Ok(Fed {
        used,
        whole: reader.whole(),
    })
}

/// Feeds a rectangle in the host's format to a new raster.
pub fn feed_new(alloc: Global, w: u64, h: u64, bytes: &[u8], size: usize) -> Result<Fed, Fault>
    requires wide { w ≤ 4096 }
    requires high { h ≤ 4096 }
    requires some { 0 < size }
{
    let mut raster = Raster::new(alloc, w, h)?;
    feed(&mut raster, Format::HOST, bytes, size)
}

/// Whether a rectangle of one row shows these values and is whole after these bytes, in pieces of one size.
fn shows_row_by(alloc: Global, bytes: &[u8], row: &[u32], size: usize) -> Result<bool, Fault>
    requires few { length row.now ≤ 4096 }
    requires some { 0 < size }
{
    let mut raster = Raster::new(alloc, row.len() as u64, 1)?;
    let fed = feed(&mut raster, Format::HOST, bytes, size)?;
    Ok(fed.whole && fed.used == bytes.len() && raster.row(0) == row)
}

/// Whether a rectangle of one row shows these values and is whole after these bytes, at once and byte by byte.
pub fn shows_row(alloc: Global, bytes: &[u8], row: &[u32]) -> bool
    requires { length row.now ≤ 4096 }
{
    matches!(shows_row_by(alloc, bytes, row, 4096), Ok(true))
        && matches!(shows_row_by(alloc, bytes, row, 1), Ok(true))
}

/// The number of the fault that these bytes lead to, or 0.
pub fn fault_after(alloc: Global, w: u64, h: u64, bytes: &[u8], size: usize) -> u64
    requires wide { w ≤ 4096 }
    requires high { h ≤ 4096 }
    requires some { 0 < size }
{
    match feed_new(alloc, w, h, bytes, size) {
        Ok(_) => 0,
        Err(fault) => fault.number(),
    }
}

/// Whether these bytes lead to a fault at the last of them, at once and byte by byte.
pub fn fails_at_last(alloc: Global, w: u64, h: u64, bytes: &[u8], number: u64) -> bool
    requires wide { w ≤ 4096 }
    requires high { h ≤ 4096 }
    requires some { 0 < length bytes.now }
{
    let before = &bytes[..bytes.len() - 1];
    fault_after(alloc, w, h, bytes, 4096) == number
        && fault_after(alloc, w, h, bytes, 1) == number
        && fault_after(alloc, w, h, before, 4096) == 0
        && fault_after(alloc, w, h, before, 1) == 0
}
