//! The tile or the area of a line, written.

use crate::words::{format_of, numbers_of, parted};
use raster::Rect;
use std::test::Fail;
use zrle_codec::{Cpixels, Encoder, write_tile};

/// The most pixels across a tile, and down one.
const TILE_SIDE: usize = 64;

/// The most pixels across a screen, and down one.
const SCREEN_SIDE: usize = 4096;

/// Prints bytes in hex, on a line of their own.
fn print_bytes(rt: &HostRuntime, bytes: &[u8]) -> Result<(), Fail> {
    let text = hex::encode(rt.alloc(), bytes)?;
    println!(rt; "{text}")?;
    Ok(())
}

/// Prints the bytes of the tile `FORMAT W H VALUES`.
pub(crate) fn print_tile(rt: &HostRuntime, line: &str) -> Result<(), Fail> {
    let alloc = rt.alloc();
    let (format, rest) = parted(line);
    let (w, rest) = parted(rest);
    let (h, rest) = parted(rest);
    let pixels = Cpixels::new(&format_of(alloc, format)?);
    let (w, h) = (w.parse::<usize>()?, h.parse::<usize>()?);
    let values = numbers_of(alloc, rest)?;
    if w == 0 || w > TILE_SIDE || h == 0 || h > TILE_SIDE || values.len() != w * h {
        return Err(Fail::new("no such tile"));
    }
    let mut out = Vec::new(alloc);
    write_tile(&pixels, w, h, values.as_slice(), &mut out)?;
    print_bytes(rt, out.as_slice())
}

/// The rectangle `X Y W H`, and what stands behind it.
fn rect_of(line: &str) -> Result<(Rect, &str), Fail> {
    let (x, rest) = parted(line);
    let (y, rest) = parted(rest);
    let (w, rest) = parted(rest);
    let (h, rest) = parted(rest);
    let rect = Rect {
        x: x.parse::<u64>()?,
        y: y.parse::<u64>()?,
        w: w.parse::<u64>()?,
        h: h.parse::<u64>()?,
    };
    Ok((rect, rest))
}

/// Prints the part of the area `FORMAT WIDTH HEIGHT X Y W H COLOURS`.
pub(crate) fn print_area(rt: &HostRuntime, encoder: &mut Encoder, line: &str) -> Result<(), Fail> {
    let alloc = rt.alloc();
    let (format, rest) = parted(line);
    let (width, rest) = parted(rest);
    let (height, rest) = parted(rest);
    let (area, rest) = rect_of(rest)?;
    let pixels = Cpixels::new(&format_of(alloc, format)?);
    let (width, height) = (width.parse::<usize>()?, height.parse::<usize>()?);
    let colours = numbers_of(alloc, rest)?;
    if width > SCREEN_SIDE || height > SCREEN_SIDE || colours.len() != width * height {
        return Err(Fail::new("no such screen"));
    }
    if !area.within(width as u64, height as u64) {
        return Err(Fail::new("no such area"));
    }
    let mut out = Vec::new(alloc);
    encoder.append(&pixels, colours.as_slice(), width, height, &area, &mut out)?;
    print_bytes(rt, out.as_slice())
}
