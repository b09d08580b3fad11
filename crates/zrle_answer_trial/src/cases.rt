//! The rectangle of a line, written.

use crate::words::{format_of, numbers_of, parted};
use raster::Rect;
use std::test::Fail;
use zrle_answer::RectangleWriter;
use zrle_codec::Cpixels;

/// The most pixels across a screen, and down one.
pub(crate) const SCREEN_SIDE: usize = 4096;

/// The rectangle `X Y W H`, and what stands behind it.
pub(crate) fn rect_of(line: &str) -> Result<(Rect, &str), Fail> {
    let (x, rest) = parted(line);
    let (y, rest) = parted(rest);
    let (w, rest) = parted(rest);
    let (h, rest) = parted(rest);
    let rect = Rect {
        x: x.parse::<u64>()?,
        y: y.parse::<u64>()?,
        w: w.parse::<u64>()?,
        h: h.parse::<u64>()?,
    };
    Ok((rect, rest))
}

/// Prints, in hex, the rectangle `FORMAT WIDTH HEIGHT X Y W H COLOURS`, for a stream that has begun or has not.
pub(crate) fn print_rectangle(
    rt: &HostRuntime,
    writer: &mut RectangleWriter,
    begun: bool,
    line: &str,
) -> Result<(), Fail> {
    let alloc = rt.alloc();
    let (format, rest) = parted(line);
    let (width, rest) = parted(rest);
    let (height, rest) = parted(rest);
    let (area, rest) = rect_of(rest)?;
    let pixels = Cpixels::new(&format_of(alloc, format)?);
    let (width, height) = (width.parse::<usize>()?, height.parse::<usize>()?);
    let colours = numbers_of(alloc, rest)?;
    if width > SCREEN_SIDE || height > SCREEN_SIDE || colours.len() != width * height {
        return Err(Fail::new("no such screen"));
    }
    if !area.within(width as u64, height as u64) {
        return Err(Fail::new("no such area"));
    }
    let mut out = Vec::new(alloc);
    writer.append(
        &pixels,
        colours.as_slice(),
        width,
        height,
        &area,
        begun,
        &mut out,
    )?;
    let text = hex::encode(alloc, out.as_slice())?;
    println!(rt; "{text}")?;
    Ok(())
}
