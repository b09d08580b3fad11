//! Drawing the pixels of a Raw tile.

ghost use Rattle.std.specs.Prelude.{◌≡◌, ◌+◌, ◌*◌, ◌/◌, ◌<◌, ◌≤◌, ◌^◌, length, take, min};
ghost use Rattle.pixel_format.specs.PixelFormat.{pixel_len};
ghost use Rattle.raster.specs.Screen.{LooksLike, lay, value_at, kept};
ghost use Rattle.hextile_codec.specs.Ahead.{DrawsIn, DrawsTo, IsTile, pixels_in};

use crate::colours::Colours;
use crate::drawing::Drawn;
use crate::stage::Stage;
use pixel_format::Format;
use raster::{Canvas, Rect, TILE_SIDE, VALUE_LEN};

/// The pixel values in some bytes, one for each.
fn get_row(format: &Format, bytes: &[u8], values: &mut [u32])
    requires { length bytes.now ≡ length values.old * pixel_len format.now }
    ensures { values.new ≡ pixels_in format.now (length values.old) bytes.now }
{
    let format = *format;
    let size = format.bytes();
    let mut rest = bytes;
    for value in values.iter_mut() {
        let (field, others) = rest.split_at(size);
        *value = format.get_pixel(field);
        rest = others;
    }
}

/// Draws this many pixels of a row, from a position on.
fn draw_row<C: Canvas>(format: &Format, x: u64, y: u64, count: usize, bytes: &[u8], canvas: &mut C)
    requires few { count ≤ TILE_SIDE }
    requires bytes { length bytes.now ≡ count * pixel_len format.now }
    requires across { x + count ≤ C.width canvas.old }
    requires small { x + count < 2 ^ 64 }
    requires down { y < C.height canvas.old }
    ensures width { C.width canvas.new ≡ C.width canvas.old }
    ensures height { C.height canvas.new ≡ C.height canvas.old }
    ensures stays { C.Stays canvas.old canvas.new }
    ensures shows { LooksLike (C.width canvas.old) (C.height canvas.old) (C.shows canvas.new)
        (lay (record { x = x; y = y; w = count; h = 1 })
        (kept C.keeps (value_at count (pixels_in format.now count bytes.now)))
        (C.shows canvas.old)) }
{
    if format.spells_words() {
        let (words, _) = bytes.as_chunks::<VALUE_LEN>();
        return canvas.put_bytes(x, y, words);
    }
    let mut values = [0; TILE_SIDE as usize];
    let row = &mut values[..count];
    get_row(format, bytes, row);
    canvas.put_row(x, y, row);
}

/// How many pixels of `size` bytes lie in `len` bytes, up to a number of them.
fn pixels_upto(most: u64, len: usize, size: usize) -> u64
    requires few { most ≤ TILE_SIDE }
    requires some { 0 < size }
    requires small { size ≤ 4 }
    ensures { result ≡ min most (len / size) }
{
    // There is no division where the bytes have them all.
    if most as usize * size <= len {
        most
    } else {
        (len / size) as u64
    }
}

/// Draws the pixels that the bytes have, after those that have come, row by row.
pub fn draw_pixels<C: Canvas>(
    format: &Format,
    area: Rect,
    carried: Colours,
    come: u64,
    bytes: &[u8],
    canvas: &mut C,
) -> Drawn
    requires some { come < area.w * area.h }
    requires count { pixel_len format.now ≤ length bytes.now }
    requires tile { IsTile area (C.width canvas.old) (C.height canvas.old) }
    ensures canvas { DrawsIn area (C.width canvas.old) (C.height canvas.old) (C.shows canvas.old)
        (C.width canvas.new) (C.height canvas.new) (C.shows canvas.new) }
    ensures stays { C.Stays canvas.old canvas.new }
    ensures used { pixel_len format.now ≤ result.used }
    ensures within { result.used ≤ length bytes.now }
    ensures drawn { DrawsTo C.keeps format.now area carried (Stage.RawPixels come)
        (take result.used bytes.now) (C.shows canvas.old) (C.shows canvas.new) result }
{
    let size = format.bytes();
    let mut count = come;
    let mut rest = bytes;
    while count < area.w * area.h && size <= rest.len() {
        let column = count % area.w;
        let now = pixels_upto(area.w - column, rest.len(), size);
        let (row, others) = rest.split_at(now as usize * size);
        draw_row(
            format,
            area.x + column,
            area.y + count / area.w,
            now as usize,
            row,
            canvas,
        );
        count += now;
        rest = others;
    }
    Drawn {
        used: bytes.len() - rest.len(),
        carried,
        stage: Stage::RawPixels(count),
    }
}
