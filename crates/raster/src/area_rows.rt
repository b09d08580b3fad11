//! The rows of an area of values that stand in rows.

ghost use Rattle.std.specs.Prelude.{◌≡◌, ◌+◌, ◌*◌, ◌<◌, ◌^◌, length, map};
ghost use Rattle.std.specs.List.{range_with_len};
ghost use Rattle.pixel_format.specs.PixelFormat.{pixel_len, row_bytes, tint};
ghost use Rattle.raster.specs.Screen.{IsWithin, part_of, value_at, values_of};

use crate::rect::Rect;
use pixel_format::Format;

/// Row `row` of an area of values that stand in rows of `width`.
pub fn row_of<'a>(
    colours: &'a [u32],
    width: usize,
    height: usize,
    area: &Rect,
    row: usize,
) -> &'a [u32]
    requires size { length colours.now ≡ width * height }
    requires small { (width < 2 ^ 16) × (height < 2 ^ 16) }
    requires within { IsWithin area.now width height }
    requires row { row < area.now.h }
    ensures across { length result.now ≡ area.now.w }
    ensures shows { result.now
        ≡ map (λ x. value_at width colours.now (area.now.x + x) (area.now.y + row))
        (range_with_len 0 area.now.w) }
{
    let from = (area.y as usize + row) * width + area.x as usize;
    &colours[from..from + area.w as usize]
}

/// Writes the pixel bytes of an area of colours, row after row.
pub fn write_rows(
    colours: &[u32],
    width: usize,
    height: usize,
    area: &Rect,
    format: &Format,
    out: &mut [u8],
)
    requires size { length colours.now ≡ width * height }
    requires small { (width < 2 ^ 16) × (height < 2 ^ 16) }
    requires within { IsWithin area.now width height }
    requires room { length out.old ≡ pixel_len format.now * (area.now.w * area.now.h) }
    ensures { out.new ≡ row_bytes format.now
        (values_of area.now.w area.now.h (part_of area.now (value_at width colours.now))) }
{
    let row_len = format.bytes() * area.w as usize;
    for row in 0..area.h as usize {
        let part = row_of(colours, width, height, area, row);
        let start = row * row_len;
        format.tint_row(part, &mut out[start..start + row_len]);
    }
}

/// Writes the pixel values of an area of colours, row after row.
pub fn tint_rows(
    colours: &[u32],
    width: usize,
    height: usize,
    area: &Rect,
    format: &Format,
    values: &mut [u32],
)
    requires size { length colours.now ≡ width * height }
    requires small { (width < 2 ^ 16) × (height < 2 ^ 16) }
    requires within { IsWithin area.now width height }
    requires room { length values.old ≡ area.now.w * area.now.h }
    ensures { values.new ≡ map (tint format.now)
        (values_of area.now.w area.now.h (part_of area.now (value_at width colours.now))) }
{
    let across = area.w as usize;
    for row in 0..area.h as usize {
        let part = row_of(colours, width, height, area, row);
        let start = row * across;
        format.tint_values(part, &mut values[start..start + across]);
    }
}
