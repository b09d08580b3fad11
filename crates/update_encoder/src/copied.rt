//! Whether a part of the screen shows what the part above it does.

ghost use Rattle.std.specs.Prelude.{◌≡◌, ◌*◌, ◌≤◌, length};
ghost use Rattle.raster.specs.Screen.{IsWithin, value_at};
ghost use Rattle.update_encoder.specs.Answer.{colours_in, repeats, same_numbers};

use raster::{Rect, row_of};

/// Whether two areas of one size show the same colours.
fn same_colours(colours: &[u32], width: usize, height: usize, above: &Rect, area: &Rect) -> bool
    requires size { length colours.now ≡ width * height }
    requires small { (width ≤ 4096) × (height ≤ 4096) }
    requires above { IsWithin above.now width height }
    requires within { IsWithin area.now width height }
    requires wide { above.now.w ≡ area.now.w }
    requires high { above.now.h ≡ area.now.h }
    ensures { result ≡ same_numbers (colours_in (value_at width colours.now) above.now)
        (colours_in (value_at width colours.now) area.now) }
{
    for row in 0..area.h as usize {
        let upper = row_of(colours, width, height, above, row);
        let lower = row_of(colours, width, height, area, row);
        if upper != lower {
            return false;
        }
    }
    true
}

/// Whether an area repeats another: it is as wide and as high, lies directly below, and shows the same colours.
pub fn repeats(colours: &[u32], width: usize, height: usize, above: &Rect, area: &Rect) -> bool
    requires size { length colours.now ≡ width * height }
    requires small { (width ≤ 4096) × (height ≤ 4096) }
    requires above { IsWithin above.now width height }
    requires within { IsWithin area.now width height }
    ensures { result ≡ repeats (value_at width colours.now) above.now area.now }
{
    above.x == area.x
        && above.w == area.w
        && above.h == area.h
        && above.y + above.h == area.y
        && same_colours(colours, width, height, above, area)
}
