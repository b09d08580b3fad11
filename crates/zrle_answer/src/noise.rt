//! Whether an area looks like noise, or like a photograph, which compressing doesn't shorten.

ghost use Rattle.std.specs.Prelude.{◌≡◌, ◌*◌, ◌≤◌, length};
ghost use Rattle.raster.specs.Screen.{IsWithin};

use raster::{Rect, row_of};

/// How many rows there are from one that is looked at to the next.
const STEP: usize = 8;

/// How many colours of a row differ from the two before them, and from the one above.
fn count_unlike(above: &[u32], row: &[u32]) -> usize {
    let mut count: usize = 0;
    for k in 2..row.len().min(above.len()) {
        let colour = row[k];
        let is_unlike = colour != row[k - 1] && colour != above[k] && colour != row[k - 2];
        count = count.wrapping_add(usize::from(is_unlike));
    }
    count
}

/// Whether most colours of an area look like nothing near them. Nothing rests on the answer but how long it takes to
/// write the area, and how many bytes it has.
pub(crate) fn looks_noisy(colours: &[u32], width: usize, height: usize, area: &Rect) -> bool
    requires size { length colours.now ≡ width * height }
    requires small { (width ≤ 4096) × (height ≤ 4096) }
    requires within { IsWithin area.now width height }
{
    let mut unlike: usize = 0;
    let mut looked_at: usize = 0;
    for step in 0..area.h as usize / STEP {
        let above = row_of(colours, width, height, area, step * STEP);
        let row = row_of(colours, width, height, area, step * STEP + 1);
        unlike = unlike.wrapping_add(count_unlike(above, row));
        looked_at = looked_at.wrapping_add(row.len());
    }
    unlike > looked_at / 2
}
