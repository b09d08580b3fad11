//! Copies parts of a screen to another screen. Both are rows of colours.

ghost use Rattle.std.specs.Prelude.{◌≡◌, ℕ, ◌+◌, ◌*◌, ◌<◌, ◌≤◌, ◌^◌, length, slice_index};
ghost use Rattle.painter.specs.Newer.{TookTiles};
ghost use Rattle.tiles.specs.Grid.{is_lacked};
ghost use Rattle.raster.specs.Screen.{IsWithin, LooksLike, lay, part_of, value_at};

use raster::{Rect, lay_part};
use tiles::{Grid, LackedSince, Walk};

/// Copies a rectangle of a screen of `width` by `height` to its place on another of that size, row by row.
pub fn copy_area(from: &[u32], into: &mut [u32], width: usize, height: usize, area: &Rect)
    requires from { length from.now ≡ width * height }
    requires into { length into.old ≡ width * height }
    requires small { width * height < 2 ^ 62 }
    requires within { IsWithin area.now width height }
    ensures { LooksLike width height (value_at width into.new)
        (lay area.now (part_of area.now (value_at width from.now)) (value_at width into.old)) }
{
    let across = area.w as usize;
    for row in 0..area.h as usize {
        let start = (area.y as usize + row) * width + area.x as usize;
        lay_part(into, start, &from[start..start + across]);
    }
}

/// Copies, run by run, the tiles that were touched after update `number` according to a newer grid, but not according
/// to the grid that is behind.
pub(crate) fn copy_lacked(from: &[u32], into: &mut [u32], grid: &Grid, newer: &Grid, number: u64)
    requires size { (newer.now.width ≡ grid.now.width) × (newer.now.height ≡ grid.now.height) }
    requires from { length from.now ≡ newer.now.width * newer.now.height }
    requires into { length into.old ≡ newer.now.width * newer.now.height }
    ensures { TookTiles newer.now.width newer.now.height (is_lacked grid.now newer.now number)
        from.now into.old into.new }
{
    let (width, height) = newer.size();
    let lacked = LackedSince::new(grid, newer, number);
    let all = Rect {
        x: 0,
        y: 0,
        w: width,
        h: height,
    };
    let mut walk = Walk::new(&all, width, height);
    while let Some(run) = walk.next(&lacked) {
        copy_area(from, into, width as usize, height as usize, &run.area);
    }
}
