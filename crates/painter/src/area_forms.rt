//! The kept forms of the tiles that a part of the screen shows.

ghost use Rattle.std.specs.Prelude.{IsTrue};
ghost use Rattle.raster.specs.Screen.{Canvas, IsWithin, part_of};
ghost use Rattle.raster.specs.Size.{IsScreenSize};
ghost use Rattle.hextile_codec.specs.Kept.{AreFormsOf};
ghost use Rattle.painter.specs.WholeTiles.{HasWholeTiles};

use hextile_codec::TileForm;
use raster::{Rect, TILE_SIDE};

/// Whether an area of a screen consists of whole tiles of the screen: each of its edges stands at a multiple of a
/// tile's side, or at the end of the screen.
fn has_whole_tiles(area: &Rect, width: u64, height: u64) -> bool
    requires size { IsScreenSize width height }
    requires within { IsWithin area.now width height }
    ensures { IsTrue result → HasWholeTiles area.now width height }
{
    let (right, bottom) = (area.x + area.w, area.y + area.h);
    area.x % TILE_SIDE == 0
        && area.y % TILE_SIDE == 0
        && (right % TILE_SIDE == 0 || right == width)
        && (bottom % TILE_SIDE == 0 || bottom == height)
}

/// The kept forms of the first row of tiles in an area, from the left. There are none where the area cuts a tile, or
/// where some of these tiles are beyond the list.
pub(crate) fn forms_in<'a>(
    forms: &'a [Option<TileForm>],
    width: u64,
    height: u64,
    area: &Rect,
) -> &'a [Option<TileForm>]
    requires size { IsScreenSize width height }
    requires within { IsWithin area.now width height }
    ensures { (colours : Canvas) → AreFormsOf width height colours forms.now
        → AreFormsOf area.now.w area.now.h (part_of area.now colours) result.now }
{
    if !has_whole_tiles(area, width, height) {
        return &[];
    }
    let across = width.div_ceil(TILE_SIDE);
    let first = (area.y / TILE_SIDE * across + area.x / TILE_SIDE) as usize;
    let end = first + area.w.div_ceil(TILE_SIDE) as usize;
    if forms.len() < end {
        return &[];
    }
    &forms[first..end]
}
