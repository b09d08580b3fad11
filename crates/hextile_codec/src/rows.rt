//! The rows of a tile.

ghost use Rattle.std.specs.Prelude.{◌≡◌, ℕ, ◌<◌, length, slice_index};
ghost use Rattle.raster.specs.Screen.{value_at, part_of};
ghost use Rattle.hextile_codec.specs.Marks.{LiesAmong};

use raster::Rect;

/// Row `y` of a tile, of values that stand in rows of `w`.
pub fn row_of<'a>(values: &'a [u32], w: usize, tile: &Rect, y: usize) -> &'a [u32]
    requires lies { LiesAmong values.now w tile.now }
    requires row { y < tile.now.h }
    ensures len { length result.now ≡ tile.now.w }
    ensures values { (x : ℕ) → x < tile.now.w
        → slice_index result.now x ≡ part_of tile.now (value_at w values.now) x y }
{
    let start = tile.y as usize * w + tile.x as usize + y * w;
    &values[start..start + tile.w as usize]
}
