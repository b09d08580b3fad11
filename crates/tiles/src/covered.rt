//! Which tiles an area meets, and which lie in it.

ghost use Rattle.std.specs.Prelude.{◌≡◌, ℕ, ◌+◌, ◌-◌, ◌*◌, ◌/◌, ◌%◌, ◌<◌, ◌≤◌, ◌↔◌, min, max};
ghost use Rattle.raster.specs.Screen.{IsWithin, common, holds, lies_in, meets, tile_count, tile_rect, tiles_across};
ghost use Rattle.raster.specs.Size.{IsScreenSize};
ghost use Rattle.tiles.specs.Touched.{known_part};

use raster::{Rect, Size, TILE_SIDE};

/// How many tiles there are across a width, or down a height, in pixels.
pub(crate) fn tiles_along(side: u64) -> u64
    requires { side ≤ 4096 }
    ensures { result ≡ tiles_across side }
{
    side.div_ceil(TILE_SIDE)
}

/// Which tiles along a side of the screen a range of pixels meets: the number of the first, and how many.
fn range_met(start: u64, len: u64, side: u64) -> (u64, u64)
    requires range { start + len ≤ 65536 }
    requires side { side ≤ 4096 }
    ensures within { result.0 + result.1 ≤ tiles_across side }
    ensures met { (k : ℕ) → k < tiles_across side
        → ((result.0 ≤ k) × (k < result.0 + result.1))
        ↔ (max start (k * TILE_SIDE)
        < min (start + len) (k * TILE_SIDE + min TILE_SIDE (side - k * TILE_SIDE))) }
{
    if len == 0 || start >= side {
        return (0, 0);
    }
    let tiles = tiles_along(side);
    let first = (start / TILE_SIDE).min(tiles);
    let end = (start + len).div_ceil(TILE_SIDE).min(tiles);
    (first, end - first)
}

/// Which tiles along a side of the screen lie in a range of pixels, as far as this many pixels are known of the side:
/// the number of the first, and how many.
fn range_inside(start: u64, len: u64, side: u64, known: u64) -> (u64, u64)
    requires range { start + len ≤ 65536 }
    requires side { side ≤ 4096 }
    ensures within { result.0 + result.1 ≤ tiles_across side }
    ensures inside { (k : ℕ) → k < tiles_across side
        → ((result.0 ≤ k) × (k < result.0 + result.1))
        ↔ ((start ≤ k * TILE_SIDE)
        × (k * TILE_SIDE
        + (min (k * TILE_SIDE + min TILE_SIDE (side - k * TILE_SIDE)) known - k * TILE_SIDE)
        ≤ start + len)) }
{
    let tiles = tiles_along(side);
    let first = start.div_ceil(TILE_SIDE).min(tiles);
    // The last tile ends where the screen does, and may be shorter than the others. So may the last that is known. What
    // isn't known of a tile has no pixel.
    let end = if start + len >= side {
        tiles
    } else if start + len >= known {
        (start + len) / TILE_SIDE + 1
    } else {
        (start + len) / TILE_SIDE
    };
    (first, end.saturating_sub(first))
}

/// The tiles that an area meets, as a rectangle of tiles: `x` and `w` count columns of tiles, `y` and `h` rows of them.
pub(crate) fn tiles_met(area: &Rect, width: u64, height: u64) -> Rect
    requires size { IsScreenSize width height }
    requires area { IsWithin area.now 65536 65536 }
    ensures within { IsWithin result (tiles_across width) (tiles_across height) }
    ensures met { (t : ℕ) → t < tile_count width height
        → holds result (t % tiles_across width) (t / tiles_across width)
        ≡ meets area.now (tile_rect width height t) }
{
    let (x, w) = range_met(area.x, area.w, width);
    let (y, h) = range_met(area.y, area.h, height);
    Rect { x, y, w, h }
}

/// The tiles that lie in an area, as far as a viewer knows of them that was told this size last, as a rectangle of
/// tiles.
pub(crate) fn tiles_inside(area: &Rect, told: Option<Size>, width: u64, height: u64) -> Rect
    requires size { IsScreenSize width height }
    requires area { IsWithin area.now 65536 65536 }
    ensures within { IsWithin result (tiles_across width) (tiles_across height) }
    ensures inside { (t : ℕ) → t < tile_count width height
        → holds result (t % tiles_across width) (t / tiles_across width)
        ≡ lies_in (common (tile_rect width height t) (known_part told)) area.now }
{
    let known = told.unwrap_or(Size {
        width: 65536,
        height: 65536,
    });
    let (x, w) = range_inside(area.x, area.w, width, known.width);
    let (y, h) = range_inside(area.y, area.h, height, known.height);
    Rect { x, y, w, h }
}
