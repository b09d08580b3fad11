//! Tiles of 16 by 16 pixels.

ghost use Rattle.std.specs.Prelude.{◌≡◌, ◌<◌, ◌≤◌, ◌^◌};
ghost use Rattle.raster.specs.Screen.{tile_count, tile_rect};

use crate::rect::Rect;

/// The width and height of a tile in pixels. Only tiles at the right and at the bottom may be smaller (RFC 6143,
/// 7.7.4).
pub const TILE_SIDE: u64 = 16;

/// How many tiles a rectangle of `w` by `h` pixels has, including those that are cut off at the right and at the bottom
/// (RFC 6143, 7.7.4).
pub fn tile_count(w: u64, h: u64) -> u64
    requires wide { w ≤ 65535 }
    requires high { h ≤ 65535 }
    ensures value { result ≡ tile_count w h }
    ensures few { result ≤ 2 ^ 24 }
{
    w.div_ceil(TILE_SIDE) * h.div_ceil(TILE_SIDE)
}

/// Where tile number `k` of a rectangle of `w` by `h` pixels lies. Tiles are counted from 0, row after row from the
/// top, each row from the left (RFC 6143, 7.7.4).
pub fn tile_rect(w: u64, h: u64, k: u64) -> Rect
    requires wide { w ≤ 65535 }
    requires high { h ≤ 65535 }
    requires one { k < tile_count w h }
    ensures { result ≡ tile_rect w h k }
{
    let across = w.div_ceil(TILE_SIDE);
    let x = k % across * TILE_SIDE;
    let y = k / across * TILE_SIDE;
    Rect {
        x,
        y,
        w: (w - x).min(TILE_SIDE),
        h: (h - y).min(TILE_SIDE),
    }
}
