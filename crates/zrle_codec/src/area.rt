//! Where the tiles of a rectangle lie (RFC 6143, section 7.7.6).

ghost use Rattle.std.specs.Prelude.{◌≡◌, ◌+◌, ◌<◌, ◌≤◌, ◌^◌};
ghost use Rattle.raster.specs.Screen.{IsWithin};
ghost use Rattle.zrle_codec.specs.Areas.{zrle_tile_count, zrle_tile_rect};

use raster::Rect;

/// The width and height of a tile in pixels. Only tiles at the right and at the bottom may be smaller.
const TILE_SIDE: u64 = 64;

/// How many tiles a rectangle of `w` by `h` pixels has.
#[tactic(auto, using(crate::proofs::TilesOfAreas::few_tiles))]
pub fn zrle_tile_count(w: u64, h: u64) -> u64
    requires wide { w ≤ 4096 }
    requires high { h ≤ 4096 }
    ensures value { result ≡ zrle_tile_count w h }
    ensures few { result ≤ 4096 }
{
    w.div_ceil(TILE_SIDE) * h.div_ceil(TILE_SIDE)
}

/// Where tile number `t` of a rectangle of `w` by `h` pixels lies, from 0 on, row after row.
#[tactic(auto, using(crate::proofs::TilesOfAreas::lies_at))]
pub fn zrle_tile_rect(w: u64, h: u64, t: u64) -> Rect
    requires wide { w ≤ 4096 }
    requires high { h ≤ 4096 }
    requires one { t < zrle_tile_count w h }
    ensures value { result ≡ zrle_tile_rect w h t }
    ensures within { IsWithin result w h }
    ensures wide { (1 ≤ result.w) × (result.w ≤ 64) }
    ensures high { (1 ≤ result.h) × (result.h ≤ 64) }
{
    let across = w.div_ceil(TILE_SIDE);
    let x = t % across * TILE_SIDE;
    let y = t / across * TILE_SIDE;
    Rect {
        x,
        y,
        w: (w - x).min(TILE_SIDE),
        h: (h - y).min(TILE_SIDE),
    }
}
