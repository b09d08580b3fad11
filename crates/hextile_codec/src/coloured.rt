//! Numbers that are colours, which have 24 bits.

ghost use Rattle.std.specs.Prelude.{◌≡◌, length, nat_lt, IsTrue};
ghost use Rattle.std.specs.List.{list_all};
ghost use Rattle.raster.specs.Screen.{part_of, value_at};
ghost use Rattle.hextile_codec.specs.Kept.{AreColours};
ghost use Rattle.hextile_codec.specs.Marks.{LiesAmong};

use crate::rows::row_of;
use raster::{Rect, TILE_SIDE};
use std::simd::cmp::SimdPartialOrd;
use std::simd::u32x16;

/// Whether each number of a row is a colour. A whole row of a tile is compared at once.
fn are_colours(row: &[u32]) -> bool
    ensures { result ≡ list_all (λ v. nat_lt v 16777216) row.now }
{
    if row.len() == TILE_SIDE as usize {
        let end = u32x16::splat(1 << 24);
        return u32x16::from_slice(row).simd_lt(end).all();
    }
    row.iter().all(|colour| *colour < 1 << 24)
}

/// Whether each number of a tile as wide as 16 is a colour. What bits its columns have is gathered first, so that only
/// one row is compared.
fn are_rows_coloured(numbers: &[u32], w: usize, tile: &Rect) -> bool
    requires lies { LiesAmong numbers.now w tile.now }
    requires wide { tile.now.w ≡ 16 }
    ensures { IsTrue result → AreColours 16 tile.now.h (part_of tile.now (value_at w numbers.now)) }
{
    let mut bits = u32x16::splat(0);
    for y in 0..tile.h as usize {
        bits = bits | u32x16::from_slice(row_of(numbers, w, tile, y));
    }
    are_colours(&bits.to_array())
}

/// Whether each number of a tile is a colour.
pub fn is_coloured(numbers: &[u32], w: usize, tile: &Rect) -> bool
    requires { LiesAmong numbers.now w tile.now }
    ensures { IsTrue result
        → AreColours tile.now.w tile.now.h (part_of tile.now (value_at w numbers.now)) }
{
    if tile.w == TILE_SIDE {
        return are_rows_coloured(numbers, w, tile);
    }
    for y in 0..tile.h as usize {
        if !are_colours(row_of(numbers, w, tile, y)) {
            return false;
        }
    }
    true
}
