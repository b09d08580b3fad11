//! Tiles that are crowded with values, told before their subrectangles are found.

ghost use Rattle.std.specs.Prelude.{◌≡◌, ℕ, ◌+◌, ◌-◌, ◌*◌, ◌<◌, ◌≤◌, ◌==◌, ◌&&◌, filter, length, slice_index, IsTrue};
ghost use Rattle.std.specs.List.{range_with_len};
ghost use Rattle.raster.specs.Screen.{part_of, value_at};
ghost use Rattle.joined_runs.specs.declared.rect_form.RectForm.TheVariants.{OfRows, Joined};
ghost use Rattle.hextile_codec.specs.Crowded.{is_corner, is_seen, shown_in, AreBegun};
ghost use Rattle.hextile_codec.specs.TileKinds.{HasMany};
ghost use Rattle.hextile_codec.specs.Marks.{LiesAmong};

use crate::marking::{differences, turned};
use crate::rows::row_of;
use raster::{Rect, TILE_SIDE};
use std::simd::u32x16;

/// With fewer corners a row, in the rows so far, a tile isn't taken for crowded.
const FEW: usize = 8;

/// How many positions a row has.
const ROW: usize = TILE_SIDE as usize;

/// A tile with this many more corners than are needed is judged by low bands.
const SURE: usize = 80;

/// How many rows a low band has. Few rows are compared in it, and a value may show once in each column of it.
const LOW: usize = 4;

/// How many rows a high band has.
const HIGH: usize = 8;

/// How many corners a row has at least: positions with another value than those to the left and in another row.
fn count_corners(row: u32x16, other: u32x16) -> usize
    requires row { length row ≡ 16 }
    requires other { length other ≡ 16 }
    ensures corners { result ≤ length (filter (is_corner row other) (range_with_len 0 16)) }
    ensures few { result ≤ 16 }
{
    // The first position is compared with the last, since none is to the left of it.
    let corners = differences(turned(row), row) & differences(other, row);
    corners.count_ones() as usize
}

/// The same of two rows as slices.
fn row_corners(row: &[u32], other: &[u32]) -> usize
    requires row { length row.now ≡ 16 }
    requires other { length other.now ≡ 16 }
    ensures corners { result ≤ length (filter (is_corner row.now other.now) (range_with_len 0 16)) }
    ensures few { result ≤ 16 }
{
    count_corners(u32x16::from_slice(row), u32x16::from_slice(other))
}

/// The row of a tile of `h` rows above this one. That of the first row is the second, or itself: it makes no difference,
/// since nothing is above the first.
fn beside(y: usize, h: usize) -> usize
    requires { y < h }
    ensures above { 0 < y → result ≡ y - 1 }
    ensures within { result < h }
{
    if y == 0 { usize::from(h > 1) } else { y - 1 }
}

/// How many joined runs begin in a tile at least, whatever the background is, and with those positions that show it; 0
/// where few do.
fn tile_corners(values: &[u32], w: usize, tile: &Rect) -> usize
    requires lies { LiesAmong values.now w tile.now }
    requires wide { tile.now.w ≡ 16 }
    requires high { tile.now.h ≤ TILE_SIDE }
    ensures begun { AreBegun (part_of tile.now (value_at w values.now))
        tile.now.h tile.now.h result }
    ensures few { result ≤ 256 }
{
    let h = tile.h as usize;
    let mut corners = 0;
    for y in 0..h {
        corners += row_corners(
            row_of(values, w, tile, y),
            row_of(values, w, tile, beside(y, h)),
        );
        if corners < FEW * y {
            return 0;
        }
    }
    corners
}

/// At how many positions two rows have the same value.
fn count_same(row: &[u32], other: &[u32]) -> usize
    requires row { length row.now ≡ 16 }
    requires other { length other.now ≡ 16 }
    ensures same { length (filter (λ x. slice_index row.now x == slice_index other.now x)
        (range_with_len 0 16)) ≤ result }
    ensures few { result ≤ 16 }
{
    let apart = differences(u32x16::from_slice(row), u32x16::from_slice(other));
    ROW - (apart.count_ones() as usize).min(ROW)
}

/// At how many positions at most row `y` of a tile has a value that its column also has in the `count` rows from `top` on.
fn count_again(values: &[u32], w: usize, tile: &Rect, y: usize, top: usize, count: usize) -> usize
    requires lies { LiesAmong values.now w tile.now }
    requires wide { tile.now.w ≡ 16 }
    requires row { y < tile.now.h }
    requires rows { top + count ≤ tile.now.h }
    requires few { count ≤ TILE_SIDE }
    ensures again { let canvas = part_of tile.now (value_at w values.now) in
        (value : ℕ)
        → length (filter (λ x. (canvas x y == value) && is_seen canvas value top count x)
        (range_with_len 0 16)) ≤ result }
    ensures few { result ≤ 256 }
{
    let row = row_of(values, w, tile, y);
    let mut again = 0;
    for n in 0..count {
        again += count_same(row, row_of(values, w, tile, top + n));
    }
    again
}

/// Any value shows at no more positions of a tile than these. Within bands of this many rows each row is compared with
/// those above it.
fn most_shown(values: &[u32], w: usize, tile: &Rect, band: usize) -> usize
    requires lies { LiesAmong values.now w tile.now }
    requires wide { tile.now.w ≡ 16 }
    requires some { 0 < tile.now.h }
    requires high { tile.now.h ≤ TILE_SIDE }
    ensures { (value : ℕ)
        → shown_in (part_of tile.now (value_at w values.now)) value tile.now.h ≤ result }
{
    let mut top = 0;
    // A value may show once in each column of a band.
    let mut most = ROW;
    for y in 1..tile.h as usize {
        if y - top == band {
            top = y;
            most += ROW;
        } else {
            most += count_again(values, w, tile, y, top, y - top);
        }
    }
    most
}

/// How high the bands are by which a tile is judged that has this many more corners than are needed.
fn band_for(spare: usize) -> usize {
    if spare < SURE { HIGH } else { LOW }
}

/// Whether a tile as wide as 16 is seen to have `enough` runs in either form, of more values than one, over any
/// background.
pub fn is_crowded(values: &[u32], w: usize, tile: &Rect, enough: usize) -> bool
    requires lies { LiesAmong values.now w tile.now }
    requires wide { tile.now.w ≡ 16 }
    requires h_some { 0 < tile.now.h }
    requires high { tile.now.h ≤ TILE_SIDE }
    ensures joined { IsTrue result
        → HasMany Joined 16 tile.now.h (part_of tile.now (value_at w values.now)) enough }
    ensures rows { IsTrue result
        → HasMany OfRows 16 tile.now.h (part_of tile.now (value_at w values.now)) enough }
{
    let corners = tile_corners(values, w, tile);
    if corners <= enough {
        return false;
    }
    let spare = corners - enough;
    most_shown(values, w, tile, band_for(spare)) < enough.min(spare + 1)
}
