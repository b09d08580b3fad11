//! The marks of a whole tile.

ghost use Rattle.std.specs.Prelude.{◌≡◌, ℕ, ◌+◌, ◌-◌, ◌*◌, ◌<◌, ◌≤◌, ◌^◌, ◌==◌, ◌||◌, not, length, slice_index, count_ones};
ghost use Rattle.std.specs.Int.{bit_at};
ghost use Rattle.raster.specs.Screen.{Canvas, value_at, part_of};
ghost use Rattle.joined_runs.specs.Joined.{runs_over};
ghost use Rattle.hextile_codec.specs.Bits.{bit_of};
ghost use Rattle.hextile_codec.specs.Marks.{LiesAmong};
ghost use Rattle.hextile_codec.specs.Places.{changes_at, AreChanges, AreOthers};
ghost use Rattle.hextile_codec.specs.TileMarks.{AreTileMarks};

use crate::marking::{differences, join_bits, turned};
use crate::rows::row_of;
use raster::Rect;
use std::simd::u32x16;

/// The bit of the last position of four rows.
const LAST: u64 = 1 << 63;

/// The marks of the 16 rows of a whole tile, those of four rows in each word.
#[derive(Clone, Copy)]
pub struct TileMarks {
    pub background: u32,
    pub begins: [u64; 4],
    pub ends: [u64; 4],
}

/// A bit for each position of a row of 16 with another value than the one to the left of it, and for the first.
#[inline]
fn row_changes(row: &[u32]) -> u64
    requires { length row.now ≡ 16 }
    ensures bits { (x : ℕ) → x < 16
        → bit_at result x
        ≡ bit_of ((x == 0) || not (slice_index row.now (x - 1) == slice_index row.now x)) }
    ensures few { result < 2 ^ 16 }
{
    let row = u32x16::from_slice(row);
    differences(turned(row), row) | 1
}

/// A bit for each position of a row of 16 with another value than this one.
#[inline]
fn row_others(row: &[u32], value: u32) -> u64
    requires { length row.now ≡ 16 }
    ensures bits { (x : ℕ) → x < 16
        → bit_at result x ≡ bit_of (not (slice_index row.now x == value)) }
    ensures few { result < 2 ^ 16 }
{
    differences(u32x16::from_slice(row), u32x16::splat(value))
}

/// The changes of four rows of a tile as wide as 16, from row `y` on.
#[inline]
fn four_changes(values: &[u32], w: usize, tile: &Rect, y: usize) -> u64
    requires lies { LiesAmong values.now w tile.now }
    requires wide { tile.now.w ≡ 16 }
    requires rows { y + 4 ≤ tile.now.h }
    ensures bits { (r x : ℕ) → r < 4 → x < 16
        → bit_at result (16 * r + x)
        ≡ bit_of (changes_at (part_of tile.now (value_at w values.now)) (y + r) x) }
    ensures few { result < 2 ^ 64 }
{
    join_bits(
        row_changes(row_of(values, w, tile, y)),
        row_changes(row_of(values, w, tile, y + 1)),
        row_changes(row_of(values, w, tile, y + 2)),
        row_changes(row_of(values, w, tile, y + 3)),
    )
}

/// The positions with another value than this one of four rows of a tile as wide as 16, from row `y` on.
#[inline]
fn four_others(values: &[u32], w: usize, tile: &Rect, y: usize, value: u32) -> u64
    requires lies { LiesAmong values.now w tile.now }
    requires wide { tile.now.w ≡ 16 }
    requires rows { y + 4 ≤ tile.now.h }
    ensures bits { (r x : ℕ) → r < 4 → x < 16
        → bit_at result (16 * r + x)
        ≡ bit_of (not (part_of tile.now (value_at w values.now) x (y + r) == value)) }
    ensures few { result < 2 ^ 64 }
{
    join_bits(
        row_others(row_of(values, w, tile, y), value),
        row_others(row_of(values, w, tile, y + 1), value),
        row_others(row_of(values, w, tile, y + 2), value),
        row_others(row_of(values, w, tile, y + 3), value),
    )
}

/// A bit for each position of a whole tile with another value than the one to the left of it, and for the first of each
/// row.
#[inline]
pub fn find_changes(values: &[u32], w: usize, tile: &Rect) -> [u64; 4]
    requires lies { LiesAmong values.now w tile.now }
    requires wide { tile.now.w ≡ 16 }
    requires high { tile.now.h ≡ 16 }
    ensures { AreChanges (part_of tile.now (value_at w values.now)) result }
{
    [
        four_changes(values, w, tile, 0),
        four_changes(values, w, tile, 4),
        four_changes(values, w, tile, 8),
        four_changes(values, w, tile, 12),
    ]
}

/// A bit for each position of a whole tile with another value than this one.
#[inline]
pub fn find_others(values: &[u32], w: usize, tile: &Rect, value: u32) -> [u64; 4]
    requires lies { LiesAmong values.now w tile.now }
    requires wide { tile.now.w ≡ 16 }
    requires high { tile.now.h ≡ 16 }
    ensures { AreOthers (part_of tile.now (value_at w values.now)) value result }
{
    [
        four_others(values, w, tile, 0, value),
        four_others(values, w, tile, 4, value),
        four_others(values, w, tile, 8, value),
        four_others(values, w, tile, 12, value),
    ]
}

/// How many bits four words have.
#[inline]
pub fn count_bits(words: &[u64; 4]) -> usize
    ensures value { result ≡ count_ones (slice_index words.now 0)
        + count_ones (slice_index words.now 1) + count_ones (slice_index words.now 2)
        + count_ones (slice_index words.now 3) }
    ensures few { result ≤ 256 }
{
    let low = words[0].count_ones() + words[1].count_ones();
    let high = words[2].count_ones() + words[3].count_ones();
    (low + high) as usize
}

impl TileMarks {
    /// The marks over a background, by where values change and which positions have others.
    #[inline]
    pub fn over(background: u32, changes: &[u64; 4], others: &[u64; 4]) -> TileMarks
        ensures marks { (canvas : Canvas) → AreChanges canvas changes.now
            → AreOthers canvas background others.now
            → AreTileMarks canvas background result }
        ensures background { result.background ≡ background }
    {
        TileMarks {
            background,
            begins: [
                changes[0] & others[0],
                changes[1] & others[1],
                changes[2] & others[2],
                changes[3] & others[3],
            ],
            ends: [
                changes[0] >> 1 | LAST,
                changes[1] >> 1 | LAST,
                changes[2] >> 1 | LAST,
                changes[3] >> 1 | LAST,
            ],
        }
    }

    /// How many runs begin.
    pub fn count(&self) -> usize
        ensures value { (canvas : Canvas) → AreTileMarks canvas self.now.background self.now
            → result ≡ length (runs_over canvas self.now.background 16 16) }
        ensures few { result ≤ 256 }
    {
        count_bits(&self.begins)
    }
}
