//! Where the runs of four rows of a tile begin and end, as bits of their positions.

ghost use Rattle.std.specs.Prelude.{◌≡◌, ℕ, ◌+◌, ◌-◌, ◌<◌, ◌≤◌, ◌^◌, ◌==◌, not, length, slice_index};
ghost use Rattle.std.specs.Int.{bit_at};
ghost use Rattle.raster.specs.Screen.{value_at, part_of};
ghost use Rattle.raster.specs.Encoding.{begins_run};
ghost use Rattle.raster.specs.RowShown.{row_shows};
ghost use Rattle.hextile_codec.specs.Bits.{bit_of};
ghost use Rattle.hextile_codec.specs.Marks.{AreMarks, LiesAmong};

use crate::rows::row_of;
use raster::Rect;
use std::simd::cmp::SimdPartialEq;
use std::simd::u32x16;

/// How many values the bits of a row tell apart.
const ROW: u64 = 1 << 16;

/// A bit for each position at which two rows of 16 differ.
pub fn differences(row: u32x16, other: u32x16) -> u64
    requires row { length row ≡ 16 }
    requires other { length other ≡ 16 }
    ensures bits { (x : ℕ) → x < 16
        → bit_at result x ≡ bit_of (not (slice_index row x == slice_index other x)) }
    ensures few { result < 2 ^ 16 }
{
    row.simd_ne(other).to_bitmask()
}

/// A row of 16 with each value one further to the right, and the last in front.
pub fn turned(row: u32x16) -> u32x16
    requires { length row ≡ 16 }
    ensures count { length result ≡ 16 }
    ensures values { (x : ℕ) → 0 < x → x < 16 → slice_index result x ≡ slice_index row (x - 1) }
{
    row.rotate_elements_right::<1>()
}

/// Marks of rows of 16: a bit for each position at which a run of another value than the background begins, and one for
/// each behind which there is another value in its row, or none.
#[derive(Clone, Copy)]
pub struct Marks {
    pub background: u32,
    pub begins: u64,
    pub ends: u64,
}

impl Marks {
    /// How many runs begin.
    pub fn count(&self) -> usize
        ensures { result ≤ 64 }
    {
        self.begins.count_ones() as usize
    }
}

/// The marks of a row of 16.
fn mark_row(row: &[u32], background: u32) -> Marks
    requires { length row.now ≡ 16 }
    ensures begins { (x : ℕ) → x < 16
        → bit_at result.begins x ≡ bit_of (begins_run (row_shows row.now) background 0 x) }
    ensures few { result.begins < 2 ^ 16 }
    ensures ends { (x : ℕ) → x + 1 < 16
        → bit_at result.ends x
        ≡ bit_of (not (slice_index row.now x == slice_index row.now (x + 1))) }
    ensures last { bit_at result.ends 15 ≡ 1 }
    ensures small { result.ends < 2 ^ 16 }
{
    let row = u32x16::from_slice(row);
    let others = differences(row, u32x16::splat(background));
    let changes = differences(turned(row), row);
    Marks {
        background,
        begins: others & (changes | 1),
        ends: (changes | 1 << 16) >> 1,
    }
}

/// The bits of four rows of 16 as those of one word, the first row's lowest.
pub fn join_bits(first: u64, second: u64, third: u64, fourth: u64) -> u64
    requires few { (first < 2 ^ 16) × (second < 2 ^ 16) × (third < 2 ^ 16) × (fourth < 2 ^ 16) }
    ensures first { (x : ℕ) → x < 16 → bit_at result x ≡ bit_at first x }
    ensures second { (x : ℕ) → x < 16 → bit_at result (16 + x) ≡ bit_at second x }
    ensures third { (x : ℕ) → x < 16 → bit_at result (32 + x) ≡ bit_at third x }
    ensures fourth { (x : ℕ) → x < 16 → bit_at result (48 + x) ≡ bit_at fourth x }
    ensures fits { result < 2 ^ 64 }
{
    ((fourth * ROW + third) * ROW + second) * ROW + first
}

/// The marks of four rows of a tile as wide as 16, from row `y` on.
pub fn mark_rows(values: &[u32], w: usize, tile: &Rect, y: usize, background: u32) -> Marks
    requires lies { LiesAmong values.now w tile.now }
    requires wide { tile.now.w ≡ 16 }
    requires rows { y + 4 ≤ tile.now.h }
    ensures marks { AreMarks (part_of tile.now (value_at w values.now)) background y result }
    ensures background { result.background ≡ background }
{
    let first = mark_row(row_of(values, w, tile, y), background);
    let second = mark_row(row_of(values, w, tile, y + 1), background);
    let third = mark_row(row_of(values, w, tile, y + 2), background);
    let fourth = mark_row(row_of(values, w, tile, y + 3), background);
    Marks {
        background,
        begins: join_bits(first.begins, second.begins, third.begins, fourth.begins),
        ends: join_bits(first.ends, second.ends, third.ends, fourth.ends),
    }
}
