//! Where a row of a whole tile differs from the one above it, in a pixel or in where a run begins or ends.

ghost use Rattle.std.specs.Prelude.{◌≡◌, ℕ, ◌+◌, ◌-◌, ◌*◌, ◌<◌, ◌≤◌, ◌^◌, ◌==◌, not};
ghost use Rattle.std.specs.Int.{bit_at};
ghost use Rattle.raster.specs.Screen.{Canvas, value_at, part_of};
ghost use Rattle.hextile_codec.specs.Bits.{bit_of};
ghost use Rattle.hextile_codec.specs.Breaks.{AreBreaks, IsUnbroken};
ghost use Rattle.hextile_codec.specs.Marks.{LiesAmong};
ghost use Rattle.hextile_codec.specs.Places.{joins_at, AreJoins};
ghost use Rattle.hextile_codec.specs.TileMarks.{AreTileMarks};

use crate::marking::{differences, join_bits};
use crate::reaching::reaching;
use crate::rows::row_of;
use crate::tile_marks::TileMarks;
use raster::Rect;
use std::simd::u32x16;

/// How many values the bits of a row tell apart.
const ROW: u64 = 1 << 16;

/// How many values the bits of three rows tell apart.
const THREE_ROWS: u64 = 1 << 48;

/// A bit for each position at which a pixel, or whether a run begins or ends there, is another than in the row above.
/// Each word has four rows, and nothing is said of the first row.
#[derive(Clone, Copy)]
pub struct Breaks {
    pub words: [u64; 4],
}

/// A bit for each position of row `y` with another value than the row above has there; none in the first row.
#[inline]
fn row_apart(values: &[u32], w: usize, tile: &Rect, y: usize) -> u64
    requires lies { LiesAmong values.now w tile.now }
    requires wide { tile.now.w ≡ 16 }
    requires row { y < tile.now.h }
    ensures bits { (x : ℕ) → x < 16 → 0 < y
        → bit_at result x ≡ bit_of (not
        (part_of tile.now (value_at w values.now) x y
        == part_of tile.now (value_at w values.now) x (y - 1))) }
    ensures few { result < 2 ^ 16 }
{
    if y == 0 {
        return 0;
    }
    let row = u32x16::from_slice(row_of(values, w, tile, y));
    let above = u32x16::from_slice(row_of(values, w, tile, y - 1));
    differences(row, above)
}

/// The same of four rows, from row `y` on.
#[inline]
fn rows_apart(values: &[u32], w: usize, tile: &Rect, y: usize) -> u64
    requires lies { LiesAmong values.now w tile.now }
    requires wide { tile.now.w ≡ 16 }
    requires rows { y + 4 ≤ tile.now.h }
    ensures bits { (r x : ℕ) → r < 4 → x < 16 → 0 < y + r
        → bit_at result (16 * r + x) ≡ bit_of (not
        (part_of tile.now (value_at w values.now) x (y + r)
        == part_of tile.now (value_at w values.now) x (y + r - 1))) }
    ensures few { result < 2 ^ 64 }
{
    join_bits(
        row_apart(values, w, tile, y),
        row_apart(values, w, tile, y + 1),
        row_apart(values, w, tile, y + 2),
        row_apart(values, w, tile, y + 3),
    )
}

/// The bits of four rows, each moved to the row below it. The last of those above them comes first.
#[inline]
fn moved_down(above: u64, here: u64) -> u64
    ensures first { (x : ℕ) → x < 16 → bit_at result x ≡ bit_at above (48 + x) }
    ensures others { (p : ℕ) → 16 ≤ p → p < 64 → bit_at result p ≡ bit_at here (p - 16) }
    ensures few { result < 2 ^ 64 }
{
    here % THREE_ROWS * ROW + above / THREE_ROWS
}

/// The positions of the first row among those of four rows from row `4 * k` on. None is above them to which a run could be
/// joined.
#[inline]
fn top_row(k: usize) -> u64
    ensures first { k ≡ 0 → result ≡ 65535 }
    ensures others { 0 < k → result ≡ 0 }
{
    if k == 0 { ROW - 1 } else { 0 }
}

impl TileMarks {
    /// The breaks of four rows, from row `4 * k` on.
    #[inline]
    fn four_breaks(&self, values: &[u32], w: usize, tile: &Rect, k: usize) -> u64
        requires lies { LiesAmong values.now w tile.now }
        requires wide { tile.now.w ≡ 16 }
        requires high { tile.now.h ≡ 16 }
        requires marks { AreTileMarks (part_of tile.now (value_at w values.now))
            self.now.background self.now }
        requires word { k < 4 }
        ensures none { (r x : ℕ) → r < 4 → x < 16 → 0 < 4 * k + r → bit_at result (r * 16 + x) ≡ 0
            → IsUnbroken (part_of tile.now (value_at w values.now)) self.now (4 * k + r) x }
        ensures only { (r x : ℕ) → r < 4 → x < 16 → 0 < 4 * k + r
            → IsUnbroken (part_of tile.now (value_at w values.now)) self.now (4 * k + r) x
            → bit_at result (r * 16 + x) ≡ 0 }
        ensures few { result < 2 ^ 64 }
    {
        let above = k.saturating_sub(1);
        let apart = rows_apart(values, w, tile, 4 * k);
        let begins = self.begins[k] ^ moved_down(self.begins[above], self.begins[k]);
        let ends = self.ends[k] ^ moved_down(self.ends[above], self.ends[k]);
        apart | begins | ends
    }

    /// Where the rows of a whole tile differ from those above them.
    #[inline]
    pub fn breaks(&self, values: &[u32], w: usize, tile: &Rect) -> Breaks
        requires lies { LiesAmong values.now w tile.now }
        requires wide { tile.now.w ≡ 16 }
        requires high { tile.now.h ≡ 16 }
        requires marks { AreTileMarks (part_of tile.now (value_at w values.now))
            self.now.background self.now }
        ensures { AreBreaks (part_of tile.now (value_at w values.now)) self.now result }
    {
        Breaks {
            words: [
                self.four_breaks(values, w, tile, 0),
                self.four_breaks(values, w, tile, 1),
                self.four_breaks(values, w, tile, 2),
                self.four_breaks(values, w, tile, 3),
            ],
        }
    }

    /// Where runs begin that are joined to one above them, in four rows from row `4 * k` on.
    #[inline]
    fn four_joins(&self, breaks: &Breaks, k: usize) -> u64
        requires word { k < 4 }
        ensures bits { (canvas : Canvas) → AreTileMarks canvas self.now.background self.now
            → AreBreaks canvas self.now breaks.now
            → (r x : ℕ) → r < 4 → x < 16
            → bit_at result (16 * r + x)
            ≡ bit_of (joins_at canvas self.now.background (4 * k + r) x) }
        ensures few { result < 2 ^ 64 }
    {
        let broken = breaks.words[k] | top_row(k);
        self.begins[k] & reaching(broken, self.ends[k])
    }

    /// A bit for each position of a whole tile at which a run begins that is joined to one above it.
    #[inline]
    pub fn joins(&self, breaks: &Breaks) -> [u64; 4]
        ensures { (canvas : Canvas) → AreTileMarks canvas self.now.background self.now
            → AreBreaks canvas self.now breaks.now
            → AreJoins canvas self.now.background result }
    {
        [
            self.four_joins(breaks, 0),
            self.four_joins(breaks, 1),
            self.four_joins(breaks, 2),
            self.four_joins(breaks, 3),
        ]
    }
}
