//! The joined runs of a whole tile, listed by its marks.

ghost use Rattle.std.specs.Prelude.{◌≡◌, ℕ, ◌+◌, ◌*◌, ◌<◌, ◌≤◌, ◌++◌, ◌==◌, true, map};
ghost use Rattle.arrayvec.specs.ArrayVec.{array_vec_len};
ghost use Rattle.raster.specs.Screen.{Canvas, value_at, part_of};
ghost use Rattle.raster.specs.Encoding.{begins_run, run_from};
ghost use Rattle.joined_runs.specs.declared.rect_form.RectForm.TheVariants.{Joined};
ghost use Rattle.joined_runs.specs.Found.{rows_below};
ghost use Rattle.joined_runs.specs.Joined.{joined_runs, written};
ghost use Rattle.hextile_codec.specs.Breaks.{mark_at};
ghost use Rattle.hextile_codec.specs.TileKinds.{subrect_of};
ghost use Rattle.hextile_codec.specs.Marks.{LiesAmong, runs_of_rows};
ghost use Rattle.hextile_codec.specs.Places.{AreJoins};
ghost use Rattle.hextile_codec.specs.TileMarks.{AreTileMarks};

use crate::rows::row_of;
use crate::runs::{Found, Run, TILE_AREA};
use crate::tile_marks::TileMarks;
use raster::{Rect, TILE_SIDE};

/// Whether a position of a whole tile has its bit.
#[inline]
fn has_bit(words: &[u64; 4], x: usize, y: usize) -> bool
    requires column { x < 16 }
    requires row { y < 16 }
    ensures { result ≡ (mark_at words.now y x == 1) }
{
    (words[y / 4] >> (y % 4 * 16 + x)) % 2 == 1
}

/// How high the joined run is that begins in a row of a whole tile.
#[inline]
fn height(joins: &[u64; 4], x: usize, y: usize) -> usize
    requires column { x < 16 }
    requires row { y < 16 }
    ensures value { (canvas : Canvas) (background : ℕ) → AreJoins canvas background joins.now
        → begins_run canvas background y x ≡ true
        → result ≡ 1 + rows_below canvas 16 16 (run_from canvas 16 y x) }
    ensures within { y + result ≤ 16 }
{
    let mut end = y + 1;
    while end < TILE_SIDE as usize && has_bit(joins, x, end) {
        end += 1;
    }
    end - y
}

/// Adds the joined runs that begin in four rows of a whole tile, from row `4 * k` on.
fn add_joined(
    values: &[u32],
    w: usize,
    tile: &Rect,
    k: usize,
    marks: &TileMarks,
    joins: &[u64; 4],
    found: &mut Found,
)
    requires lies { LiesAmong values.now w tile.now }
    requires wide { tile.now.w ≡ 16 }
    requires high { tile.now.h ≡ 16 }
    requires word { k < 4 }
    requires marks { AreTileMarks (part_of tile.now (value_at w values.now))
        marks.now.background marks.now }
    requires joins { AreJoins (part_of tile.now (value_at w values.now))
        marks.now.background joins.now }
    requires room { array_vec_len found.old + 64 ≤ TILE_AREA }
    ensures added { let canvas = part_of tile.now (value_at w values.now) in
        map subrect_of found.new.items ≡ map subrect_of found.old.items
        ++ written Joined canvas 16 16 (runs_of_rows canvas marks.now.background 16 (4 * k) 4) }
    ensures few { array_vec_len found.new ≤ array_vec_len found.old + 64 }
{
    let mut begins = marks.begins[k] ^ joins[k];
    while begins != 0 {
        let at = begins.trailing_zeros() as usize;
        let (x, row) = (at % 16, 4 * k + at / 16);
        let len = (marks.ends[k] >> at).trailing_zeros() + 1;
        found.push(Run {
            value: row_of(values, w, tile, row)[x],
            x: x as u8,
            y: row as u8,
            len: len as u8,
            high: height(joins, x, row) as u8,
        });
        begins &= begins - 1;
    }
}

/// Finds the joined runs of a whole tile by its marks.
pub fn list_joined(
    values: &[u32],
    w: usize,
    tile: &Rect,
    marks: &TileMarks,
    joins: &[u64; 4],
    found: &mut Found,
)
    requires lies { LiesAmong values.now w tile.now }
    requires wide { tile.now.w ≡ 16 }
    requires high { tile.now.h ≡ 16 }
    requires marks { AreTileMarks (part_of tile.now (value_at w values.now))
        marks.now.background marks.now }
    requires joins { AreJoins (part_of tile.now (value_at w values.now))
        marks.now.background joins.now }
    ensures { map subrect_of found.new.items
        ≡ joined_runs (part_of tile.now (value_at w values.now)) marks.now.background 16 16 }
{
    found.clear();
    add_joined(values, w, tile, 0, marks, joins, found);
    add_joined(values, w, tile, 1, marks, joins, found);
    add_joined(values, w, tile, 2, marks, joins, found);
    add_joined(values, w, tile, 3, marks, joins, found);
}
