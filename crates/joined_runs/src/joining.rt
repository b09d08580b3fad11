//! Finds in a rectangle's values which runs are joined to one above them, and how far down a run is joined.

ghost use Rattle.std.specs.Prelude.{◌≡◌, ℕ, ◌+◌, ◌-◌, ◌<◌, ◌≤◌, [], ◌∷◌, MatchOption, IfSome, ◌==◌, ◌&&◌, ◌||◌, not, length, slice_index, take_while};
ghost use Rattle.raster.specs.RowShown.{row_shows};
ghost use Rattle.raster.specs.Screen.{part_of, value_at};
ghost use Rattle.joined_runs.specs.Joined.{stands_in, is_below, written};
ghost use Rattle.joined_runs.specs.Found.{HasRun, LiesAmong, subrect_of, subrect_as_high, rows_below};

use crate::rect_form::RectForm;
use raster::Rect;

/// A run of a row: `len` pixels of one value, from column `x` of row `y` of its rectangle on.
#[derive(Clone, Copy, Debug, PartialEq, Eq)]
pub struct RowRun {
    pub value: u32,
    pub x: usize,
    pub y: usize,
    pub len: usize,
}

/// How many values at the front equal this one.
#[inline]
fn run_len(values: &[u32], value: u32) -> usize
    ensures { result ≡ length (take_while (λ v. v == value) values.now) }
{
    values.iter().take_while(|v| **v == value).count()
}

/// Row `y` of the rectangle `area`, where the values stand in rows of `w`.
#[inline]
fn row_of<'a>(values: &'a [u32], w: usize, area: &Rect, y: usize) -> &'a [u32]
    requires lies { LiesAmong values.now w area.now }
    requires row { y < area.now.h }
    ensures len { length result.now ≡ area.now.w }
    ensures values { (x : ℕ) → x < area.now.w
        → slice_index result.now x ≡ part_of area.now (value_at w values.now) x y }
{
    let start = area.y as usize * w + area.x as usize + y * w;
    &values[start..start + area.w as usize]
}

/// Whether a run of this value begins at column `x` of a row.
#[inline]
fn begins(row: &[u32], x: usize, value: u32) -> bool
    requires { x < length row.now }
    ensures { result ≡ (slice_index row.now x == value)
        && ((x == 0) || not (slice_index row.now (x - 1) == value)) }
{
    row[x] == value && (x == 0 || row[x - 1] != value)
}

/// Whether a row has a run with the same ends and value.
#[inline]
fn has_run(row: &[u32], run: &RowRun) -> bool
    requires { run.now.x < length row.now }
    ensures { (y : ℕ)
        → result ≡ stands_in (row_shows row.now) (length row.now) (subrect_of run.now) y }
{
    begins(row, run.x, run.value) && run_len(&row[run.x..], run.value) == run.len
}

/// Whether a run is joined to one in the row above it. The values stand in rows of `w`, and the rectangle's are those
/// of `area`.
#[inline]
fn is_below(values: &[u32], w: usize, area: &Rect, run: &RowRun) -> bool
    requires { HasRun values.now w area.now run.now }
    ensures { result ≡ is_below (part_of area.now (value_at w values.now))
        area.now.w (subrect_of run.now) }
{
    run.y > 0 && has_run(row_of(values, w, area, run.y - 1), run)
}

/// How many rows directly below a run have a run that is joined to it.
#[inline]
fn rows_below(values: &[u32], w: usize, area: &Rect, run: &RowRun) -> usize
    requires { HasRun values.now w area.now run.now }
    ensures value { result ≡ rows_below (part_of area.now (value_at w values.now))
        area.now.w area.now.h (subrect_of run.now) }
    ensures within { run.now.y + 1 + result ≤ area.now.h }
{
    let mut y = run.y + 1;
    while y < area.h as usize && has_run(row_of(values, w, area, y), run) {
        y += 1;
    }
    y - run.y - 1
}

/// The height in pixels of the subrectangle that is written for a run of a rectangle. It is `None` where none is
/// written, since the run is joined to one above it. The values stand in rows of `w`, and the rectangle's are those of
/// `area`.
#[inline]
pub fn height(runs: RectForm, values: &[u32], w: usize, area: &Rect, run: &RowRun) -> Option<usize>
    requires { HasRun values.now w area.now run.now }
    ensures value { let one = written runs (part_of area.now (value_at w values.now))
        area.now.w area.now.h (subrect_of run.now ∷ []) in
        MatchOption result (one ≡ []) (λ high. one ≡ subrect_as_high run.now high ∷ []) }
    ensures some { IfSome result (λ high. 0 < high) }
    ensures within { IfSome result (λ high. run.now.y + high ≤ area.now.h) }
{
    match runs {
        RectForm::OfRows => Some(1),
        RectForm::Joined if is_below(values, w, area, run) => None,
        RectForm::Joined => Some(1 + rows_below(values, w, area, run)),
    }
}
