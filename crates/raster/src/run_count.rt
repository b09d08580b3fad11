//! Counts the runs of a rectangle before any is written.

ghost use Rattle.std.specs.Prelude.{◌≡◌, ℕ, ◌+◌, ◌*◌, ◌<◌, ◌≤◌, ◌^◌, length, nat_le};
ghost use Rattle.raster.specs.Screen.{value_at, part_of};
ghost use Rattle.raster.specs.Encoding.{runs, runs_of_row};
ghost use Rattle.raster.specs.RowShown.{row_shows};

use crate::rect::Rect;

/// From this length on a row is counted by the pixels at which no run begins, which tests the last pixels one by one.
const LONG: usize = 64;

/// How many runs other than the background a short row has.
fn count_short_row(row: &[u32], background: u32) -> u32
    requires some { 0 < length row.now }
    requires small { length row.now < 2 ^ 16 }
    ensures value { (y : ℕ)
        → result ≡ length (runs_of_row (row_shows row.now) background (length row.now) y) }
    ensures few { result ≤ length row.now }
{
    let mut count = 0;
    let mut before = background;
    for x in 0..row.len() {
        // Both tests are made at each position, so that the processor tests many positions at once. The first pixel
        // counts as one that follows the background.
        count += u32::from((row[x] != background) & (before != row[x]));
        before = row[x];
    }
    count
}

/// How many runs other than the background a long row has.
fn count_long_row(row: &[u32], background: u32) -> u32
    requires some { 0 < length row.now }
    requires small { length row.now < 2 ^ 16 }
    ensures value { (y : ℕ)
        → result ≡ length (runs_of_row (row_shows row.now) background (length row.now) y) }
    ensures few { result ≤ length row.now }
{
    // This counts the positions at which no run begins, with both tests at each, so that the processor tests many
    // positions at once.
    let mut others = u32::from(row[0] == background);
    for x in 1..row.len() {
        others += u32::from((row[x] == background) | (row[x - 1] == row[x]));
    }
    row.len() as u32 - others
}

/// How many runs other than the background a row has.
fn count_row(row: &[u32], background: u32) -> u32
    requires some { 0 < length row.now }
    requires small { length row.now < 2 ^ 16 }
    ensures value { (y : ℕ)
        → result ≡ length (runs_of_row (row_shows row.now) background (length row.now) y) }
    ensures few { result ≤ length row.now }
{
    if row.len() < LONG {
        count_short_row(row, background)
    } else {
        count_long_row(row, background)
    }
}

/// Whether a rectangle of values, which stand in rows of `w`, has at least this many runs other than its background,
/// the first pixel's value. It stops after the row that shows it.
pub fn has_runs(values: &[u32], w: usize, area: &Rect, enough: u64) -> bool
    requires w_some { 0 < area.now.w }
    requires h_some { 0 < area.now.h }
    requires wide { w < 2 ^ 16 }
    requires high { area.now.y + area.now.h < 2 ^ 16 }
    requires across { area.now.x + area.now.w ≤ w }
    requires down { (area.now.y + area.now.h) * w ≤ length values.now }
    ensures { result ≡ nat_le enough
        (length (runs (part_of area.now (value_at w values.now)) area.now.w area.now.h)) }
{
    let first = area.y as usize * w + area.x as usize;
    let background = values[first];
    let mut count: u64 = 0;
    for y in 0..area.h as usize {
        let start = first + y * w;
        count += u64::from(count_row(&values[start..start + area.w as usize], background));
        if count >= enough {
            return true;
        }
    }
    count >= enough
}
