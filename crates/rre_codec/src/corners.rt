//! Counts the joined runs that begin at corners before any is written.

ghost use Rattle.std.specs.Prelude.{◌≡◌, ℕ, ◌+◌, ◌-◌, ◌*◌, ◌<◌, ◌≤◌, ◌^◌, length, slice_index, IsTrue};
ghost use Rattle.raster.specs.Screen.{Canvas, value_at};
ghost use Rattle.joined_runs.specs.Joined.{joined_runs};
ghost use Rattle.rre_codec.specs.Corners.{corners_before};

/// Row `y` of values that stand in rows of `w`.
fn row_of<'a>(values: &'a [u32], w: usize, y: usize) -> &'a [u32]
    requires { y * w + w ≤ length values.now }
    ensures len { length result.now ≡ w }
    ensures values { (x : ℕ) → x < w → slice_index result.now x ≡ value_at w values.now x y }
{
    &values[y * w..y * w + w]
}

/// How many corners a row has: positions whose value differs from the background, from the position to the left, and
/// from the one in the row above. Corners of the first column aren't counted.
fn count_corners(row: &[u32], above: &[u32], background: u32) -> u32
    requires some { 0 < length row.now }
    requires same { length above.now ≡ length row.now }
    requires small { length row.now < 2 ^ 16 }
    ensures value { (canvas : Canvas) (y : ℕ)
        → ((x : ℕ) → x < length row.now → slice_index row.now x ≡ canvas x y)
        → ((x : ℕ) → x < length row.now → slice_index above.now x ≡ canvas x (y - 1))
        → result ≡ corners_before canvas background y (length row.now) }
    ensures few { result < 2 ^ 16 }
{
    let mut corners = 0;
    for x in 1..row.len() {
        // All tests are made at each position, so that the processor tests many positions at once.
        let begins = (row[x] != background) & (row[x - 1] != row[x]);
        corners += u32::from(begins & (above[x] != row[x]));
    }
    corners
}

/// Whether the corners of a rectangle's rows, without the first row, show that it has at least this many joined runs.
/// It stops after the row that shows it.
pub fn has_joined(values: &[u32], w: usize, h: usize, enough: u64) -> bool
    requires w_some { 0 < w }
    requires h_some { 0 < h }
    requires wide { w < 2 ^ 16 }
    requires high { h < 2 ^ 16 }
    requires count { length values.now ≡ w * h }
    ensures { let canvas = value_at w values.now in
        IsTrue result → enough ≤ length (joined_runs canvas (canvas 0 0) w h) }
{
    let background = values[0];
    let mut count: u64 = 0;
    for y in 1..h {
        let (row, above) = (row_of(values, w, y), row_of(values, w, y - 1));
        count += u64::from(count_corners(row, above, background));
        if count >= enough {
            return true;
        }
    }
    false
}
