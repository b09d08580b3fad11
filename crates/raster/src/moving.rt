//! Moves values inside one slice.

ghost use Rattle.std.specs.Prelude.{◌+◌, ◌<◌, ◌≤◌, length};
ghost use Rattle.raster.specs.Moved.{IsMoved};

/// The least distance at which values are moved in parts: below it, the calls for such short parts cost more than they
/// save.
const SHORTEST_PART: usize = 64;

/// Moves values to an earlier place that doesn't overlap theirs.
fn move_apart_down(values: &mut [u32], from: usize, to: usize, count: usize)
    requires apart { to + count ≤ from }
    requires source { from + count ≤ length values.old }
    ensures { IsMoved values.old values.new from to count }
{
    let (before, after) = values.split_at_mut(from);
    before[to..to + count].copy_from_slice(&after[..count]);
}

/// Moves values to a later place that doesn't overlap theirs.
fn move_apart_up(values: &mut [u32], from: usize, to: usize, count: usize)
    requires apart { from + count ≤ to }
    requires target { to + count ≤ length values.old }
    ensures { IsMoved values.old values.new from to count }
{
    let (before, after) = values.split_at_mut(to);
    after[..count].copy_from_slice(&before[from..from + count]);
}

/// Moves values to an earlier place that may overlap theirs. It moves parts as long as the distance, the first part
/// first, so that no value is read after it was overwritten.
fn move_down(values: &mut [u32], from: usize, to: usize, count: usize)
    requires down { to < from }
    requires source { from + count ≤ length values.old }
    ensures { IsMoved values.old values.new from to count }
{
    let mut moved = 0;
    while moved < count {
        let part = (from - to).min(count - moved);
        move_apart_down(values, from + moved, to + moved, part);
        moved += part;
    }
}

/// Moves values to a later place that may overlap theirs. It moves parts as long as the distance, the last part first,
/// so that no value is read after it was overwritten.
fn move_up(values: &mut [u32], from: usize, to: usize, count: usize)
    requires up { from < to }
    requires target { to + count ≤ length values.old }
    ensures { IsMoved values.old values.new from to count }
{
    let mut left = count;
    while 0 < left {
        let part = (to - from).min(left);
        left -= part;
        move_apart_up(values, from + left, to + left, part);
    }
}

/// Moves values to a place that may overlap theirs, value by value.
fn move_over(values: &mut [u32], from: usize, to: usize, count: usize)
    requires source { from + count ≤ length values.old }
    requires target { to + count ≤ length values.old }
    ensures { IsMoved values.old values.new from to count }
{
    values.copy_within(from..from + count, to);
}

/// Moves `count` values from index `from` to index `to`, as they stood before the call. The two places may overlap.
pub fn move_part(values: &mut [u32], from: usize, to: usize, count: usize)
    requires source { from + count ≤ length values.old }
    requires target { to + count ≤ length values.old }
    ensures { IsMoved values.old values.new from to count }
{
    if from.saturating_sub(to) >= SHORTEST_PART {
        move_down(values, from, to, count);
    } else if to.saturating_sub(from) >= SHORTEST_PART {
        move_up(values, from, to, count);
    } else {
        move_over(values, from, to, count);
    }
}
