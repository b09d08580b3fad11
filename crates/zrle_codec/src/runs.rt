//! Finds runs, and appends them.

ghost use Rattle.std.specs.Prelude.{◌≡◌, ◌+◌, ◌<◌, ◌≤◌, ◌++◌, ◌∷◌, length, take, drop, replicate, slice_index, true, OnOk};
ghost use Rattle.zrle_codec.specs.Tiles.{len_bytes, plain_run_bytes, index_run_bytes};
ghost use Rattle.zrle_codec.specs.Appends.{AppendsRuns, BeginsWith};

use crate::cpixel::Cpixels;
use crate::pixels::append_byte;
use std::alloc::AllocError;

/// How many values from a place on are equal.
#[inline(always)]
pub fn run_len(values: &[u32], from: usize) -> usize
    requires { from < length values.now }
    ensures some { 1 ≤ result }
    ensures inside { from + result ≤ length values.now }
    ensures same { take result (drop from values.now)
        ≡ replicate result (slice_index values.now from) }
{
    let first = values[from];
    let mut end = from + 1;
    while end < values.len() && values[end] == first {
        end += 1;
    }
    end - from
}

/// Whether all values are equal.
pub fn is_solid(values: &[u32]) -> bool
    requires { 0 < length values.now }
    ensures { result ≡ true
        → values.now ≡ replicate (length values.now) (slice_index values.now 0) }
{
    run_len(values, 0) == values.len()
}

/// Appends the length of a run.
#[inline(always)]
#[tactic(auto, using(crate::proofs::Growing::begins_then, crate::proofs::Growing::begins_more, crate::proofs::Growing::same_more), unfolding(crate::specs::Tiles::len_bytes))]
pub fn append_len(len: usize, out: &mut Vec<u8>) -> Result<(), AllocError>
    requires { 1 ≤ len }
    ensures ok { OnOk result (out.new.items ≡ out.old.items ++ len_bytes len) }
    ensures begins { BeginsWith out.old.items out.new.items }
{
    let rest = len - 1;
    for k in 0..rest / 255 {
        append_byte(255, out)?;
    }
    append_byte((rest % 255) as u8, out)?;
    Ok(())
}

/// Appends runs of pixel values.
#[tactic(auto, using(crate::proofs::Growing::begins_then, crate::proofs::Growing::begins_more))]
pub fn append_plain_runs(
    pixels: &Cpixels,
    values: &[u32],
    out: &mut Vec<u8>,
) -> Result<(), AllocError>
    ensures ok { OnOk result
        (AppendsRuns (plain_run_bytes pixels.now.format) out.old.items out.new.items values.now) }
    ensures begins { BeginsWith out.old.items out.new.items }
{
    let mut from = 0;
    while from < values.len() {
        let len = run_len(values, from);
        pixels.append(values[from], out)?;
        append_len(len, out)?;
        from += len;
    }
    Ok(())
}

/// How many runs there are.
pub fn count_runs(values: &[u32]) -> usize {
    let mut runs: usize = 0;
    for k in 1..values.len() {
        runs = runs.wrapping_add(usize::from(values[k] != values[k - 1]));
    }
    runs.wrapping_add(1)
}
