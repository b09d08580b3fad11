//! Appends runs of indices.

ghost use Rattle.std.specs.Prelude.{◌≡◌, ◌+◌, ◌<◌, ◌≤◌, ◌++◌, ◌∷◌, length, take, drop, replicate, slice_index, EachIndex, OnOk};
ghost use Rattle.std.specs.List.{flat_map};
ghost use Rattle.zrle_codec.specs.Cpixel.{cpixel_bytes};
ghost use Rattle.zrle_codec.specs.Tiles.{index_run_bytes};
ghost use Rattle.zrle_codec.specs.Appends.{AppendsRuns, BeginsWith};

use crate::cpixel::Cpixels;
use crate::pixels::{append_byte, append_pixels};
use crate::runs::append_len;
use std::alloc::AllocError;

/// How many indices from a place on are equal.
#[inline(always)]
fn index_run_len(indices: &[u8], from: usize) -> usize
    requires { from < length indices.now }
    ensures some { 1 ≤ result }
    ensures inside { from + result ≤ length indices.now }
    ensures same { take result (drop from indices.now)
        ≡ replicate result (slice_index indices.now from) }
{
    let first = indices[from];
    let mut end = from + 1;
    while end < indices.len() && indices[end] == first {
        end += 1;
    }
    end - from
}

/// Appends a run of an index.
#[tactic(auto, using(crate::proofs::Growing::begins_then, crate::proofs::Growing::begins_more), unfolding(crate::specs::Tiles::index_run_bytes))]
fn append_index_run(index: u8, len: usize, out: &mut Vec<u8>) -> Result<(), AllocError>
    requires known { index < 128 }
    requires some { 1 ≤ len }
    ensures ok { OnOk result
        (out.new.items ≡ out.old.items ++ index_run_bytes (record { value = index; len = len })) }
    ensures begins { BeginsWith out.old.items out.new.items }
{
    if len == 1 {
        append_byte(index, out)?;
        return Ok(());
    }
    append_byte(index + 128, out)?;
    append_len(len, out)?;
    Ok(())
}

/// Appends runs of indices.
#[tactic(auto, using(crate::proofs::Growing::begins_then, crate::proofs::Growing::begins_more))]
fn append_index_runs(indices: &[u8], out: &mut Vec<u8>) -> Result<(), AllocError>
    requires { EachIndex indices.now (λ k. slice_index indices.now k < 128) }
    ensures ok { OnOk result (AppendsRuns index_run_bytes out.old.items out.new.items indices.now) }
    ensures begins { BeginsWith out.old.items out.new.items }
{
    let mut from = 0;
    while from < indices.len() {
        let len = index_run_len(indices, from);
        append_index_run(indices[from], len, out)?;
        from += len;
    }
    Ok(())
}

/// Appends a tile in the form of palette runs.
#[tactic(auto, using(crate::proofs::Growing::begins_then, crate::proofs::Growing::begins_more))]
pub fn append_palette_runs(
    pixels: &Cpixels,
    palette: &[u32],
    indices: &[u8],
    out: &mut Vec<u8>,
) -> Result<(), AllocError>
    requires palette { length palette.now ≤ 127 }
    requires each { EachIndex indices.now (λ k. slice_index indices.now k < length palette.now) }
    ensures ok { OnOk result (AppendsRuns index_run_bytes (out.old.items
        ++ (length palette.now + 128) ∷ flat_map (cpixel_bytes pixels.now.format) palette.now)
        out.new.items indices.now) }
    ensures begins { BeginsWith out.old.items out.new.items }
{
    append_byte(palette.len() as u8 + 128, out)?;
    append_pixels(pixels, palette, out)?;
    append_index_runs(indices, out)?;
    Ok(())
}
