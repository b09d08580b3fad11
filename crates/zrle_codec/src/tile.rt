//! Writes a tile.

ghost use Rattle.std.specs.Prelude.{◌≡◌, true, ◌+◌, ◌*◌, ◌≤◌, length, OnOk};
ghost use Rattle.zrle_codec.specs.Tiles.{AppendsSome, AppendsTile};
ghost use Rattle.zrle_codec.specs.Appends.{BeginsWith};

use crate::cpixel::Cpixels;
use crate::packed::append_packed;
use crate::palette::{MOST_COLOURS, index_values};
use crate::palette_runs::append_palette_runs;
use crate::pixels::{append_byte, append_raw, append_solid};
use crate::runs::{append_plain_runs, count_runs, is_solid};
use std::alloc::AllocError;

/// The most positions of a tile.
pub const POSITIONS: usize = 4096;

/// Appends a tile in the form of plain runs.
#[tactic(auto, using(crate::proofs::Growing::begins_then, crate::proofs::Growing::begins_more))]
fn append_runs_tile(
    pixels: &Cpixels,
    w: usize,
    h: usize,
    values: &[u32],
    out: &mut Vec<u8>,
) -> Result<(), AllocError>
    requires count { length values.now ≡ w * h }
    ensures ok { OnOk result
        (AppendsSome pixels.now.format w h values.now out.old.items out.new.items) }
    ensures begins { BeginsWith out.old.items out.new.items }
{
    append_byte(128, out)?;
    append_plain_runs(pixels, values, out)?;
    Ok(())
}

/// How many bytes a tile of so many positions has in the form Raw.
fn raw_len(pixels: &Cpixels, count: usize) -> usize
    requires { count ≤ 4096 }
    ensures { result ≡ 1 + pixels.now.len * count }
{
    1 + pixels.len * count
}

/// The most colours of a palette whose indices are packed.
const MOST_PACKED: usize = 16;

/// Up to so many colours, indices have one or two bits. Packed rows of them repeat more often than their runs do, and
/// are written without a look for runs.
const FEW_COLOURS: usize = 4;

/// Whether so many colours may be packed, and packed indices look shorter than their runs once they are compressed.
fn is_packed(colours: usize, values: &[u32]) -> bool
    ensures { result ≡ true → colours ≤ 16 }
{
    colours <= FEW_COLOURS
        || colours <= MOST_PACKED
            && values.len().wrapping_mul(4) < count_runs(values).wrapping_mul(14)
}

/// Appends a tile in the form that looks shortest.
#[tactic(auto, using(crate::proofs::Growing::begins_then, crate::proofs::Growing::begins_more))]
fn append_chosen(
    pixels: &Cpixels,
    w: usize,
    h: usize,
    values: &[u32],
    out: &mut Vec<u8>,
) -> Result<(), AllocError>
    requires wide { w ≤ 64 }
    requires high { h ≤ 64 }
    requires count { length values.now ≡ w * h }
    requires short { length values.now ≤ 4096 }
    ensures ok { OnOk result
        (AppendsSome pixels.now.format w h values.now out.old.items out.new.items) }
    ensures begins { BeginsWith out.old.items out.new.items }
{
    let mut palette = [0; MOST_COLOURS];
    let mut all_indices = [0; POSITIONS];
    let indices = &mut all_indices[..values.len()];
    let Some(colours) = index_values(values, &mut palette, indices) else {
        append_runs_tile(pixels, w, h, values, out)?;
        return Ok(());
    };
    if colours < 2 {
        append_runs_tile(pixels, w, h, values, out)?;
        return Ok(());
    }
    if is_packed(colours, values) {
        append_packed(pixels, &palette[..colours], w, h, indices, out)?;
        return Ok(());
    }
    append_palette_runs(pixels, &palette[..colours], indices, out)?;
    Ok(())
}

/// Appends a tile of `w` by `h` pixels that draws these values, row after row, each as its CPIXEL has it. It has no more
/// bytes than Raw has.
#[tactic(auto, using(crate::proofs::Growing::begins_then, crate::proofs::Growing::begins_more))]
pub fn write_tile(
    pixels: &Cpixels,
    w: usize,
    h: usize,
    values: &[u32],
    out: &mut Vec<u8>,
) -> Result<(), AllocError>
    requires wide { w ≤ 64 }
    requires high { h ≤ 64 }
    requires count { length values.now ≡ w * h }
    requires some { 1 ≤ length values.now }
    requires short { length values.now ≤ 4096 }
    ensures ok { OnOk result
        (AppendsTile pixels.now.format w h values.now out.old.items out.new.items) }
    ensures begins { BeginsWith out.old.items out.new.items }
{
    if is_solid(values) {
        append_solid(pixels, values[0], out)?;
        return Ok(());
    }
    let before = out.len();
    let most = raw_len(pixels, values.len());
    append_chosen(pixels, w, h, values, out)?;
    let added = out.len() - before;
    if added <= most {
        return Ok(());
    }
    out.truncate(before);
    append_raw(pixels, values, out)?;
    Ok(())
}
