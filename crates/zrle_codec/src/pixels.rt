//! Appends pixels one after another.

ghost use Rattle.std.specs.Prelude.{◌≡◌, ◌++◌, [], ◌∷◌, OnOk};
ghost use Rattle.std.specs.List.{flat_map};
ghost use Rattle.zrle_codec.specs.Cpixel.{cpixel_bytes};
ghost use Rattle.zrle_codec.specs.Appends.{BeginsWith};

use crate::cpixel::Cpixels;
use std::alloc::AllocError;

/// Appends a byte.
#[inline(always)]
#[tactic(auto, using(crate::proofs::Growing::begins_if, crate::proofs::Growing::begins_more, crate::proofs::Growing::begins_unchanged))]
pub fn append_byte(byte: u8, out: &mut Vec<u8>) -> Result<(), AllocError>
    ensures ok { OnOk result (out.new.items ≡ out.old.items ++ byte ∷ []) }
    ensures begins { BeginsWith out.old.items out.new.items }
{
    out.push(byte)?;
    Ok(())
}

/// Appends the CPIXEL of each value.
#[tactic(auto, using(crate::proofs::Growing::begins_then, crate::proofs::Growing::begins_more))]
pub fn append_pixels(pixels: &Cpixels, values: &[u32], out: &mut Vec<u8>) -> Result<(), AllocError>
    ensures ok { OnOk result
        (out.new.items ≡ out.old.items ++ flat_map (cpixel_bytes pixels.now.format) values.now) }
    ensures begins { BeginsWith out.old.items out.new.items }
{
    for value in values {
        pixels.append(*value, out)?;
    }
    Ok(())
}

/// Appends a tile in the form Raw.
#[tactic(auto, using(crate::proofs::Growing::begins_then, crate::proofs::Growing::begins_more))]
pub fn append_raw(pixels: &Cpixels, values: &[u32], out: &mut Vec<u8>) -> Result<(), AllocError>
    ensures ok { OnOk result (out.new.items
        ≡ out.old.items ++ 0 ∷ flat_map (cpixel_bytes pixels.now.format) values.now) }
    ensures begins { BeginsWith out.old.items out.new.items }
{
    append_byte(0, out)?;
    append_pixels(pixels, values, out)?;
    Ok(())
}

/// Appends a tile in the form Solid.
#[tactic(auto, using(crate::proofs::Growing::begins_then, crate::proofs::Growing::begins_more))]
pub fn append_solid(pixels: &Cpixels, value: u32, out: &mut Vec<u8>) -> Result<(), AllocError>
    ensures ok { OnOk result
        (out.new.items ≡ out.old.items ++ 1 ∷ cpixel_bytes pixels.now.format value) }
    ensures begins { BeginsWith out.old.items out.new.items }
{
    append_byte(1, out)?;
    pixels.append(value, out)?;
    Ok(())
}
