//! Packs indices into bits.

ghost use Rattle.std.specs.Prelude.{◌≡◌, ℕ, ◌+◌, ◌*◌, ◌/◌, ◌^◌, ◌<◌, ◌≤◌, ◌++◌, ◌∷◌, ◌⊎◌, length, slice_index, EachIndex, OnOk};
ghost use Rattle.std.specs.List.{flat_map};
ghost use Rattle.zrle_codec.specs.Cpixel.{cpixel_bytes};
ghost use Rattle.zrle_codec.specs.Tiles.{index_bits, packed_byte, packed_row, packed_rows};
ghost use Rattle.zrle_codec.specs.Appends.{BeginsWith};

use crate::cpixel::Cpixels;
use crate::pixels::{append_byte, append_pixels};
use std::alloc::AllocError;

/// The index at a place of a row, and 0 behind its end.
#[inline(always)]
fn index_at(row: &[u8], k: usize) -> u32
    ensures value { result ≡ slice_index row.now k }
    ensures byte { result < 256 }
    ensures small { (limit : ℕ) → 0 < limit → EachIndex row.now (λ i. slice_index row.now i < limit)
        → result < limit }
{
    if k < row.len() { u32::from(row[k]) } else { 0 }
}

/// Eight indices of one bit.
#[tactic(auto, unfolding(crate::specs::Tiles::packed_byte))]
fn pack_eight(row: &[u8], j: usize) -> u8
    requires each { EachIndex row.now (λ k. slice_index row.now k < 2) }
    requires near { j < 2 ^ 32 }
    ensures { result ≡ packed_byte 1 row.now j }
{
    let byte = index_at(row, 8 * j) * 128
        + index_at(row, 8 * j + 1) * 64
        + index_at(row, 8 * j + 2) * 32
        + index_at(row, 8 * j + 3) * 16
        + index_at(row, 8 * j + 4) * 8
        + index_at(row, 8 * j + 5) * 4
        + index_at(row, 8 * j + 6) * 2
        + index_at(row, 8 * j + 7);
    byte as u8
}

/// Four indices of two bits.
#[tactic(auto, unfolding(crate::specs::Tiles::packed_byte))]
fn pack_four(row: &[u8], j: usize) -> u8
    requires each { EachIndex row.now (λ k. slice_index row.now k < 4) }
    requires near { j < 2 ^ 32 }
    ensures { result ≡ packed_byte 2 row.now j }
{
    let byte = index_at(row, 4 * j) * 64
        + index_at(row, 4 * j + 1) * 16
        + index_at(row, 4 * j + 2) * 4
        + index_at(row, 4 * j + 3);
    byte as u8
}

/// Two indices of four bits.
#[tactic(auto, unfolding(crate::specs::Tiles::packed_byte))]
fn pack_two(row: &[u8], j: usize) -> u8
    requires each { EachIndex row.now (λ k. slice_index row.now k < 16) }
    requires near { j < 2 ^ 32 }
    ensures { result ≡ packed_byte 4 row.now j }
{
    let byte = index_at(row, 2 * j) * 16 + index_at(row, 2 * j + 1);
    byte as u8
}

/// Byte number `j` of a row.
fn pack(bits: usize, row: &[u8], j: usize) -> u8
    requires bits { (bits ≡ 1) ⊎ ((bits ≡ 2) ⊎ (bits ≡ 4)) }
    requires each { EachIndex row.now (λ k. slice_index row.now k < 2 ^ bits) }
    requires near { j < 2 ^ 32 }
    ensures { result ≡ packed_byte bits row.now j }
{
    match bits {
        1 => pack_eight(row, j),
        2 => pack_four(row, j),
        _ => pack_two(row, j),
    }
}

/// How many bytes a row of `w` indices has.
fn row_bytes(bits: usize, w: usize) -> usize
    requires bits { (bits ≡ 1) ⊎ ((bits ≡ 2) ⊎ (bits ≡ 4)) }
    requires short { w ≤ 64 }
    ensures value { result ≡ (w * bits + 7) / 8 }
    ensures few { result ≤ 32 }
{
    match bits {
        1 => (w + 7) / 8,
        2 => (w * 2 + 7) / 8,
        _ => (w * 4 + 7) / 8,
    }
}

/// Appends a row.
#[tactic(auto, using(crate::proofs::Growing::begins_then, crate::proofs::Growing::begins_more), unfolding(crate::specs::Tiles::packed_row))]
fn append_row(bits: usize, row: &[u8], out: &mut Vec<u8>) -> Result<(), AllocError>
    requires bits { (bits ≡ 1) ⊎ ((bits ≡ 2) ⊎ (bits ≡ 4)) }
    requires each { EachIndex row.now (λ k. slice_index row.now k < 2 ^ bits) }
    requires short { length row.now ≤ 64 }
    ensures ok { OnOk result (out.new.items ≡ out.old.items ++ packed_row bits row.now) }
    ensures begins { BeginsWith out.old.items out.new.items }
{
    for j in 0..row_bytes(bits, row.len()) {
        append_byte(pack(bits, row, j), out)?;
    }
    Ok(())
}

/// Appends rows of `w` indices.
#[tactic(auto, using(crate::proofs::Growing::begins_then, crate::proofs::Growing::begins_more, crate::proofs::Paletted::row_inside))]
fn append_rows(
    bits: usize,
    w: usize,
    h: usize,
    indices: &[u8],
    out: &mut Vec<u8>,
) -> Result<(), AllocError>
    requires bits { (bits ≡ 1) ⊎ ((bits ≡ 2) ⊎ (bits ≡ 4)) }
    requires each { EachIndex indices.now (λ k. slice_index indices.now k < 2 ^ bits) }
    requires wide { w ≤ 64 }
    requires high { h ≤ 64 }
    requires count { length indices.now ≡ w * h }
    requires short { length indices.now ≤ 4096 }
    ensures ok { OnOk result (out.new.items ≡ out.old.items ++ packed_rows bits w h indices.now) }
    ensures begins { BeginsWith out.old.items out.new.items }
{
    for y in 0..h {
        append_row(bits, &indices[y * w..y * w + w], out)?;
    }
    Ok(())
}

/// How many bits an index has.
#[tactic(auto, unfolding(crate::specs::Tiles::index_bits))]
fn index_bits(colours: usize) -> usize
    ensures value { result ≡ index_bits colours }
    ensures known { (result ≡ 1) ⊎ ((result ≡ 2) ⊎ (result ≡ 4)) }
    ensures room { colours ≤ 16 → colours ≤ 2 ^ result }
{
    if colours <= 2 {
        1
    } else if colours <= 4 {
        2
    } else {
        4
    }
}

/// Appends a tile in the form Packed.
#[tactic(auto, using(crate::proofs::Growing::begins_then, crate::proofs::Growing::begins_more))]
pub fn append_packed(
    pixels: &Cpixels,
    palette: &[u32],
    w: usize,
    h: usize,
    indices: &[u8],
    out: &mut Vec<u8>,
) -> Result<(), AllocError>
    requires palette { length palette.now ≤ 16 }
    requires each { EachIndex indices.now (λ k. slice_index indices.now k < length palette.now) }
    requires wide { w ≤ 64 }
    requires high { h ≤ 64 }
    requires count { length indices.now ≡ w * h }
    requires short { length indices.now ≤ 4096 }
    ensures ok { OnOk result (out.new.items ≡ out.old.items
        ++ length palette.now ∷ (flat_map (cpixel_bytes pixels.now.format) palette.now
        ++ packed_rows (index_bits (length palette.now)) w h indices.now)) }
    ensures begins { BeginsWith out.old.items out.new.items }
{
    append_byte(palette.len() as u8, out)?;
    append_pixels(pixels, palette, out)?;
    append_rows(index_bits(palette.len()), w, h, indices, out)?;
    Ok(())
}
