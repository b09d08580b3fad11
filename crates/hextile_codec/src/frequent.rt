//! The most frequent value of a tile.

ghost use Rattle.std.specs.Prelude.{◌≡◌, ℕ, ◌+◌, ◌<◌, ◌≤◌, ◌^◌, [], ◌∷◌, length, slice_index, count_ones, IsTrue};
ghost use Rattle.std.specs.Int.Bits.{bit_and};
ghost use Rattle.raster.specs.Screen.{part_of, value_at, values_of};
ghost use Rattle.joined_runs.specs.Joined.{count_of, most_frequent};
ghost use Rattle.hextile_codec.specs.Buckets.{bucket_of};
ghost use Rattle.hextile_codec.specs.Marks.{LiesAmong};
ghost use Rattle.hextile_codec.specs.Places.{AreOthers, IsFirst};

use crate::marking::differences;
use crate::rows::row_of;
use crate::runs::TILE_AREA;
use crate::tile_marks::{count_bits, find_others};
use arrayvec::ArrayVec;
use raster::{Rect, TILE_SIDE};
use std::simd::u32x16;

/// The values of one tile, row after row.
pub type Pixels = ArrayVec<u32, TILE_AREA>;

/// Puts the values of a tile into `pixels`, row after row.
fn take_pixels(values: &[u32], w: usize, tile: &Rect, pixels: &mut Pixels)
    requires lies { LiesAmong values.now w tile.now }
    requires w_some { 0 < tile.now.w }
    requires w_most { tile.now.w ≤ TILE_SIDE }
    requires h_most { tile.now.h ≤ TILE_SIDE }
    ensures { pixels.new.items
        ≡ values_of tile.now.w tile.now.h (part_of tile.now (value_at w values.now)) }
{
    pixels.clear();
    for y in 0..tile.h as usize {
        // A tile has no more values than there is room for.
        let _ = pixels.try_extend_from_slice(row_of(values, w, tile, y));
    }
}

/// How often a value stands among others.
fn count_of(values: &[u32], value: u32) -> usize
    ensures count { result ≡ count_of values.now value }
    ensures few { result ≤ length values.now }
{
    let mut count = 0;
    for other in values {
        count += usize::from(*other == value);
    }
    count
}

/// How many buckets values are counted in.
const BUCKETS: usize = 64;

/// The bucket of a value. Values of colours that are near to one another mostly have different ones.
fn bucket_of(value: u32) -> usize
    ensures value { result ≡ bucket_of value }
    ensures few { result < 64 }
{
    let value = value as usize;
    (value + value / 32 * 5 + value / 2048 * 11) % BUCKETS
}

/// How many of some values are in each bucket.
fn count_buckets(values: &[u32]) -> [usize; BUCKETS]
    ensures len { length result ≡ 64 }
    ensures counts { (value : ℕ)
        → count_of values.now value ≤ slice_index result (bucket_of value) }
{
    let mut counts = [0; BUCKETS];
    for value in values {
        counts[bucket_of(*value)] += 1;
    }
    counts
}

/// The most frequent of some values; of several the one that comes first.
fn most_frequent(values: &[u32]) -> u32
    requires { 0 < length values.now }
    ensures { result ≡ most_frequent values.now }
{
    let len = values.len();
    let buckets = count_buckets(values);
    let mut best = values[0];
    let mut most = count_of(values, best);
    let mut at = 1;
    // None of those that come first at `at` or later is more frequent than there are left, nor than the others.
    while at < len && most < (len - at).min(len - most) {
        let value = values[at];
        // A value isn't more frequent than its bucket. One that was counted mostly has a bucket of its own, also the
        // best, so that the second test is rarely made.
        if most < buckets[bucket_of(value)] && value != best {
            let count = count_of(&values[at..], value);
            if count > most {
                best = value;
                most = count;
            }
        }
        at += 1;
    }
    best
}

/// How many values of a row of 16 are this one.
fn count_in_row(row: &[u32], value: u32) -> usize
    requires { length row.now ≡ 16 }
    ensures count { result ≡ count_of row.now value }
    ensures few { result ≤ 16 }
{
    let others = differences(u32x16::from_slice(row), u32x16::splat(value));
    TILE_SIDE as usize - (others.count_ones() as usize).min(TILE_SIDE as usize)
}

/// Whether at least half of a tile as wide as 16 shows its first pixel's value, which then no other exceeds.
fn shows_most(values: &[u32], w: usize, tile: &Rect, first: u32) -> bool
    requires lies { LiesAmong values.now w tile.now }
    requires wide { tile.now.w ≡ 16 }
    requires h_some { 0 < tile.now.h }
    requires h_most { tile.now.h ≤ TILE_SIDE }
    requires first { first ≡ part_of tile.now (value_at w values.now) 0 0 }
    ensures { IsTrue result
        → first ≡ most_frequent (values_of tile.now.w tile.now.h
        (part_of tile.now (value_at w values.now))) }
{
    let mut shown = 0;
    for y in 0..tile.h as usize {
        shown += count_in_row(row_of(values, w, tile, y), first);
    }
    tile.h as usize * 8 <= shown
}

/// The most frequent value of a tile; of several the one that comes first.
pub fn find_most(values: &[u32], w: usize, tile: &Rect, pixels: &mut Pixels) -> u32
    requires lies { LiesAmong values.now w tile.now }
    requires w_some { 0 < tile.now.w }
    requires w_most { tile.now.w ≤ TILE_SIDE }
    requires h_some { 0 < tile.now.h }
    requires h_most { tile.now.h ≤ TILE_SIDE }
    ensures { result ≡ most_frequent (values_of tile.now.w tile.now.h
        (part_of tile.now (value_at w values.now))) }
{
    let first = values[tile.y as usize * w + tile.x as usize];
    if tile.w == TILE_SIDE && shows_most(values, w, tile, first) {
        return first;
    }
    take_pixels(values, w, tile, pixels);
    most_frequent(pixels.as_slice())
}

/// The most frequent value of a whole tile, and a bit for each position that has another.
#[derive(Clone, Copy)]
pub struct Most {
    pub value: u32,
    pub others: [u64; 4],
}

/// The words that have the bits of both.
fn in_both(words: &[u64; 4], others: &[u64; 4]) -> [u64; 4]
    ensures { result ≡ bit_and (slice_index words.now 0) (slice_index others.now 0)
        ∷ bit_and (slice_index words.now 1) (slice_index others.now 1)
        ∷ bit_and (slice_index words.now 2) (slice_index others.now 2)
        ∷ bit_and (slice_index words.now 3) (slice_index others.now 3) ∷ [] }
{
    [
        words[0] & others[0],
        words[1] & others[1],
        words[2] & others[2],
        words[3] & others[3],
    ]
}

/// The first position that has a bit.
fn first_of(words: &[u64; 4]) -> usize
    requires some { 0 < count_ones (slice_index words.now 0) + count_ones (slice_index words.now 1)
        + count_ones (slice_index words.now 2) + count_ones (slice_index words.now 3) }
    requires fits { (k : ℕ) → k < 4 → slice_index words.now k < 2 ^ 64 }
    ensures { IsFirst words.now result }
{
    let mut k = 0;
    while k < 3 && words[k] == 0 {
        k += 1;
    }
    64 * k + words[k].trailing_zeros() as usize
}

/// The most frequent value of a whole tile, of several the one that comes first, and where others are; `first` is its
/// first pixel's value, and `others` has a bit for each position with another.
pub fn find_most_marked(
    values: &[u32],
    w: usize,
    tile: &Rect,
    first: u32,
    others: &[u64; 4],
) -> Most
    requires lies { LiesAmong values.now w tile.now }
    requires wide { tile.now.w ≡ 16 }
    requires high { tile.now.h ≡ 16 }
    requires first { first ≡ part_of tile.now (value_at w values.now) 0 0 }
    requires others { AreOthers (part_of tile.now (value_at w values.now)) first others.now }
    ensures value { result.value
        ≡ most_frequent (values_of 16 16 (part_of tile.now (value_at w values.now))) }
    ensures others { AreOthers (part_of tile.now (value_at w values.now))
        result.value result.others }
{
    let mut best = Most {
        value: first,
        others: *others,
    };
    let mut most = TILE_AREA - count_bits(others);
    let mut left = *others;
    // Values that first come later are no more frequent than there are positions left.
    while most < count_bits(&left) {
        let at = first_of(&left);
        let value = row_of(values, w, tile, at / 16)[at % 16];
        let others = find_others(values, w, tile, value);
        let shown = TILE_AREA - count_bits(&others);
        if shown > most {
            best = Most { value, others };
            most = shown;
        }
        left = in_both(&left, &others);
    }
    best
}
