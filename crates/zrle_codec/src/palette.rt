//! Finds the palette of a tile.

ghost use Rattle.std.specs.Prelude.{◌≡◌, ◌-◌, ◌<◌, ◌≤◌, length, slice_index, IfSome};
ghost use Rattle.zrle_codec.specs.Indexed.{AreIndexed};

/// The most colours of a palette. Tiles of more have plain runs: there a colour has the same bytes in each tile, so
/// that repeats of another tile are found, while an index stands for another colour in each palette.
pub const MOST_COLOURS: usize = 16;

/// The place of a colour among the first ones of a palette, or how many these are where it isn't among them.
fn find_colour(palette: &[u32], count: usize, value: u32) -> usize
    requires { count ≤ length palette.now }
    ensures within { result ≤ count }
    ensures found { result < count → slice_index palette.now result ≡ value }
{
    for i in 0..count {
        if palette[i] == value {
            return i;
        }
    }
    count
}

/// The place of the value at `k` in the same way, where the one before has its colour at `index`.
#[inline(always)]
fn next_index(palette: &[u32], count: usize, values: &[u32], k: usize, index: usize) -> usize
    requires some { count ≤ length palette.now }
    requires inside { k < length values.now }
    requires before { 0 < k → (index < count)
        × (slice_index palette.now index ≡ slice_index values.now (k - 1)) }
    ensures within { result ≤ count }
    ensures found { result < count → slice_index palette.now result ≡ slice_index values.now k }
{
    // Most pixels are as the one before.
    if k > 0 && values[k] == values[k - 1] {
        return index;
    }
    find_colour(palette, count, values[k])
}

/// Finds the colours of a tile, and the index of each value. It answers how many colours there are, or `None` where a
/// palette has no room for them.
pub fn index_values(values: &[u32], palette: &mut [u32], indices: &mut [u8]) -> Option<usize>
    requires room { length palette.old ≡ MOST_COLOURS }
    requires each { length indices.old ≡ length values.now }
    ensures room { length palette.new ≡ MOST_COLOURS }
    ensures each { length indices.new ≡ length values.now }
    ensures indexed { IfSome result (λ count. AreIndexed values.now palette.new indices.new count) }
{
    let mut count = 0;
    let mut index = 0;
    for k in 0..values.len() {
        index = next_index(palette, count, values, k, index);
        if index < count {
            indices[k] = index as u8;
            continue;
        }
        if count == MOST_COLOURS {
            return None;
        }
        palette[count] = values[k];
        indices[k] = count as u8;
        count += 1;
    }
    Some(count)
}
