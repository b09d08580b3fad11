//! The colours of a host's pixels, on rows of colours.

ghost use Rattle.std.specs.Prelude.{◌≡◌, ℕ, ◌+◌, ◌*◌, ◌<◌, ◌≤◌, ◌^◌, length, slice_index, map};
ghost use Rattle.std.specs.Int.{w32, from_le_bytes};
ghost use Rattle.raster.specs.Colours.{colour_in, colour_of};
ghost use Rattle.raster.specs.Screen.{LooksLike, value_at, lay, kept};

use crate::canvas::VALUE_LEN;

/// How many colours there are. A host's pixel value modulo this number is its colour.
const COLOURS: u32 = 0x100_0000;

/// The colour of a host's pixel value: its lower 24 bits.
pub fn colour_of(value: u32) -> u32
    ensures { result ≡ colour_of value }
{
    value % COLOURS
}

/// Makes the colours of some pixels.
fn make_colours(pixels: &[[u8; VALUE_LEN]], colours: &mut [u32])
    requires { length colours.old ≡ length pixels.now }
    ensures { colours.new ≡ map colour_in pixels.now }
{
    for (i, pixel) in pixels.iter().enumerate() {
        colours[i] = colour_of(u32::from_le_bytes(*pixel));
    }
}

/// Writes the colours of pixels into a part of the values.
fn lay_colours(values: &mut [u32], from: usize, pixels: &[[u8; VALUE_LEN]])
    requires { from + length pixels.now ≤ length values.old }
    ensures inside { (k : ℕ) → k < length pixels.now
        → slice_index values.new (from + k) ≡ slice_index (map colour_in pixels.now) k }
    ensures outside { (k : ℕ) → k < from → slice_index values.new k ≡ slice_index values.old k }
    ensures past { (k : ℕ) → from + length pixels.now ≤ k
        → slice_index values.new k ≡ slice_index values.old k }
{
    make_colours(pixels, &mut values[from..from + pixels.len()]);
}

/// Puts the colours of pixels on a part of row `y`, from column `x` on.
pub(crate) fn put_colours(
    values: &mut [u32],
    w: usize,
    h: usize,
    x: usize,
    y: usize,
    pixels: &[[u8; VALUE_LEN]],
)
    requires size { length values.old ≡ w * h }
    requires small { w * h < 2 ^ 62 }
    requires across { x + length pixels.now ≤ w }
    requires down { y < h }
    ensures { LooksLike w h (value_at w values.new)
        (lay (record { x = x; y = y; w = length pixels.now; h = 1 })
        (kept colour_of (value_at (length pixels.now) (map (from_le_bytes w32) pixels.now)))
        (value_at w values.old)) }
{
    lay_colours(values, y * w + x, pixels);
}
