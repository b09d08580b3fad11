//! What pixel values are drawn on.

ghost use Rattle.std.specs.Prelude.{◌≡◌, ℕ, ◌+◌, ◌<◌, ◌≤◌, ◌^◌, length, map};
ghost use Rattle.std.specs.Int.{w32, from_le_bytes};
ghost use Rattle.raster.specs.Screen.{Map, LooksLike, IsWithin, value_at, fill, lay, kept};

use crate::rect::Rect;

/// How many bytes a pixel value has.
pub const VALUE_LEN: usize = 4;

/// What pixel values are drawn on: a rectangle of positions, each of which shows what is kept of a value.
///
/// `x` counts columns from the left and `y` rows from the top, both from 0. A codec draws on any canvas of the size of
/// the rectangle that it reads, so that the values go where they belong with no buffer in between. A canvas may be a
/// part of something larger, the rest of which stays. It may also keep only a part of a value, as a screen keeps only
/// its colour.
pub trait Canvas {
    ghost width: { Self → ℕ };

    ghost height: { Self → ℕ };

    ghost shows: { Self → Map ℕ };

    // What is kept of a value that is put.
    ghost keeps: { ℕ → ℕ };

    // Around the canvas, whatever it is a part of is the same before and after.
    ghost Stays: { Self → Self → Type 0 };

    /// Puts a value on one position.
    fn put(&mut self, x: u64, y: u64, value: u32)
        requires across { x < width self.old }
        requires down { y < height self.old }
        ensures width { width self.new ≡ width self.old }
        ensures height { height self.new ≡ height self.old }
        ensures stays { Stays self.old self.new }
        ensures shows { LooksLike (width self.old) (height self.old) (shows self.new)
            (fill (record { x = x; y = y; w = 1; h = 1 }) (keeps value) (shows self.old)) };

    /// Puts a value on each position of a rectangle, which may be empty.
    fn fill(&mut self, area: Rect, value: u32)
        requires { IsWithin area (width self.old) (height self.old) }
        ensures width { width self.new ≡ width self.old }
        ensures height { height self.new ≡ height self.old }
        ensures stays { Stays self.old self.new }
        ensures shows { LooksLike (width self.old) (height self.old) (shows self.new)
            (fill area (keeps value) (shows self.old)) };

    /// Puts values on a part of row `y`, from column `x` on.
    fn put_row(&mut self, x: u64, y: u64, values: &[u32])
        requires across { x + length values.now ≤ width self.old }
        requires small { x + length values.now < 2 ^ 64 }
        requires down { y < height self.old }
        ensures width { width self.new ≡ width self.old }
        ensures height { height self.new ≡ height self.old }
        ensures stays { Stays self.old self.new }
        ensures shows { LooksLike (width self.old) (height self.old) (shows self.new)
            (lay (record { x = x; y = y; w = length values.now; h = 1 })
            (kept keeps (value_at (length values.now) values.now)) (shows self.old)) }
    {
        for (i, value) in values.iter().enumerate() {
            self.put(x + i as u64, y, *value);
        }
    }

    /// Puts values on a part of row `y`, from column `x` on. Each value is given by its four bytes, the least
    /// significant first.
    fn put_bytes(&mut self, x: u64, y: u64, values: &[[u8; VALUE_LEN]])
        requires across { x + length values.now ≤ width self.old }
        requires small { x + length values.now < 2 ^ 64 }
        requires down { y < height self.old }
        ensures width { width self.new ≡ width self.old }
        ensures height { height self.new ≡ height self.old }
        ensures stays { Stays self.old self.new }
        ensures shows { LooksLike (width self.old) (height self.old) (shows self.new)
            (lay (record { x = x; y = y; w = length values.now; h = 1 })
            (kept keeps (value_at (length values.now) (map (from_le_bytes w32) values.now)))
            (shows self.old)) }
    {
        for (i, value) in values.iter().enumerate() {
            self.put(x + i as u64, y, u32::from_le_bytes(*value));
        }
    }

    ghost stays_at_once: { (c : Self) → Stays c c };

    ghost stays_then: { (a b c : Self) → Stays a b → Stays b c → Stays a c };
}
