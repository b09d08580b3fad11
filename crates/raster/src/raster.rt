//! Rasters: screens that are held in memory.

ghost use Rattle.std.specs.Prelude.{◌≡◌, ℕ, ◌+◌, ◌*◌, ◌<◌, ◌≤◌, ◌^◌, length, slice_index, map, All, IfOk, IfErr, ⊤};
ghost use Rattle.std.specs.Int.{w32, from_le_bytes};
ghost use Rattle.fault.specs.declared.kinds.Fault.TheVariants.{Memory};
ghost use Rattle.raster.specs.Colours.{colour_of};
ghost use Rattle.raster.specs.Screen.{LooksLike, IsWithin, opening, fill, lay, copy, value_at, kept};
ghost use Rattle.raster.specs.Update.{after_paints};
ghost use Rattle.raster.specs.Painted.{Fits, paint_of};
ghost use Rattle.raster.specs.Picture.{Picture, shown, IsPicture, IsRedrawn};

use crate::canvas::{Canvas, VALUE_LEN};
use crate::colours;
use crate::painting::{self, Paint};
use crate::rect::Rect;
use fault::Fault;
use std::alloc::Global;
use std::marker::Model;

/// A width, a height, and a colour at each position, in 4 bytes a pixel, row after row.
#[derive(Drop)]
pub struct Raster {
    width: u64,
    height: u64,
    colours: Vec<u32>,
}

impl Model for Raster {
    ghost Value = { Picture };

    ghost view = { λ r. record { width = r.width; height = r.height; colours = r.colours.items } };

    ghost invariant = { λ r.
        IsPicture (record { width = r.width; height = r.height; colours = r.colours.items }) };
}

impl Raster {
    /// A raster that is black all over. It fails where memory is refused (`Memory`).
    pub fn new(alloc: Global, w: u64, h: u64) -> Result<Raster, Fault>
        requires { w * h < 2 ^ 62 }
        ensures width { IfOk result (λ r. r.width ≡ w) }
        ensures height { IfOk result (λ r. r.height ≡ h) }
        ensures black { IfOk result (λ r. LooksLike w h (shown r) opening) }
        ensures err { IfErr result (λ fault. fault ≡ Memory) }
    {
        Ok(Raster {
            width: w,
            height: h,
            colours: vec![in alloc; 0u32; (w * h) as usize]?,
        })
    }

    /// Its width in pixels.
    pub fn width(&self) -> u64
        ensures { result ≡ self.now.width }
    {
        self.width
    }

    /// Its height in pixels.
    pub fn height(&self) -> u64
        ensures { result ≡ self.now.height }
    {
        self.height
    }

    /// The colour at a position.
    pub fn get(&self, x: u64, y: u64) -> u32
        requires across { x < self.now.width }
        requires down { y < self.now.height }
        ensures { result ≡ shown self.now x y }
    {
        self.colours[(y * self.width + x) as usize]
    }

    /// The colours of row `y`, from the left.
    pub fn row(&self, y: u64) -> &[u32]
        requires { y < self.now.height }
        ensures count { length result.now ≡ self.now.width }
        ensures colours { (x : ℕ) → x < self.now.width
            → slice_index result.now x ≡ shown self.now x y }
    {
        let w = self.width as usize;
        let start = y as usize * w;
        &self.colours.as_slice()[start..start + w]
    }

    /// Gives one position a colour.
    pub fn set(&mut self, x: u64, y: u64, colour: u32)
        requires across { x < self.old.width }
        requires down { y < self.old.height }
        ensures { IsRedrawn self.old
            (fill (record { x = x; y = y; w = 1; h = 1 }) colour (shown self.old)) self.new }
    {
        self.colours[(y * self.width + x) as usize] = colour;
    }

    /// Gives each position of a rectangle, which may be empty, one colour.
    pub fn fill(&mut self, area: Rect, colour: u32)
        requires { IsWithin area self.old.width self.old.height }
        ensures { IsRedrawn self.old (fill area colour (shown self.old)) self.new }
    {
        painting::fill(
            self.colours.as_mut_slice(),
            self.width as usize,
            self.height as usize,
            area,
            colour,
        );
    }

    /// Gives each position of a rectangle the colour that stood at its source before the call. `x`, `y` is the top
    /// left of the source, and the two may overlap.
    pub fn copy(&mut self, area: Rect, x: u64, y: u64)
        requires within { IsWithin area self.old.width self.old.height }
        requires source { IsWithin (record { x = x; y = y; w = area.w; h = area.h })
            self.old.width self.old.height }
        ensures { IsRedrawn self.old (copy area x y (shown self.old)) self.new }
    {
        painting::copy(
            self.colours.as_mut_slice(),
            self.width as usize,
            self.height as usize,
            area,
            x as usize,
            y as usize,
        );
    }

    /// Puts colours on a rectangle, row after row.
    pub fn put(&mut self, area: Rect, colours: &[u32])
        requires within { IsWithin area self.old.width self.old.height }
        requires count { length colours.now ≡ area.w * area.h }
        ensures { IsRedrawn self.old
            (lay area (value_at area.w colours.now) (shown self.old)) self.new }
    {
        painting::put(
            self.colours.as_mut_slice(),
            self.width as usize,
            self.height as usize,
            area,
            colours,
        );
    }

    /// Puts the colours of a host's pixels, of four bytes each, on a part of row `y`, from column `x` on.
    pub fn put_colours(&mut self, x: u64, y: u64, pixels: &[[u8; VALUE_LEN]])
        requires across { x + length pixels.now ≤ self.old.width }
        requires down { y < self.old.height }
        ensures { IsRedrawn self.old (lay (record { x = x; y = y; w = length pixels.now; h = 1 })
            (kept colour_of (value_at (length pixels.now) (map (from_le_bytes w32) pixels.now)))
            (shown self.old)) self.new }
    {
        colours::put_colours(
            self.colours.as_mut_slice(),
            self.width as usize,
            self.height as usize,
            x as usize,
            y as usize,
            pixels,
        );
    }

    /// Paints all of these, in order. It takes no memory, and always succeeds.
    pub fn paint_all(&mut self, paints: &[Paint])
        requires { All (λ p. Fits self.old.width self.old.height (paint_of p)) paints.now }
        ensures { IsRedrawn self.old
            (after_paints (shown self.old) (map paint_of paints.now)) self.new }
    {
        painting::apply_paints(
            self.colours.as_mut_slice(),
            self.width as usize,
            self.height as usize,
            paints,
        );
    }
}

impl Canvas for Raster {
    ghost width = { λ r. r.width };

    ghost height = { λ r. r.height };

    ghost shows = { shown };

    ghost keeps = { λ value. value };

    // A raster has nothing around it.
    ghost Stays = { λ _ _. ⊤ };

    ghost stays_at_once = { λ _. tt };

    ghost stays_then = { λ _ _ _ _ _. tt };

    fn put(&mut self, x: u64, y: u64, value: u32) {
        self.set(x, y, value);
    }

    fn fill(&mut self, area: Rect, value: u32) {
        self.fill(area, value);
    }

    fn put_row(&mut self, x: u64, y: u64, values: &[u32]) {
        let area = Rect {
            x,
            y,
            w: values.len() as u64,
            h: 1,
        };
        self.put(area, values);
    }

    fn put_bytes(&mut self, x: u64, y: u64, values: &[[u8; VALUE_LEN]]) {
        painting::put_words(
            self.colours.as_mut_slice(),
            self.width as usize,
            self.height as usize,
            x as usize,
            y as usize,
            values,
        );
    }
}
