//! Rasters that are painted and copied.

ghost use Rattle.std.specs.Prelude.{◌≡◌};

use crate::lines::Tried;
use crate::rects::rect_of;
use crate::values::Values;
use raster::{Canvas, Paint, Raster, Rect};
use std::alloc::Global;

/// Draws on a canvas of `w` by `h`: a value in its bytes, a row of values, or one of a rectangle.
fn draw<C: Canvas>(canvas: &mut C, w: u64, h: u64, word: &str, given: &Values) -> Option<()>
    requires width { C.width canvas.old ≡ w }
    requires height { C.height canvas.old ≡ h }
    ensures same_width { C.width canvas.new ≡ w }
    ensures same_height { C.height canvas.new ≡ h }
{
    let colours = given.colours.as_slice();
    match (word, given.numbers.as_slice()) {
        ("draw_bytes", [x, y]) => {
            let (values, _) = given.bytes.as_slice().as_chunks::<4>();
            if *x > w || *y >= h || values.len() as u64 > w - *x {
                return None;
            }
            canvas.put_bytes(*x, *y, values);
        }
        ("draw_row", [x, y]) => {
            if *x > w || *y >= h || colours.len() as u64 > w - *x {
                return None;
            }
            canvas.put_row(*x, *y, colours);
        }
        ("draw", [x, y]) => {
            if *x >= w || *y >= h {
                return None;
            }
            canvas.put(*x, *y, *colours.first()?);
        }
        _ => {
            let (area, _) = rect_of(given.numbers.as_slice())?;
            if word != "draw_area" || !area.within(w, h) {
                return None;
            }
            canvas.fill(area, *colours.first()?);
        }
    }
    Some(())
}

impl Tried for Raster {
    fn play(
        &mut self,
        _alloc: Global,
        word: &str,
        given: &Values,
        seen: &mut Values,
    ) -> Option<()> {
        let (w, h) = (self.width(), self.height());
        let colours = given.colours.as_slice();
        match (word, given.numbers.as_slice()) {
            ("size", []) => seen.tell(&[w, h]),
            ("row", [y]) if *y < h => seen.show(self.row(*y)),
            ("get", [x, y]) if *x < w && *y < h => seen.show(&[self.get(*x, *y)]),
            ("set", [x, y]) if *x < w && *y < h => {
                self.set(*x, *y, *colours.first()?);
                Some(())
            }
            ("put" | "fill" | "copy" | "paint", numbers) => paint(self, word, numbers, colours),
            _ => draw(self, w, h, word, given),
        }
    }
}

/// Puts colours on a rectangle or fills it with one, or copies it, by itself or as a paint.
fn paint(raster: &mut Raster, word: &str, numbers: &[u64], colours: &[u32]) -> Option<()> {
    let (area, rest) = rect_of(numbers)?;
    let (w, h) = (raster.width(), raster.height());
    if !area.within(w, h) || w > 64 || h > 64 {
        return None;
    }
    match (word, rest) {
        ("put", []) if colours.len() as u64 == area.w * area.h => raster.put(area, colours),
        ("fill", []) => raster.fill(area, *colours.first()?),
        (_, [x, y])
            if (Rect {
                x: *x,
                y: *y,
                ..area
            })
            .within(w, h) => match word {
            "copy" => raster.copy(area, *x, *y),
            "paint" => raster.paint_all(&[Paint::Copy(area, *x, *y)]),
            _ => return None,
        },
        _ => return None,
    }
    Some(())
}
