//! The rectangle of a screen that is drawn on, as the bytes of its paint come.

ghost use Rattle.raster.specs.Colours.{colour_of};
ghost use Rattle.painter.specs.Drawing.{IsSameAround, around_at_once, around_then, drawn};

use crate::painter::Painter;
use raster::{Canvas, Rect, VALUE_LEN};

/// What is drawn shows in its place on the screen at once. Of each value its colour is kept, and nothing outside the
/// rectangle changes.
impl Canvas for Painter {
    ghost width = { λ p. p.area.w };

    ghost height = { λ p. p.area.h };

    ghost shows = { drawn };

    ghost keeps = { colour_of };

    ghost Stays = { IsSameAround };

    ghost stays_at_once = { around_at_once };

    ghost stays_then = { around_then };

    fn put(&mut self, x: u64, y: u64, value: u32) {
        let (x, y) = (self.area.x + x, self.area.y + y);
        self.raster.set(x, y, raster::colour_of(value));
    }

    fn fill(&mut self, area: Rect, value: u32) {
        let place = Rect {
            x: self.area.x + area.x,
            y: self.area.y + area.y,
            ..area
        };
        self.raster.fill(place, raster::colour_of(value));
    }

    fn put_bytes(&mut self, x: u64, y: u64, values: &[[u8; VALUE_LEN]]) {
        let (x, y) = (self.area.x + x, self.area.y + y);
        self.raster.put_colours(x, y, values);
    }
}
