//! Rectangles that a host copies.

ghost use Rattle.std.specs.Prelude.{◌≡◌};
ghost use Rattle.copy_log.specs.Passed.{source_of};

use raster::Rect;
use std::default::Default;

/// A rectangle that is copied from elsewhere on the screen (RFC 6143, 7.7.2), in pixels.
#[derive(Clone, Copy, Debug, PartialEq, Eq)]
pub struct CopyRect {
    /// Where it is copied to.
    pub area: Rect,
    /// The left of its source.
    pub x: u64,
    /// The top of its source.
    pub y: u64,
}

impl Default for CopyRect {
    /// A copy of nothing.
    fn default() -> Self {
        CopyRect {
            area: Rect {
                x: 0,
                y: 0,
                w: 0,
                h: 0,
            },
            x: 0,
            y: 0,
        }
    }
}

impl CopyRect {
    /// The rectangle that it is copied from, which is as large as its target.
    pub fn source(&self) -> Rect
        ensures { result ≡ source_of self.now.area self.now.x self.now.y }
    {
        Rect {
            x: self.x,
            y: self.y,
            w: self.area.w,
            h: self.area.h,
        }
    }
}
