//! What is read together of a rectangle in RRE.

ghost use Rattle.std.specs.Prelude.{◌≡◌, ◌≤◌};
ghost use Rattle.rre_codec.specs.Ahead.{needed, is_open};

use crate::run::COUNT_LEN;
use pixel_format::Format;
use raster::RECT_LEN;

/// What the next bytes of a rectangle are.
#[derive(Clone, Copy)]
pub enum Stage {
    /// The number of subrectangles, and the background.
    Head,
    /// This many subrectangles.
    Subrects(u32),
    /// No byte comes next: a subrectangle left the rectangle.
    Outside,
}

/// The most bytes that are looked at together: a subrectangle with a pixel of 4.
pub const MOST_NEEDED: usize = 12;

/// How many bytes are looked at together.
pub fn needed(format: &Format, stage: Stage) -> usize
    ensures value { result ≡ needed format.now stage }
    ensures most { result ≤ MOST_NEEDED }
{
    match stage {
        Stage::Head => COUNT_LEN + format.bytes(),
        _ => format.bytes() + RECT_LEN,
    }
}

/// Whether another byte is wanted.
pub fn is_open(stage: Stage) -> bool
    ensures { result ≡ is_open stage }
{
    match stage {
        Stage::Head => true,
        Stage::Subrects(left) => left > 0,
        Stage::Outside => false,
    }
}
