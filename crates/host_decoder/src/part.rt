//! The parts of a host's message whose length is fixed.

ghost use Rattle.std.specs.Prelude.{◌≡◌};

use raster::Rect;
use rfb_wire::FixedPart;

/// The part of a message that is read next, where the number of its bytes is known.
#[derive(Clone, Copy)]
pub(crate) enum HostPart {
    /// The first byte of a message, which says its type.
    Kind,
    /// Padding and the number of rectangles of an update.
    Count,
    /// A rectangle's position and size, after which this many more rectangles follow.
    Area(u16),
    /// The encoding of the rectangle at this position and of this size; this many more rectangles follow.
    Encoding(u16, Rect),
    /// The encoding of a rectangle that leaves the screen, and may be a new size.
    Outside,
    /// Padding, the first colour and the number of colours of a colour map.
    Colours,
    /// Padding and the length of a text.
    Length,
}

impl FixedPart for HostPart {
    ghost use Rattle.host_decoder.specs.Parts as parts;

    ghost len_of = { parts.len_of };

    fn len(self) -> usize {
        match self {
            HostPart::Kind => 1,
            HostPart::Count => 3,
            HostPart::Area(_) => 8,
            HostPart::Encoding(_, _) => 4,
            HostPart::Outside => 4,
            HostPart::Colours => 5,
            HostPart::Length => 7,
        }
    }
}
