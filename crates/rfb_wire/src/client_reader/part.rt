//! The parts of a message whose length is fixed.

ghost use Rattle.std.specs.Prelude.{◌≡◌};

use crate::client_reader::found::Found;
use crate::fields::FixedPart;

/// What is read next, where the number of its bytes is known.
#[derive(Clone, Copy)]
pub(crate) enum Part {
    /// The type of a message.
    Kind,
    /// Padding and a pixel format.
    Format,
    /// Padding and the count of a list of encodings.
    Count,
    /// A number of such a list, after which this many more are left.
    Number { left: u16, found: Found },
    /// The fields of a FramebufferUpdateRequest.
    Ask,
    /// The fields of a KeyEvent.
    Key,
    /// The fields of a PointerEvent.
    Pointer,
    /// Padding and the length of a text.
    Length,
}

impl FixedPart for Part {
    ghost use Rattle.rfb_wire.specs.Parts as parts;

    ghost len_of = { parts.len_of };

    fn len(self) -> usize {
        match self {
            Part::Kind => 1,
            Part::Format => 19,
            Part::Count => 3,
            Part::Number { .. } => 4,
            Part::Ask => 9,
            Part::Key => 7,
            Part::Pointer => 5,
            Part::Length => 7,
        }
    }
}
