//! The choice in a list of encodings, found while its numbers come.

ghost use Rattle.std.specs.Prelude.{◌≡◌, ℕ, List, [], ◌∷◌};
ghost use Rattle.rfb_wire.specs.ClientReader.{choice_with};
ghost use Rattle.rfb_wire.specs.Message.{choice_in};

use crate::choice::Choice;
use crate::head::DESKTOP_SIZE;
use raster::{COPY_RECT, Encoding};

/// The number of ZRLE (RFC 6143, 7.7.6).
const ZRLE: u32 = 16;

/// What the numbers so far say (RFC 6143, 7.5.2 and 7.7): the first encoding of pixels that the reflector writes, and
/// whether CopyRect and DesktopSize are among them, and whether ZRLE comes before it. The list itself is not kept.
#[derive(Clone, Copy)]
pub(crate) struct Found {
    kind: Option<Encoding>,
    copy: bool,
    resizes: bool,
    zrle: bool,
}

impl Found {
    /// What is found before the first number.
    pub(crate) const NOTHING: Found = Found {
        kind: None,
        copy: false,
        resizes: false,
        zrle: false,
    };

    /// What is found with one more number. Only the first encoding of pixels counts.
    pub(crate) fn note(self, number: u32) -> Found
        ensures { (others : List ℕ)
            → choice_with result others ≡ choice_with self (number ∷ others) }
    {
        let kind = Encoding::of_number(number);
        Found {
            kind: self.kind.or(kind),
            copy: self.copy || number == COPY_RECT,
            resizes: self.resizes || number == DESKTOP_SIZE,
            zrle: self.zrle || (self.kind.is_none() && number == ZRLE),
        }
    }

    /// The choice, where no more numbers come.
    pub(crate) fn choice(self) -> Choice
        ensures { choice_in result ≡ choice_with self [] }
    {
        Choice {
            kind: self.kind.unwrap_or(Encoding::Raw),
            copy: self.copy,
            resizes: self.resizes,
            zrle: self.zrle,
        }
    }
}
