//! What viewers want of a board.

use pixel_format::Format;

/// What a board is to keep for all viewers of an update: forms of tiles, and areas encoded in Hextile, in a format; and
/// whether they share parts of ZRLE.
#[derive(Clone, Copy, PartialEq, Eq)]
pub struct Wanted {
    pub forms: Option<Format>,
    pub parts: bool,
}

impl Wanted {
    /// Nothing is wanted.
    pub const NOTHING: Wanted = Wanted {
        forms: None,
        parts: false,
    };
}
