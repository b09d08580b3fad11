//! A tile's mask.

ghost use Rattle.std.specs.Prelude.{◌≡◌, ◌<◌, ◌/◌, ◌%◌, ◌==◌};

/// Bit of a mask: the pixels follow as in Raw, and no other bit means anything (RFC 6143, section 7.7.4).
pub const RAW: u8 = 1;

/// Bit of a mask: the background follows.
pub const BACKGROUND_SPECIFIED: u8 = 2;

/// Bit of a mask: the foreground follows, the colour of all plain subrectangles.
pub const FOREGROUND_SPECIFIED: u8 = 4;

/// Bit of a mask: the number of subrectangles follows.
pub const ANY_SUBRECTS: u8 = 8;

/// Bit of a mask: each subrectangle begins with a pixel of its own.
pub const SUBRECTS_COLOURED: u8 = 16;

/// Whether a mask has a bit, which is a power of 2.
#[inline]
pub fn has(mask: u8, bit: u8) -> bool
    requires { 0 < bit }
    ensures { result ≡ (mask / bit % 2 == 1) }
{
    mask / bit % 2 == 1
}
