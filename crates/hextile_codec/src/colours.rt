//! The colours that a tile may leave unsaid.

ghost use Rattle.std.specs.Prelude.{◌≡◌, ◌≤◌, length, drop};
ghost use Rattle.raster.specs.Encoding.{is_said};
ghost use Rattle.hextile_codec.specs.Ahead.{colour_in, colour_len};

use pixel_format::Format;

/// The colours that a tile may leave unsaid (RFC 6143, section 7.7.4): as it is read, the last of each that the
/// rectangle specified; as it is written, those that the tile directly before has.
#[derive(Clone, Copy)]
pub struct Colours {
    pub background: Option<u32>,
    pub foreground: Option<u32>,
}

impl Colours {
    /// None, as before the first tile.
    pub const NOTHING: Colours = Colours {
        background: None,
        foreground: None,
    };
}

/// Whether the tile before has this value.
pub fn is_said(before: Option<u32>, value: u32) -> bool
    ensures { result ≡ is_said before value }
{
    match before {
        Some(before) => before == value,
        None => false,
    }
}

/// The pixel at the front of some bytes and what follows it, where it is specified; else the carried one.
pub fn specified<'a>(
    format: &Format,
    given: bool,
    carried: Option<u32>,
    bytes: &'a [u8],
) -> (Option<u32>, &'a [u8])
    requires { colour_len format.now given ≤ length bytes.now }
    ensures colour { result.0 ≡ colour_in format.now given carried bytes.now }
    ensures rest { result.1.now ≡ drop (colour_len format.now given) bytes.now }
{
    if !given {
        return (carried, bytes);
    }
    let (field, rest) = bytes.split_at(format.bytes());
    (Some(format.get_pixel(field)), rest)
}
