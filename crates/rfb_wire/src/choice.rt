//! What a viewer chooses among encodings.

use raster::Encoding;

/// The choice that a viewer's list of encodings leads to (RFC 6143, 7.5.2).
#[derive(Clone, Copy, Debug, PartialEq, Eq)]
pub struct Choice {
    /// How it wants pixels: the first of Raw, RRE and Hextile in its list, and Raw where none of them is there.
    pub kind: Encoding,
    /// Whether CopyRect is in its list.
    pub copy: bool,
    /// Whether DesktopSize is in its list, so that it takes a new size of the screen (RFC 6143, 7.8.2).
    pub resizes: bool,
    /// Whether ZRLE comes before Raw, RRE and Hextile in its list (RFC 6143, 7.7.6).
    pub zrle: bool,
}
