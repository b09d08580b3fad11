//! What is kept of a rectangle's data, by its encoding.

use crate::copy_source::CopySource;
use crate::raw_data::RawPixels;
use hextile_codec::Reader as HextileReader;
use rre_codec::Reader as RreReader;

/// What has come of a rectangle's data.
#[derive(Drop)]
pub(crate) enum Body {
    /// Raw: the pixels that have come.
    Raw(RawPixels),
    /// CopyRect: the position of the source, as far as it has come.
    Copy(CopySource),
    /// RRE: a background and subrectangles, as far as they have come.
    Rre(RreReader),
    /// Hextile: the tiles that have come.
    Hextile(HextileReader),
}
