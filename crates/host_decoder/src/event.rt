//! What the whole messages of a host bring.

use painter::Patch;

/// What a whole message of the host brings (RFC 6143, 7.6). The last two change nothing.
///
/// Each type of message has a variant of its own, although the first three are put in the same way. So a test or a
/// trace, which reads the host's bytes for another purpose, can tell them apart without looking into the patch.
#[derive(Drop)]
pub enum HostEvent {
    /// A FramebufferUpdate, as the tiles that it touched.
    Paint(Patch),
    /// A Bell (7.6.3), as a patch that touches no tile.
    Bell(Patch),
    /// A cut text of at most 65,536 bytes.
    Cut(Patch),
    /// A colour map, which was read past.
    Map,
    /// A longer text, which was read past.
    LongCut,
}
