//! What a viewer sends after its handshake.

use crate::choice::Choice;
use crate::text::Text;
use pixel_format::Format;
use raster::Rect;

/// A message of a viewer (RFC 6143, 7.5).
#[derive(Drop)]
pub enum ClientMessage {
    /// SetPixelFormat, with a format that is accepted.
    Format(Format),
    /// SetEncodings, as the choice that its list leads to.
    Encodings(Choice),
    /// FramebufferUpdateRequest: a rectangle in pixels, and whether only what has changed is asked for.
    Ask { incremental: bool, rect: Rect },
    /// KeyEvent: an X keysym, pressed or released.
    Key { down: bool, key: u32 },
    /// PointerEvent: a mask of the buttons that are down, and a position in pixels.
    Pointer { mask: u8, x: u16, y: u16 },
    /// ClientCutText of at most 65,536 bytes.
    Cut(Text),
    /// ClientCutText of this many bytes, which were read past: more than 65,536 of them, or memory for them was
    /// refused.
    CutLost(u32),
}
