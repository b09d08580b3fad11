//! The inputs that may go to the host.

use rfb_wire::Text;

/// What a viewer's message asks of the host (RFC 6143, 7.5.4 to 7.5.6).
#[derive(Drop)]
pub enum Input {
    /// KeyEvent: an X keysym, pressed or released.
    Key { down: bool, key: u32 },
    /// PointerEvent: a mask of the buttons that are down, and a position in pixels.
    Pointer { mask: u8, x: u16, y: u16 },
    /// ClientCutText of at most 65,536 bytes.
    Cut(Text),
}
