//! What a host's handshake tells.

use arrayvec::ArrayVec;
use std::marker::Model;

/// A host's screen, 1 to 4096 pixels each way, and the first 255 bytes of its name (RFC 6143, 7.3.2).
#[derive(Drop)]
pub struct Joined {
    /// The width of its screen in pixels.
    pub w: u64,
    /// The height of its screen in pixels.
    pub h: u64,
    /// The bytes of its name, at most the first 255.
    pub name: ArrayVec<u8, 255>,
}

impl Model for Joined {
    ghost use Rattle.rfb_wire.specs.Handshake as handshake;

    ghost Value = { handshake.Joined };

    ghost view = { λ j. record { w = j.w; h = j.h; name = j.name.items } };
}
