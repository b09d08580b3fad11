//! What a viewer and a host send one another, on a screen of 1024 by 512 whose name is T.

/// A session of a screen of half a million pixels and more asks for a block of over 32 MiB (`reflect_core::Cut::new`).
pub(crate) const WIDTH: u64 = 1024;

pub(crate) const HEIGHT: u64 = 512;

/// A viewer's side of the handshake: version 3.8, None, and shared (RFC 6143, 7.1.1, 7.1.2 and 7.3.1). Then it asks for
/// what is new of the first two pixels (7.5.3).
pub(crate) const HELLO_AND_ASK: &[u8] = b"RFB 003.008\n\x01\x01\x03\x01\0\0\0\0\0\x02\0\x01";

/// How many of these bytes are the handshake.
pub(crate) const HELLO_LEN: usize = 14;

/// What a viewer is greeted with: the version, one type of security, that it went well, and the screen with its format
/// of 32 bits and its name (RFC 6143, 7.1.1 to 7.1.3, 7.3.2 and 7.4). One update of a rectangle of 2 by 1 follows, Raw,
/// each pixel of which has the colour 1 (7.6.1 and 7.7.1).
pub(crate) const GREETING_AND_UPDATE: &[u8] =
    b"RFB 003.008\n\x01\x01\0\0\0\0\x04\0\x02\0\x20\x18\0\x01\0\xFF\0\xFF\0\xFF\x10\x08\0\0\0\0\0\0\0\x01T\
      \0\0\0\x01\0\0\0\0\0\x02\0\x01\0\0\0\0\x01\0\0\0\x01\0\0\0";

/// How many of these bytes are the greeting.
pub(crate) const GREETING_LEN: usize = 43;

/// What the host sends: that update.
pub(crate) const UPDATE: &[u8] = b"\0\0\0\x01\0\0\0\0\0\x02\0\x01\0\0\0\0\x01\0\0\0\x01\0\0\0";
