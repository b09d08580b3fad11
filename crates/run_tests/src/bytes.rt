//! What viewers and hosts send one another, on a screen of 2 by 1 whose name is T.

/// A viewer's side of the handshake: version 3.8, None, and shared (RFC 6143, 7.1.1, 7.1.2 and 7.3.1).
pub(crate) const HELLO: &[u8] = b"RFB 003.008\n\x01\x01";

/// Asks for what is new of the whole screen (RFC 6143, 7.5.3).
pub(crate) const ASK: &[u8] = b"\x03\x01\0\0\0\0\0\x02\0\x01";

/// Key 65 is pressed and released (RFC 6143, 7.5.4).
pub(crate) const PRESS: &[u8] = b"\x04\x01\0\0\0\0\0\x41";

pub(crate) const RELEASE: &[u8] = b"\x04\0\0\0\0\0\0\x41";

/// Key 97 and key 98 are pressed.
pub(crate) const PRESS_97: &[u8] = b"\x04\x01\0\0\0\0\0\x61";

pub(crate) const PRESS_98: &[u8] = b"\x04\x01\0\0\0\0\0\x62";

/// What a viewer is greeted with: the version, one security type, that it went well, and the screen of 2 by 1 with its
/// format of 32 bits and its name, T (RFC 6143, 7.1.1 to 7.1.3, 7.3.2 and 7.4).
pub(crate) const GREETING: &[u8] =
    b"RFB 003.008\n\x01\x01\0\0\0\0\0\x02\0\x01\x20\x18\0\x01\0\xFF\0\xFF\0\xFF\x10\x08\0\0\0\0\0\0\0\x01T";

/// How an answer begins: one rectangle of 2 by 1, Raw. Two colours follow.
pub(crate) const ANSWER: &[u8] = b"\0\0\0\x01\0\0\0\0\0\x02\0\x01\0\0\0\0";

/// The bytes of an answer.
pub(crate) const ANSWER_LEN: usize = 24;

/// One update of a rectangle of 2 by 1, Raw, each pixel of which has the colour (RFC 6143, 7.6.1 and 7.7.1).
pub(crate) const ONE: &[u8] = b"\0\0\0\x01\0\0\0\0\0\x02\0\x01\0\0\0\0\x01\0\0\0\x01\0\0\0";

pub(crate) const TWO: &[u8] = b"\0\0\0\x01\0\0\0\0\0\x02\0\x01\0\0\0\0\x02\0\0\0\x02\0\0\0";

pub(crate) const THREE: &[u8] = b"\0\0\0\x01\0\0\0\0\0\x02\0\x01\0\0\0\0\x03\0\0\0\x03\0\0\0";

/// An update of a rectangle of an encoding that wasn't asked for.
pub(crate) const UNKNOWN: &[u8] = b"\0\0\0\x01\0\0\0\0\0\x02\0\x01\0\0\0\x63";

/// The host's new size, 3 by 1 (RFC 6143, 7.8.2).
pub(crate) const OUTGROWS: &[u8] = b"\0\0\0\x01\0\0\0\0\0\x03\0\x01\xFF\xFF\xFF\x21";

/// A host's side of the handshake: version 3.8, None, that it went well, and a screen of 2 by 1 with its format of 32
/// bits and its name, T (RFC 6143, 7.1.1 to 7.1.3 and 7.3.2).
pub(crate) const WELCOME: &[u8] =
    b"RFB 003.008\n\x01\x01\0\0\0\0\0\x02\0\x01\x20\x18\0\x01\0\xFF\0\xFF\0\xFF\x10\x08\0\0\0\0\0\0\0\x01T";

/// That side of the handshake, with a screen of 3 by 1.
pub(crate) const WIDER: &[u8] =
    b"RFB 003.008\n\x01\x01\0\0\0\0\0\x03\0\x01\x20\x18\0\x01\0\xFF\0\xFF\0\xFF\x10\x08\0\0\0\0\0\0\0\x01T";
