//! A host of a screen of 2 by 1, which is told one key and then ends.

use crate::loopback::{accept, hears, sends};
use std::net::{TcpListener, TcpStream};

/// A version of the protocol, as each end gives it (RFC 6143, 7.1.1).
pub(crate) const VERSION: &[u8] = b"RFB 003.008\n";

/// The screen is 2 by 1, of 32 bits a pixel, named T (RFC 6143, 7.3.2 and 7.4).
pub(crate) const INIT: &[u8] =
    b"\0\x02\0\x01\x20\x18\0\x01\0\xFF\0\xFF\0\xFF\x10\x08\0\0\0\0\0\0\0\x01T";

/// One update of 2 by 1, Raw: red and blue (RFC 6143, 7.6.1 and 7.7.1). A viewer of the same format that asks for the
/// whole screen is answered so, too.
pub(crate) const UPDATE: &[u8] = b"\0\0\0\x01\0\0\0\0\0\x02\0\x01\0\0\0\0\0\0\xFF\0\xFF\0\0\0";

/// The key a goes down and up (RFC 6143, 7.5.4).
pub(crate) const KEY: &[u8] = b"\x04\x01\0\0\0\0\0\x61\x04\0\0\0\0\0\0\x61";

/// What a joining client gives: its format, its five encodings, and a request for the whole screen (RFC 6143, 7.5.1 to
/// 7.5.3).
const ASKED: &[u8] = b"\0\0\0\0\x20\x18\0\x01\0\xFF\0\xFF\0\xFF\x10\x08\0\0\0\0\
      \x02\0\0\x05\0\0\0\x01\0\0\0\x05\0\0\0\x02\0\0\0\0\xFF\xFF\xFF\x21\
      \x03\0\0\0\0\0\0\x02\0\x01";

/// What the client asks for once an update was put: what is new of the whole screen.
const ASKED_ANEW: &[u8] = b"\x03\x01\0\0\0\0\0\x02\0\x01";

/// What the host says, and what it is told thereupon, from the version on (RFC 6143, 7.1 and 7.3).
const TALK: [(&[u8], &[u8]); 5] = [
    (VERSION, VERSION),
    (b"\x01\x01", b"\x01"),
    (b"\0\0\0\0", b"\x01"),
    (INIT, ASKED),
    (UPDATE, ASKED_ANEW),
];

/// Whether a client joins as it should, asks anew after the update, and then tells this key and nothing before it.
fn is_joined(stream: &mut TcpStream) -> bool {
    let mut is_right = true;
    for (said, wanted) in TALK {
        is_right = is_right && sends(stream, said) && hears(stream, wanted);
    }
    is_right && hears(stream, KEY)
}

/// Whether the next client that connects joins as it should, and tells this key. The connection ends then.
pub(crate) fn is_told_a_key(listener: &TcpListener) -> bool {
    match accept(listener) {
        Some(mut stream) => is_joined(&mut stream),
        None => false,
    }
}
