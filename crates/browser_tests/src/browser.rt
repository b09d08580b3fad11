//! A browser, as far as a port sees it: a WebSocket's frames (RFC 6455). Frames are spelled by hand.

use crate::asks::{OPENING, is_answered};
use crate::loopback::{connect, is_let_go, reads, sends};
use std::net::TcpStream;

/// The mask of a client's frames (RFC 6455, section 5.7).
const MASK: [u8; 4] = [0x37, 0xFA, 0x21, 0x3D];

/// The first byte of a whole binary message, and that of a ping (RFC 6455, section 5.2).
pub(crate) const MESSAGE: u8 = 0x82;

pub(crate) const PING: u8 = 0x89;

/// The bytes of a client's frame before its payload: the first, the length and the mask.
const HEAD: usize = 6;

/// A client's frame has at most this many bytes here. The length of its payload is one byte.
const MOST_SENT: usize = HEAD + 125;

/// At most this many bytes of messages are compared at once.
const MOST: usize = 32;

/// A WebSocket that was opened.
#[derive(Drop)]
pub(crate) struct Browser {
    stream: TcpStream,
    // This many bytes are left of the message that is read.
    left: usize,
}

/// Whether a client's frame is sent, at once. It begins with this byte, and its payload has up to 125 bytes.
pub(crate) fn sends_frame(stream: &mut TcpStream, first: u8, payload: &[u8]) -> bool {
    let mut frame = [0u8; MOST_SENT];
    let Ok(len) = u8::try_from(payload.len()) else {
        return false;
    };
    let [a, b, c, d] = MASK;
    let (head, room) = frame.split_at_mut(HEAD);
    head.copy_from_slice(&[first, 0x80 | len, a, b, c, d]);
    for (i, (place, byte)) in room.iter_mut().zip(payload).enumerate() {
        *place = *byte ^ MASK[i % 4];
    }
    match frame.get(..HEAD + usize::from(len)) {
        Some(frame) => sends(stream, frame),
        None => false,
    }
}

impl Browser {
    /// Opens a WebSocket from the port's own page. It answers None where the port doesn't answer the key.
    pub(crate) fn open(net: &HostRuntime, port: u16) -> Option<Browser> {
        let mut stream = connect(net, port)?;
        if is_answered(net.alloc(), &mut stream, port, &OPENING) {
            Some(Browser { stream, left: 0 })
        } else {
            None
        }
    }

    /// The connection.
    pub(crate) fn stream(&mut self) -> &mut TcpStream {
        &mut self.stream
    }

    /// Whether these bytes are sent, up to 125, in a binary message.
    pub(crate) fn says(&mut self, bytes: &[u8]) -> bool {
        sends_frame(&mut self.stream, MESSAGE, bytes)
    }

    /// Reads the head of the next frame. It answers whether the frame is a whole binary message, without a mask, of at
    /// most 65,535 bytes.
    fn begins(&mut self) -> bool {
        let mut head = [0u8; 2];
        let is_read = reads(&mut self.stream, &mut head);
        let [first, len] = head;
        self.left = usize::from(len);
        if len == 126 {
            return is_read && first == MESSAGE && self.begins_long();
        }
        is_read && first == MESSAGE && len < 126
    }

    /// Reads the length of a message that doesn't stand in one byte.
    fn begins_long(&mut self) -> bool {
        let mut len = [0u8; 2];
        let is_read = reads(&mut self.stream, &mut len);
        self.left = usize::from(u16::from_be_bytes(len));
        is_read
    }

    /// Whether a byte comes next, in a message, which is read.
    fn reads_one(&mut self, into: &mut u8) -> bool {
        if self.left == 0 && !self.begins() {
            return false;
        }
        let mut one = [0u8; 1];
        let is_read = reads(&mut self.stream, &mut one);
        self.left = self.left.saturating_sub(1);
        *into = one[0];
        is_read
    }

    /// Whether this many bytes come next, in messages, which are read.
    pub(crate) fn reads(&mut self, into: &mut [u8]) -> bool {
        let mut are_read = true;
        for byte in into.iter_mut() {
            are_read = are_read && self.reads_one(byte);
        }
        are_read
    }

    /// Whether these bytes come next, in messages.
    pub(crate) fn hears(&mut self, wanted: &[u8]) -> bool {
        let mut told = [0u8; MOST];
        match told.get_mut(..wanted.len()) {
            Some(told) => self.reads(told) && &*told == wanted,
            None => false,
        }
    }

    /// Whether nothing more comes: the connection has ended.
    pub(crate) fn is_let_go(&mut self) -> bool {
        is_let_go(&mut self.stream)
    }
}
