//! What is written down of a stream.

use fault::Fault;

/// Bytes that are written one after the other, as far as they have room.
#[derive(Drop)]
pub struct Transcript<'a> {
    out: &'a mut [u8],
    len: usize,
}

impl<'a> Transcript<'a> {
    /// Nothing, with this room.
    pub fn new(out: &'a mut [u8]) -> Transcript<'a> {
        Transcript { out, len: 0 }
    }

    /// How many bytes are written.
    pub fn len(&self) -> usize {
        self.len
    }

    /// Writes a byte.
    pub fn byte(&mut self, byte: u8) {
        if let Some(place) = self.out.get_mut(self.len) {
            *place = byte;
            self.len = self.len.saturating_add(1);
        }
    }

    /// Writes these bytes, in order.
    pub fn bytes(&mut self, bytes: &[u8]) {
        for byte in bytes {
            self.byte(*byte);
        }
    }

    /// Writes a number in eight bytes, the most significant first.
    pub fn number(&mut self, number: u64) {
        self.bytes(&number.to_be_bytes());
    }

    /// Writes the fault at which a reader stands, or 0, and how many bytes it used.
    pub fn end(&mut self, fault: Option<Fault>, used: usize) {
        let number = match fault {
            Some(fault) => fault.number(),
            None => 0,
        };
        self.byte(0xF0);
        self.number(number);
        self.number(used as u64);
    }
}
