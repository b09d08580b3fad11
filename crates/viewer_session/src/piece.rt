//! A piece of the bytes that wait to be sent.

ghost use Rattle.std.specs.Prelude.{◌≡◌, ℕ, ◌+◌, ◌-◌, ◌*◌, ◌≤◌, ◌^◌, ◌<◌, [], ◌++◌, drop, length, IfOk, IfErr};
ghost use Rattle.fault.specs.declared.kinds.Fault.TheVariants.{Memory};
ghost use Rattle.fault.specs.declared.limits.TheConstants.{LONGEST_TEXT};
ghost use Rattle.raster.specs.declared.tile.TheConstants.{TILE_SIDE};
ghost use Rattle.reflect_core.specs.Source.{copies_in};
ghost use Rattle.rfb_wire.specs.Writing.{bell_bytes, server_text_bytes, size_bytes};
ghost use Rattle.update_encoder.specs.Coming.{AnswerStands, coming, front_bytes};

use crate::update::Whole;
use fault::Fault;
use raster::Size;
use reflect_core::Cut;
use rfb_wire::{write_bell, write_server_text, write_size};
use std::alloc::Global;
use std::marker::Model;
use update_encoder::Answer;

/// Bytes that wait to be sent, in room that was reserved for them. Contracts see how much room there is, how many bytes
/// were put into it, and the bytes that aren't sent yet.
#[derive(Drop)]
pub(crate) struct Piece {
    bytes: Vec<u8>,
    filled: usize,
    sent: usize,
}

impl Model for Piece {
    ghost use Rattle.std.specs.Prelude.{◌≤◌, drop, take, length};
    ghost use Rattle.viewer_session.specs.Outgoing.{Waiting};

    ghost Value = { Waiting };

    ghost view = { λ p. record {
      room = length p.bytes.items;
      filled = p.filled;
      unsent = drop p.sent (take p.filled p.bytes.items);
    } };

    ghost invariant = { λ p. (p.sent ≤ p.filled) × (p.filled ≤ length p.bytes.items) };
}

impl Piece {
    /// An empty piece with room for this many bytes. It fails where memory is refused (`Memory`).
    pub(crate) fn new(alloc: Global, room: usize) -> Result<Self, Fault>
        ensures ok { IfOk result (λ piece.
            (piece.room ≡ room) × (piece.filled ≡ 0) × (piece.unsent ≡ [])) }
        ensures err { IfErr result (λ fault. fault ≡ Memory) }
    {
        let mut bytes = Vec::new(alloc);
        if bytes.resize(room, 0).is_err() {
            return Err(Fault::Memory);
        }
        Ok(Piece {
            bytes,
            filled: 0,
            sent: 0,
        })
    }

    /// The bytes that aren't sent yet.
    pub(crate) fn unsent(&self) -> &[u8]
        ensures value { result.now ≡ self.now.unsent }
        ensures few { length result.now ≤ self.now.filled }
        ensures within { self.now.filled ≤ self.now.room }
    {
        &self.bytes.as_slice()[self.sent..self.filled]
    }

    /// This many of the unsent bytes, from the first on, were sent.
    pub(crate) fn sent(&mut self, count: usize)
        requires { count ≤ length self.old.unsent }
        ensures room { (self.new.room ≡ self.old.room) × (self.new.filled ≡ self.old.filled) }
        ensures unsent { self.new.unsent ≡ drop count self.old.unsent }
    {
        self.sent += count;
    }

    /// Further bytes wait, after those that waited before.
    pub(crate) fn append(&mut self, bytes: &[u8])
        requires { self.old.filled + length bytes.now ≤ self.old.room }
        ensures room { self.new.room ≡ self.old.room }
        ensures filled { self.new.filled ≡ self.old.filled + length bytes.now }
        ensures unsent { self.new.unsent ≡ self.old.unsent ++ bytes.now }
    {
        let end = self.filled + bytes.len();
        self.bytes.as_mut_slice()[self.filled..end].copy_from_slice(bytes);
        self.filled = end;
    }

    /// Nothing waits from now on.
    pub(crate) fn clear(&mut self)
        ensures room { (self.new.room ≡ self.old.room) × (self.new.filled ≡ 0) }
        ensures unsent { self.new.unsent ≡ [] }
    {
        self.filled = 0;
        self.sent = 0;
    }

    /// A Bell waits from now on, and nothing else (RFC 6143, 7.6.3).
    pub(crate) fn put_bell(&mut self)
        requires { 1 ≤ self.old.room }
        ensures room { self.new.room ≡ self.old.room }
        ensures unsent { self.new.unsent ≡ bell_bytes }
    {
        self.filled = write_bell(self.bytes.as_mut_slice());
        self.sent = 0;
    }

    /// A text waits from now on, and nothing else (RFC 6143, 7.6.4).
    pub(crate) fn put_text(&mut self, text: &[u8])
        requires short { length text.now ≤ LONGEST_TEXT }
        requires room { 8 + length text.now ≤ self.old.room }
        ensures room { self.new.room ≡ self.old.room }
        ensures unsent { self.new.unsent ≡ server_text_bytes text.now }
    {
        self.filled = write_server_text(text, self.bytes.as_mut_slice());
        self.sent = 0;
    }

    /// An update that tells a size waits from now on, and nothing else (RFC 6143, 7.8.2).
    pub(crate) fn put_size(&mut self, size: Size)
        requires wide { size.width ≤ 4096 }
        requires high { size.height ≤ 4096 }
        requires room { 16 ≤ self.old.room }
        ensures room { self.new.room ≡ self.old.room }
        ensures unsent { self.new.unsent ≡ size_bytes size }
    {
        self.filled = write_size(size, self.bytes.as_mut_slice());
        self.sent = 0;
    }

    /// The front of an answer waits from now on, and nothing else: its header, and the copies that its cut passes on
    /// (RFC 6143, 7.6.1 and 7.7.2).
    pub(crate) fn put_front(&mut self, answer: &Answer, cut: &Cut)
        requires room { 1028 ≤ self.old.room }
        ensures room { self.new.room ≡ self.old.room }
        ensures unsent { self.new.unsent ≡ front_bytes (copies_in cut.now) answer.now.count }
        ensures some { 4 ≤ length self.new.unsent }
    {
        self.filled = answer.write_front(cut, self.bytes.as_mut_slice());
        self.sent = 0;
    }

    /// The next bytes of an answer that was written whole wait from now on, as many as there is room for, and nothing
    /// else. Where there is none, nothing waits.
    pub(crate) fn put_some(&mut self, whole: &mut Whole)
        requires room { 1 ≤ self.old.room }
        ensures room { self.new.room ≡ self.old.room }
        ensures bytes { whole.old ≡ self.new.unsent ++ whole.new }
        ensures shows { length self.new.unsent ≡ 0 → (whole.new ≡ []) × (self.new.filled ≡ 0) }
    {
        let room = self.bytes.len();
        self.clear();
        let left = whole.left();
        let count = left.len().min(room);
        self.append(&left[..count]);
        whole.put(count);
    }

    /// The next rectangle of an answer waits from now on, and nothing else. Where there is none, nothing waits. The
    /// rectangle is encoded in a strip of pixel values.
    pub(crate) fn put_rectangle(&mut self, answer: &mut Answer, cut: &Cut, strip: &mut [u32])
        requires stands { AnswerStands answer.old cut.now }
        requires strip { TILE_SIDE * cut.now.width ≤ length strip.old }
        requires room { 12 + 64 * cut.now.width ≤ self.old.room }
        ensures room { self.new.room ≡ self.old.room }
        ensures stands { AnswerStands answer.new cut.now }
        ensures bytes { coming answer.old cut.now ≡ self.new.unsent ++ coming answer.new cut.now }
        ensures shows { length self.new.unsent ≡ 0
            → (coming answer.new cut.now ≡ []) × (self.new.filled ≡ 0) }
    {
        self.sent = 0;
        self.filled = match answer.next(cut, strip, self.bytes.as_mut_slice()) {
            Some(count) => count,
            None => 0,
        };
    }
}
