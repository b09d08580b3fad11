//! What a link keeps of the bytes that it was given.

use crate::socket::Socket;
use std::alloc::{AllocError, Global};
use std::io;
use std::marker::Model;

/// The most bytes that are kept.
pub(crate) const MOST_KEPT: usize = 65_536;

/// Bytes that are kept, in order, until they can go out. Once none is left, all of the room is free again.
#[derive(Drop)]
pub(crate) struct SendBuffer {
    bytes: Vec<u8>,
    // How many of them have gone out.
    gone: usize,
}

impl Model for SendBuffer {
    ghost use Rattle.std.specs.Prelude.{◌≤◌, ◌-◌, drop, length, vec_capacity};
    ghost use Rattle.connections.specs.Keeping.{KeptBytes, most_kept};

    ghost Value = { KeptBytes };

    ghost view = { λ k.
        record { bytes = drop k.gone k.bytes.items; room = most_kept - length k.bytes.items } };

    ghost invariant = { λ k. (k.gone ≤ length k.bytes.items) × (length k.bytes.items ≤ most_kept)
        × (most_kept ≤ vec_capacity k.bytes) };
}

impl SendBuffer {
    ghost use Rattle.std.specs.Prelude.{◌≡◌, ◌+◌, ◌-◌, ◌≤◌, ◌++◌, ◌↔◌, if◌then◌else◌, [], IsTrue, nat_eq, length, take, drop, min, IfOk, OnErr};
    ghost use Rattle.connections.specs.Keeping.{most_kept};
    ghost use Rattle.connections.specs.Wires.{moved, moved_behind};

    /// A list without a byte. Room for `MOST_KEPT` bytes is taken here. It fails where that memory is refused.
    pub(crate) fn new(alloc: Global) -> Result<SendBuffer, AllocError>
        ensures { IfOk result (λ kept. kept ≡ record { bytes = []; room = most_kept }) }
    {
        let bytes = Vec::with_capacity(alloc, MOST_KEPT)?;
        Ok(SendBuffer { bytes, gone: 0 })
    }

    /// Whether no byte is kept.
    pub(crate) fn is_empty(&self) -> bool
        ensures { IsTrue result ↔ (length self.now.bytes ≡ 0) }
    {
        self.gone >= self.bytes.len()
    }

    /// How many bytes are kept.
    pub(crate) fn len(&self) -> usize
        ensures { result ≡ length self.now.bytes }
    {
        self.bytes.len() - self.gone
    }

    /// Whether there is no room for another byte.
    pub(crate) fn is_full(&self) -> bool
        ensures { IsTrue result ↔ (self.now.room ≡ 0) }
    {
        self.bytes.len() >= MOST_KEPT
    }

    /// Keeps the first of these bytes, as many as there is room for, and answers how many they are.
    pub(crate) fn keep(&mut self, bytes: &[u8]) -> usize
        ensures count { result ≡ min (length bytes.now) self.old.room }
        ensures bytes { self.new.bytes ≡ self.old.bytes ++ take result bytes.now }
        ensures room { self.new.room ≡ self.old.room - result }
    {
        let count = bytes.len().min(MOST_KEPT - self.bytes.len());
        let (first, _) = bytes.split_at(count);
        if self.bytes.extend_from_slice(first).is_err() {
            unreachable!();
        }
        count
    }

    /// This many bytes have gone out, from the front.
    fn pass(&mut self, count: usize)
        requires { count ≤ length self.old.bytes }
        ensures bytes { self.new.bytes ≡ drop count self.old.bytes }
        ensures room { self.new.room
            ≡ (if nat_eq (length self.new.bytes) 0 then most_kept else self.old.room) }
    {
        self.gone += count;
        if self.gone == self.bytes.len() {
            self.bytes.clear();
            self.gone = 0;
        }
    }

    /// Sends once from what is kept, in order, and answers how many bytes went out. These are no longer kept. Where the
    /// socket fails nothing has changed.
    pub(crate) fn send_to<S: Socket>(&mut self, socket: &mut S) -> io::Result<usize>
        ensures ok { IfOk result (λ count.
            (count ≤ length self.old.bytes) × (self.new.bytes ≡ drop count self.old.bytes)) }
        ensures err { OnErr result (self.new ≡ self.old) }
        ensures all { S.sent socket.new ++ self.new.bytes ≡ S.sent socket.old ++ self.old.bytes }
        ensures sent { S.sent socket.new ≡ S.sent socket.old ++ moved result self.old.bytes }
        ensures received { S.received socket.new ≡ S.received socket.old }
    {
        let count = socket.send(&self.bytes[self.gone..])?;
        self.pass(count);
        Ok(count)
    }

    /// Sends once from what is kept, followed by these bytes, in order, and answers how many of both went out. Kept
    /// bytes that went out are no longer kept. Where the socket fails nothing has changed.
    pub(crate) fn send_with<S: Socket>(&mut self, socket: &mut S, bytes: &[u8]) -> io::Result<usize>
        ensures ok { IfOk result (λ count. (count ≤ length self.old.bytes + length bytes.now)
            × (self.new.bytes ≡ drop count self.old.bytes)) }
        ensures err { OnErr result (self.new ≡ self.old) }
        ensures all { S.sent socket.new ++ self.new.bytes ≡ S.sent socket.old ++ self.old.bytes
            ++ moved_behind (length self.old.bytes) result bytes.now }
        ensures sent { S.sent socket.new
            ≡ S.sent socket.old ++ moved result (self.old.bytes ++ bytes.now) }
        ensures received { S.received socket.new ≡ S.received socket.old }
    {
        let count = socket.send_both(&self.bytes[self.gone..], bytes)?;
        self.pass(count.min(self.len()));
        Ok(count)
    }
}
