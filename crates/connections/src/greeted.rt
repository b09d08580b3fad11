//! Sockets by which something was said and heard before they belong to a link.

use crate::noted::{Noted, note_both};
use crate::socket::Socket;
use arrayvec::ArrayVec;
use link::Record;
use mio::event::Source;
use mio::net::TcpStream;
use mio::{Interest, Registry, Token};
use std::io;
use std::io::ErrorKind;
use std::marker::Model;

/// The most bytes with which an owner begins: the version, and a list of one security type (RFC 6143, 7.1.1, 7.1.2).
pub(crate) const MOST_SPOKEN: usize = 14;

/// The most bytes that an owner hears first in place of what was heard: a version, and the choice of a type.
pub(crate) const MOST_SHOWN: usize = 13;

/// A socket over which, perhaps, something was said and heard before it had an owner: both versions and, at a locked
/// port, the question and its answer. Its owner sends and receives as if nothing had been said or heard yet, and the
/// port were open. The bytes with which the owner has to begin aren't sent, since others were said in their place. The
/// bytes that the owner hears first aren't received, since others were heard in their place. After these beginnings the
/// owner sends and receives the same as the socket below. A send of another beginning fails.
#[derive(Drop)]
pub struct GreetedSocket<S: Socket> {
    socket: S,
    // The bytes with which the owner has to begin, and how many of these it has sent.
    spoken: ArrayVec<u8, MOST_SPOKEN>,
    given: usize,
    // The bytes that the owner hears first, and how many of these it has received.
    shown: ArrayVec<u8, MOST_SHOWN>,
    taken: usize,
    // What the owner has sent and received, the header that came before, and what was said and heard in place of both
    // beginnings.
    sent: Record,
    received: Record,
    front: Record,
    said: Record,
    heard: Record,
}

impl<S: Socket> Model for GreetedSocket<S> {
    ghost use Rattle.std.specs.Prelude.{◌≤◌, drop, length};
    ghost use Rattle.connections.specs.Greetings.{Greeted, Matches};

    ghost Value = { Greeted };

    ghost view = { λ g. record {
      sent = g.sent.bytes;
      received = g.received.bytes;
      below_sent = S.sent g.socket;
      below_received = S.received g.socket;
      spoken = g.spoken.items;
      owed = drop g.given g.spoken.items;
      shown = g.shown.items;
      ahead = drop g.taken g.shown.items;
      front = g.front.bytes;
      said = g.said.bytes;
      heard = g.heard.bytes;
    } };

    ghost invariant = { λ g. Matches (record {
      sent = g.sent.bytes;
      received = g.received.bytes;
      below_sent = S.sent g.socket;
      below_received = S.received g.socket;
      spoken = g.spoken.items;
      owed = drop g.given g.spoken.items;
      shown = g.shown.items;
      ahead = drop g.taken g.shown.items;
      front = g.front.bytes;
      said = g.said.bytes;
      heard = g.heard.bytes;
    }) × (g.given ≤ length g.spoken.items) × (g.taken ≤ length g.shown.items) };
}

impl<S: Socket> GreetedSocket<S> {
    ghost use Rattle.std.specs.Prelude.{◌≡◌, ◌≤◌, ◌++◌, [], length, take};
    ghost use Rattle.std.specs.Io.{WritesAtMost};
    ghost use Rattle.connections.specs.Greetings.{Matches, untouched};
    ghost use Rattle.connections.specs.Wires.{moved};

    /// A socket by which nothing was said or heard before.
    pub fn new(socket: S) -> GreetedSocket<S>
        requires sent { S.sent socket ≡ [] }
        requires received { S.received socket ≡ [] }
        ensures { result ≡ untouched }
    {
        GreetedSocket {
            socket,
            spoken: ArrayVec::new(),
            given: 0,
            shown: ArrayVec::new(),
            taken: 0,
            sent: Record::new(),
            received: Record::new(),
            front: Record::new(),
            said: Record::new(),
            heard: Record::new(),
        }
    }

    /// A socket by which this was said, and that was heard, after this header of a proxy, if there was one. Its owner
    /// has still to say `spoken` in place of the former, and is shown `shown` in place of the latter.
    pub(crate) fn greeted(
        socket: S,
        front: Record,
        said: Record,
        heard: Record,
        spoken: ArrayVec<u8, MOST_SPOKEN>,
        shown: ArrayVec<u8, MOST_SHOWN>,
    ) -> GreetedSocket<S>
        requires said { S.sent socket ≡ said.bytes }
        requires heard { S.received socket ≡ front.bytes ++ heard.bytes }
        ensures unsent { (result.sent ≡ []) × (result.owed ≡ spoken.items) }
        ensures unreceived { (result.received ≡ []) × (result.ahead ≡ shown.items) }
        ensures said { (result.said ≡ said.bytes) × (result.heard ≡ heard.bytes) }
        ensures sent { result.below_sent ≡ S.sent socket }
        ensures received { result.below_received ≡ S.received socket }
    {
        GreetedSocket {
            socket,
            spoken,
            given: 0,
            shown,
            taken: 0,
            sent: Record::new(),
            received: Record::new(),
            front,
            said,
            heard,
        }
    }

    /// The socket below.
    pub(crate) fn into_below(self) -> S
        ensures sent { S.sent result ≡ self.below_sent }
        ensures received { S.received result ≡ self.below_received }
    {
        self.socket
    }

    /// It does nothing. Its clause says that, at every moment, the owner sends and receives the same as the socket
    /// below, except for the beginnings of both.
    pub fn matches(&self)
        ensures { Matches self.now }
    {
        let _ = &self.given;
    }

    /// Takes the first of these bytes as sent, as far as the owner owes them. It is called only where some are owed.
    fn give_owed(&mut self, bytes: &[u8]) -> io::Result<usize>
        ensures bound { WritesAtMost result bytes.now }
        ensures sent { self.new.sent ≡ self.old.sent ++ moved result bytes.now }
        ensures received { self.new.received ≡ self.old.received }
        ensures below_sent { self.new.below_sent ≡ self.old.below_sent }
        ensures below_received { self.new.below_received ≡ self.old.below_received }
    {
        let (_, owed) = self.spoken.as_slice().split_at(self.given);
        let count = bytes.len().min(owed.len());
        let (first, _) = bytes.split_at(count);
        let (said, _) = owed.split_at(count);
        if first == said {
            self.given += count;
            self.sent.note(first);
            Ok(count)
        } else {
            Err(io::Error::from(ErrorKind::InvalidData))
        }
    }

    /// Gives the first of the bytes that are ahead. It is called only where some are ahead.
    fn take_ahead(&mut self, into: &mut [u8]) -> usize
        ensures bound { result ≤ length into.new }
        ensures received { self.new.received ≡ self.old.received ++ take result into.new }
        ensures sent { self.new.sent ≡ self.old.sent }
        ensures below_sent { self.new.below_sent ≡ self.old.below_sent }
        ensures below_received { self.new.below_received ≡ self.old.below_received }
    {
        let (_, ahead) = self.shown.as_slice().split_at(self.taken);
        let count = ahead.len().min(into.len());
        let (first, _) = ahead.split_at(count);
        let (room, _) = into.split_at_mut(count);
        room.copy_from_slice(first);
        self.taken += count;
        self.received.note(room);
        count
    }
}

impl<S: Socket> Socket for GreetedSocket<S> {
    ghost sent = { λ greeted. greeted.sent };

    ghost received = { λ greeted. greeted.received };

    fn send(&mut self, bytes: &[u8]) -> io::Result<usize> {
        if self.given < self.spoken.len() {
            return self.give_owed(bytes);
        }
        let count = self.socket.send(bytes)?;
        let (first, _) = bytes.split_at(count);
        self.sent.note(first);
        Ok(count)
    }

    fn send_both(&mut self, first: &[u8], second: &[u8]) -> io::Result<usize> {
        if self.given < self.spoken.len() {
            return if first.is_empty() {
                self.give_owed(second)
            } else {
                self.give_owed(first)
            };
        }
        let count = self.socket.send_both(first, second)?;
        note_both(&mut self.sent, first, second, count);
        Ok(count)
    }

    fn receive(&mut self, into: &mut [u8]) -> io::Result<usize> {
        if self.taken < self.shown.len() {
            return Ok(self.take_ahead(into));
        }
        let count = self.socket.receive(into)?;
        let (first, _) = into.split_at(count);
        self.received.note(first);
        Ok(count)
    }
}

impl Source for GreetedSocket<Noted<TcpStream>> {
    ghost use Rattle.std.specs.Prelude.{◌≡◌};

    ghost keeps = { λ old new. new ≡ old };

    fn register(
        &mut self,
        registry: &Registry,
        token: Token,
        interests: Interest,
    ) -> io::Result<()> {
        self.socket.register(registry, token, interests)
    }

    fn reregister(
        &mut self,
        registry: &Registry,
        token: Token,
        interests: Interest,
    ) -> io::Result<()> {
        self.socket.reregister(registry, token, interests)
    }

    fn deregister(&mut self, registry: &Registry) -> io::Result<()> {
        self.socket.deregister(registry)
    }
}
