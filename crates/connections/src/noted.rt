//! Streams of the system as sockets.

ghost use Rattle.std.specs.Prelude.{◌≡◌, ◌≤◌, ◌++◌, length, take};
ghost use Rattle.std.specs.Io.{WritesAtMost};
ghost use Rattle.std.specs.Io.KnownBytes.{WriteAppends};

use crate::socket::{HostSocket, Socket};
use link::Record;
use mio::event::Source;
use mio::{Interest, Registry, Token};
use std::io;
use std::io::{ErrorKind, IoSlice, Read, Write};
use std::net::{Shutdown, TcpStream};
use std::time::Duration;

/// A stream that writes two slices at once.
pub trait Gathering: Read + Write + Drop {
    /// Writes the first of the bytes of both slices, those of `first` before those of `second`, and answers how many
    /// they are.
    fn write_both(&mut self, first: &[u8], second: &[u8]) -> io::Result<usize>
        ensures bound { WritesAtMost result (first.now ++ second.now) }
        ensures bytes { WriteAppends (Self.contents self.old) (Self.contents self.new) result
            (first.now ++ second.now) };
}

impl Gathering for TcpStream {
    fn write_both(&mut self, first: &[u8], second: &[u8]) -> io::Result<usize> {
        TcpStream::write_vectored(self, &[IoSlice::new(first), IoSlice::new(second)])
    }
}

impl Gathering for mio::net::TcpStream {
    fn write_both(&mut self, first: &[u8], second: &[u8]) -> io::Result<usize> {
        mio::net::TcpStream::write_vectored(self, &[IoSlice::new(first), IoSlice::new(second)])
    }
}

/// A stream whose reads can be limited in time, and that can be closed for both sides.
pub trait Closing: Gathering {
    /// From now on no read lasts longer than this, if there is a limit.
    fn limit(&self, longest: Option<Duration>) -> io::Result<()>;

    /// Closes both directions, for both ends.
    fn shut(&self);
}

impl Closing for TcpStream {
    fn limit(&self, longest: Option<Duration>) -> io::Result<()> {
        self.set_read_timeout(longest)
    }

    fn shut(&self) {
        // Where the peer has gone already, there is nobody to tell.
        let _ = self.shutdown(Shutdown::Both);
    }
}

/// Notes this many of the first bytes of both slices, those of `first` before those of `second`.
pub(crate) fn note_both(notes: &mut Record, first: &[u8], second: &[u8], count: usize)
    requires { count ≤ length (first.now ++ second.now) }
    ensures { notes.new.bytes ≡ notes.old.bytes ++ take count (first.now ++ second.now) }
{
    let (of_first, _) = first.split_at(count.min(first.len()));
    let (of_second, _) = second.split_at(count.saturating_sub(first.len()));
    notes.note(of_first);
    notes.note(of_second);
}

/// A stream, until it is closed, and a record of what has gone over it, which only clauses read: contracts know nothing
/// of what a stream of the system holds.
#[derive(Drop)]
pub struct Noted<T: Gathering> {
    stream: Option<T>,
    sent: Record,
    received: Record,
}

impl<T: Gathering> Noted<T> {
    ghost use Rattle.std.specs.Prelude.{◌≡◌, []};

    /// A stream over which nothing has gone.
    pub fn new(stream: T) -> Noted<T>
        ensures sent { result.sent.bytes ≡ [] }
        ensures received { result.received.bytes ≡ [] }
    {
        Noted {
            stream: Some(stream),
            sent: Record::new(),
            received: Record::new(),
        }
    }
}

impl<T: Gathering> Socket for Noted<T> {
    ghost use Rattle.std.specs.Prelude.{◌≡◌, ◌++◌, option_and_then};
    ghost use Rattle.std.specs.Io.{ReadsAtMost, WritesAtMost};
    ghost use Rattle.std.specs.Io.KnownBytes.{ReadConsumes, WriteAppends};
    ghost use Rattle.connections.specs.Wires.{moved};

    ghost sent = { λ noted. noted.sent.bytes };

    ghost received = { λ noted. noted.received.bytes };

    fn send(&mut self, bytes: &[u8]) -> io::Result<usize>
        ensures bound { WritesAtMost result bytes.now }
        ensures sent { self.new.sent.bytes ≡ self.old.sent.bytes ++ moved result bytes.now }
        ensures received { self.new.received.bytes ≡ self.old.received.bytes }
        ensures written { WriteAppends (option_and_then T.contents self.old.stream)
            (option_and_then T.contents self.new.stream) result bytes.now }
    {
        let Some(stream) = &mut self.stream else {
            return Err(io::Error::from(ErrorKind::NotConnected));
        };
        let count = stream.write(bytes)?;
        let (first, _) = bytes.split_at(count);
        self.sent.note(first);
        Ok(count)
    }

    fn send_both(&mut self, first: &[u8], second: &[u8]) -> io::Result<usize>
        ensures bound { WritesAtMost result (first.now ++ second.now) }
        ensures sent { self.new.sent.bytes
            ≡ self.old.sent.bytes ++ moved result (first.now ++ second.now) }
        ensures received { self.new.received.bytes ≡ self.old.received.bytes }
        ensures written { WriteAppends (option_and_then T.contents self.old.stream)
            (option_and_then T.contents self.new.stream) result (first.now ++ second.now) }
    {
        let Some(stream) = &mut self.stream else {
            return Err(io::Error::from(ErrorKind::NotConnected));
        };
        let count = stream.write_both(first, second)?;
        note_both(&mut self.sent, first, second, count);
        Ok(count)
    }

    fn receive(&mut self, into: &mut [u8]) -> io::Result<usize>
        ensures bound { ReadsAtMost result into.new }
        ensures received { self.new.received.bytes
            ≡ self.old.received.bytes ++ moved result into.new }
        ensures sent { self.new.sent.bytes ≡ self.old.sent.bytes }
        ensures read { ReadConsumes (option_and_then T.remaining self.old.stream)
            (option_and_then T.remaining self.new.stream) result into.new }
    {
        let Some(stream) = &mut self.stream else {
            return Err(io::Error::from(ErrorKind::NotConnected));
        };
        let count = stream.read(into)?;
        let (first, _) = into.split_at(count);
        self.received.note(first);
        Ok(count)
    }
}

impl Source for Noted<mio::net::TcpStream> {
    ghost use Rattle.std.specs.Prelude.{◌≡◌};

    ghost keeps = { λ old new. (new.sent.bytes ≡ old.sent.bytes)
        × (new.received.bytes ≡ old.received.bytes) };

    fn register(
        &mut self,
        registry: &Registry,
        token: Token,
        interests: Interest,
    ) -> io::Result<()> {
        match &mut self.stream {
            Some(stream) => stream.register(registry, token, interests),
            None => Err(io::Error::from(ErrorKind::NotConnected)),
        }
    }

    fn reregister(
        &mut self,
        registry: &Registry,
        token: Token,
        interests: Interest,
    ) -> io::Result<()> {
        match &mut self.stream {
            Some(stream) => stream.reregister(registry, token, interests),
            None => Err(io::Error::from(ErrorKind::NotConnected)),
        }
    }

    fn deregister(&mut self, registry: &Registry) -> io::Result<()> {
        match &mut self.stream {
            Some(stream) => stream.deregister(registry),
            None => Err(io::Error::from(ErrorKind::NotConnected)),
        }
    }
}

impl<T: Closing> HostSocket for Noted<T> {
    fn limit(&self, longest: Option<Duration>) -> io::Result<()> {
        match &self.stream {
            Some(stream) => stream.limit(longest),
            None => Ok(()),
        }
    }

    fn close(&mut self) {
        if let Some(stream) = self.stream.take() {
            stream.shut();
        }
    }
}
