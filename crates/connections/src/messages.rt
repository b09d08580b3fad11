//! Sockets whose bytes travel in messages.

use crate::bare::BareLink;
use crate::socket::Socket;
use link::{Gave, Link, Record, Took};
use std::io;
use std::io::ErrorKind;
use std::marker::Model;
use web_link::WebLink;

/// A socket whose bytes travel in the binary messages of a WebSocket (RFC 6455), over another socket, which never
/// waits. What was given at once is one message.
#[derive(Drop)]
pub struct MessageSocket<S: Socket> {
    link: WebLink<BareLink<S>>,
}

impl<S: Socket> Model for MessageSocket<S> {
    ghost use Rattle.web_link.specs.Web.{Web};

    ghost Value = { Web };

    ghost view = { λ m. m.link };
}

impl<S: Socket> MessageSocket<S> {
    ghost use Rattle.std.specs.Prelude.{◌≡◌, [], IfSome, false, true};
    ghost use Rattle.run_traits.specs.Unused.{unused};
    ghost use Rattle.web_frames.specs.Frames.{data_in, fresh};
    ghost use Rattle.web_link.specs.Web.{Carries};

    /// A socket over one by which nothing was sent or received. The opening handshake was before that.
    pub fn new(socket: S) -> MessageSocket<S>
        requires sent { S.sent socket ≡ [] }
        requires received { S.received socket ≡ [] }
        ensures { result.carried ≡ unused }
    {
        MessageSocket {
            link: WebLink::new(BareLink::new(socket)),
        }
    }

    /// It does nothing. Its clause says that, at every moment, what was sent and received is the data of the frames
    /// that the socket below has sent and received.
    pub fn carries(&self)
        ensures { Carries self.now }
    {
        self.link.carries();
    }

    /// The socket below, and what it has sent and received, which only clauses read: where both ends stand between two
    /// messages and nothing is unsent. Otherwise it is `None`.
    pub(crate) fn into_below(self) -> Option<(S, Record, Record)>
        ensures sent { IfSome result (λ below. S.sent below.0 ≡ below.1.bytes) }
        ensures received { IfSome result (λ below. S.received below.0 ≡ below.2.bytes) }
        ensures said { IfSome result (λ below.
            data_in (fresh false) below.1.bytes ≡ self.carried.given) }
        ensures heard { IfSome result (λ below.
            data_in (fresh true) below.2.bytes ≡ self.carried.taken) }
    {
        let link = self.link.into_below()?;
        Some(link.into_parts())
    }
}

impl<S: Socket> Socket for MessageSocket<S> {
    ghost sent = { λ messages. messages.carried.given };

    ghost received = { λ messages. messages.carried.taken };

    fn send(&mut self, bytes: &[u8]) -> io::Result<usize> {
        if bytes.is_empty() {
            return Ok(0);
        }
        match self.link.give(bytes) {
            Gave::Bytes(count) => Ok(count),
            Gave::Nothing => Err(io::Error::from(ErrorKind::WouldBlock)),
            Gave::End => Err(io::Error::from(ErrorKind::BrokenPipe)),
            Gave::Failed => Err(io::Error::from(ErrorKind::ConnectionAborted)),
        }
    }

    fn send_both(&mut self, first: &[u8], second: &[u8]) -> io::Result<usize> {
        if first.is_empty() {
            self.send(second)
        } else {
            self.send(first)
        }
    }

    /// Where bytes came that bring no data, and more may have come, it is `Interrupted`.
    fn receive(&mut self, into: &mut [u8]) -> io::Result<usize> {
        if into.is_empty() {
            return Ok(0);
        }
        match self.link.take(into) {
            Took::Bytes(count) => Ok(count),
            Took::Nothing if self.link.below().is_drained() => {
                Err(io::Error::from(ErrorKind::WouldBlock))
            }
            Took::Nothing => Err(io::Error::from(ErrorKind::Interrupted)),
            Took::End => Ok(0),
            Took::Failed => Err(io::Error::from(ErrorKind::ConnectionAborted)),
        }
    }
}
