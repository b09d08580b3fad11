//! Links over a socket that never waits.

use crate::account::Account;
use crate::socket::Socket;
use link::{Gave, Link, Record, Took};
use std::io::ErrorKind;
use std::marker::Model;

/// A link over a socket that never waits: it takes by one read of the system, and gives by one write.
#[derive(Drop)]
pub(crate) struct BareLink<S: Socket> {
    socket: S,
    // Whether the system had no byte at the last read.
    is_drained: bool,
    account: Account,
}

impl<S: Socket> Model for BareLink<S> {
    ghost use Rattle.std.specs.Prelude.{[], true};
    ghost use Rattle.connections.specs.Wires.{Wired, Carries};

    ghost Value = { Wired };

    ghost view = { λ l. record {
      own = l.account;
      sent = S.sent l.socket;
      received = S.received l.socket;
      kept = [];
      is_open = true;
    } };

    ghost invariant = { λ l. Carries (record {
      own = l.account;
      sent = S.sent l.socket;
      received = S.received l.socket;
      kept = [];
      is_open = true;
    }) };
}

impl<S: Socket> BareLink<S> {
    ghost use Rattle.std.specs.Prelude.{◌≡◌, []};
    ghost use Rattle.connections.specs.Wires.{fresh};

    /// A link that has taken and given nothing, over a socket that has sent and received nothing.
    pub(crate) fn new(socket: S) -> BareLink<S>
        requires sent { S.sent socket ≡ [] }
        requires received { S.received socket ≡ [] }
        ensures { result ≡ fresh }
    {
        BareLink {
            socket,
            is_drained: false,
            account: Account::new(),
        }
    }

    /// Whether the system had no byte at the last read. No clause says so.
    pub(crate) fn is_drained(&self) -> bool {
        self.is_drained
    }

    /// The socket, and the bytes that it has sent and received, which only clauses read.
    pub(crate) fn into_parts(self) -> (S, Record, Record)
        ensures sent { (S.sent result.0 ≡ self.own.given) × (result.1.bytes ≡ self.own.given) }
        ensures received { (S.received result.0 ≡ self.own.taken)
            × (result.2.bytes ≡ self.own.taken) }
    {
        let BareLink {
            socket,
            account,
            ..
        } = self;
        let (given, taken) = account.into_records();
        (socket, given, taken)
    }
}

impl<S: Socket> Link for BareLink<S> {
    ghost state = { λ l. l.own };

    fn take(&mut self, into: &mut [u8]) -> Took {
        let answer = self.socket.receive(into);
        self.is_drained = match &answer {
            Ok(_) => false,
            Err(error) => error.kind() == ErrorKind::WouldBlock,
        };
        self.account.take(&answer, into)
    }

    fn give(&mut self, bytes: &[u8]) -> Gave {
        let answer = self.socket.send(bytes);
        self.account.give(&answer, bytes)
    }

    fn failures(&self) -> u64 {
        self.account.failures()
    }
}
