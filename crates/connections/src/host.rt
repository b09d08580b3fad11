//! The host's link.

use crate::account::Account;
use crate::noted::Noted;
use crate::options::outlast_host;
use crate::socket::HostSocket;
use link::{Gave, Link, Took};
use std::io;
use std::marker::Model;
use std::net::TcpStream;
use std::time::Duration;

/// The seconds for which one `give` waits for a host that takes nothing.
const PATIENCE_SECONDS: u64 = 1;

/// One end of the host's connection. `take` waits for bytes, and `give` for at most a second.
///
/// It is proved over every socket; a host's socket is a stream over TCP.
#[derive(Drop)]
pub struct HostLink<S: HostSocket = Noted<TcpStream>> {
    socket: S,
    is_open: bool,
    account: Account,
}

impl<S: HostSocket> Model for HostLink<S> {
    ghost use Rattle.std.specs.Prelude.{[]};
    ghost use Rattle.connections.specs.Wires.{Wired, Carries};

    ghost Value = { Wired };

    ghost view = { λ l. record {
      own = l.account;
      sent = S.sent l.socket;
      received = S.received l.socket;
      kept = [];
      is_open = l.is_open;
    } };

    ghost invariant = { λ l. Carries (record {
      own = l.account;
      sent = S.sent l.socket;
      received = S.received l.socket;
      kept = [];
      is_open = l.is_open;
    }) };
}

impl HostLink {
    ghost use Rattle.std.specs.Prelude.{◌≡◌, IfOk};
    ghost use Rattle.connections.specs.Wires.{fresh};

    /// The two ends of a connection: one to be read, one to be written. It fails where the system refuses an option or
    /// another descriptor.
    pub fn pair(stream: TcpStream) -> io::Result<(HostLink, HostLink)>
        ensures { IfOk result (λ ends. (ends.0 ≡ fresh) × (ends.1 ≡ fresh)) }
    {
        outlast_host(&stream)?;
        stream.set_write_timeout(Some(Duration::from_secs(PATIENCE_SECONDS)))?;
        let other = stream.try_clone()?;
        let reader = HostLink::over(Noted::new(stream));
        let writer = HostLink::over(Noted::new(other));
        Ok((reader, writer))
    }
}

impl<S: HostSocket> HostLink<S> {
    ghost use Rattle.std.specs.Prelude.{◌≡◌, []};
    ghost use Rattle.connections.specs.Wires.{Carries, closed, fresh};

    /// A link that has taken and given nothing, over a socket that has sent and received nothing.
    pub fn over(socket: S) -> HostLink<S>
        requires sent { S.sent socket ≡ [] }
        requires received { S.received socket ≡ [] }
        ensures { result ≡ fresh }
    {
        HostLink {
            socket,
            is_open: true,
            account: Account::new(),
        }
    }

    /// The socket below.
    pub fn socket(&self) -> &S
        ensures sent { S.sent result.now ≡ self.now.sent }
        ensures received { S.received result.now ≡ self.now.received }
    {
        &self.socket
    }

    /// It does nothing. Its clause says that, at every moment, what was given is what the socket has sent, and what was
    /// taken is what it has received.
    pub fn carries(&self)
        ensures { Carries self.now }
    {
        let _ = &self.socket;
    }

    /// From now on no `take` lasts longer than this, if there is a limit. It fails where the system refuses the option.
    pub(crate) fn limit(&self, longest: Option<Duration>) -> io::Result<()> {
        self.socket.limit(longest)
    }

    /// Closes the connection, both ends of it: the host sees that, and this end has no descriptor any more.
    pub(crate) fn close(&mut self)
        ensures { self.new ≡ closed self.old }
    {
        self.is_open = false;
        self.socket.close();
    }
}

impl<S: HostSocket> Link for HostLink<S> {
    ghost use Rattle.std.specs.Prelude.{◌≡◌, ◌<◌, false, length};
    ghost use Rattle.link.specs.Links.{TakesAs, GivesAs};
    ghost use Rattle.link.specs.declared.link.Took.TheVariants as took;
    ghost use Rattle.link.specs.declared.link.Gave.TheVariants as gave;

    ghost state = { λ l. l.own };

    fn take(&mut self, into: &mut [u8]) -> Took
        requires { 0 < length into.old }
        ensures takes { TakesAs result self.old.own self.new.own into.new }
        ensures open { self.new.is_open ≡ self.old.is_open }
        ensures closed { self.old.is_open ≡ false → result ≡ took.Failed }
    {
        if !self.is_open {
            self.account.fail();
            return Took::Failed;
        }
        let answer = self.socket.receive(into);
        self.account.take(&answer, into)
    }

    fn give(&mut self, bytes: &[u8]) -> Gave
        requires { 0 < length bytes.now }
        ensures gives { GivesAs result self.old.own self.new.own bytes.now }
        ensures open { self.new.is_open ≡ self.old.is_open }
        ensures closed { self.old.is_open ≡ false → result ≡ gave.Failed }
    {
        if !self.is_open {
            self.account.fail();
            return Gave::Failed;
        }
        let answer = self.socket.send(bytes);
        self.account.give(&answer, bytes)
    }

    fn failures(&self) -> u64 {
        self.account.failures()
    }
}
