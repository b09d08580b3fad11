//! The host's link while it is joined.

use crate::hello::HELLO_SECONDS;
use crate::host::HostLink;
use crate::noted::Noted;
use crate::socket::HostSocket;
use fault::LIMIT;
use link::{Gave, Link, Took};
use run_traits::HostCount;
use std::alloc::Global;
use std::io;
use std::marker::Model;
use std::net::TcpStream;
use std::sync::Arc;
use std::time::{Clock, Duration, Instant};

/// The seconds for which one `take` waits where there is a deadline.
const PATIENCE_SECONDS: u64 = 1;

/// The host's link, perhaps while it is joined: then a handshake that isn't done within ten seconds has failed.
#[derive(Drop)]
pub struct JoiningLink<R: Clock + Drop, S: HostSocket = Noted<TcpStream>> {
    rt: R,
    link: HostLink<S>,
    /// When the handshake began, or `None` where there is no deadline.
    opened: Option<Instant>,
    failures: u64,
    /// Where it is noted that the host's bytes came, if anywhere.
    count: Option<Arc<HostCount, Global>>,
}

impl<R: Clock + Drop, S: HostSocket> Model for JoiningLink<R, S> {
    ghost use Rattle.std.specs.Prelude.{is_some};
    ghost use Rattle.connections.specs.Wires.{Joining};

    ghost Value = { Joining };

    ghost view = { λ l.
        record { below = l.link; failed = l.failures; has_deadline = is_some l.opened } };
}

impl<R: Clock + Drop, S: HostSocket> JoiningLink<R, S> {
    ghost use Rattle.std.specs.Prelude.{◌≡◌, true, false, IsTrue, min, ◌+◌, ◌^◌, IfOk, OnOk, OnErr};
    ghost use Rattle.connections.specs.Wires.{Carries, closed, joining_state};

    /// This link, with a deadline ten seconds from now. It fails where the system refuses an option or the clock.
    pub fn new(rt: R, link: HostLink<S>) -> io::Result<JoiningLink<R, S>>
        ensures below { IfOk result (λ joining.
            (joining.below ≡ link) × (joining_state joining ≡ link.own)) }
        ensures deadline { IfOk result (λ joining. joining.has_deadline ≡ true) }
    {
        let opened = Instant::now(&rt)?;
        link.limit(Some(Duration::from_secs(PATIENCE_SECONDS)))?;
        let failures = link.failures();
        Ok(JoiningLink {
            rt,
            link,
            opened: Some(opened),
            failures,
            count: None,
        })
    }

    /// This link, without a deadline.
    pub fn without_limit(rt: R, link: HostLink<S>) -> JoiningLink<R, S>
        ensures below { (result.below ≡ link) × (joining_state result ≡ link.own) }
        ensures deadline { result.has_deadline ≡ false }
    {
        let failures = link.failures();
        JoiningLink {
            rt,
            link,
            opened: None,
            failures,
            count: None,
        }
    }

    /// Lifts the deadline. It fails where the system refuses the option, and then the deadline stays.
    pub fn lift(&mut self) -> io::Result<()>
        ensures ok { OnOk result (self.new ≡ record self.old { has_deadline = false }) }
        ensures err { OnErr result (self.new ≡ self.old) }
    {
        self.link.limit(None)?;
        self.opened = None;
        Ok(())
    }

    /// From now on this count is told when the host's bytes come.
    pub fn count_by(&mut self, count: Arc<HostCount, Global>)
        ensures { self.new ≡ self.old }
    {
        self.count = Some(count);
    }

    /// Notes that bytes of the host came just now.
    fn hear(&self) {
        if let Some(count) = &self.count {
            count.hear(&self.rt);
        }
    }

    /// Closes the connection, both ends of it: the host sees that, and this end has no descriptor any more.
    pub fn close(&mut self)
        ensures { self.new ≡ record self.old { below = closed self.old.below } }
    {
        self.link.close();
    }

    /// The link below.
    pub fn below(&self) -> &HostLink<S>
        ensures { result.now ≡ self.now.below }
    {
        &self.link
    }

    /// It does nothing. Its clause says that, at every moment, what was given is what the socket has sent, and what was
    /// taken is what it has received.
    pub fn carries(&self)
        ensures { Carries self.now.below }
    {
        self.link.carries();
    }

    /// Whether the deadline is past. Without a deadline it never is, and with one it is where the clock can't be read.
    fn is_late(&self) -> bool
        ensures { IsTrue result → self.now.has_deadline ≡ true }
    {
        match &self.opened {
            Some(opened) => match opened.elapsed(&self.rt) {
                Ok(passed) => passed >= Duration::from_secs(HELLO_SECONDS),
                Err(_) => true,
            },
            None => false,
        }
    }

    /// Notes that the link failed once more.
    fn fail(&mut self)
        ensures { self.new ≡ record self.old { failed = min (2 ^ 62) (self.old.failed + 1) } }
    {
        self.failures = LIMIT.min(self.failures.saturating_add(1));
    }
}

impl<R: Clock + Drop, S: HostSocket> Link for JoiningLink<R, S> {
    ghost use Rattle.std.specs.Prelude.{◌≡◌, ◌<◌, false, length};
    ghost use Rattle.link.specs.Links.{TakesAs, GivesAs};
    ghost use Rattle.link.specs.declared.link.Took.TheVariants as took;
    ghost use Rattle.link.specs.declared.link.Gave.TheVariants as gave;
    ghost use Rattle.connections.specs.Wires.{joining_state};

    ghost state = { λ l. joining_state l };

    fn take(&mut self, into: &mut [u8]) -> Took
        requires { 0 < length into.old }
        ensures takes { TakesAs result (joining_state self.old) (joining_state self.new) into.new }
        ensures deadline { self.new.has_deadline ≡ self.old.has_deadline }
        ensures untimed { self.old.has_deadline ≡ false
            → TakesAs result self.old.below.own self.new.below.own into.new }
        ensures open { self.new.below.is_open ≡ self.old.below.is_open }
        ensures closed { self.old.below.is_open ≡ false → result ≡ took.Failed }
    {
        if self.is_late() {
            self.fail();
            return Took::Failed;
        }
        let took = self.link.take(into);
        match took {
            Took::Bytes(_) => self.hear(),
            Took::Failed => self.fail(),
            Took::Nothing | Took::End => {}
        }
        took
    }

    fn give(&mut self, bytes: &[u8]) -> Gave
        requires { 0 < length bytes.now }
        ensures gives { GivesAs result (joining_state self.old) (joining_state self.new) bytes.now }
        ensures deadline { self.new.has_deadline ≡ self.old.has_deadline }
        ensures untimed { self.old.has_deadline ≡ false
            → GivesAs result self.old.below.own self.new.below.own bytes.now }
        ensures open { self.new.below.is_open ≡ self.old.below.is_open }
        ensures closed { self.old.below.is_open ≡ false → result ≡ gave.Failed }
    {
        if self.is_late() {
            self.fail();
            return Gave::Failed;
        }
        let gave = self.link.give(bytes);
        if gave == Gave::Failed {
            self.fail();
        }
        gave
    }

    fn failures(&self) -> u64 {
        self.failures
    }
}
