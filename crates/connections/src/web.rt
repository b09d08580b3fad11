//! A browser's link.

ghost use Rattle.std.specs.Prelude.{◌≡◌};

use crate::hello::{HELLO_LEN, Patience, longest_wait};
use crate::tcp::ViewerTcpLink;
use crate::unlocked::UnlockedLink;
use link::{Gave, Link, Took};
use run_traits::Parting;
use std::alloc::Global;
use std::io;
use std::marker::Model;
use std::sync::Wait;
use std::time::{Clock, Duration, Instant};
use web_link::{GatheringLink, WebLink};

/// After this many seconds in which nothing was sent to it a browser is sent a ping, so that no proxy takes the
/// connection for dead.
const SILENCE_SECONDS: u64 = 30;

/// A browser's connection: the bytes of binary messages over a `ViewerTcpLink`, which go out in messages as large as
/// can be. Where the browser has unlocked its port, its owner says and hears as at an open one. It takes bytes as that
/// link does, but for the time of its hello only the bytes in messages count, and neither headers nor pings. Where the
/// porter wakes it after a long silence, it sends a ping.
#[derive(Drop)]
pub struct BrowserLink<R: Wait + Clock + Drop> {
    rt: R,
    link: UnlockedLink<GatheringLink<WebLink<ViewerTcpLink<R>>>>,
    // How many bytes of the hello are missing, and whether some were missing when the time for it was over.
    missing: usize,
    is_late: bool,
    // When a byte was given or a ping said last, and whether a byte was given since then.
    said: Instant,
    has_given: bool,
}

impl<R: Wait + Clock + Drop> Model for BrowserLink<R> {
    ghost use Rattle.std.specs.Prelude.{◌≡◌, ◌-◌, length};
    ghost use Rattle.connections.specs.Hello.{hello_len};
    ghost use Rattle.connections.specs.Unlocked.{StandIn};

    ghost Value = { StandIn };

    ghost view = { λ b. b.link };

    // The bytes of the hello that are missing are those that weren't taken from messages.
    ghost invariant = { λ b. b.missing ≡ hello_len - length b.link.own.taken };
}

impl<R: Wait + Clock + Drop> BrowserLink<R> {
    ghost use Rattle.std.specs.Prelude.{◌≡◌, ◌-◌, IfOk, length};
    ghost use Rattle.std.specs.Duration.{as_nanos};
    ghost use Rattle.link.specs.Links.{with_failure};
    ghost use Rattle.run_traits.specs.Unused.{unused};
    ghost use Rattle.connections.specs.Hello.{IsPatience, hello_len};
    ghost use Rattle.connections.specs.Unlocked.{StandsIn, own_beginning, shown_beginning};

    /// A browser's link over a link that has taken and given nothing, to a browser that came by an open port, or has
    /// unlocked a locked one. It fails where memory is refused, or where the system refuses the clock.
    pub fn new(
        rt: R,
        alloc: Global,
        below: ViewerTcpLink<R>,
        is_locked: bool,
    ) -> io::Result<BrowserLink<R>>
        requires { below.own ≡ unused }
        ensures own { IfOk result (λ link. link.own ≡ unused) }
        ensures spoken { IfOk result (λ link. link.spoken ≡ own_beginning is_locked) }
        ensures shown { IfOk result (λ link. link.shown ≡ shown_beginning is_locked) }
    {
        let said = Instant::now(&rt)?;
        let link = UnlockedLink::new(GatheringLink::new(alloc, WebLink::new(below))?, is_locked);
        Ok(BrowserLink {
            rt,
            link,
            missing: HELLO_LEN,
            is_late: false,
            said,
            has_given: false,
        })
    }

    /// It does nothing. Its clause says that, at every moment, the owner gives and takes the same as what the browser
    /// is given and says in messages, after the beginnings that stand for the lock.
    pub fn stands_in(&self)
        ensures { StandsIn self.now }
    {
        self.link.stands_in();
    }

    /// The connection below.
    pub fn connection(&self) -> &ViewerTcpLink<R> {
        self.link.below().below().below()
    }

    /// How the connection stands. No clause says so.
    pub fn parting(&self) -> Parting {
        if self.is_late {
            Parting::Late
        } else {
            self.connection().parting()
        }
    }

    /// How long a wait for the browser may last, this long after it came.
    fn patience(&self, passed: Duration) -> Patience
        ensures { IsPatience result (hello_len - length self.now.own.taken) (as_nanos passed) }
    {
        longest_wait(self.missing, passed)
    }

    /// Gives the browser up, since its hello is late.
    fn give_up(&mut self)
        ensures { self.new ≡ record self.old { own = with_failure self.old.own } }
    {
        self.is_late = true;
        self.link.fail();
    }

    /// Sends a ping after a long silence, and none where the clock can't be read.
    fn keep_alive(&mut self)
        ensures { self.new ≡ self.old }
    {
        let Ok(now) = Instant::now(&self.rt) else {
            return;
        };
        if self.has_given {
            self.has_given = false;
            self.said = now;
            return;
        }
        let silent = now.checked_duration_since(self.said);
        if silent.is_some_and(|silent| silent >= Duration::from_secs(SILENCE_SECONDS)) {
            self.said = now;
            self.link.ping();
        }
    }
}

impl<R: Wait + Clock + Drop> Link for BrowserLink<R> {
    ghost state = { λ b. b.own };

    fn take(&mut self, into: &mut [u8]) -> Took {
        self.keep_alive();
        if let Patience::Over = self.patience(self.connection().age()) {
            self.give_up();
            return Took::Failed;
        }
        let took = self.link.take(into);
        if let Took::Bytes(count) = took {
            self.missing = self.missing.saturating_sub(count);
        }
        took
    }

    fn give(&mut self, bytes: &[u8]) -> Gave {
        self.has_given = true;
        self.link.give(bytes)
    }

    fn flush(&mut self) {
        self.link.flush();
    }

    fn failures(&self) -> u64 {
        self.link.failures()
    }
}
