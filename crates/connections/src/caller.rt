//! Newcomers to a web port, and the port.

ghost use Rattle.std.specs.Prelude.{◌≡◌, IfOk, false};
ghost use Rattle.std.specs.Arc.{arc_value};

use crate::key::draw;
use crate::knocker::Knocker;
use crate::lobby::{Entrance, Lobby};
use crate::messages::MessageSocket;
use crate::noted::Noted;
use crate::options::outlast;
use crate::port::{MOST_STEPS, Newcomer, Port, Progress, header_complaint};
use crate::role_listener::{Arrival, Entrant, RoleListener};
use mio::{Interest, Registry, Token};
use run_traits::{Event, Way};
use std::alloc::Global;
use std::hash::RandomState;
use std::io::{ErrorKind, Read};
use std::net::SocketAddr;
use std::random::RandomSource;
use std::sync::{Arc, Wait};
use std::time::{Clock, Duration, Instant};
use std::{io, mem};
use vnc_auth::CHALLENGE_LEN;
use web_site::{Guest, Site};

/// How many seconds a caller has for a request, and then for each part of its answer.
const GUEST_SECONDS: u64 = 10;

/// How many bytes a part of an answer has. By parts a caller that takes only a byte now and then is still late.
const PART: usize = 65_536;

/// A web port: its listener, what it answers, and the lobby of the listener's role, to which callers are let in.
#[derive(Drop)]
pub struct WebEntry {
    listener: RoleListener,
    heard: mio::net::TcpListener,
    site: Arc<Site, Global>,
    lobby: Arc<Lobby, Global>,
    ghost role: { listener.role ≡ (arc_value lobby).role },
    ghost key: { listener.key ≡ (arc_value lobby).key },
}

/// A caller that asks a site: its arrival, a second handle of its stream, what it has asked, the challenge that it is
/// asked if the port is locked, the moment from which its lateness counts, how many bytes it has taken since then, and
/// the lobby of the port that it came by.
#[derive(Drop)]
pub(crate) struct Caller {
    arrival: Arrival,
    heard: mio::net::TcpStream,
    guest: Guest,
    // This caller's own. No other newcomer is asked it.
    challenge: [u8; CHALLENGE_LEN],
    since: Instant,
    taken: usize,
    lobby: Arc<Lobby, Global>,
    ghost role: { arrival.role ≡ (arc_value lobby).role },
    ghost key: { arrival.key ≡ (arc_value lobby).key },
}

/// A browser that was let in by a locked port, and is asked for the password in messages; and a second handle of its
/// stream.
#[derive(Drop)]
pub(crate) struct LockedOut {
    knocker: Knocker<MessageSocket<Noted<mio::net::TcpStream>>>,
    heard: mio::net::TcpStream,
    ghost direct: { knocker.greeting.whence.is_proxied ≡ false },
}

/// A newcomer to a web port.
#[derive(Drop)]
pub(crate) enum WebNewcomer {
    /// It asks the port's site.
    Asks(Caller),
    /// It is asked for the password.
    IsAsked(LockedOut),
    /// It wasn't let in, and it isn't asked for the password.
    Left,
}

impl WebEntry {
    /// A port of this listener. It fails where the system refuses an option.
    pub fn new(
        listener: RoleListener,
        site: Arc<Site, Global>,
        lobby: Arc<Lobby, Global>,
    ) -> io::Result<WebEntry>
        requires role { listener.role ≡ (arc_value lobby).role }
        requires key { listener.key ≡ (arc_value lobby).key }
        ensures listener { IfOk result (λ entry. entry.listener ≡ listener) }
        ensures site { IfOk result (λ entry. arc_value entry.site ≡ arc_value site) }
        ensures lobby { IfOk result (λ entry. arc_value entry.lobby ≡ arc_value lobby) }
    {
        listener.socket().set_nonblocking(true)?;
        let heard = mio::net::TcpListener::from_std(listener.socket().try_clone()?);
        Ok(WebEntry {
            listener,
            heard,
            site,
            lobby,
        })
    }
}

impl Port for WebEntry {
    ghost use Rattle.std.specs.Prelude.{IfOk};
    ghost use Rattle.connections.specs.Callers.{IsAsking, IsCallerAt};

    type Comer = WebNewcomer;

    // The peer chooses the names of fields, so maps of them take secret keys.
    type Means = RandomState;

    fn heard(&mut self) -> &mut mio::net::TcpListener {
        &mut self.heard
    }

    fn is_closed<R: Wait>(&self, rt: &R) -> bool {
        self.lobby.is_closed(rt)
    }

    /// No browser is called.
    fn called<R: Wait + Clock + RandomSource>(
        &self,
        _rt: &R,
        _means: &RandomState,
    ) -> Option<WebNewcomer> {
        None
    }

    /// The next newcomer, as a caller that asks this port's site and may be let to its lobby.
    fn accept<R: Clock + RandomSource>(
        &self,
        rt: &R,
        alloc: Global,
        means: &RandomState,
    ) -> io::Result<WebNewcomer>
        ensures { IfOk result (λ comer. IsAsking comer (IsCallerAt self.now)) }
    {
        let arrival = self.listener.accept()?;
        arrival.stream().set_nonblocking(true)?;
        outlast(arrival.stream(), self.lobby.stalled())?;
        let heard = mio::net::TcpStream::from_std(arrival.stream().try_clone()?);
        let site = Arc::try_clone(&self.site)?;
        let lobby = Arc::try_clone(&self.lobby)?;
        Ok(WebNewcomer::Asks(Caller {
            arrival,
            heard,
            guest: Guest::new(alloc, *means, site),
            challenge: draw(rt)?,
            since: Instant::now(rt)?,
            taken: 0,
            lobby,
        }))
    }
}

impl Caller {
    /// Reads a byte of a proxy's header.
    fn read_header(&mut self) -> io::Result<()> {
        let mut byte = [0u8; 1];
        let mut stream = self.arrival.stream();
        if stream.read(&mut byte)? == 0 {
            return Err(io::Error::from(ErrorKind::UnexpectedEof));
        }
        self.arrival.feed(byte[0]);
        Ok(())
    }

    /// Writes once from what is still to be told. A caller that has taken all of it, or a whole part, has its full time
    /// again.
    fn write<R: Clock>(&mut self, rt: &R) -> io::Result<()> {
        let count = self.guest.write_to(&mut self.arrival.stream())?;
        self.taken = self.taken.saturating_add(count);
        if self.taken >= PART || !self.guest.wants_write() {
            self.since = Instant::now(rt)?;
            self.taken = 0;
        }
        Ok(())
    }

    /// Writes once where something is still to be told, and otherwise reads once. It answers false where neither is
    /// wanted.
    fn talk<R: Clock>(&mut self, rt: &R) -> io::Result<bool> {
        let mut stream = self.arrival.stream();
        if self.guest.wants_write() {
            self.write(rt)?;
        } else if self.guest.wants_read() {
            self.guest.read_from(&mut stream)?;
        } else {
            return Ok(false);
        }
        self.guest.advance();
        Ok(true)
    }

    /// Reads a byte of the proxy's header, if the caller comes from the believed proxy and the header isn't whole yet;
    /// otherwise it goes on to talk. It answers false where nothing is wanted.
    fn step<R: Clock>(&mut self, rt: &R) -> io::Result<bool> {
        match self.arrival.whence().known() {
            None => {
                self.read_header()?;
                Ok(true)
            }
            Some(Err(_)) => Ok(false),
            Some(Ok(_)) => self.talk(rt),
        }
    }

    /// Whether the caller has taken too long to ask, or too long to take a part of an answer. A crowd of newcomers
    /// leaves it no less time.
    fn is_late(&self, now: Instant) -> bool {
        now.checked_duration_since(self.since)
            .is_some_and(|passed| passed >= Duration::from_secs(GUEST_SECONDS))
    }

    /// Reads, answers and writes, as far as it goes now.
    fn go_on<R: Clock>(&mut self, rt: &R) -> Progress {
        for _ in 0..MOST_STEPS {
            if self.guest.is_done() {
                return Progress::Done;
            }
            match self.step(rt) {
                Ok(true) => {}
                Ok(false) => return Progress::Gone,
                Err(error) => match error.kind() {
                    ErrorKind::WouldBlock => return Progress::Waits,
                    ErrorKind::Interrupted => {}
                    _ => return Progress::Gone,
                },
            }
        }
        Progress::Gone
    }

    /// What a log is told of the caller if it goes now, late or not.
    fn complaint(&self, is_late: bool) -> Option<Event<'static>> {
        header_complaint(
            self.arrival.whence(),
            self.arrival.role(),
            Way::Web,
            is_late,
        )
    }

    /// The same newcomer, asked for the password, if the site has let it in.
    fn into_locked_out<R: Clock>(self, rt: &R) -> Option<LockedOut> {
        let role = self.arrival.role();
        let Caller {
            arrival,
            heard,
            guest,
            challenge,
            since: _,
            taken: _,
            lobby,
        } = self;
        let greeting = arrival.ask_in_messages(guest, challenge)?;
        let knocker = Knocker {
            role,
            way: Way::Web,
            greeting,
            since: Instant::now(rt).ok()?,
            wrong: None,
            lobby,
        };
        Some(LockedOut { knocker, heard })
    }

    /// Brings the caller to the lobby of the port that it came by, if it was let in. It answers `None` where it wasn't.
    fn enter<R: Wait + Clock>(self, rt: &R, patience: Duration) -> Option<Entrance> {
        let Caller {
            arrival,
            heard,
            guest,
            lobby,
            ..
        } = self;
        drop(heard);
        let entrant = arrival.let_in(guest)?;
        Some(lobby.enter(rt, entrant, patience))
    }
}

impl LockedOut {
    ghost use Rattle.connections.specs.Greetings.{IsSameGreeting};

    /// Says and hears, as far as it goes now.
    fn go_on<R: Clock>(&mut self, rt: &R) -> Progress
        ensures { IsSameGreeting self.old.knocker.greeting self.new.knocker.greeting }
    {
        self.knocker.go_on(rt)
    }

    /// Brings the browser to the lobby of the port that it came by, if it has answered its challenge.
    fn enter<R: Wait + Clock>(self, rt: &R, patience: Duration) -> Option<Entrance> {
        let LockedOut { knocker, heard } = self;
        drop(heard);
        let Knocker {
            role,
            greeting,
            lobby,
            ..
        } = knocker;
        let entrant = Entrant::greeted_in_messages(role, greeting)?;
        Some(lobby.enter(rt, entrant, patience))
    }
}

impl WebNewcomer {
    /// Whether it has come by a locked port and has asked all, so that it is to be asked for the password.
    fn is_due(&self, progress: Progress) -> bool {
        match self {
            WebNewcomer::Asks(caller) => {
                progress == Progress::Done && caller.arrival.key().is_locked()
            }
            _ => false,
        }
    }

    /// From now on it is asked for the password, if the site has let it in; and it goes on, as far as that goes now.
    fn ask<R: Clock>(&mut self, rt: &R) -> Progress {
        let WebNewcomer::Asks(caller) = mem::replace(self, WebNewcomer::Left) else {
            return Progress::Gone;
        };
        let Some(mut locked_out) = caller.into_locked_out(rt) else {
            return Progress::Gone;
        };
        let progress = locked_out.go_on(rt);
        *self = WebNewcomer::IsAsked(locked_out);
        progress
    }
}

impl Newcomer for WebNewcomer {
    fn hear(&mut self, registry: &Registry, number: usize) -> io::Result<()> {
        let both = Interest::READABLE | Interest::WRITABLE;
        match self {
            WebNewcomer::Asks(caller) => registry.register(&mut caller.heard, Token(number), both),
            WebNewcomer::IsAsked(locked_out) => {
                registry.register(&mut locked_out.heard, Token(number), both)
            }
            WebNewcomer::Left => Err(io::Error::from(ErrorKind::NotConnected)),
        }
    }

    fn leave(&mut self, registry: &Registry) -> io::Result<()> {
        match self {
            WebNewcomer::Asks(caller) => registry.deregister(&mut caller.heard),
            WebNewcomer::IsAsked(locked_out) => registry.deregister(&mut locked_out.heard),
            WebNewcomer::Left => Err(io::Error::from(ErrorKind::NotConnected)),
        }
    }

    fn address(&self) -> Option<SocketAddr> {
        match self {
            WebNewcomer::Asks(caller) => caller.arrival.whence().address(),
            WebNewcomer::IsAsked(locked_out) => locked_out.knocker.address(),
            WebNewcomer::Left => None,
        }
    }

    fn is_late(&self, now: Instant, is_crowded: bool) -> bool {
        match self {
            WebNewcomer::Asks(caller) => caller.is_late(now),
            WebNewcomer::IsAsked(locked_out) => locked_out.knocker.is_late(now, is_crowded),
            WebNewcomer::Left => true,
        }
    }

    /// Goes on as far as it goes now. A newcomer by a locked port that has asked all is asked for the password then.
    fn go_on<R: Clock>(&mut self, rt: &R) -> Progress {
        let progress = match self {
            WebNewcomer::Asks(caller) => caller.go_on(rt),
            WebNewcomer::IsAsked(locked_out) => locked_out.go_on(rt),
            WebNewcomer::Left => Progress::Gone,
        };
        if self.is_due(progress) {
            self.ask(rt)
        } else {
            progress
        }
    }

    fn complaint(&self, is_late: bool) -> Option<Event<'static>> {
        match self {
            WebNewcomer::Asks(caller) => caller.complaint(is_late),
            WebNewcomer::IsAsked(locked_out) => locked_out.knocker.complaint(is_late),
            WebNewcomer::Left => None,
        }
    }

    fn dismiss(self, is_late: bool) {
        if let WebNewcomer::IsAsked(locked_out) = self {
            locked_out.knocker.dismiss(is_late);
        }
    }

    fn enter<R: Wait + Clock>(self, rt: &R, patience: Duration) -> Option<Entrance> {
        match self {
            WebNewcomer::Asks(caller) => caller.enter(rt, patience),
            WebNewcomer::IsAsked(locked_out) => locked_out.enter(rt, patience),
            WebNewcomer::Left => None,
        }
    }
}
