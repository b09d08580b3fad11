//! Newcomers to a port over TCP, and the port.

ghost use Rattle.std.specs.Prelude.{◌≡◌, ◌↔◌, IfOk, IfSome, IsTrue, [], false};
ghost use Rattle.std.specs.Arc.{arc_value};
ghost use Rattle.connections.specs.Greetings.{IsFromProxy};

use crate::called::RoleCaller;
use crate::key::draw;
use crate::knocker::Knocker;
use crate::lobby::{Entrance, Lobby};
use crate::noted::Noted;
use crate::options::outlast;
use crate::port::{Newcomer, Port, Progress};
use crate::role_listener::{Arrival, Entrant, RoleListener};
use mio::net::{TcpListener, TcpStream};
use mio::{Interest, Registry, Token};
use roles::Role;
use run_traits::{Event, Way};
use std::alloc::Global;
use std::io;
use std::net::SocketAddr;
use std::random::RandomSource;
use std::sync::{Arc, Wait};
use std::time::{Clock, Duration, Instant};

/// A port over TCP: its listener, and the lobby of the listener's role and key. Newcomers whose own version has come
/// are let to the lobby, where the port is locked once they have answered their challenge.
#[derive(Drop)]
pub struct TcpEntry {
    listener: RoleListener,
    heard: TcpListener,
    lobby: Arc<Lobby, Global>,
    ghost role: { listener.role ≡ (arc_value lobby).role },
    ghost key: { listener.key ≡ (arc_value lobby).key },
}

/// A newcomer over TCP, which is greeted at once.
#[derive(Drop)]
pub(crate) struct TcpNewcomer {
    knocker: Knocker<Noted<TcpStream>>,
}

impl TcpEntry {
    /// A port of this listener. It fails where the system refuses an option.
    pub fn new(listener: RoleListener, lobby: Arc<Lobby, Global>) -> io::Result<TcpEntry>
        requires role { listener.role ≡ (arc_value lobby).role }
        requires key { listener.key ≡ (arc_value lobby).key }
        ensures listener { IfOk result (λ entry. entry.listener ≡ listener) }
        ensures lobby { IfOk result (λ entry. arc_value entry.lobby ≡ arc_value lobby) }
    {
        listener.socket().set_nonblocking(true)?;
        let heard = TcpListener::from_std(listener.socket().try_clone()?);
        Ok(TcpEntry {
            listener,
            heard,
            lobby,
        })
    }

    /// The role of its newcomers.
    pub(crate) fn role(&self) -> Role
        ensures { result ≡ self.now.listener.role }
    {
        self.listener.role()
    }

    /// A newcomer that is greeted from now on, with a challenge of its own.
    fn greet<R: Clock + RandomSource>(&self, rt: &R, arrival: Arrival) -> io::Result<TcpNewcomer>
        requires role { arrival.role ≡ self.now.listener.role }
        requires key { arrival.key ≡ self.now.listener.key }
        requires front { arrival.whence.front ≡ [] }
        ensures role { IfOk result (λ comer. comer.knocker.role ≡ self.now.listener.role) }
        ensures key { IfOk result (λ comer. comer.knocker.greeting.key ≡ self.now.listener.key) }
        ensures whence { IfOk result (λ comer. comer.knocker.greeting.whence ≡ arrival.whence) }
        ensures lobby { IfOk result (λ comer.
            arc_value comer.knocker.lobby ≡ arc_value self.now.lobby) }
    {
        arrival.stream().set_nonblocking(true)?;
        outlast(arrival.stream(), self.lobby.stalled())?;
        let role = arrival.role();
        let lobby = Arc::try_clone(&self.lobby)?;
        Ok(TcpNewcomer {
            knocker: Knocker {
                role,
                way: Way::Tcp,
                greeting: arrival.into_greeting(draw(rt)?),
                since: Instant::now(rt)?,
                wrong: None,
                lobby,
            },
        })
    }
}

impl Port for TcpEntry {
    type Comer = TcpNewcomer;

    // Those who were called come with the others.
    type Means = Arc<RoleCaller, Global>;

    fn heard(&mut self) -> &mut TcpListener {
        &mut self.heard
    }

    fn is_closed<R: Wait>(&self, rt: &R) -> bool {
        self.lobby.is_closed(rt)
    }

    /// The next viewer that was called, which is greeted like any newcomer to this port, and asked for the password
    /// where the port is locked. No header of a proxy is wanted of it.
    fn called<R: Wait + Clock + RandomSource>(
        &self,
        rt: &R,
        means: &Arc<RoleCaller, Global>,
    ) -> Option<TcpNewcomer>
        ensures role { IfSome result (λ comer. comer.knocker.role ≡ self.now.listener.role) }
        ensures key { IfSome result (λ comer. comer.knocker.greeting.key ≡ self.now.listener.key) }
        ensures direct { IfSome result (λ comer. comer.knocker.greeting.whence.is_proxied ≡ false) }
        ensures lobby { IfSome result (λ comer.
            arc_value comer.knocker.lobby ≡ arc_value self.now.lobby) }
    {
        let called = means.next(rt)?;
        let arrival = self.listener.take_in(called)?;
        self.greet(rt, arrival).ok()
    }

    fn accept<R: Clock + RandomSource>(
        &self,
        rt: &R,
        _alloc: Global,
        _means: &Arc<RoleCaller, Global>,
    ) -> io::Result<TcpNewcomer>
        ensures role { IfOk result (λ comer. comer.knocker.role ≡ self.now.listener.role) }
        ensures key { IfOk result (λ comer. comer.knocker.greeting.key ≡ self.now.listener.key) }
        ensures proxied { IfOk result (λ comer. IsTrue comer.knocker.greeting.whence.is_proxied
            ↔ IsFromProxy self.now.listener.proxy comer.knocker.greeting.whence.peer) }
        ensures lobby { IfOk result (λ comer.
            arc_value comer.knocker.lobby ≡ arc_value self.now.lobby) }
    {
        let arrival = self.listener.accept()?;
        self.greet(rt, arrival)
    }
}

impl Newcomer for TcpNewcomer {
    fn hear(&mut self, registry: &Registry, number: usize) -> io::Result<()> {
        let both = Interest::READABLE | Interest::WRITABLE;
        registry.register(&mut self.knocker.greeting, Token(number), both)
    }

    fn leave(&mut self, registry: &Registry) -> io::Result<()> {
        registry.deregister(&mut self.knocker.greeting)
    }

    fn address(&self) -> Option<SocketAddr> {
        self.knocker.address()
    }

    fn is_late(&self, now: Instant, is_crowded: bool) -> bool {
        self.knocker.is_late(now, is_crowded)
    }

    fn go_on<R: Clock>(&mut self, rt: &R) -> Progress {
        self.knocker.go_on(rt)
    }

    fn complaint(&self, is_late: bool) -> Option<Event<'static>> {
        self.knocker.complaint(is_late)
    }

    fn dismiss(self, is_late: bool) {
        self.knocker.dismiss(is_late);
    }

    fn enter<R: Wait + Clock>(self, rt: &R, patience: Duration) -> Option<Entrance> {
        let Knocker {
            role,
            greeting,
            lobby,
            ..
        } = self.knocker;
        let entrant = Entrant::greeted(role, greeting)?;
        Some(lobby.enter(rt, entrant, patience))
    }
}
