//! Porters: a porter is one thread for all that comes before a link, at the web ports of a run or at a port over TCP.

ghost use Rattle.std.specs.Prelude.{◌≡◌, IfOk};
ghost use Rattle.std.specs.Arc.{arc_value};

use crate::called::RoleCaller;
use crate::caller::WebEntry;
use crate::guesses::Guesses;
use crate::lobby::Entrance;
use crate::newcomer::TcpEntry;
use crate::port::{Newcomer, Port, Progress};
use crate::refused::Refused;
use crate::seat::Seat;
use mio::{Events, Interest, Poll, Token};
use run_traits::{Alarm, Log};
use std::alloc::{AllocError, Global};
use std::hash::RandomState;
use std::io;
use std::net::{Net, SocketAddr};
use std::random::RandomSource;
use std::sync::{Arc, Wait};
use std::time::{Clock, Duration, Instant};

/// The most connections that aren't viewers yet in one porter. The others wait in the system's queue.
pub const MOST_GUESTS: usize = 64;

/// The most sockets of which a poll tells at once.
const MOST_EVENTS: usize = 128;

/// After how many milliseconds, at the latest, newcomers that are late are let go and a closed lobby is seen.
const LOOK_MILLIS: u64 = 500;

/// The seconds after which all places are woken, so that a place whose browser was sent nothing for long sends a ping.
const WAKE_SECONDS: u64 = 5;

/// The newcomers of a porter, each in a slot of its own. `place` is the number of such a slot here, and no viewer's
/// place.
#[derive(Drop)]
struct Guests<C: Newcomer> {
    places: Vec<Option<C>>,
}

impl<C: Newcomer> Guests<C> {
    fn new(alloc: Global) -> io::Result<Guests<C>> {
        let mut places = Vec::with_capacity(alloc, MOST_GUESTS)?;
        for _ in 0..MOST_GUESTS {
            places.push(None)?;
        }
        Ok(Guests { places })
    }

    /// A slot that is free.
    fn free(&self) -> Option<usize> {
        self.places.iter().position(|place| place.is_none())
    }

    fn put(&mut self, place: usize, comer: C) {
        if let Some(there) = self.places.get_mut(place) {
            *there = Some(comer);
        }
    }

    fn take(&mut self, place: usize) -> Option<C> {
        self.places.get_mut(place)?.take()
    }

    /// Goes on with the newcomer at this place.
    fn go_on<R: Clock>(&mut self, rt: &R, place: usize) -> Progress {
        match self.places.get_mut(place) {
            Some(Some(comer)) => comer.go_on(rt),
            _ => Progress::Waits,
        }
    }

    /// The address of the newcomer in this slot, if there is one and its address is known by now.
    fn address(&self, place: usize) -> Option<SocketAddr> {
        match self.places.get(place) {
            Some(Some(comer)) => comer.address(),
            _ => None,
        }
    }

    /// Whether the newcomer in this slot, if there is one, has taken too long.
    fn is_late(&self, place: usize, now: Instant, is_crowded: bool) -> bool {
        match self.places.get(place) {
            Some(Some(comer)) => comer.is_late(now, is_crowded),
            _ => false,
        }
    }
}

/// The ports of a porter, and the newcomers that came by them. A poll hears a port under its number, and a newcomer
/// under the number of its slot, counted on from those of the ports.
#[derive(Drop)]
struct Porch<P: Port> {
    alloc: Global,
    poll: Poll,
    entries: Vec<P>,
    guests: Guests<P::Comer>,
    guesses: Guesses,
    refused: Refused,
    means: P::Means,
}

impl<P: Port> Porch<P> {
    fn new(alloc: Global, poll: Poll, mut entries: Vec<P>, means: P::Means) -> io::Result<Porch<P>>
        ensures { IfOk result (λ porch. porch.means ≡ means) }
    {
        for (number, entry) in entries.iter_mut().enumerate() {
            let heard = entry.heard();
            poll.registry()
                .register(heard, Token(number), Interest::READABLE)?;
        }
        Ok(Porch {
            alloc,
            poll,
            entries,
            guests: Guests::new(alloc)?,
            guesses: Guesses::new(alloc)?,
            refused: Refused::new(),
            means,
        })
    }

    /// The next newcomer of a port. Those who were called come first, since others may keep coming.
    fn accept<R: Wait + Clock + RandomSource>(&self, rt: &R, port: usize) -> Option<P::Comer> {
        let entry = self.entries.get(port)?;
        match entry.called(rt, &self.means) {
            Some(comer) => Some(comer),
            None => entry.accept(rt, self.alloc, &self.means).ok(),
        }
    }

    /// Puts a newcomer into this slot, and hears it from now on. A newcomer that can't be heard is let go.
    fn admit(&mut self, mut comer: P::Comer, place: usize) {
        let number = self.entries.len().saturating_add(place);
        if comer.hear(self.poll.registry(), number).is_ok() {
            self.guests.put(place, comer);
        }
    }

    /// Lets the next newcomer of a port ask, where a slot is free. It answers false where none is free, or no newcomer
    /// came.
    fn let_one_ask<R: Wait + Clock + RandomSource>(&mut self, rt: &R, port: usize) -> bool {
        let Some(place) = self.guests.free() else {
            return false;
        };
        match self.accept(rt, port) {
            Some(comer) => {
                self.admit(comer, place);
                true
            }
            None => false,
        }
    }

    /// Lets all newcomers of a port ask, while there is room.
    fn let_ask<R: Wait + Clock + RandomSource>(&mut self, rt: &R, port: usize) {
        for _ in 0..MOST_GUESTS {
            if !self.let_one_ask(rt, port) {
                return;
            }
        }
    }

    /// A newcomer that is done leaves its slot, and is brought to its lobby if it was let in.
    fn see_in<R: Wait + Clock, G: Log>(&mut self, rt: &R, place: usize, log: &G) {
        let Some(mut comer) = self.guests.take(place) else {
            return;
        };
        let _ = comer.leave(self.poll.registry());
        let patience = self.refused.patience(rt);
        if let Some(Entrance::Refused(entrant, lack)) = comer.enter(rt, patience) {
            self.refused.refuse(rt, entrant, lack, patience, log);
        }
    }

    /// Lets the newcomer in this slot go, late or not.
    fn see_off<G: Log>(&mut self, place: usize, is_late: bool, log: &G) {
        if let Some(comer) = self.guests.take(place) {
            if let Some(event) = comer.complaint(is_late) {
                log.note(&event);
            }
            comer.dismiss(is_late);
        }
    }

    /// Counts a wrong password that was just heard from the newcomer in this slot.
    fn count<R: Clock>(&mut self, rt: &R, place: usize) {
        if let (Some(address), Ok(now)) = (self.guests.address(place), Instant::now(rt)) {
            self.guesses.note(address.ip().to_canonical(), now);
        }
    }

    /// Whether too many wrong passwords have come from the address of the newcomer in this slot.
    fn has_to_wait<R: Clock>(&self, rt: &R, place: usize) -> bool {
        match (self.guests.address(place), Instant::now(rt)) {
            (Some(address), Ok(now)) => self.guesses.bars(address.ip().to_canonical(), now),
            _ => false,
        }
    }

    /// Goes on with the newcomer at this place. One that has to wait hears nothing once its address is known, and isn't
    /// let in.
    fn go_on<R: Wait + Clock, G: Log>(&mut self, rt: &R, place: usize, log: &G) {
        if self.has_to_wait(rt, place) {
            return;
        }
        match self.guests.go_on(rt, place) {
            Progress::Waits => {}
            Progress::Guessed => self.count(rt, place),
            Progress::Gone => self.see_off(place, false, log),
            Progress::Done if self.has_to_wait(rt, place) => self.see_off(place, false, log),
            Progress::Done => self.see_in(rt, place, log),
        }
    }

    /// Goes on with all sockets that a poll has heard.
    fn answer<R: Wait + Clock, G: Log>(&mut self, rt: &R, events: &Events, log: &G) {
        let ports = self.entries.len();
        for event in events.iter() {
            let Token(number) = event.token();
            if let Some(place) = number.checked_sub(ports) {
                self.go_on(rt, place, log);
            }
        }
    }

    /// Lets go of the newcomers that are late.
    fn let_go<G: Log>(&mut self, now: Instant, log: &G) {
        let is_crowded = self.guests.free().is_none();
        for place in 0..MOST_GUESTS {
            if self.guests.is_late(place, now, is_crowded) {
                self.see_off(place, true, log);
            }
        }
    }

    /// Lets those newcomers ask that wait at the ports. A poll hears a port once for all of its newcomers, so each port
    /// is looked at whenever a slot may be free.
    fn let_all_ask<R: Wait + Clock + RandomSource>(&mut self, rt: &R) {
        for port in 0..self.entries.len() {
            self.let_ask(rt, port);
        }
    }

    /// Waits, but not for long, and goes on with all sockets that it heard.
    fn turn<R: Wait + Clock + RandomSource, G: Log>(
        &mut self,
        rt: &R,
        events: &mut Events,
        log: &G,
    ) {
        let longest = Some(Duration::from_millis(LOOK_MILLIS));
        if self.poll.poll(events, longest).is_err() {
            return;
        }
        self.answer(rt, events, log);
        if let Ok(now) = Instant::now(rt) {
            self.let_go(now, log);
        }
        self.let_all_ask(rt);
    }

    fn is_closed<R: Wait>(&self, rt: &R) -> bool {
        self.entries.iter().all(|entry| entry.is_closed(rt))
    }
}

/// Wakes the places of these seats.
fn wake(seats: &[Arc<Seat, Global>]) {
    for seat in seats {
        seat.ring();
    }
}

/// Whether it is time to wake the places again. Where the clock can't be read it always is.
fn is_due<R: Clock>(rt: &R, woken: &Option<Instant>) -> bool {
    match woken {
        Some(woken) => match woken.elapsed(rt) {
            Ok(passed) => passed >= Duration::from_secs(WAKE_SECONDS),
            Err(_) => true,
        },
        None => true,
    }
}

/// The porter of all web ports of a run. What it waits with is made before its thread is started, so that a failure is
/// told to the thread that starts it.
#[derive(Drop)]
pub struct WebPorter {
    porch: Porch<WebEntry>,
    events: Events,
}

impl WebPorter {
    /// The porter of these ports. The peer chooses the names of fields, so maps of them take secret keys. It fails
    /// where memory is refused, or a poll by the system.
    pub fn new(
        net: &impl Net,
        alloc: Global,
        entries: Vec<WebEntry>,
        keys: RandomState,
    ) -> io::Result<WebPorter> {
        Ok(WebPorter {
            porch: Porch::new(alloc, Poll::new(net)?, entries, keys)?,
            events: Events::with_capacity(alloc, MOST_EVENTS)?,
        })
    }

    /// Keeps the ports: it answers requests, and brings callers that open a link to the lobby of their port. It wakes
    /// the places of these seats now and then, and ends soon after the lobbies are closed.
    pub fn keep<R: Wait + Clock + RandomSource, G: Log>(
        mut self,
        rt: &R,
        seats: &[Arc<Seat, Global>],
        log: &G,
    ) {
        let mut woken = Instant::now(rt).ok();
        for _ in rt.forever() {
            self.porch.turn(rt, &mut self.events, log);
            if self.porch.is_closed(rt) {
                break;
            }
            if is_due(rt, &woken) {
                woken = Instant::now(rt).ok();
                wake(seats);
            }
        }
    }
}

/// The porter of a port over TCP: it says the version to each newcomer, and brings newcomers whose own version has come
/// to the port's lobby. What it waits with is made before its thread is started, so that a failure is told to the
/// thread that starts it.
#[derive(Drop)]
pub struct TcpPorter {
    porch: Porch<TcpEntry>,
    events: Events,
}

impl TcpPorter {
    /// The porter of this port. It fails where memory is refused, or a poll by the system.
    pub fn new(net: &impl Net, alloc: Global, entry: TcpEntry) -> io::Result<TcpPorter>
        ensures { IfOk result (λ porter.
            (arc_value porter.porch.means).role ≡ entry.listener.role) }
    {
        let poll = Poll::new(net)?;
        // A poll tells of a viewer that was called as it tells of one at the port, which has the number 0.
        let caller = RoleCaller::new(alloc, entry.role(), poll.registry(), 0)?;
        let mut entries = Vec::new(alloc);
        entries.push(entry)?;
        Ok(TcpPorter {
            porch: Porch::new(alloc, poll, entries, Arc::new(alloc, caller)?)?,
            events: Events::with_capacity(alloc, MOST_EVENTS)?,
        })
    }

    /// What calls viewers to this port, from another thread. It fails where no more owners can be counted.
    pub fn caller(&self) -> Result<Arc<RoleCaller, Global>, AllocError>
        ensures { IfOk result (λ caller. arc_value caller ≡ arc_value self.now.porch.means) }
    {
        Arc::try_clone(&self.porch.means)
    }

    /// Keeps the port. Newcomers that aren't let in, and the log, are told why not. It ends soon after the lobby is
    /// closed.
    pub fn keep<R: Wait + Clock + RandomSource, G: Log>(mut self, rt: &R, log: &G) {
        for _ in rt.forever() {
            self.porch.turn(rt, &mut self.events, log);
            if self.porch.is_closed(rt) {
                break;
            }
        }
    }
}
