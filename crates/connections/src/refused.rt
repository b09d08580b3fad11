//! Newcomers that weren't let in.

ghost use Rattle.std.specs.Prelude.{◌<◌, ◌≤◌, length};

use crate::greeted::GreetedSocket;
use crate::greeting::{VERSION, VERSION_LEN};
use crate::key::NONE;
use crate::noted::Noted;
use crate::refusal::{
    hostless_bytes, no_entry_bytes, no_host_bytes, refusal_bytes, shut_bytes, taken_bytes,
};
use crate::role_listener::Entrant;
use crate::socket::Socket;
use mio::net::TcpStream;
use run_traits::{Event, Log, Way};
use std::time::{Clock, Duration, Instant};
use web_link::refusal_frames;

/// For how long a newcomer that finds no place is kept before it is told so, in milliseconds. A place whose viewer has
/// just left is free by then. Newcomers that come within the same time after one that was kept in vain are told at
/// once, since they came while that one was kept, or shortly after.
const PATIENCE_MILLIS: u64 = 50;

/// The bytes of a SecurityResult (RFC 6143, section 7.1.3).
const RESULT_LEN: usize = 4;

/// Why a newcomer isn't let in: what is missing.
#[derive(Clone, Copy, Debug, PartialEq, Eq)]
pub(crate) enum Lack {
    /// No place is free.
    Place,
    /// There is no host.
    Host,
    /// An operator lets nobody in.
    Entry,
}

/// The newcomers that weren't let in: the socket of the last of them, which stays open until the next is refused, so
/// that its text isn't lost, and the moment until which one was kept in vain.
#[derive(Drop)]
pub(crate) struct Refused {
    last: Option<GreetedSocket<Noted<TcpStream>>>,
    in_vain: Option<Instant>,
}

/// Says these bytes, a version and a reason, to a newcomer that isn't let in; they go in messages where the newcomer's
/// own bytes do. A version that was said before isn't said again. It counts as sent in a call of its own, so each of
/// the two has one. A peer that is gone already needs no reason.
fn say<S: Socket>(socket: &mut S, way: Way, bytes: &[u8])
    requires long { 12 < length bytes.now }
    requires short { length bytes.now ≤ 116 }
{
    let (version, reason) = bytes.split_at(VERSION_LEN);
    match way {
        Way::Tcp => {
            let _ = socket.send(version);
            let _ = socket.send(reason);
        }
        Way::Web => {
            let _ = socket.send(refusal_frames(version, reason).as_slice());
        }
    }
}

/// Says a SecurityResult, with its reason, to a newcomer that has answered a challenge (RFC 6143, section 7.1.3).
/// Before that the owner of a socket over TCP says the version and the one security type, None, as at an open port.
fn fail<S: Socket>(socket: &mut S, way: Way, bytes: &[u8])
    requires long { RESULT_LEN < length bytes.now }
    requires short { length bytes.now ≤ 116 }
{
    match way {
        Way::Tcp => {
            let _ = socket.send(&VERSION);
            let _ = socket.send(&[1, NONE]);
            let _ = socket.send(bytes);
        }
        Way::Web => {
            let (result, reason) = bytes.split_at(RESULT_LEN);
            let _ = socket.send(refusal_frames(result, reason).as_slice());
        }
    }
}

/// Tells a newcomer that has unlocked its port, and isn't let in, why.
fn answer_behind_lock<S: Socket>(socket: &mut S, way: Way, lack: Lack) {
    match lack {
        Lack::Place => fail(socket, way, &taken_bytes()),
        Lack::Host => fail(socket, way, &hostless_bytes()),
        Lack::Entry => fail(socket, way, &shut_bytes()),
    }
}

/// Tells a newcomer that isn't let in why.
fn answer<S: Socket>(socket: &mut S, way: Way, lack: Lack) {
    match lack {
        Lack::Place => say(socket, way, &refusal_bytes()),
        Lack::Host => say(socket, way, &no_host_bytes()),
        Lack::Entry => say(socket, way, &no_entry_bytes()),
    }
}

/// What a log is told of a newcomer that isn't let in.
fn event_of(refused: &Entrant, lack: Lack) -> Event<'static> {
    let role = refused.role();
    let address = refused.address();
    let way = refused.way();
    match lack {
        Lack::Place => Event::PlacesTaken { role, address, way },
        Lack::Host => Event::NoHost { role, address, way },
        Lack::Entry => Event::NoEntry { role, address, way },
    }
}

impl Refused {
    /// Nobody was refused yet.
    pub(crate) fn new() -> Refused {
        Refused {
            last: None,
            in_vain: None,
        }
    }

    /// For how long a newcomer is kept now.
    pub(crate) fn patience<R: Clock>(&self, rt: &R) -> Duration {
        let patience = Duration::from_millis(PATIENCE_MILLIS);
        match &self.in_vain {
            None => patience,
            Some(until) => match until.elapsed(rt) {
                Ok(passed) if passed < patience => Duration::ZERO,
                _ => patience,
            },
        }
    }

    /// Refuses a newcomer that was kept for this long.
    pub(crate) fn refuse<R: Clock, G: Log>(
        &mut self,
        rt: &R,
        refused: Entrant,
        lack: Lack,
        patience: Duration,
        log: &G,
    ) {
        if lack == Lack::Place && !patience.is_zero() {
            self.in_vain = Instant::now(rt).ok();
        }
        log.note(&event_of(&refused, lack));
        let way = refused.way();
        let is_locked = refused.is_locked();
        let mut socket = refused.into_socket();
        if is_locked {
            answer_behind_lock(&mut socket, way, lack);
        } else {
            answer(&mut socket, way, lack);
        }
        self.last = Some(socket);
    }
}
