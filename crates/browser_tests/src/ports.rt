//! A web port before one place: files, strangers, a browser that finds no place, and one that comes after another. A
//! browser that asks slowly, by a clock that is put forward by hand. A locked port, and browsers that guess.

use crate::asks::{Ask, NOT_FOUND, PORT, are_strangers_refused, is_answered, is_told};
use crate::browser::Browser;
use crate::clock::{ByHand, no_millis, puts_forward};
use crate::guessers::{PASSWORD, are_guessers_met, is_right_one_let_in};
use crate::host::VERSION;
use crate::loopback::{connect, hears, is_let_go, reads, sends};
use crate::port::{AROUND, FOUND, WebPort, seat};
use connections::{Key, Lobby, Seat, TcpDoor, WebPorter};
use link::{Gave, Link, Took};
use roles::Role;
use run_traits::{Door, LeftLink, NoLog};
use std::alloc::Global;
use std::net::TcpStream;
use std::random::RandomSource;
use std::sync::atomic::AtomicU64;
use std::sync::{Arc, Wait};
use std::test::*;
use std::thread::Threads;
use std::time::Clock;
use std::{io, thread};
use vnc_auth::Password;

/// What a browser is told that finds no place: a message of 12 bytes, the version; one of 25, no security type and a
/// reason of 20 bytes; and a close frame with 1013, try again later (RFC 6143, 7.1.1 and 7.1.2; RFC 6455, 5.2 and
/// 5.5.1).
const REFUSAL: &[u8] =
    b"\x82\x0CRFB 003.008\n\x82\x19\0\0\0\0\x14all places are taken\x88\x02\x03\xF5";

/// What a browser is told that comes before there is a host: the version, a message of 16 bytes with that reason, and
/// the same close frame.
const EARLY: &[u8] = b"\x82\x0CRFB 003.008\n\x82\x10\0\0\0\0\x0Bno host yet\x88\x02\x03\xF5";

/// What a browser is told that finds a place: a message of one byte.
const WELCOME: &[u8] = b"\x82\x01R";

/// At most this many find that a place which was left isn't free yet.
const TRIES: u64 = 1_000;

/// Nothing is had under this path.
const NOWHERE: Ask = Ask {
    request: &["GET /none HTTP/1.1\r\nHost: 127.0.0.1:", PORT, "\r\n\r\n"],
    status: NOT_FOUND,
    line: b"",
    body: b"",
};

/// A request for that path begins so, and goes on so.
const BEGINNING: &[u8] = b"GET /none HTTP/1.1\r\n";

const REST: Ask = Ask {
    request: &["Host: 127.0.0.1\r\n\r\n"],
    status: NOT_FOUND,
    line: b"",
    body: b"",
};

/// Who comes to a port.
#[derive(Clone, Copy)]
enum Visitors {
    /// Browsers of which one finds the place, and another comes after it.
    Browsers,
    /// A caller that asks slowly, and others.
    Slow,
    /// Browsers at a locked port that don't know the password.
    Guessers,
    /// Browsers that do, of which one finds the place, and another finds none.
    Knowers,
}

/// A new port, and its one place.
struct Scene {
    /// The name that is printed where the scene goes otherwise.
    name: &'static str,
    role: Role,
    visitors: Visitors,
    /// Whether the port's clock stands until it is put forward.
    is_standing: bool,
    /// How many viewers come to the place.
    came: u64,
}

impl Scene {
    /// The key of the port.
    fn key(&self) -> Key {
        match self.visitors {
            Visitors::Guessers | Visitors::Knowers => Key::Locked(Password::new(PASSWORD)),
            Visitors::Browsers | Visitors::Slow => Key::Open,
        }
    }
}

/// A port, as its visitors find it.
#[derive(Clone, Copy)]
pub(crate) struct House<'a> {
    pub(crate) net: &'a HostRuntime,
    pub(crate) port: u16,
    lobby: &'a Lobby,
    pub(crate) millis: &'static AtomicU64,
    pub(crate) drawn: &'static AtomicU64,
}

/// Whether a viewer is greeted with a byte. Behind a lock its owner first gives the version and the list of types, of
/// which nothing is sent, since the browser has heard others in their place.
fn is_greeted<L: Link>(link: &mut L, is_locked: bool) -> bool {
    let begins = !is_locked
        || (link.give(VERSION) == Gave::Bytes(12) && link.give(b"\x01\x01") == Gave::Bytes(2));
    begins && link.give(b"R") == Gave::Bytes(1)
}

/// Greets each viewer and then serves it until it ends. It answers how many viewers came.
fn greets<D: Door>(door: &mut D, is_locked: bool) -> u64 {
    let mut into = [0u8; 64];
    for count in 0..1_000u64 {
        let Some(mut link) = door.next() else {
            return count;
        };
        if !is_greeted(&mut link, is_locked) {
            return u64::MAX;
        }
        for _ in 0..1_000 {
            if !matches!(link.take(&mut into), Took::Nothing | Took::Bytes(_)) {
                break;
            }
        }
        door.left(LeftLink::new(link), 0, Ok(()));
    }
    u64::MAX
}

/// Whether a file is given, and neither another site's page nor a request for another host is let in.
fn are_asks_right(house: &House<'_>) -> bool {
    is_told(house.net, house.port, &FOUND)
        && is_told(house.net, house.port, &AROUND)
        && are_strangers_refused(house.net, house.port)
}

/// Whether a browser that comes is told these bytes once a WebSocket is opened.
fn is_refused(house: &House<'_>, refusal: &[u8]) -> bool {
    match Browser::open(house.net, house.port) {
        Some(mut browser) => hears(browser.stream(), refusal),
        None => false,
    }
}

/// Whether a browser that comes finds the place. There is no answer where it is told nothing.
fn is_let_in(house: &House<'_>) -> Option<bool> {
    let mut told = [0u8; 3];
    let mut browser = Browser::open(house.net, house.port)?;
    if reads(browser.stream(), &mut told) {
        Some(told.as_slice() == WELCOME)
    } else {
        None
    }
}

/// Whether a browser finds the place once the one before has left.
fn is_free_again(house: &House<'_>) -> bool {
    for _ in 0..TRIES {
        match is_let_in(house) {
            Some(true) => return true,
            Some(false) => {}
            None => return false,
        }
    }
    false
}

/// Whether one browser comes in, and a second is told why it can't, while files are given.
fn is_full(house: &House<'_>) -> bool {
    match Browser::open(house.net, house.port) {
        Some(mut first) => {
            first.hears(b"R") && are_asks_right(house) && is_refused(house, REFUSAL)
        }
        None => false,
    }
}

/// Whether all is right before there is a host, and once there is one.
fn are_browsers_met<R: Wait>(rt: &R, house: &House<'_>) -> bool {
    house.lobby.hold(rt, true);
    let is_early = are_asks_right(house) && is_refused(house, EARLY);
    house.lobby.hold(rt, false);
    is_early && is_full(house) && is_free_again(house)
}

/// Whether another request is answered. If so, the porter is done with all that came before.
pub(crate) fn is_other_answered(house: &House<'_>) -> bool {
    is_told(house.net, house.port, &NOWHERE)
}

/// Whether a request that has begun is answered once the rest is sent, just before it is late. The second of the others
/// is answered after the porter has looked at the clock.
fn is_in_time(house: &House<'_>, slow: &mut TcpStream) -> bool {
    is_other_answered(house)
        && puts_forward(house.millis, 9_999)
        && is_other_answered(house)
        && is_other_answered(house)
        && is_answered(house.net.alloc(), slow, house.port, &REST)
}

/// Whether a request that has begun is late ten seconds after the last answer, and its caller let go.
fn is_late(house: &House<'_>, slow: &mut TcpStream) -> bool {
    is_other_answered(house) && puts_forward(house.millis, 10_000) && is_let_go(slow)
}

/// Whether a caller that asks slowly is let go ten seconds after its last answer, and not before.
fn is_slow_one_met(house: &House<'_>) -> bool {
    match connect(house.net, house.port) {
        Some(mut slow) => {
            sends(&mut slow, BEGINNING)
                && is_in_time(house, &mut slow)
                && sends(&mut slow, BEGINNING)
                && is_late(house, &mut slow)
        }
        None => false,
    }
}

/// Whether these visitors are met as they should be. The lobby is closed at the end.
fn visits<R: Wait>(rt: &R, house: &House<'_>, visitors: Visitors) -> bool {
    let is_right = match visitors {
        Visitors::Browsers => are_browsers_met(rt, house),
        Visitors::Slow => is_slow_one_met(house),
        Visitors::Guessers => are_guessers_met(house),
        Visitors::Knowers => is_right_one_let_in(house),
    };
    house.lobby.close(rt);
    is_right
}

/// How many viewers came to the door while the port was kept.
fn keeps<R, D>(hand: &ByHand<R>, porter: WebPorter, door: &mut D, is_locked: bool) -> u64
where
    R: Threads + Wait + Clock + RandomSource + Drop + Send + Sync,
    D: Door + Send,
{
    let seats: [Arc<Seat, Global>; 0] = [];
    let (came, ()) = thread::join(
        &hand.rt,
        || greets(door, is_locked),
        || porter.keep(hand, &seats, &NoLog),
    );
    came
}

/// How many viewers came to the door while the port was kept, and whether its visitors were met as they should be.
fn serves<R, D>(
    hand: &ByHand<R>,
    house: &House<'_>,
    porter: WebPorter,
    door: &mut D,
    visitors: Visitors,
) -> (u64, bool)
where
    R: Threads + Wait + Clock + RandomSource + Drop + Send + Sync,
    D: Door + Send,
{
    let (is_right, came) = thread::join(
        &hand.rt,
        || visits(&hand.rt, house, visitors),
        || keeps(hand, porter, door, house.lobby.key().is_locked()),
    );
    (came, is_right)
}

/// Whether a scene goes as it should at a new port.
fn is_right<R>(hand: &ByHand<R>, net: &HostRuntime, scene: &Scene) -> io::Result<bool>
where
    R: Threads + Wait + Clock + RandomSource + Copy + Drop + Send + Sync,
{
    let seat = seat(net)?;
    let WebPort {
        lobby,
        porter,
        port,
    } = WebPort::open(net, scene.role, scene.key())?;
    let shared = Arc::try_clone(&lobby)?;
    let mut door = TcpDoor::new(hand.rt, net.alloc(), shared, seat, 1, NoLog);
    let house = House {
        net,
        port,
        lobby: &lobby,
        millis: hand.millis,
        drawn: hand.drawn,
    };
    let (came, is_right) = serves(hand, &house, porter, &mut door, scene.visitors);
    Ok(is_right && came == scene.came)
}

const SCENES: &[Scene] = &[
    Scene {
        name: "a port answers requests, and lets in one browser after another",
        role: Role::Full,
        visitors: Visitors::Browsers,
        is_standing: false,
        came: 2,
    },
    Scene {
        name: "a browser that asks too slowly is let go",
        role: Role::View,
        visitors: Visitors::Slow,
        is_standing: true,
        came: 0,
    },
    Scene {
        name: "a locked port lets in no browser that guesses",
        role: Role::Full,
        visitors: Visitors::Guessers,
        is_standing: true,
        came: 0,
    },
    Scene {
        name: "a locked port lets in a browser that knows the password",
        role: Role::View,
        visitors: Visitors::Knowers,
        is_standing: false,
        came: 1,
    },
];

#[test]
fn web_port_meets_its_visitors(rt: HostRuntime) -> Result<(), Fail> {
    for scene in SCENES {
        let hand = ByHand {
            rt,
            millis: no_millis(rt.alloc())?,
            drawn: no_millis(rt.alloc())?,
            is_standing: scene.is_standing,
        };
        if !is_right(&hand, &rt, scene).unwrap_or(false) {
            return Err(Fail::new(scene.name));
        }
    }
    Ok(())
}
