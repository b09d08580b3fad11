//! Viewers that come one after another at the port of a role.

use crate::loopback::{VERSION, address_of, asks, connect, sends};
use crate::refusals::{NO_HOST, Refusal, is_refused};
use crate::room::{Count, Ear};
use crate::steps::{ASK, ASK_NEW, BLACK, CHOICE_AND_SHARED, GREETING, Step, plays};
use crate::system::SocketFiles;
use std::net::{Net, SocketAddr, TcpListener, TcpStream};
use std::sync::Wait;
use std::time::Clock;

/// At most this many viewers come before the doors are seen to be open, or a place which was left to be free.
const TRIES: u64 = 10_000;

/// A viewer asks for the whole screen, which is black, and for what is new of it, where nothing is new, and is let go
/// without a byte. It counts itself among the viewers that wait.
pub(crate) const ASKS_IN_VAIN: &[Step] = &[
    Step::Sends(ASK),
    Step::Hears(BLACK),
    Step::Sends(ASK_NEW),
    Step::Adds(Count::Shown),
    Step::IsLetGo,
];

/// A viewer.
pub(crate) struct Visit {
    pub(crate) start: VisitStart,
    /// What it does once it came in, in parts.
    pub(crate) steps: &'static [&'static [Step]],
    /// How the log ends its line of the viewer that has left, after the address, if a log is kept.
    pub(crate) told: Option<&'static str>,
}

/// How a viewer comes.
#[derive(Clone, Copy)]
pub(crate) enum VisitStart {
    /// It connects.
    Connects,
    /// It is greeted up to its screen. One that is told that there is no host yet comes again.
    IsGreeted,
    /// The log tells that it has a place. One that is refused so comes again.
    HasPlace(&'static Refusal),
}

/// Where viewers of a role come, and what the log tells of the one that has its place.
#[derive(Drop)]
pub(crate) struct Door {
    pub(crate) port: u16,
    /// That it came, up to its address.
    pub(crate) comes: &'static str,
    /// That it left, up to its address.
    pub(crate) leaves: &'static str,
}

/// Whether each of these viewers comes in and is given what it should be, one after another.
pub(crate) fn are_visits_right<R>(ear: &Ear<R>, door: &Door, visits: &[Visit]) -> bool
where
    R: Net<Stream = TcpStream, Listener = TcpListener> + SocketFiles + Wait + Clock + Drop,
{
    let mut are_right = true;
    for visit in visits {
        are_right = are_right && is_visit_right(ear, door, visit);
    }
    are_right
}

/// Whether this viewer comes in, is given what it should be, and is seen to leave.
fn is_visit_right<R>(ear: &Ear<R>, door: &Door, visit: &Visit) -> bool
where
    R: Net<Stream = TcpStream, Listener = TcpListener> + SocketFiles + Wait + Clock + Drop,
{
    match enters(ear, door.port, visit.start) {
        Some(mut stream) => {
            let address = address_of(&stream);
            let is_right = wants_visit(ear, door, visit, address)
                && stays(ear, door.port, &mut stream, visit.steps);
            drop(stream);
            is_right && is_seen_to_leave(ear, door, visit, address)
        }
        None => false,
    }
}

/// Whether a viewer that came in is given what it should be.
fn stays<R>(ear: &Ear<R>, port: u16, stream: &mut TcpStream, parts: &[&[Step]]) -> bool
where
    R: Net<Stream = TcpStream, Listener = TcpListener> + SocketFiles + Wait + Clock + Drop,
{
    let mut is_right = true;
    for steps in parts {
        is_right = is_right && plays(ear, port, stream, steps);
    }
    is_right
}

/// A viewer that comes in. Some before it may be sent back.
pub(crate) fn enters<R>(ear: &Ear<R>, port: u16, start: VisitStart) -> Option<TcpStream>
where
    R: Net<Stream = TcpStream, Listener = TcpListener> + Wait + Clock + Drop,
{
    for _ in 0..TRIES {
        let mut stream = connect(ear, port)?;
        match is_sent_back(ear, start, &mut stream) {
            Some(true) => {}
            Some(false) => return Some(stream),
            None => return None,
        }
    }
    None
}

/// Whether a viewer that has connected is sent back. There is no answer where it is told something else.
fn is_sent_back<R>(ear: &Ear<R>, start: VisitStart, stream: &mut TcpStream) -> Option<bool>
where
    R: Net<Stream = TcpStream, Listener = TcpListener> + Wait + Clock + Drop,
{
    match start {
        VisitStart::Connects => Some(false),
        VisitStart::IsGreeted => is_early(stream),
        VisitStart::HasPlace(refusal) => Some(
            sends(stream, VERSION) && is_refused(ear, refusal, stream),
        ),
    }
}

/// Whether a viewer is told that there is no host yet, or else is greeted.
fn is_early(stream: &mut TcpStream) -> Option<bool> {
    let mut told = [0u8; 18];
    let is_told = sends(stream, VERSION) && asks(stream, CHOICE_AND_SHARED, &mut told);
    if is_told && told.as_slice() == GREETING {
        Some(false)
    } else if is_told && NO_HOST.told.starts_with(&told) {
        Some(true)
    } else {
        None
    }
}

/// The log has to tell that a viewer came, and that it left so.
fn wants_visit<R: Wait + Clock + Drop>(
    ear: &Ear<R>,
    door: &Door,
    visit: &Visit,
    address: SocketAddr,
) -> bool {
    match visit.told {
        Some(told) => ear.wants(door.comes, address, "") && ear.wants(door.leaves, address, told),
        None => true,
    }
}

/// Whether the log tells in time that a viewer left.
fn is_seen_to_leave<R: Wait + Clock + Drop>(
    ear: &Ear<R>,
    door: &Door,
    visit: &Visit,
    address: SocketAddr,
) -> bool {
    visit.told.is_none() || ear.hears_of(door.leaves, address, " ")
}
