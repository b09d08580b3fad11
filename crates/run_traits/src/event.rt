//! What happens at the doors and at the host, for a log.

use fault::Fault;
use roles::Role;
use std::alloc::Global;
use std::io::ErrorKind;
use std::net::SocketAddr;
use std::sync::Arc;
use std::time::Duration;

/// Which place it is: its number, and the role of its viewer.
#[derive(Clone, Copy, Debug)]
pub struct PlaceId {
    /// The number of the place, counted from 1 over all places of the program.
    pub place: u64,
    /// What the place's viewer may do.
    pub role: Role,
}

/// How a viewer's bytes travel.
#[derive(Clone, Copy, Debug, PartialEq, Eq)]
pub enum Way {
    /// Over TCP as they are.
    Tcp,
    /// In the binary messages of a WebSocket.
    Web,
}

/// How a viewer's connection stood when serving it ended, as far as the system told.
#[derive(Clone, Copy, Debug, PartialEq, Eq)]
pub enum Parting {
    /// The connection was open.
    Open,
    /// The viewer had closed it.
    Closed,
    /// The handshake took longer than it may.
    Late,
    /// The system gave the connection up: the viewer took no bytes, or wasn't reachable, for longer than is allowed.
    Stalled,
    /// The system reported another error.
    Broken,
    /// The connection was open, and the viewer was asked to leave.
    Dismissed,
}

/// What became of a viewer that was served.
#[derive(Clone, Copy, Debug)]
pub struct VisitSummary {
    /// How serving ended.
    pub why: Result<(), Fault>,
    /// How the connection stood.
    pub parting: Parting,
    /// How long the viewer was served: no time where the clock can't be read.
    pub served: Duration,
    /// How many answers were begun for the viewer.
    pub answers: u64,
    /// How many bytes the system took for the viewer.
    pub bytes: u64,
}

/// What happens. An address that the system doesn't tell is missing.
#[derive(Clone, Copy, Debug)]
pub enum Event<'a> {
    /// Viewers of this role can connect here.
    Listening {
        role: Role,
        address: SocketAddr,
        places: u64,
        way: Way,
    },
    /// Whoever reaches this address has full control, since nobody is asked for a password there, and other machines
    /// may reach it.
    OpenToAll {
        address: SocketAddr,
        way: Way,
    },
    /// The system was asked to connect to a host, and did so, or refused with this error. The address is missing where
    /// the system had none for the name in the host's text.
    HostTried {
        host: &'a str,
        address: Option<SocketAddr>,
        refused: Option<ErrorKind>,
    },
    /// The host's handshake is done.
    HostJoined {
        address: Option<SocketAddr>,
        name: &'a [u8],
        width: u64,
        height: u64,
    },
    /// A viewer has a place.
    ViewerIn {
        place_id: PlaceId,
        address: Option<SocketAddr>,
        way: Way,
    },
    /// A viewer has left its place.
    ViewerOut {
        place_id: PlaceId,
        address: Option<SocketAddr>,
        way: Way,
        visit: VisitSummary,
    },
    /// A viewer was refused, since all places were taken.
    PlacesTaken {
        role: Role,
        address: Option<SocketAddr>,
        way: Way,
    },
    /// A viewer was refused, since there is no host yet.
    NoHost {
        role: Role,
        address: Option<SocketAddr>,
        way: Way,
    },
    /// A viewer was refused, since an operator lets nobody in.
    NoEntry {
        role: Role,
        address: Option<SocketAddr>,
        way: Way,
    },
    /// A newcomer from the proxy was refused: what it sent is no header, or none came in time.
    NoHeader {
        role: Role,
        address: Option<SocketAddr>,
        way: Way,
    },
    /// A newcomer to a locked port was refused: it answered wrongly when it was asked for the password.
    WrongPassword {
        role: Role,
        address: Option<SocketAddr>,
        way: Way,
    },
    /// The host has ended, or is at fault, or wasn't joined.
    HostOut {
        address: Option<SocketAddr>,
        why: Result<(), Fault>,
    },
}

/// What is told what happens. No clause says what it does with that.
pub trait Log {
    /// This has happened.
    fn note(&self, event: &Event<'_>);
}

/// A log that nobody keeps.
#[derive(Clone, Copy, Drop)]
pub struct NoLog;

impl Log for NoLog {
    fn note(&self, _event: &Event<'_>) {}
}

impl<G: Log> Log for Arc<G, Global> {
    fn note(&self, event: &Event<'_>) {
        (**self).note(event);
    }
}
