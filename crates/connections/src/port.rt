//! What a porter keeps: ports, and newcomers that came by them and aren't viewers yet.

use crate::lobby::Entrance;
use crate::whence::Whence;
use mio::Registry;
use mio::net::TcpListener;
use roles::Role;
use run_traits::{Event, Way};
use std::alloc::Global;
use std::io;
use std::net::SocketAddr;
use std::random::RandomSource;
use std::sync::Wait;
use std::time::{Clock, Duration, Instant};

/// The most reads and writes of one newcomer in a row. A newcomer that keeps the porter busy for longer is let go.
pub(crate) const MOST_STEPS: usize = 4_096;

/// How far a newcomer has gone.
#[derive(Clone, Copy, Debug, PartialEq, Eq)]
pub(crate) enum Progress {
    /// It waits, or is waited for.
    Waits,
    /// It has just answered wrongly. It waits to be told so.
    Guessed,
    /// Nothing more is asked or answered.
    Done,
    /// Its connection is broken, or it keeps the porter busy.
    Gone,
}

/// What a log is told of a newcomer that goes now, late or not, if it lacked a header.
pub(crate) fn header_complaint(
    whence: &Whence,
    role: Role,
    way: Way,
    is_late: bool,
) -> Option<Event<'static>> {
    if !whence.lacks_header(is_late) {
        return None;
    }
    let address = whence.peer();
    Some(Event::NoHeader { role, address, way })
}

/// A port.
pub(crate) trait Port: Drop {
    /// A newcomer that came by it.
    type Comer: Newcomer;

    /// What is lent to each newcomer.
    type Means: Drop;

    /// The listener at which a poll hears newcomers.
    fn heard(&mut self) -> &mut TcpListener;

    /// Whether nobody is let to its lobby any more.
    fn is_closed<R: Wait>(&self, rt: &R) -> bool;

    /// The next newcomer that was called, if one waits. Whether it may come is seen as of any other.
    fn called<R: Wait + Clock + RandomSource>(
        &self,
        rt: &R,
        means: &Self::Means,
    ) -> Option<Self::Comer>;

    /// The next newcomer. The call doesn't wait for one.
    fn accept<R: Clock + RandomSource>(
        &self,
        rt: &R,
        alloc: Global,
        means: &Self::Means,
    ) -> io::Result<Self::Comer>;
}

/// A newcomer: one that came by a port and isn't a viewer yet.
pub(crate) trait Newcomer: Drop {
    /// From now on a poll hears it under this number.
    fn hear(&mut self, registry: &Registry, number: usize) -> io::Result<()>;

    /// No poll hears it any more.
    fn leave(&mut self, registry: &Registry) -> io::Result<()>;

    /// The address from which it comes, if that is known by now.
    fn address(&self) -> Option<SocketAddr>;

    /// Whether it has taken too long. It has less time where the porter has no room for another newcomer.
    fn is_late(&self, now: Instant, is_crowded: bool) -> bool;

    /// Reads and writes, as far as it goes now.
    fn go_on<R: Clock>(&mut self, rt: &R) -> Progress;

    /// What a log is told of it if it goes now, late or not.
    fn complaint(&self, is_late: bool) -> Option<Event<'static>>;

    /// Lets it go, late or not, with a last word if one is due.
    fn dismiss(self, is_late: bool);

    /// Brings it to the lobby of the port that it came by, if it may be let in. It answers `None` where it may not.
    fn enter<R: Wait + Clock>(self, rt: &R, patience: Duration) -> Option<Entrance>;
}
