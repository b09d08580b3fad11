//! What an actor does.

use crate::actors::{Actor, filled, has_place};
use crate::asks::{is_standing, is_told, reads_up_to};
use crate::lines::status_of;
use crate::loopback::{
    address_of, connect, connect_beside, is_closed_beside, is_closed_here, is_patient, sends,
};
use crate::operator::{answer, connect as connect_operator};
use crate::refusals::Refusal;
use crate::room::{Ear, Room};
use crate::scene::{Stage, is_filled, port_of};
use crate::sockets::{Asked, is_asked_for, is_hurried, is_kept_little};
use crate::steps::{Step, is_taken};
use crate::system::SocketFiles;
use crate::visits::{VisitStart, enters};
use crate::{notices, standard_error};
use std::net::{Net, TcpListener, TcpStream};
use std::os::fd::OwnedFd;
use std::os::unix::net::UnixStream;
use std::random::RandomSource;
use std::sync::Wait;
use std::thread;
use std::thread::Threads;
use std::time::{Clock, Duration};

/// A deed. In its texts the name of a port stands for the port, `me` for the address of the actor and `place` for the
/// number of its place, each between bars.
#[derive(Clone, Copy)]
pub(crate) enum Deed {
    /// Is connected to as the host that listens at this place, counted from 0.
    IsMet(usize),
    /// Connects to the port of this name as soon as a program listens there.
    Connects(&'static str),
    /// The same, at the address 127.0.0.2.
    ConnectsBeside(&'static str),
    /// Comes to the port of this name, once a viewer before it isn't refused so any more.
    ComesAfter(&'static str, &'static Refusal),
    /// The log tells in time that it has a place of this role, one of these, which no other actor has. How its bytes
    /// travel stands at the end.
    HasPlace(&'static str, &'static [u64], &'static str),
    /// Takes this step.
    Does(Step),
    /// Closes its connection.
    Leaves,
    /// Nothing listens at the port of this name in time.
    IsClosed(&'static str),
    /// Nothing listens there at the address 127.0.0.2.
    IsClosedBeside(&'static str),
    /// This line has to come on standard error.
    Wants(&'static str),
    /// This text comes on standard error in time.
    IsTold(&'static str),
    /// Puts a socket that nobody reads in the place of standard error, so that there is no room for a line.
    Fills,
    /// Reads all of it, so that there is room again.
    Empties,
    /// As an operator, is answered so to this request.
    IsObeyed(&'static str, &'static str),
    /// As an operator, says nothing and goes on.
    IsSilent,
    /// Has the system refuse the run an operator's connection again and again, from the one after the next on, until
    /// one is there.
    Hurries,
    /// As an operator, is told in time that the state has a line that begins so and has this part.
    Sees(&'static str, &'static str),
    /// As a machine, is told each of these in time where it asks for this path.
    Reads(&'static str, &'static [&'static str]),
    /// As a page of this origin, asks this host for a WebSocket over its connection, and is answered so. The host comes
    /// first.
    Opens(&'static str, &'static str, &'static str),
    /// The system is asked for this in time at the other end of its connection.
    Keeps(Asked),
    /// From now on the system keeps little of what is sent to it and not taken.
    IsKeptLittle,
    /// As systemd, hears notices at this name from now on.
    Listens(&'static str),
    /// The next notice is this one.
    IsNotified(&'static str),
    /// A file is put here.
    Puts(&'static str),
    /// The same file is still here. It is removed.
    Finds(&'static str),
    /// As whoever starts another run by this line, is told this, and the run ends with this status.
    Runs(&'static str, &'static str, u8),
}

/// One after another these actors do all of these deeds.
pub(crate) struct Act {
    /// The actors, by their numbers.
    pub(crate) who: &'static [usize],
    pub(crate) deeds: &'static [Deed],
}

/// Whatever has to come in time is waited for in this many turns of ten milliseconds.
const TRIES: u64 = 1_000;

/// A page that opens a WebSocket asks so, with the host, the page's origin and the standard's key (RFC 6455, section
/// 1.3).
const OPENS: &str = "GET /websockify HTTP/1.1\r\nHost: ";

const FROM: &str = "\r\nUpgrade: websocket\r\nConnection: keep-alive, Upgrade\r\nOrigin: ";

const WITH_KEY: &str =
    "\r\nSec-WebSocket-Key: dGhlIHNhbXBsZSBub25jZQ==\r\nSec-WebSocket-Version: 13\r\n\r\n";

/// The end of a head of HTTP (RFC 9112, section 2.1).
const HEAD_END: &[u8] = b"\r\n\r\n";

/// Whether the actor has this connection from now on. Reads of it fail that wait too long.
fn has(actor: &mut Actor, stream: Option<TcpStream>) -> bool {
    match stream {
        Some(stream) => {
            let is_patient = is_patient(&stream);
            actor.address = address_of(&stream);
            actor.stream = Some(stream);
            is_patient
        }
        None => false,
    }
}

/// The next connection of a listener, if it comes in time.
fn next_at<R: Clock + Drop>(ear: &Ear<R>, listener: &TcpListener) -> Option<TcpStream> {
    for _ in 0..TRIES {
        if let Ok((stream, _)) = listener.accept() {
            return Some(stream);
        }
        thread::sleep(&ear.rt, Duration::from_millis(10));
    }
    None
}

/// The next connection of a host, if it comes in time.
fn met<R: Clock + Drop>(ear: &Ear<R>, stage: &Stage, number: usize) -> Option<TcpStream> {
    let listener = stage.hosts.get(number)?;
    listener.set_nonblocking(true).ok()?;
    let stream = next_at(ear, listener)?;
    stream.set_nonblocking(false).ok()?;
    Some(stream)
}

/// Whether the actor hears notices at this name from now on.
fn listens<R: Drop>(ear: &Ear<R>, stage: &Stage, actor: &mut Actor, name: &str) -> bool {
    match filled(ear.alloc, &stage.ports, actor, name) {
        Some(name) => {
            actor.notices = notices::open(name.as_str());
            actor.notices.is_some()
        }
        None => false,
    }
}

/// Whether the next notice comes in time, and is this one.
fn is_next<R: Clock + Drop>(ear: &Ear<R>, socket: &OwnedFd, wanted: &str) -> bool {
    for _ in 0..TRIES {
        if let Some(is_wanted) = notices::heard(socket, wanted) {
            return is_wanted;
        }
        thread::sleep(&ear.rt, Duration::from_millis(10));
    }
    false
}

/// Whether the next notice that the actor hears is this one.
fn is_notified<R: Clock + Drop>(ear: &Ear<R>, stage: &Stage, actor: &Actor, text: &str) -> bool {
    match (&actor.notices, filled(ear.alloc, &stage.ports, actor, text)) {
        (Some(socket), Some(text)) => is_next(ear, socket, text.as_str()),
        _ => false,
    }
}

/// Whether the system is asked for this in time at the other end of a connection.
fn is_asked_in_time<R: Clock + Drop>(ear: &Ear<R>, stream: &TcpStream, asked: &Asked) -> bool {
    for _ in 0..TRIES {
        if is_asked_for(stream, asked) {
            return true;
        }
        thread::sleep(&ear.rt, Duration::from_millis(10));
    }
    false
}

/// Whether the system is asked for this in time at the other end of the actor's connection.
fn keeps<R: Clock + Drop>(ear: &Ear<R>, actor: &Actor, asked: &Asked) -> bool {
    match &actor.stream {
        Some(stream) => is_asked_in_time(ear, stream, asked),
        None => false,
    }
}

/// Whether the system keeps little from now on of what is sent to the actor.
fn is_choked(actor: &Actor) -> bool {
    match &actor.stream {
        Some(stream) => is_kept_little(stream),
        None => false,
    }
}

/// Whether standard error has room again.
fn empties(actor: &Actor) -> bool {
    match &actor.told {
        Some(told) => standard_error::empty(told),
        None => false,
    }
}

/// What a file has that an actor puts somewhere.
const KEPT: &[u8] = b"kept";

/// Whether a file is put at this path.
fn puts<R: SocketFiles + Drop>(ear: &Ear<R>, stage: &Stage, actor: &Actor, path: &str) -> bool {
    match filled(ear.alloc, &stage.ports, actor, path) {
        Some(path) => ear.rt.put(path.as_str(), KEPT).is_ok(),
        None => false,
    }
}

/// Whether what is at this path is as long as that file, and removed then.
fn finds<R: SocketFiles + Drop>(ear: &Ear<R>, stage: &Stage, actor: &Actor, path: &str) -> bool {
    let Some(path) = filled(ear.alloc, &stage.ports, actor, path) else {
        return false;
    };
    let is_there = match ear.rt.find(path.as_str()) {
        Ok(found) => found.len() == KEPT.len() as u64,
        Err(_) => false,
    };
    is_there && ear.rt.remove(path.as_str()).is_ok()
}

/// The port of this name, or 0.
fn port(stage: &Stage, name: &str) -> u16 {
    port_of(&stage.ports, name).unwrap_or(0)
}

/// Whether a step goes as it should.
fn does<R>(ear: &Ear<R>, stage: &Stage, actor: &mut Actor, step: &Step) -> bool
where
    R: Net<Stream = TcpStream, Listener = TcpListener> + SocketFiles + Wait + Clock + Drop,
{
    let port = port(stage, "full");
    match &mut actor.stream {
        Some(stream) => is_taken(ear, port, stream, step),
        None => false,
    }
}

/// Whether it is noted that this line has to come on standard error.
fn wants<R: Wait + Clock + Drop>(ear: &Ear<R>, stage: &Stage, actor: &Actor, text: &str) -> bool {
    match filled(ear.alloc, &stage.ports, actor, text) {
        Some(line) => write!(ear.wanted(), "{}\n", line.as_str()).is_ok(),
        None => false,
    }
}

/// Whether this text comes on standard error in time.
fn hears<R: Wait + Clock + Drop>(ear: &Ear<R>, stage: &Stage, actor: &Actor, text: &str) -> bool {
    match filled(ear.alloc, &stage.ports, actor, text) {
        Some(text) => ear.hears(text.as_str()),
        None => false,
    }
}

/// Whether a text is this one between bars.
fn is_between_bars(text: &str, wanted: &str) -> bool {
    let mut pieces = text.split('|');
    pieces.next() == Some("") && pieces.next() == Some(wanted) && pieces.next() == Some("")
}

/// Whether an operator's request is answered so.
fn is_obeyed<R>(ear: &Ear<R>, stage: &Stage, actor: &Actor, request: &str, wanted: &str) -> bool
where
    R: Net<Stream = TcpStream, Listener = TcpListener> + Drop,
{
    let request = filled(ear.alloc, &stage.ports, actor, request);
    let wanted = filled(ear.alloc, &stage.ports, actor, wanted);
    let (Some(request), Some(wanted)) = (request, wanted) else {
        return false;
    };
    match answer(ear, port(stage, "full"), request.as_str()) {
        Ok(answer) => is_between_bars(answer.as_str(), wanted.as_str()),
        Err(_) => false,
    }
}

/// An operator that says nothing, for as long as it is kept.
fn silent_operator<R>(ear: &Ear<R>, stage: &Stage) -> Option<UnixStream>
where
    R: Net<Stream = TcpStream, Listener = TcpListener> + Drop,
{
    connect_operator(ear, port(stage, "full")).ok()
}

/// Whether an operator is answered while another says nothing.
fn is_silent<R>(ear: &Ear<R>, stage: &Stage) -> bool
where
    R: Net<Stream = TcpStream, Listener = TcpListener> + Drop,
{
    let silent = silent_operator(ear, stage);
    match answer(ear, port(stage, "full"), "state\n") {
        Ok(answer) => silent.is_some() && answer.as_str().starts_with("|entry "),
        Err(_) => false,
    }
}

/// Whether the system refuses the run an operator's connection that isn't there.
fn hurries<R: Drop>(ear: &Ear<R>, stage: &Stage, actor: &Actor) -> bool {
    match filled(ear.alloc, &stage.ports, actor, "control-|full|") {
        Some(path) => is_hurried(path.as_str()),
        None => false,
    }
}

/// Whether a machine that asks for this path is told each of these parts in time.
fn reads<R>(ear: &Ear<R>, stage: &Stage, path: &str, parts: &[&str]) -> bool
where
    R: Net<Stream = TcpStream, Listener = TcpListener> + Wait + Clock + Drop,
{
    match format!(in ear.alloc; "GET {path} HTTP/1.1\r\nHost: leaf\r\n\r\n") {
        Ok(request) => is_told(ear, port(stage, "metrics"), request.as_str(), parts),
        Err(_) => false,
    }
}

/// Whether a request is put together by which a page of this origin opens a WebSocket at this host.
fn is_put(stage: &Stage, host: &str, origin: &str, out: &mut String) -> bool {
    let mut is_put = true;
    for part in [OPENS, host, FROM, origin, WITH_KEY] {
        is_put = is_put && is_filled(&stage.ports, part, out);
    }
    is_put
}

/// Whether a page of this origin that asks this host for a WebSocket over its connection is answered so.
fn opens<R: Drop>(
    ear: &Ear<R>,
    stage: &Stage,
    actor: &mut Actor,
    host: &str,
    origin: &str,
    status: &str,
) -> bool {
    let mut request = String::new(ear.alloc);
    match &mut actor.stream {
        Some(stream) => {
            is_put(stage, host, origin, &mut request)
                && sends(stream, request.as_bytes())
                && reads_up_to(ear, stream, status.as_bytes())
                && reads_up_to(ear, stream, HEAD_END)
        }
        None => false,
    }
}

/// Whether another run by this line tells this, and ends with this status.
fn runs<R>(ear: &Ear<R>, stage: &Stage, line: &str, told: &str, status: u8) -> bool
where
    R: Net<Stream = TcpStream, Listener = TcpListener>
        + Threads
        + Wait
        + Clock
        + RandomSource
        + SocketFiles
        + Copy
        + Drop
        + Send
        + 'static,
{
    let Ok(room) = Room::new(ear.alloc) else {
        return false;
    };
    let mut words = String::new(ear.alloc);
    is_filled(&stage.ports, line, &mut words)
        && status_of(ear.rt, ear.alloc, room, words.as_str()) == status
        && Ear::new(ear.rt, ear.alloc, room).has(told)
}

/// Whether a deed of an actor goes well that changes it.
fn is_moved<R>(ear: &Ear<R>, stage: &Stage, actor: &mut Actor, deed: &Deed) -> Option<bool>
where
    R: Net<Stream = TcpStream, Listener = TcpListener> + SocketFiles + Wait + Clock + Drop,
{
    match *deed {
        Deed::IsMet(number) => Some(has(actor, met(ear, stage, number))),
        Deed::Connects(name) => Some(has(actor, connect(ear, port(stage, name)))),
        Deed::ConnectsBeside(name) => Some(has(actor, connect_beside(ear, port(stage, name)))),
        Deed::ComesAfter(name, refusal) => {
            Some(has(
                actor,
                enters(ear, port(stage, name), VisitStart::HasPlace(refusal)),
            ))
        }
        Deed::Does(step) => Some(does(ear, stage, actor, &step)),
        Deed::Listens(name) => Some(listens(ear, stage, actor, name)),
        Deed::Fills => {
            actor.told = standard_error::fill();
            Some(actor.told.is_some())
        }
        Deed::Leaves => {
            actor.stream = None;
            actor.place = 0;
            Some(true)
        }
        Deed::Opens(host, origin, status) => Some(opens(ear, stage, actor, host, origin, status)),
        _ => None,
    }
}

/// Whether a deed of an actor goes well that leaves it as it is.
fn is_done<R>(ear: &Ear<R>, stage: &Stage, actor: &Actor, deed: &Deed) -> bool
where
    R: Net<Stream = TcpStream, Listener = TcpListener>
        + Threads
        + Wait
        + Clock
        + RandomSource
        + SocketFiles
        + Copy
        + Drop
        + Send
        + 'static,
{
    match *deed {
        Deed::IsClosed(name) => is_closed_here(ear, port(stage, name)),
        Deed::IsClosedBeside(name) => is_closed_beside(ear, port(stage, name)),
        Deed::Wants(text) => wants(ear, stage, actor, text),
        Deed::IsTold(text) => hears(ear, stage, actor, text),
        Deed::IsObeyed(request, wanted) => is_obeyed(ear, stage, actor, request, wanted),
        Deed::IsSilent => is_silent(ear, stage),
        Deed::Hurries => hurries(ear, stage, actor),
        Deed::Sees(begins, part) => {
            is_standing(ear, &stage.ports, actor, port(stage, "full"), begins, part)
        }
        Deed::Reads(path, parts) => reads(ear, stage, path, parts),
        Deed::IsNotified(text) => is_notified(ear, stage, actor, text),
        Deed::Keeps(asked) => keeps(ear, actor, &asked),
        Deed::Empties => empties(actor),
        Deed::IsKeptLittle => is_choked(actor),
        Deed::Puts(path) => puts(ear, stage, actor, path),
        Deed::Finds(path) => finds(ear, stage, actor, path),
        Deed::Runs(line, told, status) => runs(ear, stage, line, told, status),
        _ => false,
    }
}

/// Whether a deed of the actor of this number goes well.
fn goes_well<R>(ear: &Ear<R>, stage: &Stage, actors: &mut [Actor], who: usize, deed: &Deed) -> bool
where
    R: Net<Stream = TcpStream, Listener = TcpListener>
        + Threads
        + Wait
        + Clock
        + RandomSource
        + SocketFiles
        + Copy
        + Drop
        + Send
        + 'static,
{
    if let Deed::HasPlace(role, places, way) = *deed {
        return has_place(ear, actors, who, role, places, way);
    }
    let Some(actor) = actors.get_mut(who) else {
        return false;
    };
    match is_moved(ear, stage, actor, deed) {
        Some(is_right) => is_right,
        None => is_done(ear, stage, actor, deed),
    }
}

/// Whether each of these deeds of an actor goes well.
fn go_well<R>(ear: &Ear<R>, stage: &Stage, actors: &mut [Actor], who: usize, deeds: &[Deed]) -> bool
where
    R: Net<Stream = TcpStream, Listener = TcpListener>
        + Threads
        + Wait
        + Clock
        + RandomSource
        + SocketFiles
        + Copy
        + Drop
        + Send
        + 'static,
{
    let mut are_right = true;
    for deed in deeds {
        are_right = are_right && goes_well(ear, stage, actors, who, deed);
    }
    are_right
}

/// Whether an act goes well.
pub(crate) fn is_act_right<R>(ear: &Ear<R>, stage: &Stage, actors: &mut [Actor], act: &Act) -> bool
where
    R: Net<Stream = TcpStream, Listener = TcpListener>
        + Threads
        + Wait
        + Clock
        + RandomSource
        + SocketFiles
        + Copy
        + Drop
        + Send
        + 'static,
{
    let mut is_right = true;
    for who in act.who {
        is_right = is_right && go_well(ear, stage, actors, *who, act.deeds);
    }
    is_right
}
