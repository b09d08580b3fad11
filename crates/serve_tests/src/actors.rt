//! Those who have to do with a run, each with a connection at most, and the texts in which they name themselves.

use crate::room::Ear;
use crate::scene::{PORTS, is_filled, port_of};
use std::alloc::{AllocError, Global};
use std::net::{Ipv4Addr, SocketAddr, TcpStream};
use std::os::fd::OwnedFd;
use std::sync::Wait;
use std::time::Clock;

/// How many actors a play has at most.
const ACTORS: usize = 12;

/// How a text names the address of the actor that says it, and the number of the actor's place.
const ADDRESS: &str = "me";

const PLACE: &str = "place";

/// A host, a viewer, a browser, a machine, an operator or systemd.
#[derive(Drop)]
pub(crate) struct Actor {
    pub(crate) stream: Option<TcpStream>,
    /// Where it hears notices.
    pub(crate) notices: Option<OwnedFd>,
    /// Where standard error could be read, if the actor has put a socket in its place.
    pub(crate) told: Option<OwnedFd>,
    /// From where it comes.
    pub(crate) address: SocketAddr,
    /// The number of its place, or 0 where it has none.
    pub(crate) place: u64,
}

/// Actors that have done nothing yet.
pub(crate) fn make_actors(alloc: Global) -> Result<Vec<Actor>, AllocError> {
    let mut actors = Vec::new(alloc);
    for _ in 0..ACTORS {
        actors.push(Actor {
            stream: None,
            notices: None,
            told: None,
            address: SocketAddr::from((Ipv4Addr::UNSPECIFIED, 0)),
            place: 0,
        })?;
    }
    Ok(actors)
}

/// Whether none of these has this place.
fn is_free(actors: &[Actor], place: u64) -> bool {
    let mut is_free = true;
    for actor in actors {
        is_free = is_free && actor.place != place;
    }
    is_free
}

/// Whether a piece of a text is added, in which the actor names itself and the ports.
fn is_named(ports: &[u16; PORTS], actor: &Actor, piece: &str, out: &mut String) -> bool {
    if piece == ADDRESS {
        write!(out, "{}", actor.address).is_ok()
    } else if piece == PLACE {
        write!(out, "{}", actor.place).is_ok()
    } else if port_of(ports, piece).is_some() {
        write!(out, "|{piece}|").is_ok()
    } else {
        out.push_str(piece).is_ok()
    }
}

/// Whether an actor's text is added, in which the names of ports stand between bars as before.
fn is_spoken(ports: &[u16; PORTS], actor: &Actor, text: &str, out: &mut String) -> bool {
    let mut is_spoken = true;
    for piece in text.split('|') {
        is_spoken = is_spoken && is_named(ports, actor, piece, out);
    }
    is_spoken
}

/// An actor's text, with its address, its place and the ports.
pub(crate) fn filled(
    alloc: Global,
    ports: &[u16; PORTS],
    actor: &Actor,
    text: &str,
) -> Option<String> {
    let mut spoken = String::new(alloc);
    let mut out = String::new(alloc);
    if is_spoken(ports, actor, text, &mut spoken) && is_filled(ports, spoken.as_str(), &mut out) {
        Some(out)
    } else {
        None
    }
}

/// Whether the log says that a viewer from there has this place.
fn says<R: Wait + Clock + Drop>(
    ear: &Ear<R>,
    place: u64,
    role: &str,
    address: SocketAddr,
    way: &str,
) -> bool {
    match format!(in ear.alloc; "viewer-in place={place} role={role} address={address}{way}\n") {
        Ok(line) => ear.has(line.as_str()),
        Err(_) => false,
    }
}

/// The place that a viewer from there has, of these, by the log. No other actor has it.
fn place_of<R: Wait + Clock + Drop>(
    ear: &Ear<R>,
    actors: &[Actor],
    role: &str,
    places: &[u64],
    address: SocketAddr,
    way: &str,
) -> Option<u64> {
    for place in places {
        if says(ear, *place, role, address, way) && is_free(actors, *place) {
            return Some(*place);
        }
    }
    None
}

/// Whether the log tells in time that this actor has one of these places of this role, which no other actor has.
pub(crate) fn has_place<R: Wait + Clock + Drop>(
    ear: &Ear<R>,
    actors: &mut [Actor],
    who: usize,
    role: &str,
    places: &[u64],
    way: &str,
) -> bool {
    let Some(actor) = actors.get(who) else {
        return false;
    };
    let address = actor.address;
    if !ear.hears_of(" address=", address, way) {
        return false;
    }
    let place = place_of(ear, actors, role, places, address, way);
    match (place, actors.get_mut(who)) {
        (Some(place), Some(actor)) => {
            actor.place = place;
            true
        }
        _ => false,
    }
}
