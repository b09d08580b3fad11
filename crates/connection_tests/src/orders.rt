//! What an operator asks while viewers come: no viewer is let in, one is sent away, and all are.

use crate::doors::{REFUSAL, is_told};
use crate::house::{GREETING, House};
use crate::sockets::{VERSION, hears};
use run_control::{Entry, Outcome, Request};
use std::io;
use std::io::Read;
use std::net::TcpStream;
use std::sync::Wait;

/// What a viewer is told while no viewer is let in: version 3.8, no security type, and the reason with its length (RFC
/// 6143, 7.1.1 and 7.1.2).
const NO_ENTRY: &[u8] = b"RFB 003.008\n\0\0\0\0\x13no viewer is let in";

/// Whether a viewer that comes is greeted, and let go once the operator asks this.
fn stays_until<R: Wait + Drop>(house: &House<'_, R>, request: Request) -> io::Result<bool> {
    let mut viewer = house.come()?;
    let is_greeted = hears(&mut viewer, GREETING)?;
    let is_there = house.free() == 0;
    let is_done = house.ask(request) == Outcome::Done;
    let is_gone = viewer.read(&mut [0])? == 0;
    Ok(is_greeted && is_there && is_done && is_gone)
}

/// No viewer is let in while the doors are drained. Then one is sent away, and the next finds a place, too. After a
/// stop no viewer is let in any more.
pub(crate) fn orders_are_obeyed<R: Wait + Drop>(house: &House<'_, R>) -> io::Result<bool> {
    let is_drained = house.ask(Request::Drain) == Outcome::Done;
    let is_closed = is_told(house, NO_ENTRY)? && is_told(house, NO_ENTRY)?;
    let is_opened = house.ask(Request::Undrain) == Outcome::Done;
    let are_sent = stays_until(house, Request::End(1))?
        && stays_until(house, Request::End(1))?
        && stays_until(house, Request::Stop)?;
    let is_none = house.ask(Request::End(2)) == Outcome::NoPlace;
    let is_over = house.ask(Request::Undrain) == Outcome::Ending
        && house.lobby.desk().entry(&house.log.rt) == Entry::Closed
        && is_told(house, NO_ENTRY)?;
    Ok(is_drained && is_closed && is_opened && are_sent && is_none && is_over)
}

/// A newcomer that is on its way to the one place: the next one finds none.
fn on_its_way<R: Wait + Drop>(house: &House<'_, R>) -> io::Result<TcpStream> {
    let mut first = house.come()?;
    if hears(&mut first, VERSION)? && is_told(house, REFUSAL)? {
        Ok(first)
    } else {
        Err(io::Error::from(io::ErrorKind::NotFound))
    }
}

/// The next viewer that is greeted.
fn next_greeted<R: Wait + Drop>(house: &House<'_, R>) -> io::Result<TcpStream> {
    for _ in 0..1_000 {
        let mut viewer = house.come()?;
        if hears(&mut viewer, GREETING)? {
            return Ok(viewer);
        }
    }
    Err(io::Error::from(io::ErrorKind::NotFound))
}

/// The doors are drained while a viewer is on its way to the place: it is let go. Then its place is free again, once:
/// the next viewer has it, and another finds none.
pub(crate) fn drained_one_gives_its_place_back<R: Wait + Drop>(
    house: &House<'_, R>,
) -> io::Result<bool> {
    let mut first = on_its_way(house)?;
    let is_drained = house.ask(Request::Drain) == Outcome::Done;
    house.open();
    let is_gone = first.read(&mut [0])? == 0;
    let is_opened = house.ask(Request::Undrain) == Outcome::Done;
    let next = next_greeted(house)?;
    let is_full = is_told(house, REFUSAL)? && is_told(house, REFUSAL)?;
    drop(next);
    Ok(is_drained && is_gone && is_opened && is_full)
}
