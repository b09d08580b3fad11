//! Viewers that come in, are turned away, and leave.

use crate::house::{GREETING, House};
use crate::sockets::hears;
use connections::MOST_GUESTS;
use std::io;
use std::io::ErrorKind;
use std::net::TcpStream;
use std::sync::Wait;

/// More newcomers than a port keeps.
const MANY: usize = MOST_GUESTS + 2;

/// Version 3.8, no security type, and the reason with its length (RFC 6143, 7.1.1 and 7.1.2).
pub(crate) const REFUSAL: &[u8] = b"RFB 003.008\n\x00\x00\x00\x00\x14all places are taken";

/// Whether a viewer that comes is told these bytes. All bytes of a refusal are read.
pub(crate) fn is_told<R: Wait + Drop>(house: &House<'_, R>, wanted: &[u8]) -> io::Result<bool> {
    let mut viewer = house.come()?;
    hears(&mut viewer, wanted)
}

/// A viewer that comes is told these bytes, and stays. It fails where the viewer is told others.
fn stays<R: Wait + Drop>(house: &House<'_, R>, wanted: &[u8]) -> io::Result<TcpStream> {
    let mut viewer = house.come()?;
    if hears(&mut viewer, wanted)? {
        Ok(viewer)
    } else {
        Err(io::Error::from(ErrorKind::NotFound))
    }
}

/// One viewer comes in, and many others are told why they can't. Those stay when the first has left, and say nothing.
fn many_are_refused<R: Wait + Drop>(house: &House<'_, R>) -> io::Result<Vec<TcpStream>> {
    let first = stays(house, GREETING)?;
    let mut many = Vec::new(house.net.alloc());
    for _ in 0..MANY {
        many.push(stays(house, REFUSAL)?)?;
    }
    drop(first);
    Ok(many)
}

/// Whether a viewer that comes is greeted, perhaps after others that came before the place was seen to be free.
fn is_free_at_last<R: Wait + Drop>(house: &House<'_, R>) -> io::Result<bool> {
    for _ in 0..1_000 {
        if is_told(house, GREETING)? {
            return Ok(true);
        }
    }
    Ok(false)
}

/// While one viewer is there others are refused, and once the first has left there is a place again. A viewer that
/// comes before the place is seen to be free is told a reason after the version.
pub(crate) fn place_is_free_again<R: Wait + Drop>(house: &House<'_, R>) -> io::Result<bool> {
    let many = many_are_refused(house)?;
    let is_free = is_free_at_last(house);
    drop(many);
    is_free
}
