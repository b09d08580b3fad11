//! Newcomers at a port, which aren't viewers yet: some leave, some are silent, and some come through a proxy.

use crate::house::{GREETING, House};
use crate::sockets::{LONG, VERSION, hears};
use connections::MOST_GUESTS;
use std::io;
use std::io::{ErrorKind, Read, Write};
use std::net::{Ipv4Addr, SocketAddr, TcpStream};
use std::sync::Wait;
use std::time::{Clock, Duration};

/// The header of a proxy (the PROXY protocol, 2.2) that was connected to from 192.0.2.7, port 4711.
const HEADER: &[u8] =
    b"\r\n\r\n\0\r\nQUIT\n\x21\x11\0\x0C\xC0\0\x02\x07\x0A\0\0\x01\x12\x67\x17\x0C";

/// That of a proxy that speaks for itself.
const LOCAL: &[u8] = b"\r\n\r\n\0\r\nQUIT\n\x20\0\0\0";

/// More than a newcomer may take, in milliseconds.
const TOO_LONG: u64 = 10_000;

/// A newcomer that sends nothing makes room for others after this time, in milliseconds.
const A_SECOND: u64 = 1_000;

/// Whether this newcomer is greeted as a viewer, and named by its own address.
fn is_itself<R: Wait + Drop>(house: &House<'_, R>, viewer: &mut TcpStream) -> io::Result<bool> {
    let is_greeted = hears(viewer, GREETING)?;
    Ok(is_greeted && house.has_come(viewer.local_addr()?))
}

/// Whether this newcomer is let go without a further byte.
fn is_let_go(viewer: &mut TcpStream) -> bool {
    match viewer.read(&mut [0]) {
        Ok(count) => count == 0,
        Err(error) => error.kind() == ErrorKind::ConnectionReset,
    }
}

/// A newcomer that sends these bytes.
fn begin<R: Wait + Drop>(house: &House<'_, R>, bytes: &[u8]) -> io::Result<TcpStream> {
    let mut stream = house.connect()?;
    stream.write_all(bytes)?;
    Ok(stream)
}

/// A newcomer sends these bytes and then leaves. It answers whether the newcomer was told the version.
fn leaves_after<R: Wait + Drop>(house: &House<'_, R>, bytes: &[u8]) -> io::Result<bool> {
    let mut stream = begin(house, bytes)?;
    hears(&mut stream, VERSION)
}

/// Whether a silent newcomer takes no place and writes no line, and is let go once its time is over.
fn silent_one_is_let_go<R: Wait + Drop>(house: &House<'_, R>) -> io::Result<bool> {
    let mut silent = house.connect()?;
    let is_told = hears(&mut silent, VERSION)?;
    let is_quiet = house.is_quiet();
    house.pass(TOO_LONG);
    Ok(is_told && is_quiet && is_let_go(&mut silent) && house.is_quiet())
}

/// Whether newcomers that leave before their own version is whole take no place and write no line, and a silent one is
/// let go; then one that sends its version is greeted.
pub(crate) fn checks_leave_nothing<R: Wait + Drop>(house: &House<'_, R>) -> io::Result<bool> {
    let are_told = leaves_after(house, b"")? && leaves_after(house, b"RFB 003")?;
    let is_gone = silent_one_is_let_go(house)?;
    let mut viewer = house.come()?;
    Ok(is_itself(house, &mut viewer)? && are_told && is_gone)
}

/// As many newcomers as a port keeps. They send nothing.
fn make_crowd<R: Wait + Drop>(house: &House<'_, R>) -> io::Result<Vec<TcpStream>> {
    let mut crowd = Vec::new(house.net.alloc());
    for _ in 0..MOST_GUESTS {
        crowd.push(house.connect()?)?;
    }
    Ok(crowd)
}

/// Whether a newcomer that comes once each of these was told the version is greeted after a second.
fn is_greeted_behind<R: Wait + Drop>(
    house: &House<'_, R>,
    crowd: &mut [TcpStream],
) -> io::Result<bool> {
    for stream in crowd {
        stream.read_exact(&mut [0u8; 12])?;
    }
    let mut viewer = house.come()?;
    house.pass(A_SECOND);
    is_itself(house, &mut viewer)
}

/// Whether a newcomer is greeted though silent ones fill the port, once those have been there for a second.
pub(crate) fn silent_ones_make_room<R: Wait + Drop>(house: &House<'_, R>) -> io::Result<bool> {
    let mut crowd = make_crowd(house)?;
    let is_greeted = is_greeted_behind(house, crowd.as_mut_slice());
    drop(crowd);
    is_greeted
}

/// Whether a newcomer from the proxy that sends no header is let go without a version.
fn liar_is_refused<R: Wait + Drop>(house: &House<'_, R>) -> io::Result<bool> {
    let mut liar = begin(house, VERSION)?;
    Ok(is_let_go(&mut liar) && house.have_lacked(1))
}

/// Whether the viewer that is there has this address at the desk.
fn is_at_the_desk<R: Wait + Clock + Drop>(
    house: &House<'_, R>,
    address: SocketAddr,
) -> io::Result<bool> {
    let run_card = house.lobby.desk().look(&house.log.rt, house.net.alloc())?;
    let is_seen = match run_card.viewers.first() {
        Some(viewer) => viewer.comer.address == Some(address),
        None => false,
    };
    Ok(is_seen)
}

/// Whether a newcomer through the proxy is named by its header.
fn is_named_by_its_header<R: Wait + Clock + Drop>(house: &House<'_, R>) -> io::Result<bool> {
    let named = SocketAddr::from((Ipv4Addr::new(192, 0, 2, 7), 4711));
    let mut viewer = house.come_behind(HEADER)?;
    let is_greeted = hears(&mut viewer, GREETING)?;
    Ok(is_at_the_desk(house, named)? && is_greeted && house.has_come(named))
}

/// Whether a proxy that speaks for itself is named by its own address, once the viewer before has left.
fn proxy_is_itself<R: Wait + Clock + Drop>(house: &House<'_, R>) -> io::Result<bool> {
    house
        .lobby
        .await_empty(&house.log.rt, Duration::from_secs(LONG));
    let mut check = house.come_behind(LOCAL)?;
    is_itself(house, &mut check)
}

/// Whether a newcomer through the proxy is named by its header, and a proxy that speaks for itself by its own address.
/// Bytes that are no header are refused without a version, and a newcomer with half a header is let go in time.
pub(crate) fn headers_are_believed<R: Wait + Clock + Drop>(
    house: &House<'_, R>,
) -> io::Result<bool> {
    let is_refused = liar_is_refused(house)?;
    drop(house.connect()?);
    let (begun, _) = HEADER.split_at(20);
    let mut half = begin(house, begun)?;
    let is_named = is_named_by_its_header(house);
    house.pass(TOO_LONG);
    let is_gone = is_let_go(&mut half) && house.have_lacked(2);
    drop(half);
    Ok(is_refused && is_named? && is_gone && proxy_is_itself(house)?)
}

/// Whether a header isn't believed of a peer that isn't the proxy: its first bytes are taken for a version, and the
/// newcomer is named by its own address.
pub(crate) fn header_of_another_is_no_header<R: Wait + Drop>(
    house: &House<'_, R>,
) -> io::Result<bool> {
    let mut viewer = begin(house, HEADER)?;
    is_itself(house, &mut viewer)
}
