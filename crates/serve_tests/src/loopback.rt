//! Sockets of loopback, and what is sent through them.

use std::io::{ErrorKind, Read, Write};
use std::net::{Ipv4Addr, Net, SocketAddr, TcpListener, TcpStream};
use std::time::{Clock, Duration};
use std::{io, thread};

/// A version of the protocol, as each end gives it (RFC 6143, 7.1.1).
pub(crate) const VERSION: &[u8] = b"RFB 003.008\n";

/// One update of 2 by 1, Raw: red and blue (RFC 6143, 7.6.1 and 7.7.1).
pub(crate) const RED_AND_BLUE: &[u8; 24] =
    b"\0\0\0\x01\0\0\0\0\0\x02\0\x01\0\0\0\0\0\0\xFF\0\xFF\0\0\0";

/// A read that waits for this many seconds has failed.
const LONG: u64 = 20;

/// A connection is tried this often, each time after ten milliseconds.
const TRIES: u64 = 1_000;

/// At most this many bytes come at once.
pub(crate) const MOST: usize = 64;

/// Update n: colour n all over.
pub(crate) fn update(n: u16) -> [u8; 24] {
    let mut update = *RED_AND_BLUE;
    let [low, high] = n.to_le_bytes();
    update[16] = low;
    update[17] = high;
    update[18] = 0;
    update[20] = low;
    update[21] = high;
    update
}

/// Listens at a port that is free.
pub(crate) fn listen<R: Net<Stream = TcpStream, Listener = TcpListener>>(
    rt: &R,
) -> io::Result<TcpListener> {
    TcpListener::bind(rt, SocketAddr::from((Ipv4Addr::LOCALHOST, 0)))
}

/// The port at which it listens, or 0 where that isn't known.
pub(crate) fn port_at(listener: &TcpListener) -> u16 {
    match listener.local_addr() {
        Ok(address) => address.port(),
        Err(_) => 0,
    }
}

/// A port that is free now, or 0 where there is none.
pub(crate) fn free_port<R: Net<Stream = TcpStream, Listener = TcpListener>>(rt: &R) -> u16 {
    match listen(rt) {
        Ok(listener) => port_at(&listener),
        Err(_) => 0,
    }
}

/// Connects as soon as a program listens at this address.
fn connect_to<R: Net<Stream = TcpStream> + Clock>(
    rt: &R,
    address: SocketAddr,
) -> Option<TcpStream> {
    for _ in 0..TRIES {
        if let Ok(stream) = TcpStream::connect(rt, address) {
            let _ = is_patient(&stream);
            return Some(stream);
        }
        thread::sleep(rt, Duration::from_millis(10));
    }
    None
}

/// Connects as soon as a program listens at the port.
pub(crate) fn connect<R: Net<Stream = TcpStream> + Clock>(rt: &R, port: u16) -> Option<TcpStream> {
    connect_to(rt, SocketAddr::from((Ipv4Addr::LOCALHOST, port)))
}

/// Another address of this machine, with this port.
fn beside(port: u16) -> SocketAddr {
    SocketAddr::from((Ipv4Addr::new(127, 0, 0, 2), port))
}

/// Connects as soon as a program listens at the port on another address of this machine.
pub(crate) fn connect_beside<R: Net<Stream = TcpStream> + Clock>(
    rt: &R,
    port: u16,
) -> Option<TcpStream> {
    connect_to(rt, beside(port))
}

/// Whether reads of this connection fail that wait too long, from now on.
pub(crate) fn is_patient(stream: &TcpStream) -> bool {
    stream
        .set_read_timeout(Some(Duration::from_secs(LONG)))
        .is_ok()
}

/// From where it comes.
pub(crate) fn address_of(stream: &TcpStream) -> SocketAddr {
    match stream.local_addr() {
        Ok(address) => address,
        Err(_) => SocketAddr::from((Ipv4Addr::UNSPECIFIED, 0)),
    }
}

/// Whether these bytes are sent.
pub(crate) fn sends(stream: &mut TcpStream, bytes: &[u8]) -> bool {
    stream.write_all(bytes).is_ok()
}

/// Whether these bytes come next.
pub(crate) fn hears(stream: &mut TcpStream, wanted: &[u8]) -> bool {
    let mut told = [0u8; MOST];
    match told.get_mut(..wanted.len()) {
        Some(told) => stream.read_exact(told).is_ok() && &*told == wanted,
        None => false,
    }
}

/// Whether this request is answered by so many bytes, which are read.
pub(crate) fn asks(stream: &mut TcpStream, request: &[u8], answer: &mut [u8]) -> bool {
    sends(stream, request) && stream.read_exact(answer).is_ok()
}

/// Whether nothing listens at this address.
fn is_closed<R: Net<Stream = TcpStream>>(rt: &R, address: SocketAddr) -> bool {
    match TcpStream::connect(rt, address) {
        Ok(_) => false,
        Err(error) => error.kind() == ErrorKind::ConnectionRefused,
    }
}

/// Whether nothing listens at this port on another address of this machine.
pub(crate) fn is_closed_beside<R: Net<Stream = TcpStream>>(rt: &R, port: u16) -> bool {
    is_closed(rt, beside(port))
}

/// Whether nothing listens at this port in time.
pub(crate) fn is_closed_here<R: Net<Stream = TcpStream> + Clock>(rt: &R, port: u16) -> bool {
    let address = SocketAddr::from((Ipv4Addr::LOCALHOST, port));
    for _ in 0..TRIES {
        if is_closed(rt, address) {
            return true;
        }
        thread::sleep(rt, Duration::from_millis(10));
    }
    false
}
