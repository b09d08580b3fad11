//! Sockets of loopback, and what is sent through them.

use std::io::{Read, Write};
use std::net::{Ipv4Addr, SocketAddr, TcpListener, TcpStream};
use std::time::Duration;
use std::{io, thread};

/// A read that waits for this many seconds has failed.
const LONG: u64 = 20;

/// A connection is tried this often, each time after ten milliseconds.
const TRIES: u64 = 1_000;

/// At most this many bytes are compared at once.
const MOST: usize = 64;

/// Listens at a port that is free.
pub(crate) fn listen(net: &HostRuntime) -> io::Result<TcpListener> {
    TcpListener::bind(net, SocketAddr::from((Ipv4Addr::LOCALHOST, 0)))
}

/// The port at which it listens, or 0 where that isn't known.
pub(crate) fn port_at(listener: &TcpListener) -> u16 {
    match listener.local_addr() {
        Ok(address) => address.port(),
        Err(_) => 0,
    }
}

/// A port that is free now, or 0 where there is none.
pub(crate) fn free_port(net: &HostRuntime) -> u16 {
    match listen(net) {
        Ok(listener) => port_at(&listener),
        Err(_) => 0,
    }
}

/// This connection, of which reads fail that wait too long.
fn patient(stream: TcpStream) -> Option<TcpStream> {
    match stream.set_read_timeout(Some(Duration::from_secs(LONG))) {
        Ok(()) => Some(stream),
        Err(_) => None,
    }
}

/// The next connection of a listener.
pub(crate) fn accept(listener: &TcpListener) -> Option<TcpStream> {
    match listener.accept() {
        Ok((stream, _)) => patient(stream),
        Err(_) => None,
    }
}

/// Connects as soon as a program listens at the port.
pub(crate) fn connect(net: &HostRuntime, port: u16) -> Option<TcpStream> {
    let address = SocketAddr::from((Ipv4Addr::LOCALHOST, port));
    for _ in 0..TRIES {
        if let Ok(stream) = TcpStream::connect(net, address) {
            return patient(stream);
        }
        thread::sleep(net, Duration::from_millis(10));
    }
    None
}

/// The two ends of a connection: the one that connected, and the one that was accepted.
pub(crate) fn pair(net: &HostRuntime) -> Option<(TcpStream, TcpStream)> {
    let listener = listen(net).ok()?;
    let far = connect(net, port_at(&listener))?;
    let near = accept(&listener)?;
    Some((far, near))
}

/// Whether these bytes are sent.
pub(crate) fn sends(stream: &mut TcpStream, bytes: &[u8]) -> bool {
    stream.write_all(bytes).is_ok()
}

/// Whether this many bytes come next, which are read.
pub(crate) fn reads(stream: &mut TcpStream, into: &mut [u8]) -> bool {
    stream.read_exact(into).is_ok()
}

/// Whether these bytes come next.
pub(crate) fn hears(stream: &mut TcpStream, wanted: &[u8]) -> bool {
    let mut told = [0u8; MOST];
    match told.get_mut(..wanted.len()) {
        Some(told) => reads(stream, told) && &*told == wanted,
        None => false,
    }
}

/// Whether nothing more comes: the connection has ended.
pub(crate) fn is_let_go(stream: &mut TcpStream) -> bool {
    matches!(stream.read(&mut [0]), Ok(0))
}
