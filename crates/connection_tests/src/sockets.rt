//! Connections over loopback, and a seat.

use connections::Seat;
use std::alloc::Global;
use std::io;
use std::io::{Read, Write};
use std::net::{Ipv4Addr, SocketAddr, TcpListener, TcpStream};
use std::sync::Arc;
use std::time::Duration;

/// The version of both sides (RFC 6143, 7.1.1).
pub(crate) const VERSION: &[u8] = b"RFB 003.008\n";

/// A read that waits for this many seconds has failed.
pub(crate) const LONG: u64 = 20;

/// More bytes than a viewer is told.
const MOST: usize = 128;

pub(crate) fn listen(rt: &HostRuntime) -> io::Result<TcpListener> {
    TcpListener::bind(rt, SocketAddr::from((Ipv4Addr::LOCALHOST, 0)))
}

pub(crate) fn connect(rt: &HostRuntime, address: SocketAddr) -> io::Result<TcpStream> {
    let stream = TcpStream::connect(rt, address)?;
    stream.set_read_timeout(Some(Duration::from_secs(LONG)))?;
    Ok(stream)
}

/// A newcomer that connects and sends its version.
pub(crate) fn come(rt: &HostRuntime, address: SocketAddr) -> io::Result<TcpStream> {
    let mut stream = connect(rt, address)?;
    stream.write_all(VERSION)?;
    Ok(stream)
}

/// Whether a viewer is told these bytes next. As many are read.
pub(crate) fn hears(stream: &mut TcpStream, wanted: &[u8]) -> io::Result<bool> {
    let mut told = [0u8; MOST];
    let Some(room) = told.get_mut(..wanted.len()) else {
        return Ok(false);
    };
    stream.read_exact(room)?;
    Ok(told.get(..wanted.len()) == Some(wanted))
}

/// The two ends of a connection: the one that connected, and the one that was accepted.
pub(crate) fn pair(rt: &HostRuntime) -> io::Result<(TcpStream, TcpStream)> {
    let listener = listen(rt)?;
    let far = connect(rt, listener.local_addr()?)?;
    let (near, _) = listener.accept()?;
    Ok((far, near))
}

pub(crate) fn make_seat(rt: &HostRuntime) -> io::Result<Arc<Seat, Global>> {
    let seat = Seat::new(rt, rt.alloc())?;
    Ok(Arc::new(rt.alloc(), seat)?)
}
