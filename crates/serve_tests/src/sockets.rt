//! What the system was asked for at the other end of a connection, which `serve` has in the same process, and what it
//! refuses where `serve` listens.

use libc::net as c;
use std::net::{Ipv4Addr, SocketAddr, TcpStream};
use std::os::fd::AsRawFd;

/// The descriptors among which the other end is looked for.
const MOST_DESCRIPTORS: i32 = 1_024;

/// The bytes of an address of IPv4 in C's `sockaddr_in`: its family, its port and the address.
const ADDRESS: usize = 8;

/// What was asked for: whether a silent peer is asked whether it is there, after how many seconds, how many seconds
/// apart and how often; for how many milliseconds bytes may stay unconfirmed; and whether bytes go out at once.
pub(crate) type Asked = [u32; 6];

/// An address as `sockaddr_in` has it.
fn raw_of(address: SocketAddr) -> [u8; ADDRESS] {
    let [family, no_family] = (c::AF_INET as u16).to_ne_bytes();
    let [high, low] = address.port().to_be_bytes();
    let [a, b, d, e] = match address {
        SocketAddr::V4(address) => address.ip().octets(),
        SocketAddr::V6(_) => Ipv4Addr::UNSPECIFIED.octets(),
    };
    [family, no_family, high, low, a, b, d, e]
}

/// Whether this descriptor is a connection from this address.
fn is_from(fd: i32, address: &[u8; ADDRESS]) -> bool {
    let mut raw = [0u8; c::_SS_SIZE];
    let mut len: u32 = 128;
    let status = unsafe { c::getsockname(fd, &mut raw, &mut len) };
    status == 0 && raw.starts_with(address)
}

/// Whether this descriptor is a connection to an address that begins so.
fn is_to(fd: i32, address: &[u8]) -> bool {
    let mut raw = [0u8; c::_SS_SIZE];
    let mut len: u32 = 128;
    let status = unsafe { c::getpeername(fd, &mut raw, &mut len) };
    status == 0 && raw.starts_with(address)
}

/// The number that an option has, which was asked for with this status.
fn number(status: i32, value: &[u8; 16]) -> u32 {
    let [a, b, d, e, ..] = *value;
    if status == 0 {
        u32::from_ne_bytes([a, b, d, e])
    } else {
        u32::MAX
    }
}

/// After how many seconds a silent peer of this descriptor is asked whether it is there, how many seconds apart and how
/// often.
fn questions(fd: i32) -> [u32; 3] {
    let mut value = [0u8; 16];
    let mut len: u32 = 4;
    let idle = unsafe { c::getsockopt(fd, c::IPPROTO_TCP, c::TCP_KEEPIDLE, &mut value, &mut len) };
    let idle = number(idle, &value);
    len = 4;
    let between = unsafe {
        c::getsockopt(fd, c::IPPROTO_TCP, c::TCP_KEEPINTVL, &mut value, &mut len)
    };
    let between = number(between, &value);
    len = 4;
    let times = unsafe { c::getsockopt(fd, c::IPPROTO_TCP, c::TCP_KEEPCNT, &mut value, &mut len) };
    [idle, between, number(times, &value)]
}

/// Whether a silent peer of this descriptor is asked at all, for how many milliseconds bytes may stay unconfirmed, and
/// whether bytes go out at once.
fn others(fd: i32) -> [u32; 3] {
    let mut value = [0u8; 16];
    let mut len: u32 = 4;
    let asks = unsafe { c::getsockopt(fd, c::SOL_SOCKET, c::SO_KEEPALIVE, &mut value, &mut len) };
    let asks = number(asks, &value);
    len = 4;
    let stalled = unsafe {
        c::getsockopt(
            fd,
            c::IPPROTO_TCP,
            c::TCP_USER_TIMEOUT,
            &mut value,
            &mut len,
        )
    };
    let stalled = number(stalled, &value);
    len = 4;
    let at_once = unsafe {
        c::getsockopt(fd, c::IPPROTO_TCP, c::TCP_NODELAY, &mut value, &mut len)
    };
    [asks, stalled, number(at_once, &value)]
}

/// Whether this descriptor is the other end of a connection between these addresses.
fn is_other_end(fd: i32, here: &[u8; ADDRESS], there: &[u8; ADDRESS]) -> bool {
    is_from(fd, there) && is_to(fd, here)
}

/// The descriptor of the other end of a connection between these addresses.
fn other_end(here: SocketAddr, there: SocketAddr) -> Option<i32> {
    let here = raw_of(here);
    let there = raw_of(there);
    for fd in 0..MOST_DESCRIPTORS {
        if is_other_end(fd, &here, &there) {
            return Some(fd);
        }
    }
    None
}

/// Whether the system keeps as little as it can from now on of what the other end of a connection sends and this one
/// doesn't take.
pub(crate) fn is_kept_little(stream: &TcpStream) -> bool {
    let (Ok(here), Ok(there)) = (stream.local_addr(), stream.peer_addr()) else {
        return false;
    };
    let Some(far) = other_end(here, there) else {
        return false;
    };
    let none = [0u8; 16];
    let sent = unsafe { c::setsockopt(far, c::SOL_SOCKET, c::SO_SNDBUF, &none, 4) };
    let near = stream.as_raw_fd();
    let taken = unsafe { c::setsockopt(near, c::SOL_SOCKET, c::SO_RCVBUF, &none, 4) };
    sent == 0 && taken == 0
}

/// Whether this descriptor is a socket of this path that isn't connected.
fn is_listener_at(fd: i32, path: &[u8]) -> bool {
    let mut raw = [0u8; c::_SS_SIZE];
    let mut len: u32 = 128;
    let status = unsafe { c::getsockname(fd, &mut raw, &mut len) };
    let [family, no_family] = (c::AF_UNIX as u16).to_ne_bytes();
    let is_there = match raw.strip_prefix(&[family, no_family]) {
        Some(named) => match named.strip_prefix(path) {
            Some(rest) => rest.first() == Some(&0),
            None => false,
        },
        None => false,
    };
    status == 0 && is_there && !is_to(fd, &[])
}

/// Has the system refuse each connection at the listener of this path that it would have to wait for. It answers
/// whether there is such a listener.
pub(crate) fn is_hurried(path: &str) -> bool {
    for fd in 0..MOST_DESCRIPTORS {
        if is_listener_at(fd, path.as_bytes()) {
            return os::set_nonblocking(fd, true) == 0;
        }
    }
    false
}

/// Whether the system was asked for this at the other end of a connection.
pub(crate) fn is_asked_for(stream: &TcpStream, wanted: &Asked) -> bool {
    let (Ok(here), Ok(there)) = (stream.local_addr(), stream.peer_addr()) else {
        return false;
    };
    let [
        wanted_asks,
        idle,
        between,
        times,
        wanted_stalled,
        wanted_at_once,
    ] = *wanted;
    match other_end(here, there) {
        Some(fd) => {
            questions(fd) == [idle, between, times]
                && others(fd) == [wanted_asks, wanted_stalled, wanted_at_once]
        }
        None => false,
    }
}
