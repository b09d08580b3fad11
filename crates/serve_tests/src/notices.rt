//! Where systemd hears of a service: a socket that takes datagrams, at a name of this machine.

use libc::net as c;
use notify::address_of;
use os::FromRawFd;
use std::os::fd::{AsRawFd, OwnedFd};

/// More bytes than a notice has.
const MOST: usize = 256;

/// A socket that takes datagrams, at this name.
pub(crate) fn open(name: &str) -> Option<OwnedFd> {
    let (raw, len) = address_of(name)?;
    let fd = unsafe { c::socket(c::AF_UNIX, c::SOCK_DGRAM | c::SOCK_CLOEXEC, 0) };
    if fd < 0 {
        return None;
    }
    let socket = unsafe { OwnedFd::from_raw_fd(fd) };
    let status = unsafe { c::bind(socket.as_raw_fd(), &raw, len) };
    if status == 0 { Some(socket) } else { None }
}

/// Whether a datagram has come, which is read then, and whether it is this one.
pub(crate) fn heard(socket: &OwnedFd, wanted: &str) -> Option<bool> {
    let mut bytes = [0u8; MOST];
    let count = unsafe { c::recv(socket.as_raw_fd(), &mut bytes, c::MSG_DONTWAIT) };
    let count = usize::try_from(count).ok()?;
    Some(bytes.get(..count) == Some(wanted.as_bytes()))
}
