//! Tells systemd how the service stands.

ghost use Rattle.std.specs.Prelude.{◌≤◌};

use crate::address::address_of;
use libc::net as c;
use os::FromRawFd;
use std::io;
use std::io::ErrorKind;
use std::net::Net;
use std::os::fd::{AsRawFd, OwnedFd};

/// Where systemd hears of this service.
#[derive(Drop)]
pub struct Notifier {
    socket: OwnedFd,
    address: [u8; c::_SS_SIZE],
    len: u32,
    ghost fits: { len ≤ 128 },
}

fn failure() -> io::Error {
    io::Error::from_raw_os_error(os::errno())
}

impl Notifier {
    /// A notifier for the text that systemd has given the service (`NOTIFY_SOCKET`). It fails where the text has no
    /// address, or where the system refuses a socket.
    pub fn new(_net: &impl Net, text: &str) -> io::Result<Notifier> {
        let Some(found) = address_of(text) else {
            return Err(io::Error::from(ErrorKind::InvalidInput));
        };
        let address = found.0;
        let len = found.1;
        let fd = unsafe { c::socket(c::AF_UNIX, c::SOCK_DGRAM | c::SOCK_CLOEXEC, 0) };
        if fd < 0 {
            return Err(failure());
        }
        let socket = unsafe { OwnedFd::from_raw_fd(fd) };
        Ok(Notifier {
            socket,
            address,
            len,
        })
    }

    /// Sends a notice in one datagram, without a wait. It fails where nobody hears, or where there is no room.
    pub fn send(&self, notice: &str) -> io::Result<()> {
        let flags = c::MSG_NOSIGNAL | c::MSG_DONTWAIT;
        let fd = self.socket.as_raw_fd();
        let sent = unsafe { c::sendto(fd, notice.as_bytes(), flags, &self.address, self.len) };
        if sent < 0 {
            return Err(failure());
        }
        Ok(())
    }
}
