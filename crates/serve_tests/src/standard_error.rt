//! A standard error that nobody reads: a socket, as it is where the journal of systemd reads it.

use libc::net as c;
use os::FromRawFd;
use std::os::fd::{AsRawFd, OwnedFd};

/// The descriptor of standard error.
const STANDARD_ERROR: i32 = 2;

/// Bytes are sent and received in pieces, of which a socket keeps fewer than this many.
const PIECE: usize = 4_096;

const MOST_PIECES: u64 = 100_000;

/// Two connected sockets. The first has the number of standard error, in whose place it is put: the system gives the
/// least number that is free (POSIX.1-2017, 2.14).
fn replace() -> Option<[i32; 2]> {
    drop(unsafe { OwnedFd::from_raw_fd(STANDARD_ERROR) });
    let mut ends = [-1i32; 2];
    let status = unsafe {
        c::socketpair(c::AF_UNIX, c::SOCK_STREAM | c::SOCK_CLOEXEC, 0, &mut ends)
    };
    if status == 0 && ends[0] == STANDARD_ERROR {
        Some(ends)
    } else {
        None
    }
}

/// Puts a socket in the place of standard error, and fills it. The answer is its other end, which nobody reads.
pub(crate) fn fill() -> Option<OwnedFd> {
    let [near, far] = replace()?;
    if far < 0 {
        return None;
    }
    let far = unsafe { OwnedFd::from_raw_fd(far) };
    for _ in 0..MOST_PIECES {
        let sent = unsafe { c::send(near, &[b'.'; PIECE], c::MSG_NOSIGNAL | c::MSG_DONTWAIT) };
        if sent < 0 {
            return Some(far);
        }
    }
    None
}

/// Reads all that this end was sent. It answers whether that ends.
pub(crate) fn empty(far: &OwnedFd) -> bool {
    let mut bytes = [0u8; PIECE];
    for _ in 0..MOST_PIECES {
        let read = unsafe { c::recv(far.as_raw_fd(), &mut bytes, c::MSG_DONTWAIT) };
        if read < 0 {
            return true;
        }
    }
    false
}
