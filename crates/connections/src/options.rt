//! Options of sockets that std lacks.

ghost use Rattle.std.specs.Prelude.{◌≡◌, ◌*◌, max, min};

use libc::net as c;
use std::io;
use std::net::TcpStream;
use std::os::fd::{AsRawFd, RawFd};

/// How long a peer that is gone, or takes nothing, is tolerated.
#[derive(Drop)]
struct Tolerance {
    /// Seconds without a byte after which the peer is asked whether it's there.
    idle: u32,
    /// Seconds between such questions.
    between: u32,
    /// How many such questions are asked.
    times: u32,
    /// Milliseconds for which bytes may stay unsent, or sent and not confirmed.
    stalled: u32,
}

/// The shortest and the longest time for which a viewer may take nothing, in seconds.
const LEAST_STALLED: u64 = 10;

const MOST_STALLED: u64 = 600;

/// A viewer's line may be slow, or down for a while. So a viewer may take nothing for this many seconds, and is asked
/// whether it's there once it has sent nothing for as many.
fn with_viewers(seconds: u64) -> Tolerance
    ensures stalled { result.stalled ≡ 1000 * min (max seconds 10) 600 }
    ensures idle { result.idle ≡ min (max seconds 10) 600 }
{
    let seconds = seconds.max(LEAST_STALLED).min(MOST_STALLED) as u32;
    Tolerance {
        idle: seconds,
        between: seconds / 4,
        times: 4,
        stalled: seconds * 1000,
    }
}

/// While a host is gone all viewers see an old picture, so the next host is to have its turn soon.
const WITH_HOSTS: Tolerance = Tolerance {
    idle: 5,
    between: 2,
    times: 3,
    stalled: 11_000,
};

fn word(number: u32) -> [u8; 16] {
    let [a, b, d, e] = number.to_ne_bytes();
    [a, b, d, e, 0, 0, 0, 0, 0, 0, 0, 0, 0, 0, 0, 0]
}

fn check(status: i32) -> io::Result<()> {
    if status < 0 {
        return Err(io::Error::from_raw_os_error(os::errno()));
    }
    Ok(())
}

fn keep_alive(fd: RawFd, tolerance: &Tolerance) -> io::Result<()> {
    let Tolerance {
        idle,
        between,
        times,
        stalled: _,
    } = *tolerance;
    check(unsafe { c::setsockopt(fd, c::SOL_SOCKET, c::SO_KEEPALIVE, &word(1), 4) })?;
    check(unsafe { c::setsockopt(fd, c::IPPROTO_TCP, c::TCP_KEEPIDLE, &word(idle), 4) })?;
    check(unsafe { c::setsockopt(fd, c::IPPROTO_TCP, c::TCP_KEEPINTVL, &word(between), 4) })?;
    check(unsafe { c::setsockopt(fd, c::IPPROTO_TCP, c::TCP_KEEPCNT, &word(times), 4) })
}

fn outlast_for(stream: &TcpStream, tolerance: &Tolerance) -> io::Result<()> {
    stream.set_nodelay(true)?;
    let fd = stream.as_raw_fd();
    let stalled = word(tolerance.stalled);
    keep_alive(fd, tolerance)?;
    check(unsafe { c::setsockopt(fd, c::IPPROTO_TCP, c::TCP_USER_TIMEOUT, &stalled, 4) })
}

/// Has the system fail the connection of a viewer that is gone, or takes no bytes, after this many seconds: at least
/// 10, and at most 600.
pub fn outlast(stream: &TcpStream, stalled: u64) -> io::Result<()> {
    outlast_for(stream, &with_viewers(stalled))
}

/// Has the system fail the connection of a host that is gone, or takes no bytes, after eleven seconds.
pub fn outlast_host(stream: &TcpStream) -> io::Result<()> {
    outlast_for(stream, &WITH_HOSTS)
}
