//! Whether standard error has room.

use libc::net as c;
use libc::types::pollfd;

/// The descriptor of standard error.
const STANDARD_ERROR: i32 = 2;

/// Whether standard error would take a line of at most 4,096 bytes now, without a wait, where nobody else writes to it
/// meanwhile: poll(2) says so of a pipe that has a page to spare (pipe(7)), of the journal's socket, of files, and of a
/// terminal that isn't held. A standard error that is closed, or that nobody reads any more, doesn't make the program
/// wait either.
pub fn standard_error_has_room() -> bool {
    let mut polled = [pollfd {
        fd: STANDARD_ERROR,
        events: c::POLLOUT,
        revents: 0,
    }];
    c::poll(&mut polled, 0) > 0
}
