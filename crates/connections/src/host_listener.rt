//! Listeners for hosts that call.

ghost use Rattle.std.specs.Prelude.{◌≡◌, IfOk, IfSome};
ghost use Rattle.connections.specs.Wires.{fresh};

use crate::host::HostLink;
use libc::net as c;
use libc::types::pollfd;
use std::io;
use std::io::ErrorKind;
use std::net::{SocketAddr, TcpListener, TcpStream};
use std::os::fd::AsRawFd;

/// For how long one `accept` waits, in milliseconds.
const PATIENCE_MILLIS: i32 = 500;

/// A listener for hosts. A host that calls opens the connection, and is the server over it like any other: it speaks
/// first (RFC 6143, section 7.1).
#[derive(Drop)]
pub struct HostListener {
    socket: TcpListener,
}

/// A host that has called: its address, its connection, and the two ends of that, one to be read and one to be written.
#[derive(Drop)]
pub struct HostCall {
    pub address: SocketAddr,
    pub stream: TcpStream,
    pub reader: HostLink,
    pub writer: HostLink,
}

impl HostListener {
    /// A listener over this socket. It fails where the system refuses an option.
    pub fn new(socket: TcpListener) -> io::Result<HostListener> {
        socket.set_nonblocking(true)?;
        Ok(HostListener { socket })
    }

    /// Whether a host calls in time, or has called.
    fn is_called(&self) -> bool {
        let mut polled = [pollfd {
            fd: self.socket.as_raw_fd(),
            events: c::POLLIN,
            revents: 0,
        }];
        c::poll(&mut polled, PATIENCE_MILLIS) > 0
    }

    /// The host that calls next. It is `None` where none calls within half a second, so that whoever waits can see
    /// whether it is to go on. It fails where the system refuses the connection, an option or another descriptor; the
    /// connection is closed then.
    pub fn accept(&self) -> io::Result<Option<HostCall>>
        ensures came { IfOk result (λ call. IfSome call (λ call.
            (call.reader ≡ fresh) × (call.writer ≡ fresh))) }
    {
        if !self.is_called() {
            return Ok(None);
        }
        let (stream, address) = match self.socket.accept() {
            Ok(accepted) => accepted,
            Err(error) if error.kind() == ErrorKind::WouldBlock => return Ok(None),
            Err(error) => return Err(error),
        };
        let (reader, writer) = HostLink::pair(stream.try_clone()?)?;
        Ok(Some(HostCall {
            address,
            stream,
            reader,
            writer,
        }))
    }
}
