//! What a run needs of the system.

use std::fs::File;
use std::net::{Net, TcpListener, TcpStream};
use std::random::RandomSource;
use std::rt::Files;
use std::sync::Wait;
use std::thread::Threads;
use std::time::Clock;

/// The bytes of the stack of a thread that keeps a door or hears an operator.
pub(crate) const STACK: usize = 262_144;

/// The bytes of the stack of a thread that answers requests of HTTP.
pub(crate) const REQUEST_STACK: usize = 1_048_576;

/// What the threads of a run need of the system: sockets, files, other threads, a clock and random bytes. Whatever has
/// these is one.
pub trait Runtime: Net<Stream = TcpStream, Listener = TcpListener>
    + Files<File = File, Dir: Send>
    + Threads
    + Wait
    + Clock
    + RandomSource
    + Copy
    + Drop
    + Send
    + 'static {}

impl<R> Runtime for R
where
    R: Net<Stream = TcpStream, Listener = TcpListener>
        + Files<File = File, Dir: Send>
        + Threads
        + Wait
        + Clock
        + RandomSource
        + Copy
        + Drop
        + Send
        + 'static,
{}
