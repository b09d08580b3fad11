//! Viewers that are called: viewers that listen, and are connected to.

ghost use Rattle.std.specs.Prelude.{◌≡◌, IfOk};

use mio::{Registry, Token, Waker};
use roles::Role;
use std::alloc::Global;
use std::io;
use std::net::{Net, SocketAddr, TcpStream};
use std::sync::{Mutex, Wait};
use std::time::Duration;

/// The seconds that a connection to a viewer may take.
const CALL_SECONDS: u64 = 5;

/// The most viewers that were called and wait for the porter.
const MOST_CALLED: usize = 8;

/// A viewer that was called: its connection, the role in which it was called, and the address. Over the connection
/// nothing was said yet; the server speaks first, whoever has opened it (RFC 6143, section 7.1).
#[derive(Drop)]
pub(crate) struct Called {
    stream: TcpStream,
    role: Role,
    address: SocketAddr,
}

impl Called {
    /// Connects to the viewer that listens at this address, to be served in this role. It fails where the viewer
    /// refuses, where it doesn't accept within five seconds, and where the system refuses the connection.
    fn at<R: Net<Stream = TcpStream>>(rt: &R, role: Role, address: SocketAddr) -> io::Result<Called>
        ensures role { IfOk result (λ called. called.role ≡ role) }
        ensures address { IfOk result (λ called. called.address ≡ address) }
    {
        let patience = Duration::from_secs(CALL_SECONDS);
        Ok(Called {
            stream: TcpStream::connect_timeout(rt, &address, patience)?,
            role,
            address,
        })
    }

    /// The role in which it was called.
    pub(crate) fn role(&self) -> Role
        ensures { result ≡ self.now.role }
    {
        self.role
    }

    /// The address that was called.
    pub(crate) fn address(&self) -> SocketAddr
        ensures { result ≡ self.now.address }
    {
        self.address
    }

    /// Its connection.
    pub(crate) fn into_stream(self) -> TcpStream
        ensures { result ≡ self.stream }
    {
        self.stream
    }
}

/// Why a viewer wasn't called.
#[derive(Drop)]
pub enum NotCalled {
    /// Others were called, and the porter has no room for them yet.
    Crowded,
    /// It wasn't connected to.
    Failed(io::Error),
}

/// What calls viewers in one role. They wait here for the porter of that role's port, to which each is a newcomer like
/// any other.
#[derive(Drop)]
pub struct RoleCaller {
    role: Role,
    waiting: Mutex<Vec<Called>>,
    /// What wakes the porter.
    waker: Waker,
}

impl RoleCaller {
    /// A caller in this role, for the porter that polls this registry: it is told under this number that a viewer was
    /// called. It fails where memory is refused, or a waker by the system.
    pub(crate) fn new(
        alloc: Global,
        role: Role,
        registry: &Registry,
        number: usize,
    ) -> io::Result<RoleCaller>
        ensures { IfOk result (λ caller. caller.role ≡ role) }
    {
        Ok(RoleCaller {
            role,
            waiting: Mutex::new(Vec::with_capacity(alloc, MOST_CALLED)?),
            waker: Waker::new(registry, Token(number))?,
        })
    }

    /// The role in which it calls.
    pub fn role(&self) -> Role
        ensures { result ≡ self.now.role }
    {
        self.role
    }

    /// Connects to the viewer that listens at this address, and tells the porter of the port of the caller's role. The
    /// call waits for five seconds at most. What becomes of the viewer then is the porter's: it is greeted, asked for
    /// the password where the port is locked, and has a place or is told why not.
    pub fn call<R: Net<Stream = TcpStream> + Wait>(
        &self,
        rt: &R,
        address: SocketAddr,
    ) -> Result<(), NotCalled> {
        if self.waiting.lock(rt).len() >= MOST_CALLED {
            return Err(NotCalled::Crowded);
        }
        let called = match Called::at(rt, self.role, address) {
            Ok(called) => called,
            Err(error) => return Err(NotCalled::Failed(error)),
        };
        if self.waiting.lock(rt).push(called).is_err() {
            return Err(NotCalled::Crowded);
        }
        match self.waker.wake() {
            Ok(()) => Ok(()),
            Err(error) => Err(NotCalled::Failed(error)),
        }
    }

    /// The viewer that was called first, of those that wait.
    pub(crate) fn next<R: Wait>(&self, rt: &R) -> Option<Called> {
        let mut guard = self.waiting.lock(rt);
        let waiting = &mut *guard;
        if waiting.is_empty() {
            return None;
        }
        Some(waiting.remove(0))
    }
}
