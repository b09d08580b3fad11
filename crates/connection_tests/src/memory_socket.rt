//! A socket in memory.

ghost use Rattle.std.specs.Prelude.{◌≡◌};

use connections::{HostSocket, Socket};
use std::alloc::Global;
use std::io;
use std::io::ErrorKind;
use std::time::Duration;

/// What one send or receive does.
#[derive(Clone, Copy)]
pub(crate) enum Transfer {
    /// This many bytes go at most.
    AtMost(usize),
    /// It fails so.
    Fails(ErrorKind),
}

/// The turns of the sends, or those of the receives. After the last one as many bytes go as can.
#[derive(Drop)]
struct Transfers {
    turns: Vec<Transfer>,
    used: usize,
}

impl Transfers {
    fn new(turns: Vec<Transfer>) -> Transfers {
        Transfers { turns, used: 0 }
    }

    /// How many bytes go at most at the next turn.
    fn next(&mut self) -> io::Result<usize> {
        let turn = self.turns.get(self.used);
        self.used = self.used.saturating_add(1);
        match turn {
            Some(Transfer::AtMost(most)) => Ok(*most),
            Some(Transfer::Fails(kind)) => Err(io::Error::from(*kind)),
            None => Ok(usize::MAX),
        }
    }
}

/// A socket whose peer sends these bytes and takes any. What was sent and received are lists in memory.
#[derive(Drop)]
pub(crate) struct MemorySocket {
    alloc: Global,
    comes: Vec<u8>,
    came: usize,
    sends: Transfers,
    receives: Transfers,
    is_closed: bool,
    pub(crate) sent: Vec<u8>,
    pub(crate) received: Vec<u8>,
}

impl MemorySocket {
    ghost use Rattle.std.specs.Prelude.{◌≡◌, [], IfOk};

    /// A socket that brings these bytes, with these turns.
    pub(crate) fn new(
        alloc: Global,
        comes: &[u8],
        sends: &[Transfer],
        receives: &[Transfer],
    ) -> io::Result<MemorySocket>
        ensures sent { IfOk result (λ socket. socket.sent.items ≡ []) }
        ensures received { IfOk result (λ socket. socket.received.items ≡ []) }
    {
        let comes = comes.to_vec(alloc)?;
        let sends = sends.to_vec(alloc)?;
        let receives = receives.to_vec(alloc)?;
        Ok(MemorySocket {
            alloc,
            comes,
            came: 0,
            sends: Transfers::new(sends),
            receives: Transfers::new(receives),
            is_closed: false,
            sent: Vec::new(alloc),
            received: Vec::new(alloc),
        })
    }

    fn check(&self) -> io::Result<()> {
        if self.is_closed {
            return Err(io::Error::from(ErrorKind::NotConnected));
        }
        Ok(())
    }
}

impl Socket for MemorySocket {
    ghost sent = { λ socket. socket.sent.items };

    ghost received = { λ socket. socket.received.items };

    fn send(&mut self, bytes: &[u8]) -> io::Result<usize> {
        self.check()?;
        let count = self.sends.next()?.min(bytes.len());
        let (first, _) = bytes.split_at(count);
        self.sent.extend_from_slice(first)?;
        Ok(count)
    }

    fn send_both(&mut self, first: &[u8], second: &[u8]) -> io::Result<usize> {
        let mut both = Vec::new(self.alloc);
        both.extend_from_slice(first)?;
        both.extend_from_slice(second)?;
        self.send(both.as_slice())
    }

    fn receive(&mut self, into: &mut [u8]) -> io::Result<usize> {
        self.check()?;
        let most = self.receives.next()?.min(into.len());
        let (_, left) = self.comes.split_at(self.came.min(self.comes.len()));
        let count = most.min(left.len());
        let (next, _) = left.split_at(count);
        let (first, _) = into.split_at_mut(count);
        first.copy_from_slice(next);
        self.received.extend_from_slice(next)?;
        self.came = self.came.saturating_add(count);
        Ok(count)
    }
}

impl HostSocket for MemorySocket {
    fn limit(&self, _longest: Option<Duration>) -> io::Result<()> {
        Ok(())
    }

    fn close(&mut self) {
        self.is_closed = true;
    }
}
