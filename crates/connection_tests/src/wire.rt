//! A link in memory whose peer waits for other peers.

ghost use Rattle.std.specs.Prelude.{◌≡◌, IfOk};
ghost use Rattle.run_traits.specs.Unused.{unused};

use crate::board::{Board, hold};
use fault::Fault;
use link::{Gave, Link, MemoryLink, Took};
use std::alloc::Global;
use std::marker::Model;
use std::sync::Arc;
use std::sync::atomic::Ordering;

/// How many viewers come.
pub(crate) const VIEWERS: u64 = 3;

/// How many calls may give bytes, and how many each time.
const GIVES: usize = 16;

const ROOM: usize = 4096;

/// How often a peer has nothing to send before it ends. It is given what it asked for meanwhile.
const PAUSES: usize = 16;

/// Who is at the other end.
#[derive(Clone, Copy)]
pub(crate) enum Peer {
    /// A viewer. It waits until the host was asked for more, so that all threads run by then.
    Viewer,
    /// The host, where it is read: its update comes at once, and it ends once all viewers have left.
    HostRead,
    /// The host, where it is told.
    HostTold,
}

/// A link in memory to a peer that sends these bytes and ends.
fn link_to(alloc: Global, sends: &[u8]) -> Result<MemoryLink, Fault>
    ensures { IfOk result (λ link. link ≡ unused) }
{
    let mut takes = [Took::Nothing; PAUSES];
    takes[0] = Took::Bytes(sends.len());
    let takes = takes.to_vec(alloc)?;
    let gives = vec![in alloc; Gave::Bytes(ROOM); GIVES]?;
    MemoryLink::new(alloc, sends.to_vec(alloc)?, takes, gives)
}

/// A link to such a peer.
#[derive(Drop)]
pub(crate) struct Wire {
    link: MemoryLink,
    peer: Peer,
    board: Arc<Board, Global>,
}

impl Model for Wire {
    ghost use Rattle.link.specs.Links.{LinkState};

    ghost Value = { LinkState };

    ghost view = { λ w. w.link };
}

impl Wire {
    /// A link to a peer that sends these bytes and ends.
    pub(crate) fn new(
        alloc: Global,
        peer: Peer,
        sends: &[u8],
        board: &Arc<Board, Global>,
    ) -> Result<Wire, Fault>
        ensures { IfOk result (λ wire. wire ≡ unused) }
    {
        let board = Arc::try_clone(board)?;
        let link = link_to(alloc, sends)?;
        Ok(Wire { link, peer, board })
    }

    /// What its peer was given.
    pub(crate) fn given(&self) -> &[u8] {
        self.link.given()
    }

    /// Waits for what has to happen before more is taken.
    fn await_others(&self) {
        match self.peer {
            Peer::Viewer => hold(&self.board.told, 1),
            Peer::HostRead if !self.link.taken().is_empty() => hold(&self.board.left, VIEWERS),
            Peer::HostRead | Peer::HostTold => {}
        }
    }
}

impl Link for Wire {
    ghost state = { λ w. w };

    fn take(&mut self, into: &mut [u8]) -> Took {
        self.await_others();
        self.link.take(into)
    }

    fn give(&mut self, bytes: &[u8]) -> Gave {
        if matches!(self.peer, Peer::HostTold) {
            let _ = self.board.told.fetch_add(1, Ordering::SeqCst);
        }
        self.link.give(bytes)
    }

    fn failures(&self) -> u64 {
        self.link.failures()
    }
}
