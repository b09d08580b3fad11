//! Viewers that come to one place, one after another.

use crate::board::Board;
use crate::bytes::{GREETING_AND_UPDATE, GREETING_LEN, HELLO_AND_ASK, HELLO_LEN};
use crate::hoard::Hoard;
use crate::wire::{Peer, Wire};
use fault::Fault;
use run_traits::{Door, LeftLink, PlaceCount};
use std::alloc::Global;
use std::sync::Arc;

/// The first viewer is greeted and ends. For the second there is no memory. The third is shown the host's update.
#[derive(Drop)]
pub(crate) struct Viewers {
    pub(crate) alloc: Global,
    pub(crate) board: Arc<Board, Global>,
    /// The memory that is kept from the second viewer.
    pub(crate) hoard: Option<Hoard>,
    pub(crate) count: PlaceCount,
}

/// What each viewer sends, in their order.
pub(crate) fn sent_by(viewer: u64) -> &'static [u8] {
    let (hello, _) = HELLO_AND_ASK.split_at(HELLO_LEN);
    match viewer {
        1 => hello,
        2 => b"",
        _ => HELLO_AND_ASK,
    }
}

/// What each viewer is given.
pub(crate) fn given_to(viewer: u64) -> &'static [u8] {
    let (greeting, _) = GREETING_AND_UPDATE.split_at(GREETING_LEN);
    match viewer {
        1 => greeting,
        2 => b"",
        _ => GREETING_AND_UPDATE,
    }
}

/// Whether a viewer's visit ended as it should.
pub(crate) fn ends_right(viewer: u64, why: &Result<(), Fault>) -> bool {
    match viewer {
        2 => matches!(why, Err(Fault::Memory)),
        _ => why.is_ok(),
    }
}

impl Door for Viewers {
    ghost use Rattle.std.specs.Prelude.{⊤};

    type Viewer = Wire;

    ghost lets_in = { λ _ _ _. ⊤ };

    ghost sees_off = { λ _ _ _ _. ⊤ };

    fn next(&mut self) -> Option<Wire> {
        let viewer = self.board.enter()?;
        let wire = Wire::new(self.alloc, Peer::Viewer, sent_by(viewer), &self.board).ok()?;
        if viewer == 2 {
            self.hoard = Hoard::new(self.alloc).ok()?;
        }
        Some(wire)
    }

    fn count(&self) -> &PlaceCount {
        &self.count
    }

    fn left(&mut self, viewer: LeftLink<Wire>, _answers: u64, why: Result<(), Fault>)
        ensures { ⊤ }
    {
        self.hoard = None;
        let number = self.board.number();
        let is_given = viewer.look().given() == given_to(number);
        self.board.leave(ends_right(number, &why) && is_given);
    }
}
