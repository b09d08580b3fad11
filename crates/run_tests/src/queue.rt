//! Peers that come one after another: the viewers of a place, and the hosts.

use crate::board::Board;
use crate::follower::Follower;
use crate::peer::{Peer, Script, Taking};
use crate::wire::Wire;
use fault::Fault;
use host_turns::{HostEnds, Hosts};
use rfb_wire::Joined;
use run_traits::{Door, LeftLink, PlaceCount};
use std::alloc::Global;
use std::sync::Arc;

/// One peer after another, by their scripts: the viewers of a place; or of each host the end that is read, and then the
/// end that is told. It is a flaw where a host is asked for though no more are to be taken.
#[derive(Drop)]
pub(crate) struct Queue {
    pub(crate) alloc: Global,
    pub(crate) board: Arc<Board, Global>,
    pub(crate) place: usize,
    pub(crate) scripts: &'static [Script],
    /// How often the next peer comes again before the one after it.
    pub(crate) again: u64,
    /// Whether another host may be asked for where none is left.
    pub(crate) may_end: bool,
    pub(crate) count: PlaceCount,
}

impl Queue {
    ghost use Rattle.std.specs.Prelude.{◌≡◌, IfSome};
    ghost use Rattle.run_traits.specs.Unused.{unused};

    /// A link to the next peer.
    fn wire(&mut self) -> Option<Wire>
        ensures { IfSome result (λ wire. wire ≡ unused) }
    {
        let (script, later) = self.scripts.split_first()?;
        match self.again.checked_sub(1) {
            Some(again) => self.again = again,
            None => self.scripts = later,
        }
        let board = Arc::try_clone(&self.board).ok()?;
        Some(Wire::new(Peer {
            board,
            place: self.place,
            script,
            next: 0,
            left: b"",
            asked: 0,
            typed: 0,
            answers: 0,
            heard: Vec::new(self.alloc),
            follower: Follower::new(self.alloc),
            followed: 0,
            number: 0,
        }))
    }
}

/// Whether a viewer left as it should: for this reason, and greeted, unless it left before that.
fn goes_right(peer: &Peer, greeting: &[u8], why: &Result<(), Fault>) -> bool {
    let taking = &peer.script.taking;
    let heard = peer.heard.as_slice();
    let was_greeted = heard.starts_with(greeting);
    let is_begun = greeting.starts_with(heard);
    match taking {
        Taking::Breaks => was_greeted && matches!(why, Err(Fault::LinkFailed)),
        Taking::Leaves(fault) => {
            let number = match why {
                Ok(()) => 0,
                Err(fault) => fault.number(),
            };
            number == *fault && (was_greeted || is_begun)
        }
        Taking::Follows(sight) => was_greeted && why.is_ok() && peer.has_followed(sight),
        _ => was_greeted && why.is_ok(),
    }
}

impl Door for Queue {
    ghost use Rattle.std.specs.Prelude.{⊤};

    type Viewer = Wire;

    ghost lets_in = { λ _ _ _. ⊤ };

    ghost sees_off = { λ _ _ _ _. ⊤ };

    fn next(&mut self) -> Option<Wire> {
        let wire = self.wire()?;
        self.board.enter(self.place);
        Some(wire)
    }

    fn count(&self) -> &PlaceCount {
        &self.count
    }

    fn left(&mut self, viewer: LeftLink<Wire>, _answers: u64, why: Result<(), Fault>)
        ensures { ⊤ }
    {
        let greeting = self.board.view.greeting;
        let is_right = goes_right(&viewer.look().peer, greeting, &why);
        self.board.check(is_right);
        self.board.leave(self.place);
    }
}

impl Hosts<Wire> for Queue {
    ghost use Rattle.std.specs.Prelude.{◌≡◌, ⊤, None};
    ghost use Rattle.run_traits.specs.Unused.{unused};

    // The new link has done nothing.
    ghost came = { λ _ wire. wire ≡ unused };

    ghost are_out = { λ _. ⊤ };

    ghost again = { λ _. None };

    fn next(&mut self) -> Option<HostEnds<Wire>> {
        match (self.wire(), self.wire()) {
            (Some(reader), Some(writer)) => Some(HostEnds {
                reader,
                writer,
                has_called: false,
            }),
            _ => {
                self.board.check(self.may_end);
                None
            }
        }
    }

    fn joined(&mut self, _reader: &mut Wire, _host: &Joined) {}

    fn left(&mut self, _reader: &mut Wire, _why: Result<(), Fault>) {}
}
