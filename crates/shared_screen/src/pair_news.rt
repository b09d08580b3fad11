//! The news of a publisher.

ghost use Rattle.std.specs.Prelude.{◌≡◌, ◌≤◌, length};

use crate::front::HistoryFront;
use crate::naming::Naming;
use std::marker::Model;

/// What the publisher had published when it made the news. Contracts see the updates. Any number of threads may read
/// it.
#[derive(Drop)]
pub struct PairNews<J: Naming> {
    pub(crate) front: HistoryFront<J>,
    pub(crate) number: u64,
}

impl<J: Naming> Model for PairNews<J> {
    ghost use Rattle.std.specs.Prelude.{◌≡◌, List, length};
    ghost use Rattle.raster.specs.Update.{Update};
    ghost use Rattle.shared_screen.specs.History.{puts_of};

    ghost Value = { List Update };

    ghost view = { λ n. puts_of n.front };

    ghost invariant = { λ n. n.number ≡ length (puts_of n.front) };
}

impl<J: Naming> PairNews<J> {
    /// How many updates the news tells of.
    pub fn number(&self) -> u64
        ensures { result ≡ length self.now }
    {
        self.number
    }
}
