//! The news of a publisher.

use crate::naming::Naming;
use crate::pair_news::PairNews;
use crate::tally_news::TallyNews;
use std::marker::Model;

/// What the publisher had put when it made the news. Contracts see the updates, and the tally, which is raised to their
/// number. Any number of threads may read it.
#[derive(Drop)]
pub struct News<J: Naming> {
    pub(crate) pair: PairNews<J>,
    pub(crate) tally: TallyNews<J>,
}

impl<J: Naming> Model for News<J> {
    ghost use Rattle.std.specs.Prelude.{◌≡◌, length};
    ghost use Rattle.reflect_core.specs.Sequential.{Shared};
    ghost use Rattle.shared_screen.specs.History.{tally_of};

    ghost Value = { Shared };

    ghost view = { λ n. record { updates = n.pair; tally = length n.pair } };

    ghost invariant = { λ n. tally_of n.tally ≡ length n.pair };
}
