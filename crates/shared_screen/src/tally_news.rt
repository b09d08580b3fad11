//! The news that a raiser makes.

ghost use Rattle.std.specs.Prelude.{◌≡◌};

use crate::front::HistoryFront;
use crate::naming::Naming;
use std::marker::Model;

/// What the raiser knew when it made the news. Contracts see the changes. At run time it has no bytes, and any number
/// of threads may read it.
#[derive(Drop)]
pub struct TallyNews<J: Naming> {
    pub(crate) front: HistoryFront<J>,
}

impl<J: Naming> Model for TallyNews<J> {
    ghost use Rattle.std.specs.Prelude.{List};
    ghost use Rattle.shared_screen.specs.History as history;

    ghost Value = { List history.Change };

    ghost view = { λ n. n.front };
}

impl<J: Naming> TallyNews<J> {
    /// The beginning of the history that was known when the news was made.
    pub fn front(&self) -> HistoryFront<J>
        ensures { result ≡ self.now }
    {
        self.front.again()
    }
}
