//! What an end has seen of the history.

ghost use Rattle.std.specs.Prelude.{◌≡◌, length};
ghost use Rattle.reflect_core.specs.Sequential.{Begins};
ghost use Rattle.shared_screen.specs.History.{IsLegal, IsBacked};

use crate::change::Change;
use crate::change_count::ChangeCount;
use crate::law::{Add, Law, Look, Nothing};
use crate::naming::Naming;
use crate::tally_news::TallyNews;
use logbook::{Offer, Seen};
use std::marker::{Model, PhantomData};

/// A beginning of the history that somebody has seen. Contracts see its changes. At run time it has no bytes.
#[derive(Drop)]
pub struct HistoryFront<J: Naming> {
    pub(crate) seen: Seen<Change, (u64, u64), Law<J>>,
    pub(crate) of: PhantomData<J>,
}

impl<J: Naming> Model for HistoryFront<J> {
    ghost use Rattle.std.specs.Prelude.{◌≡◌, List};
    ghost use Rattle.shared_screen.specs.History as history;
    ghost use Rattle.shared_screen.specs.History.{IsLegal, IsBacked};

    ghost Value = { List history.Change };

    ghost view = { λ f. f.seen.log };

    ghost invariant = { λ f.
        (f.seen.book ≡ J.book) × IsLegal f.seen.log × IsBacked J.published f.seen.log };
}

impl<J: Naming> HistoryFront<J> {
    /// A second front, which knows the same.
    pub fn again(&self) -> HistoryFront<J>
        ensures { result ≡ self.now }
    {
        HistoryFront {
            seen: self.seen.again(),
            of: PhantomData,
        }
    }

    /// From now on it knows what the longer of the two knows.
    pub fn learn(&mut self, other: &HistoryFront<J>)
        ensures mine { Begins self.old self.new }
        ensures told { Begins other.now self.new }
    {
        self.seen.learn(&other.seen);
    }

    /// It does nothing. Its clause tells callers' proofs that the changes are legal.
    pub fn is_legal(&self)
        ensures { IsLegal self.now }
    {
        // There is nothing to do: what was seen is legal by the type's invariant, which the proof has once the body
        // names a field.
        let _ = &self.seen;
    }

    /// It does nothing. Its clause tells callers' proofs that the updates up to the tally are published.
    pub fn is_backed(&self)
        ensures { IsBacked J.published self.now }
    {
        // As in `is_legal`: the proof has the type's invariant once the body names a field.
        let _ = &self.seen;
    }

    /// Makes news of what this front knows.
    pub fn news(&self) -> TallyNews<J>
        ensures { result ≡ self.now }
    {
        TallyNews {
            front: self.again(),
        }
    }

    /// Learns all changes made so far, by one load, and answers how many there are.
    pub fn look(&mut self, change_count: &ChangeCount<J>) -> u64
        ensures grows { Begins self.old self.new }
        ensures count { result ≡ length self.new }
    {
        let mut offer: Offer<Change, (u64, u64), Law<J>, Nothing> = self
            .seen
            .plain::<Nothing, u64, Add<J>>(&0);
        change_count
            .word
            .load::<Look<J>, Nothing>(&mut self.seen, &mut offer)
    }
}
