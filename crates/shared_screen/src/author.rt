//! The end that changes the history.

ghost use Rattle.std.specs.Prelude.{◌≡◌, ◌<◌, ◌^◌, ◌+◌, ◌++◌, ◌∷◌, [], length};
ghost use Rattle.shared_screen.specs.History.{Put, Raise, puts_of, tally_of, IsLegal, IsBacked};

use crate::change::Change;
use crate::change_count::ChangeCount;
use crate::front::HistoryFront;
use crate::half::Half;
use crate::law::{Add, Law, Nothing, Turn};
use crate::naming::Naming;
use logbook::{Offer, Seen};
use painter::Patch;
use std::marker::{Model, PhantomData};

/// The only end that changes a history. So it knows the whole history, and no change fails. Contracts see the changes.
#[derive(Drop)]
pub struct Author<J: Naming> {
    pub(crate) changes: u64,
    pub(crate) half: Half,
    pub(crate) seen: Seen<Change, (u64, u64), Law<J>>,
    pub(crate) of: PhantomData<J>,
}

impl<J: Naming> Model for Author<J> {
    ghost use Rattle.std.specs.Prelude.{◌≡◌, List, true, length};
    ghost use Rattle.shared_screen.specs.History as history;
    ghost use Rattle.shared_screen.specs.History.{IsLegal, IsBacked};

    ghost Value = { List history.Change };

    ghost view = { λ a. a.seen.log };

    ghost invariant = { λ a. (a.seen.book ≡ J.book) × IsLegal a.seen.log
        × IsBacked J.published a.seen.log × (a.changes ≡ length a.seen.log)
        × (a.half.names ≡ a.seen.names) × (a.half.here ≡ true)
        × (a.half.number ≡ length a.seen.log) };
}

impl<J: Naming> Author<J> {
    /// The whole history: all changes that were made so far.
    pub fn front(&self) -> HistoryFront<J>
        ensures { result ≡ self.now }
    {
        HistoryFront {
            seen: self.seen.again(),
            of: PhantomData,
        }
    }

    /// How many changes there are.
    pub fn changes(&self) -> u64
        ensures { result ≡ length self.now }
    {
        self.changes
    }

    /// Adds this change to the history, by one exchange.
    fn add(
        &mut self,
        change_count: &ChangeCount<J>,
        asked: &Offer<Change, (u64, u64), Law<J>, Nothing>,
    )
        requires few { length self.old < 2 ^ 63 }
        requires allowed { IsLegal (self.old ++ asked.now.ask ∷ [])
            × IsBacked J.published (self.old ++ asked.now.ask ∷ []) }
        ensures { self.new ≡ self.old ++ asked.now.ask ∷ [] }
    {
        let mut offer: Offer<Change, (u64, u64), Law<J>, Turn> = self.half.offered(asked);
        let mut pen = self.seen.no_pen();
        change_count.word.compare_exchange::<Add<J>, Turn>(
            self.changes,
            self.changes + 1,
            &mut self.seen,
            &mut offer,
            &mut pen,
        );
        self.half.back(offer.into_gain());
        self.changes += 1;
    }

    /// Puts a patch's update, by one exchange.
    pub fn put(&mut self, change_count: &ChangeCount<J>, patch: &Patch)
        requires few { length self.old < 2 ^ 63 }
        requires raised { tally_of self.old ≡ length (puts_of self.old) }
        ensures { self.new ≡ self.old ++ Put patch.now.update ∷ [] }
    {
        let asked = self.seen.plain::<Nothing, Patch, Add<J>>(patch);
        self.add(change_count, &asked);
    }

    /// Raises the tally to the number of updates, by one exchange. All of them have to be published.
    pub fn raise(&mut self, change_count: &ChangeCount<J>, number: u64)
        requires published { J.published (puts_of self.old) }
        requires few { length self.old < 2 ^ 63 }
        requires next { (number ≡ length (puts_of self.old)) × (number ≡ tally_of self.old + 1) }
        ensures { self.new ≡ self.old ++ Raise number ∷ [] }
    {
        let asked = self.seen.plain::<Nothing, u64, Add<J>>(&number);
        self.add(change_count, &asked);
    }
}
