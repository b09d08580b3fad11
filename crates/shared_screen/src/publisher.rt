//! The end that puts updates.

ghost use Rattle.std.specs.Prelude.{◌≡◌, ◌*◌, ◌+◌, ◌<◌, ◌≤◌, ◌^◌, ◌∷◌, ◌++◌, [], length, IfOk, IfErr};
ghost use Rattle.left_right.specs.Handles.{published, pending};
ghost use Rattle.reflect_core.specs.Plain.{IsPutRefusal};
ghost use Rattle.shared_screen.specs.History.{Put, Raise, puts_of};
ghost use Rattle.shared_screen.specs.Publishing.{IsLeftByRefusal, opening};

use crate::change::Change;
use crate::demand::Demand;
use crate::front::HistoryFront;
use crate::naming::Naming;
use crate::news::News;
use crate::published::Published;
use crate::publishes::Publishes;
use crate::publishing::{news_of, publish};
use crate::raiser::Raiser;
use crate::spares::Spares;
use crate::stamped::Stamped;
use fault::{Fault, LIMIT};
use left_right::{Absorb, WriteHandle};
use painter::Patch;
use reflect_core::Puts;
use std::alloc::Global;
use std::marker::Model;
use std::sync::{Arc, Wait};

/// Puts updates, and raises the tally after each. Contracts see its history: all that was put and raised, and whether
/// an update was refused its publish once the history had it.
#[derive(Drop)]
pub struct Publisher<J: Naming, R: Wait + Drop>
where
    Published<J>: Absorb<Stamped<J>, State = [Change; 0]>,
{
    handle: WriteHandle<Published<J>, Stamped<J>, R>,
    raiser: Raiser<J>,
    front: HistoryFront<J>,
    spares: Spares<J>,
    demand: Arc<Demand, Global>,
}

impl<J: Naming, R: Wait + Drop> Model for Publisher<J, R>
where
    Published<J>: Absorb<Stamped<J>, State = [Change; 0]>,
{
    ghost use Rattle.std.specs.Prelude.{◌≡◌, [], length};
    ghost use Rattle.left_right.specs.Handles.{published, pending};
    ghost use Rattle.reflect_core.specs.Sequential.{Begins};
    ghost use Rattle.shared_screen.specs.History.{puts_of, tally_of};
    ghost use Rattle.shared_screen.specs.Publishing.{Publishing, publishing};

    ghost Value = { Publishing };

    ghost view = { λ p. publishing p.front p.raiser };

    ghost invariant = { λ p. (pending p.handle ≡ [])
        × (puts_of (published p.handle) ≡ puts_of p.front)
        × (tally_of p.front ≡ length (puts_of p.front)) × Begins p.front p.raiser };
}

impl<J: Naming, R: Wait + Drop> Publisher<J, R> {
    /// The publisher of copies that are opening screens.
    pub(crate) fn new(
        handle: WriteHandle<Published<J>, Stamped<J>, R>,
        raiser: Raiser<J>,
        spares: Spares<J>,
        demand: Arc<Demand, Global>,
    ) -> Self
        requires { (published handle ≡ []) × (pending handle ≡ []) × (raiser ≡ []) }
        ensures { result ≡ opening }
    {
        let front = raiser.front();
        Publisher {
            handle,
            raiser,
            front,
            spares,
            demand,
        }
    }

    /// Makes news of all that was put, to which the tally is raised.
    pub fn news(&self) -> News<J>
    where
        J: Publishes,
        ensures { result
            ≡ record {
              updates = puts_of self.now.changes;
              tally = length (puts_of self.now.changes);
            } }
    {
        News {
            pair: news_of(&self.handle),
            tally: self.front.news(),
        }
    }

    /// The beginning of the history that it has put and raised.
    pub(crate) fn front(&self) -> HistoryFront<J>
        ensures { result ≡ self.now.changes }
    {
        self.front.again()
    }

    /// Ends the publisher: no copy can be entered from now on. It may wait for a watcher that is inside one.
    pub fn end(self) {
        drop(self)
    }
}

impl<J: Naming + Publishes, R: Wait + Drop> Puts for Publisher<J, R> {
    ghost updates = { λ p. puts_of p.changes };

    ghost width = { λ p. J.width };

    ghost height = { λ p. J.height };

    /// Publishes the update, and then raises the tally to its number. It may wait for a watcher that is still inside
    /// the copy from before the last put.
    ///
    /// Where it answers `Memory`, each later put may answer that, too: if room for the update was refused once the
    /// history had it, nothing can be put behind it (`first`, `refused`). That room is kept from the beginning on, so
    /// this isn't seen to happen; but no clause of the pair says that it is enough.
    fn put(&mut self, patch: Patch) -> Result<u64, (Fault, Patch)>
        requires { (patch.width ≡ J.width) × (patch.height ≡ J.height) }
        ensures history { IfOk result (λ n.
            self.new.changes ≡ (self.old.changes ++ Put patch.update ∷ []) ++ Raise n ∷ []) }
        ensures ok { IfOk result (λ n. (length (puts_of self.old.changes) < 2 ^ 62)
            × (puts_of self.new.changes ≡ puts_of self.old.changes ++ patch.update ∷ [])
            × (n ≡ length (puts_of self.new.changes))) }
        ensures first { IfOk result (λ n. (self.old.refused ≡ []) × (self.new.refused ≡ [])) }
        ensures err { IfErr result (λ refused.
            IsPutRefusal (length (puts_of self.old.changes)) refused.0
            × (refused.1 ≡ patch) × (self.new.changes ≡ self.old.changes)) }
        ensures refused { IfErr result (λ refused.
            IsLeftByRefusal patch.update refused.0 self.old self.new) }
    {
        let number = news_of(&self.handle).number();
        if number >= LIMIT {
            return Err((Fault::NumbersOut, patch));
        }
        // This call does nothing. Its clause says that puts and raises take turns.
        self.front.is_legal();
        // An update whose publish was refused stays the last one of the history.
        if self.raiser.changes() != 2 * number {
            return Err((Fault::Memory, patch));
        }
        // Everything that may be refused memory comes first, except the entry of the operation, whose room is kept.
        let wanted = self.demand.wanted();
        let Ok(board) = self.spares.next(self.handle.published(), &patch, wanted) else {
            return Err((Fault::Memory, patch));
        };
        self.raiser.put(&patch);
        let next = Stamped::new(board, number + 1, self.raiser.front());
        self.spares.keep(&next);
        if let Err(_) = publish(&mut self.handle, next) {
            return Err((Fault::Memory, patch));
        }
        J::known_by(&self.handle);
        self.raiser.raise(number + 1);
        self.front = self.raiser.front();
        Ok(number + 1)
    }
}
