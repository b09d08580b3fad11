//! The end that raises the tally.

ghost use Rattle.std.specs.Prelude.{◌≡◌, ◌<◌, ◌^◌, ◌+◌, ◌++◌, ◌∷◌, [], length, IfOk, IfErr};
ghost use Rattle.fault.specs.declared.kinds.Fault.TheVariants.{Memory};
ghost use Rattle.shared_screen.specs.History.{Put, Raise, puts_of, tally_of, IsLegal};

use crate::author::Author;
use crate::change_count::ChangeCount;
use crate::front::HistoryFront;
use crate::glance::Glance;
use crate::naming::Naming;
use crate::tally_news::TallyNews;
use fault::Fault;
use painter::Patch;
use std::alloc::Global;
use std::marker::Model;
use std::sync::Arc;

/// Puts updates, and raises the tally. Contracts see all changes. A history has one raiser.
#[derive(Drop)]
pub struct Raiser<J: Naming> {
    change_count: Arc<ChangeCount<J>, Global>,
    author: Author<J>,
}

impl<J: Naming> Model for Raiser<J> {
    ghost use Rattle.std.specs.Prelude.{List};
    ghost use Rattle.shared_screen.specs.History as history;

    ghost Value = { List history.Change };

    ghost view = { λ r. r.author };
}

/// A raiser and a glance of a history, which know what its author does. It fails where the count of the word's owners
/// is full (`Memory`).
pub fn tally<J: Naming>(
    change_count: &Arc<ChangeCount<J>, Global>,
    author: Author<J>,
) -> Result<(Raiser<J>, Glance<J>), Fault>
    ensures ok { IfOk result (λ ends. (ends.0 ≡ author) × (ends.1 ≡ author)) }
    ensures err { IfErr result (λ fault. fault ≡ Memory) }
{
    let glance = Glance::new(Arc::try_clone(change_count)?, &author.front());
    let change_count = Arc::try_clone(change_count)?;
    Ok((
        Raiser {
            change_count,
            author,
        },
        glance,
    ))
}

impl<J: Naming> Raiser<J> {
    /// The beginning of the history that it knows.
    pub fn front(&self) -> HistoryFront<J>
        ensures { result ≡ self.now }
    {
        self.author.front()
    }

    /// It does nothing. Its clause tells callers' proofs that the changes are legal.
    pub fn is_legal(&self)
        ensures { IsLegal self.now }
    {
        self.author.front().is_legal();
    }

    /// How many changes there are.
    pub fn changes(&self) -> u64
        ensures { result ≡ length self.now }
    {
        self.author.changes()
    }

    /// Puts a patch's update. All updates before it have to be raised. It always succeeds.
    pub fn put(&mut self, patch: &Patch)
        requires few { length self.old < 2 ^ 63 }
        requires raised { tally_of self.old ≡ length (puts_of self.old) }
        ensures { self.new ≡ self.old ++ Put patch.now.update ∷ [] }
    {
        self.author.put(&self.change_count, patch);
    }

    /// Raises the tally to the number of updates. One of them has to be put since the last raise, and all of them
    /// published. It always succeeds.
    pub fn raise(&mut self, number: u64)
        requires published { J.published (puts_of self.old) }
        requires few { length self.old < 2 ^ 63 }
        requires next { (number ≡ length (puts_of self.old)) × (number ≡ tally_of self.old + 1) }
        ensures { self.new ≡ self.old ++ Raise number ∷ [] }
    {
        self.author.raise(&self.change_count, number);
    }

    /// Makes news of what it knows.
    pub fn news(&self) -> TallyNews<J>
        ensures { result ≡ self.now }
    {
        self.author.front().news()
    }
}
