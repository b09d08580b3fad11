//! The ends that look at the tally.

ghost use Rattle.std.specs.Prelude.{◌≡◌, ◌≤◌, IfOk, IfErr};
ghost use Rattle.fault.specs.declared.kinds.Fault.TheVariants.{Memory};
ghost use Rattle.reflect_core.specs.Sequential.{Begins};
ghost use Rattle.shared_screen.specs.History.{tally_of, puts_of, ArePublished};

use crate::change_count::ChangeCount;
use crate::front::HistoryFront;
use crate::naming::Naming;
use crate::tally_news::TallyNews;
use fault::Fault;
use std::alloc::Global;
use std::marker::Model;
use std::sync::Arc;

/// An end that looks at the tally. Contracts see the changes that it knows.
#[derive(Drop)]
pub struct Glance<J: Naming> {
    change_count: Arc<ChangeCount<J>, Global>,
    front: HistoryFront<J>,
}

impl<J: Naming> Model for Glance<J> {
    ghost use Rattle.std.specs.Prelude.{List};
    ghost use Rattle.shared_screen.specs.History as history;

    ghost Value = { List history.Change };

    ghost view = { λ g. g.front };
}

impl<J: Naming> Glance<J> {
    /// A glance that knows what this front knows.
    pub(crate) fn new(change_count: Arc<ChangeCount<J>, Global>, front: &HistoryFront<J>) -> Self
        ensures { result ≡ front.now }
    {
        Glance {
            change_count,
            front: front.again(),
        }
    }

    /// The beginning of the history that it knows.
    pub fn front(&self) -> HistoryFront<J>
        ensures { result ≡ self.now }
    {
        self.front.again()
    }

    /// Looks at the tally, by one load: it answers the number raised last among the changes that it then knows. That
    /// many updates are published. The answer never falls.
    pub fn look(&mut self) -> u64
        ensures grows { Begins self.old self.new }
        ensures value { result ≡ tally_of self.new }
        ensures rises { tally_of self.old ≤ result }
        ensures published { ArePublished J.published result (puts_of self.new) }
    {
        let changes = self.front.look(&self.change_count);
        // Both calls do nothing. Their clauses say what the front's type keeps, which the proof needs here.
        self.front.is_legal();
        self.front.is_backed();
        // Puts and raises take turns, a put first.
        changes / 2
    }

    /// From now on it also knows what the news tells.
    pub fn learn(&mut self, news: &TallyNews<J>)
        ensures mine { Begins self.old self.new }
        ensures told { Begins news.now self.new }
        ensures rises { (tally_of self.old ≤ tally_of self.new)
            × (tally_of news.now ≤ tally_of self.new) }
    {
        self.front.learn(&news.front);
        // This call does nothing. Its clause says that the changes are legal, so the tally hasn't fallen.
        self.front.is_legal();
    }

    /// A second glance that knows the same. It fails where the count of the word's owners is full (`Memory`).
    pub fn another(&self) -> Result<Glance<J>, Fault>
        ensures ok { IfOk result (λ glance. glance ≡ self.now) }
        ensures err { IfErr result (λ fault. fault ≡ Memory) }
    {
        let change_count = Arc::try_clone(&self.change_count)?;
        Ok(Glance::new(change_count, &self.front))
    }
}
