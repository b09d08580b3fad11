//! The readers' ends of a pair.

ghost use Rattle.std.specs.Prelude.{◌≡◌, ◌⊎◌, ◌≤◌, ◌-◌, [], length, take, IfOk, IfErr};
ghost use Rattle.fault.specs.declared.kinds.Fault.TheVariants.{Gone};
ghost use Rattle.raster.specs.Screen.{IsWithin};
ghost use Rattle.reflect_core.specs.Sequential.{Begins};
ghost use Rattle.reflect_core.specs.Source.{IsCutOf};
ghost use Rattle.shared_screen.specs.History.{puts_of, ArePublished};

use crate::front::HistoryFront;
use crate::naming::Naming;
use crate::pair_news::PairNews;
use crate::published::Published;
use fault::Fault;
use left_right::ReadHandle;
use raster::Rect;
use reflect_core::Cut;
use std::marker::Model;
use std::sync::Wait;
use tiles::Have;

/// Reads what is published. Contracts see the list of updates that it knows.
#[derive(Drop)]
pub struct Eye<J: Naming> {
    reader: ReadHandle<Published<J>>,
    front: HistoryFront<J>,
    number: u64,
}

impl<J: Naming> Model for Eye<J> {
    ghost use Rattle.std.specs.Prelude.{◌≤◌, List, length, take};
    ghost use Rattle.raster.specs.Update.{Update};
    ghost use Rattle.shared_screen.specs.History.{puts_of};

    ghost Value = { List Update };

    ghost view = { λ e. take e.number (puts_of e.front) };

    ghost invariant = { λ e. e.number ≤ length (puts_of e.front) };
}

impl<J: Naming> Eye<J> {
    /// A reader's end that knows no update yet.
    pub(crate) fn new(reader: ReadHandle<Published<J>>, front: &HistoryFront<J>) -> Self
        ensures { result ≡ [] }
    {
        Eye {
            reader,
            front: front.again(),
            number: 0,
        }
    }

    /// A beginning of the history, which has all updates that the eye knows.
    pub(crate) fn front(&self) -> HistoryFront<J>
        ensures { Begins self.now (puts_of result) }
    {
        self.front.again()
    }

    /// It does nothing. Its clause says that the updates that the eye knows are published, up to the last but one: they
    /// were raised.
    pub fn is_published(&self)
        ensures { ArePublished J.published (length self.now - 1) self.now }
    {
        // Both calls do nothing. Their clauses say what the front's type keeps, which the proof needs here.
        self.front.is_legal();
        self.front.is_backed();
    }

    /// From now on it knows the longer of two lists: its own, and the one that the news tells. Each of the two begins
    /// that.
    pub fn learn(&mut self, news: &PairNews<J>)
        ensures one { (self.new ≡ self.old) ⊎ (self.new ≡ news.now) }
        ensures mine { Begins self.old self.new }
        ensures told { Begins news.now self.new }
    {
        self.learn_first(&news.front, news.number);
    }

    /// Learns the first `number` updates of a beginning of the history, as `learn` does.
    pub fn learn_first(&mut self, front: &HistoryFront<J>, number: u64)
        requires { number ≤ length (puts_of front.now) }
        ensures one { (self.new ≡ self.old) ⊎ (self.new ≡ take number (puts_of front.now)) }
        ensures mine { Begins self.old self.new }
        ensures told { Begins (take number (puts_of front.now)) self.new }
    {
        // Nothing reads `both`. Its clauses say that the two are beginnings of one history, which the proof needs.
        let mut both = self.front.again();
        both.learn(front);
        if self.number < number {
            self.front = front.again();
            self.number = number;
        }
    }

    /// Fills the cut with what the published updates show, and answers how many they are. From now on it knows them.
    /// `since` is the number of the viewer's last answer, where copies may be passed on to it. It takes no memory. It
    /// fails where the publisher has ended (`Gone`); then eye and cut are as they were.
    pub fn cut(
        &mut self,
        area: &Rect,
        have: &Have,
        since: Option<u64>,
        into: &mut Cut,
    ) -> Result<u64, Fault>
        requires within { IsWithin area.now J.width J.height }
        requires screen { (have.now.width ≡ J.width) × (have.now.height ≡ J.height) }
        requires room { (into.old.width ≡ J.width) × (into.old.height ≡ J.height) }
        ensures grows { IfOk result (λ n. Begins self.old self.new × (n ≡ length self.new)) }
        ensures cut { IfOk result (λ n. IsCutOf self.new n area.now have.now since into.new) }
        ensures room { (into.new.width ≡ into.old.width) × (into.new.height ≡ into.old.height) }
        ensures gone { IfErr result (λ fault.
            (fault ≡ Gone) × (self.new ≡ self.old) × (into.new ≡ into.old)) }
    {
        let Some(guard) = self.reader.enter() else {
            return Err(Fault::Gone);
        };
        let copy: &Published<J> = &guard;
        let number = copy.number();
        // A copy that was entered is never older than what was told, which no contract can say.
        if number < self.number {
            return Err(Fault::Gone);
        }
        let front = copy.front();
        // Nothing reads `both`: as in `learn_first`, its clauses say that the two are beginnings of one history.
        let mut both = self.front.again();
        both.learn(&front);
        copy.show(area, have, since, into);
        self.number = number;
        self.front = front;
        Ok(number)
    }
}
