//! The ends that look and cut.

ghost use Rattle.std.specs.Prelude.{◌≡◌, ◌⊎◌, ◌+◌, ◌≤◌, ◌∷◌, [], length, IfOk, IfErr};
ghost use Rattle.fault.specs.declared.kinds.Fault.TheVariants.{Gone};
ghost use Rattle.raster.specs.Screen.{IsWithin};
ghost use Rattle.raster.specs.Update.{view};
ghost use Rattle.reflect_core.specs.Sequential.{Begins};
ghost use Rattle.reflect_core.specs.Sequential as step;
ghost use Rattle.reflect_core.specs.Source.{IsCutOf};
ghost use Rattle.shared_screen.specs.Reaches.{Reaches};
ghost use Rattle.shared_screen.specs.History.{puts_of, ArePublished};

use crate::demand::Claim;
use crate::eye::Eye;
use crate::glance::Glance;
use crate::naming::Naming;
use crate::news::News;
use crate::publisher::Publisher;
use crate::publishes::Publishes;
use fault::Fault;
use painter::Wanted;
use raster::Rect;
use reflect_core::{Cut, ScreenSource};
use std::marker::Model;
use std::sync::Wait;
use tiles::Have;

/// Looks at the tally without entering a copy, and cuts. Contracts see a state of the sequential screen: the updates
/// that the watcher knows, and the tally.
#[derive(Drop)]
pub struct Watcher<J: Naming> {
    width: u64,
    height: u64,
    eye: Eye<J>,
    glance: Glance<J>,
    // The greatest tally that it has seen or was told, and the number of its last cut.
    told: u64,
    last: u64,
    claim: Claim,
}

impl<J: Naming> Model for Watcher<J> {
    ghost use Rattle.std.specs.Prelude.{◌≡◌, ◌≤◌, ◌-◌, length, max};
    ghost use Rattle.reflect_core.specs.Sequential.{Shared};
    ghost use Rattle.shared_screen.specs.History.{tally_of};

    ghost Value = { Shared };

    ghost view = { λ w. record { updates = w.eye; tally = max w.told (w.last - 1) } };

    ghost invariant = { λ w. (w.width ≡ J.width) × (w.height ≡ J.height)
        × (w.told ≤ tally_of w.glance) × (length w.eye ≡ max w.told w.last) };
}

impl<J: Naming> Watcher<J> {
    /// A watcher that knows no update, and whose tally is 0.
    pub(crate) fn new(width: u64, height: u64, eye: Eye<J>, glance: Glance<J>, claim: Claim) -> Self
        requires { (width ≡ J.width) × (height ≡ J.height) × (eye ≡ []) × (glance ≡ []) }
        ensures { result ≡ record { updates = []; tally = 0 } }
    {
        Watcher {
            width,
            height,
            eye,
            glance,
            told: 0,
            last: 0,
            claim,
        }
    }

    /// From now on it knows the longer of two lists: its own, and the one that the news tells. Each of the two begins
    /// that. Each later look answers at least the tally that the news tells.
    pub fn learn(&mut self, news: &News<J>)
        ensures one { (self.new.updates ≡ self.old.updates)
            ⊎ (self.new.updates ≡ news.now.updates) }
        ensures mine { Begins self.old.updates self.new.updates }
        ensures told { Begins news.now.updates self.new.updates }
        ensures rises { (self.old.tally ≤ self.new.tally) × (news.now.tally ≤ self.new.tally) }
        ensures history { Reaches self.old [] self.new }
    {
        self.eye.learn(&news.pair);
        self.glance.learn(&news.tally);
        self.told = self.told.max(news.pair.number());
    }

    /// Learns all that the publisher has put, as `learn` does.
    pub fn meet<R: Wait + Drop>(&mut self, publisher: &Publisher<J, R>)
    where
        J: Publishes,
        ensures one { (self.new.updates ≡ self.old.updates)
            ⊎ (self.new.updates ≡ puts_of publisher.now.changes) }
        ensures mine { Begins self.old.updates self.new.updates }
        ensures told { Begins (puts_of publisher.now.changes) self.new.updates }
        ensures rises { (self.old.tally ≤ self.new.tally)
            × (length (puts_of publisher.now.changes) ≤ self.new.tally) }
        ensures history { Reaches self.old [] self.new }
    {
        self.learn(&publisher.news());
    }

    /// It changes nothing and learns nothing. Its clause says that watcher and publisher are of one list of updates:
    /// one of the two that they know begins the other.
    pub fn is_of<R: Wait + Drop>(&self, publisher: &Publisher<J, R>)
        ensures { Begins self.now.updates (puts_of publisher.now.changes)
            ⊎ Begins (puts_of publisher.now.changes) self.now.updates }
    {
        // Nothing reads `both`. Its clauses say that the two are beginnings of one history, which the proof needs.
        let mut both = self.eye.front();
        both.learn(&publisher.front());
    }

    /// It changes nothing and learns nothing. Its clause says that both watchers are of one list of updates: one of the
    /// two that they know begins the other.
    pub fn is_beside(&self, other: &Watcher<J>)
        ensures { Begins self.now.updates other.now.updates
            ⊎ Begins other.now.updates self.now.updates }
    {
        // As in `is_of`.
        let mut both = self.eye.front();
        both.learn(&other.eye.front());
    }
}

impl<J: Naming> ScreenSource for Watcher<J> {
    ghost known = { λ w. w.updates };

    ghost answered = { λ w. length w.updates };

    ghost width = { λ w. J.width };

    ghost height = { λ w. J.height };

    ghost may_end = { Unit {0} };

    ghost looks = { λ old reply new. Reaches old (step.Look reply ∷ []) new };

    ghost cuts = { λ old number new.
        (number ≡ length new.updates) × Reaches old (step.Cut (view new.updates) ∷ []) new };

    fn size(&self) -> (u64, u64) {
        (self.width, self.height)
    }

    /// Looks by one load, without entering a copy. It answers the number raised last or the number of its last cut less
    /// one, whichever is greater. That many updates are published.
    fn look(&mut self) -> u64
        ensures reply { result ≡ self.new.tally }
        ensures rises { self.old.tally ≤ result }
        ensures grows { Begins self.old.updates self.new.updates }
        ensures near { (result ≤ length self.new.updates) × (length self.new.updates ≤ result + 1) }
        ensures history { Reaches self.old (step.Look result ∷ []) self.new }
        ensures published { ArePublished J.published result self.new.updates }
    {
        let number = self.glance.look();
        let front = self.glance.front();
        // This call and `is_published` do nothing. Their clauses say what their types keep, which the proof needs here.
        front.is_legal();
        self.eye.learn_first(&front, number);
        self.eye.is_published();
        self.told = number;
        number.max(self.last.saturating_sub(1))
    }

    fn cut(
        &mut self,
        area: &Rect,
        have: &Have,
        since: Option<u64>,
        into: &mut Cut,
    ) -> Result<u64, Fault>
        requires within { IsWithin area.now J.width J.height }
        requires screen { (have.now.width ≡ J.width) × (have.now.height ≡ J.height) }
        requires room { (into.old.width ≡ J.width) × (into.old.height ≡ J.height) }
        ensures reply { IfOk result (λ n.
            IsCutOf self.new.updates n area.now have.now since into.new
            × (n ≡ length self.new.updates)) }
        ensures rises { IfOk result (λ n.
            (self.old.tally ≤ n) × (self.old.tally ≤ self.new.tally) × (n ≤ self.new.tally + 1)) }
        ensures grows { Begins self.old.updates self.new.updates }
        ensures history { IfOk result (λ _.
            Reaches self.old (step.Cut (view self.new.updates) ∷ []) self.new) }
        ensures room { (into.new.width ≡ into.old.width) × (into.new.height ≡ into.old.height) }
        ensures gone { IfErr result (λ fault.
            (fault ≡ Gone) × (self.new ≡ self.old) × (into.new ≡ into.old)) }
    {
        let number = self.eye.cut(area, have, since, into)?;
        self.last = number;
        Ok(number)
    }

    /// Notes what is wanted for this watcher. Where two watchers or more want forms, the publisher has forms and
    /// encoded areas made of what changes; where two or more want parts, they share those that one of them makes.
    fn want(&self, wanted: Wanted) {
        self.claim.set(wanted);
    }
}
