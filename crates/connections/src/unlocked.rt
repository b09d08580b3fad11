//! Links of those that have unlocked a port.

ghost use Rattle.std.specs.Prelude.{◌≡◌};

use crate::greeted::{MOST_SHOWN, MOST_SPOKEN};
use crate::greeting::{VERSION, shown_of, spoken_of};
use crate::key::NONE;
use arrayvec::ArrayVec;
use fault::LIMIT;
use link::{Gave, Link, Record, Took};
use std::marker::Model;
use web_link::{GatheringLink, WebLink};

/// A link to a peer that has unlocked its port before, where that was locked. Its owner gives and takes as at an open
/// port. The bytes with which the owner has to begin aren't given to the link below, and those that the owner hears
/// first aren't taken from it. After these beginnings the owner gives and takes the same as the link below. A give of
/// another beginning fails.
#[derive(Drop)]
pub(crate) struct UnlockedLink<L: Link> {
    link: L,
    // The bytes with which the owner has to begin, and how many of these it has given.
    spoken: ArrayVec<u8, MOST_SPOKEN>,
    given: usize,
    // The bytes that the owner hears first, and how many of these it has taken.
    shown: ArrayVec<u8, MOST_SHOWN>,
    taken: usize,
    // What the owner has given and taken, and how often this link has failed and ended.
    said: Record,
    heard: Record,
    failures: u64,
    ends: u64,
}

impl<L: Link> Model for UnlockedLink<L> {
    ghost use Rattle.std.specs.Prelude.{◌≤◌, ◌^◌, drop, length};
    ghost use Rattle.connections.specs.Unlocked.{StandIn, StandsIn};

    ghost Value = { StandIn };

    ghost view = { λ u. record {
      below = L.state u.link;
      own = record {
        taken = u.heard.bytes;
        given = u.said.bytes;
        failed = u.failures;
        ended = u.ends;
      };
      spoken = u.spoken.items;
      owed = drop u.given u.spoken.items;
      shown = u.shown.items;
      ahead = drop u.taken u.shown.items;
    } };

    ghost invariant = { λ u. StandsIn (record {
      below = L.state u.link;
      own = record {
        taken = u.heard.bytes;
        given = u.said.bytes;
        failed = u.failures;
        ended = u.ends;
      };
      spoken = u.spoken.items;
      owed = drop u.given u.spoken.items;
      shown = u.shown.items;
      ahead = drop u.taken u.shown.items;
    }) × (u.given ≤ length u.spoken.items) × (u.taken ≤ length u.shown.items)
        × (u.failures ≤ 2 ^ 62) × (u.ends ≤ 2 ^ 62) };
}

impl<L: Link> UnlockedLink<L> {
    ghost use Rattle.std.specs.Prelude.{◌≡◌, ◌<◌, [], length};
    ghost use Rattle.link.specs.Links.{GivesAs, TakesAs, with_end, with_failure};
    ghost use Rattle.run_traits.specs.Unused.{unused};
    ghost use Rattle.connections.specs.Unlocked.{StandsIn, own_beginning, shown_beginning};

    /// A link over one that has taken and given nothing since the port was unlocked, if it was locked.
    pub(crate) fn new(link: L, is_locked: bool) -> UnlockedLink<L>
        requires { L.state link ≡ unused }
        ensures own { result.own ≡ unused }
        ensures spoken { result.spoken ≡ own_beginning is_locked }
        ensures shown { result.shown ≡ shown_beginning is_locked }
    {
        let (spoken, shown) = if is_locked {
            (spoken_of(&[1, NONE]), shown_of(&VERSION, &[NONE]))
        } else {
            (ArrayVec::new(), ArrayVec::new())
        };
        UnlockedLink {
            link,
            spoken,
            given: 0,
            shown,
            taken: 0,
            said: Record::new(),
            heard: Record::new(),
            failures: 0,
            ends: 0,
        }
    }

    /// It does nothing. Its clause says that, at every moment, the owner gives and takes the same as the link below,
    /// after its own beginnings.
    pub(crate) fn stands_in(&self)
        ensures { StandsIn self.now }
    {
        let _ = &self.given;
    }

    /// The link below.
    pub(crate) fn below(&self) -> &L
        ensures { L.state result.now ≡ self.now.below }
    {
        &self.link
    }

    /// Counts one more failure, of the owner that gives the link up.
    pub(crate) fn fail(&mut self)
        ensures { self.new ≡ record self.old { own = with_failure self.old.own } }
    {
        self.failures = LIMIT.min(self.failures + 1);
    }

    /// Counts one more end.
    fn end(&mut self)
        ensures { self.new ≡ record self.old { own = with_end self.old.own } }
    {
        self.ends = LIMIT.min(self.ends + 1);
    }

    /// Takes the first of these bytes as given, as far as the owner owes them. It is called only where some are owed.
    fn give_owed(&mut self, bytes: &[u8]) -> Gave
        requires some { 0 < length bytes.now }
        requires owed { 0 < length self.old.owed }
        ensures { GivesAs result self.old.own self.new.own bytes.now }
    {
        let (_, owed) = self.spoken.as_slice().split_at(self.given);
        let count = bytes.len().min(owed.len());
        let (first, _) = bytes.split_at(count);
        let (said, _) = owed.split_at(count);
        if first == said {
            self.given += count;
            self.said.note(first);
            Gave::Bytes(count)
        } else {
            self.fail();
            Gave::Failed
        }
    }

    /// Hands out the first of the bytes that are ahead. It is called only where some are ahead.
    fn take_ahead(&mut self, into: &mut [u8]) -> Took
        requires some { 0 < length into.old }
        requires ahead { 0 < length self.old.ahead }
        ensures { TakesAs result self.old.own self.new.own into.new }
    {
        let (_, ahead) = self.shown.as_slice().split_at(self.taken);
        let count = ahead.len().min(into.len());
        let (first, _) = ahead.split_at(count);
        let (room, _) = into.split_at_mut(count);
        room.copy_from_slice(first);
        self.taken += count;
        self.heard.note(room);
        Took::Bytes(count)
    }
}

impl<L: Link> UnlockedLink<GatheringLink<WebLink<L>>> {
    ghost use Rattle.std.specs.Prelude.{◌≡◌};

    /// Has the link below send a ping, as `GatheringLink::ping` does. It takes, gives and keeps nothing.
    pub(crate) fn ping(&mut self)
        ensures { self.new ≡ self.old }
    {
        self.link.ping();
    }
}

impl<L: Link> Link for UnlockedLink<L> {
    ghost state = { λ u. u.own };

    fn take(&mut self, into: &mut [u8]) -> Took {
        if self.taken < self.shown.len() {
            return self.take_ahead(into);
        }
        let took = self.link.take(into);
        match took {
            Took::Bytes(count) => {
                let (bytes, _) = into.split_at(count);
                self.heard.note(bytes);
            }
            Took::Nothing => {}
            Took::End => self.end(),
            Took::Failed => self.fail(),
        }
        took
    }

    fn give(&mut self, bytes: &[u8]) -> Gave {
        if self.given < self.spoken.len() {
            return self.give_owed(bytes);
        }
        let gave = self.link.give(bytes);
        match gave {
            Gave::Bytes(count) => {
                let (given, _) = bytes.split_at(count);
                self.said.note(given);
            }
            Gave::Nothing => {}
            Gave::End => self.end(),
            Gave::Failed => self.fail(),
        }
        gave
    }

    fn flush(&mut self) {
        self.link.flush();
    }

    fn failures(&self) -> u64 {
        self.failures
    }
}
