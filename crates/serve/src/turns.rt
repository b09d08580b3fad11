//! Whose turn it is.

ghost use Rattle.std.specs.Prelude.{◌≡◌, ◌+◌, ◌≤◌, IsNone, Some, is_some, if◌then◌else◌};
ghost use Rattle.serve.specs.Turns.{following, turn_of};

use crate::rested::Rested;

/// The hosts in their order, by number: the first has 0, and those that follow on it have the next numbers. Some of
/// these had their turn since the first had its turn.
#[derive(Drop)]
pub(crate) struct Turns {
    /// How many follow on the first.
    further: usize,
    /// How many seconds after the last host the first has its turn again, or `None` where it hasn't.
    again: Option<u64>,
    /// How many of those that follow had their turn.
    done: usize,
}

/// What shows that a host has its turn after the one whose turn it is: only `Turns::successor` makes one.
#[derive(Clone, Copy, Drop)]
pub(crate) struct Successor {
    only_here: (),
}

impl Turns {
    /// The first host has its turn, and none of those that follow on it had one. It has its turn again so many seconds
    /// after all the others had theirs, if at all.
    pub(crate) fn new(further: usize, again: Option<u64>) -> Turns
        ensures further { result.further ≡ further }
        ensures again { result.again ≡ again }
        ensures none_done { result.done ≡ 0 }
    {
        Turns {
            further,
            again,
            done: 0,
        }
    }

    /// The next of those that follow on the first, or `None` where each had its turn.
    pub(crate) fn next(&mut self) -> Option<usize>
        ensures value { result ≡ following self.old }
        ensures further { self.new.further ≡ self.old.further }
        ensures again { self.new.again ≡ self.old.again }
        ensures done { self.new.done
            ≡ (if is_some result then self.old.done + 1 else self.old.done) }
        ensures all_done { IsNone result → (self.new.further ≤ self.new.done) }
    {
        if self.done < self.further {
            self.done += 1;
            return Some(self.done);
        }
        None
    }

    /// How many seconds after the last host the first has its turn again, or `None` where it hasn't.
    pub(crate) fn again(&self) -> Option<u64>
        ensures { result ≡ self.now.again }
    {
        self.again
    }

    /// What shows that a host has its turn next, if one has. Where the first host has its turn again it may be the one
    /// whose turn it is.
    pub(crate) fn successor(&self) -> Option<Successor>
        ensures { is_some result ≡ is_some (turn_of self.now) }
    {
        if self.done < self.further || self.again.is_some() {
            return Some(Successor { only_here: () });
        }
        None
    }

    /// Gives the first host its turn again. The pause has been made before, as `Rested` shows. After it the others have
    /// their turns again.
    pub(crate) fn begin_anew(&mut self, _rested: Rested) -> usize
        requires rested { self.old.again ≡ Some _rested.seconds }
        ensures value { result ≡ 0 }
        ensures further { self.new.further ≡ self.old.further }
        ensures again { self.new.again ≡ self.old.again }
        ensures none_done { self.new.done ≡ 0 }
    {
        self.done = 0;
        0
    }
}
