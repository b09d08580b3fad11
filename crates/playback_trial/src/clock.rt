//! A pace that acts set.

use playback::Pace;
use std::cell::Cell;

/// The time up to which may be shown, and the one that was waited for last, if any was.
#[derive(Drop)]
pub(crate) struct Hands {
    pub(crate) time: Cell<u64>,
    pub(crate) wanted: Cell<Option<u64>>,
}

impl Hands {
    /// Nothing may be shown but what was said at time 0.
    pub(crate) fn new() -> Hands {
        Hands {
            time: Cell::new(0),
            wanted: Cell::new(None),
        }
    }
}

/// A pace that shows this time. It doesn't wait.
#[derive(Drop)]
pub(crate) struct Clock<'a> {
    pub(crate) hands: &'a Hands,
}

impl Pace for Clock<'_> {
    ghost has_come = { λ _. Unit {0} };

    fn time(&self) -> u64 {
        self.hands.time.get()
    }

    fn wait(&self, until: u64) {
        self.hands.wanted.set(Some(until));
    }
}
