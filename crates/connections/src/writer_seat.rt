//! Where the host's writer rests.

use link::Rest;
use run_traits::Alarm;
use std::sync::Wait;
use std::sync::atomic::{AtomicBool, Ordering};
use std::thread::Parker;

/// Where the host's writer rests until it is rung. A ring before a rest ends that rest.
#[derive(Drop)]
pub struct WriterSeat {
    parker: Parker,
    // Whether it was rung, and no rest has ended since.
    is_rung: AtomicBool,
    is_resting: AtomicBool,
}

impl WriterSeat {
    /// A seat that hasn't been rung.
    pub fn new() -> WriterSeat {
        WriterSeat {
            parker: Parker::new(),
            is_rung: AtomicBool::new(false),
            is_resting: AtomicBool::new(false),
        }
    }

    /// Whether the writer rests, and has looked since it was rung last. It rests where it has nothing to tell. So once
    /// nobody rings any more, all is told. No clause says so.
    pub fn is_quiet(&self) -> bool {
        // A rest ends before its ring is cleared. So where no ring is seen, and a rest is seen after that, the rest
        // began after the last ring was cleared.
        !self.is_rung.load(Ordering::SeqCst) && self.is_resting.load(Ordering::SeqCst)
    }
}

impl Alarm for WriterSeat {
    fn ring(&self) {
        self.is_rung.store(true, Ordering::SeqCst);
        self.parker.unpark();
    }

    fn rouse(&self) {
        self.ring();
    }
}

impl Rest for WriterSeat {
    fn rest<R: Wait>(&self, rt: &R) {
        self.is_resting.store(true, Ordering::SeqCst);
        self.parker.park(rt);
        self.is_resting.store(false, Ordering::SeqCst);
        self.is_rung.store(false, Ordering::SeqCst);
    }
}
