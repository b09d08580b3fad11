//! The end of a run.

ghost use Rattle.std.specs.Prelude.{⊤};

use crate::alarm::Alarm;
use link::StopFlag;
use std::sync::atomic::{AtomicBool, Ordering};

/// A flag that threads share, and the alarm that ends their waits. No clause knows when it is set.
#[derive(Drop)]
pub struct Stop<B: Alarm + Drop> {
    flag: AtomicBool,
    alarm: B,
}

impl<B: Alarm + Drop> Stop<B> {
    /// A flag that isn't set.
    pub fn new(alarm: B) -> Stop<B> {
        Stop {
            flag: AtomicBool::new(false),
            alarm,
        }
    }

    /// Sets the flag, and then ends each wait.
    pub fn set(&self) {
        self.flag.store(true, Ordering::SeqCst);
        self.alarm.rouse();
    }
}

impl<B: Alarm + Drop> StopFlag for Stop<B> {
    ghost was_set = { λ _. ⊤ };

    fn is_set(&self) -> bool {
        self.flag.load(Ordering::SeqCst)
    }
}
