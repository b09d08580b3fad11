//! Alarms, which end waits.

use link::Rest;
use std::alloc::Global;
use std::sync::{Arc, Wait};
use std::thread;

/// What ends the wait of other threads. No clause says that a thread wakes.
pub trait Alarm {
    /// There is something new: ends the wait of each thread that would look at it, or the next wait of one that isn't
    /// waiting.
    fn ring(&self);

    /// Ends the wait of every thread, or its next wait, even where that thread could do nothing about news.
    fn rouse(&self);
}

/// An alarm for threads that never wait, as over links in memory. A thread that rests on it lets others run.
#[derive(Clone, Copy, Drop)]
pub struct NoAlarm;

impl Alarm for NoAlarm {
    fn ring(&self) {}

    fn rouse(&self) {}
}

impl Rest for NoAlarm {
    fn rest<R: Wait>(&self, _rt: &R) {
        thread::yield_now();
    }
}

impl<B: Alarm> Alarm for Arc<B, Global> {
    fn ring(&self) {
        (**self).ring();
    }

    fn rouse(&self) {
        (**self).rouse();
    }
}
