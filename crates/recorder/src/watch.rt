//! When the recorder looks.

use connections::Seat;
use record_link::Watch;
use std::alloc::Global;
use std::sync::{Arc, Wait};
use std::thread;
use std::time::{Clock, Duration, Instant};

/// The longest wait for news, in milliseconds: what was recorded is in whole blocks of the file at least so often.
const LONGEST_WAIT_MILLIS: u64 = 1_000;

/// The clock of a recording, which begins when it is first asked, and the seat at which the recorder's thread waits for
/// news of the screen.
#[derive(Drop)]
pub struct RecorderWatch<R: Wait + Clock + Drop> {
    rt: R,
    seat: Arc<Seat, Global>,
    began: Option<Instant>,
}

impl<R: Wait + Clock + Drop> RecorderWatch<R> {
    /// A watch that has shown no time yet, for a thread that waits at this seat.
    pub fn new(rt: R, seat: Arc<Seat, Global>) -> RecorderWatch<R> {
        RecorderWatch {
            rt,
            seat,
            began: None,
        }
    }

    /// How long the recording goes on, or no time where the clock can't be read or wasn't asked before.
    pub fn elapsed(&self) -> Duration {
        match &self.began {
            Some(began) => began.elapsed(&self.rt).unwrap_or(Duration::ZERO),
            None => Duration::ZERO,
        }
    }
}

impl<R: Wait + Clock + Drop> Watch for RecorderWatch<R> {
    /// Past the latest time that a recording can tell, 49 days, it stays there.
    fn now(&mut self) -> u32 {
        if self.began.is_none() {
            self.began = Instant::now(&self.rt).ok();
        }
        u32::try_from(self.elapsed().as_millis()).unwrap_or(u32::MAX)
    }

    fn wait(&mut self) {
        if self.seat.answer() {
            // The seat was rung, so the session looks.
            return;
        }
        let most = Duration::from_millis(LONGEST_WAIT_MILLIS);
        if self.seat.wait(&self.rt, Some(most)).is_err() {
            thread::sleep(&self.rt, most);
        }
        self.seat.answer();
    }
}
