//! How a recording stands, for those who ask while the run goes on.

use run_traits::clock_millis;
use std::io::ErrorKind;
use std::sync::atomic::{AtomicU64, Ordering};
use std::sync::{Condvar, Mutex, Wait};
use std::time::{Clock, Duration};

/// When a recording began, by each of the two clocks.
#[derive(Clone, Copy, Debug)]
pub struct Beginning {
    /// By `clock_millis`.
    pub millis: u64,
    /// In whole seconds since the beginning of 1970 in UTC, or 0 where that clock can't be read.
    pub epoch_seconds: u64,
}

impl Beginning {
    /// A recording that begins now.
    fn now<R: Clock>(rt: &R) -> Beginning {
        Beginning {
            millis: clock_millis(rt),
            epoch_seconds: match rt.since_1970() {
                Ok(time) => time.as_secs(),
                Err(_) => 0,
            },
        }
    }
}

/// How a recording stands.
#[derive(Clone, Copy, Debug)]
pub enum Standing {
    /// It waits for the first host.
    Awaited,
    /// It goes on since then.
    Begun(Beginning),
    /// It ended with the run, or with the recorder's session.
    Ended,
    /// It ended since its file took no more.
    Failed(ErrorKind),
}

/// What is known of a recording. The thread that records stores it, and others read: no clause says what stands here.
#[derive(Drop)]
pub struct Recording {
    bytes: AtomicU64,
    standing: Mutex<Standing>,
    is_over: Condvar,
}

impl Recording {
    /// A recording that waits for the first host.
    pub fn new() -> Recording {
        Recording {
            bytes: AtomicU64::new(0),
            standing: Mutex::new(Standing::Awaited),
            is_over: Condvar::new(),
        }
    }

    /// How many bytes its file took.
    pub fn bytes(&self) -> u64 {
        self.bytes.load(Ordering::SeqCst)
    }

    /// How it stands.
    pub fn standing<R: Wait>(&self, rt: &R) -> Standing {
        *self.standing.lock(rt)
    }

    /// Counts bytes that its file took.
    pub(crate) fn count(&self, more: u64) {
        self.bytes.fetch_add(more, Ordering::SeqCst);
    }

    /// It begins now.
    pub(crate) fn begin<R: Wait + Clock>(&self, rt: &R) {
        *self.standing.lock(rt) = Standing::Begun(Beginning::now(rt));
    }

    /// The recording is over: because its file took no more, where `failure` says so, and otherwise with the run.
    pub(crate) fn end<R: Wait>(&self, rt: &R, failure: Option<ErrorKind>) {
        let mut standing = self.standing.lock(rt);
        *standing = match failure {
            Some(kind) => Standing::Failed(kind),
            None => Standing::Ended,
        };
        self.is_over.notify_all();
    }

    /// Waits until it is over, if it has begun, but no longer than this.
    pub fn await_end<R: Wait + Clock>(&self, rt: &R, patience: Duration) {
        let guard = self.standing.lock(rt);
        let (guard, _) = self
            .is_over
            .wait_timeout_while(rt, guard, patience, |standing| {
                matches!(*standing, Standing::Begun(_))
            });
        drop(guard);
    }
}
