//! What is counted while a run goes on, for those who ask how it stands.
//!
//! A thread that counts only stores: it takes no lock and waits for nobody. No clause says what stands in a counter,
//! nor that two of them belong together.

use std::sync::atomic::{AtomicU64, Ordering};
use std::time::Clock;

/// The milliseconds that the clock has counted since some start, or 0 where the clock can't be read.
pub fn clock_millis<R: Clock>(rt: &R) -> u64 {
    match rt.monotonic() {
        Ok(time) => {
            let millis = u64::from(time.subsec_millis());
            time.as_secs().saturating_mul(1_000).saturating_add(millis)
        }
        Err(_) => 0,
    }
}

/// What is counted of the viewer that a place has. The place's thread stores, and others read. Each count is 0 again
/// where another viewer comes.
#[derive(Drop)]
pub struct PlaceCount {
    updates: AtomicU64,
    shown: AtomicU64,
    bytes: AtomicU64,
}

impl PlaceCount {
    /// Nothing was counted.
    pub fn new() -> PlaceCount {
        PlaceCount {
            updates: AtomicU64::new(0),
            shown: AtomicU64::new(0),
            bytes: AtomicU64::new(0),
        }
    }

    /// How many answers were begun for the viewer.
    pub fn updates(&self) -> u64 {
        self.updates.load(Ordering::SeqCst)
    }

    /// How many of the run's updates (`HostCount::updates`) had been put at the viewer's last look, whether that led to
    /// an answer or found that nothing it asked for had changed. The viewer is behind by the updates put since.
    pub fn shown(&self) -> u64 {
        self.shown.load(Ordering::SeqCst)
    }

    /// How many bytes the system took for the viewer.
    pub fn bytes(&self) -> u64 {
        self.bytes.load(Ordering::SeqCst)
    }

    /// Notes how many answers were begun for the viewer by now, and how many of the run's updates had been put at its
    /// last look.
    pub fn note_answer(&self, updates: u64, shown: u64) {
        self.updates.store(updates, Ordering::SeqCst);
        self.shown.store(shown, Ordering::SeqCst);
    }

    /// Notes how many bytes the system took for the viewer by now.
    pub fn note_bytes(&self, bytes: u64) {
        self.bytes.store(bytes, Ordering::SeqCst);
    }

    /// Another viewer comes, of which nothing was counted.
    pub fn begin(&self) {
        self.note_answer(0, 0);
        self.note_bytes(0);
    }
}

/// What is counted of the hosts of a run. The thread that reads them stores, and others read.
#[derive(Drop)]
pub struct HostCount {
    updates: AtomicU64,
    heard: AtomicU64,
}

impl HostCount {
    /// Nothing was counted.
    pub fn new() -> HostCount {
        HostCount {
            updates: AtomicU64::new(0),
            heard: AtomicU64::new(0),
        }
    }

    /// How many updates of all hosts of the run were put, including those between two hosts. A viewer that isn't behind
    /// was shown as many.
    pub fn updates(&self) -> u64 {
        self.updates.load(Ordering::SeqCst)
    }

    /// When the host's last byte came, by `clock_millis`.
    pub fn heard(&self) -> u64 {
        self.heard.load(Ordering::SeqCst)
    }

    /// Notes that one more update was put.
    pub fn note_put(&self) {
        self.updates.fetch_add(1, Ordering::SeqCst);
    }

    /// Notes that bytes of the host came just now.
    pub fn hear<R: Clock>(&self, rt: &R) {
        self.heard.store(clock_millis(rt), Ordering::SeqCst);
    }
}
