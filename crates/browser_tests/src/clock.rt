//! A clock that is put forward by hand.

use std::alloc::{AllocError, Global};
use std::boxed::Box;
use std::io;
use std::random::RandomSource;
use std::sync::Wait;
use std::sync::atomic::{AtomicU64, Ordering};
use std::time::{Clock, Duration};

/// A runtime whose clock stands until it is put forward, or else is the system's, and whose random bytes count on.
#[derive(Clone, Copy, Drop)]
pub(crate) struct ByHand<R: Drop> {
    pub(crate) rt: R,
    /// What a clock that stands shows.
    pub(crate) millis: &'static AtomicU64,
    /// The next random byte. They count on.
    pub(crate) drawn: &'static AtomicU64,
    pub(crate) is_standing: bool,
}

/// What a new clock shows, or the first random byte. It is never freed: the clock may be read for as long as a thread
/// runs.
pub(crate) fn no_millis(alloc: Global) -> Result<&'static AtomicU64, AllocError> {
    let millis = Box::new(alloc, AtomicU64::new(0))?;
    Ok(Box::leak(millis))
}

/// Puts the clock forward. It answers true, as a step that went well.
pub(crate) fn puts_forward(millis: &AtomicU64, more: u64) -> bool {
    let _ = millis.fetch_add(more, Ordering::SeqCst);
    true
}

impl<R: Wait + Drop> Wait for ByHand<R> {}

impl<R: RandomSource + Drop> RandomSource for ByHand<R> {
    fn fill_bytes(&self, bytes: &mut [u8]) -> io::Result<()> {
        for byte in bytes.iter_mut() {
            *byte = (self.drawn.fetch_add(1, Ordering::SeqCst) % 256) as u8;
        }
        Ok(())
    }
}

impl<R: Clock + Drop> Clock for ByHand<R> {
    fn monotonic(&self) -> io::Result<Duration> {
        if self.is_standing {
            Ok(Duration::from_millis(self.millis.load(Ordering::SeqCst)))
        } else {
            self.rt.monotonic()
        }
    }

    fn since_1970(&self) -> io::Result<Duration> {
        self.rt.since_1970()
    }

    fn sleep(&self, duration: Duration) {
        self.rt.sleep(duration)
    }
}
