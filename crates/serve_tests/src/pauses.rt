//! A pause is made once.

use serve::Rested;
use std::io;
use std::sync::atomic::{AtomicU64, Ordering};
use std::test::*;
use std::time::{Clock, Duration};

/// A clock that stands still, and counts how often it was told to sleep, and for how many seconds.
#[derive(Drop)]
struct Stopped {
    seconds: AtomicU64,
    times: AtomicU64,
}

impl Clock for Stopped {
    fn monotonic(&self) -> io::Result<Duration> {
        Ok(Duration::ZERO)
    }

    fn since_1970(&self) -> io::Result<Duration> {
        Ok(Duration::ZERO)
    }

    fn sleep(&self, duration: Duration) {
        let _ = self.seconds.fetch_add(duration.as_secs(), Ordering::SeqCst);
        let _ = self.times.fetch_add(1, Ordering::SeqCst);
    }
}

/// A pause of five seconds asks the system once to sleep for that time.
#[test]
fn pause_is_made_once(rt: HostRuntime) {
    let clock = Stopped {
        seconds: AtomicU64::new(0),
        times: AtomicU64::new(0),
    };
    drop(Rested::after(&clock, 5));
    let seconds = clock.seconds.load(Ordering::SeqCst);
    let times = clock.times.load(Ordering::SeqCst);
    assert!(rt; seconds == 5 && times == 1);
}
