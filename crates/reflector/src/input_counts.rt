//! What others read of the viewers' input while a run goes on.

ghost use Rattle.std.specs.Prelude.{◌≡◌, ◌≤◌};

use fault::LIMIT;
use host_writer::DropCount;
use input_relay::Gauge;
use std::alloc::Global;
use std::sync::atomic::{AtomicU64, Ordering};
use std::sync::{Arc, Mutex, Wait};

/// Counts of the viewers' input on its way to the hosts, for those who ask how a run stands. The places' threads never
/// touch them, and the thread that tells the hosts only stores. The lock is for those who ask.
#[derive(Drop)]
pub struct InputCounts {
    gauge: Mutex<Option<Gauge>>,
    dropped: AtomicU64,
}

impl InputCounts {
    /// The counts of a run that hasn't begun.
    pub fn new() -> InputCounts {
        InputCounts {
            gauge: Mutex::new(None),
            dropped: AtomicU64::new(0),
        }
    }

    /// From now on the inputs that wait in this gauge's relay are counted.
    pub(crate) fn attach<R: Wait>(&self, rt: &R, gauge: Gauge) {
        *self.gauge.lock(rt) = Some(gauge);
    }

    /// How many inputs of all places wait for a host: at most 256, and 0 before the run begins.
    pub fn waiting<R: Wait>(&self, rt: &R) -> usize
        ensures { result ≤ 256 }
    {
        let mut guard = self.gauge.lock(rt);
        match &mut *guard {
            Some(gauge) => gauge.waiting(rt),
            None => 0,
        }
    }

    /// How many inputs of all places were dropped: those that another place's stroke kept out, releases of keys that
    /// weren't down, and presses of one key too many. No clause says that this number is up to date; the one that a run
    /// hands back is (`Running`).
    pub fn dropped(&self) -> u64 {
        self.dropped.load(Ordering::SeqCst)
    }
}

/// The number of dropped inputs, as the thread that tells the hosts counts them, and the place where others read it.
#[derive(Drop)]
pub(crate) struct DropCounter {
    pub(crate) count: u64,
    watch: Arc<InputCounts, Global>,
}

impl DropCounter {
    /// A count of 0, which others read in these counts.
    pub(crate) fn new(watch: Arc<InputCounts, Global>) -> DropCounter
        ensures { result.count ≡ 0 }
    {
        DropCounter { count: 0, watch }
    }
}

impl DropCount for DropCounter {
    ghost dropped = { λ drops. drops.count };

    fn count_one(&mut self) {
        self.count = LIMIT.min(self.count.saturating_add(1));
        self.watch.dropped.store(self.count, Ordering::SeqCst);
    }
}
