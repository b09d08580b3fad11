//! Whether it is worth making forms of tiles and encoding areas, in which format, and whether viewers share parts of
//! ZRLE. No clause rests on it.

use painter::Wanted;
use pixel_format::Format;
use std::alloc::Global;
use std::sync::Arc;
use std::sync::atomic::{AtomicBool, AtomicUsize, Ordering};

/// The format in which browsers draw: 32 bits, the least significant byte first, 8 bits a channel, red lowest (RFC
/// 6143, 7.4).
const BROWSERS: [u8; 16] = [32, 24, 0, 1, 0, 255, 0, 255, 0, 255, 0, 8, 16, 0, 0, 0];

/// Whether this is the format in which browsers draw.
fn is_browsers(format: Format) -> bool {
    Format::read(&BROWSERS).is_ok_and(|browsers| browsers == format)
}

/// Counts the watchers for which forms of tiles are wanted, all of them and those of the two formats in which most
/// viewers draw; and those for which parts are wanted.
#[derive(Drop)]
pub(crate) struct Demand {
    watchers: AtomicUsize,
    in_hosts: AtomicUsize,
    in_browsers: AtomicUsize,
    in_parts: AtomicUsize,
}

impl Demand {
    /// A demand of no watcher.
    pub(crate) fn new() -> Demand {
        Demand {
            watchers: AtomicUsize::new(0),
            in_hosts: AtomicUsize::new(0),
            in_browsers: AtomicUsize::new(0),
            in_parts: AtomicUsize::new(0),
        }
    }

    /// The format in which areas are to be encoded, where two watchers or more would share forms: the one of the two
    /// that more of them want. A single watcher makes a form as quickly itself, as it writes.
    fn format(&self) -> Option<Format> {
        if self.watchers.load(Ordering::SeqCst) < 2 {
            return None;
        }
        let in_browsers = self.in_browsers.load(Ordering::SeqCst);
        if self.in_hosts.load(Ordering::SeqCst) < in_browsers {
            return Format::read(&BROWSERS).ok();
        }
        Some(Format::HOST)
    }

    /// What is worth keeping of an update. Parts are shared where two watchers or more want them.
    pub(crate) fn wanted(&self) -> Wanted {
        Wanted {
            forms: self.format(),
            parts: 2 <= self.in_parts.load(Ordering::SeqCst),
        }
    }
}

/// What one watcher adds to the demand.
#[derive(Drop)]
pub(crate) struct Claim {
    demand: Arc<Demand, Global>,
    is_made: AtomicBool,
    is_in_hosts: AtomicBool,
    is_in_browsers: AtomicBool,
    is_in_parts: AtomicBool,
}

/// Notes whether a watcher adds one to a count from now on.
fn count(is_added: &AtomicBool, count: &AtomicUsize, adds: bool) {
    if is_added.load(Ordering::SeqCst) == adds {
        return;
    }
    is_added.store(adds, Ordering::SeqCst);
    if adds {
        count.fetch_add(1, Ordering::SeqCst);
    } else {
        count.fetch_sub(1, Ordering::SeqCst);
    }
}

impl Claim {
    /// A claim that adds nothing yet.
    pub(crate) fn new(demand: Arc<Demand, Global>) -> Claim {
        Claim {
            demand,
            is_made: AtomicBool::new(false),
            is_in_hosts: AtomicBool::new(false),
            is_in_browsers: AtomicBool::new(false),
            is_in_parts: AtomicBool::new(false),
        }
    }

    /// Notes what is wanted for its watcher from now on.
    pub(crate) fn set(&self, wanted: Wanted) {
        let demand: &Demand = &self.demand;
        let in_hosts = wanted.forms == Some(Format::HOST);
        let in_browsers = wanted.forms.is_some_and(is_browsers);
        count(&self.is_made, &demand.watchers, wanted.forms.is_some());
        count(&self.is_in_hosts, &demand.in_hosts, in_hosts);
        count(&self.is_in_browsers, &demand.in_browsers, in_browsers);
        count(&self.is_in_parts, &demand.in_parts, wanted.parts);
    }
}
