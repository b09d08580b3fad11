//! A screen, a watch over a loop, and links for the tests of the loops.

ghost use Rattle.std.specs.Prelude.{◌≡◌, IfOk};

use fault::Fault;
use link::{Gave, MemoryLink, Rest, StopFlag, Took};
use painter::Painter;
use raster::Rect;
use reflect_core::{PlainScreen, Puts};
use std::alloc::Global;
use std::sync::Wait;
use std::sync::atomic::{AtomicU64, Ordering};

/// The whole of a screen of 2 by 1.
pub(crate) const AREA: Rect = Rect {
    x: 0,
    y: 0,
    w: 2,
    h: 1,
};

/// This is more often than any flag is asked.
pub(crate) const ALWAYS: u64 = 1 << 62;

/// A flag that is set once it was asked this often, and a rest that counts how often it was rested on.
#[derive(Drop)]
pub(crate) struct Watch {
    calls: u64,
    pub(crate) asked: AtomicU64,
    pub(crate) rests: AtomicU64,
}

impl StopFlag for Watch {
    ghost was_set = { λ flag. Unit {0} };

    fn is_set(&self) -> bool {
        self.asked.fetch_add(1, Ordering::SeqCst) >= self.calls
    }
}

impl Rest for Watch {
    fn rest<R: Wait>(&self, _rt: &R) {
        let _ = self.rests.fetch_add(1, Ordering::SeqCst);
    }
}

/// A flag that is set once it was asked this often, and a rest on which no thread has rested.
pub(crate) fn make_watch(calls: u64) -> Watch {
    Watch {
        calls,
        asked: AtomicU64::new(0),
        rests: AtomicU64::new(0),
    }
}

/// A screen of 2 by 1, red and blue, whose tally was raised.
pub(crate) fn red_and_blue(alloc: Global) -> Result<PlainScreen, Fault>
    ensures { IfOk result (λ screen. (screen.width ≡ 2) × (screen.height ≡ 1)) }
{
    let mut painter = Painter::new(alloc, 2, 1)?;
    painter.put(AREA, &[0xFF0000, 0x0000FF]);
    let mut screen = PlainScreen::new(alloc, 2, 1)?;
    let _ = screen.put(painter.patch()?).is_ok();
    screen.raise();
    Ok(screen)
}

/// The number of the fault, or 0.
pub(crate) fn number(answer: Result<(), Fault>) -> u64 {
    match answer {
        Ok(()) => 0,
        Err(fault) => fault.number(),
    }
}

/// Each of these items, as often as the number beside it says, in order.
fn in_full<T: Copy + Drop>(alloc: Global, runs: &[(T, usize)]) -> Result<Vec<T>, Fault> {
    let mut full = Vec::new(alloc);
    for (answer, times) in runs {
        let count = full.len().saturating_add(*times);
        full.resize(count, *answer)?;
    }
    Ok(full)
}

/// A link that sends these bytes by these answers, and takes by those; beside each is how often it answers so.
pub(crate) fn link_of(
    alloc: Global,
    sends: &[u8],
    takes: &[(Took, usize)],
    gives: &[(Gave, usize)],
) -> Result<MemoryLink, Fault> {
    let takes = in_full(alloc, takes)?;
    let gives = in_full(alloc, gives)?;
    MemoryLink::new(alloc, sends.to_vec(alloc)?, takes, gives)
}
