//! What the peers of a run know of one another.

use crate::sight::View;
use fault::Fault;
use std::alloc::Global;
use std::sync::Arc;
use std::sync::atomic::{AtomicU64, Ordering};
use std::thread;

/// A call that is held fails after this many turns.
const TURNS: u64 = 20_000_000;

/// What each place was shown, what its viewers handed out, what the host was told, and what went wrong.
#[derive(Drop)]
pub(crate) struct Board {
    shown: [AtomicU64; 4],
    // How many viewers are at each place.
    inside: [AtomicU64; 4],
    /// How many key events were handed out.
    pub(crate) handed: AtomicU64,
    /// How many key events the host was told of.
    pub(crate) told: AtomicU64,
    // The number of the update that turns the screen black.
    black: u64,
    /// The screen.
    pub(crate) view: &'static View,
    /// 1 where something went wrong.
    pub(crate) flaws: AtomicU64,
}

/// What is waited for.
#[derive(Drop)]
pub(crate) enum Gate {
    /// Nothing.
    Open,
    /// This place, counted from 0, was shown this update, or a later one.
    Shown(usize, u64),
    /// All four places were shown this update, or a later one.
    All(u64),
    /// Viewers handed out this many key events.
    Handed(u64),
    /// The host was told of this many key events.
    Told(u64),
}

impl Board {
    /// A board of a run over this screen, where the update of this number turns it black.
    pub(crate) fn new(
        alloc: Global,
        view: &'static View,
        black: u64,
    ) -> Result<Arc<Board, Global>, Fault> {
        let shown = [
            AtomicU64::new(0),
            AtomicU64::new(0),
            AtomicU64::new(0),
            AtomicU64::new(0),
        ];
        let inside = [
            AtomicU64::new(0),
            AtomicU64::new(0),
            AtomicU64::new(0),
            AtomicU64::new(0),
        ];
        let board = Board {
            shown,
            inside,
            handed: AtomicU64::new(0),
            told: AtomicU64::new(0),
            black,
            view,
            flaws: AtomicU64::new(0),
        };
        Ok(Arc::new(alloc, board)?)
    }

    /// Whether what is waited for has come.
    pub(crate) fn is_open(&self, gate: &Gate) -> bool {
        match gate {
            Gate::Open => true,
            Gate::Shown(place, update) => match self.shown.get(*place) {
                Some(shown) => *update <= shown.load(Ordering::SeqCst),
                None => false,
            },
            Gate::All(update) => {
                let mut least = u64::MAX;
                for shown in &self.shown {
                    least = least.min(shown.load(Ordering::SeqCst));
                }
                *update <= least
            }
            Gate::Handed(count) => *count <= self.handed.load(Ordering::SeqCst),
            Gate::Told(count) => *count <= self.told.load(Ordering::SeqCst),
        }
    }

    /// Waits for it. It answers false, and notes a flaw, where it hasn't come after all turns.
    pub(crate) fn hold(&self, gate: &Gate) -> bool {
        for _ in 0..TURNS {
            if self.is_open(gate) {
                return true;
            }
            thread::yield_now();
        }
        self.check(false);
        false
    }

    /// Notes a flaw where this isn't right.
    pub(crate) fn check(&self, is_right: bool) {
        if !is_right {
            self.flaws.store(1, Ordering::SeqCst);
        }
    }

    /// A viewer comes to this place, where no other may be.
    pub(crate) fn enter(&self, place: usize) {
        if let Some(inside) = self.inside.get(place) {
            self.check(inside.fetch_add(1, Ordering::SeqCst) == 0);
        }
    }

    /// The viewer at this place has left it.
    pub(crate) fn leave(&self, place: usize) {
        if let Some(inside) = self.inside.get(place) {
            self.check(inside.fetch_sub(1, Ordering::SeqCst) == 1);
        }
    }

    /// Whether no viewer is at any place.
    pub(crate) fn is_left(&self) -> bool {
        let mut is_left = true;
        for inside in &self.inside {
            is_left = inside.load(Ordering::SeqCst) == 0 && is_left;
        }
        is_left
    }

    /// This place was shown this colour, and so the update of its number.
    pub(crate) fn show(&self, place: usize, colour: u64) {
        let is_black = colour == 0 && self.is_open(&Gate::Shown(place, 1));
        self.reach(place, if is_black { self.black } else { colour });
    }

    /// This place was shown this update. What was shown never goes back to an update before.
    pub(crate) fn reach(&self, place: usize, number: u64) {
        if let Some(shown) = self.shown.get(place) {
            self.check(shown.load(Ordering::SeqCst) <= number);
            shown.store(number, Ordering::SeqCst);
        }
    }
}
