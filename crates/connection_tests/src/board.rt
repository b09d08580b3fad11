//! What the threads of the run know of one another.

use crate::wire::VIEWERS;
use std::alloc::{AllocError, Global};
use std::sync::Arc;
use std::sync::atomic::{AtomicU64, Ordering};
use std::thread;

/// A thread that waits gives up after this many turns.
const TURNS: u64 = 10_000_000;

/// What has happened in the run.
#[derive(Drop)]
pub(crate) struct Board {
    /// How often the host was told something: it is asked for more once its update was put.
    pub(crate) told: AtomicU64,
    /// How many viewers came.
    came: AtomicU64,
    /// How many viewers left as they should.
    pub(crate) left: AtomicU64,
}

impl Board {
    /// The board of a run in which nothing has happened.
    pub(crate) fn new(alloc: Global) -> Result<Arc<Board, Global>, AllocError> {
        let board = Board {
            told: AtomicU64::new(0),
            came: AtomicU64::new(0),
            left: AtomicU64::new(0),
        };
        Ok(Arc::new(alloc, board)?)
    }

    /// The number of the viewer that comes, counted from 1, or None where all came.
    pub(crate) fn enter(&self) -> Option<u64> {
        let before = self.came.fetch_add(1, Ordering::SeqCst);
        if before < VIEWERS {
            Some(before + 1)
        } else {
            None
        }
    }

    /// The number of the viewer that came last.
    pub(crate) fn number(&self) -> u64 {
        self.came.load(Ordering::SeqCst)
    }

    /// Notes that the viewer that came last has left, and whether it left as it should.
    pub(crate) fn leave(&self, is_right: bool) {
        if is_right {
            let _ = self.left.fetch_add(1, Ordering::SeqCst);
        }
    }
}

/// Waits until this count has reached the least, or until the turns are used up.
pub(crate) fn hold(count: &AtomicU64, least: u64) {
    for _ in 0..TURNS {
        if least <= count.load(Ordering::SeqCst) {
            break;
        }
        thread::yield_now();
    }
}
