//! Memory that is kept from others.

use std::alloc::{AllocError, Global};

/// Blocks of at most this many bytes lie in lists of their own once they were freed, one for each size.
const SMALL: usize = 1032;

/// Sizes of small blocks differ by this much. The smallest that is worth taking has 24 bytes.
const STEP: usize = 16;

/// A block that is opened as a hole has this many more bytes at its front, so that it isn't small.
const FRONT: usize = 4096;

/// Blocks that are kept from others.
#[derive(Drop)]
pub struct Hoard {
    alloc: Global,
    blocks: Vec<Vec<u8>>,
    room: usize,
}

impl Hoard {
    /// A hoard with room for this many blocks.
    pub fn new(alloc: Global, room: usize) -> Result<Hoard, AllocError> {
        Ok(Hoard {
            alloc,
            blocks: Vec::with_capacity(alloc, room)?,
            room,
        })
    }

    /// Takes blocks of this size until one is refused, and answers whether one was.
    fn take_size(&mut self, size: usize) -> bool {
        for _ in 0..self.room {
            let Ok(block) = Vec::with_capacity(self.alloc, size) else {
                return true;
            };
            if self.blocks.len() >= self.room || self.blocks.push(block).is_err() {
                return false;
            }
        }
        false
    }

    /// Takes all blocks of this size, of half of it, and so on, as long as they aren't small. It answers whether each
    /// was refused in the end.
    fn take_large(&mut self, most: usize) -> bool {
        let mut is_refused = true;
        let mut size = most;
        for _ in 0..usize::BITS {
            if size <= SMALL {
                break;
            }
            is_refused = self.take_size(size) && is_refused;
            size /= 2;
        }
        is_refused
    }

    /// Takes all blocks of each small size, and answers whether each was refused in the end.
    fn take_small(&mut self) -> bool {
        let mut is_refused = true;
        for step in 0..SMALL / STEP {
            let size = SMALL.saturating_sub(STEP.saturating_mul(step));
            is_refused = self.take_size(size) && is_refused;
        }
        is_refused
    }

    /// Takes all memory in blocks of at most this size, and answers whether more is refused.
    pub fn take_all(&mut self, most: usize) -> bool {
        self.take_large(most) && self.take_small()
    }

    /// Takes all blocks of at most `most` bytes, but leaves a hole of `hole` bytes, and answers whether more is
    /// refused.
    pub fn close(&mut self, most: usize, hole: usize) -> bool {
        let Ok(wide) = Vec::<u8>::with_capacity(self.alloc, hole.saturating_add(FRONT)) else {
            return false;
        };
        let is_refused = self.take_all(most);
        drop(wide);
        let Ok(front) = Vec::with_capacity(self.alloc, FRONT) else {
            return false;
        };
        self.blocks.push(front).is_ok() && is_refused
    }

    /// Gives all blocks back.
    pub fn open(&mut self) {
        self.blocks.clear();
    }
}
