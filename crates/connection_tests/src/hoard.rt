//! Memory that is kept from others.

use std::alloc::{AllocError, Global};

/// The address space has this many bytes. The system gives them in at most `BLOCKS` blocks.
const SPACE: usize = 1 << 47;

const BLOCKS: usize = 1 << 16;

/// Smaller blocks are left free: threads go on with these.
const LEAST: usize = 1 << 25;

/// All memory that could be had in large blocks, untouched. It is given back as this is dropped.
#[derive(Drop)]
pub(crate) struct Hoard {
    blocks: Vec<Vec<u8>>,
}

impl Hoard {
    /// Takes blocks of ever smaller sizes, of each size until one is refused. After that this thread is refused each
    /// further block of 32 MiB or more. It answers None where blocks were never refused.
    pub(crate) fn new(alloc: Global) -> Result<Option<Hoard>, AllocError> {
        let blocks = Vec::with_capacity(alloc, BLOCKS)?;
        let mut hoard = Hoard { blocks };
        let mut is_refused = true;
        let mut size = SPACE;
        for _ in 0..usize::BITS {
            if size < LEAST {
                break;
            }
            is_refused = hoard.take(alloc, size) && is_refused;
            size /= 2;
        }
        Ok(is_refused.then_some(hoard))
    }

    /// Takes blocks of this size until one is refused, or there is no room for more. It answers whether one was.
    fn take(&mut self, alloc: Global, size: usize) -> bool {
        for _ in 0..BLOCKS {
            let Ok(block) = Vec::with_capacity(alloc, size) else {
                return true;
            };
            if self.blocks.len() >= BLOCKS || self.blocks.push(block).is_err() {
                return false;
            }
        }
        false
    }
}
