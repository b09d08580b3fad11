//! The hosts' writer, as the rest of a run reaches it.

use connections::WriterSeat;
use reflector::InputCounts;
use std::alloc::{AllocError, Global};
use std::sync::Arc;

/// The hosts' writer, as the rest of a run reaches it.
#[derive(Drop)]
pub(crate) struct WriterReach {
    /// Where it rests.
    pub(crate) seat: Arc<WriterSeat, Global>,
    /// The counts of the input that it takes.
    pub(crate) input: Arc<InputCounts, Global>,
}

impl WriterReach {
    /// The same writer, for another thread.
    pub(crate) fn another(&self) -> Result<WriterReach, AllocError> {
        Ok(WriterReach {
            seat: Arc::try_clone(&self.seat)?,
            input: Arc::try_clone(&self.input)?,
        })
    }
}
