//! Why no index is written.

use fault::Fault;
use rebuilt_index::BadRebuild;
use recording::BadRecording;
use std::alloc::AllocError;
use std::io;
use thiserror::Error;

/// Why the index of a recording isn't written.
#[derive(Debug, Drop, Error)]
pub enum IndexError {
    /// The recording couldn't be opened.
    #[error("the recording can not be opened: {0}")]
    Input(io::Error),
    /// The recording can't be read on, or the session that was recorded says what no host may say.
    #[error("no index can be made: {0}")]
    Rebuild(BadRebuild),
    /// Memory was refused.
    #[error("there is not enough memory")]
    Memory,
    /// There is a file at the path of the index.
    #[error("it has an index already, which is not written over")]
    HasIndex,
    /// The index couldn't be written.
    #[error("the index can not be written: {0}")]
    Output(io::Error),
}

/// Lets `?` answer why an index can't be made.
impl From<BadRebuild> for IndexError {
    ghost use Rattle.written_index.specs.Reasons.{IsReason};

    ghost from_gives = { IsReason };

    fn from(bad: BadRebuild) -> IndexError {
        match bad {
            BadRebuild::Recording(BadRecording::Memory) | BadRebuild::Session(Fault::Memory) => {
                IndexError::Memory
            }
            bad => IndexError::Rebuild(bad),
        }
    }
}

/// Lets `?` answer that memory was refused.
impl From<AllocError> for IndexError {
    ghost use Rattle.std.specs.Prelude.{◌≡◌};
    ghost use Rattle.written_index.specs.declared.error.IndexError.TheVariants.{Memory};

    ghost from_gives = { λ _ error. error ≡ Memory };

    fn from(_refused: AllocError) -> IndexError {
        IndexError::Memory
    }
}
