//! Why a recording can't be read.

use std::alloc::AllocError;
use thiserror::Error;

/// Why a recording can't be read on. Each reason has a number of its own, which programs print.
#[derive(Clone, Copy, Debug, Error)]
pub enum BadRecording {
    /// The first 12 bytes aren't the line with which a recording begins.
    #[error("the file does not begin as a recording does")]
    NotARecording,
    /// A block has more than 16,777,216 bytes of data.
    #[error("a block of the recording is too long")]
    BlockTooLong,
    /// A block's time is before that of the block before it.
    #[error("the time of the recording goes back")]
    TimeGoesBack,
    /// Memory was refused.
    #[error("out of memory")]
    Memory,
}

impl BadRecording {
    ghost use Rattle.std.specs.Prelude.{◌≡◌};
    ghost use Rattle.recording.specs.BadNumber.{number_of};

    /// The number by which programs name the reason.
    pub fn number(&self) -> u64
        ensures { result ≡ number_of self.now }
    {
        match self {
            BadRecording::NotARecording => 1,
            BadRecording::BlockTooLong => 2,
            BadRecording::TimeGoesBack => 3,
            BadRecording::Memory => 20,
        }
    }
}

/// Lets `?` answer `Memory` where memory was refused.
impl From<AllocError> for BadRecording {
    ghost use Rattle.std.specs.Prelude.{◌≡◌};
    ghost use Rattle.recording.specs.declared.bad.BadRecording.TheVariants.{Memory};

    ghost from_gives = { λ _ bad. bad ≡ Memory };

    fn from(_refused: AllocError) -> BadRecording {
        BadRecording::Memory
    }
}
