//! Why no index can be made.

use fault::Fault;
use recording::BadRecording;
use std::alloc::{AllocError, AllocFailed};
use thiserror::Error;

/// Why the index of a recording can't be made.
#[derive(Clone, Copy, Debug, Error)]
pub enum BadRebuild {
    /// The file isn't a recording that can be read on, or memory was refused.
    #[error("{0}")]
    Recording(BadRecording),
    /// The session that was recorded says what no host may say.
    #[error("the recorded session is at fault: {0}")]
    Session(Fault),
    /// The file could not be read.
    #[error("the file of the recording can not be read")]
    File,
}

/// Lets `?` answer why a recording can't be read.
impl From<BadRecording> for BadRebuild {
    ghost use Rattle.std.specs.Prelude.{◌≡◌};
    ghost use Rattle.rebuilt_index.specs.declared.bad.BadRebuild.TheVariants.{Recording};

    ghost from_gives = { λ bad reason. reason ≡ Recording bad };

    fn from(bad: BadRecording) -> BadRebuild {
        BadRebuild::Recording(bad)
    }
}

/// Lets `?` answer the fault of a session.
impl From<Fault> for BadRebuild {
    ghost use Rattle.std.specs.Prelude.{◌≡◌};
    ghost use Rattle.rebuilt_index.specs.declared.bad.BadRebuild.TheVariants.{Session};

    ghost from_gives = { λ fault reason. reason ≡ Session fault };

    fn from(fault: Fault) -> BadRebuild {
        BadRebuild::Session(fault)
    }
}

/// Lets `?` answer that memory was refused.
impl From<AllocError> for BadRebuild {
    ghost use Rattle.std.specs.Prelude.{◌≡◌};
    ghost use Rattle.recording.specs.declared.bad.BadRecording.TheVariants.{Memory};
    ghost use Rattle.rebuilt_index.specs.declared.bad.BadRebuild.TheVariants.{Recording};

    ghost from_gives = { λ _ reason. reason ≡ Recording Memory };

    fn from(_refused: AllocError) -> BadRebuild {
        BadRebuild::Recording(BadRecording::Memory)
    }
}

/// Lets `?` answer that memory was refused. The value that couldn't be stored is dropped.
impl<T: Drop> From<AllocFailed<T>> for BadRebuild {
    ghost use Rattle.std.specs.Prelude.{◌≡◌};
    ghost use Rattle.recording.specs.declared.bad.BadRecording.TheVariants.{Memory};
    ghost use Rattle.rebuilt_index.specs.declared.bad.BadRebuild.TheVariants.{Recording};

    ghost from_gives = { λ _ reason. reason ≡ Recording Memory };

    fn from(_refused: AllocFailed<T>) -> BadRebuild {
        BadRebuild::Recording(BadRecording::Memory)
    }
}
