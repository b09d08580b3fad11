//! Why a recording can't be played.

use recording::BadRecording;
use std::alloc::AllocError;
use thiserror::Error;

/// Why a session that was recorded doesn't open as one that can be played.
#[derive(Clone, Copy, Debug, Error)]
pub enum BadOpening {
    /// It speaks another version of RFB than 3.3, 3.5, 3.7 or 3.8, or none.
    #[error("the recorded session speaks a version of RFB that is not known")]
    UnknownVersion,
    /// The host refused the session that was recorded.
    #[error("the recorded session was refused")]
    Refused,
    /// The host asked for a password, or for something else than security type None.
    #[error("the recorded session does not open without a password")]
    NoNone,
    /// The host's SecurityResult isn't OK.
    #[error("the recorded session was not let in")]
    NotPassed,
}

/// Why a recording can't be played on. Each reason has a number of its own, which programs print.
#[derive(Clone, Copy, Debug, Error)]
pub enum BadPlayback {
    /// The file isn't a recording that can be read on, or memory was refused.
    #[error("{0}")]
    Recording(BadRecording),
    /// The session that was recorded doesn't open as one that can be played.
    #[error("{0}")]
    Opening(BadOpening),
    /// The file could not be read.
    #[error("the file of the recording can not be read")]
    File,
}

impl BadPlayback {
    ghost use Rattle.std.specs.Prelude.{◌≡◌};
    ghost use Rattle.playback.specs.BadNumber.{number_of};

    /// The number by which programs name the reason. Those of `BadRecording` keep theirs.
    pub fn number(&self) -> u64
        ensures { result ≡ number_of self.now }
    {
        match self {
            BadPlayback::Recording(bad) => bad.number(),
            BadPlayback::Opening(BadOpening::UnknownVersion) => 4,
            BadPlayback::Opening(BadOpening::Refused) => 5,
            BadPlayback::Opening(BadOpening::NoNone) => 6,
            BadPlayback::Opening(BadOpening::NotPassed) => 7,
            BadPlayback::File => 8,
        }
    }
}

/// Lets `?` answer why a recording can't be read.
impl From<BadRecording> for BadPlayback {
    ghost use Rattle.std.specs.Prelude.{◌≡◌};
    ghost use Rattle.playback.specs.declared.bad.BadPlayback.TheVariants.{Recording};

    ghost from_gives = { λ bad reason. reason ≡ Recording bad };

    fn from(bad: BadRecording) -> BadPlayback {
        BadPlayback::Recording(bad)
    }
}

/// Lets `?` answer that memory was refused.
impl From<AllocError> for BadPlayback {
    ghost use Rattle.std.specs.Prelude.{◌≡◌};
    ghost use Rattle.recording.specs.declared.bad.BadRecording.TheVariants.{Memory};
    ghost use Rattle.playback.specs.declared.bad.BadPlayback.TheVariants.{Recording};

    ghost from_gives = { λ _ reason. reason ≡ Recording Memory };

    fn from(_refused: AllocError) -> BadPlayback {
        BadPlayback::Recording(BadRecording::Memory)
    }
}
