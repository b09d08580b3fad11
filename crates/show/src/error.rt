//! Why nothing is shown.

use fault::Fault;
use playback::BadPlayback;
use std::alloc::AllocError;
use std::io;
use thiserror::Error;

/// Why a recording isn't shown at a time.
#[derive(Debug, Drop, Error)]
pub enum ShowError {
    /// The recording couldn't be opened.
    #[error("the recording can not be opened: {0}")]
    Input(io::Error),
    /// The recording can't be played up to that time.
    #[error("the recording can not be played: {0}")]
    Playback(BadPlayback),
    /// The recorded session says by that time what no host may say.
    #[error("the recorded session is at fault: {0}")]
    Session(Fault),
    /// By that time the recorded session has told no screen yet.
    #[error("the recording shows no screen by then")]
    NoScreen,
    /// Memory was refused.
    #[error("there is not enough memory")]
    Memory,
    /// The picture couldn't be written.
    #[error("the picture can not be written: {0}")]
    Output(io::Error),
}

/// Lets `?` answer that memory was refused.
impl From<AllocError> for ShowError {
    fn from(_error: AllocError) -> ShowError {
        ShowError::Memory
    }
}
