//! The recorder of a run: a door through which one viewer comes, whose link writes a recording (`record_link`).
//!
//! Memory: `RecorderDoor::new` takes all that the link needs. Handles: Wait and Clock. No clause says how long a wait
//! lasts, or what a file system does with the bytes that it takes.
#![tactic(auto)]

mod door;
mod file;
mod news;
mod standing;
mod watch;

pub use door::{RecorderDoor, RecorderLink, RecordingFiles, RecordingReports};
pub use file::RecordedFile;
pub use news::{EndReason, RecordingEnd, RecordingLog, RecordingNews};
pub use standing::{Beginning, Recording, Standing};
pub use watch::RecorderWatch;
