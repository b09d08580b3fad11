//! Shows a recorded session at a time: writes what its screen looks like then as a file of PNG.
//!
//! `show` opens the recording, plays it up to the time without waiting, and writes the picture. `png_of_recording` does
//! the middle of it, and `png_of_session` does so over any link. Memory: two screens of the session's size and the
//! file. Handles: `show` takes `Files`; all may wait, as a link may.
#![tactic(auto)]

mod at_once;
mod error;
mod file;
mod marked;
mod session;
mod written;

pub use at_once::AtOnce;
pub use error::ShowError;
pub use file::RecordingFile;
pub use session::{png_of_recording, png_of_session};
pub use written::{show, show_each};
