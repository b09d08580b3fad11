//! A host that is a recording: its link, and how an operator rests it, has it go on, and seeks.
//!
//! `open_recording` opens the file of a recording, and answers a link over which it is played (`playback`), by a clock.
//! A `Player` knows up to which time is played; the link's thread and the one that hears an operator share it. Memory:
//! what `playback` takes, and the recording's index while it is looked up. Handles: Files, Wait and Clock. No clause
//! says how long a wait lasts, or what a file has.
#![tactic(auto)]

mod deaf;
mod host;
mod index;
mod open;
mod pace;
mod player;

pub use deaf::DeafLink;
pub use host::{PlayedFile, PlayedHost};
pub use index::UnusedIndex;
pub use open::{OpenedRecording, last_time, open_recording};
pub use pace::PlayerPace;
pub use player::{Played, Player};
