//! A link whose peer is the file of a recording.
//!
//! A `RecordLink` is given what a session says, and has it kept by a `GrowingRecording` as the blocks of a recording,
//! in a `Storage`: a file of which nothing is known but what POSIX says of `write`. It hands out what a viewer says
//! that looks on (RFC 6143, 7.1 to 7.3 and 7.5). `specs/Growing` states what the file has, and `specs/Talking` what is
//! said. Memory: room for three blocks, taken as the recording is made. Handles: none.
#![tactic(auto)]

mod growing;
mod law;
mod recorder;
mod storage;
mod talk;
mod tape;

pub use growing::GrowingRecording;
pub use law::{key_moments_lead_on, whole_recordings_are_read};
pub use recorder::{RecordLink, Watch};
pub use storage::Storage;
