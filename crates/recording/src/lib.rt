//! Recorded sessions in the form `FBS 001.000`, in which rfbproxy and VNC Reflector keep them: a writer, a reader, and
//! laws about both.
//!
//! A recording is a line and then blocks. Each block has bytes that a server said, from its version on, and the time at
//! which they came, in milliseconds since the recording began. `specs/Recording` states which bytes spell it, and
//! `specs/BlockReading` how it is read. Memory: the writer takes room for one block as it is made, and the reader room
//! for the block that comes. Handles: none. Bytes come and go as the caller's slices.
#![tactic(auto)]

mod bad;
mod block;
mod form;
mod law;
mod reader;
mod writer;

pub use bad::BadRecording;
pub use block::Block;
pub use form::{FIRST_LINE, LONGEST_READ, LONGEST_SPELLING, LONGEST_WRITTEN};
pub use law::{
    all_is_read, all_is_recorded, beginnings_are_read, one_recording, recordings_are_read,
    recordings_in_pieces,
};
pub use reader::RecordingReader;
pub use writer::RecordingWriter;
