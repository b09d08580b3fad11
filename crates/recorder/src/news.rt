//! What a recorder tells.

use fault::Fault;
use std::io::ErrorKind;
use std::time::Duration;

/// Why a recording ended.
#[derive(Clone, Copy, Debug)]
pub enum EndReason {
    /// The run ended.
    RunOver,
    /// The file took no more, as the system said.
    File(ErrorKind),
    /// The session ended with this fault.
    Fault(Fault),
}

/// How a recording ended.
#[derive(Clone, Copy, Debug)]
pub struct RecordingEnd {
    pub why: EndReason,
    /// For how long it went on: no time where the clock can't be read.
    pub lasted: Duration,
    /// How many answers were begun for the recorder.
    pub answers: u64,
    /// How many bytes the file took.
    pub bytes: u64,
}

/// What happens to a recording.
#[derive(Clone, Copy, Debug)]
pub enum RecordingNews {
    /// It has begun.
    Begun,
    /// It has ended so.
    Ended(RecordingEnd),
}

/// Who is told what happens to a recording. No clause says what becomes of it.
pub trait RecordingLog: Drop {
    fn note(&self, news: &RecordingNews);
}
