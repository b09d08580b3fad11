//! What is counted.

/// A number for each role.
#[derive(Clone, Copy, Debug)]
pub struct ByRole {
    /// Of those with full control.
    pub full: u64,
    /// Of those that only look on.
    pub view: u64,
}

/// By how many updates viewers are behind: half of them by at most the first number, nine in ten by at most the second,
/// and all of them by at most the third.
#[derive(Clone, Copy, Debug)]
pub struct Lag {
    pub half: u64,
    pub nine_tenths: u64,
    pub all: u64,
}

/// What is counted of a run's recording.
#[derive(Clone, Copy, Debug)]
pub struct RecordingCounts {
    /// Whether the run is being recorded.
    pub is_on: bool,
    /// When the recording that goes on began, in seconds since the beginning of 1970 in UTC: 0 where none goes on.
    pub start_seconds: u64,
    /// Whether the recording ended since its file took no more.
    pub has_failed: bool,
    /// How many bytes its file took.
    pub bytes: u64,
}

/// What a reflector counts. Sums are of the whole run, and only grow.
#[derive(Clone, Copy, Debug)]
pub struct Counters {
    /// Whether a host is joined.
    pub is_joined: bool,
    /// How many seconds ago the host's last byte came.
    pub silent_seconds: u64,
    /// How many hosts were joined.
    pub joins: u64,
    /// How many places there are.
    pub places: ByRole,
    /// How many viewers have a place.
    pub viewers: ByRole,
    /// How many viewers came.
    pub came: ByRole,
    /// How many viewers were refused, for whatever reason.
    pub refused: ByRole,
    /// How many updates of hosts were put.
    pub updates: u64,
    /// How many updates were begun for viewers.
    pub answers: u64,
    /// How many bytes were sent to viewers.
    pub bytes: u64,
    /// How many inputs of viewers wait for the host now.
    pub waiting: u64,
    /// How many inputs were dropped on their way to a host.
    pub dropped: u64,
    /// What is counted of the recording: of a run that isn't recorded, nothing.
    pub recorded: RecordingCounts,
    /// By how many updates the viewers are behind now.
    pub lag: Lag,
}
