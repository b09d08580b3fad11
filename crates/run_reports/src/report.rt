//! What a run reports of itself.

use roles::Role;
use run_control::Entry;

/// A host that is joined.
#[derive(Clone, Copy, Debug)]
pub struct HostReport<'a> {
    /// Its address, as text.
    pub address: &'a str,
    /// Its name, in which bytes that aren't printable, and quotation marks, are escaped.
    pub name: &'a str,
    /// The width of its screen in pixels.
    pub width: u64,
    /// The height of its screen in pixels.
    pub height: u64,
    /// For how many seconds it has been joined.
    pub seconds: u64,
    /// How many seconds ago its last byte came.
    pub silent: u64,
    /// How many updates it has sent.
    pub updates: u64,
}

/// A viewer that has a place.
#[derive(Clone, Copy, Debug)]
pub struct ViewerReport<'a> {
    /// The number of the place, counted from 1.
    pub place: u64,
    /// What the viewer may do.
    pub role: Role,
    /// Its address, as text.
    pub address: &'a str,
    /// For how many seconds it has been there.
    pub seconds: u64,
    /// How many updates were begun for it.
    pub updates: u64,
    /// How many bytes it was sent.
    pub bytes: u64,
    /// By how many updates it is behind.
    pub behind: u64,
    /// Whether it was asked to leave.
    pub is_asked: bool,
}

/// How a recording stands.
#[derive(Clone, Copy, Debug, PartialEq, Eq)]
pub enum RecordingState {
    /// It waits for the first host.
    Awaited,
    /// It goes on.
    On,
    /// It has ended with the run, or with the recorder's session.
    Ended,
    /// It has ended since its file took no more.
    Failed,
}

/// The recording of a run.
#[derive(Clone, Copy, Debug)]
pub struct RecordingReport {
    pub state: RecordingState,
    /// For how many seconds it has gone on: 0 where it doesn't.
    pub seconds: u64,
    /// How many bytes its file took.
    pub bytes: u64,
}

/// A recording that is played as the host.
#[derive(Clone, Copy, Debug)]
pub struct PlayedReport<'a> {
    /// The time up to which it is played, as text.
    pub time: &'a str,
    /// Whether it rests.
    pub is_paused: bool,
}

/// How a run stands.
#[derive(Clone, Copy, Debug)]
pub struct Report<'a> {
    /// Whether viewers are let in.
    pub entry: Entry,
    /// The host, if one is joined.
    pub host: Option<HostReport<'a>>,
    /// The recording that is played, if one is.
    pub played: Option<PlayedReport<'a>>,
    /// How many places there are for viewers with full control.
    pub full_places: u64,
    /// How many places there are for viewers that only look on.
    pub view_places: u64,
    /// How many inputs of viewers wait for the host.
    pub waiting: u64,
    /// How many inputs were dropped on their way to a host.
    pub dropped: u64,
    /// The recording, if the run is recorded.
    pub recording: Option<RecordingReport>,
    /// The viewers that have a place, in the order of the places.
    pub viewers: &'a [ViewerReport<'a>],
}
