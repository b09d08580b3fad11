//! What a run's log is told: what happens at the doors and at the host, and what only the run knows.

ghost use Rattle.std.specs.Prelude.{◌≡◌};
ghost use Rattle.serve.specs.Gravities.{end_gravity, gravity_for};

use crate::order::{SkipOrder, StopOrder};
use playback::BadPlayback;
use player::UnusedIndex;
use recorder::{EndReason, RecordingEnd, RecordingNews};
use run_reports::Gravity;
use run_traits::{Event, Log};
use std::net::SocketAddr;

/// What happens in a run. An address that the system doesn't tell is missing.
#[derive(Clone, Copy)]
pub(crate) enum Incident<'a> {
    /// This happens at a door or at the host.
    Noted(&'a Event<'a>),
    /// Machines that watch the run can connect here.
    MetricsListening(SocketAddr),
    /// A host that calls can connect here.
    HostsListening(SocketAddr),
    /// The host was left because the run was asked to stop, as the `StopOrder` shows.
    HostStopped(Option<SocketAddr>, StopOrder),
    /// The host was left because the run was asked for its next one, as the `SkipOrder` shows.
    HostSkipped(Option<SocketAddr>, SkipOrder),
    /// The recording that was played was left because another time of it was asked for.
    RecordingSought,
    /// The recording that was played was left because it can't be played on, for this reason.
    RecordingBad(BadPlayback),
    /// The index beside the recording at this path isn't used, for this reason.
    IndexUnused(&'a str, UnusedIndex),
    /// This happens to the recording at this path.
    Recording(&'a str, &'a RecordingNews),
}

/// Who is told what happens in a run. No clause says what becomes of it.
pub(crate) trait RunLog: Log {
    /// Notes that this has happened.
    fn note_incident(&self, incident: &Incident<'_>);
}

/// How grave it is that a recording ended so: it is a warning, unless the run ended.
fn end_gravity(end: &RecordingEnd) -> Gravity
    ensures { result ≡ end_gravity end.now.why }
{
    match end.why {
        EndReason::RunOver => Gravity::Plain,
        _ => Gravity::Warning,
    }
}

/// How grave it is that this happens: a host that has ended by itself, or wasn't joined, is a warning, and so is a port
/// that is open to all, a recording that ended before the run, and an index that isn't used.
pub(crate) fn gravity_of(incident: &Incident<'_>) -> Gravity
    ensures { result ≡ gravity_for incident.now }
{
    match incident {
        Incident::Noted(Event::HostOut { .. }) => Gravity::Warning,
        Incident::Noted(Event::OpenToAll { .. }) => Gravity::Warning,
        Incident::RecordingBad(_) | Incident::IndexUnused(..) => Gravity::Warning,
        Incident::Recording(_, RecordingNews::Ended(end)) => end_gravity(end),
        _ => Gravity::Plain,
    }
}
