//! How a run stands, for an operator.

ghost use Rattle.std.specs.Prelude.{◌≡◌};
ghost use Rattle.serve.specs.States.{IsHostReport, IsRecordingReport, IsViewerReport, seconds_from};

use crate::control::{Control, Reach};
use connections::{HostCard, RunCard, ViewerCard};
use play_control::ClockTime;
use player::Played;
use recorder::Standing;
use run_control::StateForm;
use run_reports::{
    HostReport, PlayedReport, RecordingReport, RecordingState, Report, ViewerReport, state_json,
    state_text,
};
use std::alloc::{AllocError, Global};
use std::net::SocketAddr;
use std::sync::Wait;
use std::time::Clock;

/// The whole seconds from one time to another, both in milliseconds.
fn seconds_from(since: u64, now: u64) -> u64
    ensures { result ≡ seconds_from since now }
{
    now.saturating_sub(since) / 1_000
}

/// An address as text, or `-` where the system told none.
fn address_text(alloc: Global, address: Option<SocketAddr>) -> Result<String, AllocError> {
    match address {
        Some(address) => format!(in alloc; "{address}"),
        None => String::from_str(alloc, "-"),
    }
}

/// What is told of a viewer now, when so many updates were put.
fn viewer_report<'a>(
    viewer: &ViewerCard,
    address: &'a str,
    updates: u64,
    now: u64,
) -> ViewerReport<'a>
    ensures { IsViewerReport viewer.now address.entry.now updates now result }
{
    ViewerReport {
        place: viewer.comer.place,
        role: viewer.comer.role,
        address,
        seconds: seconds_from(viewer.since, now),
        updates: viewer.updates,
        bytes: viewer.bytes,
        behind: updates.saturating_sub(viewer.shown),
        is_asked: viewer.is_asked,
    }
}

/// What is told of the host.
fn host_report<'a>(card: &'a HostCard, address: &'a str, run_card: &RunCard) -> HostReport<'a>
    ensures { IsHostReport card.entry.now address.entry.now run_card.entry.now result }
{
    HostReport {
        address,
        name: card.name.as_str(),
        width: card.width,
        height: card.height,
        seconds: seconds_from(card.since, run_card.now),
        silent: seconds_from(run_card.heard, run_card.now),
        updates: run_card.updates,
    }
}

/// What is told now of a recording that stands so, whose file took so many bytes.
fn recording_report(standing: Standing, bytes: u64, now: u64) -> RecordingReport
    ensures { IsRecordingReport standing bytes now result }
{
    let (state, seconds) = match standing {
        Standing::Awaited => (RecordingState::Awaited, 0),
        Standing::Begun(began) => (RecordingState::On, seconds_from(began.millis, now)),
        Standing::Ended => (RecordingState::Ended, 0),
        Standing::Failed(_) => (RecordingState::Failed, 0),
    };
    RecordingReport {
        state,
        seconds,
        bytes,
    }
}

/// The time up to which a recording is played, as text, or none where none is.
fn time_text(alloc: Global, played: &Option<Played>) -> Result<String, AllocError> {
    let Some(played) = played else {
        return Ok(String::new(alloc));
    };
    let time = ClockTime::at(played.time);
    format!(in alloc; "{:02}:{:02}:{:02}", time.hours, time.minutes, time.seconds)
}

/// The addresses of all viewers, in their order.
fn addresses_of(alloc: Global, viewers: &[ViewerCard]) -> Result<Vec<String>, AllocError> {
    let mut addresses = Vec::new(alloc);
    for viewer in viewers {
        addresses.push(address_text(alloc, viewer.comer.address)?)?;
    }
    Ok(addresses)
}

/// What is told of each viewer, in their order. These are their addresses, in the same order.
fn viewers_of<'a>(
    alloc: Global,
    run_card: &RunCard,
    addresses: &'a [String],
) -> Result<Vec<ViewerReport<'a>>, AllocError> {
    let mut viewers = Vec::new(alloc);
    for (viewer, address) in run_card.viewers.iter().zip(addresses) {
        let address = address.as_str();
        viewers.push(viewer_report(viewer, address, run_card.updates, run_card.now))?;
    }
    Ok(viewers)
}

/// What is told now of the recording that is made of the run, if one is.
fn recording_of<R: Wait>(rt: &R, control: &Control, now: u64) -> Option<RecordingReport> {
    let recording = control.recording.as_ref()?;
    let standing = recording.standing(rt);
    Some(recording_report(standing, recording.bytes(), now))
}

/// How a run stands, in one of the two forms. Where memory is refused for that it fails.
pub(crate) fn state<R: Wait + Clock>(
    rt: &R,
    reach: &Reach,
    form: StateForm,
) -> Result<String, AllocError> {
    let alloc = reach.alloc;
    let run_card = reach.control.desk.look(rt, alloc)?;
    let addresses = addresses_of(alloc, run_card.viewers.as_slice())?;
    let viewers = viewers_of(alloc, &run_card, addresses.as_slice())?;
    let host_address = match &run_card.host {
        Some(card) => address_text(alloc, card.address)?,
        None => String::new(alloc),
    };
    let played = reach.control.player.look(rt);
    let time = time_text(alloc, &played)?;
    let report = Report {
        entry: run_card.entry,
        host: match &run_card.host {
            Some(card) => Some(host_report(card, host_address.as_str(), &run_card)),
            None => None,
        },
        played: match &played {
            Some(played) => Some(PlayedReport {
                time: time.as_str(),
                is_paused: played.is_paused,
            }),
            None => None,
        },
        full_places: reach.control.full_places,
        view_places: reach.control.view_places,
        waiting: reach.control.writer.input.waiting(rt) as u64,
        dropped: reach.control.writer.input.dropped(),
        recording: recording_of(rt, &reach.control, run_card.now),
        viewers: viewers.as_slice(),
    };
    match form {
        StateForm::Text => state_text(alloc, &report),
        StateForm::Json => state_json(alloc, &report),
    }
}
