//! How a run stands, as one object of JSON.

use crate::lines::{entry_word, recording_word, role_word};
use crate::report::{HostReport, PlayedReport, RecordingReport, Report, ViewerReport};
use serde_json::{Value, json};
use std::alloc::{AllocError, Global};

fn host_value(alloc: Global, host: &HostReport<'_>) -> Result<Value, AllocError> {
    json!(in alloc; {
        "address": host.address,
        "name": host.name,
        "width": host.width,
        "height": host.height,
        "seconds": host.seconds,
        "silent": host.silent,
        "updates": host.updates
    })
}

fn viewer_value(alloc: Global, viewer: &ViewerReport<'_>) -> Result<Value, AllocError> {
    let role = role_word(viewer.role);
    json!(in alloc; {
        "place": viewer.place,
        "role": role,
        "address": viewer.address,
        "seconds": viewer.seconds,
        "updates": viewer.updates,
        "bytes": viewer.bytes,
        "behind": viewer.behind,
        "asked": viewer.is_asked
    })
}

fn played_value(alloc: Global, played: &PlayedReport<'_>) -> Result<Value, AllocError> {
    json!(in alloc; {
        "time": played.time,
        "paused": played.is_paused
    })
}

fn recording_value(alloc: Global, recording: &RecordingReport) -> Result<Value, AllocError> {
    let state = recording_word(recording.state);
    json!(in alloc; {
        "state": state,
        "seconds": recording.seconds,
        "bytes": recording.bytes
    })
}

/// How a run stands, as one object of JSON whose members are named as in the lines. No clause says what it contains;
/// tests do. It fails where memory for it is refused.
pub fn state_json(alloc: Global, report: &Report<'_>) -> Result<String, AllocError> {
    let mut viewers = Vec::new(alloc);
    for viewer in report.viewers {
        viewers.push(viewer_value(alloc, viewer)?)?;
    }
    let viewers = Value::Array(viewers);
    let host = match &report.host {
        Some(host) => host_value(alloc, host)?,
        None => Value::Null,
    };
    let played = match &report.played {
        Some(played) => played_value(alloc, played)?,
        None => Value::Null,
    };
    let recording = match &report.recording {
        Some(recording) => recording_value(alloc, recording)?,
        None => Value::Null,
    };
    let entry = entry_word(report.entry);
    let state = json!(in alloc; {
        "entry": entry,
        "full_places": report.full_places,
        "view_places": report.view_places,
        "waiting": report.waiting,
        "dropped": report.dropped,
        "host": host,
        "played": played,
        "recording": recording,
        "viewers": viewers
    })?;
    state.to_string(alloc)
}
