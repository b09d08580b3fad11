//! How a run stands, as lines of text.

ghost use Rattle.std.specs.Prelude.{◌≡◌, IfOk, OnOk};
ghost use Rattle.std.specs.String.{string_bytes};
ghost use Rattle.run_reports.specs.State.{after_counts, after_host, after_input, after_place, after_places, after_played, after_recording, after_viewer, after_viewers, after_whoever, state_lines};

use crate::lines::{entry_word, put_number, put_word, recording_word, role_word, yes_word};
use crate::report::{HostReport, PlayedReport, RecordingReport, Report, ViewerReport};
use std::alloc::{AllocError, Global};

/// Puts the line of a host.
fn put_host(text: &mut String, host: &HostReport<'_>) -> Result<(), AllocError>
    ensures { OnOk result (string_bytes text.new ≡ after_host (string_bytes text.old) host.now) }
{
    put_word(text, "host address=", host.address)?;
    put_number(text, " width=", host.width)?;
    put_number(text, " height=", host.height)?;
    put_number(text, " seconds=", host.seconds)?;
    put_number(text, " silent=", host.silent)?;
    put_number(text, " updates=", host.updates)?;
    put_word(text, " name=\"", host.name)?;
    text.push_str("\"\n")
}

/// Puts which place a viewer has, its role and its address.
fn put_place(text: &mut String, viewer: &ViewerReport<'_>) -> Result<(), AllocError>
    ensures { OnOk result (string_bytes text.new ≡ after_place (string_bytes text.old) viewer.now) }
{
    put_number(text, "viewer place=", viewer.place)?;
    put_word(text, " role=", role_word(viewer.role))?;
    put_word(text, " address=", viewer.address)
}

/// Puts what is counted of a viewer.
fn put_counts(text: &mut String, viewer: &ViewerReport<'_>) -> Result<(), AllocError>
    ensures { OnOk result
        (string_bytes text.new ≡ after_counts (string_bytes text.old) viewer.now) }
{
    put_number(text, " seconds=", viewer.seconds)?;
    put_number(text, " updates=", viewer.updates)?;
    put_number(text, " bytes=", viewer.bytes)?;
    put_number(text, " behind=", viewer.behind)
}

/// Puts the line of a viewer.
fn put_viewer(text: &mut String, viewer: &ViewerReport<'_>) -> Result<(), AllocError>
    ensures { OnOk result
        (string_bytes text.new ≡ after_viewer (string_bytes text.old) viewer.now) }
{
    put_place(text, viewer)?;
    put_counts(text, viewer)?;
    put_word(text, " asked=", yes_word(viewer.is_asked))?;
    text.push_str("\n")
}

/// Puts a line for each viewer.
#[tactic(auto, using(crate::proofs::Viewers::one_more))]
fn put_viewers(text: &mut String, viewers: &[ViewerReport<'_>]) -> Result<(), AllocError>
    ensures { OnOk result
        (string_bytes text.new ≡ after_viewers (string_bytes text.old) viewers.now) }
{
    for viewer in viewers {
        put_viewer(text, viewer)?;
    }
    Ok(())
}

/// Puts what is told first: whether viewers are let in, and how many places there are.
fn put_places(text: &mut String, report: &Report<'_>) -> Result<(), AllocError>
    ensures { OnOk result
        (string_bytes text.new ≡ after_places (string_bytes text.old) report.now) }
{
    put_word(text, "entry ", entry_word(report.entry))?;
    put_number(text, "\nplaces role=full places=", report.full_places)?;
    put_number(text, "\nplaces role=view places=", report.view_places)?;
    text.push_str("\n")
}

/// Puts the line of the viewers' input.
fn put_input(text: &mut String, report: &Report<'_>) -> Result<(), AllocError>
    ensures { OnOk result (string_bytes text.new ≡ after_input (string_bytes text.old) report.now) }
{
    put_number(text, "input waiting=", report.waiting)?;
    put_number(text, " dropped=", report.dropped)?;
    text.push_str("\n")
}

/// Puts the line of the host, or the one that says that none is joined.
fn put_whoever(text: &mut String, host: &Option<HostReport<'_>>) -> Result<(), AllocError>
    ensures { OnOk result (string_bytes text.new ≡ after_whoever (string_bytes text.old) host.now) }
{
    match host {
        Some(host) => put_host(text, host),
        None => text.push_str("host none\n"),
    }
}

/// Puts the line of the recording that is played, where one is.
fn put_played(text: &mut String, played: &Option<PlayedReport<'_>>) -> Result<(), AllocError>
    ensures { OnOk result
        (string_bytes text.new ≡ after_played (string_bytes text.old) played.now) }
{
    let Some(played) = played else {
        return Ok(());
    };
    put_word(text, "played time=", played.time)?;
    put_word(text, " paused=", yes_word(played.is_paused))?;
    text.push_str("\n")
}

/// Puts the line of the recording, where the run is recorded.
fn put_recording(text: &mut String, recording: &Option<RecordingReport>) -> Result<(), AllocError>
    ensures { OnOk result
        (string_bytes text.new ≡ after_recording (string_bytes text.old) recording.now) }
{
    let Some(recording) = recording else {
        return Ok(());
    };
    put_word(text, "recording state=", recording_word(recording.state))?;
    put_number(text, " seconds=", recording.seconds)?;
    put_number(text, " bytes=", recording.bytes)?;
    text.push_str("\n")
}

/// How a run stands, in lines of names and values as the log has them. It fails where memory is refused for the text.
pub fn state_text(alloc: Global, report: &Report<'_>) -> Result<String, AllocError>
    ensures { IfOk result (λ text. string_bytes text ≡ state_lines report.now) }
{
    let mut text = String::new(alloc);
    put_places(&mut text, report)?;
    put_input(&mut text, report)?;
    put_whoever(&mut text, &report.host)?;
    put_played(&mut text, &report.played)?;
    put_recording(&mut text, &report.recording)?;
    put_viewers(&mut text, report.viewers)?;
    Ok(text)
}
