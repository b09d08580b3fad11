//! The numbers of a running reflector, in the text form that Prometheus reads (its text-based format, version 0.0.4).

ghost use Rattle.std.specs.Prelude.{◌≡◌, [], IfOk, OnOk};
ghost use Rattle.std.specs.String.{string_bytes};
ghost use Rattle.run_reports.specs.Metrics.{after_host, after_input, after_lag, after_places, after_recorded, after_sent, metrics_of};

use crate::counters::{Counters, Lag, RecordingCounts};
use crate::families::{Family, put_by_role, put_head, put_sample, put_single};
use std::alloc::{AllocError, Global};

const HOST_JOINED: Family<'static> = Family {
    name: "host_joined",
    kind: "gauge",
    help: "1 while a host is joined.",
};

const HOST_SILENT: Family<'static> = Family {
    name: "host_silent_seconds",
    kind: "gauge",
    help: "Seconds since the last byte of the host.",
};

const HOST_JOINS: Family<'static> = Family {
    name: "host_joins_total",
    kind: "counter",
    help: "Hosts that were joined.",
};

const PLACES: Family<'static> = Family {
    name: "places",
    kind: "gauge",
    help: "Places of a role.",
};

const VIEWERS: Family<'static> = Family {
    name: "viewers",
    kind: "gauge",
    help: "Viewers that have a place.",
};

const VIEWERS_TOTAL: Family<'static> = Family {
    name: "viewers_total",
    kind: "counter",
    help: "Viewers that came.",
};

const REFUSED: Family<'static> = Family {
    name: "refused_total",
    kind: "counter",
    help: "Viewers that were refused: no free place, no host, nobody let in, a wrong password, or no proxy's header.",
};

const UPDATES: Family<'static> = Family {
    name: "updates_total",
    kind: "counter",
    help: "Updates of hosts that were put.",
};

const ANSWERS: Family<'static> = Family {
    name: "answers_total",
    kind: "counter",
    help: "Updates begun for viewers.",
};

const BYTES: Family<'static> = Family {
    name: "sent_bytes_total",
    kind: "counter",
    help: "Bytes sent to viewers.",
};

const WAITING: Family<'static> = Family {
    name: "input_waiting",
    kind: "gauge",
    help: "Inputs of viewers that wait for the host.",
};

const DROPPED: Family<'static> = Family {
    name: "input_dropped_total",
    kind: "counter",
    help: "Inputs of viewers that were dropped, since another held a key or a button down.",
};

const RECORDING: Family<'static> = Family {
    name: "recording",
    kind: "gauge",
    help: "1 while the run is recorded.",
};

const RECORDING_START: Family<'static> = Family {
    name: "recording_start_time_seconds",
    kind: "gauge",
    help: "When the recording began, in seconds since 1970, and 0 while the run isn't recorded.",
};

const RECORDING_FAILED: Family<'static> = Family {
    name: "recording_failed",
    kind: "gauge",
    help: "1 where the recording ended since its file took no more.",
};

const RECORDED: Family<'static> = Family {
    name: "recorded_bytes_total",
    kind: "counter",
    help: "Bytes that the file of the recording took.",
};

const LAG: Family<'static> = Family {
    name: "viewer_lag_updates",
    kind: "gauge",
    help: "By how many updates this share of the viewers is behind at most.",
};

/// Writes the numbers of the host.
fn put_host(text: &mut String, counters: &Counters) -> Result<(), AllocError>
    ensures { OnOk result
        (string_bytes text.new ≡ after_host (string_bytes text.old) counters.now) }
{
    put_single(text, HOST_JOINED, u64::from(counters.is_joined))?;
    put_single(text, HOST_SILENT, counters.silent_seconds)?;
    put_single(text, HOST_JOINS, counters.joins)
}

/// Writes the numbers of the places.
fn put_places(text: &mut String, counters: &Counters) -> Result<(), AllocError>
    ensures { OnOk result
        (string_bytes text.new ≡ after_places (string_bytes text.old) counters.now) }
{
    put_by_role(text, PLACES, counters.places)?;
    put_by_role(text, VIEWERS, counters.viewers)?;
    put_by_role(text, VIEWERS_TOTAL, counters.came)?;
    put_by_role(text, REFUSED, counters.refused)
}

/// Writes the numbers of what came and what was sent.
fn put_sent(text: &mut String, counters: &Counters) -> Result<(), AllocError>
    ensures { OnOk result
        (string_bytes text.new ≡ after_sent (string_bytes text.old) counters.now) }
{
    put_single(text, UPDATES, counters.updates)?;
    put_single(text, ANSWERS, counters.answers)?;
    put_single(text, BYTES, counters.bytes)
}

/// Writes the numbers of the viewers' input.
fn put_input(text: &mut String, counters: &Counters) -> Result<(), AllocError>
    ensures { OnOk result
        (string_bytes text.new ≡ after_input (string_bytes text.old) counters.now) }
{
    put_single(text, WAITING, counters.waiting)?;
    put_single(text, DROPPED, counters.dropped)
}

/// Writes the numbers of the recording.
fn put_recorded(text: &mut String, recorded: &RecordingCounts) -> Result<(), AllocError>
    ensures { OnOk result
        (string_bytes text.new ≡ after_recorded (string_bytes text.old) recorded.now) }
{
    put_single(text, RECORDING, u64::from(recorded.is_on))?;
    put_single(text, RECORDING_START, recorded.start_seconds)?;
    put_single(text, RECORDING_FAILED, u64::from(recorded.has_failed))?;
    put_single(text, RECORDED, recorded.bytes)
}

/// Writes by how many updates viewers are behind.
fn put_lag(text: &mut String, lag: &Lag) -> Result<(), AllocError>
    ensures { OnOk result (string_bytes text.new ≡ after_lag (string_bytes text.old) lag.now) }
{
    put_head(text, LAG)?;
    put_sample(text, LAG.name, "{share=\"0.5\"}", lag.half)?;
    put_sample(text, LAG.name, "{share=\"0.9\"}", lag.nine_tenths)?;
    put_sample(text, LAG.name, "{share=\"1\"}", lag.all)
}

/// The numbers as Prometheus reads them. It fails where memory is refused for the text.
pub fn metrics_text(alloc: Global, counters: &Counters) -> Result<String, AllocError>
    ensures { IfOk result (λ text. string_bytes text ≡ metrics_of counters.now) }
{
    let mut text = String::new(alloc);
    put_host(&mut text, counters)?;
    put_places(&mut text, counters)?;
    put_sent(&mut text, counters)?;
    put_input(&mut text, counters)?;
    put_recorded(&mut text, &counters.recorded)?;
    put_lag(&mut text, &counters.lag)?;
    Ok(text)
}
