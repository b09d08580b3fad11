//! A text for Prometheus, as it was written by hand after the rules of the format.

use run_reports::{ByRole, Counters, Lag, RecordingCounts, metrics_text};
use std::test::Fail;

const EXPECTED: &str = "# HELP reflectord_host_joined 1 while a host is joined.
# TYPE reflectord_host_joined gauge
reflectord_host_joined 1
# HELP reflectord_host_silent_seconds Seconds since the last byte of the host.
# TYPE reflectord_host_silent_seconds gauge
reflectord_host_silent_seconds 2
# HELP reflectord_host_joins_total Hosts that were joined.
# TYPE reflectord_host_joins_total counter
reflectord_host_joins_total 3
# HELP reflectord_places Places of a role.
# TYPE reflectord_places gauge
reflectord_places{role=\"full\"} 4
reflectord_places{role=\"view\"} 32
# HELP reflectord_viewers Viewers that have a place.
# TYPE reflectord_viewers gauge
reflectord_viewers{role=\"full\"} 1
reflectord_viewers{role=\"view\"} 31
# HELP reflectord_viewers_total Viewers that came.
# TYPE reflectord_viewers_total counter
reflectord_viewers_total{role=\"full\"} 5
reflectord_viewers_total{role=\"view\"} 600
# HELP reflectord_refused_total Viewers that were refused: no free place, no host, nobody let in, a wrong password, or no proxy's header.
# TYPE reflectord_refused_total counter
reflectord_refused_total{role=\"full\"} 0
reflectord_refused_total{role=\"view\"} 7
# HELP reflectord_updates_total Updates of hosts that were put.
# TYPE reflectord_updates_total counter
reflectord_updates_total 18446744073709551615
# HELP reflectord_answers_total Updates begun for viewers.
# TYPE reflectord_answers_total counter
reflectord_answers_total 8
# HELP reflectord_sent_bytes_total Bytes sent to viewers.
# TYPE reflectord_sent_bytes_total counter
reflectord_sent_bytes_total 9
# HELP reflectord_input_waiting Inputs of viewers that wait for the host.
# TYPE reflectord_input_waiting gauge
reflectord_input_waiting 256
# HELP reflectord_input_dropped_total Inputs of viewers that were dropped, since another held a key or a button down.
# TYPE reflectord_input_dropped_total counter
reflectord_input_dropped_total 10
# HELP reflectord_recording 1 while the run is recorded.
# TYPE reflectord_recording gauge
reflectord_recording 1
# HELP reflectord_recording_start_time_seconds When the recording began, in seconds since 1970, and 0 while the run isn't recorded.
# TYPE reflectord_recording_start_time_seconds gauge
reflectord_recording_start_time_seconds 1796083200
# HELP reflectord_recording_failed 1 where the recording ended since its file took no more.
# TYPE reflectord_recording_failed gauge
reflectord_recording_failed 0
# HELP reflectord_recorded_bytes_total Bytes that the file of the recording took.
# TYPE reflectord_recorded_bytes_total counter
reflectord_recorded_bytes_total 13
# HELP reflectord_viewer_lag_updates By how many updates this share of the viewers is behind at most.
# TYPE reflectord_viewer_lag_updates gauge
reflectord_viewer_lag_updates{share=\"0.5\"} 0
reflectord_viewer_lag_updates{share=\"0.9\"} 1
reflectord_viewer_lag_updates{share=\"1\"} 12
";

fn counters() -> Counters {
    Counters {
        is_joined: true,
        silent_seconds: 2,
        joins: 3,
        places: ByRole { full: 4, view: 32 },
        viewers: ByRole { full: 1, view: 31 },
        came: ByRole { full: 5, view: 600 },
        refused: ByRole { full: 0, view: 7 },
        updates: u64::MAX,
        answers: 8,
        bytes: 9,
        waiting: 256,
        dropped: 10,
        recorded: RecordingCounts {
            is_on: true,
            start_seconds: 1_796_083_200,
            has_failed: false,
            bytes: 13,
        },
        lag: Lag {
            half: 0,
            nine_tenths: 1,
            all: 12,
        },
    }
}

#[test]
fn each_number_has_its_line(rt: HostRuntime) -> Result<(), Fail> {
    let text = metrics_text(rt.alloc(), &counters())?;
    assert_eq!(rt; text.as_str(), EXPECTED);
    Ok(())
}
