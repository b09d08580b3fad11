//! Tests of how a run stands, against texts that were written by hand.

use roles::Role;
use run_control::Entry;
use run_reports::{
    HostReport, PlayedReport, RecordingReport, RecordingState, Report, ViewerReport, state_json,
    state_text,
};
use serde_json::Value;
use std::test::Fail;

const EXPECTED: &str = "entry drained
places role=full places=4
places role=view places=32
input waiting=256 dropped=3
host address=127.0.0.1:5907 width=1280 height=800 seconds=3600 silent=2 updates=77 name=\"desk of \\\"x\\\"\"
played time=00:12:34 paused=yes
recording state=on seconds=61 bytes=96
viewer place=1 role=full address=192.0.2.9:50000 seconds=12 updates=34 bytes=5678 behind=0 asked=no
viewer place=7 role=view address=- seconds=0 updates=0 bytes=0 behind=77 asked=yes
";

const VIEWERS: [ViewerReport<'static>; 2] = [
    ViewerReport {
        place: 1,
        role: Role::Full,
        address: "192.0.2.9:50000",
        seconds: 12,
        updates: 34,
        bytes: 5678,
        behind: 0,
        is_asked: false,
    },
    ViewerReport {
        place: 7,
        role: Role::View,
        address: "-",
        seconds: 0,
        updates: 0,
        bytes: 0,
        behind: 77,
        is_asked: true,
    },
];

fn report<'a>(viewers: &'a [ViewerReport<'a>]) -> Report<'a> {
    Report {
        entry: Entry::Drained,
        host: Some(HostReport {
            address: "127.0.0.1:5907",
            name: "desk of \\\"x\\\"",
            width: 1280,
            height: 800,
            seconds: 3600,
            silent: 2,
            updates: 77,
        }),
        played: Some(PlayedReport {
            time: "00:12:34",
            is_paused: true,
        }),
        full_places: 4,
        view_places: 32,
        waiting: 256,
        dropped: 3,
        recording: Some(RecordingReport {
            state: RecordingState::On,
            seconds: 61,
            bytes: 96,
        }),
        viewers,
    }
}

#[test]
fn each_viewer_has_its_line(rt: HostRuntime) -> Result<(), Fail> {
    let text = state_text(rt.alloc(), &report(&VIEWERS))?;
    assert_eq!(rt; text.as_str(), EXPECTED);
    let mut empty = report(&[]);
    empty.host = None;
    empty.recording = None;
    empty.played = None;
    empty.entry = Entry::Open;
    let text = state_text(rt.alloc(), &empty)?;
    assert_eq!(rt;
        text.as_str(),
        "entry open\nplaces role=full places=4\nplaces role=view places=32\ninput waiting=256 dropped=3\nhost none\n"
    );
    Ok(())
}

#[test]
fn each_state_of_a_recording_has_its_word(rt: HostRuntime) -> Result<(), Fail> {
    for (state, line) in [
        (
            RecordingState::Awaited,
            "\nrecording state=awaited seconds=0 bytes=0\n",
        ),
        (
            RecordingState::Ended,
            "\nrecording state=ended seconds=0 bytes=0\n",
        ),
        (
            RecordingState::Failed,
            "\nrecording state=failed seconds=0 bytes=0\n",
        ),
    ] {
        let mut empty = report(&[]);
        empty.recording = Some(RecordingReport {
            state,
            seconds: 0,
            bytes: 0,
        });
        let text = state_text(rt.alloc(), &empty)?;
        assert!(rt; text.as_str().ends_with(line));
    }
    Ok(())
}

#[test]
fn the_same_numbers_stand_in_json(rt: HostRuntime) -> Result<(), Fail> {
    let text = state_json(rt.alloc(), &report(&VIEWERS))?;
    let value = Value::from_str(rt.alloc(), text.as_str())?;
    for (path, number) in [
        ("/full_places", 4),
        ("/view_places", 32),
        ("/waiting", 256),
        ("/dropped", 3),
        ("/host/width", 1280),
        ("/host/height", 800),
        ("/host/seconds", 3600),
        ("/host/silent", 2),
        ("/host/updates", 77),
        ("/recording/seconds", 61),
        ("/recording/bytes", 96),
        ("/viewers/0/place", 1),
        ("/viewers/0/seconds", 12),
        ("/viewers/0/updates", 34),
        ("/viewers/0/bytes", 5678),
        ("/viewers/1/place", 7),
        ("/viewers/1/behind", 77),
    ] {
        assert_eq!(rt;
            value.pointer(path).and_then(Value::as_u64),
            Some(number),
            "{path}"
        );
    }
    Ok(())
}

#[test]
fn the_same_words_stand_in_json(rt: HostRuntime) -> Result<(), Fail> {
    let text = state_json(rt.alloc(), &report(&VIEWERS))?;
    let value = Value::from_str(rt.alloc(), text.as_str())?;
    for (path, word) in [
        ("/entry", "drained"),
        ("/host/address", "127.0.0.1:5907"),
        ("/host/name", "desk of \\\"x\\\""),
        ("/recording/state", "on"),
        ("/viewers/0/role", "full"),
        ("/viewers/0/address", "192.0.2.9:50000"),
        ("/viewers/1/role", "view"),
    ] {
        assert_eq!(rt;
            value.pointer(path).and_then(Value::as_str),
            Some(word),
            "{path}"
        );
    }
    assert_eq!(rt;
        value.pointer("/viewers/0/asked").and_then(Value::as_bool),
        Some(false)
    );
    assert_eq!(rt;
        value.pointer("/viewers/1/asked").and_then(Value::as_bool),
        Some(true)
    );
    Ok(())
}

#[test]
fn what_is_missing_is_null_in_json(rt: HostRuntime) -> Result<(), Fail> {
    let mut empty = report(&[]);
    empty.host = None;
    empty.recording = None;
    empty.played = None;
    let text = state_json(rt.alloc(), &empty)?;
    let value = Value::from_str(rt.alloc(), text.as_str())?;
    assert!(rt; value.pointer("/host").is_some_and(Value::is_null));
    assert!(rt; value.pointer("/recording").is_some_and(Value::is_null));
    assert!(rt; value.pointer("/viewers/0").is_none());
    Ok(())
}
