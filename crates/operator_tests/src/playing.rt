//! Tests of what an operator asks of a recording that is played, against texts and times that were worked by hand.

use play_control::{ClockTime, Course, PlayRequest, Speed};
use std::test::*;

const HALF_PAST_ONE: ClockTime = ClockTime {
    hours: 1,
    minutes: 30,
    seconds: 0,
};

/// Lines, and the requests that they are, if they are any.
const LINES: &[(&str, Option<PlayRequest>)] = &[
    ("pause", Some(PlayRequest::Pause)),
    ("play", Some(PlayRequest::Play)),
    ("seek 01:30:00", Some(PlayRequest::Seek(HALF_PAST_ONE))),
    ("", None),
    ("pause ", None),
    ("Play", None),
    ("seek", None),
    ("seek 1:30:00", None),
    ("seek 01:30", None),
    ("seek 01:60:00", None),
    ("seek 01:30:60", None),
    ("seek 01-30-00", None),
    ("seek +1:30:00", None),
    ("seek  01:30:00", None),
];

#[test]
fn lines_are_read(rt: HostRuntime) -> Result<(), Fail> {
    for (line, request) in LINES {
        assert_eq!(rt; PlayRequest::read(line), *request, "{line}");
    }
    Ok(())
}

/// Texts, and the hundredths of the speeds that they are, if they are any.
const SPEEDS: &[(&str, Option<u64>)] = &[
    ("1", Some(100)),
    ("16", Some(1600)),
    ("0.25", Some(25)),
    ("0.5", Some(50)),
    ("1.50", Some(150)),
    ("12.75", Some(1275)),
    ("16.0", Some(1600)),
    ("0", None),
    ("0.24", None),
    ("16.01", None),
    ("17", None),
    ("160", None),
    ("01", None),
    (".5", None),
    ("1.", None),
    ("1.125", None),
    ("+1", None),
    ("1,5", None),
    ("", None),
];

#[test]
fn speeds_are_read(rt: HostRuntime) -> Result<(), Fail> {
    for (text, hundredths) in SPEEDS {
        let read = Speed::read(text).map(|speed| speed.hundredths);
        assert_eq!(rt; read, *hundredths, "{text}");
    }
    Ok(())
}

#[test]
fn times_are_counted_in_milliseconds(rt: HostRuntime) -> Result<(), Fail> {
    assert_eq!(rt; HALF_PAST_ONE.millis(), 5_400_000);
    assert_eq!(rt; ClockTime::at(5_400_999), HALF_PAST_ONE);
    let last = ClockTime {
        hours: 99,
        minutes: 59,
        seconds: 59,
    };
    assert_eq!(rt; ClockTime::at(u64::MAX), last);
    Ok(())
}

/// A recording that is played at twice its speed, from its first second on, has come to 4 seconds after 1.5 seconds. It
/// rests there until it is told to go on, and goes on from there; and then from each time that is sought.
#[test]
fn a_course_rests_and_goes_on(rt: HostRuntime) -> Result<(), Fail> {
    let mut course = Course::new(1_000, 200, 10_000);
    assert_eq!(rt; course.time(10_000), 1_000);
    assert_eq!(rt; course.time(11_500), 4_000);
    course.pause(11_500);
    assert!(rt; course.rests());
    assert_eq!(rt; course.time(60_000), 4_000);
    course.play(60_000);
    course.play(60_500);
    assert_eq!(rt; course.time(61_000), 6_000);
    course.seek(500, 61_000);
    assert_eq!(rt; course.time(61_001), 502);
    course.pause(61_001);
    course.seek(9, 61_002);
    assert_eq!(rt; course.time(62_000), 9);
    Ok(())
}
