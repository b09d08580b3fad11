//! Tests of requests and their answers, as RFC 9110 and 9112 and the page on the port have them.

use metrics_site::{Watched, answer_one};
use run_reports::{ByRole, Counters, Lag, RecordingCounts};
use std::hash::RandomState;
use std::test::Fail;
use std::time::{Duration, Instant};

fn counters(is_joined: bool, view: u64) -> Counters {
    Counters {
        is_joined,
        silent_seconds: 2,
        joins: 3,
        places: ByRole { full: 0, view: 32 },
        viewers: ByRole { full: 0, view },
        came: ByRole { full: 5, view: 600 },
        refused: ByRole { full: 0, view: 7 },
        updates: 11,
        answers: 8,
        bytes: 9,
        waiting: 3,
        dropped: 14,
        recorded: RecordingCounts {
            is_on: false,
            start_seconds: 0,
            has_failed: false,
            bytes: 0,
        },
        lag: Lag {
            half: 0,
            nine_tenths: 1,
            all: 12,
        },
    }
}

/// The answer to a client that says this.
fn answered(rt: HostRuntime, watched: &Watched, said: &[u8]) -> Result<Vec<u8>, Fail> {
    let alloc = rt.alloc();
    let mut answer = Vec::new(alloc);
    let until = Instant::now(&rt)?
        .checked_add(Duration::from_secs(50))
        .ok_or("late")?;
    let keys = RandomState::new(&rt)?;
    answer_one(&rt, alloc, keys, watched, (said, &mut answer), until)?;
    Ok(answer)
}

#[test]
fn a_balancer_asks_for_the_health(rt: HostRuntime) -> Result<(), Fail> {
    let alloc = rt.alloc();
    let ready = Watched::new(alloc, counters(true, 31), false);
    for (said, expected) in [
        (
            "GET /health HTTP/1.1\r\nHost: leaf\r\n\r\n",
            "HTTP/1.1 200 OK\r\ncache-control: no-store\r\nconnection: close\r\ncontent-type: text/plain; charset=utf-8\r\ncontent-length: 6\r\n\r\nready\n",
        ),
        (
            "OPTIONS /health HTTP/1.1\r\nHost: leaf\r\n\r\n",
            "HTTP/1.1 405 Method Not Allowed\r\ncache-control: no-store\r\nconnection: close\r\nallow: GET, HEAD\r\ncontent-length: 0\r\n\r\n",
        ),
        (
            "GET /health/ HTTP/1.1\r\nHost: leaf\r\n\r\n",
            "HTTP/1.1 404 Not Found\r\ncache-control: no-store\r\nconnection: close\r\ncontent-length: 0\r\n\r\n",
        ),
    ] {
        let answer = answered(rt, &ready, said.as_bytes())?;
        assert_eq!(rt; answer.as_slice(), expected.as_bytes(), "{said}");
    }
    Ok(())
}

/// The first line of an answer, and its body.
fn ends_of(answer: &[u8]) -> Option<(&[u8], &[u8])> {
    let line = answer.iter().position(|byte| *byte == b'\r')?;
    let head = answer
        .windows(4)
        .position(|four| four == b"\r\n\r\n".as_slice())?;
    Some((answer.get(..line)?, answer.get(head.saturating_add(4)..)?))
}

#[test]
fn a_run_that_serves_nobody_says_why(rt: HostRuntime) -> Result<(), Fail> {
    let alloc = rt.alloc();
    for (watched, word) in [
        (Watched::new(alloc, counters(true, 32), false), "full\n"),
        (Watched::new(alloc, counters(false, 0), false), "no host\n"),
        (Watched::new(alloc, counters(true, 0), true), "drained\n"),
    ] {
        let answer = answered(rt, &watched, b"GET /health HTTP/1.1\r\nHost: leaf\r\n\r\n")?;
        let (line, body) = ends_of(answer.as_slice()).ok_or("no head")?;
        assert_eq!(rt; line, b"HTTP/1.1 503 Service Unavailable".as_slice());
        assert_eq!(rt; body, word.as_bytes());
    }
    Ok(())
}

#[test]
fn prometheus_reads_the_numbers(rt: HostRuntime) -> Result<(), Fail> {
    let watched = Watched::new(rt.alloc(), counters(true, 1), false);
    let answer = answered(rt, &watched, b"GET /metrics HTTP/1.1\r\nHost: leaf\r\n\r\n")?;
    let (line, body) = ends_of(answer.as_slice()).ok_or("no head")?;
    assert_eq!(rt; line, b"HTTP/1.1 200 OK".as_slice());
    let text = std::str::from_utf8(body).or(Err("no text"))?;
    assert!(rt; text.contains("\nreflectord_viewers{role=\"view\"} 1\n"));
    assert!(rt; text.contains("\nreflectord_host_joined 1\n"));
    assert!(rt; text.contains("\nreflectord_input_waiting 3\n"));
    assert!(rt; text.contains("\nreflectord_input_dropped_total 14\n"));
    Ok(())
}

#[test]
fn one_request_is_answered(rt: HostRuntime) -> Result<(), Fail> {
    let watched = Watched::new(rt.alloc(), counters(true, 1), false);
    let one = b"HEAD /health HTTP/1.1\r\nHost: leaf\r\n\r\n".as_slice();
    let two =
        b"HEAD /health HTTP/1.1\r\nHost: leaf\r\n\r\nHEAD /health HTTP/1.1\r\nHost: leaf\r\n\r\n".as_slice();
    let once = answered(rt, &watched, one)?;
    let twice = answered(rt, &watched, two)?;
    assert_eq!(rt; once.as_slice(), twice.as_slice());
    Ok(())
}

#[test]
fn who_takes_too_long_is_let_go(rt: HostRuntime) -> Result<(), Fail> {
    let alloc = rt.alloc();
    let watched = Watched::new(alloc, counters(true, 1), false);
    let mut answer = Vec::new(alloc);
    let keys = RandomState::new(&rt)?;
    let said = b"GET /health HTTP/1.1\r\nHost: leaf\r\n\r\n".as_slice();
    let now = Instant::now(&rt)?;
    let ended = answer_one(&rt, alloc, keys, &watched, (said, &mut answer), now);
    assert!(rt; ended.is_err());
    assert!(rt; answer.is_empty());
    Ok(())
}
