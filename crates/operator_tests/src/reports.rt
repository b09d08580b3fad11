//! Tests of texts as sd_notify(3), sd-daemon(3) and the pages of this repository have them, and of a log that isn't
//! read.

use roles::Role;
use run_reports::{
    ByRole, CountedEvent, Counters, EventCounts, Gravity, Lag, Ledger, Notice, Paper, Ready,
    RecordingCounts, health_of, health_word, notice_text, prefix_of,
};
use std::alloc::Global;
use std::cell::Cell;
use std::test::Fail;

#[test]
fn the_journal_reads_priorities(rt: HostRuntime) {
    assert_eq!(rt; prefix_of(Gravity::Fault, true), "<3>");
    assert_eq!(rt; prefix_of(Gravity::Warning, true), "<4>");
    assert_eq!(rt; prefix_of(Gravity::Plain, true), "");
    assert_eq!(rt; prefix_of(Gravity::Fault, false), "");
    assert_eq!(rt; prefix_of(Gravity::Warning, false), "");
}

#[test]
fn systemd_is_told_how_a_run_stands(rt: HostRuntime) -> Result<(), Fail> {
    let first = Notice {
        ready: Ready::Now,
        host: Some("192.0.2.7:5900"),
        viewers: 0,
        places: 36,
    };
    let text = notice_text(rt.alloc(), &first)?;
    assert_eq!(rt;
        text.as_str(),
        "READY=1\nSTATUS=host 192.0.2.7:5900; 0 of 36 viewers\n"
    );
    let later = Notice {
        ready: Ready::Unsaid,
        host: None,
        viewers: 3,
        places: 36,
    };
    let text = notice_text(rt.alloc(), &later)?;
    assert_eq!(rt; text.as_str(), "STATUS=no host; 3 of 36 viewers\n");
    Ok(())
}

fn counters(is_joined: bool, full: u64, view: u64) -> Counters {
    Counters {
        is_joined,
        silent_seconds: 0,
        joins: 0,
        places: ByRole { full: 2, view: 3 },
        viewers: ByRole { full, view },
        came: ByRole { full: 0, view: 0 },
        refused: ByRole { full: 0, view: 0 },
        updates: 0,
        answers: 0,
        bytes: 0,
        waiting: 0,
        dropped: 0,
        recorded: RecordingCounts {
            is_on: false,
            start_seconds: 0,
            has_failed: false,
            bytes: 0,
        },
        lag: Lag {
            half: 0,
            nine_tenths: 0,
            all: 0,
        },
    }
}

#[test]
fn a_balancer_is_told_who_would_be_served(rt: HostRuntime) {
    for (counters, is_drained, role, word) in [
        (counters(true, 0, 0), false, None, "ready\n"),
        (counters(true, 2, 2), false, None, "ready\n"),
        (counters(true, 1, 3), false, None, "ready\n"),
        (counters(true, 2, 3), false, None, "full\n"),
        (counters(true, 2, 2), false, Some(Role::Full), "full\n"),
        (counters(true, 2, 2), false, Some(Role::View), "ready\n"),
        (counters(true, 1, 3), false, Some(Role::View), "full\n"),
        (counters(true, 1, 3), false, Some(Role::Full), "ready\n"),
        (counters(true, 0, 0), true, None, "drained\n"),
        (counters(false, 2, 3), false, None, "no host\n"),
        (counters(false, 0, 0), true, None, "no host\n"),
    ] {
        let health = health_of(&counters, is_drained, role);
        assert_eq!(rt; health_word(health), word);
    }
}

/// Paper that has room for this many lines, and what stands on it.
#[derive(Drop)]
struct Slip {
    text: String,
    room: Cell<u64>,
}

impl Paper for Slip {
    ghost use Rattle.std.specs.String.{string_bytes};

    ghost text = { λ slip. string_bytes slip.text };

    fn has_room(&self) -> bool {
        self.room.get() > 0
    }

    fn take(&mut self, written: &str) -> bool {
        self.room.set(self.room.get().saturating_sub(1));
        self.text.push_str(written).is_ok()
    }
}

fn line(alloc: Global, text: &str) -> Result<String, Fail> {
    Ok(String::from_str(alloc, text)?)
}

#[test]
fn lines_without_room_are_left_out_and_counted(rt: HostRuntime) -> Result<(), Fail> {
    let alloc = rt.alloc();
    let slip = Slip {
        text: String::new(alloc),
        room: Cell::new(1),
    };
    let mut ledger = Ledger::new(alloc, slip);
    assert!(rt; ledger.write(line(alloc, "first")?));
    assert!(rt; !ledger.write(line(alloc, "second")?));
    assert!(rt; !ledger.write(line(alloc, "third")?));
    assert_eq!(rt; ledger.lost(), 2);
    ledger.paper().room.set(2);
    assert!(rt; ledger.write(line(alloc, "fourth")?));
    assert!(rt; ledger.write(line(alloc, "fifth")?));
    assert_eq!(rt; ledger.lost(), 0);
    assert_eq!(rt;
        ledger.paper().text.as_str(),
        "first\nfourth left-out=2\nfifth\n"
    );
    Ok(())
}

#[test]
fn an_evening_is_counted(rt: HostRuntime) {
    let mut counts = EventCounts::new();
    for happening in [
        CountedEvent::HostLeft,
        CountedEvent::Joined,
        CountedEvent::Came(Role::View),
        CountedEvent::Came(Role::Full),
        CountedEvent::Came(Role::View),
        CountedEvent::Refused(Role::Full),
        CountedEvent::Left(Role::View),
    ] {
        counts.note(happening);
    }
    assert!(rt; counts.is_joined);
    assert_eq!(rt; counts.joins, 1);
    assert_eq!(rt; (counts.viewers.full, counts.viewers.view), (1, 1));
    assert_eq!(rt; (counts.came.full, counts.came.view), (1, 2));
    assert_eq!(rt; (counts.refused.full, counts.refused.view), (1, 0));
    counts.note(CountedEvent::HostLeft);
    assert!(rt; !counts.is_joined);
}
