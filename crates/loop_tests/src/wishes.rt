//! What a viewer's loop tells the source of the forms that its answers would use, and for how long.

use crate::noted::{NotedScreen, Notes};
use crate::watch::{ALWAYS, link_of, make_watch, red_and_blue};
use fault::Fault;
use input_relay::relay;
use joined_runs::RectForm;
use link::{Gave, Took};
use painter::Wanted;
use pixel_format::Format;
use roles::Role;
use std::alloc::Global;
use std::sync::Wait;
use std::sync::atomic::{AtomicU64, Ordering};
use std::test::Fail;
use viewer_server::{Beginning, NoProgress, Visit, run_viewer};
use viewer_session::{AnswerForm, Session};

/// No forms were wanted yet, or only of nobody.
const NONE: u64 = 0;

/// Forms in the host's format are wanted.
const WANTED: u64 = 1;

/// They were wanted, and aren't any more.
const NO_LONGER: u64 = 2;

/// Something else was wanted than is told here.
const OTHERWISE: u64 = 3;

/// What was wanted with this wish after that one.
fn after(before: u64, format: Option<Format>) -> u64 {
    match format {
        None if before == WANTED => NO_LONGER,
        None => before,
        Some(format) if format.is_host() && before < NO_LONGER => WANTED,
        Some(_) => OTHERWISE,
    }
}

/// What was wanted last, by its number.
#[derive(Drop)]
struct LastWish {
    number: AtomicU64,
}

impl Notes for LastWish {
    fn want(&self, wanted: Wanted) {
        let before = self.number.load(Ordering::SeqCst);
        self.number
            .store(after(before, wanted.forms), Ordering::SeqCst);
    }
}

/// A viewer lists Hextile, asks for the whole screen, and ends (RFC 6143, 7.5.2 and 7.5.3).
const TAKES_HEXTILE: &[u8] = b"\x02\0\0\x01\0\0\0\x05\x03\0\0\0\0\0\0\x02\0\x01";

/// One that lists Raw does so.
const TAKES_RAW: &[u8] = b"\x02\0\0\x01\0\0\0\0\x03\0\0\0\0\0\0\x02\0\x01";

/// What two viewers send, in which form they are answered, and what was wanted in the end: an answer in Hextile in the
/// host's format and in joined runs uses forms (docs/DECISIONS.md).
const WISHES: [(&[u8], RectForm, u64); 3] = [
    (TAKES_HEXTILE, RectForm::Joined, NO_LONGER),
    (TAKES_HEXTILE, RectForm::OfRows, NONE),
    (TAKES_RAW, RectForm::Joined, NONE),
];

/// What was wanted in the end for a viewer that sends this and is answered in this form.
fn wish_for<R: Wait + Drop + Copy>(
    rt: R,
    alloc: Global,
    sends: &[u8],
    runs: RectForm,
) -> Result<u64, Fault> {
    let takes = [
        (Took::Bytes(sends.len()), 1),
        (Took::Nothing, 1),
        (Took::End, 1),
    ];
    let link = link_of(alloc, sends, &takes, &[(Gave::Bytes(64), 4)])?;
    let (mut senders, _taker) = relay(rt, alloc, 1)?;
    let Some(sink) = senders.pop() else {
        return Err(Fault::Gone);
    };
    let source = NotedScreen {
        screen: red_and_blue(alloc)?,
        notes: LastWish {
            number: AtomicU64::new(NONE),
        },
    };
    let session = Session::ready(
        alloc,
        2,
        1,
        Role::View,
        AnswerForm {
            runs,
            zrle: false,
            copies: false,
        },
        None,
    )?;
    let watch = make_watch(ALWAYS);
    let first = Beginning::of(&link, &source, &sink, &session);
    let mut visit = Visit::new(&first, link, source, sink, session);
    let _ = run_viewer(&rt, &mut visit, &watch, &watch, &NoProgress);
    let (_link, source, _sink, _session) = visit.into_parts(());
    Ok(source.notes.number.load(Ordering::SeqCst))
}

/// While a viewer is served its source is told in which format its answers would use forms, and then that they no
/// longer do.
#[test]
fn forms_are_wanted_while_they_are_used(rt: HostRuntime) -> Result<(), Fail> {
    for (sends, runs, wanted) in WISHES {
        if wish_for(rt, rt.alloc(), sends, runs).unwrap_or(OTHERWISE) != wanted {
            return Err(Fail::new(wanted));
        }
    }
    Ok(())
}
