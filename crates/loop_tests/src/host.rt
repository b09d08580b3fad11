//! Reading the host of a screen of 2 by 1, over links that end or fail, and from bytes at fault.

ghost use Rattle.std.specs.Prelude.{◌≡◌};

use crate::watch::{ALWAYS, AREA, link_of, number};
use fault::Fault;
use host_decoder::HostDecoder;
use host_reader::run_host;
use link::Took;
use painter::{Painter, Patch};
use reflect_core::{Cut, PlainScreen, Puts, ScreenSource};
use std::alloc::Global;
use std::sync::Wait;
use std::test::Fail;
use tiles::Have;

/// One update: red and blue, Raw.
const UPDATE: [u8; 24] = [
    0, 0, 0, 1, 0, 0, 0, 0, 0, 2, 0, 1, 0, 0, 0, 0, 0, 0, 0xFF, 0, 0xFF, 0, 0, 0,
];

/// That update, and then bytes that are no message.
const UPDATE_AND_FAULT: [u8; 26] = [
    0, 0, 0, 1, 0, 0, 0, 0, 0, 2, 0, 1, 0, 0, 0, 0, 0, 0, 0xFF, 0, 0xFF, 0, 0, 0, 7, 2,
];

/// A colour map of one entry, a Bell, and the text "Hi".
const MAP_BELL_TEXT: [u8; 23] = [
    1, 0, 0, 0, 0, 1, 0, 0, 0, 0, 0, 0, 2, 3, 0, 0, 0, 0, 0, 0, 2, 0x48, 0x69,
];

/// A publisher of a screen of 2 by 1 that is refused memory once it has taken this many updates.
#[derive(Drop)]
struct Limited {
    screen: PlainScreen,
    room: u64,
    ghost is_small: { (screen.width ≡ 2) × (screen.height ≡ 1) },
}

impl Puts for Limited {
    ghost updates = { λ p. p.screen.updates };

    ghost width = { λ p. p.screen.width };

    ghost height = { λ p. p.screen.height };

    fn put(&mut self, patch: Patch) -> Result<u64, (Fault, Patch)> {
        if self.room == 0 && self.screen.updates() < 1 << 62 {
            return Err((Fault::Memory, patch));
        }
        self.room = self.room.saturating_sub(1);
        self.screen.put(patch)
    }
}

/// What a host sends over a link that answers so; the number of the fault with which reading it ends, or 0; how many
/// updates there are then; whether these show red and blue; and whether the second tells a Bell and the text "Hi".
#[derive(Drop)]
struct Case<'a> {
    name: &'a str,
    sends: &'a [u8],
    takes: &'a [(Took, usize)],
    room: u64,
    fault: u64,
    updates: u64,
    shows: bool,
    tells: bool,
}

/// Reads what a host sends over the link, from a black screen on, and puts it. It answers the number of the fault, or
/// 0.
fn read<R: Wait>(
    rt: &R,
    alloc: Global,
    case: &Case<'_>,
    publisher: &mut Limited,
) -> Result<u64, Fault> {
    let mut link = link_of(alloc, case.sends, case.takes, &[])?;
    let mut painter = Painter::new(alloc, 2, 1)?;
    let mut decoder = HostDecoder::new(alloc, 2, 1);
    let answer = run_host(rt, alloc, &mut link, &mut decoder, &mut painter, publisher);
    Ok(number(answer))
}

/// Whether the screen shows as many updates as told, red and blue if told so, and a Bell and the text "Hi" with the
/// second update if told so.
fn is_seen(alloc: Global, case: &Case<'_>, screen: &mut PlainScreen) -> Result<bool, Fault>
    requires { (screen.old.width ≡ 2) × (screen.old.height ≡ 1) }
    ensures { (screen.new.width ≡ 2) × (screen.new.height ≡ 1) }
{
    let have = Have::new(alloc, 2, 1)?;
    let mut cut = Cut::new(alloc, 2, 1)?;
    let count = screen.cut(&AREA, &have, None, &mut cut);
    let is_counted = matches!(count, Ok(count) if count == case.updates);
    let shows = cut.colours.as_slice() == [0xFF0000, 0x0000FF].as_slice();
    let is_second = cut.text.number() == Some(2);
    let tells = cut.bells == 1 && is_second && cut.text.bytes() == b"Hi".as_slice();
    Ok(is_counted && shows == case.shows && tells == case.tells)
}

/// Whether reading goes as told, with this publisher.
fn goes_on_as_told<R: Wait>(
    rt: &R,
    alloc: Global,
    case: &Case<'_>,
    publisher: &mut Limited,
) -> bool {
    publisher.room = case.room;
    let fault = read(rt, alloc, case, publisher);
    let updates = publisher.screen.updates();
    let is_seen = is_seen(alloc, case, &mut publisher.screen);
    matches!(fault, Ok(fault) if fault == case.fault)
        && updates == case.updates
        && matches!(is_seen, Ok(true))
}

/// Whether reading goes as told, one case after another, with this publisher.
fn all_go_as_told<R: Wait>(
    rt: &R,
    alloc: Global,
    cases: &[Case<'_>],
    publisher: &mut Limited,
) -> bool {
    let mut right = true;
    for case in cases {
        right = goes_on_as_told(rt, alloc, case, publisher) && right;
    }
    right
}

/// Whether reading goes as told, one case after another, from a screen on to which nothing was put.
fn go_as_told<R: Wait>(rt: &R, alloc: Global, cases: &[Case<'_>]) -> Result<bool, Fault> {
    let screen = PlainScreen::new(alloc, 2, 1)?;
    let mut publisher = Limited { screen, room: 0 };
    Ok(all_go_as_told(rt, alloc, cases, &mut publisher))
}

/// One update, whole.
const WHOLE: Case<'static> = Case {
    name: "whole",
    sends: &UPDATE,
    takes: &[(Took::Nothing, 3), (Took::Bytes(24), 1)],
    room: ALWAYS,
    fault: 0,
    updates: 1,
    shows: true,
    tells: false,
};

/// A second update, byte by byte.
const BYTE_BY_BYTE: Case<'static> = Case {
    name: "byte by byte",
    sends: &UPDATE,
    takes: &[(Took::Bytes(1), 24)],
    room: ALWAYS,
    fault: 0,
    updates: 2,
    shows: true,
    tells: false,
};

const MAP_BELL_TEXT_IN_PIECES: [(Took, usize); 2] = [(Took::Bytes(5), 4), (Took::Bytes(3), 1)];

/// The links end where a host may end or inside its message, or the bytes are at fault: what was whole before stays.
/// Bells and texts are put, and colour maps aren't. What was put before memory was refused stays. Of the last two the
/// links end after a message, and the second puts to the screen of the first.
static CASES: [&[Case<'static>]; 8] = [
    &[Case {
        name: "ends inside a message",
        sends: &[
            0, 0, 0, 1, 0, 0, 0, 0, 0, 2, 0, 1, 0, 0, 0, 0, 0, 0, 0xFF, 0, 0xFF, 0, 0,
        ],
        takes: &[(Took::Nothing, 3), (Took::Bytes(23), 1)],
        room: ALWAYS,
        fault: 22,
        updates: 0,
        shows: false,
        tells: false,
    }],
    &[Case {
        name: "ends at once",
        sends: &UPDATE,
        takes: &[(Took::Nothing, 1), (Took::End, 1)],
        room: ALWAYS,
        fault: 0,
        updates: 0,
        shows: false,
        tells: false,
    }],
    &[Case {
        name: "what was whole before a fault stays",
        sends: &UPDATE_AND_FAULT,
        takes: &[(Took::Bytes(26), 1)],
        room: ALWAYS,
        fault: 6,
        updates: 1,
        shows: true,
        tells: false,
    }],
    &[Case {
        name: "bells and texts are put and maps are not",
        sends: &MAP_BELL_TEXT,
        takes: &MAP_BELL_TEXT_IN_PIECES,
        room: ALWAYS,
        fault: 0,
        updates: 2,
        shows: false,
        tells: true,
    }],
    &[Case {
        name: "room for 0",
        sends: &MAP_BELL_TEXT,
        takes: &MAP_BELL_TEXT_IN_PIECES,
        room: 0,
        fault: 20,
        updates: 0,
        shows: false,
        tells: false,
    }],
    &[Case {
        name: "room for 1",
        sends: &MAP_BELL_TEXT,
        takes: &MAP_BELL_TEXT_IN_PIECES,
        room: 1,
        fault: 20,
        updates: 1,
        shows: false,
        tells: false,
    }],
    &[Case {
        name: "room for 2",
        sends: &MAP_BELL_TEXT,
        takes: &MAP_BELL_TEXT_IN_PIECES,
        room: 2,
        fault: 0,
        updates: 2,
        shows: false,
        tells: true,
    }],
    &[WHOLE, BYTE_BY_BYTE],
];

/// Whether reading goes as told where the link answers so after this many of the update's bytes, one at a time.
fn is_read_until<R: Wait>(
    rt: &R,
    alloc: Global,
    count: usize,
    last: Took,
    fault: u64,
) -> Result<bool, Fault> {
    let is_whole = count == 24;
    let case = Case {
        name: "a call",
        sends: &UPDATE,
        takes: &[(Took::Bytes(1), count), (last, 1)],
        room: ALWAYS,
        fault,
        updates: u64::from(is_whole),
        shows: is_whole,
        tells: false,
    };
    go_as_told(rt, alloc, &[case])
}

#[test]
fn host_is_read(rt: HostRuntime) -> Result<(), Fail> {
    for cases in &CASES {
        if !go_as_told(&rt, rt.alloc(), cases).unwrap_or(false) {
            return Err(Fail::new(cases[0].name));
        }
    }
    Ok(())
}

/// Where the link fails at any call that is its fault, and where it ends inside a message. What is whole is put. The
/// first call at which it goes otherwise is printed.
#[test]
fn fails_or_ends_at_each_call(rt: HostRuntime) -> Result<(), Fail> {
    for count in 0..25 {
        let at_end = if count == 24 || count == 0 { 0 } else { 22 };
        for (last, fault) in [(Took::Failed, 21), (Took::End, at_end)] {
            if !is_read_until(&rt, rt.alloc(), count, last, fault).unwrap_or(false) {
                return Err(Fail::new(count));
            }
        }
    }
    Ok(())
}
