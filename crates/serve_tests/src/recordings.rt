//! A run that is recorded. What its file has is what a viewer is sent: the host's screen, from the version on.

use crate::deeds::{Act, Deed};
use crate::lines::status_of;
use crate::loopback::VERSION;
use crate::play::{Play, perform_all};
use crate::refusals::NO_HOST_TO_VIEW;
use crate::room::Room;
use crate::scene::FAULT;
use crate::steps::{INIT, Step};
use std::alloc::Global;
use std::fs;
use std::test::*;

const HOST: &[usize] = &[0];

/// The paths of the recording and of its index.
const PATH: &str = "recorded.fbs";

const INDEX_PATH: &str = "recorded.fbi";

/// How a recording and an index begin.
const LINE: &[u8] = b"FBS 001.000\n";

const INDEX_LINE: &[u8] = b"FBI 001.000\n";

/// What the recorder is sent before the first answer (RFC 6143, 7.1 to 7.3): a version, the security types, their
/// result, and then the screen.
const HELLO: &[u8] = b"RFB 003.008\n\x01\x01\0\0\0\0";

/// The answer to a request for a black screen of two pixels, in Hextile (7.6.1 and 7.7.4): a background alone.
const ANSWER: &[u8] = b"\0\0\0\x01\0\0\0\0\0\x02\0\x01\0\0\0\x05\x02\0\0\0\0";

/// An operator is told that the run is recorded, and another run can't record into the same file. The file of an index
/// that is there isn't written over either, and no file of a recording is left beside it.
const IS_RECORDED: &[Act] = &[Act {
    who: HOST,
    deeds: &[
        Deed::IsMet(0),
        Deed::Does(Step::IsJoined(INIT)),
        Deed::Sees("recording state=on seconds=", " bytes="),
        Deed::Runs(
            "serve --host 127.0.0.1:|second| --full |nobody| --view |web_view| --record recorded.fbs",
            "\nreflectord: can't record into a new file recorded.fbs: ",
            FAULT,
        ),
        Deed::Puts("other.fbi"),
        Deed::Runs(
            "serve --host 127.0.0.1:|second| --full |nobody| --view |web_view| --record other.fbs",
            "\nreflectord: can't record into a new file other.fbs: ",
            FAULT,
        ),
        Deed::Finds("other.fbi"),
        Deed::IsObeyed("stop\n", "|done\n|"),
        Deed::Does(Step::SeesItGo),
        Deed::Does(Step::Removes),
    ],
}];

/// A host that never comes is no reason to leave files behind.
const NOBODY_IS_RECORDED: &[Act] = &[Act {
    who: HOST,
    deeds: &[
        Deed::Connects("view"),
        Deed::Does(Step::Sends(VERSION)),
        Deed::Does(Step::IsRefused(NO_HOST_TO_VIEW)),
        Deed::Sees("recording state=awaited seconds=0 bytes=0", ""),
        Deed::IsObeyed("stop\n", "|done\n|"),
        Deed::Does(Step::Removes),
    ],
}];

const PLAYS: &[Play<'static>] = &[
    Play {
        name: "a run is recorded",
        words: "--log --host 127.0.0.1:|first| --view-only --view-places 1 --control control-|full| --record recorded.fbs",
        notify: "",
        acts: &[IS_RECORDED],
        status: 0,
        lines: &[
            "listening role=view address=127.0.0.1:|view| places=1",
            "host-tried address=127.0.0.1:|first| why=\"connected\"",
            "host-joined address=127.0.0.1:|first| width=2 height=1 name=\"T\"",
            "recording path=\"recorded.fbs\"",
            "host-out address=127.0.0.1:|first| why=\"stopped\"",
            "recorded path=\"recorded.fbs\" seconds=*",
        ],
    },
    Play {
        name: "nobody is recorded",
        words: "--log --again 3600 --host 127.0.0.1:|nobody| --view-only --view-places 1 --control control-|full| --record unused-%Y.fbs",
        notify: "",
        acts: &[NOBODY_IS_RECORDED],
        status: 0,
        lines: &[
            "listening role=view address=127.0.0.1:|view| places=1",
            "host-tried address=127.0.0.1:|nobody| why=\"connection refused\"",
        ],
    },
];

/// A recording of one block: the hello, a screen of two pixels, and the answer, padded, all at 0 milliseconds.
const RECORDED: &[u8] = b"FBS 001.000\n\0\0\0\x40\
      RFB 003.008\n\x01\x01\0\0\0\0\
      \0\x02\0\x01\x20\x18\0\x01\0\xFF\0\xFF\0\xFF\x10\x08\0\0\0\0\0\0\0\x01T\
      \0\0\0\x01\0\0\0\0\0\x02\0\x01\0\0\0\x05\x02\0\0\0\0\0\0\0\0";

/// A number of four bytes, the most significant first, at this place.
fn number_at(bytes: &[u8], place: usize) -> Option<usize> {
    let digits = bytes.get(place..)?.get(..4)?;
    let mut number: usize = 0;
    for digit in digits {
        number = number.checked_mul(256)?.checked_add(*digit as usize)?;
    }
    Some(number)
}

/// What the block at this place says, and where the next one begins.
fn block_at(bytes: &[u8], place: usize) -> Option<(&[u8], usize)> {
    let count = number_at(bytes, place)?;
    let start = place.checked_add(4)?;
    let said = bytes.get(start..)?.get(..count)?;
    let padded = count.checked_add(3)? / 4 * 4;
    Some((said, start.checked_add(padded)?.checked_add(4)?))
}

/// What all blocks of a recording say from this place on.
fn said_from(alloc: Global, bytes: &[u8], place: usize) -> Option<Vec<u8>> {
    let mut said = Vec::new(alloc);
    let mut place = place;
    for _ in 0..bytes.len() {
        if place == bytes.len() {
            return Some(said);
        }
        let (more, next) = block_at(bytes, place)?;
        said.extend_from_slice(more).ok()?;
        place = next;
    }
    None
}

/// Whether the recording says the hello and one answer, and the index leads to the block in which the answer begins: a
/// slow machine may write it in two.
fn is_right(alloc: Global, bytes: &[u8], index: &[u8]) -> Option<bool> {
    let said = said_from(alloc, bytes, LINE.len())?;
    let mut wanted = HELLO.to_vec(alloc).ok()?;
    wanted.extend_from_slice(INIT).ok()?;
    wanted.extend_from_slice(ANSWER).ok()?;
    // The place of an entry is its last eight bytes, of which the first four are 0 here.
    let place = number_at(index, INDEX_LINE.len().checked_add(8)?)?;
    let answer = said_from(alloc, bytes, place)?;
    Some(
        bytes.starts_with(LINE)
            && index.starts_with(INDEX_LINE)
            && said.as_slice() == wanted.as_slice()
            && answer.as_slice() == ANSWER,
    )
}

/// How a picture of two pixels begins (PNG, 5.2, 5.3 and 11.2.2): the signature, and IHDR with its width and height.
const PICTURE: &[u8] = b"\x89PNG\r\n\x1A\n\0\0\0\x0DIHDR\0\0\0\x02\0\0\0\x01";

/// Lines that make pictures of the recording, and the exit status of each. No picture is made of a recording that isn't
/// there, nor where the line has a word too many, or a time that is none.
const SHOWS: &[(&str, u8)] = &[
    ("show shown.fbs shown.png", 0),
    ("show --at 00:00:07 shown.fbs shown-then.png", 0),
    ("show shown.fbs --each 5 .", 0),
    ("show nobody.fbs shown-not.png", FAULT),
    ("show shown.fbs shown-not.png --at 00:00:60", NO_COMMAND),
    ("show shown.fbs --each 0 .", NO_COMMAND),
    ("show shown.fbs shown-not.png more", NO_COMMAND),
    ("show shown.fbs", NO_COMMAND),
    ("show shown.fbs --index --at 00:00:01", NO_COMMAND),
    ("show shown.fbs --at 00:00:01 --index", NO_COMMAND),
    ("show --each 5 --index shown.fbs", NO_COMMAND),
    ("show shown.fbs shown-not.png --index", NO_COMMAND),
    ("show --index --index", NO_COMMAND),
    ("show nobody.fbs --index", FAULT),
];

/// The exit status of a line that is no command.
const NO_COMMAND: u8 = 2;

#[test]
fn recordings_are_shown(rt: HostRuntime) -> Result<(), Fail> {
    let alloc = rt.alloc();
    fs::write(&rt, "shown.fbs", RECORDED)?;
    let room = Room::new(alloc)?;
    for (line, status) in SHOWS {
        if status_of(rt, alloc, room, line) != *status {
            return Err(Fail::new(line));
        }
    }
    for path in ["shown.png", "shown-then.png", "00-00-00.png"] {
        if !fs::read(&rt, path)?.as_slice().starts_with(PICTURE) {
            return Err(Fail::new(path));
        }
    }
    match fs::read(&rt, "shown-not.png") {
        Ok(_) => Err(Fail::new("a picture was made")),
        Err(_) => Ok(()),
    }
}

#[test]
fn runs_are_recorded(rt: HostRuntime) -> Result<(), Fail> {
    perform_all(rt, rt.alloc(), PLAYS)?;
    let bytes = fs::read(&rt, PATH)?;
    let index = fs::read(&rt, INDEX_PATH)?;
    match is_right(rt.alloc(), bytes.as_slice(), index.as_slice()) {
        Some(true) => Ok(()),
        _ => Err(Fail::new("the recording isn't what was shown")),
    }
}
