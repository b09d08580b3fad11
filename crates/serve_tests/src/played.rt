//! Recordings that are played as hosts.

use crate::deeds::{Act, Deed};
use crate::lines::status_of;
use crate::play::{Play, perform_all};
use crate::refusals::NO_HOST_TO_VIEW;
use crate::room::Room;
use crate::scene::FAULT;
use crate::steps::{INIT, Step};
use std::fs;
use std::test::*;

const VIEWER: &[usize] = &[0];

/// A recording of two blocks, as the form says: the opening of a session of version 3.8, a screen of two pixels and
/// update 1 at 0 milliseconds, and update 2 after an hour.
const RECORDED: &[u8] = b"FBS 001.000\n\0\0\0\x43\
      RFB 003.008\n\x01\x01\0\0\0\0\
      \0\x02\0\x01\x20\x18\0\x01\0\xFF\0\xFF\0\xFF\x10\x08\0\0\0\0\0\0\0\x01T\
      \0\0\0\x01\0\0\0\0\0\x02\0\x01\0\0\0\0\x01\0\0\0\x01\0\0\0\0\0\0\0\0\
      \0\0\0\x18\
      \0\0\0\x01\0\0\0\0\0\x02\0\x01\0\0\0\0\x02\0\0\0\x02\0\0\0\0\x36\xEE\x80";

/// Its index: the second block is a key moment. It begins behind 88 bytes.
const INDEX: &[u8] = b"FBI 001.000\n\0\x36\xEE\x80\0\0\0\0\0\0\0\x58";

/// The index of another recording: it has the same time, and a place at which this one's first block begins.
const OTHER_INDEX: &[u8] = b"FBI 001.000\n\0\x36\xEE\x80\0\0\0\0\0\0\0\x0C";

/// Where its second block begins, in bytes.
const SECOND_BLOCK: usize = 88;

/// A block that ends inside a message, an update of two pixels, at 0 milliseconds.
const BROKEN_OFF: &[u8] = b"\0\0\0\x0C\0\0\0\x01\0\0\0\0\0\x02\0\x01\0\0\0\0";

/// The beginning of a block of 33,554,432 bytes, twice as many as one may have.
const TOO_LONG: &[u8] = b"\x02\0\0\0";

/// A viewer is shown the recording's beginning. It rests there, and then at another time, of which the viewer is shown
/// what was recorded then; and it goes on.
const IT_IS_PLAYED: &[Act] = &[Act {
    who: VIEWER,
    deeds: &[
        Deed::ComesAfter("view", NO_HOST_TO_VIEW),
        Deed::Does(Step::IsGreeted(INIT)),
        Deed::Does(Step::IsShown(1)),
        Deed::Sees("played time=00:0", " paused=no"),
        Deed::IsObeyed("pause\n", "|done\n|"),
        Deed::Sees("played time=00:0", " paused=yes"),
        Deed::IsObeyed(
            "seek 01:00:01\n",
            "|error: the recording ends before that time\n|",
        ),
        Deed::IsObeyed("seek 01:00:00\n", "|done\n|"),
        Deed::Does(Step::IsShown(2)),
        Deed::Sees("played time=01:00:00 paused=yes", ""),
        Deed::IsObeyed("seek 00:00:07\n", "|done\n|"),
        Deed::Does(Step::IsShown(1)),
        Deed::Sees("played time=00:00:07 paused=yes", ""),
        Deed::IsObeyed("play\n", "|done\n|"),
        Deed::Sees("played time=00:0", " paused=no"),
        Deed::Runs(
            "serve --host file:nobody.fbs --full |nobody| --view |web_view|",
            "\nreflectord: can't open the recording of file:nobody.fbs: ",
            FAULT,
        ),
        Deed::Runs(
            "serve --host file: --full |nobody| --view |web_view|",
            "\nreflectord: ",
            FAULT,
        ),
        Deed::IsObeyed("stop\n", "|done\n|"),
        Deed::Does(Step::SeesItGo),
        Deed::Does(Step::Removes),
    ],
}];

/// Recordings that don't end between two messages, while the run of another one makes a pause. One that ends inside a
/// message has ended all the same, and one that can't be played on is told of with the reason. One beside which another
/// recording's index stands is heard from its beginning on, to its end. Each run has a port of its own, which its
/// porter keeps until the process ends.
const THEY_BREAK_OFF: &[Act] = &[Act {
    who: VIEWER,
    deeds: &[
        Deed::Connects("view"),
        Deed::Sees("host none", ""),
        Deed::Runs(
            "serve --log --host file:broken-off.fbs --view-only --view-places 1 --view |nobody|",
            "host-out address=- why=\"ended\"",
            0,
        ),
        Deed::Runs(
            "serve --log --host file:too-long.fbs file:broken-off.fbs --view-only --view-places 1 --view |web_full|",
            "host-out address=- why=\"a block of the recording is too long\"",
            0,
        ),
        Deed::Runs(
            "serve --host file:broken-off.fbs file:too-long.fbs --view-only --view-places 1 --view |metrics|",
            "\nreflectord: can't play the recording of file:too-long.fbs: a block of the recording is too long\n",
            FAULT,
        ),
        Deed::Runs(
            "serve --host file:no-recording.fbs --view-only --view-places 1 --view |web_view|",
            "\nreflectord: can't play the recording of file:no-recording.fbs: the file does not begin as a recording does\n",
            FAULT,
        ),
        Deed::Runs(
            "serve --log --host file:other.fbs --from 01:00:00 --view-only --view-places 1 --view |full|",
            "index-unused recording=\"other.fbs\" why=\"the index is of another recording\"",
            0,
        ),
        Deed::IsObeyed("stop\n", "|done\n|"),
        Deed::Does(Step::Removes),
    ],
}];

/// A recording that ends as soon as it has begun is tried again after the pause. Meanwhile nothing is played.
const IT_BEGINS_ANEW: &[Act] = &[Act {
    who: VIEWER,
    deeds: &[
        Deed::ComesAfter("view", NO_HOST_TO_VIEW),
        Deed::Does(Step::IsGreeted(INIT)),
        Deed::Does(Step::IsShown(2)),
        Deed::Sees("host none", ""),
        Deed::IsObeyed("pause\n", "|error: no recording is played now\n|"),
        Deed::IsObeyed("play\n", "|error: no recording is played now\n|"),
        Deed::IsObeyed("seek 00:00:00\n", "|error: no recording is played now\n|"),
        Deed::IsObeyed("stop\n", "|done\n|"),
        Deed::Does(Step::SeesItGo),
        Deed::Does(Step::Removes),
    ],
}];

const PLAYS: &[Play<'static>] = &[
    Play {
        name: "a recording is played",
        words: "--log --host file:played.fbs --view-only --view-places 1 --control control-|full|",
        notify: "",
        acts: &[IT_IS_PLAYED],
        status: 0,
        lines: &[
            "listening role=view address=127.0.0.1:|view| places=1",
            "host-tried recording=\"played.fbs\" why=\"opened\"",
            "host-joined address=- width=2 height=1 name=\"T\"",
            "viewer-in place=1 role=view address=*",
            "host-out address=- why=\"seek\"",
            "host-tried recording=\"played.fbs\" why=\"opened\"",
            "host-joined address=- width=2 height=1 name=\"T\"",
            "host-out address=- why=\"seek\"",
            "host-tried recording=\"played.fbs\" why=\"opened\"",
            "host-joined address=- width=2 height=1 name=\"T\"",
            "viewer-out place=1 role=view address=*",
            "host-out address=- why=\"stopped\"",
        ],
    },
    Play {
        name: "a recording begins anew",
        words: "--log --host file:played.fbs --from 01:00:00 --speed 16 --again 3600 --view-only --view-places 1 --control control-|full|",
        notify: "",
        acts: &[IT_BEGINS_ANEW],
        status: 0,
        lines: &[
            "listening role=view address=127.0.0.1:|view| places=1",
            "host-tried recording=\"played.fbs\" why=\"opened\"",
            "host-joined address=- width=2 height=1 name=\"T\"",
            "host-out address=- why=\"ended\"",
            "viewer-in place=1 role=view address=*",
            "viewer-out place=1 role=view address=*",
        ],
    },
];

const BREAKS: &[Play<'static>] = &[Play {
    name: "recordings break off",
    words: "--log --host file:paused.fbs --again 3600 --view-only --view-places 1 --control control-|full|",
    notify: "",
    acts: &[THEY_BREAK_OFF],
    status: 0,
    lines: &[
        "listening role=view address=127.0.0.1:|view| places=1",
        "host-tried recording=\"paused.fbs\" why=\"opened\"",
        "index-unused recording=\"paused.fbs\" why=\"the file does not begin as an index does\"",
        "host-joined address=- width=2 height=1 name=\"T\"",
        "host-out address=- why=\"ended\"",
    ],
}];

/// Lines that write the index of a recording, and the exit status of each. It isn't written over, and none is written
/// of what is no recording.
const INDEXES: &[(&str, u8)] = &[
    ("show played.fbs --index", 0),
    ("show --index played.fbs", FAULT),
    ("show --index unplayed.fbs", FAULT),
];

/// Writes a recording of the first block of the other one, and of what follows here.
fn write_beginning(rt: &HostRuntime, path: &str, more: &[u8]) -> Result<(), Fail> {
    let first = RECORDED.get(..SECOND_BLOCK).unwrap_or(&[]);
    let mut bytes = first.to_vec(rt.alloc())?;
    bytes.extend_from_slice(more)?;
    fs::write(rt, path, bytes.as_slice())?;
    Ok(())
}

#[test]
fn recordings_are_played(rt: HostRuntime) -> Result<(), Fail> {
    let alloc = rt.alloc();
    fs::write(&rt, "played.fbs", RECORDED)?;
    fs::write(&rt, "unplayed.fbs", INDEX)?;
    let room = Room::new(alloc)?;
    for (line, status) in INDEXES {
        if status_of(rt, alloc, room, line) != *status {
            return Err(Fail::new(line));
        }
    }
    if fs::read(&rt, "played.fbi")?.as_slice() != INDEX {
        return Err(Fail::new("the index isn't that of the recording"));
    }
    if fs::exists(&rt, "unplayed.fbi")? {
        return Err(Fail::new("an index of no recording"));
    }
    perform_all(rt, alloc, PLAYS)
}

#[test]
fn recordings_break_off(rt: HostRuntime) -> Result<(), Fail> {
    fs::write(&rt, "no-recording.fbs", INDEX)?;
    fs::write(&rt, "other.fbs", RECORDED)?;
    fs::write(&rt, "other.fbi", OTHER_INDEX)?;
    write_beginning(&rt, "paused.fbs", &[])?;
    fs::write(&rt, "paused.fbi", RECORDED)?;
    write_beginning(&rt, "broken-off.fbs", BROKEN_OFF)?;
    write_beginning(&rt, "too-long.fbs", TOO_LONG)?;
    perform_all(rt, rt.alloc(), BREAKS)
}
