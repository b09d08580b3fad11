//! The link of a browser, act by act.

use crate::browsers::{Browser, Pieces, browser_of, take_all};
use crate::words::{bytes_of, parted, print_bytes, print_first};
use link::{Gave, Link, Took};
use std::test::Fail;

/// Of what was taken, and of what a browser was sent, at most this many bytes are printed.
const MOST_SHOWN: usize = 64;

/// A link that is flushed often is flushed this many times.
const OFTEN: usize = 1_000;

/// Gives the bytes of a word once.
fn give(rt: &HostRuntime, link: &mut Browser, word: &str) -> Result<Gave, Fail> {
    let bytes = bytes_of(rt.alloc(), word)?;
    if bytes.is_empty() {
        return Err(Fail::new("there is nothing to give"));
    }
    Ok(link.give(bytes.as_slice()))
}

/// Takes once, at most eight bytes.
fn take(rt: &HostRuntime, link: &mut Browser) -> Result<(), Fail> {
    let mut into = [0u8; 8];
    match link.take(&mut into) {
        Took::Bytes(count) => print_first(rt, into.split_at(count).0, MOST_SHOWN),
        other => Ok(print!(rt; " {other:?}")?),
    }
}

/// Takes all, and prints how the link ended, and what was taken.
fn take_to_the_end(rt: &HostRuntime, link: &mut Browser) -> Result<(), Fail> {
    let mut taken = Vec::new(rt.alloc());
    let end = take_all(link, &mut taken, false)?;
    print!(rt; " {end}")?;
    print_first(rt, taken.as_slice(), MOST_SHOWN)
}

/// Flushes until all has gone out that may.
fn flush_often(link: &mut Browser) {
    for _ in 0..OFTEN {
        link.flush();
    }
}

/// Plays one act. What is no word of an act is bytes that are given.
fn play_act(rt: &HostRuntime, link: &mut Browser, act: &str) -> Result<(), Fail> {
    match act {
        "flush" => link.flush(),
        "flush_often" => flush_often(link),
        "ping" => link.ping(),
        "take" => take(rt, link)?,
        "take_all" => take_to_the_end(rt, link)?,
        "sent" => print_first(rt, link.below().below().given(), MOST_SHOWN)?,
        "failures" => print!(rt; " {}", link.failures())?,
        bytes => print!(rt; " {:?}", give(rt, link, bytes)?)?,
    }
    Ok(())
}

/// Plays the acts, and prints what came of each but of flushes and pings.
fn play_acts(rt: &HostRuntime, link: &mut Browser, acts: &str) -> Result<(), Fail> {
    for act in acts.split(' ') {
        play_act(rt, link, act)?;
    }
    println!(rt)?;
    Ok(())
}

/// Plays a line with a name, the lengths of the pieces in which a stream comes, those of the pieces that the browser
/// takes, the stream, and the acts.
pub(crate) fn play_link(rt: &HostRuntime, line: &str) -> Result<(), Fail> {
    let alloc = rt.alloc();
    let (name, line) = parted(line);
    let (pieces, line) = parted(line);
    let (room, line) = parted(line);
    let (stream, acts) = parted(line);
    print!(rt; "{name}:")?;
    let pieces = bytes_of(alloc, pieces)?;
    let room = bytes_of(alloc, room)?;
    let stream = bytes_of(alloc, stream)?;
    let sent = Pieces {
        lengths: pieces.as_slice(),
        count: stream.len(),
    };
    let taken = Pieces {
        lengths: room.as_slice(),
        count: room.len(),
    };
    let mut link = browser_of(alloc, stream, sent, taken)?;
    play_acts(rt, &mut link, acts)
}
