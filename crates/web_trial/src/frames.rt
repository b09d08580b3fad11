//! Frames before a link that gives each byte of their data back, and before their reader alone.

use crate::browsers::{Browser, Pieces, browser_of, take_all};
use crate::words::{bytes_of, parted, print_bytes, print_first};
use link::Link;
use std::test::Fail;
use web_frames::FrameReader;
use web_link::refusal_frames;

/// A browser is sent at most this many bytes for each byte that it sends, and this many besides.
const TIMES: usize = 4;

const BESIDE: usize = 400;

/// Of what a reader reads at most this many bytes are printed.
const MOST_SHOWN: usize = 8;

/// A version and a reason have at most this many bytes each.
const MOST_SAID: usize = 58;

/// Gives back each byte that comes. It prints the bytes, what the browser was sent, how the link ended, and how often
/// it failed.
fn echo(rt: &HostRuntime, link: &mut Browser, flushes: usize) -> Result<(), Fail> {
    let mut taken = Vec::new(rt.alloc());
    let end = take_all(link, &mut taken, true)?;
    for _ in 0..flushes {
        link.flush();
    }
    print_bytes(rt, taken.as_slice())?;
    print!(rt; " ")?;
    print_bytes(rt, link.below().below().given())?;
    println!(rt; " {end} {}", link.failures())?;
    Ok(())
}

/// Plays a line with the lengths of pieces, in which a stream comes and what is sent goes, and the stream.
pub(crate) fn talk(rt: &HostRuntime, line: &str) -> Result<(), Fail> {
    let alloc = rt.alloc();
    let (lengths, stream) = parted(line);
    let lengths = hex::decode(alloc, lengths)?;
    let stream = hex::decode(alloc, stream)?;
    let most = stream.len().saturating_mul(TIMES).saturating_add(BESIDE);
    let pieces = Pieces {
        lengths: lengths.as_slice(),
        count: most.saturating_mul(lengths.len()),
    };
    let mut link = browser_of(alloc, stream, pieces, pieces)?;
    echo(rt, &mut link, lengths.len().saturating_mul(BESIDE))
}

/// Prints where a reader stands, and what it has of pings, asked twice.
fn print_reader(rt: &HostRuntime, reader: &mut FrameReader) -> Result<(), Fail> {
    print!(rt; " {:?}", reader.position())?;
    for _ in 0..2 {
        print!(rt; " ")?;
        match reader.take_ping() {
            Some(ping) => print_bytes(rt, ping.as_slice())?,
            None => print!(rt; "none")?,
        }
    }
    println!(rt)?;
    Ok(())
}

/// Plays a line with a name, whose frames these are, and the frames.
pub(crate) fn read_frames(rt: &HostRuntime, line: &str) -> Result<(), Fail> {
    let (name, line) = parted(line);
    let (whose, frames) = parted(line);
    print!(rt; "{name}:")?;
    let mut frames = bytes_of(rt.alloc(), frames)?;
    let mut reader = FrameReader::new(whose == "client");
    let count = reader.read(frames.as_mut_slice());
    let (data, _) = frames.as_slice().split_at(count);
    print_first(rt, data, MOST_SHOWN)?;
    print_reader(rt, &mut reader)
}

/// Prints the frames of a refusal.
fn print_frames(rt: &HostRuntime, version: &[u8], reason: &[u8]) -> Result<(), Fail> {
    if version.is_empty() || version.len() > MOST_SAID {
        return Err(Fail::new("no such version"));
    }
    if reason.is_empty() || reason.len() > MOST_SAID {
        return Err(Fail::new("no such reason"));
    }
    print_bytes(rt, refusal_frames(version, reason).as_slice())?;
    println!(rt)?;
    Ok(())
}

/// Plays a line with a name, a version and a reason.
pub(crate) fn refuse(rt: &HostRuntime, line: &str) -> Result<(), Fail> {
    let (name, line) = parted(line);
    let (version, reason) = parted(line);
    print!(rt; "{name}: ")?;
    let version = bytes_of(rt.alloc(), version)?;
    let reason = bytes_of(rt.alloc(), reason)?;
    print_frames(rt, version.as_slice(), reason.as_slice())
}
