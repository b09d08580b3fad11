//! Bytes between a viewer and its link.

use link::{Gave, Link, Took};
use std::io::{ErrorKind, Read, Write};
use std::net::{Shutdown, TcpStream};
use std::thread::Threads;
use std::time::{Clock, Duration};
use std::{io, thread};

/// A viewer's side of a handshake of version 3.8 (RFC 6143, 7.1).
const HELLO: &[u8] = b"RFB 003.008\n\x01\x01";

/// What a link takes first. A wait may end for no reason, but not for ever.
fn take_some<L: Link>(link: &mut L, into: &mut [u8; 64]) -> Took {
    for _ in 0..100 {
        match link.take(into) {
            Took::Nothing => {}
            took => return took,
        }
    }
    Took::Nothing
}

/// Whether bytes that are given come out in order, and bytes that come are taken.
pub(crate) fn passes_both_ways<L: Link>(link: &mut L, far: &mut TcpStream) -> io::Result<bool> {
    let gave = [link.give(b"RFB 003."), link.give(b"008\n")];
    far.write_all(HELLO)?;
    let mut into = [0u8; 64];
    let took = take_some(link, &mut into);
    let mut version = [0u8; 12];
    far.read_exact(&mut version)?;
    let is_given = gave == [Gave::Bytes(8), Gave::Bytes(4)] && version == *b"RFB 003.008\n";
    let is_taken = took == Took::Bytes(14) && &into[..14] == HELLO;
    Ok(is_given && is_taken && link.failures() == 0)
}

/// Whether small slices stay here until they are sent on, all at once.
pub(crate) fn keeps_small_slices<L: Link>(link: &mut L, far: &mut TcpStream) -> io::Result<bool> {
    let first = link.give(b"ab");
    far.set_nonblocking(true)?;
    let mut into = [0u8; 4];
    let stays = matches!(far.read(&mut into), Err(error) if error.kind() == ErrorKind::WouldBlock);
    far.set_nonblocking(false)?;
    let second = link.give(b"cd");
    link.flush();
    far.read_exact(&mut into)?;
    Ok([first, second] == [Gave::Bytes(2); 2] && stays && into == *b"abcd")
}

/// Whether what a peer sends before it is closed is taken, and then its end, each time.
pub(crate) fn sees_the_end<L: Link>(link: &mut L, mut far: TcpStream) -> io::Result<bool> {
    far.write_all(b"R")?;
    drop(far);
    let mut into = [0u8; 64];
    let first = take_some(link, &mut into);
    let ends = [take_some(link, &mut into), take_some(link, &mut into)];
    Ok(first == Took::Bytes(1) && ends == [Took::End; 2])
}

/// The length after which the pattern repeats, so that a few bytes lost or doubled show.
const ROUND: usize = 251;

fn pattern() -> [u8; 20_000] {
    let mut bytes = [0u8; 20_000];
    for index in 0..20_000 {
        bytes[index] = (index % ROUND) as u8;
    }
    bytes
}

/// Gives slices of the pattern, of this length, up to this many bytes. Where the link takes none of a slice, this ends,
/// or waits until the peer ends, if it is patient. It answers how many bytes the link took in all.
fn gives<L: Link>(link: &mut L, len: usize, total: usize, is_patient: bool) -> usize {
    let pattern = pattern();
    let mut given: usize = 0;
    let mut into = [0u8; 4];
    for _ in 0..1_000_000 {
        let (_, bytes) = pattern.split_at(given % ROUND);
        let left = total.saturating_sub(given);
        let Some(bytes) = bytes.get(..len.min(left)) else {
            break;
        };
        if !bytes.is_empty() {
            if let Gave::Bytes(count) = link.give(bytes) {
                given = given.saturating_add(count);
                continue;
            }
        }
        if !is_patient || matches!(link.take(&mut into), Took::End | Took::Failed) {
            break;
        }
    }
    given
}

/// Reads this many bytes while the link sends on what it kept, and says whether they are the pattern.
fn reads_pattern<L: Link>(link: &mut L, far: &mut TcpStream, wanted: usize) -> io::Result<bool> {
    let pattern = pattern();
    let mut into = [0u8; 16_384];
    let mut read: usize = 0;
    for _ in 0..1_000_000 {
        if read >= wanted {
            return Ok(read == wanted);
        }
        link.flush();
        let count = far.read(&mut into)?;
        let (_, expected) = pattern.split_at(read % ROUND);
        if count == 0 || into.get(..count) != expected.get(..count) {
            return Ok(false);
        }
        read = read.saturating_add(count);
    }
    Ok(false)
}

/// Whether slices of this length find no room at last, and are read in order; then there is room again.
pub(crate) fn waits_for_a_viewer<L: Link>(
    link: &mut L,
    far: &mut TcpStream,
    len: usize,
) -> io::Result<bool> {
    let given = gives(link, len, usize::MAX, false);
    let is_full = given > 65_536 && link.give(b"x") == Gave::Nothing && link.failures() == 0;
    let is_read = reads_pattern(link, far, given)?;
    let mut into = [0u8; 4];
    let took = link.take(&mut into);
    let gave = link.give(b"x");
    Ok(is_full && is_read && took == Took::Nothing && gave == Gave::Bytes(1))
}

/// Slices of this length are written from where they lie.
const LARGE: usize = 16_384;

/// An answer of this many bytes is more than the system keeps for a viewer that reads slowly.
const LONG_ANSWER: usize = 6_000_000;

/// Reads this many bytes with pauses, and says whether they are the pattern. Then it ends.
fn reads_slowly<R: Clock>(rt: &R, far: &mut TcpStream, wanted: usize) -> io::Result<bool> {
    let pattern = pattern();
    let mut into = [0u8; LARGE];
    let mut read: usize = 0;
    for turn in 0..1_000_000u64 {
        if read >= wanted {
            break;
        }
        if turn % 16 == 0 {
            thread::sleep(rt, Duration::from_millis(5));
        }
        let count = far.read(&mut into)?;
        let (_, expected) = pattern.split_at(read % ROUND);
        if count == 0 || into.get(..count) != expected.get(..count) {
            return Ok(false);
        }
        read = read.saturating_add(count);
    }
    far.shutdown(Shutdown::Both)?;
    Ok(read == wanted)
}

/// Whether a viewer that reads slowly has the whole answer.
pub(crate) fn gives_a_long_answer<R: Threads + Clock + Send + Sync, L: Link + Send>(
    rt: &R,
    link: &mut L,
    far: &mut TcpStream,
) -> io::Result<bool> {
    far.write_all(HELLO)?;
    let (given, is_read) = thread::join(
        rt,
        || gives(link, LARGE, LONG_ANSWER, true),
        || reads_slowly(rt, far, LONG_ANSWER),
    );
    Ok(given == LONG_ANSWER && is_read? && link.failures() == 0)
}
