//! Links over a socket in memory, where each byte that goes either way can be seen.

use crate::memory_socket::{MemorySocket, Transfer};
use crate::sockets::{VERSION, make_seat};
use connections::{HostLink, JoiningLink, ViewerTcpLink};
use link::{Gave, Link, Took};
use run_traits::{Alarm, Parting};
use std::alloc::Global;
use std::io;
use std::io::ErrorKind;
use std::sync::Wait;
use std::test::*;
use std::time::Clock;

/// A viewer's side of a handshake of version 3.8 (RFC 6143, 7.1).
const HELLO: &[u8] = b"RFB 003.008\n\x01\x01";

/// A slice of 16,384 bytes isn't kept, but sent from where it lies.
const LARGE: usize = 20_000;

/// What is done with a link, and what has to come of it.
#[derive(Clone, Copy)]
enum Act {
    /// These bytes are given once, and the link answers so.
    Gives(&'static [u8], Gave),
    /// The large slice is given once, from here on, and the link answers so.
    GivesLarge(usize, Gave),
    /// All of these bytes are given.
    GivesAll(&'static [u8]),
    /// All of the large slice is given.
    GivesAllLarge,
    /// What is kept is sent on.
    Flushes,
    /// A take brings exactly these bytes.
    Brings(&'static [u8]),
    /// A take answers so.
    Takes(Took),
    /// Since this was last seen the socket has sent exactly these bytes.
    HasSent(&'static [u8]),
    /// Since this was last seen the socket has sent exactly these bytes, and then the large slice between these two.
    HasSentLarge(&'static [u8], usize, usize),
}

/// What a socket does, what is done with a viewer's link over it, and how the link stands then.
#[derive(Clone, Copy)]
struct Case {
    name: &'static str,
    comes: &'static [u8],
    sends: &'static [Transfer],
    receives: &'static [Transfer],
    acts: &'static [Act],
    failures: u64,
    stands: Parting,
}

/// Small slices that are kept, and then a large one, go out in order and once, through short sends and sends that find
/// no room.
const GIVEN_IN_ORDER: Case = Case {
    name: "viewer is given each byte in order once",
    comes: b"",
    sends: &[
        Transfer::AtMost(3),
        Transfer::Fails(ErrorKind::WouldBlock),
        Transfer::AtMost(1),
        Transfer::Fails(ErrorKind::Interrupted),
        Transfer::AtMost(7_000),
        Transfer::Fails(ErrorKind::WouldBlock),
        Transfer::AtMost(100),
    ],
    receives: &[],
    acts: &[
        Act::Gives(b"RFB 003.", Gave::Bytes(8)),
        Act::Gives(b"008\n", Gave::Bytes(4)),
        Act::HasSent(b""),
        Act::Flushes,
        Act::HasSent(b"RFB"),
        Act::Flushes,
        Act::HasSent(b" "),
        Act::Flushes,
        Act::HasSent(b"003.008\n"),
        Act::GivesAllLarge,
        Act::HasSentLarge(b"", 0, LARGE),
    ],
    failures: 0,
    stands: Parting::Open,
};

/// What is kept and a large slice go out in one send, in order and once: some of what is kept, the rest of it, ten
/// bytes of the slice, and then all that is left.
const LARGE_BEHIND_KEPT: Case = Case {
    name: "large slice goes out with what is kept",
    comes: b"",
    sends: &[
        Transfer::AtMost(5),
        Transfer::AtMost(7),
        Transfer::AtMost(10),
    ],
    receives: &[],
    acts: &[
        Act::Gives(VERSION, Gave::Bytes(12)),
        Act::GivesLarge(0, Gave::Nothing),
        Act::GivesLarge(0, Gave::Nothing),
        Act::HasSent(VERSION),
        Act::GivesLarge(0, Gave::Bytes(10)),
        Act::HasSentLarge(b"", 0, 10),
        Act::Gives(VERSION, Gave::Bytes(12)),
        Act::GivesLarge(10, Gave::Bytes(LARGE - 10)),
        Act::HasSentLarge(VERSION, 10, LARGE),
    ],
    failures: 0,
    stands: Parting::Open,
};

/// What a viewer's socket brings is taken in order and once, in whatever pieces, and its end is seen.
const TAKEN_IN_ORDER: Case = Case {
    name: "viewer is taken each byte in order once",
    comes: HELLO,
    sends: &[],
    receives: &[
        Transfer::AtMost(5),
        Transfer::Fails(ErrorKind::WouldBlock),
        Transfer::AtMost(8),
        Transfer::AtMost(1),
    ],
    acts: &[
        Act::Brings(b"RFB 0"),
        Act::Takes(Took::Nothing),
        Act::Brings(b"03.008\n\x01"),
        Act::Brings(b"\x01"),
        Act::Takes(Took::End),
    ],
    failures: 0,
    stands: Parting::Closed,
};

static CASES: [Case; 3] = [GIVEN_IN_ORDER, LARGE_BEHIND_KEPT, TAKEN_IN_ORDER];

/// What the system says of a connection that it gave up for want of confirmations, of one that its peer has closed, and
/// of another error, and how the connection stands then.
const PARTINGS: [(&[Transfer], Parting); 4] = [
    (&[Transfer::Fails(ErrorKind::TimedOut)], Parting::Stalled),
    (
        &[Transfer::Fails(ErrorKind::ConnectionReset)],
        Parting::Closed,
    ),
    (&[Transfer::Fails(ErrorKind::BrokenPipe)], Parting::Closed),
    (
        &[Transfer::Fails(ErrorKind::HostUnreachable)],
        Parting::Broken,
    ),
];

/// A read that fails, and a write that fails.
const READS: &[Act] = &[Act::Takes(Took::Failed)];

const WRITES: &[Act] = &[Act::Gives(VERSION, Gave::Bytes(12)), Act::Flushes];

/// What a host's socket does: three bytes go in two sends, and a fourth fails.
const HOST_SENDS: &[Transfer] = &[
    Transfer::AtMost(2),
    Transfer::Fails(ErrorKind::WouldBlock),
    Transfer::AtMost(9),
    Transfer::Fails(ErrorKind::BrokenPipe),
];

const HOST_RECEIVES: &[Transfer] = &[Transfer::AtMost(4), Transfer::Fails(ErrorKind::WouldBlock)];

/// What is given to a host, what is taken from it, and what comes of both once its link is closed.
const HOST_TOLD: &[Act] = &[
    Act::GivesAll(b"\x01\x02\x03"),
    Act::Gives(b"\x04", Gave::Failed),
];

const HOST_READ: &[Act] = &[
    Act::Brings(b"RFB "),
    Act::Takes(Took::Nothing),
    Act::Brings(b"003.008\n"),
];

const HOST_CLOSED: &[Act] = &[Act::Takes(Took::Failed), Act::Gives(b"\x05", Gave::Failed)];

fn large() -> [u8; LARGE] {
    let mut bytes = [0u8; LARGE];
    for index in 0..LARGE {
        bytes[index] = (index % 251) as u8;
    }
    bytes
}

/// Gives these bytes, and says whether the link answers so. Where there are none it says false.
fn gives<L: Link>(link: &mut L, bytes: &[u8], gave: Gave) -> bool {
    if bytes.is_empty() {
        return false;
    }
    link.give(bytes) == gave
}

/// Gives all of these bytes, and sends on what is kept. It answers false where the link fails, or gives nothing for
/// long.
fn gives_all<L: Link>(link: &mut L, bytes: &[u8]) -> bool {
    let mut left = bytes;
    for _ in 0..100_000 {
        link.flush();
        if left.is_empty() {
            return true;
        }
        match link.give(left) {
            Gave::Bytes(count) => left = &left[count..],
            Gave::Nothing => {}
            _ => return false,
        }
    }
    false
}

/// Whether the next take brings exactly these bytes.
fn brings<L: Link>(link: &mut L, bytes: &[u8]) -> bool {
    let mut into = [0u8; 64];
    match link.take(&mut into) {
        Took::Bytes(count) => &into[..count] == bytes,
        _ => false,
    }
}

/// Whether the next take answers so.
fn answers<L: Link>(link: &mut L, took: Took) -> bool {
    let mut into = [0u8; 64];
    link.take(&mut into) == took
}

/// The bytes between these two places, or none where there are no such places.
fn part(bytes: &[u8], from: usize, to: usize) -> &[u8] {
    bytes.get(from..to).unwrap_or(b"")
}

/// Whether what comes of this act is as told. What was sent is seen elsewhere.
fn does<L: Link>(link: &mut L, act: Act, large: &[u8]) -> bool {
    match act {
        Act::Gives(bytes, gave) => gives(link, bytes, gave),
        Act::GivesLarge(from, gave) => gives(link, part(large, from, large.len()), gave),
        Act::GivesAll(bytes) => gives_all(link, bytes),
        Act::GivesAllLarge => gives_all(link, large),
        Act::Flushes => {
            link.flush();
            true
        }
        Act::Brings(bytes) => brings(link, bytes),
        Act::Takes(took) => answers(link, took),
        Act::HasSent(_) | Act::HasSentLarge(..) => false,
    }
}

/// Whether what was sent from place `seen` on is exactly `first` and then `second`.
fn is_next(sent: &[u8], seen: usize, first: &[u8], second: &[u8]) -> bool {
    let (_, new) = sent.split_at(seen.min(sent.len()));
    let (front, back) = new.split_at(first.len().min(new.len()));
    front == first && back == second
}

/// Whether the socket has sent what this act says, since this many bytes were seen.
fn has_sent(socket: &MemorySocket, seen: usize, act: Act, large: &[u8]) -> bool {
    let sent = socket.sent.as_slice();
    match act {
        Act::HasSent(bytes) => is_next(sent, seen, bytes, b""),
        Act::HasSentLarge(bytes, from, to) => is_next(sent, seen, bytes, part(large, from, to)),
        _ => false,
    }
}

/// Whether each act comes out as told, and so do all of them together.
fn does_all<R: Wait + Clock + Drop>(
    link: &mut ViewerTcpLink<R, MemorySocket>,
    case: &Case,
) -> bool {
    let large = large();
    let mut seen: usize = 0;
    let mut is_right = true;
    for act in case.acts {
        if matches!(act, Act::HasSent(_) | Act::HasSentLarge(..)) {
            is_right = is_right && has_sent(link.socket(), seen, *act, &large);
            seen = link.socket().sent.len();
        } else {
            is_right = is_right && does(link, *act, &large);
        }
    }
    is_right && link.failures() == case.failures && link.parting() == case.stands
}

/// Whether a case goes as told, over a link of its own.
fn goes_as_told<R: Wait + Clock + Drop>(rt: R, net: &HostRuntime, case: &Case) -> io::Result<bool> {
    let seat = make_seat(net)?;
    let below = MemorySocket::new(net.alloc(), case.comes, case.sends, case.receives)?;
    let mut link = ViewerTcpLink::over(rt, net.alloc(), below, &seat)?;
    // So that a take that finds nothing doesn't wait.
    seat.ring();
    Ok(does_all(&mut link, case))
}

/// Whether a link whose socket reports this at once, as the link reads or as it writes, stands so.
fn says_how_it_stands<R: Wait + Clock + Copy + Drop>(
    rt: R,
    net: &HostRuntime,
    turns: &'static [Transfer],
    stands: Parting,
) -> io::Result<bool> {
    let read = Case {
        name: "a link says how it stands",
        comes: HELLO,
        sends: &[],
        receives: turns,
        acts: READS,
        failures: 1,
        stands,
    };
    let written = Case {
        sends: turns,
        receives: &[],
        acts: WRITES,
        failures: 0,
        ..read
    };
    Ok(goes_as_told(rt, net, &read)? && goes_as_told(rt, net, &written)?)
}

/// Each case goes as told. One that doesn't is named.
#[test]
fn each_byte_goes_in_order_once(rt: HostRuntime) -> Result<(), Fail> {
    for case in &CASES {
        if !goes_as_told(rt, &rt, case)? {
            return Err(Fail::new(case.name));
        }
    }
    Ok(())
}

/// A link says how its connection stands, whether the system reported that as the link read or as it wrote.
#[test]
fn viewers_link_says_how_it_stands(rt: HostRuntime) -> Result<(), Fail> {
    for (turns, stands) in PARTINGS {
        assert!(rt; says_how_it_stands(rt, &rt, turns, stands)?);
    }
    Ok(())
}

/// Whether each of these acts comes out as told.
fn all_come_out<L: Link>(link: &mut L, acts: &[Act]) -> bool {
    let mut is_right = true;
    for act in acts {
        is_right = is_right && does(link, *act, b"");
    }
    is_right
}

/// Whether a host's link gives three bytes in two sends and fails once, then takes what comes in its pieces, and fails
/// once it is closed.
fn is_told_and_read<R: Clock + Drop>(link: &mut JoiningLink<R, MemorySocket>) -> bool {
    let is_told = all_come_out(link, HOST_TOLD);
    let has_sent = link.below().socket().sent.as_slice() == b"\x01\x02\x03".as_slice();
    let is_lifted = link.lift().is_ok();
    let is_read = all_come_out(link, HOST_READ) && link.failures() == 1;
    link.close();
    let is_closed = all_come_out(link, HOST_CLOSED) && link.failures() == 3;
    is_told && has_sent && is_lifted && is_read && is_closed
}

/// Whether `is_told_and_read` is true of a new link.
fn host_is_told<R: Clock + Drop>(rt: R, alloc: Global) -> io::Result<bool> {
    let below = MemorySocket::new(alloc, VERSION, HOST_SENDS, HOST_RECEIVES)?;
    let mut link = JoiningLink::new(rt, HostLink::over(below))?;
    Ok(is_told_and_read(&mut link))
}

/// A host is given and taken each byte in order and once; what fails is counted, and after the close all fails.
#[test]
fn host_is_told_each_byte_until_it_is_closed(rt: HostRuntime) -> Result<(), Fail> {
    assert!(rt; host_is_told(rt, rt.alloc())?);
    Ok(())
}
