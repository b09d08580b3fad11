//! Joining a host whose screen is 2 by 1 and whose name is T, over links that answer in different ways.

use fault::Fault;
use link::{Gave, Link, MemoryLink, Took, join_host};
use rfb_wire::Joined;
use std::alloc::Global;
use std::sync::Wait;

/// What the host sends: its version, the type None, OK, and ServerInit. Two bytes of a first update lie after it.
const SENDS: [u8; 45] =
    *b"RFB 003.008\n\x01\x01\0\0\0\0\0\x02\0\x01\x20\x18\0\x01\0\xFF\0\xFF\0\xFF\x10\x08\0\0\0\0\0\0\0\x01T\0\0";

/// How many of these bytes belong to the handshake.
const HANDSHAKE: usize = 43;

/// What the host is given: the version, the choice of None, shared-flag 1, and the three messages.
const GIVES: [u8; 68] = [
    0x52, 0x46, 0x42, 0x20, 0x30, 0x30, 0x33, 0x2E, 0x30, 0x30, 0x38, 0x0A, 0x01, 0x01, 0x00, 0x00,
    0x00, 0x00, 0x20, 0x18, 0x00, 0x01, 0x00, 0xFF, 0x00, 0xFF, 0x00, 0xFF, 0x10, 0x08, 0x00, 0x00,
    0x00, 0x00, 0x02, 0x00, 0x00, 0x05, 0x00, 0x00, 0x00, 0x01, 0x00, 0x00, 0x00, 0x05, 0x00, 0x00,
    0x00, 0x02, 0x00, 0x00, 0x00, 0x00, 0xFF, 0xFF, 0xFF, 0x21, 0x03, 0x00, 0x00, 0x00, 0x00, 0x00,
    0x00, 0x02, 0x00, 0x01,
];

/// A link that answers this many calls to take with `take`, and then one with `last_take`. Calls to give are answered
/// likewise.
#[derive(Clone, Copy)]
struct Course {
    take: Took,
    takes: usize,
    last_take: Took,
    give: Gave,
    gives: usize,
    last_give: Gave,
}

fn link_to(alloc: Global, course: &Course) -> Result<MemoryLink, Fault> {
    let sends = SENDS.to_vec(alloc)?;
    let mut answers_to_take = Vec::from_elem(alloc, course.take, course.takes)?;
    answers_to_take.push(course.last_take)?;
    let mut answers_to_give = Vec::from_elem(alloc, course.give, course.gives)?;
    answers_to_give.push(course.last_give)?;
    MemoryLink::new(alloc, sends, answers_to_take, answers_to_give)
}

/// How joining ends: the number of the fault, or 0 where the host is joined; how many bytes the link has taken by then,
/// if that is looked at, and given; and how often it failed.
#[derive(Clone, Copy)]
struct Ending {
    number: u64,
    taken: Option<usize>,
    given: usize,
    failures: u64,
}

/// The number of the fault, 0 where it is this host, and 99 where it is another.
fn number_of(answer: &Result<Joined, Fault>) -> u64 {
    match answer {
        Ok(joined) if joined.w == 2 && joined.h == 1 && joined.name.as_slice() == b"T".as_slice() =>
            0,
        Ok(_) => 99,
        Err(fault) => fault.number(),
    }
}

/// Whether as many of the host's bytes were taken, if that is looked at, and as many bytes were given, as the ending
/// says.
fn has_moved(link: &MemoryLink, ending: &Ending) -> bool {
    let is_taken = match ending.taken {
        Some(count) => SENDS.get(..count) == Some(link.taken()),
        None => true,
    };
    is_taken && GIVES.get(..ending.given) == Some(link.given())
}

/// Whether joining over the link ends so.
fn ends<R: Wait>(rt: &R, link: &mut MemoryLink, ending: &Ending) -> bool {
    number_of(&join_host(rt, None, link)) == ending.number
        && has_moved(link, ending)
        && link.failures() == ending.failures
}

/// Whether joining over a link of this course ends so.
fn joins<R: Wait + AllocGlobal>(rt: &R, course: &Course, ending: &Ending) -> bool {
    match link_to(rt.alloc(), course) {
        Ok(mut link) => ends(rt, &mut link, ending),
        Err(_) => false,
    }
}

/// Each byte that the host sends is taken by itself, and each call to give takes up to 20.
const BYTEWISE: Course = Course {
    take: Took::Bytes(1),
    takes: HANDSHAKE,
    last_take: Took::Failed,
    give: Gave::Bytes(20),
    gives: 6,
    last_give: Gave::Failed,
};

/// Nothing comes at first, and then all comes at once; or each byte goes by itself, both ways.
#[test]
fn joins_a_host(rt: HostRuntime) {
    let ending = Ending {
        number: 0,
        taken: Some(HANDSHAKE),
        given: 68,
        failures: 0,
    };
    let at_once = Course {
        take: Took::Nothing,
        takes: 3,
        last_take: Took::Bytes(45),
        ..BYTEWISE
    };
    assert!(rt; joins(&rt, &at_once, &ending));
    let bytewise = Course {
        give: Gave::Bytes(1),
        gives: 68,
        ..BYTEWISE
    };
    assert!(rt; joins(&rt, &bytewise, &ending));
}

/// What was given before byte `count` of the handshake came.
fn answered(count: usize) -> usize {
    if count < 12 {
        0
    } else if count < 14 {
        12
    } else if count < 18 {
        13
    } else {
        14
    }
}

#[test]
fn fails_at_each_byte_taken(rt: HostRuntime) {
    for (last_take, number, failures) in [(Took::Failed, 21, 1), (Took::End, 22, 0)] {
        for count in 0..HANDSHAKE {
            let course = Course {
                takes: count,
                last_take,
                ..BYTEWISE
            };
            let ending = Ending {
                number,
                taken: Some(count),
                given: answered(count),
                failures,
            };
            assert!(rt; joins(&rt, &course, &ending), "{number} at {count}");
        }
    }
}

/// Whether joining ends as this link's last answer to a call to give says, after `gives` such calls, and with `given`
/// bytes given.
fn fails_at<R: Wait + AllocGlobal>(rt: &R, course: &Course, gives: usize, given: usize) -> bool {
    let failed = Ending {
        number: 21,
        taken: None,
        given,
        failures: 1,
    };
    let ended = Ending {
        number: 22,
        failures: 0,
        ..failed
    };
    let failing = Course {
        gives,
        last_give: Gave::Failed,
        ..*course
    };
    let ending = Course {
        last_give: Gave::End,
        ..failing
    };
    joins(rt, &failing, &failed) && joins(rt, &ending, &ended)
}

/// Where the link fails or ends at each byte that is given, and where it takes up to 20 bytes at a time.
#[test]
fn fails_at_each_byte_and_message_given(rt: HostRuntime) {
    let bytewise = Course {
        give: Gave::Bytes(1),
        ..BYTEWISE
    };
    for count in 0..68 {
        assert!(rt; fails_at(&rt, &bytewise, count, count), "at byte {count}");
    }
    let at_once = Course {
        take: Took::Bytes(45),
        takes: 1,
        ..BYTEWISE
    };
    for (count, given) in [0, 12, 13, 14, 34, 54].iter().enumerate() {
        assert!(rt; fails_at(&rt, &at_once, count, *given), "at call {count}");
    }
}

/// Whether a call to take answers so, with these in front of the slice.
fn takes(link: &mut MemoryLink, into: &mut [u8; 2], answer: Took, bytes: &[u8; 2]) -> bool {
    link.take(into) == answer && *into == *bytes
}

fn is_used_up(link: &mut MemoryLink) -> bool {
    let mut into = [0; 2];
    takes(link, &mut into, Took::Bytes(2), b"RF")
        && takes(link, &mut into, Took::Bytes(1), b"BF")
        && takes(link, &mut into, Took::Nothing, b"BF")
        && takes(link, &mut into, Took::End, b"BF")
        && link.give(&[1]) == Gave::Bytes(1)
        && link.give(&[2]) == Gave::Failed
        && link.give(&[3]) == Gave::End
        && link.given() == [1].as_slice()
        && link.failures() == 1
}

#[test]
fn a_list_that_is_used_up_ends(rt: HostRuntime) {
    let course = Course {
        take: Took::Bytes(3),
        takes: 1,
        last_take: Took::Nothing,
        give: Gave::Bytes(2),
        gives: 1,
        last_give: Gave::Failed,
    };
    let is_used_up = match link_to(rt.alloc(), &course) {
        Ok(mut link) => is_used_up(&mut link),
        Err(_) => false,
    };
    assert!(rt; is_used_up);
}
