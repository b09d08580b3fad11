//! Joining hosts that ask for a password, over links that take and give at once, and end with the host's last byte.

ghost use Rattle.std.specs.Prelude.{◌≤◌};

use fault::Fault;
use link::{Gave, MemoryLink, Took, join_host};
use std::alloc::Global;
use std::sync::Wait;
use vnc_auth::Password;

/// What a host sends that asks for a password: its version, the type VNC Authentication, a challenge, OK, and
/// ServerInit of a screen of 2 by 1 named T.
const SENDS: [u8; 59] =
    *b"RFB 003.008\n\x01\x02\x00\x01\x02\x03\x04\x05\x06\x07\x08\x09\x0A\x0B\x0C\x0D\x0E\x0F\0\0\0\0\0\x02\0\x01\x20\x18\0\x01\0\xFF\0\xFF\0\xFF\x10\x08\0\0\0\0\0\0\0\x01T";

/// What it is given by one whose password is hunter2x: the version, the choice of the type, the answer that vncviewer
/// 1.12 and xtightvncviewer 1.3.10 gave to that challenge, shared-flag 1, and the three messages.
const GIVES: [u8; 84] = [
    0x52, 0x46, 0x42, 0x20, 0x30, 0x30, 0x33, 0x2E, 0x30, 0x30, 0x38, 0x0A, 0x02, 0x23, 0xC4, 0x81,
    0x08, 0x42, 0xC0, 0x39, 0x94, 0xAB, 0x49, 0x6F, 0xC4, 0x67, 0x5C, 0xF3, 0xDC, 0x01, 0x00, 0x00,
    0x00, 0x00, 0x20, 0x18, 0x00, 0x01, 0x00, 0xFF, 0x00, 0xFF, 0x00, 0xFF, 0x10, 0x08, 0x00, 0x00,
    0x00, 0x00, 0x02, 0x00, 0x00, 0x05, 0x00, 0x00, 0x00, 0x01, 0x00, 0x00, 0x00, 0x05, 0x00, 0x00,
    0x00, 0x02, 0x00, 0x00, 0x00, 0x00, 0xFF, 0xFF, 0xFF, 0x21, 0x03, 0x00, 0x00, 0x00, 0x00, 0x00,
    0x00, 0x02, 0x00, 0x01,
];

/// A link to a host that sends these bytes, one by one, and then ends.
fn link_to(alloc: Global, sends: &[u8]) -> Result<MemoryLink, Fault> {
    let takes = Vec::from_elem(alloc, Took::Bytes(1), sends.len())?;
    let gives = Vec::from_elem(alloc, Gave::Bytes(99), 8)?;
    MemoryLink::new(alloc, sends.to_vec(alloc)?, takes, gives)
}

/// Whether joining a host that sends these bytes ends with the fault of this number, or 0 where it is joined, and with
/// this given.
fn joins<R: Wait + AllocGlobal>(
    rt: &R,
    password: Option<Password>,
    sends: &[u8],
    number: u64,
    given: &[u8],
) -> bool {
    let Ok(mut link) = link_to(rt.alloc(), sends) else {
        return false;
    };
    let found = match join_host(rt, password, &mut link) {
        Ok(_) => 0,
        Err(fault) => fault.number(),
    };
    found == number && link.given() == given
}

/// What was given before byte `count` of the handshake came.
fn told_after(count: usize) -> usize
    ensures { result ≤ 30 }
{
    match count {
        0..=11 => 0,
        12..=13 => 12,
        14..=29 => 13,
        30..=33 => 29,
        _ => 30,
    }
}

/// The password of the host.
fn known() -> Option<Password> {
    Some(Password::new(b"hunter2x"))
}

#[test]
fn a_host_lets_in_who_knows_its_password(rt: HostRuntime) {
    assert!(rt; joins(&rt, known(), &SENDS, 0, &GIVES));
    for count in 0..SENDS.len() {
        let given = &GIVES[..told_after(count)];
        assert!(rt;
            joins(&rt, known(), &SENDS[..count], 22, given),
            "at byte {count}"
        );
    }
}

/// A host's version, its security types and what follows; whether a password is known; the number of the fault, which
/// is 22 where more is waited for as the link ends; and what the host was given.
const COURSES: [(&[u8], bool, u64, &[u8]); 16] = [
    (
        b"RFB 003.008\n\x02\x01\x02",
        false,
        22,
        b"RFB 003.008\n\x01",
    ),
    (b"RFB 003.008\n\x02\x01\x02", true, 22, b"RFB 003.008\n\x01"),
    (b"RFB 003.008\n\x02\x02\x01", true, 22, b"RFB 003.008\n\x01"),
    (
        b"RFB 003.008\n\x02\x02\x01\0\0\0\0",
        true,
        22,
        b"RFB 003.008\n\x01\x01",
    ),
    (
        b"RFB 003.008\n\x02\x02\x01\0\0\0\x01",
        true,
        4,
        b"RFB 003.008\n\x01",
    ),
    (b"RFB 003.008\n\x02\x13\x02", false, 3, b"RFB 003.008\n"),
    (b"RFB 003.008\n\x02\x13\x02", true, 22, b"RFB 003.008\n\x02"),
    (b"RFB 003.008\n\x01\x02", false, 3, b"RFB 003.008\n"),
    (b"RFB 003.008\n\x01\x02", true, 22, b"RFB 003.008\n\x02"),
    (b"RFB 003.008\n\x01\x05", false, 3, b"RFB 003.008\n"),
    (b"RFB 003.008\n\x01\x05", true, 3, b"RFB 003.008\n"),
    (b"RFB 003.008\n\0\0\0\0\x02no", true, 2, b"RFB 003.008\n"),
    (b"RFB 003.007\n", true, 1, b""),
    (&ASKED, true, 22, &ANSWERED),
    (&REFUSED, true, 4, &ANSWERED),
    (&REFUSED_AGAIN, true, 4, &ANSWERED),
];

/// A host up to its challenge, the same with a result of 1 and of 2, and what each was given.
const ASKED: [u8; 30] =
    *b"RFB 003.008\n\x01\x02\x00\x01\x02\x03\x04\x05\x06\x07\x08\x09\x0A\x0B\x0C\x0D\x0E\x0F";

const REFUSED: [u8; 34] =
    *b"RFB 003.008\n\x01\x02\x00\x01\x02\x03\x04\x05\x06\x07\x08\x09\x0A\x0B\x0C\x0D\x0E\x0F\0\0\0\x01";

const REFUSED_AGAIN: [u8; 34] =
    *b"RFB 003.008\n\x01\x02\x00\x01\x02\x03\x04\x05\x06\x07\x08\x09\x0A\x0B\x0C\x0D\x0E\x0F\0\0\0\x02";

const ANSWERED: [u8; 29] =
    *b"RFB 003.008\n\x02\x23\xC4\x81\x08\x42\xC0\x39\x94\xAB\x49\x6F\xC4\x67\x5C\xF3\xDC";

#[test]
fn a_password_is_used_where_none_is_not_offered(rt: HostRuntime) {
    for (i, (sends, is_known, number, given)) in COURSES.iter().enumerate() {
        let password = if *is_known {
            Some(Password::new(b"hunter2x"))
        } else {
            None
        };
        assert!(rt; joins(&rt, password, sends, *number, given), "course {i}");
    }
}
