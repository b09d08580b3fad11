//! Handshakes, each in one piece and byte by byte.

ghost use Rattle.std.specs.Prelude.{◌<◌, ◌≤◌};

use rfb_wire::{
    HostHello, ViewerHello, write_bell, write_client_text, write_key, write_pointer,
    write_server_text,
};
use std::process::Abort;

/// A host that offers None, says OK and has a screen of 2 by 1, named T.
const HOST: [u8; 43] =
    *b"RFB 003.008\n\x01\x01\0\0\0\0\0\x02\0\x01\x20\x18\0\x01\0\xFF\0\xFF\0\xFF\x10\x08\0\0\0\0\0\0\0\x01T";

/// That host with another version, and with a screen of another size.
fn host_with(version: &[u8; 12], size: &[u8; 4]) -> [u8; 43] {
    let mut bytes = HOST;
    bytes[..12].copy_from_slice(version);
    bytes[18..22].copy_from_slice(size);
    bytes
}

/// How many of a host's bytes are used, in pieces of this many bytes, and the number of the fault that they lead to, or
/// 0 where there is none.
fn feed_host(hello: &mut HostHello, bytes: &[u8], size: usize) -> (usize, u64)
    requires { 0 < size }
{
    let mut used: usize = 0;
    for piece in bytes.chunks(size) {
        match hello.feed(piece) {
            Ok(count) => used = used.saturating_add(count),
            Err(fault) => return (used, fault.number()),
        }
    }
    (used, 0)
}

/// The number of the fault, 0 where the host is joined, and 99 where it is neither.
fn host_in_pieces(bytes: &[u8], size: usize) -> u64
    requires { 0 < size }
{
    let mut hello = HostHello::new(None);
    let (_, fault) = feed_host(&mut hello, bytes, size);
    if fault == 0 && hello.done().is_none() {
        99
    } else {
        fault
    }
}

fn host_fault(bytes: &[u8]) -> u64 {
    let whole = host_in_pieces(bytes, 1000);
    if host_in_pieces(bytes, 1) == whole {
        whole
    } else {
        98
    }
}

#[test]
fn sizes(rt: HostRuntime) {
    for (size, fault) in [
        ([0x10, 0, 0x10, 0], 0),
        ([0, 1, 0, 1], 0),
        ([0x10, 1, 0x10, 0], 5),
        ([0x10, 0, 0x10, 1], 5),
        ([0, 0, 0, 1], 5),
        ([0, 1, 0, 0], 5),
    ] {
        let bytes = host_with(b"RFB 003.008\n", &size);
        assert!(rt; host_fault(&bytes) == fault, "a size of fault {fault}");
    }
}

#[test]
fn versions(rt: HostRuntime) {
    for (i, (version, fault)) in [
        (b"RFB 003.008\n", 0),
        (b"RFB 003.889\n", 0),
        (b"RFB 004.000\n", 0),
        (b"RFB 010.000\n", 0),
        (b"RFB 003.007\n", 1),
        (b"RFB 002.009\n", 1),
        (b"RFB 003.00a\n", 1),
        (b"RFB 003.008\r", 1),
        (b"rfb 003.008\n", 1),
    ]
    .iter()
    .enumerate()
    {
        let bytes = host_with(version, &[0, 2, 0, 1]);
        assert!(rt; host_fault(&bytes) == *fault, "version {i}");
    }
}

/// Types of security, and their results.
const SECURITY: [(&[u8], u64); 3] = [
    (b"RFB 003.008\n\x01\x02", 3),
    (b"RFB 003.008\n\x02\x02\x01\0\0\0\x01", 4),
    (b"RFB 003.008\n\x02\x02\x01\0\0\0\0", 99),
];

#[test]
fn security(rt: HostRuntime) {
    for (i, (bytes, fault)) in SECURITY.iter().enumerate() {
        assert!(rt; host_fault(bytes) == *fault, "security {i}");
    }
}

/// A host that refuses with a reason of this many bytes, of which the first 255 are kept.
fn is_refused(count: u32) -> bool
    requires { count ≤ 300 }
{
    let mut bytes = [b'x'; 317];
    bytes[..13].copy_from_slice(b"RFB 003.008\n\0");
    bytes[13..17].copy_from_slice(&count.to_be_bytes());
    host_fault(&bytes[..17 + count as usize]) == 2
}

#[test]
fn reasons(rt: HostRuntime) {
    for count in [0, 1, 255, 256, 300] {
        assert!(rt; is_refused(count), "a reason of {count}");
    }
}

/// How long the name of a host of 2 by 1 is, where it is joined after all of these bytes.
fn name_length(bytes: &[u8]) -> Option<usize> {
    let mut hello = HostHello::new(None);
    if feed_host(&mut hello, bytes, 1000) != (bytes.len(), 0) {
        return None;
    }
    match hello.done() {
        Some(joined) if joined.w == 2 && joined.h == 1 => Some(joined.name.len()),
        _ => None,
    }
}

/// A host with a name of this many bytes.
fn is_named(count: u32, kept: usize) -> bool
    requires { count ≤ 300 }
{
    let mut bytes = [b'x'; 342];
    bytes[..38].copy_from_slice(&HOST[..38]);
    bytes[38..42].copy_from_slice(&count.to_be_bytes());
    let sent = &bytes[..42 + count as usize];
    host_fault(sent) == 0 && name_length(sent) == Some(kept)
}

#[test]
fn long_names(rt: HostRuntime) {
    for (count, kept) in [(0, 0), (255, 255), (256, 255), (300, 255)] {
        assert!(rt; is_named(count, kept), "a name of {count}");
    }
}

/// What is done with a viewer's handshake, and what the handshake answers.
#[derive(Clone, Copy)]
enum Step {
    /// The viewer is to be sent exactly this, all of which is then sent.
    Says(&'static [u8]),
    /// This many bytes of a piece are used, and no fault is shown.
    Uses(&'static [u8], usize),
    /// The fault of this number is shown.
    Shows(&'static [u8], u64),
    /// Whether the handshake is done.
    IsDone(bool),
}

const TOLD: [Step; 10] = [
    Step::Says(b"RFB 003.008\n"),
    Step::Uses(b"RFB 003.008\n", 12),
    Step::Says(b"\x01\x01"),
    Step::Uses(b"\x01", 1),
    Step::Says(b"\0\0\0\0"),
    Step::IsDone(false),
    Step::Uses(b"\x01", 1),
    Step::IsDone(true),
    Step::Uses(b"\x03", 0),
    Step::Says(b"\0\x02\0\x01\x20\x18\0\x01\0\xFF\0\xFF\0\xFF\x10\x08\0\0\0\0\0\0\0\x01T"),
];

const OLD_VERSION: [Step; 4] = [
    Step::Uses(b"RFB 003.003", 11),
    Step::Shows(b"\n", 1),
    Step::Shows(b"\x01", 1),
    Step::Says(b""),
];

const OTHER_CHOICE: [Step; 2] = [Step::Shows(b"RFB 003.008\n\x02\x01", 13), Step::Says(b"")];

/// Whether the viewer is to be sent exactly this, all of which is then sent.
fn says(hello: &mut ViewerHello, wanted: &[u8]) -> bool {
    let count = hello.out().len();
    let says = hello.out() == wanted;
    hello.sent(count);
    says
}

/// How many bytes of a piece are used, and the number of the fault that is shown, or 0 where there is none.
fn feed_viewer(hello: &mut ViewerHello, piece: &[u8]) -> (usize, u64) {
    match hello.feed(piece) {
        Ok(used) => (used, 0),
        Err(fault) => (0, fault.number()),
    }
}

/// Whether a step has the result that it should have.
fn goes(hello: &mut ViewerHello, step: &Step) -> bool {
    match step {
        Step::Says(wanted) => says(hello, wanted),
        Step::Uses(piece, count) => feed_viewer(hello, piece) == (*count, 0),
        Step::Shows(piece, number) => feed_viewer(hello, piece) == (0, *number),
        Step::IsDone(done) => hello.done() == *done,
    }
}

/// Each step over a new handshake has the result that it should have.
fn plays<R: Abort>(rt: &R, name: &str, steps: &[Step]) {
    let mut hello = ViewerHello::new(2, 1, b"T");
    for (i, step) in steps.iter().enumerate() {
        assert!(rt; goes(&mut hello, step), "{name}: step {i}");
    }
}

const VIEWERS: [(&str, &[Step]); 3] = [
    ("told", &TOLD),
    ("an old version", &OLD_VERSION),
    ("another choice", &OTHER_CHOICE),
];

#[test]
fn viewers_are_told_or_refused(rt: HostRuntime) {
    for (name, steps) in VIEWERS {
        plays(&rt, name, steps);
    }
}

/// The viewer's side of a handshake: its version, the choice of None, and a shared-flag.
const VIEWER: [u8; 14] = *b"RFB 003.008\n\x01\x01";

/// That side of the handshake, with one byte changed.
fn changed(position: usize, value: u8) -> [u8; 14] {
    let mut bytes = VIEWER;
    if position < 14 {
        bytes[position] = value;
    }
    bytes
}

/// The fault that such a change leads to. The shared-flag isn't looked at.
fn fault_of_change(position: usize, value: u8) -> u64 {
    match position {
        12 if value != 1 => 13,
        0..=11 if changed(position, value) != VIEWER => 1,
        _ => 0,
    }
}

/// The number of the fault that a viewer's bytes lead to, up to this many and then the rest. It is 0 where the
/// handshake is done, and 99 where there is neither.
fn viewer_fault(bytes: &[u8; 14], cut: usize) -> u64 {
    let mut hello = ViewerHello::new(2, 1, b"T");
    let (front, back) = bytes.split_at(cut.min(14));
    let (_, first) = feed_viewer(&mut hello, front);
    if first != 0 {
        return first;
    }
    let (_, second) = feed_viewer(&mut hello, back);
    if second == 0 && !hello.done() {
        99
    } else {
        second
    }
}

#[test]
fn a_viewer_is_read_in_pieces(rt: HostRuntime) {
    for cut in 0..=14 {
        assert!(rt; viewer_fault(&VIEWER, cut) == 0, "cut at {cut}");
    }
}

/// Each other version is refused, and each other choice.
#[test]
fn every_byte_of_a_viewer(rt: HostRuntime) {
    for position in 0..14 {
        for value in 0..=255 {
            let fault = viewer_fault(&changed(position, value), 7);
            assert!(rt;
                fault == fault_of_change(position, value),
                "byte {position}: {value}"
            );
        }
    }
}

/// Bytes, how many of them show no fault when they are fed one by one, and the number of the fault that the next byte
/// shows: a fault comes with the last byte of its field, and no sooner.
const JUDGED: [(&[u8], usize, u64); 6] = [
    (b"XXX 003.008\n\x01", 11, 1),
    (b"RFB 003.008\n\x02\x02\x05\0", 14, 3),
    (b"RFB 003.008\n\x01\x01\x01\0\0\0\0", 17, 4),
    (b"RFB 003.008\n\x01\x01\0\0\0\0\0\0\0\x01\0", 21, 5),
    (b"RFB 003.008\n\0\0\0\0\x02no\0", 18, 2),
    (b"RFB 003.008\n\0\0\0\0\0\0", 16, 2),
];

#[test]
fn a_host_is_judged_at_the_end_of_a_field(rt: HostRuntime) {
    for (i, (bytes, used, number)) in JUDGED.iter().enumerate() {
        let mut hello = HostHello::new(None);
        assert!(rt;
            feed_host(&mut hello, bytes, 1) == (*used, *number),
            "field {i}"
        );
    }
}

/// Whether this many bytes are these, and stand at the front.
fn is_written(out: &[u8], count: usize, wanted: &[u8]) -> bool {
    count == wanted.len() && out.starts_with(wanted)
}

/// Whether each message is written as this, typed by hand.
fn writes_messages(out: &mut [u8; 24]) -> bool {
    let key = write_key(true, 0xFF0D, out);
    let is_key = is_written(out, key, &[4, 1, 0, 0, 0, 0, 0xFF, 0x0D]);
    let pointer = write_pointer(5, 1, 0x203, out);
    let is_pointer = is_written(out, pointer, &[5, 5, 0, 1, 2, 3]);
    let of_client = write_client_text(b"A", out);
    let is_client = is_written(out, of_client, &[6, 0, 0, 0, 0, 0, 0, 1, b'A']);
    let of_server = write_server_text(b"B", out);
    let is_server = is_written(out, of_server, &[3, 0, 0, 0, 0, 0, 0, 1, b'B']);
    let bell = write_bell(out);
    is_key && is_pointer && is_client && is_server && is_written(out, bell, &[2])
}

#[test]
fn messages_by_hand(rt: HostRuntime) {
    assert!(rt; writes_messages(&mut [0; 24]));
}
