//! Answers to challenges, and passwords in files.

use std::process::Abort;
use vnc_auth::{Password, answer, is_answer};

const CHALLENGE: [u8; 16] = [0, 1, 2, 3, 4, 5, 6, 7, 8, 9, 10, 11, 12, 13, 14, 15];

/// What vncviewer 1.12 and xtightvncviewer 1.3.10 answered to that challenge, with the password hunter2x.
const OF_VIEWERS: [u8; 16] = [
    0x23, 0xc4, 0x81, 0x08, 0x42, 0xc0, 0x39, 0x94, 0xab, 0x49, 0x6f, 0xc4, 0x67, 0x5c, 0xf3, 0xdc,
];

/// Files with that password: what `x11vnc -storepasswd` wrote, the same with a second password behind it, and lines,
/// also without an end and with one from Windows.
const FILES: [&[u8]; 6] = [
    b"\xdc\xda\xb5\x40\x11\xf8\x42\x07",
    b"\xdc\xda\xb5\x40\x11\xf8\x42\x07\xdc\xda\xb5\x40\x11\xf8\x42\x07",
    b"hunter2x",
    b"hunter2x\n",
    b"hunter2x\r\nand more\r\n",
    b"hunter2x and more\n",
];

/// Files without a password.
const EMPTY: [&[u8]; 4] = [b"", b"\n", b"\r\n", b"\nhunter2x\n"];

#[test]
fn viewers_answer_like_this(rt: HostRuntime) {
    assert_eq!(rt; answer(b"hunter2x", &CHALLENGE), OF_VIEWERS);
    assert!(rt; is_answer(b"hunter2x", &CHALLENGE, &OF_VIEWERS));
    assert!(rt; !is_answer(b"hunter3x", &CHALLENGE, &OF_VIEWERS));
}

/// Whether the file has a password that gives this answer to the challenge.
fn answers(file: &[u8], wanted: &[u8; 16]) -> bool {
    match Password::in_file(file) {
        Some(password) => password.answer(&CHALLENGE) == *wanted,
        None => false,
    }
}

/// Eight characters count. A shorter password is filled up with zero bytes, and a line of seven characters and its end
/// is no file of eight stored bytes.
#[test]
fn passwords_in_files(rt: HostRuntime) {
    for file in FILES.iter() {
        assert!(rt; answers(file, &OF_VIEWERS));
    }
    for file in EMPTY.iter() {
        assert!(rt; Password::in_file(file).is_none());
    }
    assert!(rt; answers(b"hunter2\n", &answer(b"hunter2\0", &CHALLENGE)));
}
