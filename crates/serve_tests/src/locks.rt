//! Ports that ask for a password, and files that have one.

use crate::hosts::Host;
use crate::loopback::VERSION;
use crate::scene::{FAULT, Scene, play_all};
use crate::steps::{INIT, Step};
use crate::visits::{Visit, VisitStart};
use std::fs;
use std::test::*;

/// What a viewer is asked: the version, the one type VNC Authentication, and a challenge (RFC 6143, 7.1.1, 7.1.2 and
/// 7.2.2).
const TYPES: Step = Step::Hears(b"RFB 003.008\n\x01\x02");

const CHALLENGE: Step = Step::Hears(&[0, 1, 2, 3, 4, 5, 6, 7, 8, 9, 10, 11, 12, 13, 14, 15]);

/// What vncviewer 1.12 and xtightvncviewer 1.3.10 answer to that challenge, with the password hunter2x.
const ANSWER: Step = Step::Sends(&[
    0x23, 0xC4, 0x81, 0x08, 0x42, 0xC0, 0x39, 0x94, 0xAB, 0x49, 0x6F, 0xC4, 0x67, 0x5C, 0xF3, 0xDC,
]);

/// What `openssl enc -des-ecb` makes of it, with the password lookon, whose bits are turned around in each byte.
const ANSWER_TO_LOOK: Step = Step::Sends(&[
    0x23, 0xB7, 0x7C, 0x8B, 0x78, 0xA4, 0xCD, 0x38, 0xD8, 0x2F, 0x65, 0xBE, 0x4B, 0x48, 0xED, 0x6D,
]);

/// The viewer is greeted as at an open port, but for the question and its answer.
const KNOWS_THE_PASSWORD: &[Step] = &[
    Step::Sends(VERSION),
    TYPES,
    Step::Sends(b"\x02"),
    CHALLENGE,
    ANSWER,
    Step::Hears(b"\0\0\0\0"),
    Step::Sends(b"\x01"),
    Step::Hears(INIT),
];

const KNOWS_THE_OTHER: &[Step] = &[
    Step::Sends(VERSION),
    TYPES,
    Step::Sends(b"\x02"),
    CHALLENGE,
    ANSWER_TO_LOOK,
    Step::Hears(b"\0\0\0\0"),
    Step::Sends(b"\x01"),
    Step::Hears(INIT),
];

/// The password of those that only look on doesn't open the port of full control.
const TRIES_THE_OTHER: &[Step] = &[
    Step::Sends(VERSION),
    TYPES,
    Step::Sends(b"\x02"),
    CHALLENGE,
    ANSWER_TO_LOOK,
    Step::Hears(b"\0\0\0\x01\0\0\0\x0Ewrong password"),
    Step::IsLetGo,
];

const SCENES: &[Scene] = &[
    // The host ends once both viewers have left.
    Scene {
        name: "each port is opened by its own password",
        words: "--log --full-password-file full-password --view-password-file view-password --host 127.0.0.1:|first|",
        is_taken: false,
        hosts: &[Host {
            at: 0,
            steps: &[
                Step::IsJoined(INIT),
                Step::IsTold("viewer-out place=1 role=full "),
                Step::IsTold("viewer-out place=2 role=view "),
                Step::IsQuiet,
            ],
        }],
        full: &[Visit {
            start: VisitStart::Connects,
            steps: &[KNOWS_THE_PASSWORD],
            told: Some(" answers=0 bytes=43 why=\"ended\""),
        }],
        view: &[Visit {
            start: VisitStart::Connects,
            steps: &[KNOWS_THE_OTHER],
            told: Some(" answers=0 bytes=43 why=\"ended\""),
        }],
        status: 0,
        lines: &[
            "listening role=full address=127.0.0.1:|full| places=1",
            "listening role=view address=127.0.0.1:|view| places=1",
            "host-tried address=127.0.0.1:|first| why=\"connected\"",
            "host-joined address=127.0.0.1:|first| width=2 height=1 name=\"T\"",
            "host-out address=127.0.0.1:|first| why=\"ended\"",
        ],
    },
    Scene {
        name: "a file for viewers has no password",
        words: "--full-password-file full-password --view-password-file no-password --host 127.0.0.1:|first|",
        is_taken: false,
        hosts: &[],
        full: &[],
        view: &[],
        status: FAULT,
        lines: &[
            "fault 21",
            "reflectord: --view-password-file no-password; it has to have the viewers' password",
        ],
    },
    Scene {
        name: "a file for viewers isn't there",
        words: "--full-password-file absent --host 127.0.0.1:|first|",
        is_taken: false,
        hosts: &[],
        full: &[],
        view: &[],
        status: FAULT,
        lines: &["fault 21", "reflectord: --full-password-file absent: "],
    },
];

#[test]
fn ports_are_opened_by_passwords(rt: HostRuntime) -> Result<(), Fail> {
    fs::write(&rt, "full-password", b"hunter2x\n")?;
    fs::write(&rt, "view-password", b"lookon\n")?;
    fs::write(&rt, "no-password", b"\nhunter2x\n")?;
    play_all(rt, rt.alloc(), SCENES)
}
