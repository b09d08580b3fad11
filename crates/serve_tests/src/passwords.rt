//! Hosts that ask for a password, and files that have one.

use crate::hosts::Host;
use crate::loopback::VERSION;
use crate::room::Count;
use crate::scene::{FAULT, Scene, play_all};
use crate::steps::{ASKED, INIT, Step};
use crate::visits::{Visit, VisitStart};
use std::fs;
use std::test::*;

/// A host asks for a password: its version, the type VNC Authentication, and a challenge (RFC 6143, 7.1.1, 7.1.2 and
/// 7.2.2).
const ASKS: Step = Step::Sends(VERSION);

const TYPES: Step = Step::Sends(b"\x02\x13\x02");

const CHALLENGE: Step = Step::Sends(&[0, 1, 2, 3, 4, 5, 6, 7, 8, 9, 10, 11, 12, 13, 14, 15]);

/// What vncviewer 1.12 and xtightvncviewer 1.3.10 answered to that challenge, with the password hunter2x.
const ANSWER: Step = Step::Hears(&[
    0x23, 0xC4, 0x81, 0x08, 0x42, 0xC0, 0x39, 0x94, 0xAB, 0x49, 0x6F, 0xC4, 0x67, 0x5C, 0xF3, 0xDC,
]);

/// The host lets in who knows the password, and then shows an update.
const LETS_IN: &[Step] = &[
    ASKS,
    Step::Hears(VERSION),
    TYPES,
    Step::Hears(b"\x02"),
    CHALLENGE,
    ANSWER,
    Step::Sends(b"\0\0\0\0"),
    Step::Hears(b"\x01"),
    Step::Sends(INIT),
    Step::Hears(ASKED),
    Step::Hears(b"\0\x02\0\x01"),
    Step::Updates(1, 1),
];

/// The host takes no password for right.
const KEEPS_OUT: &[Step] = &[
    ASKS,
    Step::Hears(VERSION),
    TYPES,
    Step::Hears(b"\x02"),
    CHALLENGE,
    ANSWER,
    Step::Sends(b"\0\0\0\x01"),
    Step::SeesItGo,
];

const SCENES: &[Scene] = &[
    Scene {
        name: "a host is joined that asks for a password",
        words: "--host-password-file right-password --host 127.0.0.1:|first|",
        is_taken: false,
        hosts: &[Host {
            at: 0,
            steps: LETS_IN,
        }],
        full: &[Visit {
            start: VisitStart::IsGreeted,
            steps: &[&[
                Step::Hears(INIT),
                Step::IsShown(1),
                Step::Marks(Count::Shown, 1),
            ]],
            told: None,
        }],
        view: &[],
        status: 0,
        lines: &[],
    },
    // The next host offers None, and is told nothing of the password.
    Scene {
        name: "a host keeps out who may have a wrong password, and the next one has its turn",
        words: "--log --host-password-file right-password --host 127.0.0.1:|first| 127.0.0.1:|second| --again 1",
        is_taken: false,
        hosts: &[
            Host {
                at: 0,
                steps: KEEPS_OUT,
            },
            Host {
                at: 1,
                steps: &[Step::IsJoined(INIT), Step::Sends(b"\xFF"), Step::SeesItGo],
            },
        ],
        full: &[],
        view: &[],
        status: FAULT,
        lines: &[
            "listening role=full address=127.0.0.1:|full| places=1",
            "listening role=view address=127.0.0.1:|view| places=1",
            "host-tried address=127.0.0.1:|first| why=\"connected\"",
            "host-out address=127.0.0.1:|first| why=\"fault 4: the host reported a failed handshake\"",
            "host-tried address=127.0.0.1:|second| why=\"connected\"",
            "host-joined address=127.0.0.1:|second| width=2 height=1 name=\"T\"",
            "host-out address=127.0.0.1:|second| why=\"fault 6: unknown message type 255\"",
            "fault 6",
            "reflectord: the last host: unknown message type 255: ",
        ],
    },
    Scene {
        name: "a password may be wrong",
        words: "--host-password-file right-password --host 127.0.0.1:|first|",
        is_taken: false,
        hosts: &[Host {
            at: 0,
            steps: KEEPS_OUT,
        }],
        full: &[],
        view: &[],
        status: FAULT,
        lines: &[
            "fault 4",
            "reflectord: the host 127.0.0.1:|first|: the host reported a failed handshake: it ended the handshake as failed; the password may be wrong",
        ],
    },
    Scene {
        name: "a file has no password",
        words: "--host-password-file no-password --host 127.0.0.1:|first|",
        is_taken: false,
        hosts: &[],
        full: &[],
        view: &[],
        status: FAULT,
        lines: &[
            "fault 21",
            "reflectord: --host-password-file no-password; it has to have the hosts' password",
        ],
    },
    Scene {
        name: "a file isn't there",
        words: "--host-password-file absent --host 127.0.0.1:|first|",
        is_taken: false,
        hosts: &[],
        full: &[],
        view: &[],
        status: FAULT,
        lines: &["fault 21", "reflectord: --host-password-file absent: "],
    },
];

#[test]
fn hosts_are_joined_by_a_password(rt: HostRuntime) -> Result<(), Fail> {
    fs::write(&rt, "right-password", b"hunter2x\n")?;
    fs::write(&rt, "no-password", b"\nhunter2x\n")?;
    play_all(rt, rt.alloc(), SCENES)
}
