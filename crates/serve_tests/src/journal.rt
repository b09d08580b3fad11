//! The log, and the place of viewers that have left.

use crate::hosts::Host;
use crate::refusals::{NO_PLACE, NO_PLACE_TO_VIEW};
use crate::room::Count;
use crate::scene::{FAULT, Scene, play_all};
use crate::steps::{ASK, INIT, IS_SILENT, Step, TOO_LONG};
use crate::visits::{ASKS_IN_VAIN, Visit, VisitStart};
use std::test::*;

/// The screen of `INIT`, with a name of 18 bytes that would end its line of a log, and begin another.
const FORGED: &[u8] =
    b"\0\x02\0\x01\x20\x18\0\x01\0\xFF\0\xFF\0\xFF\x10\x08\0\0\0\0\0\0\0\x12T\"\r\n1Z viewer-in\x1b\\";

/// Viewers that find a place and leave. While one is there, another finds none. The log tells how often it was
/// answered, how many bytes it was given, of 60 for its greeting and 24 for its answer, and why it left.
const LEAVING: &[Visit] = &[
    // It closes.
    Visit {
        start: VisitStart::HasPlace(NO_PLACE),
        steps: &[&[Step::AnotherIsRefused(NO_PLACE), Step::IsGreeted(FORGED)]],
        told: Some(" answers=0 bytes=60 why=\"ended\""),
    },
    // It sends a message that there isn't (RFC 6143, 7.5).
    Visit {
        start: VisitStart::HasPlace(NO_PLACE),
        steps: &[&[
            Step::AnotherIsRefused(NO_PLACE),
            Step::IsGreeted(FORGED),
            Step::Sends(b"\xFF"),
        ]],
        told: Some(" answers=0 bytes=60 why=\"fault 6: unknown message type 255\""),
    },
    // It closes with bytes unread, so that the system calls the connection broken.
    Visit {
        start: VisitStart::HasPlace(NO_PLACE),
        steps: &[&[
            Step::AnotherIsRefused(NO_PLACE),
            Step::IsGreeted(FORGED),
            Step::Sends(ASK),
            Step::Hears(b"\0"),
        ]],
        told: Some(" answers=1 bytes=84 why=\"fault 21: the link failed\""),
    },
    // It has sent its version and nothing more when its time is over, by the clock of the scene. The clock is put
    // forward once a viewer at the other port waits for news. One more byte ends a wait that began before that. If the
    // server had looked at the clock already, it has broken the connection by then.
    Visit {
        start: VisitStart::HasPlace(NO_PLACE),
        steps: &[&[
            Step::AnotherIsRefused(NO_PLACE),
            Step::Hears(b"RFB 003.008\n\x01\x01"),
            Step::Reaches(Count::Shown, 1),
            Step::PutsForward(TOO_LONG),
            Step::Slips(b"\x01"),
            Step::IsCut,
        ]],
        told: Some(" answers=0 bytes=14 why=\"late handshake\""),
    },
    // It waits for news until it is let go.
    Visit {
        start: VisitStart::HasPlace(NO_PLACE),
        steps: &[
            &[Step::AnotherIsRefused(NO_PLACE), Step::IsGreeted(FORGED)],
            ASKS_IN_VAIN,
        ],
        told: Some(" answers=1 bytes=84 why=\"host gone\""),
    },
];

/// One at the other port.
const LOOKING_ON: &[Visit] = &[Visit {
    start: VisitStart::HasPlace(NO_PLACE_TO_VIEW),
    steps: &[
        &[
            Step::AnotherIsRefused(NO_PLACE_TO_VIEW),
            Step::IsGreeted(FORGED),
        ],
        ASKS_IN_VAIN,
    ],
    told: Some(" answers=1 bytes=84 why=\"host gone\""),
}];

/// A host that ends between two messages, and waits until the client has gone.
const ENDS_WELL: &[Step] = &[Step::IsJoined(INIT), Step::ShutsDown, Step::SeesItGo];

const SCENES: &[Scene] = &[
    // The viewers note what is told of each. The host's name forges no line.
    Scene {
        name: "a place is free once after each way of leaving, and the log tells of each",
        words: "--log --host 127.0.0.1:|first|",
        is_taken: false,
        hosts: &[Host {
            at: 0,
            steps: &[
                Step::IsJoined(FORGED),
                Step::Reaches(Count::Shown, 2),
                Step::IsQuiet,
            ],
        }],
        full: LEAVING,
        view: LOOKING_ON,
        status: 0,
        lines: &[
            "listening role=full address=127.0.0.1:|full| places=1",
            "listening role=view address=127.0.0.1:|view| places=1",
            "host-tried address=127.0.0.1:|first| why=\"connected\"",
            "host-joined address=127.0.0.1:|first| width=2 height=1 name=\"T\\\"\\r\\n1Z viewer-in\\x1b\\\\\"",
            "host-out address=127.0.0.1:|first| why=\"ended\"",
        ],
    },
    // The system chooses the port at which machines are answered.
    Scene {
        name: "the log tells where machines are answered",
        words: "--log --metrics 127.0.0.1:0 --host 127.0.0.1:|first|",
        is_taken: false,
        hosts: &[Host {
            at: 0,
            steps: ENDS_WELL,
        }],
        full: &[],
        view: &[],
        status: 0,
        lines: &[
            "listening role=full address=127.0.0.1:|full| places=1",
            "listening role=view address=127.0.0.1:|view| places=1",
            "listening for=metrics address=127.0.0.1:0",
            "host-tried address=127.0.0.1:|first| why=\"connected\"",
            "host-joined address=127.0.0.1:|first| width=2 height=1 name=\"T\"",
            "host-out address=127.0.0.1:|first| why=\"ended\"",
        ],
    },
    // The second falls silent in its handshake. The third's fault is the run's.
    Scene {
        name: "the log tells of each host",
        words: "--log --host 127.0.0.1:|first| 127.0.0.1:|nobody| 127.0.0.1:|second| 127.0.0.1:|third|",
        is_taken: false,
        hosts: &[
            Host {
                at: 0,
                steps: ENDS_WELL,
            },
            Host {
                at: 1,
                steps: IS_SILENT,
            },
            Host {
                at: 2,
                steps: &[Step::IsJoined(INIT), Step::Sends(b"\xFF"), Step::SeesItGo],
            },
        ],
        full: &[],
        view: &[],
        status: FAULT,
        lines: &[
            "listening role=full address=127.0.0.1:|full| places=1",
            "listening role=view address=127.0.0.1:|view| places=1",
            "host-tried address=127.0.0.1:|first| why=\"connected\"",
            "host-joined address=127.0.0.1:|first| width=2 height=1 name=\"T\"",
            "host-out address=127.0.0.1:|first| why=\"ended\"",
            "host-tried address=127.0.0.1:|nobody| why=\"connection refused\"",
            "host-tried address=127.0.0.1:|second| why=\"connected\"",
            "host-out address=127.0.0.1:|second| why=\"fault 21: the link failed\"",
            "host-tried address=127.0.0.1:|third| why=\"connected\"",
            "host-joined address=127.0.0.1:|third| width=2 height=1 name=\"T\"",
            "host-out address=127.0.0.1:|third| why=\"fault 6: unknown message type 255\"",
            "fault 6",
            "reflectord: the last host: unknown message type 255: ",
        ],
    },
];

/// The log has the lines that it should have, and no others.
#[test]
fn log_tells_what_happens(rt: HostRuntime) -> Result<(), Fail> {
    play_all(rt, rt.alloc(), SCENES)
}
