//! Hosts of several sizes, under viewers that keep their connections: one that is told each size, and others that are
//! told the room.

use crate::hosts::Host;
use crate::room::Count;
use crate::scene::{FAULT, Scene, play_all};
use crate::steps::{BLACK as BLACK_PAIR, INIT, Step};
use crate::visits::{Visit, VisitStart};
use std::test::*;

/// The screen of `INIT` with other sizes: 3 by 2, which is the room's, 1 by 2, and 4 by 1.
const ROOM: &[u8] = b"\0\x03\0\x02\x20\x18\0\x01\0\xFF\0\xFF\0\xFF\x10\x08\0\0\0\0\0\0\0\x01T";

const HIGHER: &[u8] = b"\0\x01\0\x02\x20\x18\0\x01\0\xFF\0\xFF\0\xFF\x10\x08\0\0\0\0\0\0\0\x01T";

const WIDER: &[u8] = b"\0\x04\0\x01\x20\x18\0\x01\0\xFF\0\xFF\0\xFF\x10\x08\0\0\0\0\0\0\0\x01T";

/// What is asked of a host for news, and what a viewer asks for: what is new in the room (RFC 6143, 7.5.3).
const ASK_NEW: &[u8] = b"\x03\x01\0\0\0\0\0\x03\0\x02";

/// Updates of one rectangle, Raw, at the top left (RFC 6143, 7.6.1 and 7.7.1): red and blue beside each other; and
/// green above white.
const RED_AND_BLUE: &[u8] = b"\0\0\0\x01\0\0\0\0\0\x02\0\x01\0\0\0\0\0\0\xFF\0\xFF\0\0\0";

const GREEN_ON_WHITE: &[u8] = b"\0\0\0\x01\0\0\0\0\0\x01\0\x02\0\0\0\0\0\xFF\0\0\xFF\xFF\xFF\0";

/// New sizes (7.8.2): 3 by 1, and then a green pixel at the top right in the same update; 3 by 3, which is higher than
/// the room; and 1 by 1, and then a green pixel.
const GROWS: &[u8] = b"\0\0\0\x02\0\0\0\0\0\x03\0\x01\xFF\xFF\xFF\x21\
      \0\x02\0\0\0\x01\0\x01\0\0\0\0\0\xFF\0\0";

const OUTGROWS: &[u8] = b"\0\0\0\x01\0\0\0\0\0\x03\0\x03\xFF\xFF\xFF\x21";

const SHRINKS: &[u8] = b"\0\0\0\x02\0\0\0\0\0\x01\0\x01\xFF\xFF\xFF\x21\
      \0\0\0\0\0\x01\0\x01\0\0\0\0\0\xFF\0\0";

/// A viewer takes pixels as Raw, and new sizes (7.5.2, 7.8.2). It asks for the room.
const TAKES_SIZES: &[u8] = b"\x02\0\0\x02\0\0\0\0\xFF\xFF\xFF\x21\x03\0\0\0\0\0\0\x03\0\x02";

/// It is told the sizes 2 by 1 and 1 by 1, each in an update of nothing else; and a green pixel.
const IS_PAIR: &[u8] = b"\0\0\0\x01\0\0\0\0\0\x02\0\x01\xFF\xFF\xFF\x21";

const IS_PIXEL: &[u8] = b"\0\0\0\x01\0\0\0\0\0\x01\0\x01\xFF\xFF\xFF\x21";

const GREEN: &[u8] = b"\0\0\0\x01\0\0\0\0\0\x01\0\x01\0\0\0\0\0\xFF\0\0";

/// Answers of the whole room, Raw: black; and each update on black.
const BLACK: &[u8] = b"\0\0\0\x01\0\0\0\0\0\x03\0\x02\0\0\0\0\
      \0\0\0\0\0\0\0\0\0\0\0\0\0\0\0\0\0\0\0\0\0\0\0\0";

const FIRST: &[u8] = b"\0\0\0\x01\0\0\0\0\0\x03\0\x02\0\0\0\0\
      \0\0\xFF\0\xFF\0\0\0\0\0\0\0\0\0\0\0\0\0\0\0\0\0\0\0";

const GROWN: &[u8] = b"\0\0\0\x01\0\0\0\0\0\x03\0\x02\0\0\0\0\
      \0\0\0\0\0\0\0\0\0\xFF\0\0\0\0\0\0\0\0\0\0\0\0\0\0";

const NEXT: &[u8] = b"\0\0\0\x01\0\0\0\0\0\x03\0\x02\0\0\0\0\
      \0\xFF\0\0\0\0\0\0\0\0\0\0\xFF\xFF\xFF\0\0\0\0\0\0\0\0\0";

const SHRUNK: &[u8] = b"\0\0\0\x01\0\0\0\0\0\x03\0\x02\0\0\0\0\
      \0\xFF\0\0\0\0\0\0\0\0\0\0\0\0\0\0\0\0\0\0\0\0\0\0";

/// A host that is joined, and left at once.
const IS_PASSED_OVER: &[Step] = &[Step::IsJoined(WIDER), Step::SeesItGo];

/// A host that is as large as the room ends once its update was seen.
const FILLS_THE_ROOM: &[Step] = &[
    Step::IsJoined(ROOM),
    Step::Sends(RED_AND_BLUE),
    Step::Hears(ASK_NEW),
    Step::Reaches(Count::Shown, 1),
    Step::ShutsDown,
    Step::SeesItGo,
];

/// A viewer sees the updates of two hosts.
const SEES_BOTH: &[Step] = &[
    Step::Hears(ROOM),
    Step::AsksUntil(ASK_NEW, BLACK, FIRST),
    Step::Marks(Count::Shown, 1),
    Step::AsksUntil(ASK_NEW, BLACK, NEXT),
    Step::Marks(Count::Shown, 2),
];

const SCENES: &[Scene] = &[
    // What the first host doesn't paint is black, and so is all that it showed before it grew. It is left where it
    // outgrows the room. One that is wider is passed over. The viewer is told the room, and stays.
    Scene {
        name: "hosts of any size that fits share a room",
        words: "--room 3x2 --host 127.0.0.1:|first| 127.0.0.1:|second| 127.0.0.1:|third|",
        is_taken: false,
        hosts: &[
            Host {
                at: 0,
                steps: &[
                    Step::IsJoined(INIT),
                    Step::Sends(RED_AND_BLUE),
                    Step::Hears(ASK_NEW),
                    Step::Reaches(Count::Shown, 1),
                    Step::Sends(GROWS),
                    Step::Hears(ASK_NEW),
                    Step::Reaches(Count::Shown, 2),
                    Step::Sends(OUTGROWS),
                    Step::SeesItGo,
                ],
            },
            Host {
                at: 1,
                steps: IS_PASSED_OVER,
            },
            Host {
                at: 2,
                steps: &[
                    Step::IsJoined(HIGHER),
                    Step::Hears(ASK_NEW),
                    Step::Sends(GREEN_ON_WHITE),
                    Step::Hears(ASK_NEW),
                    Step::Reaches(Count::Shown, 3),
                    Step::ShutsDown,
                    Step::SeesItGo,
                ],
            },
        ],
        full: &[],
        view: &[Visit {
            start: VisitStart::IsGreeted,
            steps: &[&[
                Step::Hears(ROOM),
                Step::AsksUntil(ASK_NEW, BLACK, FIRST),
                Step::Marks(Count::Shown, 1),
                Step::AsksUntil(ASK_NEW, BLACK, GROWN),
                Step::Marks(Count::Shown, 2),
                Step::AsksUntil(ASK_NEW, BLACK, NEXT),
                Step::Marks(Count::Shown, 3),
            ]],
            told: None,
        }],
        status: 0,
        lines: &[],
    },
    // What a viewer is told lies in the size that it was told last. The other one sees the room.
    Scene {
        name: "a viewer that takes new sizes is told each, and another keeps the room",
        words: "--room 3x2 --host 127.0.0.1:|first|",
        is_taken: false,
        hosts: &[Host {
            at: 0,
            steps: &[
                Step::IsJoined(INIT),
                Step::Sends(RED_AND_BLUE),
                Step::Hears(ASK_NEW),
                Step::Reaches(Count::Shown, 2),
                Step::Sends(SHRINKS),
                Step::Hears(ASK_NEW),
                Step::Reaches(Count::Shown, 4),
                Step::ShutsDown,
                Step::SeesItGo,
            ],
        }],
        full: &[Visit {
            start: VisitStart::IsGreeted,
            steps: &[&[
                Step::Hears(ROOM),
                Step::Sends(TAKES_SIZES),
                Step::Hears(IS_PAIR),
                Step::AsksUntil(ASK_NEW, BLACK_PAIR, RED_AND_BLUE),
                Step::Adds(Count::Shown),
                Step::Sends(ASK_NEW),
                Step::Hears(IS_PIXEL),
                Step::Sends(ASK_NEW),
                Step::Hears(GREEN),
                Step::Adds(Count::Shown),
            ]],
            told: None,
        }],
        view: &[Visit {
            start: VisitStart::IsGreeted,
            steps: &[&[
                Step::Hears(ROOM),
                Step::AsksUntil(ASK_NEW, BLACK, FIRST),
                Step::Adds(Count::Shown),
                Step::AsksUntil(ASK_NEW, BLACK, SHRUNK),
                Step::Adds(Count::Shown),
            ]],
            told: None,
        }],
        status: 0,
        lines: &[],
    },
    // The log says what makes room.
    Scene {
        name: "the log tells of hosts that don't fit",
        words: "--log --room 3x2 --host 127.0.0.1:|first| 127.0.0.1:|second|",
        is_taken: false,
        hosts: &[
            Host {
                at: 0,
                steps: &[Step::IsJoined(INIT), Step::Sends(OUTGROWS), Step::SeesItGo],
            },
            Host {
                at: 1,
                steps: IS_PASSED_OVER,
            },
        ],
        full: &[],
        view: &[],
        status: FAULT,
        lines: &[
            "listening role=full address=127.0.0.1:|full| places=1",
            "listening role=view address=127.0.0.1:|view| places=1",
            "host-tried address=127.0.0.1:|first| why=\"connected\"",
            "host-joined address=127.0.0.1:|first| width=2 height=1 name=\"T\"",
            "host-out address=127.0.0.1:|first| why=\"fault 5: the host's screen has a size that is not served; --room WxH makes room, up to 4096x4096\"",
            "host-tried address=127.0.0.1:|second| why=\"connected\"",
            "host-out address=127.0.0.1:|second| why=\"fault 5: the host's screen has a size that is not served; --room WxH makes room, up to 4096x4096\"",
            "fault 5",
            "reflectord: the last host: the host's screen has a size that is not served: ",
        ],
    },
    // It is the first one, and is tried once.
    Scene {
        name: "a first host that doesn't fit ends the run",
        words: "--room 3x2 --host 127.0.0.1:|first| 127.0.0.1:|second|",
        is_taken: false,
        hosts: &[Host {
            at: 0,
            steps: IS_PASSED_OVER,
        }],
        full: &[],
        view: &[],
        status: FAULT,
        lines: &[
            "fault 5",
            "reflectord: the host 127.0.0.1:|first|: the host's screen has a size that is not served: ",
        ],
    },
    // The next one is the first that is met, and the room has its size. The first is tried again, and has become
    // smaller. A fault of it ends the run.
    Scene {
        name: "a first host that doesn't fit is tried again",
        words: "--again 1 --room 3x2 --host 127.0.0.1:|first| 127.0.0.1:|second|",
        is_taken: false,
        hosts: &[
            Host {
                at: 0,
                steps: IS_PASSED_OVER,
            },
            Host {
                at: 1,
                steps: FILLS_THE_ROOM,
            },
            Host {
                at: 0,
                steps: &[
                    Step::IsJoined(HIGHER),
                    Step::Hears(ASK_NEW),
                    Step::Sends(GREEN_ON_WHITE),
                    Step::Hears(ASK_NEW),
                    Step::Reaches(Count::Shown, 2),
                    Step::Sends(b"\xFF"),
                    Step::SeesItGo,
                ],
            },
        ],
        full: &[],
        view: &[Visit {
            start: VisitStart::IsGreeted,
            steps: &[SEES_BOTH],
            told: None,
        }],
        status: FAULT,
        lines: &[
            "fault 6",
            "reflectord: the last host: unknown message type 255: ",
        ],
    },
    // Without the option the room has the first host's size.
    Scene {
        name: "a next host that is smaller than the first is joined",
        words: "--host 127.0.0.1:|first| 127.0.0.1:|second|",
        is_taken: false,
        hosts: &[
            Host {
                at: 0,
                steps: FILLS_THE_ROOM,
            },
            Host {
                at: 1,
                steps: &[
                    Step::IsJoined(HIGHER),
                    Step::Hears(ASK_NEW),
                    Step::Sends(GREEN_ON_WHITE),
                    Step::Hears(ASK_NEW),
                    Step::Reaches(Count::Shown, 2),
                    Step::ShutsDown,
                    Step::SeesItGo,
                ],
            },
        ],
        full: &[],
        view: &[Visit {
            start: VisitStart::IsGreeted,
            steps: &[SEES_BOTH],
            told: None,
        }],
        status: 0,
        lines: &[],
    },
];

#[test]
fn hosts_of_any_size_share_a_room(rt: HostRuntime) -> Result<(), Fail> {
    play_all(rt, rt.alloc(), SCENES)
}
