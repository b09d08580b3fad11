//! Several hosts in turn, under one viewer that keeps its connection.

use crate::hosts::Host;
use crate::room::Count;
use crate::scene::{FAULT, Scene, play_all};
use crate::steps::{ASK, ASK_NEW, INIT, Step};
use crate::visits::{Visit, VisitStart};
use std::test::*;

/// What a viewer with full control gives after each of the updates from 1 on, all of which a host is told: keys and
/// buttons that go down and up, positions, and texts in Latin-1 (RFC 6143, 7.5.4 to 7.5.6).
const TYPED_1: &[u8] = b"\x04\x01\0\0\0\0\0\x61\x04\0\0\0\0\0\0\x61";

const TYPED_2: &[u8] = b"\x05\x01\0\x01\0\0\x05\0\0\0\0\0";

const TYPED_3: &[u8] = b"\x06\0\0\0\0\0\0\x02h\xE9";

const TYPED_4: &[u8] =
    b"\x04\x01\0\0\0\0\xFF\xE1\x04\x01\0\0\0\0\0\x41\x04\0\0\0\0\0\0\x41\x04\0\0\0\0\0\xFF\xE1\x06\0\0\0\0\0\0\x03Abc";

const TYPED_5: &[u8] = b"\x05\0\0\x01\0\0";

const TYPED_6: &[u8] = b"\x06\0\0\0\0\0\0\x01x\x04\x01\0\0\0\0\0\x62\x04\0\0\0\0\0\0\x62";

const TYPED_7: &[u8] =
    b"\x05\x04\0\0\0\0\x05\0\0\x01\0\0\x04\x01\0\0\0\0\0\x63\x04\0\0\0\0\0\0\x63";

const TYPED_8: &[u8] = b"\x04\x01\0\0\0\0\0\x64\x04\0\0\0\0\0\0\x64";

/// What a viewer that only looks on gives after each update, of which a host is told nothing: a key and a button that
/// go down and stay there, and a text.
const IN_VAIN: &[u8] = b"\x04\x01\0\0\0\0\0\x76\x05\x01\0\x01\0\0\x06\0\0\0\0\0\0\x02no";

/// It types after each update, once the host was asked anew and the viewer that only looks on has typed in vain.
const TYPES: &[&[Step]] = &[
    &[Step::Hears(INIT), Step::IsClosedBeside],
    &[
        Step::IsShown(1),
        Step::Reaches(Count::Asked, 1),
        Step::Reaches(Count::Looked, 1),
        Step::Sends(TYPED_1),
    ],
    &[
        Step::IsShown(2),
        Step::Reaches(Count::Asked, 2),
        Step::Reaches(Count::Looked, 2),
        Step::Sends(TYPED_2),
    ],
    &[
        Step::IsShown(3),
        Step::Reaches(Count::Asked, 3),
        Step::Reaches(Count::Looked, 3),
        Step::Sends(TYPED_3),
    ],
    &[
        Step::IsShown(4),
        Step::Reaches(Count::Asked, 4),
        Step::Reaches(Count::Looked, 4),
        Step::Sends(TYPED_4),
    ],
    &[
        Step::IsShown(5),
        Step::Reaches(Count::Asked, 5),
        Step::Reaches(Count::Looked, 5),
        Step::Sends(TYPED_5),
    ],
    &[
        Step::IsShown(6),
        Step::Reaches(Count::Asked, 6),
        Step::Reaches(Count::Looked, 6),
        Step::Sends(TYPED_6),
    ],
    &[
        Step::IsShown(7),
        Step::Reaches(Count::Asked, 7),
        Step::Reaches(Count::Looked, 7),
        Step::Sends(TYPED_7),
    ],
    &[
        Step::IsShown(8),
        Step::Reaches(Count::Asked, 8),
        Step::Reaches(Count::Looked, 8),
        Step::Sends(TYPED_8),
    ],
];

/// It types after each update where the host may be told nothing of it. The answer that comes after it shows that it
/// was read.
const TYPES_IN_VAIN: &[&[Step]] = &[
    &[Step::Hears(INIT), Step::IsClosedBeside],
    &[
        Step::IsShown(1),
        Step::Sends(IN_VAIN),
        Step::Asks(ASK, 1),
        Step::Marks(Count::Looked, 1),
    ],
    &[
        Step::IsShown(2),
        Step::Sends(IN_VAIN),
        Step::Asks(ASK, 2),
        Step::Marks(Count::Looked, 2),
    ],
    &[
        Step::IsShown(3),
        Step::Sends(IN_VAIN),
        Step::Asks(ASK, 3),
        Step::Marks(Count::Looked, 3),
    ],
    &[
        Step::IsShown(4),
        Step::Sends(IN_VAIN),
        Step::Asks(ASK, 4),
        Step::Marks(Count::Looked, 4),
    ],
    &[
        Step::IsShown(5),
        Step::Sends(IN_VAIN),
        Step::Asks(ASK, 5),
        Step::Marks(Count::Looked, 5),
    ],
    &[
        Step::IsShown(6),
        Step::Sends(IN_VAIN),
        Step::Asks(ASK, 6),
        Step::Marks(Count::Looked, 6),
    ],
    &[
        Step::IsShown(7),
        Step::Sends(IN_VAIN),
        Step::Asks(ASK, 7),
        Step::Marks(Count::Looked, 7),
    ],
    &[
        Step::IsShown(8),
        Step::Sends(IN_VAIN),
        Step::Asks(ASK, 8),
        Step::Marks(Count::Looked, 8),
    ],
];

/// The hosts are told what is typed after each update, and nothing before it. A host that comes after another is asked
/// anew once before, since the screen has turned black by then.
const HOSTS: &[Host] = &[
    Host {
        at: 0,
        steps: &[
            Step::IsJoined(INIT),
            Step::Update(1),
            Step::Hears(TYPED_1),
            Step::Update(2),
            Step::Hears(TYPED_2),
            Step::Update(3),
            Step::Hears(TYPED_3),
            Step::Update(4),
            Step::Hears(TYPED_4),
            Step::ShutsDown,
            Step::IsLetGo,
        ],
    },
    // It breaks off while most of what was typed last is unread.
    Host {
        at: 1,
        steps: &[
            Step::IsJoined(INIT),
            Step::Hears(ASK_NEW),
            Step::Update(5),
            Step::Hears(b"\x05"),
        ],
    },
    Host {
        at: 2,
        steps: &[
            Step::IsJoined(INIT),
            Step::Hears(ASK_NEW),
            Step::Update(6),
            Step::Hears(TYPED_6),
            Step::Update(7),
            Step::Hears(TYPED_7),
            Step::ShutsDown,
            Step::IsLetGo,
        ],
    },
    // The first host again, as the fourth that is joined.
    Host {
        at: 0,
        steps: &[
            Step::IsJoined(INIT),
            Step::Hears(ASK_NEW),
            Step::Update(8),
            Step::Hears(TYPED_8),
            Step::ShutsDown,
            Step::IsLetGo,
        ],
    },
];

/// The viewer keeps its connection from one host to the next, and is shown what each sends.
const SCENES: &[Scene] = &[
    // Hosts that aren't there are passed over, and the others are met in their order. The second breaks off. The hosts
    // are told each byte that full control types, and none that is typed in vain. The run ends without a fault, with
    // the last host.
    Scene {
        name: "viewers type from host to host",
        words: "--host 127.0.0.1:|first| 127.0.0.1:|nobody| 127.0.0.1:|second| 127.0.0.1:|nobody| 127.0.0.1:|nobody| 127.0.0.1:|third| 127.0.0.1:|first|",
        is_taken: false,
        hosts: HOSTS,
        full: &[Visit {
            start: VisitStart::IsGreeted,
            steps: TYPES,
            told: None,
        }],
        view: &[Visit {
            start: VisitStart::IsGreeted,
            steps: TYPES_IN_VAIN,
            told: None,
        }],
        status: 0,
        lines: &[],
    },
    // The host ends and comes back a second later. A fault of it ends the run.
    Scene {
        name: "a viewer stays until the host is back",
        words: "--again 1 --host 127.0.0.1:|first|",
        is_taken: false,
        hosts: &[
            Host {
                at: 0,
                steps: &[
                    Step::IsJoined(INIT),
                    Step::Updates(1, 1),
                    Step::ShutsDown,
                    Step::SeesItGo,
                ],
            },
            Host {
                at: 0,
                steps: &[
                    Step::IsJoined(INIT),
                    Step::Updates(2, 2),
                    Step::Sends(b"\xFF"),
                    Step::SeesItGo,
                ],
            },
        ],
        full: &[Visit {
            start: VisitStart::IsGreeted,
            steps: &[&[
                Step::Hears(INIT),
                Step::IsClosedBeside,
                Step::IsShown(1),
                Step::Marks(Count::Shown, 1),
                Step::IsShown(2),
                Step::Marks(Count::Shown, 2),
            ]],
            told: None,
        }],
        view: &[],
        status: FAULT,
        lines: &[
            "fault 6",
            "reflectord: the host 127.0.0.1:|first|: unknown message type 255: ",
        ],
    },
];

#[test]
fn viewer_stays_while_hosts_change(rt: HostRuntime) -> Result<(), Fail> {
    play_all(rt, rt.alloc(), SCENES)
}
