//! What an operator asks of a run. A viewer is sent away with a key down, and the host is told that it is up again.

use crate::hosts::Host;
use crate::refusals::{NO_ENTRY, NO_HOST};
use crate::room::Count;
use crate::scene::{Scene, play_all};
use crate::steps::{INIT, Step};
use crate::visits::{Visit, VisitStart};
use std::test::*;

/// The answer to a request that was done.
const DONE: &[&str] = &["|done\n|"];

/// The key a goes down, and up again (RFC 6143, 7.5.4).
const KEY_DOWN: &[u8] = b"\x04\x01\0\0\0\0\0\x61";

const KEY_UP: &[u8] = b"\x04\0\0\0\0\0\0\x61";

/// A host that is told a key which goes down, and is left once it was told that it is up again.
const HOSTS: &[Host] = &[Host {
    at: 0,
    steps: &[
        Step::IsJoined(INIT),
        Step::Hears(KEY_DOWN),
        Step::Marks(Count::Asked, 1),
        Step::Hears(KEY_UP),
        Step::IsLetGo,
    ],
}];

/// With these options the first host is tried again, but not after a stop.
const WORDS: &str = "--log --again 1 --host 127.0.0.1:|first| --control control-|full|";

const LINES: &[&str] = &[
    "listening role=full address=127.0.0.1:|full| places=1",
    "listening role=view address=127.0.0.1:|view| places=1",
    "host-tried address=127.0.0.1:|first| why=\"connected\"",
    "host-joined address=127.0.0.1:|first| width=2 height=1 name=\"T\"",
    "host-out address=127.0.0.1:|first| why=\"stopped\"",
    "reflectord: there is no such place",
];

/// A viewer holds a key, and requests that change nothing for good are answered. A line that is too long is, too, at
/// once, though it hasn't ended. The program's own command asks, and prints what was done, and why something wasn't.
const IS_HEARD: &[Step] = &[
    Step::IsGreeted(INIT),
    Step::Sends(KEY_DOWN),
    Step::Reaches(Count::Asked, 1),
    Step::IsAnswered("drain\n", DONE),
    Step::IsAnswered(
        "state\n",
        &[
            "|entry drained\nplaces role=full places=1\nplaces role=view places=1\ninput waiting=0 dropped=0\nhost address=127.0.0.1:",
            " width=2 height=1 seconds=",
            " updates=0 name=\"T\"\n",
            " updates=0 bytes=43 behind=0 asked=no\n",
        ],
    ),
    Step::IsAnsweredOf("state\n", "viewer place=1 role=full address=", " seconds="),
    Step::IsAnswered("state json\n", &["\"entry\":\"drained\"", "\"behind\":0"]),
    Step::IsAnsweredOf("state json\n", "\"address\":\"", "\""),
    Step::IsAnswered("undrain\n", DONE),
    Step::IsAnswered("end 2\n", &["|error: the place has no viewer\n|"]),
    Step::IsAnswered("end 3\n", &["|error: there is no such place\n|"]),
    Step::IsAnswered("begin\n", &["error: no request"]),
    Step::IsAnswered(
        "end 11111111111111111111111111111111111111111111111111111111111111111111111111111111111111111111",
        &["|error: no request"],
    ),
    Step::IsDone("undrain", 0),
    Step::HasSaid("done\n"),
    Step::IsDone("end 9", 1),
];

const SCENES: &[Scene] = &[
    Scene {
        name: "a stop sends viewers away and ends the run well",
        words: WORDS,
        is_taken: false,
        hosts: HOSTS,
        full: &[Visit {
            start: VisitStart::HasPlace(NO_HOST),
            steps: &[
                IS_HEARD,
                &[
                    Step::IsAnswered("stop\n", DONE),
                    Step::IsLetGo,
                    Step::Removes,
                ],
            ],
            told: Some(" answers=0 bytes=43 why=\"sent away\""),
        }],
        view: &[],
        status: 0,
        lines: LINES,
    },
    Scene {
        name: "an end sends one viewer away, and a drained door lets nobody in",
        words: WORDS,
        is_taken: false,
        hosts: HOSTS,
        full: &[Visit {
            start: VisitStart::HasPlace(NO_HOST),
            steps: &[
                IS_HEARD,
                &[
                    Step::IsAnswered("end 1\n", DONE),
                    Step::IsAnswered("drain\n", DONE),
                    Step::AnotherIsRefused(NO_ENTRY),
                    Step::IsAnswered("stop\n", DONE),
                    Step::IsLetGo,
                    Step::Removes,
                ],
            ],
            told: Some(" answers=0 bytes=43 why=\"sent away\""),
        }],
        view: &[],
        status: 0,
        lines: LINES,
    },
];

#[test]
fn operator_is_heard(rt: HostRuntime) -> Result<(), Fail> {
    play_all(rt, rt.alloc(), SCENES)
}
