//! Hosts by their names, words that name no host, and a first host that isn't there yet.

use crate::hosts::Host;
use crate::loopback::VERSION;
use crate::refusals::NO_HOST;
use crate::room::Count;
use crate::scene::{FAULT, Scene, play_all};
use crate::steps::{INIT, Step};
use crate::visits::{Visit, VisitStart};
use std::test::*;

/// Longer than the time, in seconds, after which the log tells again of hosts that still aren't there.
const A_MINUTE: u64 = 61;

/// The host is at no address, and then at another machine's, on which nothing listens. Tries that fail are told once,
/// and once more after a minute. Then the name has the right address, and the host is met.
const COMES_EARLY: &[Step] = &[
    Step::Sends(VERSION),
    Step::IsRefused(NO_HOST),
    Step::Reaches(Count::Lookups, 3),
    Step::Marks(Count::Home, 2),
    Step::IsNotTold("address=127.0.0.2"),
    Step::PutsForward(A_MINUTE),
    Step::IsTold("address=127.0.0.2"),
    Step::Marks(Count::Home, 1),
    Step::IsTold("host-joined"),
];

const SCENES: &[Scene] = &[
    Scene {
        name: "a host is met by its name",
        words: "--host localhost:|first|",
        is_taken: false,
        hosts: &[Host {
            at: 0,
            steps: &[Step::IsJoined(INIT), Step::Updates(1, 1)],
        }],
        full: &[Visit {
            start: VisitStart::IsGreeted,
            steps: &[&[
                Step::Hears(INIT),
                Step::IsClosedBeside,
                Step::IsShown(1),
                Step::Marks(Count::Shown, 1),
            ]],
            told: None,
        }],
        view: &[],
        status: 0,
        lines: &[],
    },
    // Its name has no address at first, then another machine's, and then its own.
    Scene {
        name: "a first host that comes late is met, and viewers before it are told that there is none",
        words: "--log --again 1 --host desk:|first|",
        is_taken: false,
        hosts: &[Host {
            at: 0,
            steps: &[
                Step::IsJoined(INIT),
                Step::Update(1),
                Step::IsTold("viewer-out "),
                Step::Sends(b"\xFF"),
                Step::SeesItGo,
            ],
        }],
        full: &[
            Visit {
                start: VisitStart::Connects,
                steps: &[COMES_EARLY],
                told: None,
            },
            Visit {
                start: VisitStart::HasPlace(NO_HOST),
                steps: &[&[Step::IsGreeted(INIT)]],
                told: Some(" answers=0 bytes=43 why=\"ended\""),
            },
        ],
        view: &[],
        status: FAULT,
        lines: &[
            "listening role=full address=127.0.0.1:|full| places=1",
            "listening role=view address=127.0.0.1:|view| places=1",
            "host-tried address=desk:|first| why=\"no address\"",
            "host-tried address=127.0.0.2:|first| why=\"connection refused\"",
            "host-joined address=127.0.0.1:|first| width=2 height=1 name=\"T\"",
            "host-out address=127.0.0.1:|first| why=\"fault 6: unknown message type 255\"",
            "fault 6",
            "reflectord: the host desk:|first|: unknown message type 255: ",
        ],
    },
    Scene {
        name: "a name without an address",
        words: "--host desk:|first|",
        is_taken: false,
        hosts: &[],
        full: &[],
        view: &[],
        status: FAULT,
        lines: &[
            "fault 21",
            "reflectord: there is no address for the host desk:|first|: ",
        ],
    },
    // The host is at the fifth of its addresses, of which four are tried.
    Scene {
        name: "a name of five addresses",
        words: "--log --host desks:|first|",
        is_taken: false,
        hosts: &[],
        full: &[],
        view: &[],
        status: FAULT,
        lines: &[
            "listening role=full address=127.0.0.1:|full| places=1",
            "listening role=view address=127.0.0.1:|view| places=1",
            "host-tried address=127.0.0.2:|first| why=\"connection refused\"",
            "fault 21",
            "reflectord: can't connect to the host desks:|first|: ",
        ],
    },
    Scene {
        name: "a text that says nowhere where a host is",
        words: "--again 1 --host 127.0.0.1::5907",
        is_taken: false,
        hosts: &[],
        full: &[],
        view: &[],
        status: FAULT,
        lines: &[
            "fault 21",
            "reflectord: --host 127.0.0.1::5907 is no IP:PORT, no NAME:PORT, no listen:IP:PORT and no file:PATH, ",
        ],
    },
    Scene {
        name: "a further one that says nowhere",
        words: "--again 1 --host 127.0.0.1:9 desk",
        is_taken: false,
        hosts: &[],
        full: &[],
        view: &[],
        status: FAULT,
        lines: &[
            "fault 21",
            "reflectord: desk is no IP:PORT, no NAME:PORT, no listen:IP:PORT and no file:PATH, ",
        ],
    },
];

#[test]
fn hosts_are_met_by_their_names(rt: HostRuntime) -> Result<(), Fail> {
    play_all(rt, rt.alloc(), SCENES)
}
