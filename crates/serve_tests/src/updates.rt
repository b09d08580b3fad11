//! Updates that reach a viewer.

use crate::hosts::Host;
use crate::loopback::RED_AND_BLUE;
use crate::room::Count;
use crate::scene::{Scene, play_all};
use crate::steps::{ASK, ASK_NEW, BLACK, INIT, Step};
use crate::visits::{Visit, VisitStart};
use std::test::*;

/// The host ends once its updates were shown, and `serve` ends with it, without a fault.
const SCENES: &[Scene] = &[
    Scene {
        name: "a viewer is greeted, and its answer is the host's update",
        words: "--host 127.0.0.1:|first|",
        is_taken: false,
        hosts: &[Host {
            at: 0,
            steps: &[
                Step::IsJoined(INIT),
                Step::Sends(RED_AND_BLUE),
                Step::Hears(ASK_NEW),
                Step::Reaches(Count::Shown, 1),
            ],
        }],
        full: &[Visit {
            start: VisitStart::IsGreeted,
            steps: &[&[
                Step::Hears(INIT),
                Step::IsClosedBeside,
                Step::AsksUntil(ASK, BLACK, RED_AND_BLUE),
                Step::Marks(Count::Shown, 1),
            ]],
            told: None,
        }],
        view: &[],
        status: 0,
        lines: &[],
    },
    // A wake-up that is lost would be seen after a read's longest wait.
    Scene {
        name: "a thousand updates each reach a viewer that asks for what is new",
        words: "--host 127.0.0.1:|first|",
        is_taken: false,
        hosts: &[Host {
            at: 0,
            steps: &[Step::IsJoined(INIT), Step::Updates(1, 1_000)],
        }],
        full: &[Visit {
            start: VisitStart::IsGreeted,
            steps: &[&[
                Step::Hears(INIT),
                Step::IsClosedBeside,
                Step::IsShown(1),
                Step::Marks(Count::Shown, 1),
                Step::Follows(2, 1_000),
            ]],
            told: None,
        }],
        view: &[],
        status: 0,
        lines: &[],
    },
];

#[test]
fn updates_reach_a_viewer(rt: HostRuntime) -> Result<(), Fail> {
    play_all(rt, rt.alloc(), SCENES)
}
