//! A host that ends while a place of each role waits for news, and the host's writer for something to tell.

use crate::hosts::Host;
use crate::room::Count;
use crate::scene::{Scene, play_all};
use crate::steps::{INIT, Step};
use crate::visits::{ASKS_IN_VAIN, Visit, VisitStart};
use std::test::*;

/// A viewer asks for what is new of a black screen, where nothing is new, and is let go without a byte. A read that
/// lasts too long is an error, so a place that isn't told of the end shows.
const IS_LET_GO: &[Visit] = &[Visit {
    start: VisitStart::IsGreeted,
    steps: &[&[Step::Hears(INIT), Step::IsClosedBeside], ASKS_IN_VAIN],
    told: None,
}];

const SCENES: &[Scene] = &[
    Scene {
        name: "the end of a host lets both viewers go",
        words: "--host 127.0.0.1:|first|",
        is_taken: false,
        hosts: &[Host {
            at: 0,
            steps: &[
                Step::IsJoined(INIT),
                Step::Reaches(Count::Shown, 2),
                Step::IsQuiet,
            ],
        }],
        full: IS_LET_GO,
        view: IS_LET_GO,
        status: 0,
        lines: &[],
    },
    // This run opens no port with full control. Another program has that port, and the address for it is another
    // machine's.
    Scene {
        name: "the end of a host lets the one go that looks on where there is no other",
        words: "--view-only --full-bind 192.0.2.1 --host 127.0.0.1:|first|",
        is_taken: true,
        hosts: &[Host {
            at: 0,
            steps: &[
                Step::IsJoined(INIT),
                Step::Reaches(Count::Shown, 1),
                Step::IsQuiet,
            ],
        }],
        full: &[],
        view: IS_LET_GO,
        status: 0,
        lines: &[],
    },
];

/// The end of a host ends the wait of each place, so that its viewer is let go, and that of the writer, for which
/// `serve` waits.
#[test]
fn end_of_a_host_ends_each_wait(rt: HostRuntime) -> Result<(), Fail> {
    play_all(rt, rt.alloc(), SCENES)
}
