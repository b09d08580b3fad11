//! The form in which `serve` answers a viewer that takes Hextile: joined runs, or with `--plain-runs` the runs of rows.

use crate::hosts::Host;
use crate::loopback::VERSION;
use crate::room::Count;
use crate::scene::{Scene, play_all};
use crate::steps::Step;
use crate::visits::{Visit, VisitStart};
use std::test::*;

/// The screen is 8 by 3, of 32 bits a pixel, named T (RFC 6143, 7.3.2 and 7.4).
const INIT: &[u8] = b"\0\x08\0\x03\x20\x18\0\x01\0\xFF\0\xFF\0\xFF\x10\x08\0\0\0\0\0\0\0\x01T";

/// What a joining client gives: its format, its five encodings, and a request for the whole screen (RFC 6143, 7.5.1 to
/// 7.5.3).
const ASKED: &[u8] = b"\0\0\0\0\x20\x18\0\x01\0\xFF\0\xFF\0\xFF\x10\x08\0\0\0\0\
      \x02\0\0\x05\0\0\0\x01\0\0\0\x05\0\0\0\x02\0\0\0\0\xFF\xFF\xFF\x21\
      \x03\0\0\0\0\0\0\x08\0\x03";

/// The whole screen in Hextile: a red pixel on blue (RFC 6143, 7.6.1 and 7.7.4).
const UPDATE: &[u8] = b"\0\0\0\x01\0\0\0\0\0\x08\0\x03\0\0\0\x05\x0E\xFF\0\0\0\0\0\xFF\0\x01\0\0";

/// A viewer lists Hextile, and asks for the whole screen (RFC 6143, 7.5.2 and 7.5.3).
const LIST: &[u8] = b"\x02\0\0\x01\0\0\0\x05";

const ASK: &[u8] = b"\x03\0\0\0\0\0\0\x08\0\x03";

/// The answer of a black screen: one tile of one colour, which is shorter than any other here.
const BLACK: &[u8] = b"\0\0\0\x01\0\0\0\0\0\x08\0\x03\0\0\0\x05\x02\0\0\0\0";

/// The answer of a red pixel on blue as joined runs. Blue is the background, which most pixels have, and the red pixel
/// a subrectangle.
const JOINED: &[u8] = b"\0\0\0\x01\0\0\0\0\0\x08\0\x03\0\0\0\x05\x0E\xFF\0\0\0\0\0\xFF\0\x01\0\0";

/// The answer of a red pixel on blue as the runs of rows. Red is the background, since it comes first, and each row has
/// a subrectangle: from 1, of 7, and two of 8.
const OF_ROWS: &[u8] =
    b"\0\0\0\x01\0\0\0\0\0\x08\0\x03\0\0\0\x05\x0E\0\0\xFF\0\xFF\0\0\0\x03\x10\x60\x01\x70\x02\x70";

/// The host gives its side of the handshake at once, and its client asks for what is new after the update. It closes
/// once the viewer was shown that.
const HOSTS: &[Host] = &[Host {
    at: 0,
    steps: &[
        Step::Sends(b"RFB 003.008\n\x01\x01\0\0\0\0"),
        Step::Hears(VERSION),
        Step::Hears(b"\x01\x01"),
        Step::Sends(INIT),
        Step::Hears(ASKED),
        Step::Sends(UPDATE),
        Step::Hears(b"\x03\x01\0\0\0\0\0\x08\0\x03"),
        Step::Reaches(Count::Shown, 1),
    ],
}];

const SCENES: &[Scene] = &[
    Scene {
        name: "joined runs",
        words: "--view-only --host 127.0.0.1:|first|",
        is_taken: false,
        hosts: HOSTS,
        full: &[],
        view: &[Visit {
            start: VisitStart::IsGreeted,
            steps: &[&[
                Step::Hears(INIT),
                Step::Sends(LIST),
                Step::AsksUntil(ASK, BLACK, JOINED),
                Step::Marks(Count::Shown, 1),
            ]],
            told: None,
        }],
        status: 0,
        lines: &[],
    },
    Scene {
        name: "the runs of rows",
        words: "--view-only --plain-runs --host 127.0.0.1:|first|",
        is_taken: false,
        hosts: HOSTS,
        full: &[],
        view: &[Visit {
            start: VisitStart::IsGreeted,
            steps: &[&[
                Step::Hears(INIT),
                Step::Sends(LIST),
                Step::AsksUntil(ASK, BLACK, OF_ROWS),
                Step::Marks(Count::Shown, 1),
            ]],
            told: None,
        }],
        status: 0,
        lines: &[],
    },
];

#[test]
fn answers_are_in_the_form_that_is_told(rt: HostRuntime) -> Result<(), Fail> {
    play_all(rt, rt.alloc(), SCENES)
}
