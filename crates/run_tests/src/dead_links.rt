//! A host's link that fails while input is told.

use crate::board::Gate;
use crate::bytes::{HELLO, ONE, PRESS_97, THREE, WELCOME};
use crate::courses::SMALL;
use crate::ends::{Course, End};
use crate::peer::{Act, Key, Script, Taking};

/// Keys 97 and 98 are pressed and released (RFC 6143, 7.5.4).
const KEYS: [[Key; 2]; 2] = [
    [[4, 1, 0, 0, 0, 0, 0, 97], [4, 0, 0, 0, 0, 0, 0, 97]],
    [[4, 1, 0, 0, 0, 0, 0, 98], [4, 0, 0, 0, 0, 0, 0, 98]],
];

/// What follows the press of key 97: its release, and the press and release of key 98.
const OTHERS: &[u8] = b"\x04\0\0\0\0\0\0\x61\x04\x01\0\0\0\0\0\x62\x04\0\0\0\0\0\0\x62";

/// The first host's link fails as the first of four key events is told: nothing more is told over it. The host ends
/// after that. The next host is told the three others, and is asked for the screen.
pub(crate) const GOES_ON: Course = Course {
    name: "input_goes_on_to_the_next_host",
    view: &SMALL,
    black: 2,
    places: &[&[Script {
        acts: &[
            Act::Says(HELLO),
            Act::AsksFor(1),
            Act::Says(PRESS_97),
            Act::Says(OTHERS),
            Act::AsksFor(3),
        ],
        taking: Taking::AtOnce,
    }]],
    again: 0,
    hosts: &[
        Script {
            acts: &[Act::Says(ONE), Act::Waits(Gate::Told(1)), Act::Ends],
            taking: Taking::Told(Gate::Open, &[]),
        },
        Script {
            acts: &[Act::Ends],
            taking: Taking::FailsAt(&KEYS),
        },
        Script {
            acts: &[
                Act::Says(WELCOME),
                Act::Says(THREE),
                Act::Waits(Gate::Shown(0, 3)),
                Act::Waits(Gate::Told(4)),
                Act::Ends,
            ],
            taking: Taking::Joins,
        },
        Script {
            acts: &[Act::Ends],
            taking: Taking::Told(Gate::Open, &KEYS),
        },
    ],
    may_end: true,
    end: End {
        fault: 0,
        links: 2,
        last: 3,
        dropped: 0,
        left: 0,
    },
};

/// The only host's link fails as the press of key 97 is told, and the host ends. The key is released as its viewer is
/// left, and that release is never taken.
pub(crate) const IS_LEFT: Course = Course {
    name: "input_is_left_at_the_end",
    view: &SMALL,
    black: 0,
    places: &[&[Script {
        acts: &[Act::Says(HELLO), Act::AsksFor(1), Act::Says(PRESS_97)],
        taking: Taking::AtOnce,
    }]],
    again: 0,
    hosts: &[
        Script {
            acts: &[Act::Says(ONE), Act::Waits(Gate::Told(1)), Act::Ends],
            taking: Taking::Told(Gate::Open, &[]),
        },
        Script {
            acts: &[Act::Ends],
            taking: Taking::FailsAt(&KEYS),
        },
    ],
    may_end: true,
    end: End {
        fault: 0,
        links: 1,
        last: 1,
        dropped: 0,
        left: 1,
    },
};
