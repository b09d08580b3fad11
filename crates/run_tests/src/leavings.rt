//! A place whose viewers leave in each way, and one to which very many come.

use crate::board::Gate;
use crate::bytes::{ASK, HELLO, ONE, PRESS_97, TWO};
use crate::courses::SMALL;
use crate::ends::{Course, End};
use crate::peer::{Act, Key, Script, Taking};

/// Key 97 is released (RFC 6143, 7.5.4).
const RELEASE_97: &[u8] = b"\x04\0\0\0\0\0\0\x61";

/// Key 97 is pressed, and then released.
const KEYS: [[Key; 2]; 1] = [[[4, 1, 0, 0, 0, 0, 0, 97], [4, 0, 0, 0, 0, 0, 0, 97]]];

/// One viewer ends after its answer, two end inside a message and inside the handshake, three break the rules by what
/// isn't a version, by a type of security that wasn't offered and by a message that there isn't, and two have a link
/// that fails, as bytes are taken and inside an answer (RFC 6143, 7.1 and 7.5). No viewer comes before the one before
/// it was seen off, and each is seen off once. The last one types, is shown the second update, and stays until the host
/// has ended.
pub(crate) const EACH_LEAVES: Course = Course {
    name: "place_is_free_once_after_each_leaving",
    view: &SMALL,
    black: 0,
    places: &[&[
        Script {
            acts: &[Act::Says(HELLO), Act::AsksFor(1), Act::Ends],
            taking: Taking::Leaves(0),
        },
        Script {
            acts: &[Act::Says(HELLO), Act::Says(b"\x03\x01"), Act::Ends],
            taking: Taking::Leaves(22),
        },
        Script {
            acts: &[Act::Says(b"RFB 003.008\n"), Act::Ends],
            taking: Taking::Leaves(22),
        },
        Script {
            acts: &[Act::Says(b"RFC 003.008\n")],
            taking: Taking::Leaves(1),
        },
        Script {
            acts: &[Act::Says(b"RFB 003.008\n\x02")],
            taking: Taking::Leaves(13),
        },
        Script {
            acts: &[Act::Says(HELLO), Act::Says(b"\x07")],
            taking: Taking::Leaves(6),
        },
        Script {
            acts: &[Act::Says(HELLO), Act::Fails],
            taking: Taking::Leaves(21),
        },
        Script {
            acts: &[Act::Says(HELLO), Act::Says(ASK)],
            taking: Taking::Breaks,
        },
        Script {
            acts: &[
                Act::Says(HELLO),
                Act::Says(PRESS_97),
                Act::Says(RELEASE_97),
                Act::AsksFor(2),
            ],
            taking: Taking::AtOnce,
        },
    ]],
    again: 0,
    hosts: &[
        Script {
            acts: &[
                Act::Says(ONE),
                Act::Waits(Gate::Told(2)),
                Act::Says(TWO),
                Act::Waits(Gate::Shown(0, 2)),
                Act::Ends,
            ],
            taking: Taking::Told(Gate::Open, &[]),
        },
        Script {
            acts: &[Act::Ends],
            taking: Taking::Told(Gate::Open, &KEYS),
        },
    ],
    may_end: true,
    end: End {
        fault: 0,
        links: 1,
        last: 2,
        dropped: 0,
        left: 0,
    },
};

/// So many viewers come to one place, and leave once they were greeted, that a place which served only a thousand would
/// show nothing to the last one.
pub(crate) const VERY_MANY_COME: Course = Course {
    name: "place_serves_very_many",
    view: &SMALL,
    black: 0,
    places: &[&[
        Script {
            acts: &[Act::Says(HELLO), Act::Ends],
            taking: Taking::Leaves(0),
        },
        Script {
            acts: &[Act::Says(HELLO), Act::AsksFor(1)],
            taking: Taking::AtOnce,
        },
    ]],
    again: 1_099,
    hosts: &[
        Script {
            acts: &[Act::Says(ONE), Act::Waits(Gate::Shown(0, 1)), Act::Ends],
            taking: Taking::Told(Gate::Open, &[]),
        },
        Script {
            acts: &[Act::Ends],
            taking: Taking::Told(Gate::Open, &[]),
        },
    ],
    may_end: true,
    end: End {
        fault: 0,
        links: 1,
        last: 1,
        dropped: 0,
        left: 0,
    },
};
