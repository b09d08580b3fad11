//! The runs that are played.

use crate::board::Gate;
use crate::bytes::{
    ASK, GREETING, HELLO, ONE, OUTGROWS, PRESS_97, PRESS_98, THREE, TWO, UNKNOWN, WELCOME, WIDER,
};
use crate::dead_links::{GOES_ON, IS_LEFT};
use crate::ends::{Course, End, goes_right};
use crate::leavings::{EACH_LEAVES, VERY_MANY_COME};
use crate::painted::PAINTED;
use crate::peer::{Act, Key, Script, Taking};
use crate::picture::Picture;
use crate::sight::View;
use std::test::*;

/// The relay hasn't room for this many key events.
const MANY: u64 = 300;

/// Key 65 is pressed and released: 300 key events.
const MANY_KEYS: [[Key; 2]; 150] = [[[4, 1, 0, 0, 0, 0, 0, 65], [4, 0, 0, 0, 0, 0, 0, 65]]; 150];

/// Keys 97 and 98 are pressed and released.
const TWO_KEYS: [[Key; 2]; 2] = [
    KEY_97,
    [[4, 1, 0, 0, 0, 0, 0, 98], [4, 0, 0, 0, 0, 0, 0, 98]],
];

/// Key 97 alone.
const KEY_97: [Key; 2] = [[4, 1, 0, 0, 0, 0, 0, 97], [4, 0, 0, 0, 0, 0, 0, 97]];

/// The number of the update that turns the screen black, where another host comes.
const BLACK: u64 = 2;

/// The screen of 2 by 1.
pub(crate) const SMALL: View = View {
    w: 2,
    h: 1,
    greeting: GREETING,
    picture: Picture::Plain,
    updates: 3,
};

/// Asks until it was shown the third update.
const TO_THREE: &[Act] = &[Act::Says(HELLO), Act::AsksFor(3)];

/// A viewer that asks until it was shown the third update, and takes all at once.
const AT_ONCE: Script = Script {
    acts: TO_THREE,
    taking: Taking::AtOnce,
};

/// A viewer that asks until it was shown the third update, but takes nothing until the first viewer was shown that.
const STALLED: Script = Script {
    acts: TO_THREE,
    taking: Taking::Stalls(Gate::Shown(0, 3)),
};

/// A viewer that asks until it was shown the third update, whose `give` doesn't return until the first viewer was shown
/// that.
const HELD: Script = Script {
    acts: TO_THREE,
    taking: Taking::Held(Gate::Shown(0, 3)),
};

/// A viewer that asks all along.
const WATCHES: Script = Script {
    acts: &[Act::Says(HELLO), Act::AsksFor(9)],
    taking: Taking::AtOnce,
};

/// The end of a host that is told. It wants no key event.
pub(crate) const IS_TOLD: Script = Script {
    acts: &[Act::Ends],
    taking: Taking::Told(Gate::Open, &[]),
};

/// The end that is read, of a host that ends once the viewer was shown its one update.
const SENDS_ONE: Script = Script {
    acts: &[Act::Says(ONE), Act::Waits(Gate::Shown(0, 1)), Act::Ends],
    taking: Taking::Told(Gate::Open, &[]),
};

/// The end that is read, of a host that sends three updates, and ends once all viewers were shown the third.
const SENDS_THREE: Script = Script {
    acts: &[
        Act::Says(ONE),
        Act::Says(TWO),
        Act::Says(THREE),
        Act::Waits(Gate::All(3)),
        Act::Ends,
    ],
    taking: Taking::Told(Gate::Open, &[]),
};

/// Hosts that can't be joined (RFC 6143, 7.1.1 to 7.1.3): one that ends, a handshake that is ended as failed, no type
/// None, a refusal for the reason N, and another version.
const ENDS: Script = Script {
    acts: &[Act::Says(b"RFB"), Act::Ends],
    taking: Taking::Joins,
};

const FAILS: Script = Script {
    acts: &[Act::Says(b"RFB 003.008\n\x01\x01\0\0\0\x01"), Act::Ends],
    taking: Taking::Joins,
};

const OFFERS_NO_NONE: Script = Script {
    acts: &[Act::Says(b"RFB 003.008\n\x01\x02"), Act::Ends],
    taking: Taking::Joins,
};

const REFUSES: Script = Script {
    acts: &[Act::Says(b"RFB 003.008\n\0\0\0\0\x01N"), Act::Ends],
    taking: Taking::Joins,
};

const IS_OLD: Script = Script {
    acts: &[Act::Says(b"RFB 003.003\n"), Act::Ends],
    taking: Taking::Joins,
};

/// A viewer whose `give` doesn't return until another was shown the third update holds neither that one nor the host.
const HELD_VIEWER: Course = Course {
    name: "held_viewer_holds_nobody",
    view: &SMALL,
    black: 0,
    places: &[&[AT_ONCE], &[HELD], &[AT_ONCE], &[AT_ONCE]],
    again: 0,
    hosts: &[SENDS_THREE, IS_TOLD],
    may_end: true,
    end: End {
        fault: 0,
        links: 1,
        last: 3,
        dropped: 0,
        left: 0,
    },
};

/// Three viewers that take nothing until the first was shown the third update are shown it then.
const STALLED_VIEWERS: Course = Course {
    name: "stalled_viewers_catch_up",
    view: &SMALL,
    black: 0,
    places: &[&[AT_ONCE], &[STALLED], &[STALLED], &[STALLED]],
    again: 0,
    hosts: &[SENDS_THREE, IS_TOLD],
    may_end: true,
    end: End {
        fault: 0,
        links: 1,
        last: 3,
        dropped: 0,
        left: 0,
    },
};

/// A relay that is full holds no update, and loses no input. A viewer that was shown the first update asks once more,
/// and then hands out 300 key events. The host takes none of them until the viewer was shown the second update, which
/// it sends once 257 were handed out.
const FULL_RELAY: Course = Course {
    name: "full_relay_holds_no_update",
    view: &SMALL,
    black: 0,
    places: &[&[Script {
        acts: &[
            Act::Says(HELLO),
            Act::AsksFor(1),
            Act::Says(ASK),
            Act::Types(MANY),
        ],
        taking: Taking::AtOnce,
    }]],
    again: 0,
    hosts: &[
        Script {
            acts: &[
                Act::Says(ONE),
                Act::Waits(Gate::Handed(257)),
                Act::Says(TWO),
                Act::Waits(Gate::Told(MANY)),
                Act::Ends,
            ],
            taking: Taking::Told(Gate::Open, &[]),
        },
        Script {
            acts: &[Act::Ends],
            taking: Taking::Told(Gate::Shown(0, 2), &MANY_KEYS),
        },
    ],
    may_end: true,
    end: End {
        fault: 0,
        links: 1,
        last: 2,
        dropped: 0,
        left: 0,
    },
};

/// The first viewer of a place presses key 97, and its link fails inside an answer. The second presses key 98 and ends.
/// What the first held down is released, and the second begins anew.
const PLACE_AGAIN: Course = Course {
    name: "place_is_used_again",
    view: &SMALL,
    black: 0,
    places: &[&[
        Script {
            acts: &[Act::Says(HELLO), Act::Says(PRESS_97), Act::AsksFor(1)],
            taking: Taking::Breaks,
        },
        Script {
            acts: &[Act::Says(HELLO), Act::Says(PRESS_98), Act::Ends],
            taking: Taking::AtOnce,
        },
    ]],
    again: 0,
    hosts: &[
        Script {
            acts: &[Act::Says(ONE), Act::Waits(Gate::Told(4)), Act::Ends],
            taking: Taking::Told(Gate::Open, &[]),
        },
        Script {
            acts: &[Act::Ends],
            taking: Taking::Told(Gate::Open, &TWO_KEYS),
        },
    ],
    may_end: true,
    end: End {
        fault: 0,
        links: 1,
        last: 1,
        dropped: 0,
        left: 0,
    },
};

/// The first place holds key 97 down. Meanwhile the second one's first viewer presses key 98 and leaves, so that it is
/// released: neither is told. Once that place's second viewer was shown the update, key 97 is released.
const STROKE_IS_KEPT: Course = Course {
    name: "what_breaks_into_a_stroke_is_dropped",
    view: &SMALL,
    black: 0,
    places: &[
        &[Script {
            acts: &[
                Act::Says(HELLO),
                Act::Says(PRESS_97),
                Act::Waits(Gate::Shown(1, 1)),
                Act::Ends,
            ],
            taking: Taking::AtOnce,
        }],
        &[
            Script {
                acts: &[
                    Act::Says(HELLO),
                    Act::Waits(Gate::Told(1)),
                    Act::Says(PRESS_98),
                    Act::Ends,
                ],
                taking: Taking::AtOnce,
            },
            Script {
                acts: &[Act::Says(HELLO), Act::AsksFor(1)],
                taking: Taking::AtOnce,
            },
        ],
    ],
    again: 0,
    hosts: &[
        Script {
            acts: &[Act::Says(ONE), Act::Waits(Gate::Told(2)), Act::Ends],
            taking: Taking::Told(Gate::Open, &[]),
        },
        Script {
            acts: &[Act::Ends],
            taking: Taking::Told(Gate::Open, &[KEY_97]),
        },
    ],
    may_end: true,
    end: End {
        fault: 0,
        links: 1,
        last: 1,
        dropped: 2,
        left: 0,
    },
};

/// A first host ends once the viewer was shown its one update. Hosts that can't be joined are passed over, and so is
/// one that is a column wider than the room: it turns nothing black. One that fits sends one update, and tells a wider
/// size once that was shown. It is left, and since no host is left then, its fault ends the run. The viewer sees
/// numbers that don't fall, none above 3.
const WIDER_HOSTS: Course = Course {
    name: "wider_hosts_are_passed_over_or_left",
    view: &SMALL,
    black: BLACK,
    places: &[&[WATCHES]],
    again: 0,
    hosts: &[
        SENDS_ONE,
        IS_TOLD,
        ENDS,
        IS_TOLD,
        FAILS,
        IS_TOLD,
        OFFERS_NO_NONE,
        IS_TOLD,
        REFUSES,
        IS_TOLD,
        IS_OLD,
        IS_TOLD,
        Script {
            acts: &[Act::Says(WIDER), Act::Ends],
            taking: Taking::Joins,
        },
        IS_TOLD,
        Script {
            acts: &[
                Act::Says(WELCOME),
                Act::Waits(Gate::Shown(0, 2)),
                Act::Says(THREE),
                Act::Waits(Gate::Shown(0, 3)),
                Act::Says(OUTGROWS),
                Act::Ends,
            ],
            taking: Taking::Joins,
        },
        IS_TOLD,
    ],
    may_end: true,
    end: End {
        fault: 5,
        links: 2,
        last: 3,
        dropped: 0,
        left: 0,
    },
};

/// The first host sends an update, and then one of an encoding that wasn't asked for: a fault of its bytes ends the
/// run. Another host would be there.
const HOST_AT_FAULT: Course = Course {
    name: "fault_takes_no_next_host",
    view: &SMALL,
    black: BLACK,
    places: &[&[WATCHES]],
    again: 0,
    hosts: &[
        Script {
            acts: &[
                Act::Says(ONE),
                Act::Waits(Gate::Shown(0, 1)),
                Act::Says(UNKNOWN),
                Act::Ends,
            ],
            taking: Taking::Told(Gate::Open, &[]),
        },
        IS_TOLD,
        Script {
            acts: &[Act::Says(WELCOME), Act::Says(THREE), Act::Ends],
            taking: Taking::Joins,
        },
        IS_TOLD,
    ],
    may_end: false,
    end: End {
        fault: 8,
        links: 1,
        last: 1,
        dropped: 0,
        left: 0,
    },
};

/// The first host ends, and the only other one inside its handshake. With no host left the run ends with the last
/// answer, and the screen stays as it was.
const NO_HOST_LEFT: Course = Course {
    name: "last_answer_ends_the_run",
    view: &SMALL,
    black: BLACK,
    places: &[&[WATCHES]],
    again: 0,
    hosts: &[SENDS_ONE, IS_TOLD, ENDS, IS_TOLD],
    may_end: true,
    end: End {
        fault: 22,
        links: 1,
        last: 1,
        dropped: 0,
        left: 0,
    },
};

/// Runs in which viewers and hosts come, stay and go.
static COURSES: [Course; 9] = [
    HELD_VIEWER,
    STALLED_VIEWERS,
    FULL_RELAY,
    PLACE_AGAIN,
    STROKE_IS_KEPT,
    WIDER_HOSTS,
    HOST_AT_FAULT,
    NO_HOST_LEFT,
    PAINTED,
];

/// Runs in which links fail while input is told, viewers leave in each way, and very many come.
static FAILURES: [Course; 4] = [GOES_ON, IS_LEFT, EACH_LEAVES, VERY_MANY_COME];

/// Each of the runs goes as it should. The first that doesn't is named.
#[test]
fn runs_go_right(rt: HostRuntime) -> Result<(), Fail> {
    for course in &COURSES {
        if !goes_right(rt, rt.alloc(), course)? {
            return Err(Fail::new(course.name));
        }
    }
    Ok(())
}

/// Each of these, too.
#[test]
fn runs_with_failures_go_right(rt: HostRuntime) -> Result<(), Fail> {
    for course in &FAILURES {
        if !goes_right(rt, rt.alloc(), course)? {
            return Err(Fail::new(course.name));
        }
    }
    Ok(())
}
