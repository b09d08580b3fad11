//! A screen of 34 by 33, of three rows of three tiles, and four viewers that follow it, each in its own format and
//! encodings: one in 32 bits and Raw, two in 16 bits, and one in 8 bits, which asks for a part. The first four updates
//! are shown one by one, so that each viewer is answered after each; the others come at once.

use crate::board::Gate;
use crate::bytes::HELLO;
use crate::courses::IS_TOLD;
use crate::ends::{Course, End};
use crate::follower::{Area, CameEncodings, Format};
use crate::peer::{Act, Script, Taking};
use crate::picture::{Paint, Picture};
use crate::sight::{Sight, View};

/// What the host's updates paint: of each rectangle the update, the place and size, and the colour.
const PAINTS: [Paint; 10] = [
    [1, 0, 0, 34, 33, 0x4060C0],
    [2, 0, 0, 34, 32, 0xE0C020],
    [3, 3, 2, 5, 4, 0x20A040],
    [3, 20, 18, 9, 9, 0xFFFFFF],
    [4, 0, 0, 8, 8, 0xC02060],
    [4, 4, 4, 8, 8, 0x0000FF],
    [4, 10, 2, 3, 11, 0x80E0E0],
    [5, 8, 10, 6, 6, 0xFF8000],
    [6, 12, 12, 10, 3, 0x008000],
    [7, 6, 20, 12, 5, 0xA000A0],
];

/// What the host paints, as its messages: each rectangle comes in RRE, as a background with nothing on it (RFC 6143,
/// 7.6.1 and 7.7.3).
const ONE: &[u8] = b"\x00\x00\x00\x01\
    \x00\x00\x00\x00\x00\x22\x00\x21\x00\x00\x00\x02\x00\x00\x00\x00\xc0\x60\x40\x00";

const TWO: &[u8] = b"\x00\x00\x00\x01\
    \x00\x00\x00\x00\x00\x22\x00\x20\x00\x00\x00\x02\x00\x00\x00\x00\x20\xc0\xe0\x00";

const THREE: &[u8] = b"\x00\x00\x00\x02\
    \x00\x03\x00\x02\x00\x05\x00\x04\x00\x00\x00\x02\x00\x00\x00\x00\x40\xa0\x20\x00\
    \x00\x14\x00\x12\x00\x09\x00\x09\x00\x00\x00\x02\x00\x00\x00\x00\xff\xff\xff\x00";

const FOUR: &[u8] = b"\x00\x00\x00\x03\
    \x00\x00\x00\x00\x00\x08\x00\x08\x00\x00\x00\x02\x00\x00\x00\x00\x60\x20\xc0\x00\
    \x00\x04\x00\x04\x00\x08\x00\x08\x00\x00\x00\x02\x00\x00\x00\x00\xff\x00\x00\x00\
    \x00\x0a\x00\x02\x00\x03\x00\x0b\x00\x00\x00\x02\x00\x00\x00\x00\xe0\xe0\x80\x00";

const FIVE: &[u8] = b"\x00\x00\x00\x01\
    \x00\x08\x00\x0a\x00\x06\x00\x06\x00\x00\x00\x02\x00\x00\x00\x00\x00\x80\xff\x00";

const SIX: &[u8] = b"\x00\x00\x00\x01\
    \x00\x0c\x00\x0c\x00\x0a\x00\x03\x00\x00\x00\x02\x00\x00\x00\x00\x00\x80\x00\x00";

const SEVEN: &[u8] = b"\x00\x00\x00\x01\
    \x00\x06\x00\x14\x00\x0c\x00\x05\x00\x00\x00\x02\x00\x00\x00\x00\xa0\x00\xa0\x00";

/// What a viewer is greeted with: the greeting of the screen of 2 by 1, except for the size.
const GREETING: &[u8] =
    b"RFB 003.008\n\x01\x01\0\0\0\0\0\x22\0\x21\x20\x18\0\x01\0\xFF\0\xFF\0\xFF\x10\x08\0\0\0\0\0\0\0\x01T";

/// The screen.
const SCREEN: View = View {
    w: 34,
    h: 33,
    greeting: GREETING,
    picture: Picture::Painted(&PAINTS),
    updates: 7,
};

/// Asks for what is new of the whole screen, and of a part of it (7.5.3).
const ALL: &[u8] = b"\x03\x01\x00\x00\x00\x00\x00\x22\x00\x21";

const PART: &[u8] = b"\x03\x01\x00\x05\x00\x03\x00\x14\x00\x19";

/// 32 bits as they come, in Raw.
const TRUE_COLOUR: Script = Script {
    acts: &[Act::Says(HELLO), Act::Requests(ALL, 7)],
    taking: Taking::Follows(&Sight {
        format: Format {
            bytes: 4,
            is_big: false,
            maxima: [255, 255, 255],
            shifts: [16, 8, 0],
        },
        area: Area {
            x: 0,
            y: 0,
            w: 34,
            h: 33,
        },
        encodings: CameEncodings {
            raw: true,
            ..CameEncodings::NONE
        },
    }),
};

const HIGH_COLOUR_SETS: &[u8] =
    b"\x00\x00\x00\x00\x10\x10\x01\x01\x00\x1f\x00\x3f\x00\x1f\x0b\x05\x00\x00\x00\x00\
    \x02\x00\x00\x02\x00\x00\x00\x01\x00\x00\x00\x02";

/// 16 bits, the highest byte first, of 5, 6 and 5 bits; CopyRect and RRE.
const HIGH_COLOUR: Script = Script {
    acts: &[
        Act::Says(HELLO),
        Act::Says(HIGH_COLOUR_SETS),
        Act::Requests(ALL, 7),
    ],
    taking: Taking::Follows(&Sight {
        format: Format {
            bytes: 2,
            is_big: true,
            maxima: [31, 63, 31],
            shifts: [11, 5, 0],
        },
        area: Area {
            x: 0,
            y: 0,
            w: 34,
            h: 33,
        },
        encodings: CameEncodings {
            copy: true,
            rre: true,
            ..CameEncodings::NONE
        },
    }),
};

const FEW_COLOURS_SETS: &[u8] =
    b"\x00\x00\x00\x00\x08\x08\x00\x01\x00\x07\x00\x07\x00\x03\x00\x03\x06\x00\x00\x00\
    \x02\x00\x00\x02\x00\x00\x00\x01\x00\x00\x00\x05";

/// 8 bits of 3, 3 and 2, red lowest; CopyRect and Hextile; it asks for a part.
const FEW_COLOURS: Script = Script {
    acts: &[
        Act::Says(HELLO),
        Act::Says(FEW_COLOURS_SETS),
        Act::Requests(PART, 7),
    ],
    taking: Taking::Follows(&Sight {
        format: Format {
            bytes: 1,
            is_big: false,
            maxima: [7, 7, 3],
            shifts: [0, 3, 6],
        },
        area: Area {
            x: 5,
            y: 3,
            w: 20,
            h: 25,
        },
        encodings: CameEncodings {
            hextile: true,
            ..CameEncodings::NONE
        },
    }),
};

const FIVE_BITS_SETS: &[u8] =
    b"\x00\x00\x00\x00\x10\x0f\x00\x01\x00\x1f\x00\x1f\x00\x1f\x0a\x05\x00\x00\x00\x00\
    \x02\x00\x00\x02\x00\x00\x00\x05\x00\x00\x00\x01";

/// 16 bits, the lowest byte first, of 5 bits each; Hextile and CopyRect.
const FIVE_BITS: Script = Script {
    acts: &[
        Act::Says(HELLO),
        Act::Says(FIVE_BITS_SETS),
        Act::Requests(ALL, 7),
    ],
    taking: Taking::Follows(&Sight {
        format: Format {
            bytes: 2,
            is_big: false,
            maxima: [31, 31, 31],
            shifts: [10, 5, 0],
        },
        area: Area {
            x: 0,
            y: 0,
            w: 34,
            h: 33,
        },
        encodings: CameEncodings {
            copy: true,
            hextile: true,
            ..CameEncodings::NONE
        },
    }),
};

/// Each viewer follows the screen in its own way.
pub(crate) const PAINTED: Course = Course {
    name: "viewers_follow_the_screen",
    view: &SCREEN,
    black: 0,
    places: &[&[TRUE_COLOUR], &[HIGH_COLOUR], &[FEW_COLOURS], &[FIVE_BITS]],
    again: 0,
    hosts: &[
        Script {
            acts: &[
                Act::Says(ONE),
                Act::Waits(Gate::All(1)),
                Act::Says(TWO),
                Act::Waits(Gate::All(2)),
                Act::Says(THREE),
                Act::Waits(Gate::All(3)),
                Act::Says(FOUR),
                Act::Waits(Gate::All(4)),
                Act::Says(FIVE),
                Act::Says(SIX),
                Act::Says(SEVEN),
                Act::Waits(Gate::All(7)),
                Act::Ends,
            ],
            taking: Taking::Told(Gate::Open, &[]),
        },
        IS_TOLD,
    ],
    may_end: true,
    end: End {
        fault: 0,
        links: 1,
        last: 7,
        dropped: 0,
        left: 0,
    },
};
