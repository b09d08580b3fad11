//! An operator that calls viewers which listen. Such a viewer is greeted by the run, and served like any other.

use crate::deeds::{Act, Deed};
use crate::loopback::VERSION;
use crate::play::{Play, perform_all};
use crate::refusals::{NO_ENTRY, NO_PLACE};
use crate::steps::{ASK, BLACK, INIT, Step, TOO_LONG};
use std::fs;
use std::test::*;

/// The actors: a host, two viewers that listen, each at the place of a further host, and one that comes by itself.
const HOST: &[usize] = &[0];

const LISTENS: &[usize] = &[1];

const LISTENS_TOO: &[usize] = &[2];

const COMES: &[usize] = &[3];

const IS_JOINED: Act = Act {
    who: HOST,
    deeds: &[Deed::IsMet(0), Deed::Does(Step::IsJoined(INIT))],
};

/// The host is read until the last viewer has left.
const ENDS: &[Act] = &[Act {
    who: HOST,
    deeds: &[
        Deed::IsObeyed("stop\n", "|done\n|"),
        Deed::Does(Step::SeesItGo),
        Deed::Does(Step::Removes),
    ],
}];

/// The key a goes down and up again (RFC 6143, 7.5.4).
const TYPED: &[u8] = b"\x04\x01\0\0\0\0\0\x61\x04\0\0\0\0\0\0\x61";

/// Each is called in a role of its own. What the one that only looks on types is told to nobody, and the host is told
/// what the other does.
const BOTH_ARE_CALLED: &[Act] = &[
    IS_JOINED,
    Act {
        who: LISTENS,
        deeds: &[
            Deed::IsObeyed(
                "call view 127.0.0.1:|second|\n",
                "connected to 127.0.0.1:|second|\n",
            ),
            Deed::IsMet(1),
            Deed::Does(Step::Sends(VERSION)),
            Deed::Does(Step::IsGreeted(INIT)),
            Deed::HasPlace("view", &[2], ""),
            Deed::Wants("viewer-in place=2 role=view address=|me|"),
            Deed::Wants("viewer-out place=2 role=view address=|me| *"),
            Deed::Sees("viewer place=2 role=view address=|me| ", " asked=no"),
            Deed::Does(Step::Sends(TYPED)),
            Deed::Does(Step::Sends(ASK)),
            Deed::Does(Step::Hears(BLACK)),
        ],
    },
    Act {
        who: LISTENS_TOO,
        deeds: &[
            Deed::IsObeyed(
                "call full 127.0.0.1:|third|\n",
                "connected to 127.0.0.1:|third|\n",
            ),
            Deed::IsMet(2),
            Deed::Does(Step::Sends(VERSION)),
            Deed::Does(Step::IsGreeted(INIT)),
            Deed::HasPlace("full", &[1], ""),
            Deed::Wants("viewer-in place=1 role=full address=|me|"),
            Deed::Wants("viewer-out place=1 role=full address=|me| *"),
            Deed::Does(Step::Sends(TYPED)),
            Deed::Does(Step::Sends(ASK)),
            Deed::Does(Step::Hears(BLACK)),
        ],
    },
    Act {
        who: HOST,
        deeds: &[
            Deed::Does(Step::Hears(TYPED)),
            Deed::IsObeyed("stop\n", "|done\n|"),
            Deed::Does(Step::SeesItGo),
            Deed::Does(Step::Removes),
        ],
    },
    Act {
        who: LISTENS,
        deeds: &[Deed::Does(Step::IsLetGo)],
    },
    Act {
        who: LISTENS_TOO,
        deeds: &[Deed::Does(Step::IsLetGo)],
    },
];

/// One refuses, another says nothing and is let go in time, and lines that call nobody are answered. Where nobody is let
/// in, nobody is called.
const NOBODY_COMES: &[Act] = &[
    IS_JOINED,
    Act {
        who: LISTENS,
        deeds: &[
            Deed::IsObeyed(
                "call view 127.0.0.1:|nobody|\n",
                "error: 127.0.0.1:|nobody| isn't connected to: connection refused\n",
            ),
            Deed::IsObeyed(
                "call full 127.0.0.1:|second|\n",
                "error: there is no place of that role\n",
            ),
            Deed::IsObeyed(
                "call view 127.0.0.1:|second|\n",
                "connected to 127.0.0.1:|second|\n",
            ),
            Deed::IsMet(1),
            Deed::Does(Step::Hears(VERSION)),
            Deed::Does(Step::PutsForward(TOO_LONG)),
            Deed::Does(Step::IsLetGo),
            Deed::Does(Step::IsDone("call view localhost:5500", 1)),
            Deed::Does(Step::IsDone("call view 127.0.0.1:0", 1)),
            Deed::IsObeyed("drain\n", "|done\n|"),
            Deed::IsObeyed(
                "call view 127.0.0.1:|second|\n",
                "error: nobody is let in: undrain lets viewers in again\n",
            ),
            Deed::Does(Step::IsAnswered("state\n", &["|entry drained\n"])),
        ],
    },
];

/// The only place is taken: the viewer that is called is told so. A viewer that was called before the doors are drained
/// is told that nobody is let in.
const NO_PLACE_IS_FREE: &[Act] = &[
    IS_JOINED,
    Act {
        who: COMES,
        deeds: &[
            Deed::Connects("full"),
            Deed::Does(Step::Sends(VERSION)),
            Deed::Does(Step::IsGreeted(INIT)),
            Deed::HasPlace("full", &[1], ""),
            Deed::Wants("viewer-in place=1 role=full address=|me|"),
            Deed::Wants("viewer-out place=1 role=full address=|me| *"),
        ],
    },
    Act {
        who: LISTENS,
        deeds: &[
            Deed::IsObeyed(
                "call full 127.0.0.1:|second|\n",
                "connected to 127.0.0.1:|second|\n",
            ),
            Deed::IsMet(1),
            Deed::Does(Step::Sends(VERSION)),
            Deed::Does(Step::IsRefused(NO_PLACE)),
        ],
    },
    Act {
        who: LISTENS_TOO,
        deeds: &[
            Deed::IsObeyed(
                "call full 127.0.0.1:|third|\n",
                "connected to 127.0.0.1:|third|\n",
            ),
            Deed::IsMet(2),
            Deed::IsObeyed("drain\n", "|done\n|"),
            Deed::Does(Step::Sends(VERSION)),
            Deed::Does(Step::IsRefused(NO_ENTRY)),
        ],
    },
];

/// What vncviewer 1.12 and xtightvncviewer 1.3.10 answer to the challenge, with the password hunter2x.
const ANSWER: &[u8] = &[
    0x23, 0xC4, 0x81, 0x08, 0x42, 0xC0, 0x39, 0x94, 0xAB, 0x49, 0x6F, 0xC4, 0x67, 0x5C, 0xF3, 0xDC,
];

/// What `openssl enc -des-ecb` makes of it with the password lookon, whose bits are turned around in each byte.
const ANSWER_OF_ANOTHER: &[u8] = &[
    0x23, 0xB7, 0x7C, 0x8B, 0x78, 0xA4, 0xCD, 0x38, 0xD8, 0x2F, 0x65, 0xBE, 0x4B, 0x48, 0xED, 0x6D,
];

/// A viewer that is called to a locked port is asked for the password, and so is another, which doesn't know it. The
/// runtime of the tests draws the same challenge for both.
const EACH_IS_ASKED: &[Act] = &[
    IS_JOINED,
    Act {
        who: LISTENS,
        deeds: &[
            Deed::IsObeyed(
                "call full 127.0.0.1:|second|\n",
                "connected to 127.0.0.1:|second|\n",
            ),
            Deed::IsMet(1),
            Deed::Wants("viewer-in place=1 role=full address=|me|"),
            Deed::Wants("viewer-out place=1 role=full address=|me| *"),
            Deed::Does(Step::Sends(VERSION)),
            Deed::Does(Step::Hears(b"RFB 003.008\n\x01\x02")),
            Deed::Does(Step::Sends(b"\x02")),
            Deed::Does(Step::Hears(&[0, 1, 2, 3, 4, 5, 6, 7, 8, 9, 10, 11, 12, 13, 14, 15])),
            Deed::Does(Step::Sends(ANSWER)),
            Deed::Does(Step::Hears(b"\0\0\0\0")),
            Deed::Does(Step::Sends(b"\x01")),
            Deed::Does(Step::Hears(INIT)),
            Deed::HasPlace("full", &[1], ""),
        ],
    },
    Act {
        who: LISTENS_TOO,
        deeds: &[
            Deed::IsObeyed(
                "call full 127.0.0.1:|third|\n",
                "connected to 127.0.0.1:|third|\n",
            ),
            Deed::IsMet(2),
            Deed::Wants("viewer-refused why=password role=full address=|me|"),
            Deed::Does(Step::Sends(VERSION)),
            Deed::Does(Step::HearsUpTo(b"\x01\x02")),
            Deed::Does(Step::Sends(b"\x02")),
            Deed::Does(Step::Sends(ANSWER_OF_ANOTHER)),
            Deed::Does(Step::HearsUpTo(b"\0\0\0\x01\0\0\0\x0Ewrong password")),
            Deed::Does(Step::IsLetGo),
        ],
    },
];

const PLAYS: &[Play<'static>] = &[
    Play {
        name: "viewers that listen are called and served",
        words: "--log --host 127.0.0.1:|first| --full-places 1 --view-places 1 --control control-|full|",
        notify: "",
        acts: &[BOTH_ARE_CALLED],
        status: 0,
        lines: &[
            "listening role=full address=127.0.0.1:|full| places=1",
            "listening role=view address=127.0.0.1:|view| places=1",
            "host-tried address=127.0.0.1:|first| why=\"connected\"",
            "host-joined address=127.0.0.1:|first| width=2 height=1 name=\"T\"",
            "host-out address=127.0.0.1:|first| why=\"stopped\"",
        ],
    },
    Play {
        name: "whoever isn't called doesn't come",
        words: "--log --host 127.0.0.1:|first| --view-only --view-places 1 --control control-|full|",
        notify: "",
        acts: &[NOBODY_COMES, ENDS],
        status: 0,
        lines: &[
            "listening role=view address=127.0.0.1:|view| places=1",
            "host-tried address=127.0.0.1:|first| why=\"connected\"",
            "host-joined address=127.0.0.1:|first| width=2 height=1 name=\"T\"",
            "host-out address=127.0.0.1:|first| why=\"stopped\"",
            "reflectord: no request: ",
            "reflectord: no request: ",
        ],
    },
    Play {
        name: "a viewer that is called finds no place",
        words: "--log --host 127.0.0.1:|first| --full-places 1 --view-places 1 --control control-|full|",
        notify: "",
        acts: &[NO_PLACE_IS_FREE, ENDS],
        status: 0,
        lines: &[
            "listening role=full address=127.0.0.1:|full| places=1",
            "listening role=view address=127.0.0.1:|view| places=1",
            "host-tried address=127.0.0.1:|first| why=\"connected\"",
            "host-joined address=127.0.0.1:|first| width=2 height=1 name=\"T\"",
            "host-out address=127.0.0.1:|first| why=\"stopped\"",
        ],
    },
    Play {
        name: "a viewer that is called is asked for the password",
        words: "--log --full-password-file called-password --host 127.0.0.1:|first| --full-places 1 --view-places 1 --control control-|full|",
        notify: "",
        acts: &[EACH_IS_ASKED, ENDS],
        status: 0,
        lines: &[
            "listening role=full address=127.0.0.1:|full| places=1",
            "listening role=view address=127.0.0.1:|view| places=1",
            "host-tried address=127.0.0.1:|first| why=\"connected\"",
            "host-joined address=127.0.0.1:|first| width=2 height=1 name=\"T\"",
            "host-out address=127.0.0.1:|first| why=\"stopped\"",
        ],
    },
];

#[test]
fn viewers_are_called(rt: HostRuntime) -> Result<(), Fail> {
    fs::write(&rt, "called-password", b"hunter2x\n")?;
    perform_all(rt, rt.alloc(), PLAYS)
}
