//! A run that systemd has started.

use crate::deeds::{Act, Deed};
use crate::loopback::VERSION;
use crate::play::{Play, perform_all};
use crate::refusals::{NO_HOST_TO_VIEW, NO_PLACE_TO_VIEW};
use crate::scene::FAULT;
use crate::steps::{ASK_NEW, INIT, Step};
use std::test::*;

/// The actors: systemd, a host, the same host when it has come back, and viewers.
const SYSTEMD: &[usize] = &[0];

const HOST: &[usize] = &[1];

const BACK: &[usize] = &[2];

const EARLY: &[usize] = &[3];

const VIEWER: &[usize] = &[4];

/// As many visits of viewers as leave more notices than systemd's socket takes (unix(7), `max_dgram_qlen`).
const MANY: &[usize] = &[5, 5, 5, 5, 5, 5, 5, 5];

/// The run isn't ready before the host is joined, and then it is, once. Who is refused makes no notice.
const IS_READY: &[Act] = &[
    Act {
        who: SYSTEMD,
        deeds: &[Deed::Listens("@reflectord-serve-tests-|full|")],
    },
    Act {
        who: HOST,
        deeds: &[Deed::IsMet(0)],
    },
    Act {
        who: EARLY,
        deeds: &[
            Deed::Connects("view"),
            Deed::Does(Step::Sends(VERSION)),
            Deed::Does(Step::IsRefused(NO_HOST_TO_VIEW)),
            Deed::Leaves,
        ],
    },
    Act {
        who: HOST,
        deeds: &[Deed::Does(Step::IsJoined(INIT))],
    },
    Act {
        who: SYSTEMD,
        deeds: &[Deed::IsNotified("READY=1\nSTATUS=host 127.0.0.1:|first|; 0 of 3 viewers\n")],
    },
];

/// Each coming and leaving of a viewer makes a notice, and so does the host's. A host that has ended is a warning in
/// the journal, and nothing before it was.
const IS_TOLD: &[Act] = &[
    Act {
        who: VIEWER,
        deeds: &[
            Deed::ComesAfter("view", NO_HOST_TO_VIEW),
            Deed::HasPlace("view", &[3], ""),
            Deed::Wants("viewer-in place=3 role=view address=|me|"),
            Deed::Wants("viewer-out place=3 role=view address=|me| *"),
        ],
    },
    Act {
        who: SYSTEMD,
        deeds: &[Deed::IsNotified("STATUS=host 127.0.0.1:|first|; 1 of 3 viewers\n")],
    },
    Act {
        who: VIEWER,
        deeds: &[Deed::Leaves],
    },
    Act {
        who: SYSTEMD,
        deeds: &[Deed::IsNotified("STATUS=host 127.0.0.1:|first|; 0 of 3 viewers\n")],
    },
    Act {
        who: HOST,
        deeds: &[
            Deed::Does(Step::IsNotTold("<")),
            Deed::Does(Step::ShutsDown),
            Deed::Does(Step::SeesItGo),
            Deed::IsTold("\n<4>2"),
            Deed::IsTold(" host-out address=127.0.0.1:|first| why=\"ended\"\n"),
        ],
    },
    Act {
        who: SYSTEMD,
        deeds: &[Deed::IsNotified("STATUS=no host; 0 of 3 viewers\n")],
    },
    Act {
        who: BACK,
        deeds: &[
            Deed::IsMet(0),
            Deed::Does(Step::IsJoined(INIT)),
            Deed::Does(Step::Hears(ASK_NEW)),
        ],
    },
    Act {
        who: SYSTEMD,
        deeds: &[Deed::IsNotified("STATUS=host 127.0.0.1:|first|; 0 of 3 viewers\n")],
    },
];

/// Where systemd hears nothing for long, notices are left out, and nobody waits. A fault is told as one.
const NOBODY_HEARS: &[Act] = &[
    Act {
        who: MANY,
        deeds: &[
            Deed::ComesAfter("view", NO_PLACE_TO_VIEW),
            Deed::HasPlace("view", &[3], ""),
            Deed::Wants("viewer-in place=3 role=view address=|me|"),
            Deed::Wants("viewer-out place=3 role=view address=|me| *"),
            Deed::Leaves,
            Deed::IsTold(" viewer-out place=3 role=view address=|me| "),
        ],
    },
    Act {
        who: BACK,
        deeds: &[
            Deed::Does(Step::Sends(b"\xFF")),
            Deed::Does(Step::SeesItGo),
            Deed::IsTold("\n<3>fault 6\n<3>reflectord: the host "),
        ],
    },
];

const PLAYS: &[Play<'static>] = &[Play {
    name: "systemd is told how a run stands, and the journal how grave a line is",
    words: "--log --again 1 --host 127.0.0.1:|first| --full-places 2 --view-places 1",
    notify: "@reflectord-serve-tests-|full|",
    acts: &[IS_READY, IS_TOLD, NOBODY_HEARS],
    status: FAULT,
    lines: &[
        "listening role=full address=127.0.0.1:|full| places=2",
        "listening role=view address=127.0.0.1:|view| places=1",
        "host-tried address=127.0.0.1:|first| why=\"connected\"",
        "host-joined address=127.0.0.1:|first| width=2 height=1 name=\"T\"",
        "host-out address=127.0.0.1:|first| why=\"ended\"",
        "host-tried address=127.0.0.1:|first| why=\"connected\"",
        "host-joined address=127.0.0.1:|first| width=2 height=1 name=\"T\"",
        "host-out address=127.0.0.1:|first| why=\"fault 6: unknown message type 255\"",
        "<3>fault 6",
        "<3>reflectord: the host 127.0.0.1:|first|: unknown message type 255: ",
    ],
}];

#[test]
fn systemd_is_told_of_a_run(rt: HostRuntime) -> Result<(), Fail> {
    perform_all(rt, rt.alloc(), PLAYS)
}
