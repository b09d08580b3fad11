//! Hosts that call: they have their turns as they come, and viewers stay.

use crate::deeds::{Act, Deed};
use crate::loopback::VERSION;
use crate::play::{Play, perform_all};
use crate::refusals::NO_HOST;
use crate::scene::FAULT;
use crate::steps::{ASK, ASK_NEW, BLACK, INIT, Step};
use std::test::*;

/// The actors: hosts that call one after another, and a viewer.
const FIRST: &[usize] = &[0];

const SECOND: &[usize] = &[1];

const THIRD: &[usize] = &[2];

const VIEWER: &[usize] = &[3];

/// The first that calls is no VNC server. The next one has its turn at once.
const ONE_CALLS: &[Act] = &[
    Act {
        who: FIRST,
        deeds: &[
            Deed::Connects("nobody"),
            Deed::Wants("host-tried address=|me| why=\"called\""),
            Deed::Wants("host-out address=|me| why=\"fault 1: *"),
            Deed::Does(Step::Sends(b"HTTP/1.1 400")),
            Deed::Does(Step::IsCut),
        ],
    },
    Act {
        who: SECOND,
        deeds: &[
            Deed::Connects("nobody"),
            Deed::Wants("host-joined address=|me| width=2 height=1 name=\"T\""),
            Deed::Wants("host-out address=|me| why=\"fault 6: *"),
            Deed::Does(Step::IsJoined(INIT)),
        ],
    },
    Act {
        who: VIEWER,
        deeds: &[
            Deed::ComesAfter("full", NO_HOST),
            Deed::HasPlace("full", &[1], ""),
            Deed::Wants("viewer-in place=1 role=full address=|me|"),
            Deed::Wants("viewer-out place=1 role=full address=|me| *"),
            Deed::Does(Step::IsGreeted(INIT)),
            Deed::Does(Step::Sends(ASK)),
            Deed::Does(Step::Hears(BLACK)),
            Deed::Does(Step::Sends(ASK_NEW)),
        ],
    },
    Act {
        who: SECOND,
        deeds: &[Deed::Does(Step::Update(1))],
    },
    Act {
        who: VIEWER,
        deeds: &[Deed::Does(Step::Sees(1))],
    },
];

/// Another calls meanwhile, and waits. The one that is shown sends what RFB doesn't have, and the other one follows.
const ANOTHER_FOLLOWS: &[Act] = &[
    Act {
        who: THIRD,
        deeds: &[
            Deed::Connects("nobody"),
            Deed::Wants("host-tried address=|me| why=\"called\""),
            Deed::Wants("host-joined address=|me| width=2 height=1 name=\"T\""),
            Deed::Wants("host-out address=|me| why=\"stopped\""),
        ],
    },
    Act {
        who: SECOND,
        deeds: &[Deed::Does(Step::Sends(b"\xFF")), Deed::Does(Step::SeesItGo)],
    },
    Act {
        who: THIRD,
        deeds: &[
            Deed::Does(Step::IsJoined(INIT)),
            Deed::Does(Step::Hears(ASK_NEW)),
        ],
    },
    Act {
        who: VIEWER,
        deeds: &[
            Deed::Does(Step::Hears(BLACK)),
            Deed::Does(Step::Sends(ASK_NEW)),
        ],
    },
    Act {
        who: THIRD,
        deeds: &[Deed::Does(Step::Update(2))],
    },
    Act {
        who: VIEWER,
        deeds: &[Deed::Does(Step::Sees(2))],
    },
    Act {
        who: THIRD,
        deeds: &[
            Deed::IsObeyed("stop\n", "|done\n|"),
            Deed::Does(Step::SeesItGo),
            Deed::Does(Step::Removes),
        ],
    },
];

/// While nobody calls an operator is heard, and stops the run.
const NOBODY_CALLS: &[Act] = &[Act {
    who: VIEWER,
    deeds: &[
        Deed::Connects("full"),
        Deed::Does(Step::Sends(VERSION)),
        Deed::Does(Step::IsRefused(NO_HOST)),
        Deed::IsObeyed("next\n", "|error: there is no host now\n|"),
        Deed::Sees("host none", ""),
        Deed::IsObeyed("stop\n", "|done\n|"),
        Deed::Does(Step::Removes),
    ],
}];

/// Without a pause the run ends with the only host that had its turn, also after what RFB doesn't have.
const ONLY_ONE_CALLS: &[Act] = &[Act {
    who: FIRST,
    deeds: &[
        Deed::Connects("nobody"),
        Deed::Does(Step::IsJoined(INIT)),
        Deed::Does(Step::Sends(b"\xFF")),
        Deed::Does(Step::SeesItGo),
    ],
}];

const PLAYS: &[Play<'static>] = &[
    Play {
        name: "hosts that call take turns",
        words: "--log --again 1 --host listen:127.0.0.1:|nobody| --full-places 1 --view-places 1 --control control-|full|",
        notify: "",
        acts: &[ONE_CALLS, ANOTHER_FOLLOWS],
        status: 0,
        lines: &[
            "listening role=full address=127.0.0.1:|full| places=1",
            "listening role=view address=127.0.0.1:|view| places=1",
            "listening for=hosts address=127.0.0.1:|nobody|",
        ],
    },
    Play {
        name: "nobody calls, and the run is stopped",
        words: "--log --host listen:127.0.0.1:|nobody| --full-places 1 --view-places 1 --control control-|full|",
        notify: "",
        acts: &[NOBODY_CALLS],
        status: 0,
        lines: &[
            "listening role=full address=127.0.0.1:|full| places=1",
            "listening role=view address=127.0.0.1:|view| places=1",
            "listening for=hosts address=127.0.0.1:|nobody|",
        ],
    },
    Play {
        name: "a run ends with the only host that calls",
        words: "--host listen:127.0.0.1:|nobody| --full-places 1 --view-places 1",
        notify: "",
        acts: &[ONLY_ONE_CALLS],
        status: FAULT,
        lines: &[
            "fault 6",
            "reflectord: the host listen:127.0.0.1:|nobody|: unknown message type 255: ",
        ],
    },
];

#[test]
fn hosts_that_call_take_turns(rt: HostRuntime) -> Result<(), Fail> {
    perform_all(rt, rt.alloc(), PLAYS)
}
