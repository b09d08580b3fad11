//! An operator that asks for the next host: the present one is left, the next is shown, and viewers stay.

use crate::deeds::{Act, Deed};
use crate::loopback::VERSION;
use crate::play::{Play, perform_all};
use crate::refusals::NO_HOST;
use crate::room::Count;
use crate::steps::{ASK, ASK_NEW, BLACK, INIT, Step};
use std::test::*;

/// The actors: a host, the one that follows on it or the same one when it has come back, and a viewer.
const HOST: &[usize] = &[0];

const NEXT: &[usize] = &[1];

const VIEWER: &[usize] = &[2];

/// The key a goes down and up again, and then the key b (RFC 6143, 7.5.4).
const TYPED: &[u8] =
    b"\x04\x01\0\0\0\0\0\x61\x04\0\0\0\0\0\0\x61\x04\x01\0\0\0\0\0\x62\x04\0\0\0\0\0\0\x62";

/// A viewer types. The answer that comes after it shows that this was read.
const IT_IS_SHOWN: &[Act] = &[
    Act {
        who: HOST,
        deeds: &[Deed::IsMet(0), Deed::Does(Step::IsJoined(INIT))],
    },
    Act {
        who: VIEWER,
        deeds: &[
            Deed::ComesAfter("full", NO_HOST),
            Deed::HasPlace("full", &[1], ""),
            Deed::Wants("viewer-in place=1 role=full address=|me|"),
            Deed::Wants("viewer-out place=1 role=full address=|me| *"),
            Deed::Does(Step::IsGreeted(INIT)),
            Deed::Does(Step::Sends(TYPED)),
            Deed::Does(Step::Sends(ASK)),
            Deed::Does(Step::Hears(BLACK)),
            Deed::Does(Step::Sends(ASK_NEW)),
        ],
    },
];

/// The host is left for the next one once it was told all that was typed. The viewer is shown black, and then what the
/// next one sends.
const THE_NEXT_FOLLOWS: &[Act] = &[
    Act {
        who: HOST,
        deeds: &[
            Deed::IsObeyed("next\n", "|done\n|"),
            Deed::Does(Step::Hears(TYPED)),
            Deed::Does(Step::SeesItGo),
        ],
    },
    Act {
        who: NEXT,
        deeds: &[
            Deed::IsMet(1),
            Deed::Does(Step::IsJoined(INIT)),
            Deed::Does(Step::Hears(ASK_NEW)),
        ],
    },
    Act {
        who: VIEWER,
        deeds: &[
            Deed::Does(Step::Hears(BLACK)),
            Deed::Does(Step::Sends(ASK_NEW)),
        ],
    },
    Act {
        who: NEXT,
        deeds: &[Deed::Does(Step::Update(1))],
    },
    Act {
        who: VIEWER,
        deeds: &[Deed::Does(Step::Sees(1))],
    },
];

/// No other host follows, so that the last one stays.
const THE_LAST_STAYS: &[Act] = &[
    Act {
        who: NEXT,
        deeds: &[
            Deed::IsObeyed(
                "next\n",
                "|error: no other host follows: stop ends the run\n|",
            ),
            Deed::Does(Step::IsDone("next", 1)),
            Deed::Does(Step::Update(2)),
        ],
    },
    Act {
        who: VIEWER,
        deeds: &[Deed::Does(Step::Sees(2))],
    },
    Act {
        who: NEXT,
        deeds: &[
            Deed::Does(Step::ShutsDown),
            Deed::Does(Step::SeesItGo),
            Deed::Does(Step::Removes),
        ],
    },
    Act {
        who: VIEWER,
        deeds: &[Deed::Does(Step::IsLetGo)],
    },
];

/// A host that says nothing more than its version is left, too, and then one that is shown. It is the only one, and has
/// its turn again after its pause each time.
const IT_COMES_BACK: &[Act] = &[
    Act {
        who: HOST,
        deeds: &[
            Deed::IsMet(0),
            Deed::Does(Step::Sends(VERSION)),
            Deed::Does(Step::Hears(VERSION)),
            Deed::Sees("host none", ""),
            Deed::IsObeyed("next\n", "|done\n|"),
            Deed::Does(Step::SeesItGo),
            Deed::Does(Step::Reaches(Count::Rested, 1)),
        ],
    },
    Act {
        who: NEXT,
        deeds: &[
            Deed::IsMet(0),
            Deed::Does(Step::IsJoined(INIT)),
            Deed::IsTold("host-joined"),
            Deed::Does(Step::IsDone("next", 0)),
            Deed::Does(Step::SeesItGo),
            Deed::Does(Step::Reaches(Count::Rested, 2)),
        ],
    },
    Act {
        who: HOST,
        deeds: &[
            Deed::IsMet(0),
            Deed::Does(Step::IsJoined(INIT)),
            Deed::Does(Step::Hears(ASK_NEW)),
            Deed::IsObeyed("stop\n", "|done\n|"),
            Deed::Does(Step::SeesItGo),
            Deed::Does(Step::Removes),
        ],
    },
];

/// Nobody is there, and nothing changes.
const NO_HOST_IS_LEFT: &[Act] = &[Act {
    who: VIEWER,
    deeds: &[
        Deed::Connects("full"),
        Deed::Does(Step::Sends(VERSION)),
        Deed::Does(Step::IsRefused(NO_HOST)),
        Deed::IsTold(" host-tried address="),
        Deed::IsObeyed("next\n", "|error: there is no host now\n|"),
        Deed::Sees("host none", ""),
        Deed::IsObeyed("stop\n", "|done\n|"),
        Deed::Does(Step::Removes),
    ],
}];

const PLAYS: &[Play<'static>] = &[
    Play {
        name: "the next host follows, and the last one stays",
        words: "--log --host 127.0.0.1:|first| 127.0.0.1:|second| --full-places 1 --view-places 1 --control control-|full|",
        notify: "",
        acts: &[IT_IS_SHOWN, THE_NEXT_FOLLOWS, THE_LAST_STAYS],
        status: 0,
        lines: &[
            "listening role=full address=127.0.0.1:|full| places=1",
            "listening role=view address=127.0.0.1:|view| places=1",
            "host-tried address=127.0.0.1:|first| why=\"connected\"",
            "host-joined address=127.0.0.1:|first| width=2 height=1 name=\"T\"",
            "host-out address=127.0.0.1:|first| why=\"next\"",
            "host-tried address=127.0.0.1:|second| why=\"connected\"",
            "host-joined address=127.0.0.1:|second| width=2 height=1 name=\"T\"",
            "host-out address=127.0.0.1:|second| why=\"ended\"",
            "reflectord: no other host follows: stop ends the run",
        ],
    },
    Play {
        name: "the only host is the next one again",
        words: "--log --again 1 --host 127.0.0.1:|first| --full-places 1 --view-places 1 --control control-|full|",
        notify: "",
        acts: &[IT_COMES_BACK],
        status: 0,
        lines: &[
            "listening role=full address=127.0.0.1:|full| places=1",
            "listening role=view address=127.0.0.1:|view| places=1",
            "host-tried address=127.0.0.1:|first| why=\"connected\"",
            "host-out address=127.0.0.1:|first| why=\"next\"",
            "host-joined address=127.0.0.1:|first| width=2 height=1 name=\"T\"",
            "host-out address=127.0.0.1:|first| why=\"next\"",
            "host-tried address=127.0.0.1:|first| why=\"connected\"",
            "host-joined address=127.0.0.1:|first| width=2 height=1 name=\"T\"",
            "host-out address=127.0.0.1:|first| why=\"stopped\"",
        ],
    },
    Play {
        name: "there is no next one where there is none",
        words: "--log --again 3600 --host 127.0.0.1:|nobody| --full-places 1 --view-places 1 --control control-|full|",
        notify: "",
        acts: &[NO_HOST_IS_LEFT],
        status: 0,
        lines: &[
            "listening role=full address=127.0.0.1:|full| places=1",
            "listening role=view address=127.0.0.1:|view| places=1",
            "host-tried address=127.0.0.1:|nobody| why=\"connection refused\"",
        ],
    },
];

#[test]
fn next_host_follows(rt: HostRuntime) -> Result<(), Fail> {
    perform_all(rt, rt.alloc(), PLAYS)
}
