//! The address at which `serve` listens is the one that is told, and it says what is open to all.

use crate::deeds::{Act, Deed};
use crate::loopback::VERSION;
use crate::play::{Play, perform_all};
use crate::steps::{INIT, Step};
use std::test::*;

/// The actors: a host and a viewer.
const HOST: &[usize] = &[0];

const VIEWER: &[usize] = &[1];

/// The acts of a host that is joined, and ends.
const COMES_AND_ENDS: &[&[Act]] = &[&[
    Act {
        who: HOST,
        deeds: &[Deed::IsMet(0), Deed::Does(Step::IsJoined(INIT))],
    },
    Act {
        who: HOST,
        deeds: &[Deed::Leaves],
    },
]];

/// Ports of full control that other machines may reach.
const OPEN: &[Play<'static>] = &[
    Play {
        name: "whoever reaches a port of full control types there, which is said",
        words: "--host 127.0.0.1:|first| --bind 0.0.0.0",
        notify: "",
        acts: COMES_AND_ENDS,
        status: 0,
        lines: &[
            "reflectord: whoever reaches 0.0.0.0:|full| types and clicks there, and isn't asked for a password; --full-password-file, --full-bind 127.0.0.1 or --view-only keeps others out",
        ],
    },
    Play {
        name: "so do browsers, and the log has it",
        words: "--log --host 127.0.0.1:|first| --full-bind 0.0.0.0 --web-full |web_full|",
        notify: "",
        acts: COMES_AND_ENDS,
        status: 0,
        lines: &[
            "listening role=full address=0.0.0.0:|full| places=4",
            "reflectord: whoever reaches 0.0.0.0:|full| types and clicks there, and isn't asked for a password; --full-password-file, --full-bind 127.0.0.1 or --view-only keeps others out",
            "open-to-all role=full address=0.0.0.0:|full|",
            "listening role=view address=127.0.0.1:|view| places=4",
            "listening role=full address=0.0.0.0:|web_full| by=web places=4",
            "reflectord: whoever reaches 0.0.0.0:|web_full| types and clicks there, and isn't asked for a password; --full-bind 127.0.0.1 or --view-only keeps others out",
            "open-to-all role=full address=0.0.0.0:|web_full| by=web",
            "host-tried address=127.0.0.1:|first| why=\"connected\"",
            "host-joined address=127.0.0.1:|first| width=2 height=1 name=\"T\"",
            "host-out address=127.0.0.1:|first| why=\"ended\"",
        ],
    },
    Play {
        name: "nobody else types where full control is kept to this machine",
        words: "--host 127.0.0.1:|first| --bind 0.0.0.0 --full-bind 127.0.0.1",
        notify: "",
        acts: COMES_AND_ENDS,
        status: 0,
        lines: &[],
    },
    Play {
        name: "nobody types where all look on",
        words: "--host 127.0.0.1:|first| --bind 0.0.0.0 --view-only",
        notify: "",
        acts: COMES_AND_ENDS,
        status: 0,
        lines: &[],
    },
];

const PLAYS: &[Play<'static>] = &[Play {
    name: "another address of this machine",
    words: "--host 127.0.0.1:|first| --bind 127.0.0.2 --web-view |web_view| --metrics 127.0.0.2:|metrics|",
    notify: "",
    acts: &[&[
        Act {
            who: HOST,
            deeds: &[Deed::IsMet(0), Deed::Does(Step::IsJoined(INIT))],
        },
        Act {
            who: VIEWER,
            deeds: &[
                Deed::ConnectsBeside("full"),
                Deed::ConnectsBeside("web_view"),
                Deed::ConnectsBeside("metrics"),
                Deed::ConnectsBeside("view"),
                Deed::Does(Step::Sends(VERSION)),
                Deed::Does(Step::IsGreeted(INIT)),
                Deed::IsClosed("full"),
                Deed::IsClosed("view"),
                Deed::IsClosed("web_view"),
                Deed::IsClosed("metrics"),
            ],
        },
        Act {
            who: HOST,
            deeds: &[Deed::Leaves],
        },
        Act {
            who: VIEWER,
            deeds: &[Deed::Does(Step::IsLetGo)],
        },
    ]],
    status: 0,
    lines: &[],
}];

#[test]
fn viewers_come_where_it_is_told(rt: HostRuntime) -> Result<(), Fail> {
    perform_all(rt, rt.alloc(), PLAYS)
}

#[test]
fn a_port_that_is_open_to_all_is_told_of(rt: HostRuntime) -> Result<(), Fail> {
    perform_all(rt, rt.alloc(), OPEN)
}
