//! Three places of each role, all of them taken: each is woken by news and by each end of a run, a further viewer is
//! refused, and the log, the state, `end` and the numbers of a run speak of the same viewers. Each part has its acts by
//! a function of its own, as the proof of one test can't hold all of them.

use crate::deeds::{Act, Deed};
use crate::loopback::VERSION;
use crate::play::{Play, perform_all};
use crate::refusals::{NO_PLACE, NO_PLACE_TO_VIEW};
use crate::sockets::Asked;
use crate::steps::{ASK, ASK_NEW, BLACK, INIT, Step, TOO_LONG};
use std::test::*;

/// The actors: a host, three viewers with full control, three that only look on, one that comes to another's place, one
/// for which there is no place, and a machine that says nothing.
const HOST: &[usize] = &[0];

const FULL: &[usize] = &[1, 2, 3];

const FIRST: &[usize] = &[1];

const SECOND: &[usize] = &[2];

const THIRD: &[usize] = &[3];

const OTHERS: &[usize] = &[1, 3];

const VIEW: &[usize] = &[4, 5, 6];

const ALL: &[usize] = &[1, 2, 3, 4, 5, 6];

const NEWCOMER: &[usize] = &[7];

const STAYING: &[usize] = &[1, 3, 4, 5, 6, 7];

const FURTHER: &[usize] = &[8];

const SILENT: &[usize] = &[9];

/// The places of each role, as the settings say: those of viewers with full control come first.
const FULL_PLACES: &[u64] = &[1, 2, 3];

const VIEW_PLACES: &[u64] = &[4, 5, 6];

/// A viewer comes in, asks for the whole screen, which is black, and then for what is new of it.
const ASKS: &[Deed] = &[
    Deed::Does(Step::IsGreeted(INIT)),
    Deed::Does(Step::Sends(ASK)),
    Deed::Does(Step::Hears(BLACK)),
    Deed::Does(Step::Sends(ASK_NEW)),
    Deed::Keeps(OF_A_VIEWER),
];

/// Viewers of a role come in to places of their own.
const COME_FULL: &[Deed] = &[
    Deed::Connects("full"),
    Deed::Does(Step::Sends(VERSION)),
    Deed::HasPlace("full", FULL_PLACES, ""),
    Deed::Wants("viewer-in place=|place| role=full address=|me|"),
];

const COME_TO_VIEW: &[Deed] = &[
    Deed::Connects("view"),
    Deed::Does(Step::Sends(VERSION)),
    Deed::HasPlace("view", VIEW_PLACES, ""),
    Deed::Wants("viewer-in place=|place| role=view address=|me|"),
];

/// The keys a and b go down, and up again (RFC 6143, 7.5.4).
const A_DOWN: &[u8] = b"\x04\x01\0\0\0\0\0\x61";

const A_UP: &[u8] = b"\x04\0\0\0\0\0\0\x61";

const B_DOWN_AND_UP: &[u8] = b"\x04\x01\0\0\0\0\0\x62\x04\0\0\0\0\0\0\x62";

/// What the system is asked for at the ends of a viewer and of a host (docs/OPERATING.md, "How long it waits").
const OF_A_VIEWER: Asked = [1, 60, 15, 4, 60_000, 1];

const OF_A_HOST: Asked = [1, 5, 2, 3, 11_000, 1];

/// Before the host is joined a balancer is told that there is none.
const BEFORE: Act = Act {
    who: HOST,
    deeds: &[
        Deed::IsMet(0),
        Deed::IsClosedBeside("metrics"),
        Deed::Reads("/health", &["HTTP/1.1 503 ", "\r\n\r\nno host\n"]),
        Deed::Reads("/health/full", &["HTTP/1.1 503 ", "\r\n\r\nno host\n"]),
        Deed::Reads("/health/view", &["HTTP/1.1 503 ", "\r\n\r\nno host\n"]),
        Deed::Reads(
            "/metrics",
            &[
                "\nreflectord_host_joined 0\n",
                "\nreflectord_host_joins_total 0\n",
                "\nreflectord_viewers_total{role=\"full\"} 0\n",
                "\nreflectord_sent_bytes_total 0\n",
            ],
        ),
        Deed::Keeps(OF_A_HOST),
        Deed::Does(Step::IsJoined(INIT)),
        Deed::Reads("/health", &["HTTP/1.1 200 ", "\r\n\r\nready\n"]),
        Deed::Reads("/health/full", &["HTTP/1.1 200 ", "\r\n\r\nready\n"]),
        Deed::Reads("/health/view", &["HTTP/1.1 200 ", "\r\n\r\nready\n"]),
    ],
};

/// A balancer is told which role has no place left.
const FULL_IS_TAKEN: Act = Act {
    who: HOST,
    deeds: &[
        Deed::Reads("/health", &["HTTP/1.1 200 ", "\r\n\r\nready\n"]),
        Deed::Reads("/health/full", &["HTTP/1.1 503 ", "\r\n\r\nfull\n"]),
        Deed::Reads("/health/view", &["HTTP/1.1 200 ", "\r\n\r\nready\n"]),
    ],
};

const ALL_ARE_TAKEN: Act = Act {
    who: HOST,
    deeds: &[
        Deed::Reads("/health", &["HTTP/1.1 503 ", "\r\n\r\nfull\n"]),
        Deed::Reads("/health/view", &["HTTP/1.1 503 ", "\r\n\r\nfull\n"]),
    ],
};

/// One more viewer of each role finds no place, and then another that would look on.
const FURTHER_ARE_REFUSED: Act = Act {
    who: FURTHER,
    deeds: &[
        Deed::Connects("full"),
        Deed::Does(Step::Sends(VERSION)),
        Deed::Does(Step::IsRefused(NO_PLACE)),
        Deed::Connects("view"),
        Deed::Does(Step::Sends(VERSION)),
        Deed::Does(Step::IsRefused(NO_PLACE_TO_VIEW)),
        Deed::Connects("view"),
        Deed::Does(Step::Sends(VERSION)),
        Deed::Does(Step::IsRefused(NO_PLACE_TO_VIEW)),
        Deed::Leaves,
    ],
};

const ALL_COME: &[Act] = &[
    BEFORE,
    Act {
        who: FULL,
        deeds: COME_FULL,
    },
    FULL_IS_TAKEN,
    Act {
        who: VIEW,
        deeds: COME_TO_VIEW,
    },
    ALL_ARE_TAKEN,
    FURTHER_ARE_REFUSED,
    Act {
        who: ALL,
        deeds: ASKS,
    },
];

fn all_come() -> &'static [Act] {
    ALL_COME
}

/// Two updates reach all six, each of which waits for news by then.
const ALL_ARE_SHOWN: &[Act] = &[
    Act {
        who: HOST,
        deeds: &[Deed::Does(Step::Update(1))],
    },
    Act {
        who: ALL,
        deeds: &[Deed::Does(Step::Sees(1))],
    },
    Act {
        who: HOST,
        deeds: &[Deed::Does(Step::Update(2))],
    },
    Act {
        who: ALL,
        deeds: &[Deed::Does(Step::Sees(2))],
    },
];

fn all_are_shown() -> &'static [Act] {
    ALL_ARE_SHOWN
}

/// While the first holds a key, what the third types is dropped, and no viewer that looks on can type.
const ONE_TYPES: &[Act] = &[
    Act {
        who: FIRST,
        deeds: &[Deed::Does(Step::Sends(A_DOWN))],
    },
    Act {
        who: HOST,
        deeds: &[Deed::Does(Step::Hears(A_DOWN))],
    },
    Act {
        who: THIRD,
        deeds: &[Deed::Does(Step::Sends(B_DOWN_AND_UP))],
    },
    Act {
        who: VIEW,
        deeds: &[Deed::Does(Step::Sends(B_DOWN_AND_UP))],
    },
    Act {
        who: HOST,
        deeds: &[Deed::Reads("/metrics", COUNTED)],
    },
    Act {
        who: FIRST,
        deeds: &[Deed::Does(Step::Sends(A_UP))],
    },
    Act {
        who: HOST,
        deeds: &[Deed::Does(Step::Hears(A_UP))],
    },
];

fn one_types() -> &'static [Act] {
    ONE_TYPES
}

/// Each viewer of the six was answered three times: it was given 43 bytes of its greeting, and 24 for each answer (RFC
/// 6143, 7.1, 7.3.2 and 7.6.1). Two inputs were dropped.
const COUNTED: &[&str] = &[
    "\nreflectord_host_joined 1\n",
    "\nreflectord_host_joins_total 1\n",
    "\nreflectord_places{role=\"full\"} 3\n",
    "\nreflectord_places{role=\"view\"} 3\n",
    "\nreflectord_viewers{role=\"full\"} 3\n",
    "\nreflectord_viewers{role=\"view\"} 3\n",
    "\nreflectord_viewers_total{role=\"full\"} 3\n",
    "\nreflectord_viewers_total{role=\"view\"} 3\n",
    "\nreflectord_refused_total{role=\"full\"} 1\n",
    "\nreflectord_refused_total{role=\"view\"} 2\n",
    "\nreflectord_updates_total 2\n",
    "\nreflectord_answers_total 18\n",
    "\nreflectord_sent_bytes_total 690\n",
    "\nreflectord_input_waiting 0\n",
    "\nreflectord_input_dropped_total 2\n",
    "\nreflectord_viewer_lag_updates{share=\"0.5\"} 0\n",
    "\nreflectord_viewer_lag_updates{share=\"1\"} 0\n",
];

/// One of them has left, and what was counted of it still counts.
const COUNTED_STILL: &[&str] = &[
    "\nreflectord_viewers{role=\"full\"} 2\n",
    "\nreflectord_viewers{role=\"view\"} 3\n",
    "\nreflectord_viewers_total{role=\"full\"} 3\n",
    "\nreflectord_viewers_total{role=\"view\"} 3\n",
    "\nreflectord_answers_total 18\n",
    "\nreflectord_sent_bytes_total 690\n",
];

/// Another has come, which was given 43 bytes.
const COUNTED_ANEW: &[&str] = &[
    "\nreflectord_viewers{role=\"full\"} 3\n",
    "\nreflectord_viewers_total{role=\"full\"} 4\n",
    "\nreflectord_viewers_total{role=\"view\"} 3\n",
    "\nreflectord_answers_total 18\n",
    "\nreflectord_sent_bytes_total 733\n",
    "\nreflectord_viewer_lag_updates{share=\"0.5\"} 0\n",
];

/// By how many updates six viewers are behind, while one of them has been shown none of two: half of them by none, and
/// nine tenths of them by up to two.
const LAG: &[&str] = &[
    "\nreflectord_viewer_lag_updates{share=\"0.5\"} 0\n",
    "\nreflectord_viewer_lag_updates{share=\"0.9\"} 2\n",
    "\nreflectord_viewer_lag_updates{share=\"1\"} 2\n",
];

/// The state says the same of each viewer. The second is sent away by the number of its place, and another comes to
/// that place, of which only the beginning of its greeting was counted by then, and which is behind. A further one
/// finds none. The next update reaches all that are there.
const ONE_IS_SENT_AWAY: &[Act] = &[
    Act {
        who: FULL,
        deeds: &[Deed::Sees(
            "viewer place=|place| role=full address=|me| seconds=",
            " updates=3 bytes=115 behind=0 asked=no",
        )],
    },
    Act {
        who: VIEW,
        deeds: &[Deed::Sees(
            "viewer place=|place| role=view address=|me| seconds=",
            " updates=3 bytes=115 behind=0 asked=no",
        )],
    },
    Act {
        who: SECOND,
        deeds: &[
            Deed::IsObeyed("end |place|\n", "|done\n|"),
            Deed::Does(Step::IsCut),
            Deed::Wants(
                "viewer-out place=|place| role=full address=|me| answers=3 bytes=115 why=\"sent away\"",
            ),
            Deed::Reads("/metrics", COUNTED_STILL),
            Deed::Leaves,
        ],
    },
    Act {
        who: NEWCOMER,
        deeds: &[
            Deed::ComesAfter("full", NO_PLACE),
            Deed::HasPlace("full", FULL_PLACES, ""),
            Deed::Wants("viewer-in place=|place| role=full address=|me|"),
        ],
    },
    Act {
        who: NEWCOMER,
        deeds: &[
            Deed::Sees(
                "viewer place=|place| role=full address=|me| seconds=",
                " updates=0 bytes=14 behind=2 ",
            ),
            Deed::Reads("/metrics", LAG),
            Deed::Does(Step::IsGreeted(INIT)),
            Deed::Sees(
                "viewer place=|place| role=full address=|me| seconds=",
                " updates=0 bytes=43 ",
            ),
            Deed::Reads("/metrics", COUNTED_ANEW),
            Deed::Does(Step::Asks(ASK, 2)),
            Deed::Does(Step::Sends(ASK_NEW)),
        ],
    },
    Act {
        who: FURTHER,
        deeds: &[
            Deed::Connects("full"),
            Deed::Does(Step::Sends(VERSION)),
            Deed::Does(Step::IsRefused(NO_PLACE)),
            Deed::Leaves,
        ],
    },
    Act {
        who: HOST,
        deeds: &[Deed::Does(Step::Update(3))],
    },
    Act {
        who: STAYING,
        deeds: &[Deed::Does(Step::Sees(3))],
    },
];

fn one_is_sent_away() -> &'static [Act] {
    ONE_IS_SENT_AWAY
}

/// A machine that says nothing doesn't keep the next one waiting for long, and each is told whether viewers are let in
/// and for how long the host has been silent.
const MACHINES_ARE_TOLD: &[Act] = &[
    Act {
        who: SILENT,
        deeds: &[
            Deed::Connects("metrics"),
            Deed::Reads("/health", &["HTTP/1.1 503 ", "\r\n\r\nfull\n"]),
            Deed::Leaves,
        ],
    },
    Act {
        who: HOST,
        deeds: &[
            Deed::IsObeyed("drain\n", "|done\n|"),
            Deed::Reads("/health", &["HTTP/1.1 503 ", "\r\n\r\ndrained\n"]),
            Deed::Reads("/health/full", &["HTTP/1.1 503 ", "\r\n\r\ndrained\n"]),
            Deed::Reads("/health/view", &["HTTP/1.1 503 ", "\r\n\r\ndrained\n"]),
            Deed::IsObeyed("undrain\n", "|done\n|"),
            Deed::Reads("/health", &["HTTP/1.1 503 ", "\r\n\r\nfull\n"]),
            Deed::Does(Step::PutsForward(1_000_000)),
            Deed::Reads("/metrics", &["\nreflectord_host_silent_seconds 100000"]),
            Deed::Does(Step::Update(4)),
        ],
    },
    Act {
        who: STAYING,
        deeds: &[Deed::Does(Step::Sees(4))],
    },
    Act {
        who: HOST,
        deeds: &[
            Deed::Does(Step::PutsForward(3_000_000)),
            Deed::Reads("/metrics", &["\nreflectord_host_silent_seconds 200000"]),
        ],
    },
];

fn machines_are_told() -> &'static [Act] {
    MACHINES_ARE_TOLD
}

/// A stop lets all go that wait for news. The run doesn't end before all of its lines are written, though each takes a
/// while. After it nothing listens at the ports.
const ALL_ARE_SENT_AWAY: &[Act] = &[
    Act {
        who: HOST,
        deeds: &[
            Deed::Does(Step::StopsTheClock),
            Deed::IsObeyed("stop\n", "|done\n|"),
        ],
    },
    Act {
        who: STAYING,
        deeds: &[Deed::Does(Step::IsCut)],
    },
    Act {
        who: OTHERS,
        deeds: &[Deed::Wants(
            "viewer-out place=|place| role=full address=|me| answers=5 bytes=163 why=\"sent away\"",
        )],
    },
    Act {
        who: VIEW,
        deeds: &[Deed::Wants(
            "viewer-out place=|place| role=view address=|me| answers=5 bytes=163 why=\"sent away\"",
        )],
    },
    Act {
        who: NEWCOMER,
        deeds: &[Deed::Wants(
            "viewer-out place=|place| role=full address=|me| answers=3 bytes=115 why=\"sent away\"",
        )],
    },
    Act {
        who: HOST,
        deeds: &[
            Deed::Does(Step::IsLetGo),
            Deed::IsClosed("full"),
            Deed::IsClosed("view"),
            Deed::Does(Step::Removes),
        ],
    },
];

fn all_are_sent_away() -> &'static [Act] {
    ALL_ARE_SENT_AWAY
}

/// Viewers of both roles wait for news, and the host ends. By the clock of the play they have been there longer than a
/// handshake may take, after which a wait ends by news and by ends alone.
const THE_HOST_ENDS: &[Act] = &[
    Act {
        who: HOST,
        deeds: &[Deed::IsMet(0), Deed::Does(Step::IsJoined(INIT))],
    },
    Act {
        who: FULL,
        deeds: &[Deed::Connects("full"), Deed::Does(Step::Sends(VERSION))],
    },
    Act {
        who: VIEW,
        deeds: &[Deed::Connects("view"), Deed::Does(Step::Sends(VERSION))],
    },
    Act {
        who: ALL,
        deeds: ASKS,
    },
    Act {
        who: HOST,
        deeds: &[
            Deed::Does(Step::PutsForward(TOO_LONG)),
            Deed::Does(Step::Update(1)),
        ],
    },
    Act {
        who: ALL,
        deeds: &[Deed::Does(Step::Sees(1))],
    },
    Act {
        who: HOST,
        deeds: &[Deed::Does(Step::IsQuiet), Deed::Leaves],
    },
    Act {
        who: ALL,
        deeds: &[Deed::Does(Step::IsCut)],
    },
];

/// A run in which each place is served, and all viewers are let go at a stop, by these acts.
fn served_by<'a>(acts: &'a [&'static [Act]]) -> Play<'a> {
    Play {
        name: "each place is served, and all are let go at a stop",
        words: "--log --host 127.0.0.1:|first| --full-places 3 --view-places 3 --control control-|full| --metrics 127.0.0.1:|metrics|",
        notify: "",
        acts,
        status: 0,
        lines: &[
            "listening role=full address=127.0.0.1:|full| places=3",
            "listening role=view address=127.0.0.1:|view| places=3",
            "listening for=metrics address=127.0.0.1:|metrics|",
            "host-tried address=127.0.0.1:|first| why=\"connected\"",
            "host-joined address=127.0.0.1:|first| width=2 height=1 name=\"T\"",
            "host-out address=127.0.0.1:|first| why=\"stopped\"",
        ],
    }
}

#[test]
fn three_of_each_role_are_served(rt: HostRuntime) -> Result<(), Fail> {
    let acts = [
        all_come(),
        all_are_shown(),
        one_types(),
        one_is_sent_away(),
        machines_are_told(),
        all_are_sent_away(),
    ];
    perform_all(rt, rt.alloc(), &[served_by(&acts)])
}

const PLAYS: &[Play<'static>] = &[Play {
    name: "all are let go at the end of the host",
    words: "--host 127.0.0.1:|first| --full-places 3 --view-places 3",
    notify: "",
    acts: &[THE_HOST_ENDS],
    status: 0,
    lines: &[],
}];

#[test]
fn three_of_each_role_are_let_go(rt: HostRuntime) -> Result<(), Fail> {
    perform_all(rt, rt.alloc(), PLAYS)
}
