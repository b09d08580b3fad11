//! An operator, where the host is tried again: the run goes on and pauses, and a stop ends it whoever is there.

use crate::deeds::{Act, Deed};
use crate::loopback::VERSION;
use crate::play::{Play, perform_all};
use crate::refusals::{NO_HOST, NO_HOST_TO_VIEW};
use crate::room::Count;
use crate::scene::FAULT;
use crate::sockets::Asked;
use crate::steps::{ASK, ASK_NEW, BLACK, Step};
use std::test::*;

/// The actors: a host, the same host when it has come back, a viewer that comes before there is a host, and one that
/// comes later.
const HOST: &[usize] = &[0];

const BACK: &[usize] = &[1];

const EARLY: &[usize] = &[2];

const VIEWER: &[usize] = &[3];

/// What the system is asked for at the end of a viewer that may take nothing for twenty seconds (docs/OPERATING.md,
/// "How long it waits").
const OF_A_VIEWER: Asked = [1, 20, 5, 4, 20_000, 1];

/// The same at the end of a host, which `--stalled` doesn't change.
const OF_A_HOST: Asked = [1, 5, 2, 3, 11_000, 1];

/// The screen is 2 by 1, of 32 bits a pixel. Its name has bytes by which some terminals are steered, and a quotation
/// mark (RFC 6143, 7.3.2 and 7.4).
const INIT: &[u8] =
    b"\0\x02\0\x01\x20\x18\0\x01\0\xFF\0\xFF\0\xFF\x10\x08\0\0\0\0\0\0\0\x05\x80\x9B\"\x9FT";

/// A viewer comes before the host is joined, and is counted as one that was refused.
const NOBODY_IS_THERE: &[Act] = &[
    Act {
        who: HOST,
        deeds: &[Deed::IsMet(0), Deed::Keeps(OF_A_HOST)],
    },
    Act {
        who: EARLY,
        deeds: &[
            Deed::Connects("view"),
            Deed::Does(Step::Sends(VERSION)),
            Deed::Does(Step::IsRefused(NO_HOST_TO_VIEW)),
            Deed::Leaves,
        ],
    },
    Act {
        who: HOST,
        deeds: &[
            Deed::Sees("host none", ""),
            Deed::Reads("/health", &["HTTP/1.1 503 ", "\r\n\r\nno host\n"]),
            Deed::Reads(
                "/metrics",
                &[
                    "\nreflectord_refused_total{role=\"full\"} 0\n",
                    "\nreflectord_refused_total{role=\"view\"} 1\n",
                ],
            ),
        ],
    },
];

/// Another run can't listen where this one does, nor where a file of another kind is, which stays. An operator that
/// says nothing doesn't keep the next one waiting for long.
const OTHERS_TRY: &[Act] = &[Act {
    who: HOST,
    deeds: &[
        Deed::Runs(
            "serve --host 127.0.0.1:|second| --full |nobody| --view |web_view| --control control-|full|",
            "\nreflectord: can't listen at control-",
            FAULT,
        ),
        Deed::Sees("host none", ""),
        Deed::Puts("file-|full|"),
        Deed::Runs(
            "serve --host 127.0.0.1:|second| --full |nobody| --view |web_view| --control file-|full|",
            "\nreflectord: can't listen at file-",
            FAULT,
        ),
        Deed::Finds("file-|full|"),
        Deed::IsSilent,
    ],
}];

/// The host is joined, shows an update, and ends. After a pause it is joined again, and the viewer is shown what it
/// sends then. A fault of it ends the run.
const IT_COMES_BACK: &[Act] = &[
    Act {
        who: HOST,
        deeds: &[Deed::Does(Step::IsJoined(INIT))],
    },
    Act {
        who: VIEWER,
        deeds: &[
            Deed::ComesAfter("view", NO_HOST_TO_VIEW),
            Deed::HasPlace("view", &[2], ""),
            Deed::Wants("viewer-in place=2 role=view address=|me|"),
            Deed::Does(Step::IsGreeted(INIT)),
            Deed::Does(Step::Sends(ASK)),
            Deed::Does(Step::Hears(BLACK)),
            Deed::Does(Step::Sends(ASK_NEW)),
        ],
    },
    Act {
        who: HOST,
        deeds: &[Deed::Does(Step::Update(1))],
    },
    Act {
        who: VIEWER,
        deeds: &[Deed::Does(Step::Sees(1)), Deed::Keeps(OF_A_VIEWER)],
    },
    Act {
        who: HOST,
        deeds: &[
            Deed::Does(Step::ShutsDown),
            Deed::Does(Step::SeesItGo),
            Deed::Leaves,
        ],
    },
    Act {
        who: BACK,
        deeds: &[
            Deed::IsMet(0),
            Deed::Does(Step::Reaches(Count::Rested, 1)),
            Deed::Sees("host none", ""),
            Deed::Reads("/health", &["HTTP/1.1 503 ", "\r\n\r\nno host\n"]),
            Deed::Reads("/health/full", &["HTTP/1.1 503 ", "\r\n\r\nno host\n"]),
            Deed::Reads("/health/view", &["HTTP/1.1 503 ", "\r\n\r\nno host\n"]),
            Deed::Reads(
                "/metrics",
                &[
                    "\nreflectord_host_joined 0\n",
                    "\nreflectord_host_joins_total 1\n",
                ],
            ),
            Deed::Does(Step::IsJoined(INIT)),
            Deed::Does(Step::Hears(ASK_NEW)),
            Deed::Sees(
                "host address=127.0.0.1:|first| width=2 height=1 ",
                " name=\"\\x80\\x9b\\\"\\x9fT\"",
            ),
            Deed::Reads(
                "/metrics",
                &[
                    "\nreflectord_host_joined 1\n",
                    "\nreflectord_host_joins_total 2\n",
                ],
            ),
        ],
    },
    Act {
        who: VIEWER,
        deeds: &[
            Deed::Does(Step::Hears(BLACK)),
            Deed::Does(Step::Sends(ASK_NEW)),
        ],
    },
    Act {
        who: BACK,
        deeds: &[Deed::Does(Step::Update(2))],
    },
    Act {
        who: VIEWER,
        deeds: &[Deed::Does(Step::Sees(2))],
    },
    Act {
        who: BACK,
        deeds: &[
            Deed::Does(Step::Sends(b"\xFF")),
            Deed::Does(Step::SeesItGo),
            Deed::Does(Step::Removes),
        ],
    },
    Act {
        who: VIEWER,
        deeds: &[
            Deed::Does(Step::IsLetGo),
            Deed::Wants(
                "viewer-out place=2 role=view address=|me| answers=4 bytes=143 why=\"host gone\"",
            ),
        ],
    },
];

/// The host is joined and ends. An operator stops the run while it pauses.
const IS_STOPPED_BETWEEN: &[Act] = &[Act {
    who: HOST,
    deeds: &[
        Deed::IsMet(0),
        Deed::Does(Step::IsJoined(INIT)),
        Deed::Does(Step::ShutsDown),
        Deed::Does(Step::SeesItGo),
        Deed::Sees("host none", ""),
        Deed::IsObeyed("stop\n", "|done\n|"),
        Deed::Does(Step::Removes),
    ],
}];

/// What a viewer is told that comes before there is a host (RFC 6143, 7.1.1 and 7.1.2).
const TOLD: &[u8] = b"RFB 003.008\n\0\0\0\0\x0Bno host yet";

/// Nobody reads the log, and viewers are told all the same. The next line that has room says how many had none, and the
/// one after it says nothing of that. Four addresses of the host's name were tried by then, in the system's order.
const NOBODY_READS: &[Act] = &[Act {
    who: EARLY,
    deeds: &[
        Deed::IsTold(" host-tried address="),
        Deed::Fills,
        Deed::Connects("full"),
        Deed::Does(Step::Sends(VERSION)),
        Deed::Does(Step::Hears(TOLD)),
        Deed::Connects("view"),
        Deed::Does(Step::Sends(VERSION)),
        Deed::Does(Step::Hears(TOLD)),
        Deed::Empties,
        Deed::Connects("view"),
        Deed::Does(Step::Sends(VERSION)),
        Deed::Does(Step::Hears(TOLD)),
        Deed::Wants("no-host role=view address=|me| left-out=2"),
        Deed::Does(Step::Reaches(Count::Tried, 5_432)),
    ],
}];

/// No host is there, and no viewer is let in, when an operator stops the run. The system has refused an operator's
/// connection before.
const IS_STOPPED_ALONE: &[Act] = &[Act {
    who: EARLY,
    deeds: &[
        Deed::Connects("full"),
        Deed::Does(Step::Sends(VERSION)),
        Deed::Does(Step::IsRefused(NO_HOST)),
        Deed::Hurries,
        Deed::IsObeyed("undrain\n", "|done\n|"),
        Deed::IsObeyed("undrain\n", "|done\n|"),
        Deed::IsObeyed("stop\n", "|done\n|"),
        Deed::Does(Step::Removes),
    ],
}];

/// The screen is 512 by 512, of 32 bits a pixel, named T (RFC 6143, 7.3.2 and 7.4). An answer of all of it has 1 MiB,
/// more than the system keeps for a viewer that it is asked to keep little for.
const LARGE: &[u8] = b"\x02\0\x02\0\x20\x18\0\x01\0\xFF\0\xFF\0\xFF\x10\x08\0\0\0\0\0\0\0\x01T";

/// What a client gives that joins the host of this screen (RFC 6143, 7.5.1 to 7.5.3).
const ASKED: &[u8] = b"\0\0\0\0\x20\x18\0\x01\0\xFF\0\xFF\0\xFF\x10\x08\0\0\0\0\
      \x02\0\0\x05\0\0\0\x01\0\0\0\x05\0\0\0\x02\0\0\0\0\xFF\xFF\xFF\x21\
      \x03\0\0\0\0\0\x02\0\x02\0";

/// A viewer asks for the whole screen, and its answer begins with this (RFC 6143, 7.5.3 and 7.6.1).
const ASK_ALL: &[u8] = b"\x03\0\0\0\0\0\x02\0\x02\0";

const BEGINS: &[u8] = b"\0\0";

/// A viewer takes the beginning of its answer and nothing more. A stop sends it away at once: the clock stands, so that
/// waiting for it would have no end.
const ONE_TAKES_NOTHING: &[Act] = &[
    Act {
        who: HOST,
        deeds: &[
            Deed::IsMet(0),
            Deed::Does(Step::Sends(VERSION)),
            Deed::Does(Step::Hears(VERSION)),
            Deed::Does(Step::Sends(b"\x01\x01")),
            Deed::Does(Step::Hears(b"\x01")),
            Deed::Does(Step::Sends(b"\0\0\0\0")),
            Deed::Does(Step::Hears(b"\x01")),
            Deed::Does(Step::Sends(LARGE)),
            Deed::Does(Step::Hears(ASKED)),
        ],
    },
    Act {
        who: VIEWER,
        deeds: &[
            Deed::ComesAfter("full", NO_HOST),
            Deed::HasPlace("full", &[1], ""),
            Deed::Wants("viewer-in place=1 role=full address=|me|"),
            Deed::Does(Step::IsGreeted(LARGE)),
            Deed::IsKeptLittle,
            Deed::Does(Step::Sends(ASK_ALL)),
            Deed::Does(Step::Hears(BEGINS)),
            Deed::Wants("viewer-out place=1 role=full address=|me| *"),
        ],
    },
    Act {
        who: HOST,
        deeds: &[
            Deed::Does(Step::StopsTheClock),
            Deed::IsObeyed("stop\n", "|done\n|"),
            Deed::IsTold(" why=\"sent away\"\n"),
            Deed::Does(Step::IsLetGo),
            Deed::Does(Step::Removes),
        ],
    },
];

/// How a cut text of 65,536 bytes begins, and its bytes (RFC 6143, 7.5.6).
const TEXT: &[u8] = b"\x06\0\0\0\0\x01\0\0";

const LETTERS: &[u8] = &[0x61; 65_536];

/// A host takes the beginning of the first of four texts and nothing more: the system keeps less for it than it is to
/// be told. The viewer is answered what it asked for after them, so all of them were taken of it. A stop looks 400
/// times, with a pause of five milliseconds after each, whether the host was told all.
const ITS_HOST_TAKES_NOTHING: &[Act] = &[
    Act {
        who: HOST,
        deeds: &[
            Deed::IsMet(0),
            Deed::IsKeptLittle,
            Deed::Does(Step::IsJoined(INIT)),
        ],
    },
    Act {
        who: VIEWER,
        deeds: &[
            Deed::ComesAfter("full", NO_HOST),
            Deed::HasPlace("full", &[1], ""),
            Deed::Wants("viewer-in place=1 role=full address=|me|"),
            Deed::Wants("viewer-out place=1 role=full address=|me| *"),
            Deed::Does(Step::IsGreeted(INIT)),
            Deed::Does(Step::Sends(TEXT)),
            Deed::Does(Step::Sends(LETTERS)),
            Deed::Does(Step::Sends(TEXT)),
            Deed::Does(Step::Sends(LETTERS)),
            Deed::Does(Step::Sends(TEXT)),
            Deed::Does(Step::Sends(LETTERS)),
            Deed::Does(Step::Sends(TEXT)),
            Deed::Does(Step::Sends(LETTERS)),
            Deed::Does(Step::Sends(ASK)),
            Deed::Does(Step::Hears(BLACK)),
        ],
    },
    Act {
        who: HOST,
        deeds: &[
            Deed::Does(Step::Hears(TEXT)),
            Deed::Does(Step::StopsTheClock),
            Deed::IsObeyed("stop\n", "|done\n|"),
            Deed::Does(Step::Counts(Count::Waited, 400)),
            Deed::Does(Step::SeesItGo),
            Deed::Does(Step::Removes),
        ],
    },
];

const PLAYS: &[Play<'static>] = &[
    Play {
        name: "a run goes on while its host comes back, and a fault of the host ends it",
        words: "--log --again 1 --host 127.0.0.1:|first| --full-places 1 --view-places 1 --control control-|full| --metrics 127.0.0.1:|metrics| --stalled 20",
        notify: "",
        acts: &[NOBODY_IS_THERE, OTHERS_TRY, IT_COMES_BACK],
        status: FAULT,
        lines: &[
            "listening role=full address=127.0.0.1:|full| places=1",
            "listening role=view address=127.0.0.1:|view| places=1",
            "listening for=metrics address=127.0.0.1:|metrics|",
            "host-tried address=127.0.0.1:|first| why=\"connected\"",
            "host-joined address=127.0.0.1:|first| width=2 height=1 name=\"\\x80\\x9b\\\"\\x9fT\"",
            "host-out address=127.0.0.1:|first| why=\"ended\"",
            "host-tried address=127.0.0.1:|first| why=\"connected\"",
            "host-joined address=127.0.0.1:|first| width=2 height=1 name=\"\\x80\\x9b\\\"\\x9fT\"",
            "host-out address=127.0.0.1:|first| why=\"fault 6: unknown message type 255\"",
            "fault 6",
            "reflectord: the host 127.0.0.1:|first|: unknown message type 255: ",
        ],
    },
    Play {
        name: "a run is stopped between two hosts",
        words: "--log --again 3600 --host 127.0.0.1:|first| --full-places 1 --view-places 1 --control control-|full|",
        notify: "",
        acts: &[IS_STOPPED_BETWEEN],
        status: 0,
        lines: &[
            "listening role=full address=127.0.0.1:|full| places=1",
            "listening role=view address=127.0.0.1:|view| places=1",
            "host-tried address=127.0.0.1:|first| why=\"connected\"",
            "host-joined address=127.0.0.1:|first| width=2 height=1 name=\"\\x80\\x9b\\\"\\x9fT\"",
            "host-out address=127.0.0.1:|first| why=\"ended\"",
        ],
    },
    Play {
        name: "a run is stopped while a viewer takes nothing",
        words: "--log --again 3600 --host 127.0.0.1:|first| --full-places 1 --view-places 1 --control control-|full|",
        notify: "",
        acts: &[ONE_TAKES_NOTHING],
        status: 0,
        lines: &[
            "listening role=full address=127.0.0.1:|full| places=1",
            "listening role=view address=127.0.0.1:|view| places=1",
            "host-tried address=127.0.0.1:|first| why=\"connected\"",
            "host-joined address=127.0.0.1:|first| width=512 height=512 name=\"T\"",
            "host-out address=127.0.0.1:|first| why=\"stopped\"",
        ],
    },
    Play {
        name: "a run is stopped while its host takes nothing",
        words: "--log --again 3600 --host 127.0.0.1:|first| --full-places 1 --view-places 1 --control control-|full|",
        notify: "",
        acts: &[ITS_HOST_TAKES_NOTHING],
        status: 0,
        lines: &[
            "listening role=full address=127.0.0.1:|full| places=1",
            "listening role=view address=127.0.0.1:|view| places=1",
            "host-tried address=127.0.0.1:|first| why=\"connected\"",
            "host-joined address=127.0.0.1:|first| width=2 height=1 name=\"\\x80\\x9b\\\"\\x9fT\"",
            "host-out address=127.0.0.1:|first| why=\"stopped\"",
        ],
    },
    Play {
        name: "a run is stopped while nobody is there",
        words: "--log --again 3600 --host desks:|nobody| --full-places 1 --view-places 1 --control control-|full|",
        notify: "",
        acts: &[NOBODY_READS, IS_STOPPED_ALONE],
        status: 0,
        lines: &[
            "listening role=full address=127.0.0.1:|full| places=1",
            "listening role=view address=127.0.0.1:|view| places=1",
            "host-tried address=127.0.0.2:|nobody| why=\"connection refused\"",
        ],
    },
];

#[test]
fn operator_is_heard_while_hosts_come_back(rt: HostRuntime) -> Result<(), Fail> {
    perform_all(rt, rt.alloc(), PLAYS)
}
