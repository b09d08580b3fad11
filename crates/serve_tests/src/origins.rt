//! Which pages open a WebSocket at the ports of a run, and a browser behind a proxy.

use crate::deeds::{Act, Deed};
use crate::play::{Play, perform_all};
use crate::sockets::Asked;
use crate::steps::{INIT, Step, TOO_LONG};
use std::test::*;

/// The actors: a host, a page, and a connection that says nothing of where it comes from.
const HOST: &[usize] = &[0];

const PAGE: &[usize] = &[1];

const NAMELESS: &[usize] = &[2];

/// How the port answers a page that is let in, and one that isn't.
const IN: &str = "HTTP/1.1 101 ";

const OUT: &str = "HTTP/1.1 403 ";

/// What the system is asked for at the end of a viewer (docs/OPERATING.md, "How long it waits").
const OF_A_VIEWER: Asked = [1, 60, 15, 4, 60_000, 1];

/// The same where a viewer may take nothing for twenty seconds.
const OF_ONE_FOR_TWENTY: Asked = [1, 20, 5, 4, 20_000, 1];

/// The header of a proxy that was connected to from 192.0.2.7, port 4711 (the PROXY protocol, 2.2).
const HEADER: &[u8] =
    b"\r\n\r\n\0\r\nQUIT\n\x21\x11\0\x0C\xC0\0\x02\x07\x0A\0\0\x01\x12\x67\x17\x0C";

/// A viewer's side of its handshake in messages, under a mask of zeros (RFC 6455, section 5.2, and RFC 6143, 7.1 and
/// 7.3.1).
const VERSION: &[u8] = b"\x82\x8C\0\0\0\0RFB 003.008\n";

const CHOICE: &[u8] = b"\x82\x81\0\0\0\0\x01";

/// It asks for the whole screen (RFC 6143, 7.5.3).
const ASK: &[u8] = b"\x82\x8A\0\0\0\0\x03\0\0\0\0\0\0\x02\0\x01";

/// How the answer of a black screen ends: the size of its one rectangle, Raw, and its pixels (RFC 6143, 7.6.1 and
/// 7.7.1).
const BLACK: &[u8] = b"\0\x02\0\x01\0\0\0\0\0\0\0\0\0\0\0\0";

/// How the screen of `INIT` ends: a name of one byte.
const NAME: &[u8] = b"\0\0\0\x01T";

/// A ping without a payload (RFC 6455, section 5.5.2).
const PING: &[u8] = b"\x89\0";

/// The host is joined. Neither web port listens at another address, and nor does that of machines.
const IS_THERE: Act = Act {
    who: HOST,
    deeds: &[
        Deed::IsMet(0),
        Deed::Does(Step::IsJoined(INIT)),
        Deed::IsClosedBeside("web_full"),
        Deed::IsClosedBeside("web_view"),
        Deed::IsClosedBeside("metrics"),
    ],
};

const LEAVES: Act = Act {
    who: HOST,
    deeds: &[Deed::Leaves],
};

/// Where no origin is named, the port's own pages are let in under each name of the port, and no others: none that
/// comes from another port, by another scheme or from nowhere, and none that names another host.
const OF_THE_PORT: &[Act] = &[
    IS_THERE,
    Act {
        who: PAGE,
        deeds: &[
            Deed::Connects("web_view"),
            Deed::Opens("127.0.0.1:|web_view|", "http://127.0.0.1:|web_view|", IN),
            Deed::Keeps(OF_A_VIEWER),
            Deed::Connects("web_view"),
            Deed::Opens("localhost:|web_view|", "http://localhost:|web_view|", IN),
            Deed::Connects("web_full"),
            Deed::Opens("[::1]:|web_full|", "http://[::1]:|web_full|", IN),
            Deed::Connects("web_view"),
            Deed::Opens("127.0.0.1:|web_view|", "http://localhost:|web_full|", OUT),
            Deed::Connects("web_full"),
            Deed::Opens("127.0.0.1:|web_full|", "http://127.0.0.1:|web_view|", OUT),
            Deed::Connects("web_view"),
            Deed::Opens("127.0.0.1:|web_view|", "http://localhost", OUT),
            Deed::Connects("web_view"),
            Deed::Opens("127.0.0.1:|web_view|", "https://127.0.0.1:|web_view|", OUT),
            Deed::Connects("web_view"),
            Deed::Opens(
                "127.0.0.1:|web_view|",
                "http://127.0.0.1:|web_view|.stranger.example",
                OUT,
            ),
            Deed::Connects("web_full"),
            Deed::Opens("127.0.0.1:|web_full|", "null", OUT),
            Deed::Connects("web_view"),
            Deed::Opens("localhost:|web_full|", "http://localhost:|web_view|", OUT),
        ],
    },
    LEAVES,
];

/// Where origins are named, each is let in with its own host and under the port's, and nobody else is, not even the
/// port's own page.
const OF_NAMED: &[Act] = &[
    IS_THERE,
    Act {
        who: PAGE,
        deeds: &[
            Deed::Connects("web_view"),
            Deed::Opens("lecture.example", "https://lecture.example", IN),
            Deed::Keeps(OF_ONE_FOR_TWENTY),
            Deed::Connects("web_view"),
            Deed::Opens("second.example:8080", "http://second.example:8080", IN),
            Deed::Connects("web_view"),
            Deed::Opens("127.0.0.1:|web_view|", "https://lecture.example", IN),
            Deed::Connects("web_view"),
            Deed::Opens("127.0.0.1:|web_view|", "http://127.0.0.1:|web_view|", OUT),
            Deed::Connects("web_view"),
            Deed::Opens("lecture.example", "http://lecture.example", OUT),
            Deed::Connects("web_view"),
            Deed::Opens(
                "lecture.example",
                "https://lecture.example.stranger.example",
                OUT,
            ),
            Deed::Connects("web_view"),
            Deed::Opens("lecture.example", "null", OUT),
            Deed::Connects("web_view"),
            Deed::Opens("stranger.example", "https://lecture.example", OUT),
        ],
    },
    LEAVES,
];

/// Behind a proxy that is believed, a browser has the address of the header in the log. It is pinged once it was sent
/// nothing for half a minute. A connection without a header is let go.
const BEHIND_A_PROXY: &[Act] = &[
    Act {
        who: HOST,
        deeds: &[Deed::IsMet(0), Deed::Does(Step::IsJoined(INIT))],
    },
    Act {
        who: NAMELESS,
        deeds: &[
            Deed::Connects("web_view"),
            Deed::Does(Step::Sends(b"GET / HTTP/1.1\r\n")),
            Deed::Does(Step::IsCut),
            Deed::Wants("no-header role=view address=|me| by=web"),
        ],
    },
    Act {
        who: PAGE,
        deeds: &[
            Deed::Connects("web_view"),
            Deed::Does(Step::Sends(HEADER)),
            Deed::Opens("127.0.0.1:|web_view|", "http://127.0.0.1:|web_view|", IN),
            Deed::Does(Step::Sends(VERSION)),
            Deed::Does(Step::Sends(CHOICE)),
            Deed::Does(Step::Sends(CHOICE)),
            Deed::Does(Step::HearsUpTo(NAME)),
            Deed::Does(Step::PutsForward(TOO_LONG)),
            Deed::Does(Step::Sends(ASK)),
            Deed::Does(Step::HearsUpTo(BLACK)),
        ],
    },
    Act {
        who: HOST,
        deeds: &[
            Deed::Does(Step::IsQuiet),
            Deed::Does(Step::PutsForward(TOO_LONG + 31)),
        ],
    },
    Act {
        who: PAGE,
        deeds: &[
            Deed::Does(Step::HearsUpTo(PING)),
            Deed::Leaves,
            Deed::IsTold(" viewer-out place=2 role=view address=192.0.2.7:4711 by=web "),
        ],
    },
    LEAVES,
];

const PLAYS: &[Play<'static>] = &[
    Play {
        name: "the pages of a port are let in",
        words: "--host 127.0.0.1:|first| --web-full |web_full| --web-view |web_view| --metrics 127.0.0.1:|metrics|",
        notify: "",
        acts: &[OF_THE_PORT],
        status: 0,
        lines: &[],
    },
    Play {
        name: "the pages that are named are let in",
        words: "--host 127.0.0.1:|first| --web-full |web_full| --web-view |web_view| --web-origin https://lecture.example --web-origin http://second.example:8080 --stalled 20",
        notify: "",
        acts: &[OF_NAMED],
        status: 0,
        lines: &[],
    },
    Play {
        name: "a browser behind a proxy has its own address",
        words: "--log --host 127.0.0.1:|first| --proxy-from 127.0.0.1 --full-places 1 --view-places 1 --web-view |web_view|",
        notify: "",
        acts: &[BEHIND_A_PROXY],
        status: 0,
        lines: &[
            "listening role=full address=127.0.0.1:|full| places=1",
            "listening role=view address=127.0.0.1:|view| places=1",
            "listening role=view address=127.0.0.1:|web_view| by=web places=1",
            "host-tried address=127.0.0.1:|first| why=\"connected\"",
            "host-joined address=127.0.0.1:|first| width=2 height=1 name=\"T\"",
            "viewer-in place=2 role=view address=192.0.2.7:4711 by=web",
            "viewer-out place=2 role=view address=192.0.2.7:4711 by=web *",
            "host-out address=127.0.0.1:|first| why=\"ended\"",
        ],
    },
];

#[test]
fn pages_are_let_in_by_their_origins(rt: HostRuntime) -> Result<(), Fail> {
    perform_all(rt, rt.alloc(), PLAYS)
}
