//! Ports that are taken, and hosts that can't be met: `serve` ends with 3. Where memory is refused it ends with 4.

use crate::hosts::Host;
use crate::lines::NO_MEMORY;
use crate::scene::{FAULT, Scene, play_all};
use crate::steps::{IS_SILENT, Step};
use std::test::*;

/// A version, no type of security, and a reason of 9 bytes (RFC 6143, 7.1.1 and 7.1.2).
const REFUSAL: &[u8] = b"RFB 003.008\n\0\0\0\0\x09no\n\x1b room";

const SCENES: &[Scene] = &[
    Scene {
        name: "a host of another protocol",
        words: "--host 127.0.0.1:|first|",
        is_taken: false,
        hosts: &[Host {
            at: 0,
            steps: &[Step::Sends(b"HTTP/1.1 400 Bad Request\r\n\r\n")],
        }],
        full: &[],
        view: &[],
        status: FAULT,
        lines: &[
            "fault 1",
            "reflectord: the host 127.0.0.1:|first|: the protocol version is not accepted: ",
        ],
    },
    Scene {
        name: "a host that is not there",
        words: "--host 127.0.0.1:|nobody|",
        is_taken: false,
        hosts: &[],
        full: &[],
        view: &[],
        status: FAULT,
        lines: &[
            "fault 21",
            "reflectord: can't connect to the host 127.0.0.1:|nobody|: ",
        ],
    },
    // It is told before the host is connected to.
    Scene {
        name: "a port that is taken",
        words: "--host 127.0.0.1:|first|",
        is_taken: true,
        hosts: &[],
        full: &[],
        view: &[],
        status: FAULT,
        lines: &["fault 21", "reflectord: can't listen on 127.0.0.1 port "],
    },
    Scene {
        name: "a port for hosts that is taken",
        words: "--host listen:127.0.0.1:|first|",
        is_taken: false,
        hosts: &[],
        full: &[],
        view: &[],
        status: FAULT,
        lines: &[
            "fault 21",
            "reflectord: can't listen at listen:127.0.0.1:|first|: ",
        ],
    },
    Scene {
        name: "a name at which no host is waited for",
        words: "--host listen:localhost:|first|",
        is_taken: false,
        hosts: &[],
        full: &[],
        view: &[],
        status: FAULT,
        lines: &[
            "fault 21",
            "reflectord: --host listen:localhost:|first| is no IP:PORT, no NAME:PORT, no listen:IP:PORT and no file:PATH, ",
        ],
    },
    Scene {
        name: "a system without memory",
        words: "--bind 127.0.0.9 --host 127.0.0.1:|first|",
        is_taken: false,
        hosts: &[],
        full: &[],
        view: &[],
        status: NO_MEMORY,
        lines: &["fault 20", "reflectord: memory was refused; "],
    },
    Scene {
        name: "an address that is another machine's",
        words: "--full-bind 192.0.2.1 --host 127.0.0.1:|first|",
        is_taken: false,
        hosts: &[],
        full: &[],
        view: &[],
        status: FAULT,
        lines: &["fault 21", "reflectord: can't listen on 192.0.2.1 port "],
    },
    Scene {
        name: "an address that is another machine's, for all",
        words: "--bind 192.0.2.1 --host 127.0.0.1:|first|",
        is_taken: false,
        hosts: &[],
        full: &[],
        view: &[],
        status: FAULT,
        lines: &[
            "fault 21",
            "reflectord: can't listen on 192.0.2.1 port |full| for viewers with full control: ",
        ],
    },
    Scene {
        name: "an address that is another machine's, for those that look on",
        words: "--bind 192.0.2.1 --full-bind 127.0.0.1 --host 127.0.0.1:|first|",
        is_taken: false,
        hosts: &[],
        full: &[],
        view: &[],
        status: FAULT,
        lines: &[
            "fault 21",
            "reflectord: can't listen on 192.0.2.1 port |view| for viewers that only look on: ",
        ],
    },
    Scene {
        name: "an address that is another machine's, for machines",
        words: "--metrics 192.0.2.1:9100 --host 127.0.0.1:|first|",
        is_taken: false,
        hosts: &[],
        full: &[],
        view: &[],
        status: FAULT,
        lines: &[
            "fault 21",
            "reflectord: can't listen on 192.0.2.1:9100 for machines: ",
        ],
    },
    // Its reason is told, and forges no line.
    Scene {
        name: "a host that refuses the connection",
        words: "--host 127.0.0.1:|first|",
        is_taken: false,
        hosts: &[Host {
            at: 0,
            steps: &[Step::Sends(REFUSAL), Step::SeesItGo],
        }],
        full: &[],
        view: &[],
        status: FAULT,
        lines: &[
            "fault 2",
            "reflectord: the host 127.0.0.1:|first|: the host refused the connection: it gave this reason: \"no\\n\\x1b room\"",
        ],
    },
    Scene {
        name: "a host that falls silent in its handshake",
        words: "--host 127.0.0.1:|first|",
        is_taken: false,
        hosts: &[Host {
            at: 0,
            steps: IS_SILENT,
        }],
        full: &[],
        view: &[],
        status: FAULT,
        lines: &[
            "fault 21",
            "reflectord: the host 127.0.0.1:|first|: the link failed: the connection broke, or its handshake took more than 10 seconds; ",
        ],
    },
];

#[test]
fn faults_before_there_is_a_host(rt: HostRuntime) -> Result<(), Fail> {
    play_all(rt, rt.alloc(), SCENES)
}
