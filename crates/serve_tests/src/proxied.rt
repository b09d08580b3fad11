//! A viewer that comes through a proxy which `serve` was told of.

use crate::hosts::Host;
use crate::scene::{FAULT, Scene, play_all};
use crate::steps::{INIT, Step};
use crate::visits::{Visit, VisitStart};
use std::test::*;

/// The header of a proxy that was connected to from 192.0.2.7, port 4711 (the PROXY protocol, 2.2), and a viewer's
/// version behind it.
const HEADER_AND_VERSION: &[u8] =
    b"\r\n\r\n\0\r\nQUIT\n\x21\x11\0\x0C\xC0\0\x02\x07\x0A\0\0\x01\x12\x67\x17\x0CRFB 003.008\n";

const SCENES: &[Scene] = &[
    // The host ends once the viewer has left.
    Scene {
        name: "the log names a viewer as the header of the proxy does",
        words: "--log --proxy-from 127.0.0.1 --host 127.0.0.1:|first|",
        is_taken: false,
        hosts: &[Host {
            at: 0,
            steps: &[
                Step::IsJoined(INIT),
                Step::IsTold("viewer-out place=1 role=full address=192.0.2.7:4711 "),
                Step::IsQuiet,
            ],
        }],
        full: &[Visit {
            start: VisitStart::Connects,
            steps: &[&[Step::Sends(HEADER_AND_VERSION), Step::IsGreeted(INIT)]],
            told: None,
        }],
        view: &[],
        status: 0,
        lines: &[
            "listening role=full address=127.0.0.1:|full| places=1",
            "listening role=view address=127.0.0.1:|view| places=1",
            "host-tried address=127.0.0.1:|first| why=\"connected\"",
            "host-joined address=127.0.0.1:|first| width=2 height=1 name=\"T\"",
            "viewer-in place=1 role=full address=192.0.2.7:4711",
            "viewer-out place=1 role=full address=192.0.2.7:4711 answers=0 bytes=43 why=\"ended\"",
            "host-out address=127.0.0.1:|first| why=\"ended\"",
        ],
    },
    Scene {
        name: "a proxy whose address is none",
        words: "--proxy-from proxy.example.org --host 127.0.0.1:|first|",
        is_taken: false,
        hosts: &[],
        full: &[],
        view: &[],
        status: FAULT,
        lines: &[
            "fault 21",
            "reflectord: --proxy-from proxy.example.org is no IP address, such as 127.0.0.1",
        ],
    },
];

/// The address in a believed header is the viewer's in the log, and a word that is no address is told to be none.
#[test]
fn proxy_is_believed_where_it_is_told(rt: HostRuntime) -> Result<(), Fail> {
    play_all(rt, rt.alloc(), SCENES)
}
