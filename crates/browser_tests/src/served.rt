//! `serve` between a host and two browsers.

ghost use Rattle.settings.specs.ByRole.{HasPlaces};

use crate::asks::{Ask, PORT, are_strangers_refused, is_told};
use crate::browser::Browser;
use crate::host::{INIT, KEY, UPDATE, VERSION, is_told_a_key};
use crate::loopback::{free_port, listen};
use serve::{Ports, Served, serve};
use settings::Settings;
use std::alloc::{AllocGlobal, Global};
use std::env::Env;
use std::fs::File;
use std::net::{Net, TcpListener, TcpStream};
use std::random::RandomSource;
use std::rt::Files;
use std::sync::Wait;
use std::test::*;
use std::thread::Threads;
use std::time::Clock;
use std::{io, thread};

/// The server's side up to its screen: the version, one type of security, and that it went well (RFC 6143, 7.1.1 to
/// 7.1.3).
const GREETING: &[u8] = b"RFB 003.008\n\x01\x01\0\0\0\0";

/// Asks for the whole screen (RFC 6143, 7.5.3).
const ASK: &[u8] = b"\x03\0\0\0\0\0\0\x02\0\x01";

/// The answer of a black screen, one rectangle, Raw, which is as long as the update's (RFC 6143, 7.6.1 and 7.7.1).
const BLACK: &[u8] = b"\0\0\0\x01\0\0\0\0\0\x02\0\x01\0\0\0\0\0\0\0\0\0\0\0\0";

/// What a viewer that only looks on types, of which a host is told nothing: a key and a button that go down and stay
/// there, and a text (RFC 6143, 7.5.4 to 7.5.6).
const IN_VAIN: &[u8] = b"\x04\x01\0\0\0\0\0\x76\x05\x01\0\x01\0\0\x06\0\0\0\0\0\0\x02no";

/// At most this many answers are black.
const MOST_BLACK: u64 = 100_000;

/// The page where there are no files.
const PAGE: Ask = Ask {
    request: &["GET / HTTP/1.1\r\nHost: 127.0.0.1:", PORT, "\r\n\r\n"],
    status: b"HTTP/1.1 200 ",
    line: b"",
    body: b"<!DOCTYPE html>",
};

/// The ports of a run: those of viewers over TCP, and those of browsers.
#[derive(Clone, Copy)]
struct PortsOfRun {
    full: u16,
    view: u16,
    web_full: u16,
    web_view: u16,
}

/// Four free ports.
fn free_ports(net: &HostRuntime) -> PortsOfRun {
    PortsOfRun {
        full: free_port(net),
        view: free_port(net),
        web_full: free_port(net),
        web_view: free_port(net),
    }
}

/// Whether a browser is greeted.
fn is_greeted(browser: &mut Browser) -> bool {
    let mut is_said = true;
    for said in [VERSION, b"\x01".as_slice(), b"\x01".as_slice()] {
        is_said = is_said && browser.says(said);
    }
    is_said && browser.hears(GREETING) && browser.hears(INIT)
}

/// A browser at this port that was greeted.
fn greeted(net: &HostRuntime, port: u16) -> Option<Browser> {
    let mut browser = Browser::open(net, port)?;
    if is_greeted(&mut browser) {
        Some(browser)
    } else {
        None
    }
}

/// Whether it is shown the host's update, perhaps after a black screen.
fn is_shown(browser: &mut Browser) -> bool {
    let mut given = [0u8; 24];
    for _ in 0..MOST_BLACK {
        if !browser.says(ASK) || !browser.reads(&mut given) {
            return false;
        }
        if given.as_slice() != BLACK {
            break;
        }
    }
    given.as_slice() == UPDATE
}

/// Whether both browsers are shown the update, and each that asks is given the page, while strangers are refused. The
/// browser that only looks on types in vain: its answer shows that this was read. Then the other types, and both are
/// let go.
fn are_met(net: &HostRuntime, ports: PortsOfRun, view: &mut Browser, full: &mut Browser) -> bool {
    is_shown(view)
        && is_shown(full)
        && is_told(net, ports.web_view, &PAGE)
        && are_strangers_refused(net, ports.web_view)
        && are_strangers_refused(net, ports.web_full)
        && view.says(IN_VAIN)
        && is_shown(view)
        && full.says(KEY)
        && full.is_let_go()
        && view.is_let_go()
}

/// Whether a browser at each port is met so.
fn are_served(net: &HostRuntime, ports: PortsOfRun) -> bool {
    let Some(mut view) = greeted(net, ports.web_view) else {
        return false;
    };
    match greeted(net, ports.web_full) {
        Some(mut full) => are_met(net, ports, &mut view, &mut full),
        None => false,
    }
}

/// The settings of a run before this host, with one place of each role.
fn settings(alloc: Global, host: String, bind: String, ports: PortsOfRun) -> Settings
    ensures { HasPlaces result }
{
    Settings {
        host,
        host_password: None,
        bind,
        full_bind: None,
        full: ports.full,
        view: ports.view,
        view_only: false,
        full_password: None,
        view_password: None,
        full_places: 1,
        view_places: 1,
        room: None,
        plain_runs: false,
        no_zrle: false,
        web_full: Some(ports.web_full),
        web_view: Some(ports.web_view),
        web_root: None,
        web_origins: Vec::new(alloc),
        metrics: None,
        proxy_from: None,
        log: false,
        again: None,
        from: None,
        speed: None,
        stalled: 60,
        control: None,
        recording: None,
        recording_key: 60,
        next: Vec::new(alloc),
    }
}

/// The status of `serve` before this host.
fn status<R>(rt: R, host: &TcpListener, ports: PortsOfRun) -> io::Result<u8>
where
    R: Net<Stream = TcpStream, Listener = TcpListener>
        + Threads
        + Wait
        + Clock
        + Files<File = File, Dir: Send>
        + AllocGlobal
        + RandomSource
        + Env
        + Eprint
        + Copy
        + Drop
        + Send
        + 'static,
{
    let alloc = rt.alloc();
    let host = format!(in alloc; "{}", host.local_addr()?)?;
    let bind = String::from_str(alloc, "127.0.0.1")?;
    let settings = settings(alloc, host, bind, ports);
    let Served {
        status,
        ran: _,
        stopped: _,
    } = serve(rt, alloc, &settings, &mut Ports::new(alloc));
    Ok(status)
}

/// Whether the host is told what it should be, each browser is, and the run ends well.
fn plays<R>(rt: R, net: &HostRuntime, host: &TcpListener, ports: PortsOfRun) -> bool
where
    R: Net<Stream = TcpStream, Listener = TcpListener>
        + Threads
        + Wait
        + Clock
        + Files<File = File, Dir: Send>
        + AllocGlobal
        + RandomSource
        + Env
        + Eprint
        + Copy
        + Drop
        + Send
        + Sync
        + 'static,
{
    let ((is_told, are_served), status) = thread::join(
        &rt,
        || thread::join(&rt, || is_told_a_key(host), || are_served(net, ports)),
        || status(rt, host, ports),
    );
    is_told && are_served && matches!(status, Ok(0))
}

#[test]
fn browsers_are_shown_a_host_and_one_may_type(rt: HostRuntime) -> Result<(), Fail> {
    let host = listen(&rt)?;
    assert!(rt; plays(rt, &rt, &host, free_ports(&rt)));
    Ok(())
}
