//! Requests to a port, and how each is answered.

use crate::loopback::{connect, hears, reads, sends};
use std::alloc::Global;
use std::net::TcpStream;

/// A head of an answer has at most this many bytes.
const MOST_HEAD: u64 = 4_096;

/// Among the parts of a request this stands for the port that is asked.
pub(crate) const PORT: &str = "port";

/// How the answer to a path begins that isn't there.
pub(crate) const NOT_FOUND: &[u8] = b"HTTP/1.1 404 ";

/// A page that opens a WebSocket asks so, with the host, the page's origin and the standard's key (RFC 6455, section
/// 1.3).
const OPENS: &str = "GET /websockify HTTP/1.1\r\nHost: ";

const FROM: &str = "\r\nUpgrade: websocket\r\nConnection: keep-alive, Upgrade\r\nOrigin: ";

const WITH_KEY: &str =
    "\r\nSec-WebSocket-Key: dGhlIHNhbXBsZSBub25jZQ==\r\nSec-WebSocket-Version: 13\r\n\r\n";

/// A request, and how its answer begins.
pub(crate) struct Ask {
    /// The parts of the request.
    pub(crate) request: &'static [&'static str],
    /// How the answer's head begins.
    pub(crate) status: &'static [u8],
    /// One of the lines of the head. Each head ends with an empty one.
    pub(crate) line: &'static [u8],
    /// How the answer's body begins.
    pub(crate) body: &'static [u8],
}

/// The port's own page opens a WebSocket. Its key is answered (RFC 6455, section 1.3).
pub(crate) const OPENING: Ask = Ask {
    request: &[
        OPENS,
        "127.0.0.1:",
        PORT,
        FROM,
        "http://127.0.0.1:",
        PORT,
        WITH_KEY,
    ],
    status: b"HTTP/1.1 101 ",
    line: b"sec-websocket-accept: s3pPLMBiTxaQ9kYGzzhZRbK+xOo=",
    body: b"",
};

/// A page of another site can't open one.
const STRANGERS_PAGE: Ask = Ask {
    request: &[
        OPENS,
        "127.0.0.1:",
        PORT,
        FROM,
        "https://stranger.example",
        WITH_KEY,
    ],
    status: b"HTTP/1.1 403 ",
    line: b"",
    body: b"",
};

/// Nor can a page without an origin of its own, such as a file or a frame in a sandbox (RFC 6454, section 7.1).
const NOBODYS_PAGE: Ask = Ask {
    request: &[OPENS, "127.0.0.1:", PORT, FROM, "null", WITH_KEY],
    status: b"HTTP/1.1 403 ",
    line: b"",
    body: b"",
};

/// Nor can the port's own page under another host.
const STRANGERS_HOST: Ask = Ask {
    request: &[
        OPENS,
        "stranger.example",
        FROM,
        "http://127.0.0.1:",
        PORT,
        WITH_KEY,
    ],
    status: b"HTTP/1.1 403 ",
    line: b"",
    body: b"",
};

/// Whether a request to this port is put together.
fn is_put(request: &[&str], port: u16, out: &mut String) -> bool {
    let mut is_put = true;
    for part in request {
        let is_added = if *part == PORT {
            write!(out, "{port}").is_ok()
        } else {
            out.push_str(part).is_ok()
        };
        is_put = is_put && is_added;
    }
    is_put
}

/// Whether the head of an answer comes next, which is read.
fn is_headed(stream: &mut TcpStream, head: &mut Vec<u8>) -> bool {
    for _ in 0..MOST_HEAD {
        let mut one = [0u8; 1];
        if !reads(stream, &mut one) || head.push(one[0]).is_err() {
            return false;
        }
        if head.as_slice().ends_with(b"\r\n\r\n") {
            return true;
        }
    }
    false
}

/// Whether one of the lines of a head is this.
fn has_line(head: &[u8], wanted: &[u8]) -> bool {
    for line in head.split(|byte| *byte == b'\n') {
        if line.trim_ascii() == wanted {
            return true;
        }
    }
    false
}

/// Whether a head comes next that is as the answer's has to be.
fn has_head(alloc: Global, stream: &mut TcpStream, ask: &Ask) -> bool {
    let mut head = Vec::new(alloc);
    is_headed(stream, &mut head)
        && head.as_slice().starts_with(ask.status)
        && has_line(head.as_slice(), ask.line)
}

/// Whether the request is sent to this port.
fn is_asked(alloc: Global, stream: &mut TcpStream, port: u16, ask: &Ask) -> bool {
    let mut request = String::new(alloc);
    is_put(ask.request, port, &mut request) && sends(stream, request.as_bytes())
}

/// Whether the request is answered so over a connection to this port.
pub(crate) fn is_answered(alloc: Global, stream: &mut TcpStream, port: u16, ask: &Ask) -> bool {
    is_asked(alloc, stream, port, ask) && has_head(alloc, stream, ask) && hears(stream, ask.body)
}

/// Whether the request is answered so over a new connection.
pub(crate) fn is_told(net: &HostRuntime, port: u16, ask: &Ask) -> bool {
    match connect(net, port) {
        Some(mut stream) => is_answered(net.alloc(), &mut stream, port, ask),
        None => false,
    }
}

/// Whether neither a page of another site nor one of none can open a WebSocket at this port, nor the port's own page
/// under another host.
pub(crate) fn are_strangers_refused(net: &HostRuntime, port: u16) -> bool {
    is_told(net, port, &STRANGERS_PAGE)
        && is_told(net, port, &NOBODYS_PAGE)
        && is_told(net, port, &STRANGERS_HOST)
}
