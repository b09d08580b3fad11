//! Viewers that are not let in, and what they are told.

use crate::loopback::{VERSION, address_of, connect, hears, sends};
use crate::room::Ear;
use std::net::{Net, TcpListener, TcpStream};
use std::sync::Wait;
use std::time::Clock;

/// What a viewer is told that isn't let in: version 3.8, no security type, and the reason with its length (RFC 6143,
/// 7.1.1 and 7.1.2). The log has a line of it, if there is one.
pub(crate) struct Refusal {
    /// The log's line, up to the viewer's address.
    pub(crate) line: &'static str,
    /// What the viewer is told.
    pub(crate) told: &'static [u8],
}

/// It finds no place.
pub(crate) const NO_PLACE: &Refusal = &Refusal {
    line: "no-place role=full address=",
    told: b"RFB 003.008\n\0\0\0\0\x14all places are taken",
};

/// It finds no place among those that only look on.
pub(crate) const NO_PLACE_TO_VIEW: &Refusal = &Refusal {
    line: "no-place role=view address=",
    told: b"RFB 003.008\n\0\0\0\0\x14all places are taken",
};

/// It comes before there is a host.
pub(crate) const NO_HOST: &Refusal = &Refusal {
    line: "no-host role=full address=",
    told: b"RFB 003.008\n\0\0\0\0\x0Bno host yet",
};

/// It would only look on, and comes before there is a host.
pub(crate) const NO_HOST_TO_VIEW: &Refusal = &Refusal {
    line: "no-host role=view address=",
    told: b"RFB 003.008\n\0\0\0\0\x0Bno host yet",
};

/// It comes while no viewer is let in.
pub(crate) const NO_ENTRY: &Refusal = &Refusal {
    line: "no-entry role=full address=",
    told: b"RFB 003.008\n\0\0\0\0\x13no viewer is let in",
};

/// Whether the log tells that a viewer which has sent its version is refused so, and the viewer is told so. Otherwise
/// the log tells that it has a place.
pub(crate) fn is_refused<R: Wait + Clock + Drop>(
    ear: &Ear<R>,
    refusal: &Refusal,
    stream: &mut TcpStream,
) -> bool {
    let address = address_of(stream);
    ear.hears_of(" address=", address, "\n")
        && ear.has_of(refusal.line, address, "\n")
        && ear.wants(refusal.line, address, "")
        && hears(stream, refusal.told)
}

/// Whether another viewer that comes is refused so.
pub(crate) fn is_another_refused<R>(ear: &Ear<R>, port: u16, refusal: &Refusal) -> bool
where
    R: Net<Stream = TcpStream, Listener = TcpListener> + Wait + Clock + Drop,
{
    match connect(ear, port) {
        Some(mut stream) => sends(&mut stream, VERSION) && is_refused(ear, refusal, &mut stream),
        None => false,
    }
}
