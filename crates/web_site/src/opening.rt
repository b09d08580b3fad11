//! The opening handshake.

ghost use Rattle.std.specs.Prelude.{◌≡◌, ◌↔◌, false, Some, IfOk, IsOk, IsTrue, option_map};
ghost use Rattle.http.specs.Request.{head_of};
ghost use Rattle.websocket.specs.Handshake.{accept_key_of};
ghost use Rattle.web_site.specs.Admissions.{may_open};
ghost use Rattle.web_site.specs.Openings.{IsHandshake, IsThirteen, Opens, key_in};

use crate::admission::Admission;
use crate::fields::{names, only};
use crate::objection::Objection;
use bytes::Bytes;
use http::{Request, Version, header};
use websocket::handshake::server::accept_key;

/// The answer to the key of an opening handshake (RFC 6455, section 4.2.2) that may open a link: its Host is listed,
/// its Origin is listed or missing, its version is 13 and its key is valid. Where Host or Origin isn't admitted,
/// nothing else is looked at.
pub fn check_opening(admission: &Admission, request: &Request<Bytes>) -> Result<[u8; 28], Objection>
    ensures opens { IsOk result ↔ Opens admission.now (head_of request.now) }
    ensures accepts { IfOk result (λ accept.
        option_map accept_key_of (key_in (head_of request.now).headers) ≡ Some accept) }
    ensures stranger { (result ≡ Err Objection.Stranger)
        ↔ (may_open admission.now (head_of request.now).headers ≡ false) }
{
    if !admission.may_open(request.headers()) {
        return Err(Objection::Stranger);
    }
    if !is_handshake(request) {
        return Err(Objection::Malformed);
    }
    if !is_thirteen(request) {
        return Err(Objection::OtherVersion);
    }
    let Some(key) = only(request.headers(), &header::SEC_WEBSOCKET_KEY) else {
        return Err(Objection::Malformed);
    };
    match accept_key(key) {
        Ok(accept) => Ok(accept),
        Err(_) => Err(Objection::Malformed),
    }
}

/// Whether the request asks this server for a WebSocket, in HTTP/1.1.
fn is_handshake(request: &Request<Bytes>) -> bool
    ensures { IsTrue result ↔ IsHandshake (head_of request.now) }
{
    request.method().as_str() == "GET"
        && request.version() == Version::HTTP_11
        && request.uri().authority().is_none()
        && names(request.headers(), &header::UPGRADE, b"websocket")
        && names(request.headers(), &header::CONNECTION, b"upgrade")
}

fn is_thirteen(request: &Request<Bytes>) -> bool
    ensures { IsTrue result ↔ IsThirteen (head_of request.now).headers }
{
    match only(request.headers(), &header::SEC_WEBSOCKET_VERSION) {
        Some(version) => version == b"13".as_slice(),
        None => false,
    }
}
