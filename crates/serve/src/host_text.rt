//! The texts that say where hosts are.

ghost use Rattle.std.specs.Prelude.{◌≡◌, ◌∷◌, IfNone, IfOk, IfSome, map};
ghost use Rattle.std.specs.String.{string_bytes};
ghost use Rattle.std.specs.declared.net.socket_addr.SocketAddr.{SocketAddr as Address};
ghost use Rattle.serve.specs.Hosts.{CallsAt};

use crate::trouble::{Stage, Trouble};
use fault::Fault;
use settings::{Settings, recording_path};
use std::alloc::{AllocError, Global};
use std::net::SocketAddr;

/// The most letters that a name of the domain name system has (RFC 1035, section 2.3.4).
const LONGEST_NAME: usize = 253;

/// Whether a text may be a machine's name, whose addresses the system is asked for: it has only letters, digits, dots,
/// hyphens and underscores. In a line of the log such a text needs no quotation marks.
fn may_be_a_name(text: &str) -> bool {
    !text.is_empty() && text.len() <= LONGEST_NAME && text.bytes().all(is_of_a_name)
}

fn is_of_a_name(byte: u8) -> bool {
    byte.is_ascii_alphanumeric() || matches!(byte, b'.' | b'-' | b'_')
}

/// The address at which the host of this text calls, if it does: the text has it after `listen:`.
pub(crate) fn call_address(text: &str) -> Option<SocketAddr>
    ensures some { IfSome result (λ address. CallsAt text.now address) }
    ensures none { IfNone result ((address : Address) → ¬ CallsAt text.now address) }
{
    let said = text.strip_prefix("listen:")?;
    said.parse::<SocketAddr>().ok()
}

/// Whether a text says where a host is: an address with a port, as `192.0.2.7:5900` and `[::1]:5900`, or a name with
/// one. Or it says where the host calls: at an address with a port other than 0, after `listen:`. Or it says the path
/// of a recording, after `file:`.
fn says_where(text: &str) -> bool {
    if let Some(path) = recording_path(text) {
        return !path.is_empty();
    }
    if let Some(address) = call_address(text) {
        return address.port() != 0;
    }
    if text.parse::<SocketAddr>().is_ok() {
        return true;
    }
    match text.rsplit_once(':') {
        Some((name, port)) => may_be_a_name(name) && port.parse::<u16>().is_ok(),
        None => false,
    }
}

/// The texts of the hosts, by their numbers: the first, and those that follow on it. It fails where one of them
/// doesn't say where a host is.
pub(crate) fn texts_of(alloc: Global, settings: &Settings) -> Result<Vec<String>, Trouble>
    ensures { IfOk result (λ texts. map string_bytes texts.items
        ≡ string_bytes settings.now.host ∷ map string_bytes settings.now.next.items) }
{
    if !says_where(settings.host.as_str()) {
        return Err(Trouble::new(Stage::ReadHost, Fault::LinkFailed));
    }
    for (number, host) in settings.next.iter().enumerate() {
        if !says_where(host.as_str()) {
            return Err(Trouble::new(Stage::ReadNext(number), Fault::LinkFailed));
        }
    }
    match copied(alloc, settings) {
        Ok(texts) => Ok(texts),
        Err(_) => Err(Trouble::new(Stage::Start, Fault::Memory)),
    }
}

fn copied(alloc: Global, settings: &Settings) -> Result<Vec<String>, AllocError>
    ensures { IfOk result (λ texts. map string_bytes texts.items
        ≡ string_bytes settings.now.host ∷ map string_bytes settings.now.next.items) }
{
    let mut texts = Vec::new(alloc);
    texts.push(String::from_str(alloc, settings.host.as_str())?)?;
    for host in &settings.next {
        texts.push(String::from_str(alloc, host.as_str())?)?;
    }
    Ok(texts)
}
