//! Where viewers come in.

ghost use Rattle.std.specs.Prelude.{◌≡◌, ℕ, List, IfOk, IfErr, IfSome, MatchOption, Some, is_some};
ghost use Rattle.std.specs.declared.net.ip_addr.IpAddr.{IpAddr as Ip};
ghost use Rattle.std.specs.declared.net.socket_addr.SocketAddr.{SocketAddr as Address};
ghost use Rattle.settings.specs.Addresses.{IsAddressFor, IsBindText, IsBracketed, IsMetricsAddressFor, IsProxyFor, IsWebAddressFor};
ghost use Rattle.settings.specs.ByRole.{bind_for, web_port_for};

use crate::by_role::{bind_of, port_of};
use crate::values::Settings;
use roles::Role;
use std::net::{AddrParseError, IpAddr, SocketAddr};

/// What stands between the square brackets of a text, if it is in square brackets.
#[tactic(auto, using(crate::proofs::Enclosed::bracketed, crate::proofs::Enclosed::no_front, crate::proofs::Enclosed::no_end))]
fn in_brackets(text: &str) -> Option<&str>
    ensures { MatchOption result ((inner : List ℕ) → ¬ (IsBracketed text.now inner))
        (λ inner. IsBracketed text.now inner.now) }
{
    text.strip_prefix("[")?.strip_suffix("]")
}

/// The IP address that a text to bind writes.
#[tactic(auto, using(crate::proofs::Enclosed::is_no_bind_text, crate::proofs::Enclosed::is_neither))]
fn ip_of(text: &str) -> Result<IpAddr, AddrParseError>
    ensures ok { IfOk result (λ ip. IsBindText text.now ip) }
    ensures err { IfErr result (λ _. (ip : Ip) → ¬ (IsBindText text.now ip)) }
{
    match text.parse::<IpAddr>() {
        Ok(ip) => Ok(ip),
        Err(error) => match in_brackets(text) {
            Some(inner) => inner.parse::<IpAddr>(),
            None => Err(error),
        },
    }
}

/// The address at which the viewers of a role come in. It fails where the text to bind is no IP address.
pub fn address_of(settings: &Settings, role: Role) -> Result<SocketAddr, AddrParseError>
    ensures ok { IfOk result (λ address. IsAddressFor role settings.now address) }
    ensures err { IfErr result (λ _. (ip : Ip) → ¬ (IsBindText (bind_for role settings.now) ip)) }
{
    let bind = bind_of(settings, role);
    match ip_of(bind) {
        Ok(ip) => Ok(SocketAddr::new(ip, port_of(settings, role))),
        Err(error) => Err(error),
    }
}

/// The address at which the browsers of a role come in, at this port of theirs. It fails where the text to bind is no
/// IP address.
pub fn web_address_of(
    settings: &Settings,
    role: Role,
    port: u16,
) -> Result<SocketAddr, AddrParseError>
    requires { web_port_for role settings.now ≡ Some port }
    ensures ok { IfOk result (λ address. IsWebAddressFor role settings.now address) }
    ensures err { IfErr result (λ _. (ip : Ip) → ¬ (IsBindText (bind_for role settings.now) ip)) }
{
    let bind = bind_of(settings, role);
    match ip_of(bind) {
        Ok(ip) => Ok(SocketAddr::new(ip, port)),
        Err(error) => Err(error),
    }
}

/// The address of the proxy that is believed, if the settings have a text for one. It fails where that is no IP
/// address.
pub fn proxy_of(settings: &Settings) -> Result<Option<IpAddr>, AddrParseError>
    ensures ok { IfOk result (λ proxy. IsProxyFor settings.now proxy) }
    ensures err { IfErr result (λ _. (ip : Ip) → ¬ (IsProxyFor settings.now (Some ip))) }
{
    match &settings.proxy_from {
        Some(text) => match ip_of(text.as_str()) {
            Ok(ip) => Ok(Some(ip)),
            Err(error) => Err(error),
        },
        None => Ok(None),
    }
}

/// The address at which machines read the run's numbers, if the settings have a text for one. It fails where that
/// writes no IP address with a port.
pub fn metrics_address_of(settings: &Settings) -> Option<Result<SocketAddr, AddrParseError>>
    ensures none { is_some result ≡ is_some settings.now.metrics }
    ensures ok { IfSome result (λ address. IfOk address (λ a. IsMetricsAddressFor settings.now a)) }
    ensures err { IfSome result (λ address. IfErr address (λ _.
        (a : Address) → ¬ (IsMetricsAddressFor settings.now a))) }
{
    match &settings.metrics {
        Some(text) => Some(text.as_str().parse::<SocketAddr>()),
        None => None,
    }
}
