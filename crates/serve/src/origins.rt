//! Under which names a web port is known.

ghost use Rattle.std.specs.Prelude.{◌≡◌, ◌↔◌, All, IfOk, IsSomeAnd, IsTrue, List, MatchOption, OnOk, map, slice_get, ℕ};
ghost use Rattle.std.specs.String.{string_bytes};
ghost use Rattle.serve.specs.Origins.{AddsNamed, IsAnOrigin, IsOrigin, IsPart, origin_over_http, origins_let_in, own_hosts, spelled, url_host};

use std::alloc::{AllocError, Global};
use std::net::{IpAddr, SocketAddr};
use web_site::Admission;

/// The port that a browser leaves out of an address of http.
const HTTP: u16 = 80;

/// Whether the text is a part of an origin.
fn is_part(text: &str) -> bool
    ensures { IsTrue result ↔ IsPart text.now }
{
    let bytes = text.as_bytes();
    !bytes.is_empty() && bytes.iter().all(|byte| *byte != b'/' && *byte != b'@')
}

/// What comes behind the scheme of an origin, as `lecture.example:8443` of `https://lecture.example:8443`, or `None`
/// where the text is no origin. An origin has a scheme, a host, and perhaps a port (RFC 6454, section 6.2).
fn authority_of(origin: &str) -> Option<&str>
    ensures { MatchOption result (¬ (IsAnOrigin origin.now))
        (λ authority. (scheme : List ℕ) × IsOrigin origin.now scheme authority.now) }
{
    let Some((scheme, authority)) = origin.split_once("://") else {
        return None;
    };
    if is_part(scheme) && is_part(authority) {
        Some(authority)
    } else {
        None
    }
}

/// Whether the text is an origin.
#[tactic(auto, using(crate::proofs::Splits::is_one))]
fn is_origin(text: &str) -> bool
    ensures { IsTrue result ↔ IsAnOrigin text.now }
{
    authority_of(text).is_some()
}

/// The number of the first text that is no origin.
pub(crate) fn first_bad(origins: &[String]) -> Option<usize>
    ensures { MatchOption result (All (λ origin. IsAnOrigin (string_bytes origin)) origins.now)
        (λ number.
        IsSomeAnd (slice_get origins.now number) (λ origin. ¬ (IsAnOrigin (string_bytes origin)))) }
{
    for (number, origin) in origins.iter().enumerate() {
        if !is_origin(origin.as_str()) {
            return Some(number);
        }
    }
    None
}

/// A host with its port, as a browser spells it.
fn host_text(alloc: Global, host: &str, port: u16) -> Result<String, AllocError>
    ensures { IfOk result (λ text. string_bytes text ≡ spelled host.now port) }
{
    if port == HTTP {
        String::from_str(alloc, host)
    } else {
        format!(in alloc; "{host}:{port}")
    }
}

/// An IP address as the host of a URL.
fn url_host(alloc: Global, ip: IpAddr) -> Result<String, AllocError>
    ensures { IfOk result (λ host. string_bytes host ≡ url_host ip) }
{
    match ip {
        IpAddr::V4(ip) => format!(in alloc; "{ip}"),
        IpAddr::V6(ip) => format!(in alloc; "[{ip}]"),
    }
}

/// The hosts of a listener at this address, spelled as by browsers that reach it by its address or are on its machine.
fn own_hosts(alloc: Global, address: SocketAddr) -> Result<Vec<String>, AllocError>
    ensures { IfOk result (λ hosts. map string_bytes hosts.items ≡ own_hosts address) }
{
    let port = address.port();
    let own = url_host(alloc, address.ip())?;
    let mut hosts = Vec::new(alloc);
    hosts.push(host_text(alloc, "127.0.0.1", port)?)?;
    hosts.push(host_text(alloc, "localhost", port)?)?;
    hosts.push(host_text(alloc, "[::1]", port)?)?;
    hosts.push(host_text(alloc, own.as_str(), port)?)?;
    Ok(hosts)
}

/// The origins of pages that come from these hosts over http.
fn origins_of(alloc: Global, hosts: &[String]) -> Result<Vec<String>, AllocError>
    ensures { IfOk result (λ origins.
        map string_bytes origins.items ≡ map origin_over_http (map string_bytes hosts.now)) }
{
    let mut origins = Vec::new(alloc);
    for host in hosts {
        origins.push(format!(in alloc; "http://{}", host.as_str())?)?;
    }
    Ok(origins)
}

/// Copies of these texts.
fn copies(alloc: Global, texts: &[String]) -> Result<Vec<String>, AllocError>
    ensures { IfOk result (λ copies. map string_bytes copies.items ≡ map string_bytes texts.now) }
{
    let mut copies = Vec::new(alloc);
    for text in texts {
        copies.push(String::from_str(alloc, text.as_str())?)?;
    }
    Ok(copies)
}

/// Adds the hosts that these origins name.
fn add_hosts(alloc: Global, hosts: &mut Vec<String>, origins: &[String]) -> Result<(), AllocError>
    ensures { OnOk result (AddsNamed (map string_bytes origins.now)
        (map string_bytes hosts.old.items) (map string_bytes hosts.new.items)) }
{
    for origin in origins {
        if let Some(authority) = authority_of(origin.as_str()) {
            hosts.push(String::from_str(alloc, authority)?)?;
        }
    }
    Ok(())
}

/// What a web port at this address lets in: pages of the origins that are named, or pages of its own origins where none
/// are named. Its hosts are its own and those of the named origins.
pub(crate) fn admission_of(
    alloc: Global,
    address: SocketAddr,
    origins: &[String],
) -> Result<Admission, AllocError>
    ensures origins { IfOk result (λ admission. map string_bytes admission.origins.items
        ≡ origins_let_in address (map string_bytes origins.now)) }
    ensures hosts { IfOk result (λ admission. AddsNamed (map string_bytes origins.now)
        (own_hosts address) (map string_bytes admission.hosts.items)) }
{
    let mut hosts = own_hosts(alloc, address)?;
    if origins.is_empty() {
        let origins = origins_of(alloc, hosts.as_slice())?;
        return Ok(Admission { hosts, origins });
    }
    add_hosts(alloc, &mut hosts, origins)?;
    let origins = copies(alloc, origins)?;
    Ok(Admission { hosts, origins })
}
