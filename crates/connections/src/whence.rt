//! Where a newcomer comes from.

ghost use Rattle.std.specs.Prelude.{◌≡◌, ◌↔◌, IsTrue};
ghost use Rattle.connections.specs.Greetings.{IsFromProxy, IsTold};

use link::Record;
use proxy_header::{HeaderReader, Origin, Refusal};
use std::marker::Model;
use std::net::{IpAddr, SocketAddr};

/// Whether the peer of this address is the believed proxy, if there is one. An IPv4 address inside an IPv6 address
/// counts as the IPv4 address.
#[tactic(auto, using(crate::proofs::Canonical::is_one))]
fn is_from(proxy: &Option<IpAddr>, peer: &Option<SocketAddr>) -> bool
    ensures { IsTrue result ↔ IsFromProxy proxy.now peer.now }
{
    match (proxy, peer) {
        (Some(proxy), Some(peer)) => peer.ip().to_canonical() == *proxy,
        _ => false,
    }
}

/// The address that a header tells, of a connection whose peer has this one.
fn told(peer: Option<SocketAddr>, origin: Origin) -> Option<SocketAddr>
    ensures { IsTold peer origin result }
{
    match origin {
        Origin::Peer => peer,
        Origin::Ipv4 { address, port } => Some(SocketAddr::new(IpAddr::from(address), port)),
        Origin::Ipv6 { address, port } => Some(SocketAddr::new(IpAddr::from(address), port)),
    }
}

/// Where a newcomer comes from: as the system tells it or, behind the believed proxy, as the header of the PROXY
/// protocol tells it, which comes first.
#[derive(Drop)]
pub struct Whence {
    peer: Option<SocketAddr>,
    reader: Option<HeaderReader>,
    // The bytes of the header that came, which only clauses read.
    front: Record,
}

impl Model for Whence {
    ghost use Rattle.std.specs.Prelude.{◌≡◌, [], MatchOption, is_some};
    ghost use Rattle.byte_reading.specs.Reading.{after};
    ghost use Rattle.proxy_header.specs.Header.{header};
    ghost use Rattle.proxy_header.specs.State.{ahead};
    ghost use Rattle.connections.specs.Greetings.{Whence as Seen};

    ghost Value = { Seen };

    ghost view = { λ w.
        record { peer = w.peer; is_proxied = is_some w.reader; front = w.front.bytes } };

    ghost invariant = { λ w. MatchOption w.reader (w.front.bytes ≡ [])
        (λ reader. ahead reader ≡ after header w.front.bytes) };
}

impl Whence {
    ghost use Rattle.std.specs.Prelude.{◌≡◌, ◌↔◌, ◌∷◌, ◌++◌, [], IsTrue, false, true};
    ghost use Rattle.connections.specs.Greetings.{IsFromProxy, IsKnown, IsSameComer};

    /// The origin of a newcomer whose peer has this address. The headers of this proxy, if there is one, are believed.
    pub(crate) fn new(peer: Option<SocketAddr>, proxy: &Option<IpAddr>) -> Whence
        ensures peer { result.peer ≡ peer }
        ensures proxied { IsTrue result.is_proxied ↔ IsFromProxy proxy.now peer }
        ensures front { result.front ≡ [] }
    {
        let reader = if is_from(proxy, &peer) {
            Some(HeaderReader::new())
        } else {
            None
        };
        Whence {
            peer,
            reader,
            front: Record::new(),
        }
    }

    /// The newcomer's address, if anyone tells it, or why the header is refused, once that is known. Until then another
    /// byte of the header is wanted.
    pub fn known(&self) -> Option<Result<Option<SocketAddr>, Refusal>>
        ensures { IsKnown self.now result }
    {
        let Some(reader) = &self.reader else {
            return Some(Ok(self.peer));
        };
        match reader.done()? {
            Ok(origin) => Some(Ok(told(self.peer, origin))),
            Err(refusal) => Some(Err(refusal)),
        }
    }

    /// The same newcomer, whose address is known, and of which no header is wanted.
    pub(crate) fn of_address(address: Option<SocketAddr>) -> Whence
        ensures peer { result.peer ≡ address }
        ensures direct { result.is_proxied ≡ false }
        ensures front { result.front ≡ [] }
    {
        Whence {
            peer: address,
            reader: None,
            front: Record::new(),
        }
    }

    /// It does nothing. Its clause says that no header was read from a newcomer from which none is wanted.
    pub(crate) fn reads_no_other_header(&self)
        ensures { self.now.is_proxied ≡ false → self.now.front ≡ [] }
    {
        let _ = &self.reader;
    }

    /// The newcomer's address, if it is known by now.
    pub(crate) fn address(&self) -> Option<SocketAddr> {
        match self.known() {
            Some(Ok(address)) => address,
            _ => None,
        }
    }

    /// The address that the system tells, if it does.
    pub fn peer(&self) -> Option<SocketAddr>
        ensures { result ≡ self.now.peer }
    {
        self.peer
    }

    /// Whether a newcomer that goes now lacked a header: what it sent is no header or, where it is late, a part of the
    /// header hasn't come.
    pub(crate) fn lacks_header(&self, is_late: bool) -> bool {
        match self.known() {
            Some(Ok(_)) => false,
            Some(Err(_)) => true,
            None => is_late,
        }
    }

    /// The bytes of the header that came, which only clauses read.
    pub(crate) fn into_front(self) -> Record
        ensures { result.bytes ≡ self.front }
    {
        self.front
    }

    /// Takes the next byte of the header, if there is to be one.
    #[tactic(auto, using(crate::proofs::Heard::fed))]
    pub(crate) fn feed(&mut self, byte: u8)
        ensures same { IsSameComer self.old self.new }
        ensures front { self.old.is_proxied ≡ true → self.new.front ≡ self.old.front ++ byte ∷ [] }
    {
        if let Some(reader) = &mut self.reader {
            reader.feed(&[byte]);
            self.front.note(&[byte]);
        }
    }
}
