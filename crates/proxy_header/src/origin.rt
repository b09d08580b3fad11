//! What a header tells, and why one is refused.

/// Where a connection came from, as the header before it tells.
#[derive(Clone, Copy, Debug, PartialEq, Eq)]
pub enum Origin {
    /// From the peer itself: the proxy speaks for itself, or tells no address that is used here.
    Peer,
    /// From this address and port over IPv4.
    Ipv4 { address: [u8; 4], port: u16 },
    /// From this address and port over IPv6.
    Ipv6 { address: [u8; 16], port: u16 },
}

/// Why a header is refused.
#[derive(Clone, Copy, Debug, PartialEq, Eq)]
pub enum Refusal {
    /// One of the first twelve bytes isn't that of a header.
    Signature,
    /// The version isn't 2.
    Version,
    /// The command is neither LOCAL nor PROXY.
    Command,
    /// The family or the transport of the addresses has no meaning.
    Family,
    /// The block of addresses is longer than what the header says is left of it.
    Length,
}
