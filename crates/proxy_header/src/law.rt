//! Laws about headers, in terms of what a proxy sends.

ghost use Rattle.proxy_header.specs.Spelled.{BadHeadersAreRefused, HeadersAreRead};

/// The header that a proxy sends for a connection over IPv4 or IPv6 is read as the address and the port that the
/// connection came from, whatever further fields the header has. A header that speaks for the proxy itself, or for a
/// connection that isn't such a stream, is read as the peer's own address. All bytes of a header are taken.
pub fn headers_are_read()
    ensures { HeadersAreRead }
{}

/// Bytes that are no header are refused at the first byte that shows it, for the reason that it shows.
pub fn bad_headers_are_refused()
    ensures { BadHeadersAreRefused }
{}
