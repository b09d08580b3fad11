//! Headers that HAProxy 2.6 sent, and bytes that are no header, in pieces.

use proxy_header::{HeaderReader, Origin, Refusal};

/// Bytes that follow a header, none of which may be taken.
const RFB: [u8; 12] = *b"RFB 003.008\n";

/// `send-proxy-v2`, from 127.0.0.5 port 40123.
const OVER_IPV4: [u8; 28] = [
    13, 10, 13, 10, 0, 13, 10, 81, 85, 73, 84, 10, 0x21, 0x11, 0, 12, 127, 0, 0, 5, 127, 0, 0, 1,
    0x9c, 0xbb, 0xb3, 0x56,
];

/// `send-proxy-v2`, from ::1 port 40124.
const OVER_IPV6: [u8; 52] = [
    13, 10, 13, 10, 0, 13, 10, 81, 85, 73, 84, 10, 0x21, 0x21, 0, 36, 0, 0, 0, 0, 0, 0, 0, 0, 0, 0,
    0, 0, 0, 0, 0, 1, 0, 0, 0, 0, 0, 0, 0, 0, 0, 0, 0, 0, 0, 0, 0, 1, 0x9c, 0xbc, 0xb3, 0x56,
];

/// A header with a checksum and an empty field, from 127.0.0.6 port 40125.
const WITH_FIELDS: [u8; 38] = [
    13, 10, 13, 10, 0, 13, 10, 81, 85, 73, 84, 10, 0x21, 0x11, 0, 22, 127, 0, 0, 6, 127, 0, 0, 1,
    0x9c, 0xbd, 0xb3, 0x57, 3, 0, 4, 0xea, 0x56, 0xf9, 0xd1, 5, 0, 0,
];

/// The header of a health check, by which the proxy speaks for itself.
const OF_A_CHECK: [u8; 16] = [13, 10, 13, 10, 0, 13, 10, 81, 85, 73, 84, 10, 0x20, 0, 0, 0];

/// What is read of a header that comes in two pieces, the second with what follows it, and how many bytes it has.
fn read(header: &[u8], cut: usize) -> (Option<Result<Origin, Refusal>>, usize) {
    let mut reader = HeaderReader::new();
    let (first, second) = header.split_at(cut.min(header.len()));
    let mut used = reader.feed(first);
    used = used.saturating_add(reader.feed(second));
    used = used.saturating_add(reader.feed(&RFB));
    (reader.done(), used)
}

#[test]
fn headers_of_haproxy(rt: HostRuntime) {
    let mut v6 = [0; 16];
    v6[15] = 1;
    for cut in 0..53 {
        let from_ipv4 = Origin::Ipv4 {
            address: [127, 0, 0, 5],
            port: 40123,
        };
        assert_eq!(rt; read(&OVER_IPV4, cut), (Some(Ok(from_ipv4)), 28));
        let from_ipv6 = Origin::Ipv6 {
            address: v6,
            port: 40124,
        };
        assert_eq!(rt; read(&OVER_IPV6, cut), (Some(Ok(from_ipv6)), 52));
        let with_fields = Origin::Ipv4 {
            address: [127, 0, 0, 6],
            port: 40125,
        };
        assert_eq!(rt; read(&WITH_FIELDS, cut), (Some(Ok(with_fields)), 38));
        assert_eq!(rt; read(&OF_A_CHECK, cut), (Some(Ok(Origin::Peer)), 16));
    }
}

#[test]
fn each_byte_of_a_header_is_wanted(rt: HostRuntime) {
    for count in 0..52 {
        let mut reader = HeaderReader::new();
        let (front, _) = OVER_IPV6.split_at(count);
        assert_eq!(rt; reader.feed(front), count);
        assert_eq!(rt; reader.done(), None);
    }
}

/// A header with one byte changed.
fn changed(at: usize, byte: u8) -> [u8; 28] {
    let mut header = OVER_IPV4;
    if at < 28 {
        header[at] = byte;
    }
    header
}

#[test]
fn bytes_that_are_no_header(rt: HostRuntime) {
    for at in 0..12 {
        assert_eq!(rt;
            read(&changed(at, 0xff), 0),
            (Some(Err(Refusal::Signature)), at + 1)
        );
    }
    for (at, byte, why) in [
        (12, 0x11, Refusal::Version),
        (12, 0x31, Refusal::Version),
        (12, 0x22, Refusal::Command),
        (13, 0x41, Refusal::Family),
        (13, 0x13, Refusal::Family),
        (15, 11, Refusal::Length),
    ] {
        let used = if at == 15 { 16 } else { at + 1 };
        assert_eq!(rt; read(&changed(at, byte), 7), (Some(Err(why)), used));
    }
    assert_eq!(rt; read(&RFB, 0), (Some(Err(Refusal::Signature)), 1));
    assert_eq!(rt;
        read(b"PROXY TCP4 192.0.2.7", 3),
        (Some(Err(Refusal::Signature)), 1)
    );
}
