//! RRE is written: bytes worked by hand.

use crate::colours::{BLUE, RED};
use pixel_format::Format;
use rre_codec::encode;

#[test]
fn red_and_seven_blue(rt: HostRuntime) {
    let values = [RED, BLUE, BLUE, BLUE, BLUE, BLUE, BLUE, BLUE];
    let mut out = [0u8; 32];
    assert!(rt; encode(&values, 8, 1, &Format::HOST, &mut out) == Some(20));
    let wanted = [
        0, 0, 0, 1, 0, 0, 0xFF, 0, 0xFF, 0, 0, 0, 0, 1, 0, 0, 0, 7, 0, 1,
    ];
    assert!(rt; &out[..20] == wanted.as_slice());
}

#[test]
fn no_fewer_bytes_than_raw(rt: HostRuntime) {
    let mut out = [0u8; 12];
    assert!(rt; encode(&[RED, BLUE, BLUE], 3, 1, &Format::HOST, &mut out).is_none());
    assert!(rt; encode(&[], 0, 3, &Format::HOST, &mut out).is_none());
}
