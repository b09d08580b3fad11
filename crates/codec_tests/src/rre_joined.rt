//! RRE is written of joined runs: bytes worked by hand.

use crate::colours::{BLUE, GREEN, RED};
use joined_runs::RectForm;
use pixel_format::Format;
use rre_codec::encode_as;

/// Whether these values of a rectangle are written as exactly these bytes, or not at all where there are none.
fn is_joined_as(values: &[u32], w: u16, h: u16, wanted: &[u8]) -> bool {
    let (w, h) = (u64::from(w), u64::from(h));
    if values.len() > 64 || values.len() as u64 != w * h {
        return false;
    }
    let mut out = [0u8; 256];
    match encode_as(RectForm::Joined, values, w, h, &Format::HOST, &mut out) {
        Some(count) => out.get(..count) == Some(wanted),
        None => wanted.is_empty(),
    }
}

/// Eight by three, and in it three blue columns.
#[test]
fn three_columns(rt: HostRuntime) {
    let mut values = [RED; 24];
    values[2..5].fill(BLUE);
    values[10..13].fill(BLUE);
    values[18..21].fill(BLUE);
    let wanted = [
        0, 0, 0, 1, 0, 0, 0xFF, 0, 0xFF, 0, 0, 0, 0, 2, 0, 0, 0, 3, 0, 3,
    ];
    assert!(rt; is_joined_as(&values, 8, 3, &wanted));
}

/// Eight by four: a run that goes on, one with another end, and one of another colour, in the order of their first
/// rows.
#[test]
fn some_are_joined(rt: HostRuntime) {
    let mut values = [RED; 32];
    values[1..3].fill(BLUE);
    values[9..11].fill(BLUE);
    values[14..16].fill(GREEN);
    values[17..20].fill(BLUE);
    values[22..24].fill(GREEN);
    values[25..28].fill(GREEN);
    let wanted = [
        0, 0, 0, 4, 0, 0, 0xFF, 0, // on red
        0xFF, 0, 0, 0, 0, 1, 0, 0, 0, 2, 0, 2, // blue, two rows
        0, 0xFF, 0, 0, 0, 6, 0, 1, 0, 2, 0, 2, // green, two rows
        0xFF, 0, 0, 0, 0, 1, 0, 2, 0, 3, 0, 1, // blue, one further on
        0, 0xFF, 0, 0, 0, 1, 0, 3, 0, 3, 0, 1, // green below it
    ];
    assert!(rt; is_joined_as(&values, 8, 4, &wanted));
}

/// Runs with a row between them, of a rectangle one pixel wide.
#[test]
fn nothing_is_joined_over_a_gap(rt: HostRuntime) {
    let values = [
        RED, BLUE, BLUE, RED, BLUE, RED, RED, RED, RED, RED, RED, RED, RED,
    ];
    let wanted = [
        0, 0, 0, 2, 0, 0, 0xFF, 0, // on red
        0xFF, 0, 0, 0, 0, 0, 0, 1, 0, 1, 0, 2, // two rows
        0xFF, 0, 0, 0, 0, 0, 0, 4, 0, 1, 0, 1,
    ];
    assert!(rt; is_joined_as(&values, 1, 13, &wanted));
}

#[test]
fn no_fewer_bytes_than_raw(rt: HostRuntime) {
    assert!(rt; is_joined_as(&[RED, BLUE, BLUE], 3, 1, &[]));
    assert!(rt; is_joined_as(&[], 0, 3, &[]));
    assert!(rt; is_joined_as(&[RED, BLUE, GREEN, RED, BLUE], 1, 5, &[]));
}
