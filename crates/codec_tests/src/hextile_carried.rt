//! The colours that a tile of Hextile may leave unsaid, rule by rule. Rectangles of one row.

use crate::colours::{BLUE, GREEN, RED};
use crate::hextile_fed::{fails_at_last, shows_row};

/// At the start of a rectangle no colour is carried, and the background is judged first.
#[test]
fn nothing_at_first(rt: HostRuntime) {
    assert!(rt; fails_at_last(rt.alloc(), 2, 1, &[0x00], 10));
    assert!(rt; fails_at_last(rt.alloc(), 2, 1, &[0x08], 10));
    assert!(rt; fails_at_last(rt.alloc(), 2, 1, &[0x0C], 10));
    assert!(rt; fails_at_last(rt.alloc(), 2, 1, &[0x0A], 11));
    assert!(rt; fails_at_last(rt.alloc(), 2, 1, &[0xEA], 11));
}

/// A Raw tile says no colour, whatever its other bits are.
#[test]
fn raw_says_none(rt: HostRuntime) {
    let mut data = [0x55; 66];
    data[0] = 0xFF;
    data[65] = 0x00;
    assert!(rt; fails_at_last(rt.alloc(), 17, 1, &data, 10));
    let mut plain = [0x55; 71];
    plain[0] = 0x02;
    plain[5] = 0xFF;
    plain[70] = 0x08;
    assert!(rt; fails_at_last(rt.alloc(), 33, 1, &plain, 11));
}

/// Both colours survive a Raw tile.
#[test]
fn across_raw(rt: HostRuntime) {
    let mut data = [0; 81];
    data[..10].copy_from_slice(&[0x0E, 0, 0, 0xFF, 0, 0xFF, 0, 0, 0, 0]);
    data[10] = 0x01;
    data[75..79].copy_from_slice(&[0x08, 1, 0x00, 0x00]);
    let mut row = [0; 33];
    row[..16].fill(RED);
    row[32] = BLUE;
    assert!(rt; shows_row(rt.alloc(), &data[..79], &row));
    data[75] = 0x00;
    row[32] = RED;
    assert!(rt; shows_row(rt.alloc(), &data[..76], &row));
}

/// Both colours survive a coloured tile, and what that says in its subrectangles is none of them.
#[test]
fn across_coloured(rt: HostRuntime) {
    let data = [
        0x0E, 0, 0, 0xFF, 0, 0xFF, 0, 0, 0, 0, // red, foreground blue, no subrectangle
        0x18, 1, 0, 0xFF, 0, 0, 0x00, 0xF0, // all green
        0x08, 1, 0x00, 0x00, // blue
    ];
    let mut row = [GREEN; 33];
    row[..16].fill(RED);
    row[32] = BLUE;
    assert!(rt; shows_row(rt.alloc(), &data, &row));
}

/// A foreground is read and carried without subrectangles, and beside coloured ones.
#[test]
fn foreground_alone(rt: HostRuntime) {
    let unused = [0x06, 0, 0, 0xFF, 0, 0xFF, 0, 0, 0, 0x08, 1, 0x00, 0x00];
    let mut row = [RED; 17];
    row[16] = BLUE;
    assert!(rt; shows_row(rt.alloc(), &unused, &row));
    let beside = [
        0x1E, 0, 0, 0xFF, 0, 0xFF, 0, 0, 0, 1, 0, 0xFF, 0, 0, 0x30, 0x00, 0x08, 1, 0x00, 0x00,
    ];
    row[3] = GREEN;
    assert!(rt; shows_row(rt.alloc(), &beside, &row));
}

/// The last colour said is the one that is carried.
#[test]
fn the_last_is_carried(rt: HostRuntime) {
    let data = [
        0x06, 0, 0, 0xFF, 0, 0xFF, 0, 0, 0, // red, foreground blue
        0x06, 0xFF, 0, 0, 0, 0, 0xFF, 0, 0, // blue, foreground green
        0x08, 1, 0x00, 0x00, // two wide: green, blue
    ];
    let mut row = [BLUE; 34];
    row[..16].fill(RED);
    row[32] = GREEN;
    assert!(rt; shows_row(rt.alloc(), &data, &row));
}

/// The three highest bits mean nothing, nor does the bit of coloured subrectangles where there are none.
#[test]
fn bits_without_meaning(rt: HostRuntime) {
    for mask in [0x02, 0x22, 0x42, 0x82, 0xE2, 0x12, 0xF2] {
        let data = [mask, 0, 0, 0xFF, 0, mask & 0xF0];
        assert!(rt; shows_row(rt.alloc(), &data, &[RED; 17]), "{mask}");
    }
}

/// Subrectangles are painted in order, each over those before.
#[test]
fn painted_in_order(rt: HostRuntime) {
    let data = [
        0x1A, 0, 0, 0xFF, 0, 2, 0, 0xFF, 0, 0, 0x10, 0x20, 0xFF, 0, 0, 0, 0x20, 0x00,
    ];
    assert!(rt; shows_row(rt.alloc(), &data, &[RED, GREEN, BLUE, GREEN, RED]));
}
