//! What is written in Hextile of joined runs, against bytes worked by hand from RFC 6143, section 7.7.4.

use crate::colours::{BLUE, GREEN, RED};
use hextile_codec::encode_as;
use joined_runs::RectForm;
use pixel_format::Format;
use std::test::Fail;

/// How many pixels a rectangle of these tests has at most.
const MOST_PIXELS: usize = 512;

/// Whether these values of a rectangle are written as exactly these bytes, or not at all where there are none.
fn is_joined_as(values: &[u32], w: u16, h: u16, format: &Format, wanted: &[u8]) -> bool {
    let (w, h) = (u64::from(w), u64::from(h));
    if values.len() > MOST_PIXELS || values.len() as u64 != w * h {
        return false;
    }
    let mut out = [0u8; 4 * MOST_PIXELS];
    match encode_as(RectForm::Joined, values, w, h, format, &mut out) {
        Some(count) => out.get(..count) == Some(wanted),
        None => wanted.is_empty(),
    }
}

/// Five by five, a red cross on blue: the beam above, the bar, the beam below.
#[test]
fn a_cross(rt: HostRuntime) {
    let mut values = [BLUE; 25];
    for k in [2, 7, 10, 11, 12, 13, 14, 17, 22] {
        values[k] = RED;
    }
    let wanted = [
        0x0E, 0xFF, 0, 0, 0, 0, 0, 0xFF, 0, 3, 0x20, 0x01, 0x02, 0x40, 0x23, 0x01,
    ];
    assert!(rt; is_joined_as(&values, 5, 5, &Format::HOST, &wanted));
}

/// Six by four, a red frame of 16 pixels round 8 blue ones, which are one subrectangle.
#[test]
fn a_thick_frame(rt: HostRuntime) {
    let mut values = [RED; 24];
    values[7..11].fill(BLUE);
    values[13..17].fill(BLUE);
    let wanted = [0x0E, 0, 0, 0xFF, 0, 0xFF, 0, 0, 0, 1, 0x11, 0x31];
    assert!(rt; is_joined_as(&values, 6, 4, &Format::HOST, &wanted));
}

/// Ten by ten, a red frame of 36 pixels round 64 blue ones, though the first pixel is red.
#[test]
fn a_thin_frame(rt: HostRuntime) {
    let mut values = [RED; 100];
    for y in 1..9 {
        values[10 * y + 1..10 * y + 9].fill(BLUE);
    }
    let wanted = [
        0x0E, 0xFF, 0, 0, 0, 0, 0, 0xFF, 0, 4, // red on blue
        0x00, 0x90, 0x01, 0x07, 0x91, 0x07, 0x09, 0x90, // above, left, right, below
    ];
    assert!(rt; is_joined_as(&values, 10, 10, &Format::HOST, &wanted));
}

/// Five by four. Each run has another end than those of the rows beside it.
#[test]
fn a_ladder(rt: HostRuntime) {
    let mut values = [BLUE; 20];
    for k in [0, 1, 5, 6, 7, 11, 12, 16] {
        values[k] = RED;
    }
    let wanted = [
        0x0E, 0xFF, 0, 0, 0, 0, 0, 0xFF, 0, 4, 0x00, 0x10, 0x01, 0x20, 0x12, 0x10, 0x13, 0x00,
    ];
    assert!(rt; is_joined_as(&values, 5, 4, &Format::HOST, &wanted));
}

/// Six by three: runs of the same ends, red, green and red.
#[test]
fn another_colour_is_not_joined(rt: HostRuntime) {
    let mut values = [BLUE; 18];
    values[2..4].fill(RED);
    values[8..10].fill(GREEN);
    values[14..16].fill(RED);
    let wanted = [
        0x1A, 0xFF, 0, 0, 0, 3, // on blue
        0, 0, 0xFF, 0, 0x20, 0x10, 0, 0xFF, 0, 0, 0x21, 0x10, 0, 0, 0xFF, 0, 0x22, 0x10,
    ];
    assert!(rt; is_joined_as(&values, 6, 3, &Format::HOST, &wanted));
}

/// Six by three: runs of the same ends with a row of the background between them.
#[test]
fn nothing_is_joined_over_a_gap(rt: HostRuntime) {
    let mut values = [BLUE; 18];
    values[2..4].fill(RED);
    values[14..16].fill(RED);
    let wanted = [
        0x0E, 0xFF, 0, 0, 0, 0, 0, 0xFF, 0, 2, 0x20, 0x10, 0x22, 0x10,
    ];
    assert!(rt; is_joined_as(&values, 6, 3, &Format::HOST, &wanted));
}

/// Of two values that are equally frequent the one that comes first is the background, whatever the first pixel is.
#[test]
fn equally_frequent(rt: HostRuntime) {
    let mut values = [RED; 16];
    values[8..].fill(BLUE);
    let wanted = [0x0E, 0, 0, 0xFF, 0, 0xFF, 0, 0, 0, 1, 0x01, 0x70];
    assert!(rt; is_joined_as(&values, 8, 2, &Format::HOST, &wanted));
    // Two green ones, the first and the last, and seven each of red and blue, row by row.
    let mut values = [RED; 16];
    values[0] = GREEN;
    values[4..8].fill(BLUE);
    values[12..15].fill(BLUE);
    values[15] = GREEN;
    let wanted = [
        0x1A, 0, 0, 0xFF, 0, 4, // on red
        0, 0xFF, 0, 0, 0x00, 0x00, 0xFF, 0, 0, 0, 0x01, 0x30, // green, blue
        0xFF, 0, 0, 0, 0x03, 0x20, 0, 0xFF, 0, 0, 0x33, 0x00, // blue, green
    ];
    assert!(rt; is_joined_as(&values, 4, 4, &Format::HOST, &wanted));
}

/// A whole tile whose first pixels are these many values, from 1 on, each its own run, and the others red.
fn of_values(count: usize) -> [u32; 256] {
    let mut values = [RED; 256];
    for k in 0..count.min(256) {
        values[k] = k as u32 + 1;
    }
    values
}

/// 169 runs have 1,020 bytes, and 170 have 1,026, one more than Raw's; 255 are the most that there can be.
#[test]
fn the_most_runs(rt: HostRuntime) {
    let mut wanted = [0u8; 1020];
    wanted[..6].copy_from_slice(&[0x1A, 0, 0, 0xFF, 0, 169]);
    for k in 0..169 {
        wanted[6 + 6 * k] = k as u8 + 1;
        wanted[10 + 6 * k] = (k % 16 * 16 + k / 16) as u8;
    }
    assert!(rt; is_joined_as(&of_values(169), 16, 16, &Format::HOST, &wanted));
    for count in [170, 254, 255, 256] {
        assert!(rt;
            is_joined_as(&of_values(count), 16, 16, &Format::HOST, &[]),
            "{count}"
        );
    }
}

/// A tile of 256 values below a plain one: 255 runs, and so Raw.
#[test]
fn too_many_runs(rt: HostRuntime) {
    let mut values = [RED; 512];
    let mut wanted = [0u8; 1030];
    wanted[..6].copy_from_slice(&[2, 0, 0, 0xFF, 0, 1]);
    for k in 0..256 {
        values[256 + k] = k as u32;
        wanted[6 + 4 * k] = k as u8;
    }
    assert!(rt; is_joined_as(&values, 16, 32, &Format::HOST, &wanted));
}

/// A chessboard has 128 runs, of which none is joined.
#[test]
fn a_chessboard(rt: HostRuntime) {
    let mut values = [RED; 256];
    let mut wanted = [0u8; 266];
    wanted[..10].copy_from_slice(&[0x0E, 0, 0, 0xFF, 0, 0xFF, 0, 0, 0, 128]);
    for k in 0..128 {
        let (x, y) = (k % 8 * 2 + (k / 8 + 1) % 2, k / 8);
        values[16 * y + x] = BLUE;
        wanted[10 + 2 * k] = (16 * x + y) as u8;
    }
    assert!(rt; is_joined_as(&values, 16, 16, &Format::HOST, &wanted));
}

/// Tiles of 2 to 15 pixels with their last column blue, and of 1 with their last pixel.
#[test]
fn edges(rt: HostRuntime) {
    for w in 2..16 {
        for h in 2..16 {
            let mut values = [RED; 225];
            for y in 0..h {
                values[y * w + w - 1] = BLUE;
            }
            let place = [(w as u8 - 1) * 16, h as u8 - 1];
            let wanted = [0x0E, 0, 0, 0xFF, 0, 0xFF, 0, 0, 0, 1, place[0], place[1]];
            let same = is_joined_as(&values[..w * h], w as u16, h as u16, &Format::HOST, &wanted);
            assert!(rt; same, "{w} by {h}");
        }
    }
    for len in 4..16 {
        let mut values = [RED; 15];
        values[len - 1] = BLUE;
        let last = len as u8 - 1;
        let across = [0x0E, 0, 0, 0xFF, 0, 0xFF, 0, 0, 0, 1, last * 16, 0];
        assert!(rt;
            is_joined_as(&values[..len], len as u16, 1, &Format::HOST, &across),
            "{len}"
        );
        let down = [0x0E, 0, 0, 0xFF, 0, 0xFF, 0, 0, 0, 1, last, 0];
        assert!(rt;
            is_joined_as(&values[..len], 1, len as u16, &Format::HOST, &down),
            "{len}"
        );
    }
}

/// Eight by three. Blue is the most frequent, but red has two runs in each row and blue has one: 22 bytes, or 16.
#[test]
fn runs_of_rows_where_they_are_shorter(rt: HostRuntime) {
    let mut values = [RED; 24];
    values[1..7].fill(BLUE);
    values[10..14].fill(BLUE);
    values[17..23].fill(BLUE);
    let wanted = [
        0x0E, 0, 0, 0xFF, 0, 0xFF, 0, 0, 0, 3, 0x10, 0x50, 0x21, 0x30, 0x12, 0x50,
    ];
    assert!(rt; is_joined_as(&values, 8, 3, &Format::HOST, &wanted));
}

/// Colours are left off by the tile before, and none after a Raw tile.
#[test]
fn colours_left_off(rt: HostRuntime) {
    let mut values = [BLUE; 32];
    values[15] = RED;
    values[16] = RED;
    let wanted = [
        0x0E, 0xFF, 0, 0, 0, 0, 0, 0xFF, 0, 1, 0xF0, 0x00, 0x08, 1, 0x00, 0x00,
    ];
    assert!(rt; is_joined_as(&values, 32, 1, &Format::HOST, &wanted));
    let mut values = [RED; 34];
    let mut wanted = [0u8; 75];
    wanted[..6].copy_from_slice(&[2, 0, 0, 0xFF, 0, 1]);
    for k in 0..16 {
        values[16 + k] = k as u32;
        wanted[6 + 4 * k] = k as u8;
    }
    wanted[70..].copy_from_slice(&[2, 0, 0, 0xFF, 0]);
    assert!(rt; is_joined_as(&values, 1, 34, &Format::HOST, &wanted));
}

/// A tile of 256 values is Raw, and one of a single value below it is its background alone.
#[test]
fn a_crowded_tile(rt: HostRuntime) {
    let mut values = [RED; 272];
    let mut wanted = [0u8; 1030];
    wanted[0] = 1;
    for k in 0..256 {
        values[k] = k as u32;
        wanted[1 + 4 * k] = k as u8;
    }
    wanted[1025..].copy_from_slice(&[2, 0, 0, 0xFF, 0]);
    assert!(rt; is_joined_as(&values, 16, 17, &Format::HOST, &wanted));
}

/// Sixteen columns of a value each: no row begins a run below the first, so 15 subrectangles stand over the first value.
#[test]
fn columns(rt: HostRuntime) {
    let mut values = [0; 256];
    for k in 0..256 {
        values[k] = (k % 16) as u32;
    }
    let mut wanted = [0u8; 96];
    wanted[0] = 0x1A;
    wanted[5] = 15;
    for k in 1..16 {
        wanted[6 * k] = k as u8;
        wanted[6 * k + 4] = 16 * k as u8;
        wanted[6 * k + 5] = 0x0F;
    }
    assert!(rt; is_joined_as(&values, 16, 16, &Format::HOST, &wanted));
}

/// In eight bits: two columns of three, as one subrectangle.
#[test]
fn narrow_pixels(rt: HostRuntime) -> Result<(), Fail> {
    let format = Format::read(&[8, 8, 0, 1, 0, 7, 0, 7, 0, 3, 5, 2, 0, 0, 0, 0])?;
    let values = [0xE0, 0xE0, 3, 3, 0xE0, 0xE0, 3, 3, 0xE0, 0xE0, 3, 3];
    assert!(rt; is_joined_as(&values, 4, 3, &format, &[0x0E, 0xE0, 3, 1, 0x20, 0x12]));
    Ok(())
}

#[test]
fn no_fewer_bytes_than_raw(rt: HostRuntime) {
    assert!(rt; is_joined_as(&[RED], 1, 1, &Format::HOST, &[]));
    assert!(rt; is_joined_as(&[], 0, 3, &Format::HOST, &[]));
    assert!(rt; is_joined_as(&[RED, BLUE, BLUE], 3, 1, &Format::HOST, &[]));
}
