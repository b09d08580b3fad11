//! What is written in Hextile, against bytes worked by hand from RFC 6143, section 7.7.4.

use crate::colours::{BLUE, GREEN, RED};
use hextile_codec::encode;
use pixel_format::Format;
use std::test::Fail;

/// How many pixels a rectangle of these tests has at most.
const MOST_PIXELS: usize = 289;

/// Whether these values of a rectangle are written as exactly these bytes, or not at all where there are none.
fn is_written_as(values: &[u32], w: u16, h: u16, format: &Format, wanted: &[u8]) -> bool {
    let (w, h) = (u64::from(w), u64::from(h));
    if values.len() > MOST_PIXELS || values.len() as u64 != w * h {
        return false;
    }
    let mut out = [0u8; 4 * MOST_PIXELS];
    match encode(values, w, h, format, &mut out) {
        Some(count) => out.get(..count) == Some(wanted),
        None => wanted.is_empty(),
    }
}

#[test]
fn one_tile(rt: HostRuntime) {
    let values = [RED, BLUE, BLUE, BLUE, BLUE, BLUE, BLUE, BLUE];
    let wanted = [0x0E, 0, 0, 0xFF, 0, 0xFF, 0, 0, 0, 1, 0x10, 0x60];
    assert!(rt; is_written_as(&values, 8, 1, &Format::HOST, &wanted));
    let values = [RED, RED, RED, BLUE];
    let wanted = [0x0E, 0, 0, 0xFF, 0, 0xFF, 0, 0, 0, 1, 0x11, 0];
    assert!(rt; is_written_as(&values, 2, 2, &Format::HOST, &wanted));
}

#[test]
fn no_fewer_bytes_than_raw(rt: HostRuntime) {
    assert!(rt; is_written_as(&[RED], 1, 1, &Format::HOST, &[]));
    assert!(rt; is_written_as(&[], 0, 3, &Format::HOST, &[]));
    let mut noise = [0u32; 16];
    for (k, value) in noise.iter_mut().enumerate() {
        *value = k as u32;
    }
    assert!(rt; is_written_as(&noise, 4, 4, &Format::HOST, &[]));
    // A drawing as long as Raw: 12 bytes.
    assert!(rt; is_written_as(&[RED, BLUE, BLUE], 3, 1, &Format::HOST, &[]));
}

#[test]
fn colours_left_off(rt: HostRuntime) {
    let wanted = [2, 0, 0, 0xFF, 0, 0];
    assert!(rt; is_written_as(&[RED; 17], 17, 1, &Format::HOST, &wanted));
    let mut values = [BLUE; 32];
    values[0] = RED;
    values[16] = RED;
    let wanted = [
        0x0E, 0, 0, 0xFF, 0, 0xFF, 0, 0, 0, 1, 0x10, 0xE0, 0x08, 1, 0x10, 0xE0,
    ];
    assert!(rt; is_written_as(&values, 32, 1, &Format::HOST, &wanted));
}

#[test]
fn no_foreground_left_off_after_colours(rt: HostRuntime) {
    let mut values = [BLUE; 48];
    values[0] = RED;
    values[16] = RED;
    values[24..32].fill(GREEN);
    values[32] = RED;
    let wanted = [
        0x0E, 0, 0, 0xFF, 0, 0xFF, 0, 0, 0, 1, 0x10, 0xE0, // two colours
        0x18, 2, 0xFF, 0, 0, 0, 0x10, 0x60, 0, 0xFF, 0, 0, 0x80, 0x70, // three
        0x0C, 0xFF, 0, 0, 0, 1, 0x10, 0xE0, // two again
    ];
    assert!(rt; is_written_as(&values, 48, 1, &Format::HOST, &wanted));
}

#[test]
fn tiles_are_cut(rt: HostRuntime) {
    let mut values = [RED; 289];
    values[288] = BLUE;
    let wanted = [2, 0, 0, 0xFF, 0, 0, 0, 1, 0xFF, 0, 0, 0];
    assert!(rt; is_written_as(&values, 17, 17, &Format::HOST, &wanted));
}

/// A tile of 16 values is Raw, and the one after it says the red again that the first one said.
#[test]
fn nothing_left_off_after_raw(rt: HostRuntime) {
    let mut values = [RED; 34];
    let mut wanted = [0u8; 75];
    wanted[..6].copy_from_slice(&[2, 0, 0, 0xFF, 0, 1]);
    for k in 0..16 {
        values[16 + k] = k as u32;
        wanted[6 + 4 * k] = k as u8;
    }
    wanted[70..].copy_from_slice(&[2, 0, 0, 0xFF, 0]);
    assert!(rt; is_written_as(&values, 1, 34, &Format::HOST, &wanted));
}

#[test]
fn narrow_pixels(rt: HostRuntime) -> Result<(), Fail> {
    let format = Format::read(&[8, 8, 0, 1, 0, 7, 0, 7, 0, 3, 5, 2, 0, 0, 0, 0])?;
    let values = [0xE0, 3, 3, 3, 3, 3, 3, 3];
    assert!(rt; is_written_as(&values, 8, 1, &format, &[0x0E, 0xE0, 3, 1, 0x10, 0x60]));
    let format = Format::read(&[16, 16, 1, 1, 0, 31, 0, 63, 0, 31, 11, 5, 0, 0, 0, 0])?;
    let values = [0xF800, 31, 31, 31, 31, 31, 31, 31];
    let wanted = [0x0E, 0xF8, 0, 0, 31, 1, 0x10, 0x60];
    assert!(rt; is_written_as(&values, 8, 1, &format, &wanted));
    Ok(())
}
