//! Updates of a whole screen of 4096 rows.

/// A rectangle of one colour in RRE (RFC 6143, 7.7.3): its header, no subrectangles, and the colour.
fn push_rectangle(out: &mut Vec<u8>, place: [u16; 4], colour: &[u8; 4]) -> Option<()> {
    for number in place {
        out.extend_from_slice(number.to_be_bytes().as_slice()).ok()?;
    }
    out.extend_from_slice([0, 0, 0, 2, 0, 0, 0, 0].as_slice())
        .ok()?;
    out.extend_from_slice(colour.as_slice()).ok()
}

/// Tiles of a row, each 32 pixels right of the one before it.
fn push_row(out: &mut Vec<u8>, y: u16, count: u16, width: u16, colour: &[u8; 4]) -> Option<()> {
    for tile in 0..count {
        push_rectangle(out, [tile.saturating_mul(32), y, width, 16], colour)?;
    }
    Some(())
}

/// 256 rows of 16 pixels, black, over a screen of this width.
pub fn push_rows(out: &mut Vec<u8>, width: u16) -> Option<()> {
    out.extend_from_slice([0, 0, 1, 0].as_slice()).ok()?;
    for row in 0..256u16 {
        push_row(out, row * 16, 1, width, &[0, 0, 0, 0])?;
    }
    Some(())
}

/// Every second tile of 4096 by 4096, blue: 32,768 rectangles.
pub fn push_tiles(out: &mut Vec<u8>) -> Option<()> {
    out.extend_from_slice([0, 0, 0x80, 0].as_slice()).ok()?;
    for row in 0..256u16 {
        push_row(out, row * 16, 128, 16, &[0xFF, 0, 0, 0])?;
    }
    Some(())
}
