//! Pixel values in a row, as pixel bytes.

ghost use Rattle.std.specs.Prelude.{◌≡◌, ℕ, ◌*◌, true, List, length};
ghost use Rattle.std.specs.List.{flat_map};
ghost use Rattle.std.specs.Int.{w16, w32, to_le_bytes, from_le_bytes};
ghost use Rattle.pixel_format.specs.PixelFormat.{pixel_len, pixel_bytes, pixel_of};

use crate::format::Format;
use byteorder::{ByteOrder, LittleEndian};

impl Format {
    /// Writes the pixel bytes of a row of pixel values, from left to right. Of a value that has more bits than a
    /// pixel, the lowest are written.
    pub fn put_values(&self, values: &[u32], out: &mut [u8])
        requires { length out.old ≡ pixel_len self.now * length values.now }
        ensures { out.new ≡ flat_map (pixel_bytes self.now) values.now }
    {
        match (self.bits_per_pixel, self.big_endian) {
            (32, false) => put_words(values, out),
            (16, false) => put_halves(values, out),
            _ => self.put_each(values, out),
        }
    }

    /// Whether a pixel value is spelled in four bytes, the least significant first.
    pub fn spells_words(&self) -> bool
        ensures value { result ≡ true → (bytes : List ℕ)
            → pixel_of self.now bytes ≡ from_le_bytes w32 bytes }
        ensures len { result ≡ true → pixel_len self.now ≡ 4 }
    {
        self.bits_per_pixel == 32 && !self.big_endian
    }

    /// Writes the pixel bytes of any format, value by value.
    fn put_each(&self, values: &[u32], out: &mut [u8])
        requires { length out.old ≡ pixel_len self.now * length values.now }
        ensures { out.new ≡ flat_map (pixel_bytes self.now) values.now }
    {
        let format = *self;
        let size = format.bytes();
        for (i, value) in values.iter().enumerate() {
            format.put_pixel(*value, &mut out[size * i..]);
        }
    }
}

/// Writes four bytes for each value, the least significant first.
fn put_words(values: &[u32], out: &mut [u8])
    requires { length out.old ≡ 4 * length values.now }
    ensures { out.new ≡ flat_map (to_le_bytes w32) values.now }
{
    for (i, value) in values.iter().enumerate() {
        LittleEndian::write_u32(&mut out[4 * i..], *value);
    }
}

/// Writes two bytes for each value, the least significant first.
fn put_halves(values: &[u32], out: &mut [u8])
    requires { length out.old ≡ 2 * length values.now }
    ensures { out.new ≡ flat_map (to_le_bytes w16) values.now }
{
    for (i, value) in values.iter().enumerate() {
        LittleEndian::write_u16(&mut out[2 * i..], (*value % 65536) as u16);
    }
}
