//! A colour's pixel value, and a row of colours as pixel bytes.

ghost use Rattle.std.specs.Prelude.{◌≡◌, ◌*◌, ◌^◌, ◌<◌, ◌↔◌, length, map, IsTrue, [], ◌∷◌};
ghost use Rattle.std.specs.List.{flat_map};
ghost use Rattle.pixel_format.specs.PixelFormat.{HasByteChannels, IsNarrow, KeepsApart, tint, pixel_len, row_bytes, host_format};

use crate::format::Format;
use crate::scaling::{Division, Multiplication, Scaling, Shifts};
use byteorder::{BigEndian, ByteOrder, LittleEndian};

impl Format {
    /// The pixel value of a colour: each component scaled to its channel's greatest value, rounded to the nearest,
    /// and shifted to its place (RFC 6143, section 7.4). It has no more bits than a pixel.
    pub fn tint(&self, colour: u32) -> u32
        ensures value { result ≡ tint self.now colour }
        ensures bound { result < 2 ^ self.now.bits_per_pixel }
    {
        // The most usual formats need no division.
        if self.has_byte_channels() {
            Shifts::pixel(self, colour)
        } else {
            Division::pixel(self, colour)
        }
    }

    /// Writes the pixel bytes of a row of colours, from left to right.
    pub fn tint_row(&self, colours: &[u32], out: &mut [u8])
        requires { length out.old ≡ pixel_len self.now * length colours.now }
        ensures { out.new ≡ row_bytes self.now colours.now }
    {
        if self.is_host() {
            copy_row(colours, out);
        } else if self.has_byte_channels() {
            self.tint_row_by::<Shifts>(colours, out);
        } else if self.is_narrow() {
            self.tint_row_by::<Multiplication>(colours, out);
        } else {
            self.tint_row_by::<Division>(colours, out);
        }
    }

    /// Writes the pixel values of colours, one for each.
    pub fn tint_values(&self, colours: &[u32], values: &mut [u32])
        requires { length values.old ≡ length colours.now }
        ensures { values.new ≡ map (tint self.now) colours.now }
    {
        if self.is_host() {
            mask_values(colours, values);
        } else if self.has_byte_channels() {
            self.tint_values_by::<Shifts>(colours, values);
        } else if self.is_narrow() {
            self.tint_values_by::<Multiplication>(colours, values);
        } else {
            self.tint_values_by::<Division>(colours, values);
        }
    }

    /// Whether no two colours, of 24 bits each, have the same pixel value (RFC 6143, section 7.4). That is so exactly
    /// where each channel has 8 bits or more, in whatever order the channels lie: in fewer bits the components 0 and 1
    /// get the same value.
    pub fn keeps_apart(&self) -> bool
        ensures { IsTrue result ↔ KeepsApart self.now }
    {
        let least = self.red.max.min(self.green.max).min(self.blue.max);
        least >= 255
    }

    /// Whether this is the format that the host is asked for, whatever the depth is: the pixel values of colours are
    /// then the colours themselves, in the host's order of bytes.
    pub fn is_host(&self) -> bool
        ensures { IsTrue result ↔ self.now ≡ record host_format { depth = self.now.depth } }
    {
        self.bits_per_pixel == 32
            && !self.big_endian
            && self.red.is(255, 16)
            && self.green.is(255, 8)
            && self.blue.is(255, 0)
    }

    /// Whether each channel has 8 bits.
    fn has_byte_channels(&self) -> bool
        ensures { IsTrue result → HasByteChannels self.now }
    {
        self.red.max == 255 && self.green.max == 255 && self.blue.max == 255
    }

    /// Whether no channel has more than 8 bits.
    fn is_narrow(&self) -> bool
        ensures { IsTrue result → IsNarrow self.now }
    {
        self.red.max <= 255 && self.green.max <= 255 && self.blue.max <= 255
    }

    fn tint_values_by<S: Scaling>(&self, colours: &[u32], values: &mut [u32])
        requires serves { S.serves self.now }
        requires room { length values.old ≡ length colours.now }
        ensures { values.new ≡ map (tint self.now) colours.now }
    {
        let format = *self;
        for (i, colour) in colours.iter().enumerate() {
            values[i] = S::pixel(&format, *colour);
        }
    }

    fn tint_row_by<S: Scaling>(&self, colours: &[u32], out: &mut [u8])
        requires serves { S.serves self.now }
        requires room { length out.old ≡ pixel_len self.now * length colours.now }
        ensures { out.new ≡ row_bytes self.now colours.now }
    {
        match (self.bits_per_pixel, self.big_endian) {
            (8, _) => self.tint_row_8::<S>(colours, out),
            (16, true) => self.tint_row_16::<S, BigEndian>(colours, out),
            (16, false) => self.tint_row_16::<S, LittleEndian>(colours, out),
            (_, true) => self.tint_row_32::<S, BigEndian>(colours, out),
            (_, false) => self.tint_row_32::<S, LittleEndian>(colours, out),
        }
    }

    fn tint_row_8<S: Scaling>(&self, colours: &[u32], out: &mut [u8])
        requires serves { S.serves self.now }
        requires bits { self.now.bits_per_pixel ≡ 8 }
        requires room { length out.old ≡ length colours.now }
        ensures { out.new ≡ flat_map (λ colour. tint self.now colour ∷ []) colours.now }
    {
        let format = *self;
        for (i, colour) in colours.iter().enumerate() {
            out[i] = S::pixel(&format, *colour) as u8;
        }
    }

    fn tint_row_16<S: Scaling, T: ByteOrder>(&self, colours: &[u32], out: &mut [u8])
        requires serves { S.serves self.now }
        requires bits { self.now.bits_per_pixel ≡ 16 }
        requires room { length out.old ≡ 2 * length colours.now }
        ensures { out.new ≡ flat_map (λ colour. T.bytes_of 2 (tint self.now colour)) colours.now }
    {
        let format = *self;
        for (i, colour) in colours.iter().enumerate() {
            T::write_u16(&mut out[2 * i..], S::pixel(&format, *colour) as u16);
        }
    }

    fn tint_row_32<S: Scaling, T: ByteOrder>(&self, colours: &[u32], out: &mut [u8])
        requires serves { S.serves self.now }
        requires room { length out.old ≡ 4 * length colours.now }
        ensures { out.new ≡ flat_map (λ colour. T.bytes_of 4 (tint self.now colour)) colours.now }
    {
        let format = *self;
        for (i, colour) in colours.iter().enumerate() {
            T::write_u32(&mut out[4 * i..], S::pixel(&format, *colour));
        }
    }
}

/// A row in the host's own format: the colours as they are, without what lies above their 24 bits.
fn copy_row(colours: &[u32], out: &mut [u8])
    requires { length out.old ≡ 4 * length colours.now }
    ensures { out.new ≡ row_bytes host_format colours.now }
{
    for (i, colour) in colours.iter().enumerate() {
        LittleEndian::write_u32(&mut out[4 * i..], *colour % (1 << 24));
    }
}

/// The values of colours in the host's own format: themselves, without what lies above their 24 bits.
fn mask_values(colours: &[u32], values: &mut [u32])
    requires { length values.old ≡ length colours.now }
    ensures { values.new ≡ map (tint host_format) colours.now }
{
    for (i, colour) in colours.iter().enumerate() {
        values[i] = *colour % (1 << 24);
    }
}
