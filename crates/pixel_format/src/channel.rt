//! One of red, green and blue as a format places it in a pixel value.

use std::marker::Model;

/// How a component lies in a pixel value: its greatest value, and how far it is shifted to the left.
#[derive(Clone, Copy, PartialEq, Eq, Debug)]
pub(crate) struct Channel {
    pub(crate) max: u16,
    pub(crate) shift: u8,
}

impl Model for Channel {
    ghost use Rattle.pixel_format.specs.PixelFormat as definitions;

    ghost Value = { definitions.Channel };

    ghost view = { λ c. record { max = c.max; shift = c.shift } };

    ghost inverse = { λ c. record { max = c.max; shift = c.shift } };
}

impl Channel {
    ghost use Rattle.std.specs.Prelude.{◌≡◌, ◌≤◌, ◌↔◌, IsTrue};
    ghost use Rattle.pixel_format.specs.PixelFormat.{channel_size, channel_fits, are_apart, on_channel};

    /// How many bits the channel has, 1 to 16; 0 where its greatest value isn't one less than a power of two.
    pub(crate) fn size(&self) -> u32
        ensures value { result ≡ channel_size self.now }
        ensures bound { result ≤ 16 }
    {
        match self.max {
            0x0001 => 1,
            0x0003 => 2,
            0x0007 => 3,
            0x000F => 4,
            0x001F => 5,
            0x003F => 6,
            0x007F => 7,
            0x00FF => 8,
            0x01FF => 9,
            0x03FF => 10,
            0x07FF => 11,
            0x0FFF => 12,
            0x1FFF => 13,
            0x3FFF => 14,
            0x7FFF => 15,
            0xFFFF => 16,
            _ => 0,
        }
    }

    /// Whether the channel has a size, and its bits lie inside a pixel of this many bits.
    pub(crate) fn fits(&self, bits_per_pixel: u8) -> bool
        ensures { result ≡ channel_fits bits_per_pixel self.now }
    {
        let size = self.size();
        0 < size && u32::from(self.shift) + size <= u32::from(bits_per_pixel)
    }

    /// Whether the two have no bit in common: one lies above the other.
    pub(crate) fn is_apart(&self, other: &Channel) -> bool
        ensures { result ≡ are_apart self.now other.now }
    {
        let own = u32::from(self.shift);
        let others = u32::from(other.shift);
        own + self.size() <= others || others + other.size() <= own
    }

    /// A component of 0 to 255 at its place in a pixel value.
    pub(crate) fn place(&self, component: u8) -> u32
        requires { IsTrue (channel_fits 32 self.now) }
        ensures { result ≡ on_channel self.now component }
    {
        let scaled = (u32::from(component) * u32::from(self.max) + 127) / 255;
        scaled << self.shift
    }

    /// The same as `place`, for a channel of at most 8 bits: by a multiplication in place of the division.
    pub(crate) fn place_narrow(&self, component: u8) -> u32
        requires fits { IsTrue (channel_fits 32 self.now) }
        requires narrow { self.now.max ≤ 255 }
        ensures { result ≡ on_channel self.now component }
    {
        // For x up to 255 * 255, (x + 127) / 255 is (257 * x + 128 * 257) / 65536. Both divisions are of whole numbers.
        let scaled = (u32::from(component) * (257 * u32::from(self.max)) + 128 * 257) >> 16;
        scaled << self.shift
    }

    /// The same as `place`, for a channel of 8 bits, which holds the component as it is.
    pub(crate) fn place_byte(&self, component: u8) -> u32
        requires fits { IsTrue (channel_fits 32 self.now) }
        requires byte { self.now.max ≡ 255 }
        ensures { result ≡ on_channel self.now component }
    {
        u32::from(component) << self.shift
    }

    /// Whether the channel has this greatest value and this shift.
    pub(crate) fn is(&self, max: u16, shift: u8) -> bool
        ensures { IsTrue result ↔ (self.now ≡ record { max = max; shift = shift }) }
    {
        self.max == max && self.shift == shift
    }
}
