//! Three ways to scale the components of a colour for its pixel value. The quickest that a format allows is taken.

ghost use Rattle.std.specs.Prelude.{◌≡◌, ◌^◌, ◌<◌};
ghost use Rattle.pixel_format.specs.PixelFormat.{PixelFormat, HasByteChannels, IsNarrow, red_of, green_of, blue_of, tint};

use crate::format::Format;

/// The red, green and blue of a colour, each 0 to 255.
fn components(colour: u32) -> (u8, u8, u8)
    ensures red { result.0 ≡ red_of colour }
    ensures green { result.1 ≡ green_of colour }
    ensures blue { result.2 ≡ blue_of colour }
{
    let [blue, green, red, _] = colour.to_le_bytes();
    (red, green, blue)
}

/// A way to scale the components of a colour, and the formats that it serves.
pub(crate) trait Scaling {
    ghost serves: { PixelFormat → Type 0 };

    /// The pixel value of a colour.
    fn pixel(format: &Format, colour: u32) -> u32
        requires { serves format.now }
        ensures value { result ≡ tint format.now colour }
        ensures bound { result < 2 ^ format.now.bits_per_pixel };
}

/// Scales by a division by 255, in every format.
pub(crate) struct Division;

impl Scaling for Division {
    ghost serves = { λ _. Unit {0} };

    fn pixel(format: &Format, colour: u32) -> u32 {
        let (red, green, blue) = components(colour);
        format.red.place(red) + format.green.place(green) + format.blue.place(blue)
    }
}

/// Scales by a multiplication, where no channel has more than 8 bits.
pub(crate) struct Multiplication;

impl Scaling for Multiplication {
    ghost serves = { IsNarrow };

    fn pixel(format: &Format, colour: u32) -> u32 {
        let (red, green, blue) = components(colour);
        format.red.place_narrow(red)
            + format.green.place_narrow(green)
            + format.blue.place_narrow(blue)
    }
}

/// Doesn't scale, where each channel has 8 bits: components are only shifted.
pub(crate) struct Shifts;

impl Scaling for Shifts {
    ghost serves = { HasByteChannels };

    fn pixel(format: &Format, colour: u32) -> u32 {
        let (red, green, blue) = components(colour);
        format.red.place_byte(red) + format.green.place_byte(green) + format.blue.place_byte(blue)
    }
}
