//! CPIXELs, the pixels of ZRLE (RFC 6143, section 7.7.5).

ghost use Rattle.std.specs.Prelude.{◌≡◌, ◌+◌, ◌≤◌, ◌++◌, true, OnOk};
ghost use Rattle.pixel_format.specs.PixelFormat.{pixel_len};
ghost use Rattle.zrle_codec.specs.Cpixel.{has_spare_byte, lies_low, lies_high, leaves_first, leaves_last, cpixel_from, cpixel_len, cpixel_bytes};
ghost use Rattle.zrle_codec.specs.Appends.{BeginsWith};

use pixel_format::Format;
use std::alloc::AllocError;

/// A pixel format, and which bytes of a pixel are its CPIXEL.
#[derive(Clone, Copy)]
pub struct Cpixels {
    pub format: Format,
    pub from: usize,
    pub len: usize,
    ghost begins: { from ≡ cpixel_from format },
    ghost has: { len ≡ cpixel_len format },
    ghost inside: { from + len ≤ pixel_len format },
    ghost short: { pixel_len format ≤ 4 },
}

/// Whether the format's most significant byte comes first.
fn is_big_endian(format: &Format) -> bool
    ensures { result ≡ format.now.big_endian }
{
    let mut fields = [0; 16];
    format.write(&mut fields);
    fields[2] == 1
}

/// Whether a pixel has four bytes and a depth of at most 24.
fn has_spare_byte(format: &Format) -> bool
    ensures four { result ≡ true → pixel_len format.now ≡ 4 }
    ensures value { result ≡ has_spare_byte format.now }
{
    let mut fields = [0; 16];
    format.write(&mut fields);
    format.bytes() == 4 && fields[1] <= 24
}

/// Whether the bits of the colours lie in the three low bytes of a pixel.
fn lies_low(format: &Format) -> bool
    ensures { result ≡ lies_low format.now }
{
    format.tint(0xFF_FFFF) < 0x100_0000
}

/// Whether they lie in the three high bytes.
fn lies_high(format: &Format) -> bool
    ensures { result ≡ lies_high format.now }
{
    let mut fields = [0; 16];
    format.write(&mut fields);
    fields[10] >= 8 && fields[11] >= 8 && fields[12] >= 8
}

/// Whether the last byte of a pixel is left off.
#[tactic(auto, unfolding(crate::specs::Cpixel::leaves_last))]
fn leaves_last(format: &Format) -> bool
    ensures four { result ≡ true → pixel_len format.now ≡ 4 }
    ensures value { result ≡ leaves_last format.now }
{
    has_spare_byte(format)
        && if is_big_endian(format) {
            lies_high(format)
        } else {
            lies_low(format)
        }
}

/// Whether the first byte of a pixel is left off.
#[tactic(auto, unfolding(crate::specs::Cpixel::leaves_first))]
fn leaves_first(format: &Format) -> bool
    ensures four { result ≡ true → pixel_len format.now ≡ 4 }
    ensures value { result ≡ leaves_first format.now }
{
    !leaves_last(format)
        && has_spare_byte(format)
        && if is_big_endian(format) {
            lies_low(format)
        } else {
            lies_high(format)
        }
}

impl Cpixels {
    /// The CPIXELs of a format.
    #[tactic(auto, unfolding(crate::specs::Cpixel::cpixel_from, crate::specs::Cpixel::cpixel_len))]
    pub fn new(format: &Format) -> Cpixels
        ensures { result.format ≡ format.now }
    {
        let format = *format;
        if leaves_last(&format) {
            return Cpixels {
                format,
                from: 0,
                len: 3,
            };
        }
        if leaves_first(&format) {
            return Cpixels {
                format,
                from: 1,
                len: 3,
            };
        }
        Cpixels {
            format,
            from: 0,
            len: format.bytes(),
        }
    }

    /// Appends the CPIXEL of a pixel value.
    #[inline(always)]
    #[tactic(auto, using(crate::proofs::Growing::begins_if, crate::proofs::Growing::begins_more, crate::proofs::Growing::begins_unchanged))]
    pub fn append(&self, value: u32, out: &mut Vec<u8>) -> Result<(), AllocError>
        ensures ok { OnOk result
            (out.new.items ≡ out.old.items ++ cpixel_bytes self.now.format value) }
        ensures begins { BeginsWith out.old.items out.new.items }
    {
        let mut bytes = [0; 4];
        self.format.put_pixel(value, &mut bytes);
        out.extend_from_slice(&bytes[self.from..self.from + self.len])?;
        Ok(())
    }
}
