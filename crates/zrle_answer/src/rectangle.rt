//! One rectangle in ZRLE (RFC 6143, sections 7.6.1 and 7.7.6).

ghost use Rattle.std.specs.Prelude.{◌≡◌, ◌+◌, ◌*◌, ◌^◌, ◌≤◌, ◌++◌, length, IfOk, OnOk, OnErr};
ghost use Rattle.pixel_format.specs.PixelFormat.{IsAccepted};
ghost use Rattle.raster.specs.Screen.{IsWithin, value_at};
ghost use Rattle.rfb_wire.specs.Writing.{rectangle_head_bytes};
ghost use Rattle.shared_parts.specs.Parts.{ShowsArea};
ghost use Rattle.zrle_answer.specs.Rectangle.{zrle_rectangle_bytes};
ghost use Rattle.zrle_answer.specs.Written.{AppendsRectangle, head_unless};

use raster::Rect;
use rfb_wire::{RECTANGLE_HEAD_LEN, write_rectangle_head};
use std::alloc::{AllocError, Global};
use zrle_codec::{Cpixels, Encoder, areas_show_their_colours};

/// The number of ZRLE in a rectangle's header (RFC 6143, 7.7.6).
pub const ZRLE: u32 = 16;

/// The first bytes of a zlib stream: a window of 32 KiB, and no dictionary (RFC 1950, 2.2).
const STREAM_HEAD: [u8; 2] = [0x78, 0x01];

/// The bytes in front of a part: those that begin the stream, unless it has begun.
fn head_unless(begun: bool) -> &'static [u8]
    ensures value { result.now ≡ head_unless begun }
    ensures few { length result.now ≤ 2 }
{
    if begun { &[] } else { &STREAM_HEAD }
}

/// The header of a rectangle in ZRLE.
fn head_of(area: &Rect) -> [u8; RECTANGLE_HEAD_LEN]
    requires { IsWithin area.now 4096 4096 }
    ensures { result ≡ rectangle_head_bytes area.now 16 }
{
    let mut head = [0; RECTANGLE_HEAD_LEN];
    write_rectangle_head(area, ZRLE, &mut head);
    head
}

/// Appends a rectangle in ZRLE whose zlib data are a part, behind the stream's first bytes unless it has `begun`.
/// Where memory is refused nothing is appended.
pub fn append_part(
    area: &Rect,
    begun: bool,
    part: &[u8],
    out: &mut Vec<u8>,
) -> Result<(), AllocError>
    requires within { IsWithin area.now 4096 4096 }
    requires few { length part.now ≤ 2 ^ 27 }
    ensures ok { OnOk result (out.new.items
        ≡ out.old.items ++ zrle_rectangle_bytes area.now (head_unless begun ++ part.now)) }
    ensures err { OnErr result (out.new.items ≡ out.old.items) }
{
    let first = head_unless(begun);
    let len = first.len() + part.len();
    out.reserve(RECTANGLE_HEAD_LEN + 4 + len)?;
    out.extend_from_slice(&head_of(area))?;
    out.extend_from_slice(&(len as u32).to_be_bytes())?;
    out.extend_from_slice(first)?;
    out.extend_from_slice(part)
}

/// Writes areas of a screen as rectangles in ZRLE, in any pixel format.
#[derive(Drop)]
pub struct RectangleWriter {
    encoder: Encoder,
    part: Vec<u8>,
}

impl RectangleWriter {
    /// Takes the memory, but for what `append` takes for the bytes of an area.
    pub fn new(alloc: Global) -> Result<RectangleWriter, AllocError> {
        let encoder = Encoder::new(alloc)?;
        Ok(RectangleWriter {
            encoder,
            part: Vec::new(alloc),
        })
    }

    /// The part of an area of a screen of colours, which stand in rows of `width`. It stays until the next one is made.
    /// It fails where memory is refused.
    pub(crate) fn part(
        &mut self,
        pixels: &Cpixels,
        colours: &[u32],
        width: usize,
        height: usize,
        area: &Rect,
    ) -> Result<&[u8], AllocError>
        requires size { length colours.now ≡ width * height }
        requires small { (width ≤ 4096) × (height ≤ 4096) }
        requires within { IsWithin area.now width height }
        ensures { IfOk result (λ part.
            ShowsArea pixels.now.format width colours.now area.now part.now) }
    {
        self.part.clear();
        self.encoder
            .append(pixels, colours, width, height, area, &mut self.part)?;
        Ok(self.part.as_slice())
    }

    /// Appends an area of a screen of colours, which stand in rows of `width`, for a viewer whose zlib stream has
    /// `begun` or has not. Where memory is refused nothing is appended.
    pub fn append(
        &mut self,
        pixels: &Cpixels,
        colours: &[u32],
        width: usize,
        height: usize,
        area: &Rect,
        begun: bool,
        out: &mut Vec<u8>,
    ) -> Result<(), AllocError>
        requires size { length colours.now ≡ width * height }
        requires small { (width ≤ 4096) × (height ≤ 4096) }
        requires within { IsWithin area.now width height }
        ensures ok { IsAccepted pixels.now.format
            → OnOk result (AppendsRectangle pixels.now.format (value_at width colours.now) area.now
            begun out.old.items out.new.items) }
        ensures err { OnErr result (out.new.items ≡ out.old.items) }
    {
        areas_show_their_colours();
        let part = self.part(pixels, colours, width, height, area)?;
        append_part(area, begun, part, out)
    }
}
