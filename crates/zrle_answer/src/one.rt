//! One rectangle of an answer, in ZRLE or without.

ghost use Rattle.std.specs.Prelude.{◌≡◌, ◌*◌, ◌≤◌, ◌++◌, true, false, OnOk, IfOk};
ghost use Rattle.std.specs.List.{All};
ghost use Rattle.pixel_format.specs.PixelFormat.{IsAccepted};
ghost use Rattle.raster.specs.Screen.{IsWithin};
ghost use Rattle.reflect_core.specs.Asked.{LiesOn};
ghost use Rattle.shared_parts.specs.Parts.{ArePartsOf};
ghost use Rattle.tiles.specs.Brings.{IsPart};
ghost use Rattle.update_encoder.specs.Answer.{spelled};
ghost use Rattle.update_encoder.specs.Coming.{shown};
ghost use Rattle.update_encoder.specs.Style.{style_in};
ghost use Rattle.zrle_answer.specs.Planned.{areas_of};
ghost use Rattle.zrle_answer.specs.Written.{AppendsNext, AppendsRectangle};

use crate::plan::Planned;
use crate::rectangle::{RectangleWriter, append_part};
use pixel_format::Format;
use raster::Rect;
use reflect_core::Cut;
use rfb_wire::RECTANGLE_HEAD_LEN;
use shared_parts::{Part, SharedParts};
use std::alloc::{AllocError, Global};
use update_encoder::{Style, repeats, write_rectangle};
use zrle_codec::{Cpixels, areas_show_their_colours};

/// Appends a rectangle of an answer without ZRLE, given the one before it. `values` is room for its pixel values.
fn append_plain(
    style: &Style,
    cut: &Cut,
    may_copy: bool,
    before: Option<Rect>,
    area: &Rect,
    values: &mut Vec<u32>,
    out: &mut Vec<u8>,
) -> Result<(), AllocError>
    requires before { LiesOn cut.now.width cut.now.height before }
    requires within { IsWithin area.now cut.now.width cut.now.height }
    requires some { 1 ≤ area.now.w * area.now.h }
    ensures ok { OnOk result (out.new.items
        ≡ out.old.items ++ spelled (style_in style.now) (shown cut.now) may_copy before area.now) }
{
    let positions = (area.w * area.h) as usize;
    if values.len() < positions {
        values.resize(positions, 0)?;
    }
    let start = out.len();
    out.resize(start + (RECTANGLE_HEAD_LEN + 4 * positions), 0)?;
    let room = &mut out[start..];
    let len = write_rectangle(style, cut, may_copy, before, area, values, room);
    out.truncate(start + len);
    Ok(())
}

/// How many bytes a rectangle has in Raw (RFC 6143, 7.7.1).
fn raw_len(style: &Style, area: &Rect) -> usize
    requires { IsWithin area.now 4096 4096 }
{
    RECTANGLE_HEAD_LEN + style.format.bytes() * (area.w * area.h) as usize
}

/// Whether a rectangle is written as a copy of the one before it.
fn is_copied(cut: &Cut, may_copy: bool, before: Option<Rect>, area: &Rect) -> bool
    requires before { LiesOn cut.now.width cut.now.height before }
    requires within { IsWithin area.now cut.now.width cut.now.height }
{
    let (width, height) = (cut.width as usize, cut.height as usize);
    match before {
        Some(above) => may_copy && repeats(cut.colours.as_slice(), width, height, &above, area),
        None => false,
    }
}

/// Appends an area in ZRLE where somebody made its part, for all who are shown the same. It answers whether it did.
fn append_shared(
    format: &Format,
    cut: &Cut,
    area: &Rect,
    begun: bool,
    out: &mut Vec<u8>,
) -> Result<bool, AllocError>
    requires within { IsWithin area.now cut.now.width cut.now.height }
    ensures some { IsAccepted format.now
        → IfOk result (λ did. did ≡ true → AppendsRectangle format.now (shown cut.now) area.now
        begun out.old.items out.new.items) }
    ensures none { IfOk result (λ did. did ≡ false → out.new.items ≡ out.old.items) }
{
    areas_show_their_colours();
    let Some(parts) = cut.parts() else {
        return Ok(false);
    };
    let Some(reader) = parts.find(format, area) else {
        return Ok(false);
    };
    let Some(part) = reader.bytes(format, area) else {
        return Ok(false);
    };
    append_part(area, begun, part, out)?;
    Ok(true)
}

/// What writing a rectangle takes, made once for any number of them.
#[derive(Drop)]
pub(crate) struct OneWriter {
    alloc: Global,
    zrle: RectangleWriter,
    values: Vec<u32>,
}

impl OneWriter {
    /// Takes the memory that doesn't depend on the rectangles.
    pub(crate) fn new(alloc: Global) -> Result<OneWriter, AllocError> {
        let zrle = RectangleWriter::new(alloc)?;
        Ok(OneWriter {
            alloc,
            zrle,
            values: Vec::new(alloc),
        })
    }

    /// Makes the part of an area for all who are shown the same, unless one of them has begun to. Where memory is
    /// refused there is none.
    fn make_part(&mut self, parts: &SharedParts, style: &Style, cut: &Cut, area: &Rect)
        requires within { IsWithin area.now cut.now.width cut.now.height }
        requires parts { ArePartsOf cut.now.width cut.now.colours.items parts.now }
    {
        let Some(maker) = parts.claim(&style.format, area) else {
            return;
        };
        let pixels = Cpixels::new(&style.format);
        let (width, height) = (cut.width as usize, cut.height as usize);
        let colours = cut.colours.as_slice();
        let Ok(part) = self.zrle.part(&pixels, colours, width, height, area) else {
            return;
        };
        if let Ok(bytes) = Vec::from_slice(self.alloc, part) {
            maker.keep(Part {
                format: style.format,
                area: *area,
                bytes,
            });
        }
    }

    /// Makes those parts of an answer that nobody else has begun to make, for all who are shown the same.
    pub(crate) fn make_parts(&mut self, style: &Style, cut: &Cut, plan: &[Planned])
        requires { All (IsPart cut.now.width cut.now.height) (areas_of plan.now) }
    {
        let Some(parts) = cut.parts() else {
            return;
        };
        for planned in plan {
            if !planned.is_plain {
                self.make_part(parts, style, cut, &planned.area);
            }
        }
    }

    /// Appends an area in ZRLE.
    fn append_zrle(
        &mut self,
        style: &Style,
        cut: &Cut,
        area: &Rect,
        begun: bool,
        out: &mut Vec<u8>,
    ) -> Result<(), AllocError>
        requires within { IsWithin area.now cut.now.width cut.now.height }
        ensures ok { OnOk result (AppendsRectangle style.now.format (shown cut.now) area.now begun
            out.old.items out.new.items) }
    {
        let pixels = Cpixels::new(&style.format);
        if append_shared(&pixels.format, cut, area, begun, out)? {
            return Ok(());
        }
        let (width, height) = (cut.width as usize, cut.height as usize);
        let colours = cut.colours.as_slice();
        self.zrle
            .append(&pixels, colours, width, height, area, begun, out)
    }

    /// Appends a rectangle of an answer, given the one before it, for a viewer whose zlib stream has `begun` or has
    /// not. It is in ZRLE, unless that isn't to be tried or is longer than Raw. Answers whether the stream has begun
    /// then.
    pub(crate) fn append(
        &mut self,
        style: &Style,
        cut: &Cut,
        may_copy: bool,
        before: Option<Rect>,
        planned: &Planned,
        begun: bool,
        out: &mut Vec<u8>,
    ) -> Result<bool, AllocError>
        requires before { LiesOn cut.now.width cut.now.height before }
        requires within { IsWithin planned.now.area cut.now.width cut.now.height }
        requires some { 1 ≤ planned.now.area.w * planned.now.area.h }
        ensures ok { IfOk result (λ now. AppendsNext (style_in style.now) (shown cut.now) may_copy
            before planned.now.area begun now out.old.items out.new.items) }
    {
        let area = &planned.area;
        let start = out.len();
        if !planned.is_plain && !is_copied(cut, may_copy, before, area) {
            self.append_zrle(style, cut, area, begun, out)?;
            if out.len() - start <= raw_len(style, area) {
                return Ok(true);
            }
            out.truncate(start);
        }
        append_plain(style, cut, may_copy, before, area, &mut self.values, out)?;
        Ok(begun)
    }
}
