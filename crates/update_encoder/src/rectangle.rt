//! One rectangle of an answer (RFC 6143, 7.6.1 and 7.7).

ghost use Rattle.std.specs.Prelude.{◌≡◌, ◌+◌, ◌*◌, ◌≤◌, ◌&&◌, true, false, length, IfSome, IfNone, Some};
ghost use Rattle.raster.specs.declared.encoding.Encoding.TheVariants.{Raw, Rre, Hextile};
ghost use Rattle.raster.specs.Encoding.{form};
ghost use Rattle.raster.specs.Screen.{Canvas, IsWithin, LooksLike, part_of, value_at};
ghost use Rattle.joined_runs.specs.Joined.{IsEncodedAs};
ghost use Rattle.joined_runs.specs.Tinted.{tinted};
ghost use Rattle.hextile_codec.specs.Kept.{AreKept};
ghost use Rattle.reflect_core.specs.Asked.{LiesOn};
ghost use Rattle.rfb_wire.specs.Writing.{rectangle_bytes};
ghost use Rattle.update_encoder.specs.Answer.{copy_source, pixels_in, repeats_one, spelled};
ghost use Rattle.update_encoder.specs.Coming.{shown};
ghost use Rattle.update_encoder.specs.Style.{style_in};
ghost use Rattle.update_encoder.specs.Written.{IsFront, IsSaved};

use crate::copied::repeats;
use crate::style::Style;
use hextile_codec::{PixelSource, TileForm};
use joined_runs::RectForm;
use painter::AreaSource;
use pixel_format::Format;
use raster::{COPY_RECT, Encoding, Rect, tile_count, tint_rows, write_rows};
use reflect_core::Cut;
use rfb_wire::{RECTANGLE_HEAD_LEN, write_rectangle_head};

/// Writes a CopyRect: a header, and the source's top left (RFC 6143, 7.7.2).
pub(crate) fn write_copy(area: &Rect, source: &Rect, out: &mut [u8]) -> usize
    requires room { 16 ≤ length out.old }
    requires source { IsWithin source.now 4096 4096 }
    requires within { IsWithin area.now 4096 4096 }
    ensures written { IsFront (rectangle_bytes area.now 1 (copy_source (Some source.now)))
        out.new result }
    ensures len { result ≡ 16 }
{
    let (head, data) = out.split_at_mut(RECTANGLE_HEAD_LEN);
    write_rectangle_head(area, COPY_RECT, head);
    let [x1, x0] = (source.x as u16).to_be_bytes();
    let [y1, y0] = (source.y as u16).to_be_bytes();
    let (place, _) = data.split_at_mut(4);
    place.copy_from_slice(&[x1, x0, y1, y0]);
    RECTANGLE_HEAD_LEN + 4
}

/// The kept forms with which a style writes an area's pixel values in Hextile. There are none where it writes runs of
/// rows.
fn kept_forms<'a>(style: &Style, source: &AreaSource<'a>, area: &Rect) -> &'a [Option<TileForm>]
    requires { IsWithin area.now source.now.width source.now.height }
    ensures { (pixels : Canvas) → LooksLike area.now.w area.now.h pixels (tinted style.now.format
        (part_of area.now (value_at source.now.width source.now.colours.now)))
        → AreKept style.now.format area.now.w area.now.h pixels result.now }
{
    match style.runs {
        RectForm::OfRows => &[],
        RectForm::Joined => source.kept_forms(area, &style.format),
    }
}

/// Makes the colours of an area the pixel values of a style, row after row.
fn tint_area(style: &Style, cut: &Cut, area: &Rect, pixels: &mut [u32])
    requires within { IsWithin area.now cut.now.width cut.now.height }
    requires room { length pixels.old ≡ area.now.w * area.now.h }
    ensures { pixels.new ≡ pixels_in style.now.format (shown cut.now) area.now }
{
    let (width, height) = (cut.width as usize, cut.height as usize);
    tint_rows(
        cut.colours.as_slice(),
        width,
        height,
        area,
        &style.format,
        pixels,
    );
}

/// Writes the data of a rectangle in RRE in the form of a style, where that has fewer bytes than Raw (RFC 6143, 7.7.3).
/// `values` is room for its pixel values.
fn encode_rre(
    style: &Style,
    cut: &Cut,
    area: &Rect,
    values: &mut [u32],
    out: &mut [u8],
) -> Option<usize>
    requires within { IsWithin area.now cut.now.width cut.now.height }
    requires values { area.now.w * area.now.h ≤ length values.old }
    requires room { 4 * (area.now.w * area.now.h) ≤ length out.old }
    ensures { IsEncodedAs style.now.runs Rre style.now.format area.now.w area.now.h
        (pixels_in style.now.format (shown cut.now) area.now) out.new result }
{
    let (pixels, _) = values.split_at_mut((area.w * area.h) as usize);
    tint_area(style, cut, area, pixels);
    rre_codec::encode_as(style.runs, pixels, area.w, area.h, &style.format, out)
}

/// Whether each tile of an area has a kept form. Nothing rests on the answer but how long it takes to write the area.
fn have_all(forms: &[Option<TileForm>], area: &Rect) -> bool
    requires { IsWithin area.now 4096 4096 }
{
    forms.len() as u64 == tile_count(area.w, area.h) && forms.iter().all(|form| form.is_some())
}

/// Writes the data of a rectangle in Hextile from its pixel values, for which `values` is room.
fn encode_values(
    style: &Style,
    cut: &Cut,
    area: &Rect,
    forms: &[Option<TileForm>],
    values: &mut [u32],
    out: &mut [u8],
) -> Option<usize>
    requires within { IsWithin area.now cut.now.width cut.now.height }
    requires kept { (pixels : Canvas)
        → LooksLike area.now.w area.now.h pixels
        (tinted style.now.format (part_of area.now (shown cut.now)))
        → AreKept style.now.format area.now.w area.now.h pixels forms.now }
    requires values { area.now.w * area.now.h ≤ length values.old }
    requires room { 4 * (area.now.w * area.now.h) ≤ length out.old }
    ensures { IsEncodedAs style.now.runs Hextile style.now.format area.now.w area.now.h
        (pixels_in style.now.format (shown cut.now) area.now) out.new result }
{
    let (pixels, _) = values.split_at_mut((area.w * area.h) as usize);
    tint_area(style, cut, area, pixels);
    let source = PixelSource {
        numbers: pixels,
        width: area.w as usize,
        height: area.h as usize,
        area: Rect {
            x: 0,
            y: 0,
            w: area.w,
            h: area.h,
        },
        are_colours: false,
    };
    hextile_codec::encode_from(style.runs, &source, forms, &style.format, out)
}

/// Copies the data of an area in Hextile, where it is encoded for all viewers in the form and format of a style.
fn copy_encoded(style: &Style, cut: &Cut, area: &Rect, out: &mut [u8]) -> Option<usize>
    requires within { IsWithin area.now cut.now.width cut.now.height }
    requires room { 4 * (area.now.w * area.now.h) ≤ length out.old }
    ensures { IfSome result (λ n. IsEncodedAs style.now.runs Hextile style.now.format area.now.w
        area.now.h (pixels_in style.now.format (shown cut.now) area.now) out.new (Some n)) }
{
    if style.runs != RectForm::Joined {
        return None;
    }
    let bytes = cut.encoded(area, &style.format)?;
    let (front, _) = out.split_at_mut(bytes.len());
    front.copy_from_slice(bytes);
    Some(bytes.len())
}

/// Writes the data of a rectangle in Hextile in the form of a style, where that has fewer bytes than Raw (RFC 6143,
/// 7.7.4). It copies the data where they are encoded for all viewers. Otherwise it writes them from the area's colours,
/// where the format is the host's or each tile has a kept form, and else from the pixel values, for which `values` is
/// room.
fn encode_hextile(
    style: &Style,
    cut: &Cut,
    area: &Rect,
    values: &mut [u32],
    out: &mut [u8],
) -> Option<usize>
    requires within { IsWithin area.now cut.now.width cut.now.height }
    requires values { area.now.w * area.now.h ≤ length values.old }
    requires room { 4 * (area.now.w * area.now.h) ≤ length out.old }
    ensures { IsEncodedAs style.now.runs Hextile style.now.format area.now.w area.now.h
        (pixels_in style.now.format (shown cut.now) area.now) out.new result }
{
    if let Some(len) = copy_encoded(style, cut, area, out) {
        return Some(len);
    }
    let source = cut.source();
    let forms = kept_forms(style, &source, area);
    if style.format.is_host() || have_all(forms, area) {
        return source.encode(style.runs, area, forms, &style.format, out);
    }
    encode_values(style, cut, area, forms, values, out)
}

/// Writes the data of a rectangle in the encoding and form of a style, where that has fewer bytes than Raw. `values` is
/// room for its pixel values.
fn encode(
    style: &Style,
    cut: &Cut,
    area: &Rect,
    values: &mut [u32],
    out: &mut [u8],
) -> Option<usize>
    requires within { IsWithin area.now cut.now.width cut.now.height }
    requires values { area.now.w * area.now.h ≤ length values.old }
    requires room { 4 * (area.now.w * area.now.h) ≤ length out.old }
    ensures { IsEncodedAs style.now.runs style.now.choice.kind style.now.format
        area.now.w area.now.h (pixels_in style.now.format (shown cut.now) area.now) out.new result }
{
    match style.choice.kind {
        Encoding::Raw => None,
        Encoding::Rre => encode_rre(style, cut, area, values, out),
        Encoding::Hextile => encode_hextile(style, cut, area, values, out),
    }
}

/// Writes a rectangle in the encoding and form of a style, where that has fewer bytes than Raw (RFC 6143, 7.7.3 and
/// 7.7.4). `values` is room for its pixel values.
fn write_encoded(
    style: &Style,
    cut: &Cut,
    area: &Rect,
    values: &mut [u32],
    out: &mut [u8],
) -> Option<usize>
    requires within { IsWithin area.now cut.now.width cut.now.height }
    requires values { area.now.w * area.now.h ≤ length values.old }
    requires room { 12 + 4 * (area.now.w * area.now.h) ≤ length out.old }
    ensures written { IsSaved style.now.runs style.now.choice.kind style.now.format area.now
        (pixels_in style.now.format (shown cut.now) area.now) out.new result }
    ensures room { IfSome result (λ n. n ≤ 12 + 4 * (area.now.w * area.now.h)) }
{
    let (head, rest) = out.split_at_mut(RECTANGLE_HEAD_LEN);
    let (data, _) = rest.split_at_mut(4 * (area.w * area.h) as usize);
    let len = encode(style, cut, area, values, data)?;
    write_rectangle_head(area, style.choice.kind.number(), head);
    Some(RECTANGLE_HEAD_LEN + len)
}

/// Writes a rectangle in Raw (RFC 6143, 7.7.1).
fn write_raw(cut: &Cut, area: &Rect, format: &Format, out: &mut [u8]) -> usize
    requires within { IsWithin area.now cut.now.width cut.now.height }
    requires room { 12 + 4 * (area.now.w * area.now.h) ≤ length out.old }
    ensures written { IsFront (rectangle_bytes area.now 0 (form Raw format.now area.now.w area.now.h
        (pixels_in format.now (shown cut.now) area.now))) out.new result }
    ensures room { result ≤ 12 + 4 * (area.now.w * area.now.h) }
{
    let len = format.bytes() * (area.w * area.h) as usize;
    let (head, data) = out.split_at_mut(RECTANGLE_HEAD_LEN);
    let (rows, _) = data.split_at_mut(len);
    write_rectangle_head(area, Encoding::Raw.number(), head);
    let (width, height) = (cut.width as usize, cut.height as usize);
    write_rows(cut.colours.as_slice(), width, height, area, format, rows);
    RECTANGLE_HEAD_LEN + len
}

/// Writes a CopyRect of the rectangle before, where CopyRect may be used and the area repeats that rectangle.
fn write_repeated(
    cut: &Cut,
    may_copy: bool,
    before: Option<Rect>,
    area: &Rect,
    out: &mut [u8],
) -> Option<usize>
    requires before { LiesOn cut.now.width cut.now.height before }
    requires within { IsWithin area.now cut.now.width cut.now.height }
    requires room { 16 ≤ length out.old }
    ensures some { IfSome result (λ n.
        (n ≡ 16) × ((may_copy && repeats_one (shown cut.now) before area.now) ≡ true)
        × IsFront (rectangle_bytes area.now 1 (copy_source before)) out.new n) }
    ensures none { IfNone result
        ((may_copy && repeats_one (shown cut.now) before area.now) ≡ false) }
{
    let above = before?;
    let (width, height) = (cut.width as usize, cut.height as usize);
    if !may_copy || !repeats(cut.colours.as_slice(), width, height, &above, area) {
        return None;
    }
    Some(write_copy(area, &above, out))
}

/// Writes a rectangle of an answer, given the one before it, and answers how many bytes it has. Where CopyRect may be
/// used and it repeats the one before, it is a CopyRect of that one. Otherwise it is in the chosen encoding where that
/// saves bytes, and in Raw where not.
pub fn write_rectangle(
    style: &Style,
    cut: &Cut,
    may_copy: bool,
    before: Option<Rect>,
    area: &Rect,
    values: &mut [u32],
    out: &mut [u8],
) -> usize
    requires before { LiesOn cut.now.width cut.now.height before }
    requires within { IsWithin area.now cut.now.width cut.now.height }
    requires some { 1 ≤ area.now.w * area.now.h }
    requires values { area.now.w * area.now.h ≤ length values.old }
    requires room { 12 + 4 * (area.now.w * area.now.h) ≤ length out.old }
    ensures written { IsFront
        (spelled (style_in style.now) (shown cut.now) may_copy before area.now) out.new result }
    ensures some { 12 ≤ result }
    ensures room { result ≤ 12 + 4 * (area.now.w * area.now.h) }
{
    if let Some(len) = write_repeated(cut, may_copy, before, area, out) {
        return len;
    }
    match write_encoded(style, cut, area, values, out) {
        Some(len) => len,
        None => write_raw(cut, area, &style.format, out),
    }
}
