//! Runs one rectangle through its codec.

ghost use Rattle.std.specs.Prelude.{◌≡◌};

use crate::record::{Answer, Record};
use fault::Fault;
use joined_runs::RectForm;
use pixel_format::Format;
use raster::Raster;
use std::alloc::Global;

/// The number of Hextile (RFC 6143, 7.7.4). The others are RRE (7.7.3).
pub const HEXTILE: u8 = 5;

/// The pixel values in Raw.
pub fn values_of(alloc: Global, format: &Format, pixels: &[u8]) -> Result<Vec<u32>, Fault> {
    pixels
        .chunks_exact(format.bytes())
        .map(|pixel| format.get_pixel(pixel))
        .collect(alloc)
        .map_err(|_| Fault::Memory)
}

/// What a reader of Hextile makes of the data, as `draw` answers it.
fn draw_hextile(rectangle: &Record<'_>, raster: &mut Raster) -> Result<(usize, bool), Fault>
    requires wide { raster.old.width ≡ rectangle.now.width }
    requires high { raster.old.height ≡ rectangle.now.height }
{
    let (width, height) = (u64::from(rectangle.width), u64::from(rectangle.height));
    let mut reader = hextile_codec::Reader::new(width, height, rectangle.format);
    let used = reader.feed(raster, rectangle.data)?;
    Ok((used, reader.whole()))
}

/// What a reader of RRE makes of the data, as `draw` answers it.
fn draw_rre(rectangle: &Record<'_>, raster: &mut Raster) -> Result<(usize, bool), Fault>
    requires wide { raster.old.width ≡ rectangle.now.width }
    requires high { raster.old.height ≡ rectangle.now.height }
{
    let (width, height) = (u64::from(rectangle.width), u64::from(rectangle.height));
    let mut reader = rre_codec::Reader::new(width, height, rectangle.format);
    let used = reader.feed(raster, rectangle.data)?;
    Ok((used, reader.whole()))
}

/// How many bytes of the data are used, and whether they are a whole rectangle, which is drawn. Nothing is drawn on a
/// raster of another size.
pub fn draw(record: &Record<'_>, raster: &mut Raster) -> Result<(usize, bool), Fault> {
    if raster.width() != u64::from(record.width) || raster.height() != u64::from(record.height) {
        return Ok((0, false));
    }
    if record.encoding == HEXTILE {
        draw_hextile(record, raster)
    } else {
        draw_rre(record, raster)
    }
}

/// Whether a raster has these values and no others, row after row.
fn shows(raster: &Raster, values: &[u32]) -> bool {
    let mut rest = values;
    for y in 0..raster.height() {
        let row = raster.row(y);
        let Some((first, others)) = rest.split_at_checked(row.len()) else {
            return false;
        };
        if first != row {
            return false;
        }
        rest = others;
    }
    rest.is_empty()
}

/// Whether the data is read to its end and no further, and then the raster has these values.
fn is_drawn(record: &Record<'_>, raster: &mut Raster, values: &[u32]) -> Result<bool, Fault> {
    let (used, whole) = draw(record, raster)?;
    Ok(whole && used == record.data.len() && shows(raster, values))
}

/// Whether the data is read to its end and no further, and shows these values.
pub fn is_read(alloc: Global, record: &Record<'_>, values: &[u32]) -> Result<bool, Fault> {
    let mut raster = Raster::new(alloc, u64::from(record.width), u64::from(record.height))?;
    is_drawn(record, &mut raster, values)
}

/// What the writer answers for these values in a form: how many bytes stand at the front of `out`, or nothing. Also
/// nothing where the values, or the room for them, aren't as many as the rectangle has.
pub fn write(form: RectForm, record: &Record<'_>, values: &[u32], out: &mut [u8]) -> Option<usize> {
    let (width, height) = (u64::from(record.width), u64::from(record.height));
    let format = &record.format;
    let count = (width * height) as usize;
    if values.len() != count || out.len() < count * format.bytes() {
        return None;
    }
    if record.encoding == HEXTILE {
        hextile_codec::encode_as(form, values, width, height, format, out)
    } else {
        rre_codec::encode_as(form, values, width, height, format, out)
    }
}

/// Whether the writer answers for these values what it has to, with this room.
fn is_answered(form: RectForm, record: &Record<'_>, values: &[u32], out: &mut [u8]) -> bool {
    match write(form, record, values, out) {
        Some(count) => record.answer == Answer::Data && out.get(..count) == Some(record.data),
        None => record.answer == Answer::Nothing,
    }
}

/// Whether the writer answers for these values in a form what it has to.
pub fn is_written(
    alloc: Global,
    form: RectForm,
    record: &Record<'_>,
    values: &[u32],
) -> Result<bool, Fault> {
    let Ok(mut out) = vec![in alloc; 0u8; record.pixels.len()] else {
        return Err(Fault::Memory);
    };
    Ok(is_answered(form, record, values, out.as_mut_slice()))
}
