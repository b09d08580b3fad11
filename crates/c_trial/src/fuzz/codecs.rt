//! Rectangles in RRE and Hextile.

ghost use Rattle.std.specs.Prelude.{◌≤◌};

use crate::fuzz::pieces::Pieces;
use crate::fuzz::transcript::Transcript;
use pixel_format::Format;
use raster::{CodecReader, Raster, read_piece};
use std::alloc::Global;

/// The number of Hextile (RFC 6143, 7.7.4). Any other stands for RRE (7.7.3).
const HEXTILE: u32 = 5;

/// The format that these bytes tell, if they do.
fn format_of(bytes: &[u8]) -> Option<Format> {
    if bytes.len() != 16 {
        return None;
    }
    let mut format = [0; 16];
    format.copy_from_slice(bytes);
    Format::read(&format).ok()
}

/// Reads a rectangle: its end, and whether it is whole.
fn read<R: CodecReader + Drop>(
    raster: &mut Raster,
    format: Format,
    bytes: &[u8],
    lengths: &[u8],
    transcript: &mut Transcript<'_>,
)
    requires across { raster.old.width ≤ 4096 }
    requires down { raster.old.height ≤ 4096 }
{
    let mut pieces = Pieces::new(bytes, lengths);
    let mut reader = R::begin(raster.width(), raster.height(), format);
    let mut used: usize = 0;
    let mut fault = None;
    for _ in 0..bytes.len() {
        let Some(piece) = pieces.next() else {
            break;
        };
        match read_piece(&mut reader, raster, piece) {
            Ok(count) => used = used.saturating_add(count),
            Err(found) => fault = Some(found),
        }
    }
    transcript.end(fault, used);
    transcript.byte(u8::from(reader.whole()));
}

/// Reads a rectangle of `width` by `height` in a pixel format: its end, whether it is whole, and what is drawn.
/// Nothing where there is no such format or size.
#[unsafe(no_mangle)]
pub extern "C" fn fuzz_rectangle(
    alloc: Global,
    encoding: u32,
    width: u32,
    height: u32,
    format: &[u8],
    bytes: &[u8],
    lengths: &[u8],
    out: &mut [u8],
) -> usize {
    let mut transcript = Transcript::new(out);
    let Some(format) = format_of(format) else {
        return 0;
    };
    if width == 0 || width > 4096 || height == 0 || height > 4096 {
        return 0;
    }
    let Ok(mut raster) = Raster::new(alloc, u64::from(width), u64::from(height)) else {
        return 0;
    };
    if encoding == HEXTILE {
        read::<hextile_codec::Reader>(&mut raster, format, bytes, lengths, &mut transcript);
    } else {
        read::<rre_codec::Reader>(&mut raster, format, bytes, lengths, &mut transcript);
    }
    write_raster(&raster, &mut transcript);
    transcript.len()
}

fn write_raster(raster: &Raster, transcript: &mut Transcript<'_>) {
    for y in 0..raster.height() {
        for value in raster.row(y) {
            transcript.bytes(&value.to_be_bytes());
        }
    }
}

/// Writes a rectangle whose pixels come in Raw, and answers how many bytes it has. It answers 0 where Raw is as short,
/// or where this is no rectangle or has no room.
#[unsafe(no_mangle)]
pub extern "C" fn fuzz_encode(
    alloc: Global,
    encoding: u32,
    width: u32,
    height: u32,
    format: &[u8],
    pixels: &[u8],
    out: &mut [u8],
) -> usize {
    let Some(format) = format_of(format) else {
        return 0;
    };
    if width == 0 || width > 4096 || height == 0 || height > 4096 {
        return 0;
    }
    let values = pixels
        .chunks_exact(format.bytes())
        .map(|pixel| format.get_pixel(pixel))
        .collect(alloc);
    match values {
        Ok(values) => write(encoding, width, height, &format, &values, out),
        Err(_) => 0,
    }
}

/// Writes a rectangle of these pixel values, as `fuzz_encode` answers it.
fn write(
    encoding: u32,
    width: u32,
    height: u32,
    format: &Format,
    values: &Vec<u32>,
    out: &mut [u8],
) -> usize
    requires across { width ≤ 4096 }
    requires down { height ≤ 4096 }
{
    let (w, h) = (u64::from(width), u64::from(height));
    let count = (w * h) as usize;
    if values.len() != count || out.len() < count * format.bytes() {
        return 0;
    }
    let written = if encoding == HEXTILE {
        hextile_codec::encode(values.as_slice(), w, h, format, out)
    } else {
        rre_codec::encode(values.as_slice(), w, h, format, out)
    };
    written.unwrap_or(0)
}
