//! Measures how long joined runs of Hextile take with kept forms.

ghost use Rattle.std.specs.Prelude.{◌≡◌, ◌*◌, ◌<◌, ◌≤◌, ◌^◌, length, IfOk};
ghost use Rattle.pixel_format.specs.PixelFormat.{pixel_len};
ghost use Rattle.raster.specs.Screen.{value_at};
ghost use Rattle.hextile_codec.specs.Kept.{AreFormsOf};

use crate::codec::values_of;
use crate::record::Record;
use hextile_codec::{PixelSource, TileForm, TileRoom, encode_as, encode_from, form_of_tile};
use joined_runs::RectForm;
use pixel_format::Format;
use raster::{Rect, tile_count, tile_rect};
use std::alloc::{AllocError, Global};
use std::test::Fail;
use std::time::Instant;

/// The forms of all tiles of these colours.
fn forms_of(
    alloc: Global,
    colours: &[u32],
    w: u64,
    h: u64,
) -> Result<Vec<Option<TileForm>>, AllocError>
    requires wide { (0 < w) × (w < 2 ^ 16) }
    requires high { h < 2 ^ 16 }
    requires count { length colours.now ≡ w * h }
    ensures { IfOk result (λ forms. AreFormsOf w h (value_at w colours.now) forms.items) }
{
    let mut room = TileRoom::new();
    let mut forms = Vec::new(alloc);
    for k in 0..tile_count(w, h) {
        let tile = tile_rect(w, h, k);
        let form = form_of_tile(colours, w as usize, &tile, &mut room);
        forms.push(form)?;
    }
    Ok(forms)
}

/// Writes the pixel values of colours with the forms of these, and answers how many bytes that are; 0 where Raw is as
/// short, or where the format doesn't keep colours apart.
fn write_kept(
    forms: &[Option<TileForm>],
    colours: &[u32],
    w: u64,
    h: u64,
    format: &Format,
    out: &mut [u8],
) -> usize
    requires wide { (0 < w) × (w < 2 ^ 16) }
    requires high { h < 2 ^ 16 }
    requires count { length colours.now ≡ w * h }
    requires forms { AreFormsOf w h (value_at w colours.now) forms.now }
    requires room { w * h * pixel_len format.now ≤ length out.old }
{
    if !format.keeps_apart() {
        return 0;
    }
    let source = PixelSource {
        numbers: colours,
        width: w as usize,
        height: h as usize,
        area: Rect { x: 0, y: 0, w, h },
        are_colours: true,
    };
    encode_from(RectForm::Joined, &source, forms, format, out).unwrap_or(0)
}

/// The least times, of this many rounds, in which colours are written as joined runs in a format, and how many bytes
/// are written.
#[derive(Clone, Copy)]
pub struct KeptTimes {
    /// Without forms, in microseconds.
    pub without: u128,
    /// With the forms of all tiles that have one, in microseconds.
    pub with: u128,
    /// The bytes, as counted with forms.
    pub bytes: usize,
}

/// How long a rectangle takes with and without the forms of its tiles. Its pixels are the colours, as they are in the
/// host's format.
pub fn kept_micros(rt: &HostRuntime, record: &Record<'_>, rounds: u64) -> Result<KeptTimes, Fail> {
    let (w, h) = (u64::from(record.width), u64::from(record.height));
    let format = &record.format;
    let colours = values_of(rt.alloc(), format, record.pixels)?;
    let colours = colours.as_slice();
    if w == 0 || colours.len() as u64 != w * h {
        return Err(Fail::new("another size"));
    }
    let mut values = vec![in rt.alloc(); 0; colours.len()]?;
    format.tint_values(colours, values.as_mut_slice());
    let values = values.as_slice();
    let forms = forms_of(rt.alloc(), colours, w, h)?;
    let mut out = vec![in rt.alloc(); 0u8; colours.len() * format.bytes()]?;
    let mut times = KeptTimes {
        without: u128::MAX,
        with: u128::MAX,
        bytes: 0,
    };
    for _ in 0..rounds {
        let start = Instant::now(rt)?;
        let _ = encode_as(RectForm::Joined, values, w, h, format, out.as_mut_slice());
        times.without = times.without.min(start.elapsed(rt)?.as_micros());
        let start = Instant::now(rt)?;
        times.bytes = write_kept(forms.as_slice(), colours, w, h, format, out.as_mut_slice());
        times.with = times.with.min(start.elapsed(rt)?.as_micros());
    }
    Ok(times)
}
