//! Writes rectangles in RRE.

ghost use Rattle.std.specs.Prelude.{◌≡◌, ◌+◌, ◌*◌, ◌<◌, ◌≤◌, ◌^◌, ◌++◌, [], ◌∷◌, length, take, IsTrue};
ghost use Rattle.std.specs.List.{flat_map};
ghost use Rattle.pixel_format.specs.PixelFormat.{pixel_len, pixel_bytes};
ghost use Rattle.raster.specs.declared.encoding.Encoding.TheVariants.{Rre};
ghost use Rattle.raster.specs.Screen.{value_at};
ghost use Rattle.raster.specs.Encoding.{runs, runs_of_row, rre_subrect_bytes};
ghost use Rattle.raster.specs.Encoded.{IsEncoded};
ghost use Rattle.joined_runs.specs.Joined.{IsEncodedAs, written};
ghost use Rattle.joined_runs.specs.Found.{subrect_of};
ghost use Rattle.rre_codec.specs.Putting.{Puts};

use crate::corners::has_joined;
use crate::run::{COUNT_LEN, put_run, run_len};
use joined_runs::{RectForm, RowRun, height};
use pixel_format::Format;
use raster::{RECT_LEN, Rect, has_runs};

/// The rectangle of these sizes at the top left.
fn whole(w: usize, h: usize) -> Rect
    ensures { result ≡ record { x = 0; y = 0; w = w; h = h } }
{
    Rect {
        x: 0,
        y: 0,
        w: w as u64,
        h: h as u64,
    }
}

/// Writes the subrectangle for a run, if there is one, from index `used` of `out` on. It answers where the subrectangle
/// ends, and `None` where that isn't inside `out`.
fn put_subrect(
    format: &Format,
    form: RectForm,
    values: &[u32],
    w: usize,
    h: usize,
    run: &RowRun,
    out: &mut [u8],
    used: usize,
) -> Option<usize>
    requires wide { w < 2 ^ 16 }
    requires high { h < 2 ^ 16 }
    requires count { length values.now ≡ w * h }
    requires column { run.now.x < w }
    requires row { run.now.y < h }
    requires len { run.now.len < 2 ^ 16 }
    requires room { used < length out.old }
    ensures { Puts (take used out.old ++ flat_map (rre_subrect_bytes format.now) (written form
        (value_at w values.now) w h (subrect_of run.now ∷ []))) out.old out.new result }
{
    let Some(high) = height(form, values, w, &whole(w, h), run) else {
        return Some(used);
    };
    let size = format.bytes() + RECT_LEN;
    if out.len() - used <= size {
        return None;
    }
    put_run(format, run, high, out, used);
    Some(used + size)
}

/// Writes the subrectangles for the runs of row `y` other than the background, from index `used` of `out` on. It
/// answers where they end, and `None` where that isn't inside `out`.
fn put_row(
    format: &Format,
    form: RectForm,
    values: &[u32],
    w: usize,
    h: usize,
    y: usize,
    background: u32,
    out: &mut [u8],
    used: usize,
) -> Option<usize>
    requires wide { w < 2 ^ 16 }
    requires high { h < 2 ^ 16 }
    requires row { y < h }
    requires count { length values.now ≡ w * h }
    requires room { used < length out.old }
    ensures { let canvas = value_at w values.now in
        Puts (take used out.old ++ flat_map (rre_subrect_bytes format.now)
        (written form canvas w h (runs_of_row canvas background w y))) out.old out.new result }
{
    let row = &values[y * w..y * w + w];
    let mut end = used;
    let mut x = 0;
    while x < w {
        let value = row[x];
        let len = run_len(&row[x..], value);
        if value != background {
            let run = RowRun { value, x, y, len };
            end = put_subrect(format, form, values, w, h, &run, out, end)?;
        }
        x += len;
    }
    Some(end)
}

/// Writes the background and all subrectangles after the room for their number. It answers where they end, and `None`
/// where that isn't inside `out`.
fn put_runs(
    format: &Format,
    form: RectForm,
    values: &[u32],
    w: usize,
    h: usize,
    out: &mut [u8],
) -> Option<usize>
    requires wide { w < 2 ^ 16 }
    requires high { h < 2 ^ 16 }
    requires count { length values.now ≡ w * h }
    requires some { 0 < length values.now }
    requires room { COUNT_LEN + pixel_len format.now < length out.old }
    ensures { let canvas = value_at w values.now in
        Puts (take COUNT_LEN out.old ++ pixel_bytes format.now (canvas 0 0)
        ++ flat_map (rre_subrect_bytes format.now) (written form canvas w h (runs canvas w h)))
        out.old out.new result }
{
    let background = values[0];
    format.put_pixel(background, &mut out[COUNT_LEN..]);
    let mut used = COUNT_LEN + format.bytes();
    for y in 0..h {
        used = put_row(format, form, values, w, h, y, background, out, used)?;
    }
    Some(used)
}

/// Whether a quick count shows that a rectangle has at least this many runs in a form. It takes less time than writing
/// them.
fn has_many(form: RectForm, values: &[u32], w: usize, h: usize, enough: u64) -> bool
    requires w_some { 0 < w }
    requires h_some { 0 < h }
    requires wide { w < 2 ^ 16 }
    requires high { h < 2 ^ 16 }
    requires count { length values.now ≡ w * h }
    ensures { let canvas = value_at w values.now in
        IsTrue result → enough ≤ length (written form canvas w h (runs canvas w h)) }
{
    match form {
        RectForm::OfRows => has_runs(values, w, &whole(w, h), enough),
        RectForm::Joined => has_joined(values, w, h, enough),
    }
}

/// Writes the pixel values of a rectangle in RRE (RFC 6143, section 7.7.3) in the form that is named, and answers how
/// many bytes it wrote.
///
/// It answers `None`, as soon as that shows, where Raw has no more bytes. Nothing is said then of what `out` holds. The
/// values are `w` by `h`, row after row, and `out` has room for the bytes of Raw.
pub fn encode_as(
    form: RectForm,
    values: &[u32],
    w: u64,
    h: u64,
    format: &Format,
    out: &mut [u8],
) -> Option<usize>
    requires wide { w < 2 ^ 16 }
    requires high { h < 2 ^ 16 }
    requires count { length values.now ≡ w * h }
    requires room { length values.now * pixel_len format.now ≤ length out.old }
    ensures { IsEncodedAs form Rre format.now w h values.now out.new result }
{
    let pixel = format.bytes();
    let raw = values.len() * pixel;
    let head = COUNT_LEN + pixel;
    if raw <= head {
        return None;
    }
    // With this many subrectangles the rectangle has at least as many bytes as in Raw.
    let enough = (raw - head).div_ceil(pixel + RECT_LEN);
    if has_many(form, values, w as usize, h as usize, enough as u64) {
        return None;
    }
    let end = put_runs(
        format,
        form,
        values,
        w as usize,
        h as usize,
        &mut out[..raw],
    )?;
    // The subrectangles have one length, so their number follows from where they end.
    let count = ((end - head) / (pixel + RECT_LEN)) as u32;
    out[..COUNT_LEN].copy_from_slice(&count.to_be_bytes());
    Some(end)
}

/// Writes the pixel values of a rectangle in RRE as the runs of its rows; as `encode_as` otherwise.
pub fn encode(values: &[u32], w: u64, h: u64, format: &Format, out: &mut [u8]) -> Option<usize>
    requires wide { w < 2 ^ 16 }
    requires high { h < 2 ^ 16 }
    requires count { length values.now ≡ w * h }
    requires room { length values.now * pixel_len format.now ≤ length out.old }
    ensures { IsEncoded Rre format.now w h values.now out.new result }
{
    encode_as(RectForm::OfRows, values, w, h, format, out)
}
