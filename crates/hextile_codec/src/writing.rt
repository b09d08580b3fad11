//! Writing Hextile.

ghost use Rattle.std.specs.Prelude.{◌≡◌, ◌+◌, ◌*◌, ◌<◌, ◌≤◌, ◌^◌, length, take, MatchOption, Some};
ghost use Rattle.pixel_format.specs.PixelFormat.{pixel_len};
ghost use Rattle.raster.specs.declared.encoding.Encoding.TheVariants.{Hextile};
ghost use Rattle.raster.specs.Screen.{tile_count, value_at, values_of};
ghost use Rattle.raster.specs.Encoded.{IsEncoded};
ghost use Rattle.joined_runs.specs.declared.rect_form.RectForm.TheVariants.{OfRows, Joined};
ghost use Rattle.joined_runs.specs.Joined.{IsEncodedAs, hextile_bytes_as, shorter};
ghost use Rattle.hextile_codec.specs.Chosen.{AreChosenBy};
ghost use Rattle.hextile_codec.specs.Kept.{AreKept};
ghost use Rattle.hextile_codec.specs.Sources.{SourceStands, shows};

use crate::chosen::{Chosen, choose_kept};
use crate::colours::Colours;
use crate::joining::TileRoom;
use crate::kept::{TileForm, form_at};
use crate::put::Subrects;
use crate::runs::TILE_AREA;
use crate::source::PixelSource;
use crate::tile::{choose_rows, choose_tile, joined_subrects, put_tile};
use crate::tile_kind::{Said, TileChoice};
use joined_runs::RectForm;
use pixel_format::Format;
use raster::{Rect, tile_count, tile_rect};

/// Writes all tiles as the runs of their rows, and answers where they end; `None` where that isn't inside `out`.
fn put_rows(source: &PixelSource, format: &Format, out: &mut [u8]) -> Option<usize>
    requires stands { SourceStands source.now }
    requires wide { (0 < source.now.area.w) × (source.now.area.w < 2 ^ 16) }
    requires high { source.now.area.h < 2 ^ 16 }
    requires room { 0 < length out.old }
    ensures { let bytes = hextile_bytes_as OfRows format.now
        source.now.area.w source.now.area.h (shows format.now source.now) in
        MatchOption result (length out.old ≤ length bytes)
        (λ n. (n ≡ length bytes) × (n < length out.old) × (take n out.new ≡ bytes)) }
{
    // A copy, which nothing that is written to `out` can change, so that it is looked at once.
    let format = *format;
    let (w, h) = (source.area.w, source.area.h);
    let mut room = TileRoom::new();
    let mut tile_values = [0; TILE_AREA];
    let mut said = Colours::NOTHING;
    let mut used = 0;
    for k in 0..tile_count(w, h) {
        let tile = tile_rect(w, h, k);
        let (values, _) = tile_values.split_at_mut((tile.w * tile.h) as usize);
        let choice = choose_rows(source, &tile, &format, &said, values, &mut room);
        if out.len() - used <= choice.len {
            return None;
        }
        let subrects = Subrects::of_values(room.runs.as_slice());
        put_tile(
            source, &tile, &format, &said, &choice, &subrects, values, out, used,
        );
        used += choice.len;
        said = choice.leaves();
    }
    Some(used)
}

/// Writes all tiles in the form that has fewer bytes, and answers where they end; `None` where that isn't inside
/// `out`. The runs of rows are counted as the joined ones are written, and written only where they have fewer bytes.
fn put_joined(
    source: &PixelSource,
    forms: &[Option<TileForm>],
    format: &Format,
    out: &mut [u8],
) -> Option<usize>
    requires stands { SourceStands source.now }
    requires kept { AreKept format.now source.now.area.w source.now.area.h
        (shows format.now source.now) forms.now }
    requires wide { (0 < source.now.area.w) × (source.now.area.w < 2 ^ 16) }
    requires high { source.now.area.h < 2 ^ 16 }
    requires room { 0 < length out.old }
    ensures { let canvas = shows format.now source.now in
        let bytes = shorter (hextile_bytes_as Joined format.now source.now.area.w source.now.area.h
        canvas) (hextile_bytes_as OfRows format.now source.now.area.w source.now.area.h canvas) in
        MatchOption result (length out.old ≤ length bytes)
        (λ n. (n ≡ length bytes) × (n < length out.old) × (take n out.new ≡ bytes)) }
{
    let format = *format;
    let (w, h) = (source.area.w, source.area.h);
    let mut room = TileRoom::new();
    let mut tile_values = [0; TILE_AREA];
    let mut said = Said::NOTHING;
    let (mut used, mut rows) = (0, 0);
    for k in 0..tile_count(w, h) {
        let tile = tile_rect(w, h, k);
        let form = form_at(forms, k as usize);
        let (values, _) = tile_values.split_at_mut((tile.w * tile.h) as usize);
        let choices = choose_tile(source, form, &tile, &format, &said, values, &mut room);
        rows += choices.rows.len;
        if out.len() - used <= choices.joined.len {
            if out.len() <= rows {
                return None;
            }
            return put_rows(source, &format, out);
        }
        let subrects = joined_subrects(form, &room);
        put_tile(
            source,
            &tile,
            &format,
            &said.joined,
            &choices.joined,
            &subrects,
            values,
            out,
            used,
        );
        used += choices.joined.len;
        said = choices.leaves();
    }
    if rows < used {
        return put_rows(source, &format, out);
    }
    Some(used)
}

/// Writes all tiles as joined runs, as they were chosen by their kept forms, and answers where they end. Each has a kept
/// form, so that the answer is never `None`.
fn put_all_chosen(
    source: &PixelSource,
    forms: &[Option<TileForm>],
    chosen: &[TileChoice],
    format: &Format,
    out: &mut [u8],
) -> Option<usize>
    requires stands { SourceStands source.now }
    requires chosen { AreChosenBy format.now source.now.area.w source.now.area.h
        (shows format.now source.now) forms.now chosen.now }
    requires all { length chosen.now ≡ tile_count source.now.area.w source.now.area.h }
    requires wide { (0 < source.now.area.w) × (source.now.area.w < 2 ^ 16) }
    requires high { source.now.area.h < 2 ^ 16 }
    requires room { length (hextile_bytes_as Joined format.now source.now.area.w source.now.area.h
        (shows format.now source.now)) < length out.old }
    ensures { let bytes = hextile_bytes_as Joined format.now
        source.now.area.w source.now.area.h (shows format.now source.now) in
        (result ≡ Some (length bytes)) × (take (length bytes) out.new ≡ bytes) }
{
    let format = *format;
    let (w, h) = (source.area.w, source.area.h);
    let mut tile_values = [0; TILE_AREA];
    let mut said = Colours::NOTHING;
    let mut used = 0;
    for k in 0..tile_count(w, h) {
        let tile = tile_rect(w, h, k);
        let (values, _) = tile_values.split_at_mut((tile.w * tile.h) as usize);
        let form = form_at(forms, k as usize)?;
        let choice = chosen[k as usize];
        let subrects = form.subrects();
        put_tile(
            source, &tile, &format, &said, &choice, &subrects, values, out, used,
        );
        used += choice.len;
        said = choice.leaves();
    }
    Some(used)
}

/// As `put_joined`. Where each tile has a kept form, sums of lengths decide before a byte is written.
fn put_shorter(
    source: &PixelSource,
    forms: &[Option<TileForm>],
    format: &Format,
    out: &mut [u8],
) -> Option<usize>
    requires stands { SourceStands source.now }
    requires kept { AreKept format.now source.now.area.w source.now.area.h
        (shows format.now source.now) forms.now }
    requires wide { (0 < source.now.area.w) × (source.now.area.w < 2 ^ 16) }
    requires high { source.now.area.h < 2 ^ 16 }
    requires room { 0 < length out.old }
    ensures { let canvas = shows format.now source.now in
        let bytes = shorter (hextile_bytes_as Joined format.now source.now.area.w source.now.area.h
        canvas) (hextile_bytes_as OfRows format.now source.now.area.w source.now.area.h canvas) in
        MatchOption result (length out.old ≤ length bytes)
        (λ n. (n ≡ length bytes) × (n < length out.old) × (take n out.new ≡ bytes)) }
{
    // Room for choices is made only where there are forms to choose by.
    if forms.is_empty() {
        return put_joined(source, forms, format, out);
    }
    let mut chosen = Chosen::new();
    let Some(lengths) = choose_kept(source, forms, format, &mut chosen) else {
        return put_joined(source, forms, format, out);
    };
    if out.len() <= lengths.joined && out.len() <= lengths.rows {
        return None;
    }
    if lengths.rows < lengths.joined {
        return put_rows(source, format, out);
    }
    put_all_chosen(source, forms, chosen.as_slice(), format, out)
}

/// Writes what a source shows in Hextile (RFC 6143, section 7.7.4) in a form, and answers how many bytes that are.
/// Joined runs are written by the kept forms of some of its tiles, which are those of the colours that these show.
///
/// `None` where Raw has no more bytes, as soon as it shows; what `out` holds then is not said. `out` has room for the
/// bytes of Raw.
pub fn encode_from(
    form: RectForm,
    source: &PixelSource,
    forms: &[Option<TileForm>],
    format: &Format,
    out: &mut [u8],
) -> Option<usize>
    requires stands { SourceStands source.now }
    requires kept { AreKept format.now source.now.area.w source.now.area.h
        (shows format.now source.now) forms.now }
    requires room { source.now.area.w * source.now.area.h * pixel_len format.now ≤ length out.old }
    ensures { IsEncodedAs form Hextile format.now source.now.area.w source.now.area.h
        (values_of source.now.area.w source.now.area.h (shows format.now source.now))
        out.new result }
{
    let raw = (source.area.w * source.area.h) as usize * format.bytes();
    if raw == 0 {
        return None;
    }
    match form {
        RectForm::OfRows => put_rows(source, format, &mut out[..raw]),
        RectForm::Joined => put_shorter(source, forms, format, &mut out[..raw]),
    }
}

/// Writes pixel values in Hextile in a form, which are `w` by `h`, row after row; as `encode_from` otherwise.
pub fn encode_as(
    form: RectForm,
    values: &[u32],
    w: u64,
    h: u64,
    format: &Format,
    out: &mut [u8],
) -> Option<usize>
    requires wide { w < 2 ^ 16 }
    requires high { h < 2 ^ 16 }
    requires count { length values.now ≡ w * h }
    requires room { length values.now * pixel_len format.now ≤ length out.old }
    ensures { IsEncodedAs form Hextile format.now w h values.now out.new result }
{
    let source = PixelSource {
        numbers: values,
        width: w as usize,
        height: h as usize,
        area: Rect { x: 0, y: 0, w, h },
        are_colours: false,
    };
    encode_from(form, &source, &[], format, out)
}

/// Writes pixel values in Hextile as the runs of their rows; as `encode_as` otherwise.
pub fn encode(values: &[u32], w: u64, h: u64, format: &Format, out: &mut [u8]) -> Option<usize>
    requires wide { w < 2 ^ 16 }
    requires high { h < 2 ^ 16 }
    requires count { length values.now ≡ w * h }
    requires room { length values.now * pixel_len format.now ≤ length out.old }
    ensures { IsEncoded Hextile format.now w h values.now out.new result }
{
    encode_as(RectForm::OfRows, values, w, h, format, out)
}
