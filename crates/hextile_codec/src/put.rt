//! Putting a tile's bytes.

ghost use Rattle.std.specs.Prelude.{◌≡◌, ◌+◌, ◌*◌, ◌<◌, ◌≤◌, ◌++◌, ◌∷◌, [], if◌then◌else◌, true, length, map, take};
ghost use Rattle.std.specs.List.{All, flat_map};
ghost use Rattle.pixel_format.specs.PixelFormat.{PixelFormat, pixel_len, tint};
ghost use Rattle.joined_runs.specs.Tinted.{tinted_subrect};
ghost use Rattle.raster.specs.Screen.{value_at, part_of, values_of};
ghost use Rattle.raster.specs.Encoding.{drawn_bytes, unless_said, place_bytes, coloured_bytes, raw_bytes, is_said};
ghost use Rattle.hextile_codec.specs.Carried.{carried_by};
ghost use Rattle.hextile_codec.specs.TileKinds.{IsSmall, subrect_of, kind_of, drawn_len};
ghost use Rattle.hextile_codec.specs.Subrects.{subrect_in, subrects_in};

use crate::colours::{Colours, is_said};
use crate::mask::{
    ANY_SUBRECTS, BACKGROUND_SPECIFIED, FOREGROUND_SPECIFIED, RAW, SUBRECTS_COLOURED,
};
use crate::runs::Run;
use crate::tile_kind::{TileChoice, TileKind};
use pixel_format::Format;
use raster::{Rect, TILE_SIDE};

/// How many bytes the place of a run has.
const PLACE_LEN: usize = 2;

/// The subrectangles of a tile as they are put: runs with their pixel values, or with the colours of which a format
/// makes these.
#[derive(Clone, Copy)]
pub struct Subrects<'a> {
    pub runs: &'a [Run],
    pub are_colours: bool,
}

impl Subrects<'_> {
    /// Those of runs with their pixel values.
    pub fn of_values(runs: &[Run]) -> Subrects
        ensures { (format : PixelFormat) → subrects_in format result ≡ map subrect_of runs.now }
    {
        Subrects {
            runs,
            are_colours: false,
        }
    }

    /// Those of runs with their colours.
    pub fn of_colours(runs: &[Run]) -> Subrects
        ensures { (format : PixelFormat)
            → subrects_in format result ≡ map (tinted_subrect format) (map subrect_of runs.now) }
    {
        Subrects {
            runs,
            are_colours: true,
        }
    }
}

/// Puts a colour from index `used` of `out` on, unless the tile before has it, and answers where it ends.
fn put_colour(
    format: &Format,
    before: Option<u32>,
    value: u32,
    out: &mut [u8],
    used: usize,
) -> usize
    requires { used + length (unless_said format.now before value) ≤ length out.old }
    ensures end { result ≡ used + length (unless_said format.now before value) }
    ensures bytes { take result out.new ≡ take used out.old ++ unless_said format.now before value }
{
    if is_said(before, value) {
        return used;
    }
    format.put_pixel(value, &mut out[used..]);
    used + format.bytes()
}

/// The place of a subrectangle as it is written: its position, and its size.
fn place_of(run: &Run) -> [u8; PLACE_LEN]
    requires { IsSmall run.now }
    ensures { result ≡ place_bytes (subrect_of run.now) }
{
    [run.x * 16 + run.y, (run.len - 1) * 16 + (run.high - 1)]
}

/// Puts one byte at index `used` of `out`, and answers where it ends.
fn put_byte(byte: u8, out: &mut [u8], used: usize) -> usize
    requires { used < length out.old }
    ensures end { result ≡ used + 1 }
    ensures bytes { take result out.new ≡ take used out.old ++ byte ∷ [] }
{
    out[used] = byte;
    used + 1
}

/// Puts the places of runs from index `used` of `out` on.
fn put_places(runs: &[Run], out: &mut [u8], used: usize)
    requires small { All IsSmall runs.now }
    requires room { used + 2 * length runs.now ≤ length out.old }
    ensures { take (used + 2 * length runs.now) out.new
        ≡ take used out.old ++ flat_map place_bytes (map subrect_of runs.now) }
{
    let mut at = used;
    for run in runs {
        out[at..at + PLACE_LEN].copy_from_slice(&place_of(run));
        at += PLACE_LEN;
    }
}

/// Puts runs with their values from index `used` of `out` on.
fn put_coloured_runs(format: &Format, runs: &[Run], out: &mut [u8], used: usize)
    requires small { All IsSmall runs.now }
    requires room { used + (pixel_len format.now + 2) * length runs.now ≤ length out.old }
    ensures { take (used + (pixel_len format.now + 2) * length runs.now) out.new
        ≡ take used out.old ++ flat_map (coloured_bytes format.now) (map subrect_of runs.now) }
{
    // A copy, which nothing that is written to `out` can change, so that it is looked at once.
    let format = *format;
    let mut at = used;
    for run in runs {
        format.put_pixel(run.value, &mut out[at..]);
        let place = at + format.bytes();
        out[place..place + PLACE_LEN].copy_from_slice(&place_of(run));
        at = place + PLACE_LEN;
    }
}

/// The pixel value of the next colour, after a colour and its pixel value.
fn tint_next(format: &Format, colour: u32, value: u32, next: u32) -> u32
    requires { value ≡ tint format.now colour }
    ensures { result ≡ tint format.now next }
{
    // Mostly a run has the colour of the one before, and to tint takes longer than to compare.
    if next == colour {
        value
    } else {
        format.tint(next)
    }
}

/// Puts runs of colours with their pixel values from index `used` of `out` on.
fn put_tinted_runs(format: &Format, runs: &[Run], out: &mut [u8], used: usize)
    requires small { All IsSmall runs.now }
    requires room { used + (pixel_len format.now + 2) * length runs.now ≤ length out.old }
    ensures { take (used + (pixel_len format.now + 2) * length runs.now) out.new ≡ take used out.old
        ++ flat_map (coloured_bytes format.now) (map (subrect_in format.now true) runs.now) }
{
    // A copy, as above.
    let format = *format;
    let mut at = used;
    let mut colour = 0;
    let mut value = format.tint(colour);
    for run in runs {
        value = tint_next(&format, colour, value, run.value);
        colour = run.value;
        format.put_pixel(value, &mut out[at..]);
        let place = at + format.bytes();
        out[place..place + PLACE_LEN].copy_from_slice(&place_of(run));
        at = place + PLACE_LEN;
    }
}

/// Puts subrectangles with their pixel values from index `used` of `out` on.
fn put_runs(format: &Format, subrects: &Subrects, out: &mut [u8], used: usize)
    requires small { All IsSmall subrects.now.runs.now }
    requires room { used + (pixel_len format.now + 2) * length subrects.now.runs.now
        ≤ length out.old }
    ensures { take (used + (pixel_len format.now + 2) * length subrects.now.runs.now) out.new
        ≡ take used out.old
        ++ flat_map (coloured_bytes format.now) (subrects_in format.now subrects.now) }
{
    if subrects.are_colours {
        put_tinted_runs(format, subrects.runs, out, used);
    } else {
        put_coloured_runs(format, subrects.runs, out, used);
    }
}

/// The bit that says that a background is written, unless the tile before has it.
fn background_bit(said: &Colours, background: u32) -> u8
    ensures { result ≡ (if is_said said.now.background background then 0 else 2) }
{
    if is_said(said.background, background) {
        0
    } else {
        BACKGROUND_SPECIFIED
    }
}

/// Puts a tile of runs of one value.
fn put_two_colours(
    format: &Format,
    said: &Colours,
    background: u32,
    foreground: u32,
    subrects: &Subrects,
    out: &mut [u8],
    used: usize,
)
    requires small { All IsSmall subrects.now.runs.now }
    requires few { length subrects.now.runs.now ≤ 255 }
    requires is { kind_of (subrects_in format.now subrects.now) ≡ TileKind.TwoColours foreground }
    requires room { used + drawn_len format.now (carried_by said.now)
        background (TileKind.TwoColours foreground) (length subrects.now.runs.now)
        ≤ length out.old }
    ensures { take (used + drawn_len format.now (carried_by said.now) background
        (TileKind.TwoColours foreground) (length subrects.now.runs.now)) out.new
        ≡ take used out.old ++ drawn_bytes format.now (carried_by said.now) background
        (subrects_in format.now subrects.now) }
{
    let bits = if is_said(said.foreground, foreground) {
        ANY_SUBRECTS
    } else {
        ANY_SUBRECTS + FOREGROUND_SPECIFIED
    };
    let mask = background_bit(said, background) + bits;
    let at = put_byte(mask, out, used);
    let at = put_colour(format, said.background, background, out, at);
    let at = put_colour(format, said.foreground, foreground, out, at);
    let at = put_byte(subrects.runs.len() as u8, out, at);
    put_places(subrects.runs, out, at);
}

/// Puts a tile of runs with their values.
fn put_coloured(
    format: &Format,
    said: &Colours,
    background: u32,
    subrects: &Subrects,
    out: &mut [u8],
    used: usize,
)
    requires small { All IsSmall subrects.now.runs.now }
    requires few { length subrects.now.runs.now ≤ 255 }
    requires is { kind_of (subrects_in format.now subrects.now) ≡ TileKind.Coloured }
    requires room { used + drawn_len format.now (carried_by said.now)
        background TileKind.Coloured (length subrects.now.runs.now)
        ≤ length out.old }
    ensures { take (used + drawn_len format.now (carried_by said.now)
        background TileKind.Coloured (length subrects.now.runs.now)) out.new
        ≡ take used out.old ++ drawn_bytes format.now (carried_by said.now) background
        (subrects_in format.now subrects.now) }
{
    let mask = background_bit(said, background) + ANY_SUBRECTS + SUBRECTS_COLOURED;
    let at = put_byte(mask, out, used);
    let at = put_colour(format, said.background, background, out, at);
    let at = put_byte(subrects.runs.len() as u8, out, at);
    put_runs(format, subrects, out, at);
}

/// Puts a tile that isn't Raw, of a kind that its runs have, from index `used` of `out` on.
pub fn put_drawn(
    format: &Format,
    said: &Colours,
    choice: &TileChoice,
    subrects: &Subrects,
    out: &mut [u8],
    used: usize,
)
    requires small { All IsSmall subrects.now.runs.now }
    requires few { length subrects.now.runs.now ≤ 255 }
    requires is { choice.now.kind ≡ kind_of (subrects_in format.now subrects.now) }
    requires room { used + drawn_len format.now (carried_by said.now)
        choice.now.background choice.now.kind (length subrects.now.runs.now)
        ≤ length out.old }
    ensures { take (used + drawn_len format.now (carried_by said.now)
        choice.now.background choice.now.kind (length subrects.now.runs.now)) out.new
        ≡ take used out.old ++ drawn_bytes format.now (carried_by said.now) choice.now.background
        (subrects_in format.now subrects.now) }
{
    let background = choice.background;
    match choice.kind {
        TileKind::TwoColours(foreground) => {
            put_two_colours(format, said, background, foreground, subrects, out, used)
        }
        TileKind::Coloured => put_coloured(format, said, background, subrects, out, used),
        _ => {
            let at = put_byte(background_bit(said, background), out, used);
            put_colour(format, said.background, background, out, at);
        }
    }
}

/// Puts the pixels of a row from index `used` of `out` on, and answers where they end.
fn put_row(format: &Format, row: &[u32], out: &mut [u8], used: usize) -> usize
    requires { used + pixel_len format.now * length row.now ≤ length out.old }
    ensures end { result ≡ used + pixel_len format.now * length row.now }
    ensures bytes { take result out.new ≡ take used out.old ++ raw_bytes format.now row.now }
{
    let end = used + format.bytes() * row.len();
    format.put_values(row, &mut out[used..end]);
    end
}

/// Puts a tile's pixels, from index `used` of `out` on.
pub fn put_raw(format: &Format, values: &[u32], w: usize, tile: &Rect, out: &mut [u8], used: usize)
    requires w_some { 0 < tile.now.w }
    requires w_most { tile.now.w ≤ TILE_SIDE }
    requires h_most { tile.now.h ≤ TILE_SIDE }
    requires across { tile.now.x + tile.now.w ≤ w }
    requires down { (tile.now.y + tile.now.h) * w ≤ length values.now }
    requires room { used + 1 + pixel_len format.now * (tile.now.w * tile.now.h) ≤ length out.old }
    ensures { take (used + 1 + pixel_len format.now * (tile.now.w * tile.now.h)) out.new
        ≡ take used out.old ++ 1 ∷ raw_bytes format.now
        (values_of tile.now.w tile.now.h (part_of tile.now (value_at w values.now))) }
{
    let first = tile.y as usize * w + tile.x as usize;
    let mut at = put_byte(RAW, out, used);
    for y in 0..tile.h as usize {
        let start = first + y * w;
        at = put_row(format, &values[start..start + tile.w as usize], out, at);
    }
}
