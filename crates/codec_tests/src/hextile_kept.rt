//! What is written in Hextile with kept forms, against what is written without any, and against bytes worked by hand
//! from RFC 6143, section 7.7.4.

ghost use Rattle.std.specs.Prelude.{◌≡◌, ◌*◌, ◌<◌, ◌≤◌, length, IfOk};
ghost use Rattle.pixel_format.specs.PixelFormat.{KeepsApart};
ghost use Rattle.raster.specs.Screen.{value_at};
ghost use Rattle.hextile_codec.specs.Kept.{AreFormsOf};

use crate::colours::{BLUE, GREEN, RED};
use hextile_codec::{PixelSource, TileForm, TileRoom, encode_as, encode_from, form_of_tile};
use joined_runs::RectForm;
use pixel_format::Format;
use raster::{Rect, tile_count, tile_rect};
use std::alloc::{AllocError, Global};
use std::test::Fail;

/// How many pixels a rectangle of these tests has at most.
const MOST_PIXELS: usize = 1024;

const BLACK: u32 = 0x00_0000;

const GREY: u32 = 0x80_8080;

const WHITE: u32 = 0xFF_FFFF;

/// The host's format.
const HOST: [u8; 16] = [32, 24, 0, 1, 0, 255, 0, 255, 0, 255, 16, 8, 0, 0, 0, 0];

/// The host's with red lowest and blue on top.
const TURNED: [u8; 16] = [32, 24, 0, 1, 0, 255, 0, 255, 0, 255, 0, 8, 16, 0, 0, 0];

/// Each row of the letter A as the bits of its columns, the first column lowest.
const LETTER: [u16; 16] = [
    0x0000, 0x0180, 0x03C0, 0x03C0, 0x0660, 0x0660, 0x0C30, 0x0C30, 0x1FF8, 0x1FF8, 0x3004, 0x300C,
    0x600E, 0x6006, 0xF00F, 0x0000,
];

/// What a tile shows.
#[derive(Clone, Copy)]
enum Drawing {
    OneColour,
    TwoColours,
    /// A letter with a grey edge.
    Letter,
    /// A hundred pixels of a colour each, and red ones.
    Steps,
    /// A pixel of each of 256 colours.
    Gradient,
    /// Each tile shows another of these.
    Mixed,
}

/// All drawings.
const DRAWINGS: [Drawing; 6] = [
    Drawing::OneColour,
    Drawing::TwoColours,
    Drawing::Letter,
    Drawing::Steps,
    Drawing::Gradient,
    Drawing::Mixed,
];

/// The colour of the letter at a place of a tile.
fn letter(x: u32, y: u32) -> u32
    requires { y < 16 }
{
    let row = u32::from(LETTER[y as usize]);
    let (ink, beside) = (row >> (x % 16) & 1, row >> (x % 15 + 1) & 1);
    match (ink, beside) {
        (0, 0) => WHITE,
        (0, _) => GREY,
        _ => BLACK,
    }
}

impl Drawing {
    /// What tile number `k` shows.
    fn at_tile(self, k: u32) -> Drawing {
        match (self, k % 5) {
            (Drawing::Mixed, 0) => Drawing::TwoColours,
            (Drawing::Mixed, 1) => Drawing::Gradient,
            (Drawing::Mixed, 2) => Drawing::OneColour,
            (Drawing::Mixed, 3) => Drawing::Letter,
            (Drawing::Mixed, _) => Drawing::Steps,
            (drawing, _) => drawing,
        }
    }

    /// The colour at a place of a tile.
    fn colour(self, x: u32, y: u32) -> u32
        requires { (x < 16) × (y < 16) }
    {
        let place = 16 * y + x;
        match self {
            Drawing::TwoColours if (x / 3 + y / 5) % 2 == 0 => BLUE,
            Drawing::Letter => letter(x, y),
            Drawing::Steps if place < 100 => place,
            Drawing::Gradient => 255 - place,
            _ => RED,
        }
    }
}

/// The colours of a drawing of this size.
fn draw(alloc: Global, drawing: Drawing, w: u32, h: u32) -> Result<Vec<u32>, AllocError>
    requires wide { (0 < w) × (w ≤ 32) }
    requires high { h ≤ 32 }
    ensures { IfOk result (λ colours. length colours.items ≡ w * h) }
{
    let mut colours = Vec::new(alloc);
    for k in 0..w * h {
        let (x, y) = (k % w, k / w);
        let shown = drawing.at_tile(y / 16 * 2 + x / 16);
        colours.push(shown.colour(x % 16, y % 16))?;
    }
    Ok(colours)
}

/// The forms of each tile whose number is a multiple of `every`.
fn forms_of(
    alloc: Global,
    colours: &[u32],
    w: u64,
    h: u64,
    every: u64,
) -> Result<Vec<Option<TileForm>>, AllocError>
    requires wide { (0 < w) × (w ≤ 32) }
    requires high { h ≤ 32 }
    requires count { length colours.now ≡ w * h }
    requires every { 0 < every }
    ensures { IfOk result (λ forms. AreFormsOf w h (value_at w colours.now) forms.items) }
{
    let mut room = TileRoom::new();
    let mut forms = Vec::new(alloc);
    for k in 0..tile_count(w, h) {
        let tile = tile_rect(w, h, k);
        let form = form_of_tile(colours, w as usize, &tile, &mut room);
        forms.push(if k % every == 0 { form } else { None })?;
    }
    Ok(forms)
}

/// Writes a rectangle of colours as joined runs, with these forms of its tiles.
fn write_kept(
    forms: &[Option<TileForm>],
    colours: &[u32],
    w: u64,
    h: u64,
    format: &Format,
    out: &mut [u8],
) -> Option<usize>
    requires wide { (0 < w) × (w ≤ 32) }
    requires high { h ≤ 32 }
    requires count { length colours.now ≡ w * h }
    requires forms { AreFormsOf w h (value_at w colours.now) forms.now }
    requires apart { KeepsApart format.now }
    requires room { 4 * (w * h) ≤ length out.old }
{
    let source = PixelSource {
        numbers: colours,
        width: w as usize,
        height: h as usize,
        area: Rect { x: 0, y: 0, w, h },
        are_colours: true,
    };
    encode_from(RectForm::Joined, &source, forms, format, out)
}

/// Whether the same bytes are written from colours with these forms as from their pixel values without any.
fn is_written_the_same(
    forms: &[Option<TileForm>],
    colours: &[u32],
    values: &[u32],
    w: u64,
    h: u64,
    format: &Format,
) -> bool
    requires wide { (0 < w) × (w ≤ 32) }
    requires high { h ≤ 32 }
    requires count { length colours.now ≡ w * h }
    requires values { length values.now ≡ w * h }
    requires forms { AreFormsOf w h (value_at w colours.now) forms.now }
{
    if !format.keeps_apart() {
        return false;
    }
    let mut wanted = [0u8; 4 * MOST_PIXELS];
    let wanted_len = encode_as(RectForm::Joined, values, w, h, format, &mut wanted);
    let mut out = [0u8; 4 * MOST_PIXELS];
    let len = write_kept(forms, colours, w, h, format, &mut out);
    let count = len.unwrap_or(0);
    len == wanted_len && out.get(..count) == wanted.get(..count)
}

/// Whether a drawing is written as the same bytes with the forms of all of its tiles, of some and of none.
fn is_drawn_the_same(
    alloc: Global,
    drawing: Drawing,
    w: u32,
    h: u32,
    format: &Format,
) -> Result<bool, AllocError>
    requires wide { (0 < w) × (w ≤ 32) }
    requires high { h ≤ 32 }
{
    let (wide, high) = (u64::from(w), u64::from(h));
    let colours = draw(alloc, drawing, w, h)?;
    let colours = colours.as_slice();
    let mut values = vec![in alloc; 0; colours.len()]?;
    format.tint_values(colours, values.as_mut_slice());
    let values = values.as_slice();
    for every in 1..4 {
        let forms = forms_of(alloc, colours, wide, high, every)?;
        if !is_written_the_same(forms.as_slice(), colours, values, wide, high, format) {
            return Ok(false);
        }
    }
    Ok(is_written_the_same(&[], colours, values, wide, high, format))
}

/// With edges of 1 to 15 pixels, at the right and below.
fn is_written_with_edges(
    alloc: Global,
    drawing: Drawing,
    format: &Format,
) -> Result<bool, AllocError> {
    for edge in 1..16 {
        if !is_drawn_the_same(alloc, drawing, 16 + edge, 32 - edge, format)? {
            return Ok(false);
        }
    }
    is_drawn_the_same(alloc, drawing, 32, 32, format)
}

/// Whether a drawing is written as before where its numbers have further bits, above the 24 of a colour.
fn is_written_without_more_bits(
    alloc: Global,
    drawing: Drawing,
    format: &Format,
) -> Result<bool, AllocError> {
    let colours = draw(alloc, drawing, 32, 20)?;
    let mut values = vec![in alloc; 0; colours.as_slice().len()]?;
    format.tint_values(colours.as_slice(), values.as_mut_slice());
    let mut numbers = colours;
    for (k, number) in numbers.as_mut_slice().iter_mut().enumerate() {
        *number |= (k as u32 % 3) << 24;
    }
    let numbers = numbers.as_slice();
    Ok(is_written_the_same(&[], numbers, values.as_slice(), 32, 20, format))
}

/// Also where tiles are cut, and where numbers aren't colours.
#[test]
fn kept_forms_are_written_the_same(rt: HostRuntime) -> Result<(), Fail> {
    for (name, format) in [("the host's", &HOST), ("red lowest", &TURNED)] {
        let format = Format::read(format)?;
        for (i, drawing) in DRAWINGS.iter().enumerate() {
            let is_cut_well = is_written_with_edges(rt.alloc(), *drawing, &format)?;
            assert!(rt; is_cut_well, "{name}: drawing {i}");
            let is_masked = is_written_without_more_bits(rt.alloc(), *drawing, &format)?;
            assert!(rt; is_masked, "{name}: larger numbers of drawing {i}");
        }
    }
    Ok(())
}

/// Whether a whole tile of a drawing has a form that is kept.
fn has_form(alloc: Global, drawing: Drawing) -> Result<bool, AllocError> {
    let colours = draw(alloc, drawing, 16, 16)?;
    let mut room = TileRoom::new();
    let tile = tile_rect(16, 16, 0);
    Ok(form_of_tile(colours.as_slice(), 16, &tile, &mut room).is_some())
}

/// A tile of 100 colours has 99 runs, and one of 256 has 255, which are too many.
#[test]
fn drawings_with_forms(rt: HostRuntime) -> Result<(), Fail> {
    let alloc = rt.alloc();
    assert!(rt; has_form(alloc, Drawing::OneColour)? && has_form(alloc, Drawing::TwoColours)?);
    assert!(rt; has_form(alloc, Drawing::Letter)?);
    assert!(rt; !has_form(alloc, Drawing::Steps)? && !has_form(alloc, Drawing::Gradient)?);
    Ok(())
}

/// A whole tile whose first pixels are these many colours, each its own run, and the others red.
fn of_colours(count: usize) -> [u32; 256] {
    let mut colours = [RED; 256];
    for k in 0..count.min(256) {
        colours[k] = k as u32 + 1;
    }
    colours
}

/// 80 runs are kept, and 81 aren't. A number of more than 24 bits is no colour.
#[test]
fn the_most_runs_of_a_form(rt: HostRuntime) {
    let mut room = TileRoom::new();
    let tile = tile_rect(16, 16, 0);
    assert!(rt; form_of_tile(&of_colours(80), 16, &tile, &mut room).is_some());
    assert!(rt; form_of_tile(&of_colours(81), 16, &tile, &mut room).is_none());
    let mut colours = [RED; 256];
    colours[255] = 0x100_0000;
    assert!(rt; form_of_tile(&colours, 16, &tile, &mut room).is_none());
}

/// Whether colours of a tile of five by five are written by their form as exactly these bytes.
fn is_kept_as(
    alloc: Global,
    colours: &[u32; 25],
    format: &Format,
    wanted: &[u8],
) -> Result<bool, AllocError> {
    let forms = forms_of(alloc, colours, 5, 5, 1)?;
    if !format.keeps_apart() {
        return Ok(false);
    }
    let mut out = [0u8; 100];
    let len = write_kept(forms.as_slice(), colours, 5, 5, format, &mut out);
    Ok(out.get(..len.unwrap_or(0)) == Some(wanted))
}

/// Five by five, a red cross on blue, in its two orders of channels: the beam above, the bar, the beam below.
#[test]
fn a_kept_cross(rt: HostRuntime) -> Result<(), Fail> {
    let mut colours = [BLUE; 25];
    for k in [2, 7, 10, 11, 12, 13, 14, 17, 22] {
        colours[k] = RED;
    }
    let wanted = [
        0x0E, 0xFF, 0, 0, 0, 0, 0, 0xFF, 0, 3, 0x20, 0x01, 0x02, 0x40, 0x23, 0x01,
    ];
    assert!(rt; is_kept_as(rt.alloc(), &colours, &Format::read(&HOST)?, &wanted)?);
    let wanted = [
        0x0E, 0, 0, 0xFF, 0, 0xFF, 0, 0, 0, 3, 0x20, 0x01, 0x02, 0x40, 0x23, 0x01,
    ];
    assert!(rt; is_kept_as(rt.alloc(), &colours, &Format::read(&TURNED)?, &wanted)?);
    Ok(())
}

/// That cross with green above, in three colours: each run has its own.
#[test]
fn a_kept_cross_of_two_colours(rt: HostRuntime) -> Result<(), Fail> {
    let mut colours = [BLUE; 25];
    for k in [2, 7] {
        colours[k] = GREEN;
    }
    for k in [10, 11, 12, 13, 14, 17, 22] {
        colours[k] = RED;
    }
    let wanted = [
        0x1A, 0, 0, 0xFF, 0, 3, // on blue
        0, 0xFF, 0, 0, 0x20, 0x01, 0xFF, 0, 0, 0, 0x02, 0x40, 0xFF, 0, 0, 0, 0x23, 0x01,
    ];
    assert!(rt; is_kept_as(rt.alloc(), &colours, &Format::read(&TURNED)?, &wanted)?);
    Ok(())
}
