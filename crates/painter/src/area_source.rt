//! What parts of a screen are encoded from (RFC 6143, 7.7.4).

ghost use Rattle.std.specs.Prelude.{◌≡◌, ◌*◌, ◌≤◌, length, map};
ghost use Rattle.joined_runs.specs.Joined.{IsEncodedAs};
ghost use Rattle.joined_runs.specs.Tinted.{tinted};
ghost use Rattle.hextile_codec.specs.Kept.{AreFormsOf, AreKept};
ghost use Rattle.painter.specs.Painter.{colours_in};
ghost use Rattle.pixel_format.specs.PixelFormat.{tint};
ghost use Rattle.raster.specs.declared.encoding.Encoding.TheVariants.{Hextile};
ghost use Rattle.raster.specs.Screen.{Canvas, IsWithin, LooksLike, part_of, value_at};
ghost use Rattle.raster.specs.Size.{IsScreenSize};
ghost use Rattle.std.proofs.Props.{props};

use crate::area_forms::forms_in;
use hextile_codec::{PixelSource, TileForm, encode_from};
use joined_runs::RectForm;
use pixel_format::Format;
use raster::Rect;

/// What areas of a screen are encoded from: its width and height in pixels, its colours, row after row, and the forms
/// of some of its tiles, from the first tile on.
#[derive(Clone, Copy)]
pub struct AreaSource<'a> {
    pub width: u64,
    pub height: u64,
    pub colours: &'a [u32],
    pub forms: &'a [Option<TileForm>],
    pub ghost size: { IsScreenSize width height },
    pub ghost rows: { length colours.now ≡ width * height },
    pub ghost kept: { AreFormsOf width height (value_at width colours.now)
        forms.now } by { Prim.hlevel props },
}

impl<'a> AreaSource<'a> {
    /// The forms with which an area's pixel values are written in Hextile of joined runs: those of its first row of
    /// tiles, from the left. There are none where the area cuts a tile, where the format makes one value of two
    /// colours, or where some of these tiles are beyond the list.
    pub fn kept_forms(&self, area: &Rect, format: &Format) -> &'a [Option<TileForm>]
        requires { IsWithin area.now self.now.width self.now.height }
        ensures { (pixels : Canvas)
            → LooksLike area.now.w area.now.h pixels
            (tinted format.now (part_of area.now (value_at self.now.width self.now.colours.now)))
            → AreKept format.now area.now.w area.now.h pixels result.now }
    {
        if !format.keeps_apart() {
            return &[];
        }
        forms_in(self.forms, self.width, self.height, area)
    }

    /// Writes the data of an area in Hextile, where that has fewer bytes than Raw, by these forms of its first tiles.
    /// Its colours are made pixel values only as they are put.
    pub fn encode(
        &self,
        runs: RectForm,
        area: &Rect,
        forms: &[Option<TileForm>],
        format: &Format,
        out: &mut [u8],
    ) -> Option<usize>
        requires within { IsWithin area.now self.now.width self.now.height }
        requires kept { AreKept format.now area.now.w area.now.h (tinted format.now
            (part_of area.now (value_at self.now.width self.now.colours.now))) forms.now }
        requires room { 4 * (area.now.w * area.now.h) ≤ length out.old }
        ensures { IsEncodedAs runs Hextile format.now area.now.w area.now.h (map (tint format.now)
            (colours_in (value_at self.now.width self.now.colours.now) area.now)) out.new result }
    {
        let source = PixelSource {
            numbers: self.colours,
            width: self.width as usize,
            height: self.height as usize,
            area: *area,
            are_colours: true,
        };
        encode_from(runs, &source, forms, format, out)
    }
}
