//! Where the pixel values of a rectangle come from.

ghost use Rattle.std.specs.Prelude.{◌≡◌, ℕ, ◌+◌, ◌*◌, ◌<◌, ◌≤◌, if◌then◌else◌, true, false, length, IsTrue};
ghost use Rattle.pixel_format.specs.PixelFormat.{tint};
ghost use Rattle.raster.specs.Screen.{Canvas, IsWithin, part_of, value_at};
ghost use Rattle.hextile_codec.specs.Marks.{LiesAmong};
ghost use Rattle.hextile_codec.specs.Sources.{AreOfTile, AreRead, SourceStands, place_in, shows};

use crate::coloured::is_coloured;
use pixel_format::Format;
use raster::{Rect, TILE_SIDE, tint_rows};

/// A rectangle of numbers, which are its pixel values, or the colours of which a format makes these.
#[derive(Clone, Copy)]
pub struct PixelSource<'a> {
    /// The numbers among which it lies, `width` by `height`, row after row.
    pub numbers: &'a [u32],
    pub width: usize,
    pub height: usize,
    /// The rectangle, in pixels.
    pub area: Rect,
    pub are_colours: bool,
}

/// The pixel values of a tile, and where it lies among them. They stand in rows of `width`.
#[derive(Clone, Copy)]
pub(crate) struct TileValues<'a> {
    pub values: &'a [u32],
    pub width: usize,
    pub tile: Rect,
}

impl<'a> PixelSource<'a> {
    /// Where one of its tiles lies among the numbers.
    fn place_of(&self, tile: &Rect) -> Rect
        requires stands { SourceStands self.now }
        requires within { IsWithin tile.now self.now.area.w self.now.area.h }
        ensures { result ≡ place_in self.now tile.now }
    {
        Rect {
            x: self.area.x + tile.x,
            y: self.area.y + tile.y,
            w: tile.w,
            h: tile.h,
        }
    }

    /// Whether the numbers at the place of a tile are its pixel values as they stand: where they aren't colours, and where
    /// the format is the host's, in which a colour is its own pixel value.
    fn has_values_at(&self, place: &Rect, format: &Format) -> bool
        requires { LiesAmong self.now.numbers.now self.now.width place.now }
        ensures stand { IsTrue result → (x y : ℕ) → x < place.now.w → y < place.now.h
            → let number = part_of place.now (value_at self.now.width self.now.numbers.now) x y in
            (if self.now.are_colours then tint format.now number else number) ≡ number }
        ensures colours { result ≡ false → self.now.are_colours ≡ true }
    {
        !self.are_colours || (format.is_host() && is_coloured(self.numbers, self.width, place))
    }

    /// Has the pixel values of one of its tiles in `values`, row after row, unless they stand among its numbers; answers
    /// whether it has.
    pub(crate) fn read(&self, tile: &Rect, format: &Format, values: &mut [u32]) -> bool
        requires stands { SourceStands self.now }
        requires within { IsWithin tile.now self.now.area.w self.now.area.h }
        requires w_some { 0 < tile.now.w }
        requires room { length values.old ≡ tile.now.w * tile.now.h }
        ensures { AreRead result self.now tile.now
            (part_of tile.now (shows format.now self.now)) values.new }
    {
        let place = self.place_of(tile);
        if self.has_values_at(&place, format) {
            return false;
        }
        tint_rows(
            self.numbers,
            self.width,
            self.height,
            &place,
            format,
            values,
        );
        true
    }

    /// The pixel values of one of its tiles: where they were read, or where they stand among its numbers.
    pub(crate) fn seen<'b>(
        &'b self,
        is_read: bool,
        tile: &Rect,
        values: &'b [u32],
    ) -> TileValues<'b>
        requires stands { SourceStands self.now }
        requires within { IsWithin tile.now self.now.area.w self.now.area.h }
        requires w_most { tile.now.w ≤ TILE_SIDE }
        requires h_most { tile.now.h ≤ TILE_SIDE }
        requires room { length values.now ≡ tile.now.w * tile.now.h }
        ensures { (canvas : Canvas) → AreRead is_read self.now tile.now canvas values.now
            → AreOfTile result tile.now.w tile.now.h canvas }
    {
        if !is_read {
            return TileValues {
                values: self.numbers,
                width: self.width,
                tile: self.place_of(tile),
            };
        }
        let tile = Rect {
            x: 0,
            y: 0,
            w: tile.w,
            h: tile.h,
        };
        TileValues {
            values,
            width: tile.w as usize,
            tile,
        }
    }
}
