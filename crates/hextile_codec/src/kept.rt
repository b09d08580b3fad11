//! The form of a tile by its colours, which is kept for as long as they stay.

ghost use Rattle.std.specs.Prelude.{◌≡◌, ℕ, ◌<◌, ◌≤◌, IfNone, IfSome, length, map, None, Some, slice_index_or};
ghost use Rattle.pixel_format.specs.PixelFormat.{PixelFormat};
ghost use Rattle.raster.specs.Screen.{Canvas, value_at, part_of};
ghost use Rattle.joined_runs.specs.declared.rect_form.RectForm.TheVariants.{OfRows, Joined};
ghost use Rattle.joined_runs.specs.Joined.{subrects_of};
ghost use Rattle.joined_runs.specs.Tinted.{ShowsApart, tinted_subrect};
ghost use Rattle.hextile_codec.specs.Apart.{tinted_head, tinted_kind};
ghost use Rattle.hextile_codec.specs.Carried.{carried_by};
ghost use Rattle.hextile_codec.specs.Heads.{IsHeadOf};
ghost use Rattle.hextile_codec.specs.Kept.{AreColours, FormStands};
ghost use Rattle.hextile_codec.specs.TileKinds.{IsChosen, HasMany, subrect_of};
ghost use Rattle.hextile_codec.specs.Marks.{LiesAmong};
ghost use Rattle.hextile_codec.specs.Subrects.{subrects_in};

use crate::coloured::is_coloured;
use crate::joining::{TileRoom, find_both};
use crate::put::Subrects;
use crate::runs::{Run, TILE_AREA};
use crate::tile_kind::{Choices, Head, Heads, Said, TileKind, heads_of};
use arrayvec::ArrayVec;
use pixel_format::Format;
use raster::{Rect, TILE_SIDE};

/// How many joined runs a kept form has at most. Most tiles of smooth letters have fewer, and no photo has.
pub const MOST_KEPT: usize = 80;

/// The heads of a tile of colours in both forms, and its joined runs.
#[derive(Drop)]
pub struct TileForm {
    joined: Head,
    rows: Head,
    runs: ArrayVec<Run, MOST_KEPT>,
}

impl TileKind {
    /// A kind of colours as one of their pixel values.
    fn tinted(self, format: &Format) -> TileKind
        ensures { result ≡ tinted_kind format.now self }
    {
        match self {
            TileKind::TwoColours(foreground) => TileKind::TwoColours(format.tint(foreground)),
            kind => kind,
        }
    }
}

impl Head {
    /// A head of colours as one of their pixel values.
    pub fn tinted(&self, format: &Format) -> Head
        ensures { result ≡ tinted_head format.now self.now }
    {
        Head {
            background: format.tint(self.background),
            kind: self.kind.tinted(format),
            count: self.count,
        }
    }
}

impl TileForm {
    /// An equal one.
    pub fn again(&self) -> TileForm
        ensures { result ≡ self.now }
    {
        let mut runs = ArrayVec::new();
        // It has room for these.
        let _ = runs.try_extend_from_slice(self.runs.as_slice());
        TileForm {
            joined: self.joined,
            rows: self.rows,
            runs,
        }
    }

    /// Becomes equal to another. No more is copied than that one has.
    pub fn copy_from(&mut self, other: &TileForm)
        ensures { self.new ≡ other.now }
    {
        self.joined = other.joined;
        self.rows = other.rows;
        self.runs.clear();
        // It has room for these.
        let _ = self.runs.try_extend_from_slice(other.runs.as_slice());
    }

    /// Chooses what a tile of pixel values is written as in both forms, by the kept form of its colours.
    pub fn choose(&self, format: &Format, tile: &Rect, said: &Said) -> Choices
        requires w_most { tile.now.w ≤ TILE_SIDE }
        requires h_most { tile.now.h ≤ TILE_SIDE }
        requires few { self.now.joined.count ≤ TILE_AREA }
        requires rows_few { self.now.rows.count ≤ TILE_AREA }
        ensures joined { (colours shown : Canvas)
            → FormStands self.now tile.now.w tile.now.h colours
            → ShowsApart format.now tile.now.w tile.now.h colours shown
            → IsChosen Joined format.now (carried_by said.now.joined) tile.now.w tile.now.h shown
            (map (tinted_subrect format.now) (map subrect_of self.now.runs.items)) result.joined }
        ensures rows { (colours shown : Canvas) → FormStands self.now tile.now.w tile.now.h colours
            → ShowsApart format.now tile.now.w tile.now.h colours shown
            → IsChosen OfRows format.now (carried_by said.now.rows) tile.now.w tile.now.h shown
            (subrects_of OfRows tile.now.w tile.now.h shown) result.rows }
        ensures joined_few { result.joined.len ≤ 1025 }
        ensures few { result.rows.len ≤ 1025 }
    {
        Choices {
            joined: self
                .joined
                .tinted(format)
                .choose(format, tile, &said.joined),
            rows: self.rows.tinted(format).choose(format, tile, &said.rows),
        }
    }

    /// Its joined runs, as they are put.
    pub fn subrects(&self) -> Subrects
        ensures { (format : PixelFormat) → subrects_in format result
            ≡ map (tinted_subrect format) (map subrect_of self.now.runs.items) }
    {
        Subrects::of_colours(self.runs.as_slice())
    }
}

/// The form of a tile by its colours; `None` where it has more joined runs than are kept, or a number that is no colour.
pub fn form_of_tile(colours: &[u32], w: usize, tile: &Rect, room: &mut TileRoom) -> Option<TileForm>
    requires lies { LiesAmong colours.now w tile.now }
    requires w_some { 0 < tile.now.w }
    requires w_most { tile.now.w ≤ TILE_SIDE }
    requires h_some { 0 < tile.now.h }
    requires h_most { tile.now.h ≤ TILE_SIDE }
    ensures stands { IfSome result (λ form.
        FormStands form tile.now.w tile.now.h (part_of tile.now (value_at w colours.now))) }
{
    if !is_coloured(colours, w, tile) {
        return None;
    }
    let found = find_both(colours, w, tile, MOST_KEPT + 1, room)?;
    let subrects = room.subrects.as_slice();
    if subrects.len() > MOST_KEPT {
        return None;
    }
    let Heads { joined, rows } = heads_of(&found, subrects);
    let mut runs = ArrayVec::new();
    // It has room for these.
    let _ = runs.try_extend_from_slice(subrects);
    Some(TileForm { joined, rows, runs })
}

/// The form that is kept of tile `k`, if there is one.
pub fn form_at(forms: &[Option<TileForm>], k: usize) -> Option<&TileForm>
    ensures some { IfSome result (λ form.
        (k < length forms.now) × (slice_index_or forms.now k None ≡ Some form.now)) }
    ensures none { IfNone result (slice_index_or forms.now k None ≡ None) }
{
    forms.get(k)?.as_ref()
}
