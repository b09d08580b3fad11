//! What tiles with kept forms are written as.

ghost use Rattle.std.specs.Prelude.{◌≡◌, ℕ, ◌⊎◌, ◌<◌, ◌^◌, None, length, slice_index_or, IfNone, IfSome};
ghost use Rattle.raster.specs.Screen.{Canvas, tile_count};
ghost use Rattle.joined_runs.specs.declared.rect_form.RectForm.TheVariants.{OfRows, Joined};
ghost use Rattle.joined_runs.specs.Joined.{hextile_bytes_as};
ghost use Rattle.hextile_codec.specs.Chosen.{AreChosenBy};
ghost use Rattle.hextile_codec.specs.Kept.{AreKept};
ghost use Rattle.hextile_codec.specs.Sources.{shows};

use crate::kept::{TileForm, form_at};
use crate::source::PixelSource;
use crate::tile_kind::{Said, TileChoice};
use arrayvec::ArrayVec;
use pixel_format::Format;
use raster::{tile_count, tile_rect};

/// Of this many tiles the choices are kept until they are written. No row of tiles of a screen has more.
const MOST_CHOSEN: usize = 256;

/// What tiles are written as, as joined runs, from the first on.
pub type Chosen = ArrayVec<TileChoice, MOST_CHOSEN>;

/// How many bytes a rectangle has in both forms.
#[derive(Clone, Copy)]
pub struct Lengths {
    pub joined: usize,
    pub rows: usize,
}

/// Chooses what each tile is written as by its kept form, and answers how many bytes the rectangle has in both forms.
/// `None` where a tile has no form, or where there are more tiles than choices are kept of.
pub fn choose_kept(
    source: &PixelSource,
    forms: &[Option<TileForm>],
    format: &Format,
    chosen: &mut Chosen,
) -> Option<Lengths>
    requires wide { (0 < source.now.area.w) × (source.now.area.w < 2 ^ 16) }
    requires high { source.now.area.h < 2 ^ 16 }
    requires kept { AreKept format.now source.now.area.w source.now.area.h
        (shows format.now source.now) forms.now }
    ensures joined { IfSome result (λ lengths. lengths.joined ≡ length (hextile_bytes_as Joined
        format.now source.now.area.w source.now.area.h (shows format.now source.now))) }
    ensures rows { IfSome result (λ lengths. lengths.rows ≡ length (hextile_bytes_as OfRows
        format.now source.now.area.w source.now.area.h (shows format.now source.now))) }
    ensures none { IfNone result ((256 < tile_count source.now.area.w source.now.area.h)
        ⊎ ((k : ℕ) × ((k < tile_count source.now.area.w source.now.area.h)
        × (slice_index_or forms.now k None ≡ None)))) }
    ensures count { IfSome result (λ _.
        length chosen.new.items ≡ tile_count source.now.area.w source.now.area.h) }
    ensures chosen { AreChosenBy format.now source.now.area.w source.now.area.h
        (shows format.now source.now) forms.now chosen.new.items }
{
    chosen.clear();
    let (w, h) = (source.area.w, source.area.h);
    let mut said = Said::NOTHING;
    let mut lengths = Lengths { joined: 0, rows: 0 };
    for k in 0..tile_count(w, h) {
        let tile = tile_rect(w, h, k);
        let form = form_at(forms, k as usize)?;
        let choices = form.choose(format, &tile, &said);
        if chosen.try_push(choices.joined).is_err() {
            return None;
        }
        lengths.joined += choices.joined.len;
        lengths.rows += choices.rows.len;
        said = choices.leaves();
    }
    Some(lengths)
}
