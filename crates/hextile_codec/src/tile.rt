//! One tile of a rectangle that is written.

ghost use Rattle.std.specs.Prelude.{◌≡◌, ◌+◌, ◌*◌, ◌≤◌, ◌++◌, length, map, take, IfNone, IfSome};
ghost use Rattle.pixel_format.specs.PixelFormat.{PixelFormat};
ghost use Rattle.raster.specs.Screen.{Canvas, IsWithin, part_of};
ghost use Rattle.joined_runs.specs.declared.rect_form.RectForm.{RectForm};
ghost use Rattle.joined_runs.specs.declared.rect_form.RectForm.TheVariants.{OfRows, Joined};
ghost use Rattle.joined_runs.specs.Joined.{subrects_of, tile_bytes_as};
ghost use Rattle.joined_runs.specs.Tinted.{ShowsApart, tinted_subrect};
ghost use Rattle.hextile_codec.specs.Carried.{carried_by};
ghost use Rattle.hextile_codec.specs.Kept.{FormStands};
ghost use Rattle.hextile_codec.specs.TileKinds.{IsChosen, IsTileSize, leaves_of, subrect_of};
ghost use Rattle.hextile_codec.specs.Sources.{SourceStands, shows};
ghost use Rattle.hextile_codec.specs.Subrects.{subrects_in};

use crate::colours::Colours;
use crate::joining::TileRoom;
use crate::kept::TileForm;
use crate::put::{Subrects, put_drawn, put_raw};
use crate::source::PixelSource;
use crate::tile_kind::{Choices, Said, TileChoice, choose, choose_both};
use pixel_format::Format;
use raster::Rect;

/// Chooses what a tile is written as in both forms: by the kept form of its colours or, where there is none, by a look at
/// its pixel values, for which `values` is room. Its joined runs are in `room` then, if it isn't Raw as these.
pub fn choose_tile(
    source: &PixelSource,
    form: Option<&TileForm>,
    tile: &Rect,
    format: &Format,
    said: &Said,
    values: &mut [u32],
    room: &mut TileRoom,
) -> Choices
    requires stands { SourceStands source.now }
    requires within { IsWithin tile.now source.now.area.w source.now.area.h }
    requires size { IsTileSize tile.now.w tile.now.h }
    requires room { length values.old ≡ tile.now.w * tile.now.h }
    requires kept { IfSome form (λ f.
        (colours : Canvas) × FormStands f.now tile.now.w tile.now.h colours
        × ShowsApart format.now tile.now.w tile.now.h colours
        (part_of tile.now (shows format.now source.now))) }
    ensures kept { IfSome form.entry (λ f. IsChosen Joined format.now (carried_by said.now.joined)
        tile.now.w tile.now.h (part_of tile.now (shows format.now source.now))
        (map (tinted_subrect format.now) (map subrect_of f.now.runs.items)) result.joined) }
    ensures seen { IfNone form.entry (IsChosen Joined format.now (carried_by said.now.joined)
        tile.now.w tile.now.h (part_of tile.now (shows format.now source.now))
        (map subrect_of room.new.subrects.items) result.joined) }
    ensures rows { let canvas = part_of tile.now (shows format.now source.now) in
        IsChosen OfRows format.now (carried_by said.now.rows) tile.now.w tile.now.h canvas
        (subrects_of OfRows tile.now.w tile.now.h canvas) result.rows }
    ensures len { result.joined.len
        ≡ length (tile_bytes_as Joined format.now (carried_by said.now.joined) tile.now.w tile.now.h
        (part_of tile.now (shows format.now source.now))).0 }
    ensures leaves { leaves_of result.joined.kind result.joined.background
        ≡ (tile_bytes_as Joined format.now (carried_by said.now.joined) tile.now.w tile.now.h
        (part_of tile.now (shows format.now source.now))).1 }
    ensures few { result.rows.len ≤ 1025 }
{
    if let Some(form) = form {
        return form.choose(format, tile, said);
    }
    let is_read = source.read(tile, format, values);
    let seen = source.seen(is_read, tile, values);
    choose_both(format, seen.values, seen.width, &seen.tile, said, room)
}

/// Chooses what a tile is written as, as the runs of its rows, by a look at its pixel values, for which `values` is room.
/// Its runs are in `room` then, if it isn't Raw.
pub fn choose_rows(
    source: &PixelSource,
    tile: &Rect,
    format: &Format,
    said: &Colours,
    values: &mut [u32],
    room: &mut TileRoom,
) -> TileChoice
    requires stands { SourceStands source.now }
    requires within { IsWithin tile.now source.now.area.w source.now.area.h }
    requires size { IsTileSize tile.now.w tile.now.h }
    requires room { length values.old ≡ tile.now.w * tile.now.h }
    ensures { IsChosen OfRows format.now (carried_by said.now)
        tile.now.w tile.now.h (part_of tile.now (shows format.now source.now))
        (map subrect_of room.new.runs.items) result }
{
    let is_read = source.read(tile, format, values);
    let seen = source.seen(is_read, tile, values);
    choose(format, seen.values, seen.width, &seen.tile, said, room)
}

/// The joined runs of a tile as they are put: those of its kept form, or those that a look found.
pub fn joined_subrects<'a>(form: Option<&'a TileForm>, room: &'a TileRoom) -> Subrects<'a>
    ensures kept { IfSome form.entry (λ f. (format : PixelFormat) → subrects_in format result
        ≡ map (tinted_subrect format) (map subrect_of f.now.runs.items)) }
    ensures seen { IfNone form.entry ((format : PixelFormat)
        → subrects_in format result ≡ map subrect_of room.now.subrects.items) }
{
    match form {
        Some(form) => form.subrects(),
        None => Subrects::of_values(room.subrects.as_slice()),
    }
}

/// Writes a tile as it was chosen, from index `used` of `out` on. Its subrectangles are `subrects` if it isn't Raw. Its
/// pixel values are looked at only if it is: then `values` is room for them.
pub fn put_tile(
    source: &PixelSource,
    tile: &Rect,
    format: &Format,
    said: &Colours,
    choice: &TileChoice,
    subrects: &Subrects,
    values: &mut [u32],
    out: &mut [u8],
    used: usize,
)
    requires stands { SourceStands source.now }
    requires within { IsWithin tile.now source.now.area.w source.now.area.h }
    requires size { IsTileSize tile.now.w tile.now.h }
    requires values { length values.old ≡ tile.now.w * tile.now.h }
    requires chosen { (form : RectForm)
        × IsChosen form format.now (carried_by said.now)
        tile.now.w tile.now.h (part_of tile.now (shows format.now source.now))
        (subrects_in format.now subrects.now) choice.now }
    requires room { used + choice.now.len ≤ length out.old }
    ensures { (form : RectForm)
        → IsChosen form format.now (carried_by said.now)
        tile.now.w tile.now.h (part_of tile.now (shows format.now source.now))
        (subrects_in format.now subrects.now) choice.now
        → take (used + choice.now.len) out.new
        ≡ take used out.old ++ (tile_bytes_as form format.now (carried_by said.now)
        tile.now.w tile.now.h (part_of tile.now (shows format.now source.now))).0 }
{
    if !choice.is_raw() {
        put_drawn(format, said, choice, subrects, out, used);
        return;
    }
    let is_read = source.read(tile, format, values);
    let seen = source.seen(is_read, tile, values);
    put_raw(format, seen.values, seen.width, &seen.tile, out, used);
}
