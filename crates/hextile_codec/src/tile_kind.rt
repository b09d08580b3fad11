//! The kinds of a tile as it is written, and which of them one has.

ghost use Rattle.std.specs.Prelude.{◌≡◌, ℕ, ◌+◌, ◌*◌, ◌<◌, ◌≤◌, ◌↔◌, IsTrue, List, length, map};
ghost use Rattle.pixel_format.specs.PixelFormat.{pixel_len};
ghost use Rattle.raster.specs.Screen.{Canvas, value_at, part_of};
ghost use Rattle.raster.specs.Encoding.{Carried, Subrect, drawn_bytes, unless_said};
ghost use Rattle.joined_runs.specs.declared.rect_form.RectForm.{RectForm};
ghost use Rattle.joined_runs.specs.declared.rect_form.RectForm.TheVariants.{OfRows, Joined};
ghost use Rattle.joined_runs.specs.Joined.{background_of, subrects_of};
ghost use Rattle.hextile_codec.specs.Carried.{carried_by};
ghost use Rattle.hextile_codec.specs.Heads.{AreFound, IsHeadOf};
ghost use Rattle.hextile_codec.specs.TileKinds.{subrect_of, kind_of, leaves_of, drawn_len, enough_of, HasMany, IsChosen};
ghost use Rattle.hextile_codec.specs.Marks.{LiesAmong};

use crate::colours::{Colours, is_said};
use crate::joining::{Backgrounds, TileRoom, find_both, find_rows};
use crate::runs::{Run, TILE_AREA, has_one_value};
use pixel_format::Format;
use raster::{Rect, TILE_SIDE};

/// What a tile is written as (RFC 6143, section 7.7.4).
#[derive(Clone, Copy, Default)]
pub enum TileKind {
    /// Its pixels.
    #[default]
    Raw,
    /// Its background alone.
    Plain,
    /// Runs of this value over its background.
    TwoColours(u32),
    /// Runs of a value each over its background.
    Coloured,
}

/// What is known of a tile before it is written: its kind, its first pixel's value, and how many bytes it has.
#[derive(Clone, Copy, Default)]
pub struct TileChoice {
    pub kind: TileKind,
    pub background: u32,
    pub len: usize,
}

/// The choices of a tile in both forms.
#[derive(Clone, Copy)]
pub struct Choices {
    pub joined: TileChoice,
    pub rows: TileChoice,
}

/// The colours that a tile may leave off in both forms.
#[derive(Clone, Copy)]
pub struct Said {
    pub joined: Colours,
    pub rows: Colours,
}

impl Said {
    /// None in either, as before the first tile.
    pub const NOTHING: Said = Said {
        joined: Colours::NOTHING,
        rows: Colours::NOTHING,
    };
}

/// The kind of a tile of these runs that isn't Raw.
fn kind_of(runs: &[Run]) -> TileKind
    ensures { result ≡ kind_of (map subrect_of runs.now) }
{
    match runs.first() {
        None => TileKind::Plain,
        Some(first) if has_one_value(runs) => TileKind::TwoColours(first.value),
        Some(_) => TileKind::Coloured,
    }
}

/// How many bytes a colour has, which is left off where the tile before has it.
fn colour_len(format: &Format, before: Option<u32>, value: u32) -> usize
    ensures { result ≡ length (unless_said format.now before value) }
{
    if is_said(before, value) {
        0
    } else {
        format.bytes()
    }
}

/// How many bytes a tile of this many runs has that isn't Raw.
fn drawn_len(
    format: &Format,
    said: &Colours,
    background: u32,
    kind: TileKind,
    count: usize,
) -> usize
    requires { count ≤ TILE_AREA }
    ensures { result ≡ drawn_len format.now (carried_by said.now) background kind count }
{
    let head = 1 + colour_len(format, said.background, background);
    match kind {
        TileKind::TwoColours(foreground) => {
            head + colour_len(format, said.foreground, foreground) + 1 + 2 * count
        }
        TileKind::Coloured => head + 1 + (format.bytes() + 2) * count,
        _ => head,
    }
}

/// A tile of this many coloured subrectangles has more bytes than Raw.
fn enough_for(format: &Format, tile: &Rect) -> usize
    requires w_most { tile.now.w ≤ TILE_SIDE }
    requires h_most { tile.now.h ≤ TILE_SIDE }
    ensures value { result ≡ enough_of format.now tile.now.w tile.now.h }
    ensures some { 0 < result }
{
    let pixel = format.bytes();
    (1 + pixel * (tile.w * tile.h) as usize) / (pixel + 2) + 1
}

/// One of the two spellings of a tile before masks and the colours that are left off: its background, its kind and how
/// many subrectangles it has.
#[derive(Clone, Copy)]
pub struct Head {
    pub background: u32,
    pub kind: TileKind,
    pub count: usize,
}

/// The heads of a tile in both forms.
#[derive(Clone, Copy)]
pub struct Heads {
    pub joined: Head,
    pub rows: Head,
}

/// The heads of a tile of which these backgrounds and joined runs were found.
pub fn heads_of(found: &Backgrounds, subrects: &[Run]) -> Heads
    ensures { (w h : ℕ) (canvas : Canvas) → 0 < w → 0 < h
        → AreFound w h canvas (map subrect_of subrects.now) found.now
        → IsHeadOf Joined w h canvas result.joined × IsHeadOf OfRows w h canvas result.rows }
{
    let kind = kind_of(subrects);
    Heads {
        joined: Head {
            background: found.joined,
            kind,
            count: subrects.len(),
        },
        rows: Head {
            background: found.rows,
            kind: kind_of_rows(kind, found),
            count: found.count,
        },
    }
}

impl Head {
    /// What a tile of this head is written as: Raw where that has no more bytes than its drawing.
    pub fn choose(&self, format: &Format, tile: &Rect, said: &Colours) -> TileChoice
        requires w_most { tile.now.w ≤ TILE_SIDE }
        requires h_most { tile.now.h ≤ TILE_SIDE }
        requires few { self.now.count ≤ TILE_AREA }
        ensures choice { (form : RectForm) (canvas : Canvas) (found : List Subrect)
            → IsHeadOf form tile.now.w tile.now.h canvas self.now
            → found ≡ subrects_of form tile.now.w tile.now.h canvas
            → IsChosen form format.now (carried_by said.now)
            tile.now.w tile.now.h canvas found result }
        ensures few { result.len ≤ 1025 }
    {
        let raw = raw_choice(format, tile);
        let len = drawn_len(format, said, self.background, self.kind, self.count);
        if raw.len <= len {
            return raw;
        }
        TileChoice {
            kind: self.kind,
            background: self.background,
            len,
        }
    }
}

/// A tile written as its pixels, as it is where it has too many subrectangles.
fn raw_choice(format: &Format, tile: &Rect) -> TileChoice
    requires w_most { tile.now.w ≤ TILE_SIDE }
    requires h_most { tile.now.h ≤ TILE_SIDE }
    ensures len { result.len ≡ 1 + pixel_len format.now * (tile.now.w * tile.now.h) }
    ensures few { result.len ≤ 1025 }
    ensures least { (form : RectForm) (canvas : Canvas) (found : List Subrect) (before : Carried)
        → 1 + pixel_len format.now * (tile.now.w * tile.now.h)
        ≤ length (drawn_bytes format.now before (background_of form tile.now.w tile.now.h canvas)
        (subrects_of form tile.now.w tile.now.h canvas))
        → IsChosen form format.now before tile.now.w tile.now.h canvas found result }
    ensures many { (form : RectForm) (canvas : Canvas) (found : List Subrect) (before : Carried)
        → HasMany form tile.now.w tile.now.h canvas (enough_of format.now tile.now.w tile.now.h)
        → IsChosen form format.now before tile.now.w tile.now.h canvas found result }
{
    TileChoice {
        kind: TileKind::Raw,
        background: 0,
        len: 1 + format.bytes() * (tile.w * tile.h) as usize,
    }
}

/// Chooses what a tile is written as, as the runs of its rows: Raw where that has no more bytes than its drawing. Its
/// runs are then in `room`, if it isn't Raw.
pub fn choose(
    format: &Format,
    values: &[u32],
    w: usize,
    tile: &Rect,
    said: &Colours,
    room: &mut TileRoom,
) -> TileChoice
    requires lies { LiesAmong values.now w tile.now }
    requires w_some { 0 < tile.now.w }
    requires w_most { tile.now.w ≤ TILE_SIDE }
    requires h_some { 0 < tile.now.h }
    requires h_most { tile.now.h ≤ TILE_SIDE }
    ensures { IsChosen OfRows format.now (carried_by said.now) tile.now.w tile.now.h
        (part_of tile.now (value_at w values.now)) (map subrect_of room.new.runs.items) result }
{
    let enough = enough_for(format, tile);
    let Some(background) = find_rows(values, w, tile, enough, &mut room.runs) else {
        return raw_choice(format, tile);
    };
    let runs = room.runs.as_slice();
    let head = Head {
        background,
        kind: kind_of(runs),
        count: runs.len(),
    };
    head.choose(format, tile, said)
}

/// The kind of a tile of the runs of its rows, by that of its joined runs. In both forms it is told by the tile's values
/// other than its background.
fn kind_of_rows(joined: TileKind, backgrounds: &Backgrounds) -> TileKind
    ensures { (w h : ℕ) (canvas : Canvas) (found : List Subrect) → 0 < w → 0 < h
        → AreFound w h canvas found backgrounds.now
        → joined ≡ kind_of found
        → result ≡ kind_of (subrects_of OfRows w h canvas) }
{
    if backgrounds.rows == backgrounds.joined {
        return joined;
    }
    match joined {
        TileKind::TwoColours(_) => TileKind::TwoColours(backgrounds.joined),
        _ => joined,
    }
}

/// Chooses what a tile is written as in both forms, from one look at it. Its joined runs are then in `room`, if it isn't
/// Raw as these. The runs of its rows are counted, and not listed.
pub fn choose_both(
    format: &Format,
    values: &[u32],
    w: usize,
    tile: &Rect,
    said: &Said,
    room: &mut TileRoom,
) -> Choices
    requires lies { LiesAmong values.now w tile.now }
    requires w_some { 0 < tile.now.w }
    requires w_most { tile.now.w ≤ TILE_SIDE }
    requires h_some { 0 < tile.now.h }
    requires h_most { tile.now.h ≤ TILE_SIDE }
    ensures joined { IsChosen Joined format.now (carried_by said.now.joined)
        tile.now.w tile.now.h (part_of tile.now (value_at w values.now))
        (map subrect_of room.new.subrects.items) result.joined }
    ensures rows { let canvas = part_of tile.now (value_at w values.now) in
        IsChosen OfRows format.now (carried_by said.now.rows) tile.now.w tile.now.h canvas
        (subrects_of OfRows tile.now.w tile.now.h canvas) result.rows }
    ensures few { result.rows.len ≤ 1025 }
{
    let enough = enough_for(format, tile);
    let Some(found) = find_both(values, w, tile, enough, room) else {
        let raw = raw_choice(format, tile);
        return Choices {
            joined: raw,
            rows: raw,
        };
    };
    let heads = heads_of(&found, room.subrects.as_slice());
    Choices {
        joined: heads.joined.choose(format, tile, &said.joined),
        rows: heads.rows.choose(format, tile, &said.rows),
    }
}

impl Choices {
    /// What the next tile may leave off in each form.
    pub fn leaves(&self) -> Said
        ensures joined { carried_by result.joined
            ≡ leaves_of self.now.joined.kind self.now.joined.background }
        ensures rows { carried_by result.rows
            ≡ leaves_of self.now.rows.kind self.now.rows.background }
    {
        Said {
            joined: self.joined.leaves(),
            rows: self.rows.leaves(),
        }
    }
}

impl TileChoice {
    /// Whether the tile is written as its pixels.
    pub fn is_raw(&self) -> bool
        ensures { IsTrue result ↔ self.now.kind ≡ TileKind.Raw }
    {
        matches!(self.kind, TileKind::Raw)
    }

    /// What the next tile may leave off.
    pub fn leaves(&self) -> Colours
        ensures { carried_by result ≡ leaves_of self.now.kind self.now.background }
    {
        let background = match self.kind {
            TileKind::Raw => None,
            _ => Some(self.background),
        };
        let foreground = match self.kind {
            TileKind::TwoColours(foreground) => Some(foreground),
            _ => None,
        };
        Colours {
            background,
            foreground,
        }
    }
}
