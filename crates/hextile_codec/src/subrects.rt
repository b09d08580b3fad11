//! Drawing the subrectangles of a tile.

ghost use Rattle.std.specs.Prelude.{◌≡◌, ◌+◌, ◌<◌, ◌≤◌, true, length, take};
ghost use Rattle.raster.specs.Screen.{LooksLike, is_within, fill, part_of};
ghost use Rattle.hextile_codec.specs.Ahead.{DrawsIn, DrawsTo, IsTile, colour_len, place_in};

use crate::colours::{Colours, specified};
use crate::drawing::Drawn;
use crate::stage::{Flaw, Stage, needed};
use pixel_format::Format;
use raster::{Canvas, Rect};

/// Draws a subrectangle, and answers whether it lies in its tile. If it doesn't, nothing is drawn.
fn draw_subrect<C: Canvas>(area: Rect, value: u32, position: u8, size: u8, canvas: &mut C) -> bool
    requires tile { IsTile area (C.width canvas.old) (C.height canvas.old) }
    ensures canvas { DrawsIn area (C.width canvas.old) (C.height canvas.old) (C.shows canvas.old)
        (C.width canvas.new) (C.height canvas.new) (C.shows canvas.new) }
    ensures stays { C.Stays canvas.old canvas.new }
    ensures inside { result ≡ is_within (place_in position size) area.w area.h }
    ensures drawn { result ≡ true
        → LooksLike area.w area.h (part_of area (C.shows canvas.new))
        (fill (place_in position size) (C.keeps value) (part_of area (C.shows canvas.old))) }
{
    let subrect = Rect {
        x: u64::from(position / 16),
        y: u64::from(position % 16),
        w: u64::from(size / 16) + 1,
        h: u64::from(size % 16) + 1,
    };
    if !subrect.within(area.w, area.h) {
        return false;
    }
    let place = Rect {
        x: area.x + subrect.x,
        y: area.y + subrect.y,
        ..subrect
    };
    canvas.fill(place, value);
    true
}

/// Draws the subrectangles that the bytes have, and at most as many as are left.
pub fn draw_subrects<C: Canvas>(
    format: &Format,
    area: Rect,
    carried: Colours,
    coloured: bool,
    left: u64,
    bytes: &[u8],
    canvas: &mut C,
) -> Drawn
    requires some { 0 < left }
    requires count { colour_len format.now coloured + 2 ≤ length bytes.now }
    requires tile { IsTile area (C.width canvas.old) (C.height canvas.old) }
    ensures canvas { DrawsIn area (C.width canvas.old) (C.height canvas.old) (C.shows canvas.old)
        (C.width canvas.new) (C.height canvas.new) (C.shows canvas.new) }
    ensures stays { C.Stays canvas.old canvas.new }
    ensures used { colour_len format.now coloured + 2 ≤ result.used }
    ensures within { result.used ≤ length bytes.now }
    ensures drawn { DrawsTo C.keeps format.now area carried (Stage.Subrects coloured left)
        (take result.used bytes.now) (C.shows canvas.old) (C.shows canvas.new) result }
{
    let needed = needed(format, Stage::Subrects { coloured, left });
    let mut left = left;
    let mut rest = bytes;
    while left > 0 && needed <= rest.len() {
        let (subrect, others) = rest.split_at(needed);
        let (value, place) = specified(format, coloured, carried.foreground, subrect);
        rest = others;
        if !draw_subrect(area, value.unwrap_or(0), place[0], place[1], canvas) {
            return Drawn {
                used: bytes.len() - rest.len(),
                carried,
                stage: Stage::Failed(Flaw::SubrectOutside),
            };
        }
        left -= 1;
    }
    Drawn {
        used: bytes.len() - rest.len(),
        carried,
        stage: Stage::Subrects { coloured, left },
    }
}
