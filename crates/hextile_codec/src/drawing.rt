//! Drawing one tile, as its bytes come.

ghost use Rattle.std.specs.Prelude.{◌≡◌, ◌*◌, ◌≤◌, false, length, take};
ghost use Rattle.hextile_codec.specs.Ahead.{DrawsIn, DrawsTo, IsTile, IsReady, is_whole, is_failed, needed};

use crate::colours::Colours;
use crate::head::{draw_head, draw_mask};
use crate::pixels::draw_pixels;
use crate::stage::Stage;
use crate::subrects::draw_subrects;
use pixel_format::Format;
use raster::{Canvas, Rect, TILE_SIDE};

/// What was drawn of a tile: how many bytes it took, and where that leads.
#[derive(Clone, Copy)]
pub struct Drawn {
    pub used: usize,
    pub carried: Colours,
    pub stage: Stage,
}

/// Draws as much of a tile as the bytes say, which are at least those that are looked at together.
pub fn draw<C: Canvas>(
    format: &Format,
    area: Rect,
    carried: Colours,
    stage: Stage,
    bytes: &[u8],
    canvas: &mut C,
) -> Drawn
    requires ready { IsReady format.now area stage }
    requires fine { is_failed stage ≡ false }
    requires count { needed format.now stage ≤ length bytes.now }
    requires tile { IsTile area (C.width canvas.old) (C.height canvas.old) }
    ensures canvas { DrawsIn area (C.width canvas.old) (C.height canvas.old) (C.shows canvas.old)
        (C.width canvas.new) (C.height canvas.new) (C.shows canvas.new) }
    ensures stays { C.Stays canvas.old canvas.new }
    ensures used { needed format.now stage ≤ result.used }
    ensures within { result.used ≤ length bytes.now }
    ensures drawn { DrawsTo C.keeps format.now area carried stage (take result.used bytes.now)
        (C.shows canvas.old) (C.shows canvas.new) result }
{
    match stage {
        Stage::Mask => draw_mask(format, area, carried, bytes[0], canvas),
        Stage::RawPixels(come) => draw_pixels(format, area, carried, come, bytes, canvas),
        Stage::Head(mask) => draw_head(format, area, carried, mask, bytes, canvas),
        Stage::Subrects { coloured, left } => {
            draw_subrects(format, area, carried, coloured, left, bytes, canvas)
        }
        Stage::Failed(_) => Drawn {
            used: 0,
            carried,
            stage,
        },
    }
}

/// Whether a tile of this size is whole at a stage.
pub fn is_whole(area: &Rect, stage: Stage) -> bool
    requires { (area.now.w ≤ TILE_SIDE) × (area.now.h ≤ TILE_SIDE) }
    ensures { result ≡ is_whole area.now.w area.now.h stage }
{
    match stage {
        Stage::RawPixels(count) => count == area.w * area.h,
        Stage::Subrects { left, .. } => left == 0,
        _ => false,
    }
}
