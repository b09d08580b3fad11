//! Reading a tile's mask, and what it announces.

ghost use Rattle.std.specs.Prelude.{◌≡◌, ℕ, ◌≤◌, length, take, [], ◌∷◌};
ghost use Rattle.pixel_format.specs.PixelFormat.{PixelFormat};
ghost use Rattle.byte_reading.specs.Reading.{step};
ghost use Rattle.raster.specs.Encoding.{tile};
ghost use Rattle.hextile_codec.specs.Carried.{carried_by};
ghost use Rattle.hextile_codec.specs.Ahead.{DrawsIn, DrawsTo, IsTile, IsBehindMask, blank, tile_rest, head_len};

use crate::colours::{Colours, specified};
use crate::drawing::Drawn;
use crate::mask::{
    ANY_SUBRECTS, BACKGROUND_SPECIFIED, FOREGROUND_SPECIFIED, RAW, SUBRECTS_COLOURED, has,
};
use crate::stage::{Flaw, Stage, head_len};
use pixel_format::Format;
use raster::{Canvas, Rect};

/// What a mask leads to, where these colours are carried.
fn after_mask(mask: u8, carried: Colours) -> Stage
    ensures behind { IsBehindMask result }
    ensures leads { (format : PixelFormat) (w h : ℕ)
        → step (tile format (carried_by carried) w h) mask
        ≡ tile_rest format w h (carried_by carried) result blank }
{
    if has(mask, RAW) {
        return Stage::RawPixels(0);
    }
    if !has(mask, BACKGROUND_SPECIFIED) && carried.background.is_none() {
        return Stage::Failed(Flaw::NoBackground);
    }
    let plain = has(mask, ANY_SUBRECTS) && !has(mask, SUBRECTS_COLOURED);
    if plain && !has(mask, FOREGROUND_SPECIFIED) && carried.foreground.is_none() {
        return Stage::Failed(Flaw::NoForeground);
    }
    Stage::Head(mask)
}

/// Reads what a mask announces at the front of the bytes, and draws the background.
pub fn draw_head<C: Canvas>(
    format: &Format,
    area: Rect,
    carried: Colours,
    mask: u8,
    bytes: &[u8],
    canvas: &mut C,
) -> Drawn
    requires count { head_len format.now mask ≤ length bytes.now }
    requires tile { IsTile area (C.width canvas.old) (C.height canvas.old) }
    ensures canvas { DrawsIn area (C.width canvas.old) (C.height canvas.old) (C.shows canvas.old)
        (C.width canvas.new) (C.height canvas.new) (C.shows canvas.new) }
    ensures stays { C.Stays canvas.old canvas.new }
    ensures used { result.used ≡ head_len format.now mask }
    ensures drawn { DrawsTo C.keeps format.now area carried (Stage.Head mask)
        (take result.used bytes.now) (C.shows canvas.old) (C.shows canvas.new) result }
{
    let (bytes, _) = bytes.split_at(head_len(format, mask));
    let (background, rest) = specified(
        format,
        has(mask, BACKGROUND_SPECIFIED),
        carried.background,
        bytes,
    );
    let (foreground, rest) = specified(
        format,
        has(mask, FOREGROUND_SPECIFIED),
        carried.foreground,
        rest,
    );
    let left = if has(mask, ANY_SUBRECTS) {
        u64::from(rest[0])
    } else {
        0
    };
    canvas.fill(area, background.unwrap_or(0));
    Drawn {
        used: bytes.len(),
        carried: Colours {
            background,
            foreground,
        },
        stage: Stage::Subrects {
            coloured: has(mask, SUBRECTS_COLOURED),
            left,
        },
    }
}

/// Goes on after a mask that isn't Raw. Where it announces nothing, the carried background is drawn at once.
fn draw_announced<C: Canvas>(
    format: &Format,
    area: Rect,
    carried: Colours,
    mask: u8,
    canvas: &mut C,
) -> Drawn
    requires tile { IsTile area (C.width canvas.old) (C.height canvas.old) }
    ensures canvas { DrawsIn area (C.width canvas.old) (C.height canvas.old) (C.shows canvas.old)
        (C.width canvas.new) (C.height canvas.new) (C.shows canvas.new) }
    ensures stays { C.Stays canvas.old canvas.new }
    ensures used { result.used ≡ 1 }
    ensures drawn { DrawsTo C.keeps format.now area carried (Stage.Head mask) []
        (C.shows canvas.old) (C.shows canvas.new) result }
{
    if head_len(format, mask) > 0 {
        return Drawn {
            used: 1,
            carried,
            stage: Stage::Head(mask),
        };
    }
    let drawn = draw_head(format, area, carried, mask, &[], canvas);
    Drawn { used: 1, ..drawn }
}

/// Draws what a mask leads to at once.
pub fn draw_mask<C: Canvas>(
    format: &Format,
    area: Rect,
    carried: Colours,
    mask: u8,
    canvas: &mut C,
) -> Drawn
    requires tile { IsTile area (C.width canvas.old) (C.height canvas.old) }
    ensures canvas { DrawsIn area (C.width canvas.old) (C.height canvas.old) (C.shows canvas.old)
        (C.width canvas.new) (C.height canvas.new) (C.shows canvas.new) }
    ensures stays { C.Stays canvas.old canvas.new }
    ensures used { result.used ≡ 1 }
    ensures drawn { DrawsTo C.keeps format.now area carried Stage.Mask (mask ∷ [])
        (C.shows canvas.old) (C.shows canvas.new) result }
{
    let stage = after_mask(mask, carried);
    match stage {
        Stage::Head(mask) => draw_announced(format, area, carried, mask, canvas),
        _ => Drawn {
            used: 1,
            carried,
            stage,
        },
    }
}
