//! Which rectangles an answer has.

ghost use Rattle.std.specs.Prelude.{◌≡◌, ◌+◌, ◌≤◌, ◌<◌, [], length, true, slice_index_or, OnOk, IfSome};
ghost use Rattle.std.specs.List.{All};
ghost use Rattle.raster.specs.Screen.{IsWithin};
ghost use Rattle.reflect_core.specs.Source.{marked};
ghost use Rattle.tiles.specs.Brings.{BringTheDue, IsPart};
ghost use Rattle.zrle_answer.specs.Planned.{AddsArea, GoesOn, areas_of};
ghost use Rattle.zrle_answer.specs.declared.plan.Planned.{Planned};

use crate::noise::looks_noisy;
use raster::Rect;
use reflect_core::Cut;
use std::alloc::AllocError;
use tiles::Walk;

/// The most rows of a rectangle of several runs, which are those of a tile of ZRLE (RFC 6143, 7.7.6).
const MOST_ROWS: u64 = 64;

/// How many rectangles are looked at for one that a run goes on with.
const LOOKED_AT: usize = 32;

/// The fewest positions of a run for which ZRLE is tried.
const FEWEST_POSITIONS: u64 = 256;

/// A rectangle of an answer.
#[derive(Clone, Copy, Debug, PartialEq, Eq)]
pub(crate) struct Planned {
    /// Where it lies, in pixels.
    pub area: Rect,
    /// Whether it is written without ZRLE.
    pub is_plain: bool,
}

/// Whether a run goes on with a rectangle: it is as wide and begins right below, and both together are no higher than a
/// tile of ZRLE.
fn goes_on(above: &Planned, run: &Rect) -> bool
    requires above { IsWithin above.now.area 4096 4096 }
    requires run { IsWithin run.now 4096 4096 }
    ensures { result ≡ true → GoesOn above.now.area run.now }
{
    !above.is_plain
        && above.area.x == run.x
        && above.area.w == run.w
        && above.area.y + above.area.h == run.y
        && above.area.h + run.h <= MOST_ROWS
}

/// The place of a rectangle, among the last ones, with which a run goes on.
fn find_above(plan: &[Planned], run: &Rect) -> Option<usize>
    requires plan { All (λ p. IsWithin p.area 4096 4096) plan.now }
    requires run { IsWithin run.now 4096 4096 }
    ensures { IfSome result (λ k. (k < length plan.now)
        × ((d : Planned) → GoesOn (slice_index_or plan.now k d).area run.now)) }
{
    for at in (plan.len().saturating_sub(LOOKED_AT)..plan.len()).rev() {
        if goes_on(&plan[at], run) {
            return Some(at);
        }
    }
    None
}

/// Adds a run to the rectangles: to one with which it goes on, unless it is to be plain, or as one more.
fn add_run(run: &Rect, is_plain: bool, plan: &mut Vec<Planned>) -> Result<(), AllocError>
    requires plan { All (λ p. IsWithin p.area 4096 4096) plan.old.items }
    requires run { IsWithin run.now 4096 4096 }
    ensures ok { OnOk result (AddsArea run.now plan.old.items plan.new.items) }
{
    if !is_plain && let Some(at) = find_above(plan, run) {
        let above = plan[at].area;
        plan[at] = Planned {
            area: Rect {
                x: above.x,
                y: above.y,
                w: above.w,
                h: above.h + run.h,
            },
            is_plain,
        };
        return Ok(());
    }
    plan.push(Planned {
        area: *run,
        is_plain,
    })?;
    Ok(())
}

/// Whether a run is written without ZRLE: it is short, or looks like noise.
fn is_plain(cut: &Cut, run: &Rect) -> bool
    requires { IsWithin run.now cut.now.width cut.now.height }
{
    let (width, height) = (cut.width as usize, cut.height as usize);
    run.w * run.h < FEWEST_POSITIONS || looks_noisy(cut.colours.as_slice(), width, height, run)
}

/// Whether there are rectangles, and no more than half of their positions are in rectangles without ZRLE. Nothing rests
/// on the answer but whether an answer is written at all.
pub(crate) fn is_mostly_zrle(plan: &[Planned]) -> bool {
    let mut all: u64 = 0;
    let mut plain: u64 = 0;
    for planned in plan {
        let positions = planned.area.w.wrapping_mul(planned.area.h);
        all = all.wrapping_add(positions);
        if planned.is_plain {
            plain = plain.wrapping_add(positions);
        }
    }
    !plan.is_empty() && plain <= all / 2
}

/// Plans the rectangles that bring what a cut shows in the tiles of an area that are still due: their runs, those of
/// rows below one another joined where ZRLE is tried.
pub(crate) fn plan_rectangles(
    cut: &Cut,
    area: &Rect,
    plan: &mut Vec<Planned>,
) -> Result<(), AllocError>
    requires within { IsWithin area.now cut.now.width cut.now.height }
    requires empty { plan.old.items ≡ [] }
    ensures ok { OnOk result (BringTheDue cut.now.width cut.now.height area.now (marked cut.now)
        (areas_of plan.new.items)) }
{
    let mut walk = Walk::new(area, cut.width, cut.height);
    while let Some(run) = walk.next(cut) {
        add_run(&run.area, is_plain(cut, &run.area), plan)?;
    }
    Ok(())
}
