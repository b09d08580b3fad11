//! Which tiles are due for a viewer, and the runs that bring them.

ghost use Rattle.std.specs.Prelude.{◌≡◌, ℕ, ◌<◌, List};
ghost use Rattle.raster.specs.Screen.{IsWithin, tile_count, tile_rect};
ghost use Rattle.raster.specs.Update.{Update};
ghost use Rattle.tiles.specs.Grid.{GridStands, due_at};
ghost use Rattle.tiles.specs.Have.{sent_at};
ghost use Rattle.tiles.specs.Runs.{to_come};
ghost use Rattle.tiles.specs.Touched.{is_due_since, runs};

use crate::due_runs::DueRuns;
use crate::grid::Grid;
use crate::have::Have;
use raster::Rect;

/// Whether tile `t` is due for a viewer that has these tiles: it was never sent, or was touched since it was sent (RFC
/// 6143, 7.5.3). Grid and `have` have to be of one screen.
pub fn due(grid: &Grid, have: &Have, t: u64) -> bool
    requires size { (have.now.width ≡ grid.now.width) × (have.now.height ≡ grid.now.height) }
    requires there { t < tile_count grid.now.width grid.now.height }
    ensures stamps { result ≡ due_at grid.now have.now t }
    ensures stands { (us : List Update) → GridStands grid.now us
        → result ≡ is_due_since (tile_rect grid.now.width grid.now.height t)
        (sent_at have.now t) us }
{
    match have.sent(t) {
        None => true,
        Some(number) => number < grid.stamp(t),
    }
}

/// The rectangles, in order, that bring a viewer an area of the screen, where it has these tiles (RFC 6143, 7.6.1). It
/// takes no memory.
pub fn runs<'a>(grid: &'a Grid, area: &Rect, have: &'a Have) -> DueRuns<'a>
    requires size { (have.now.width ≡ grid.now.width) × (have.now.height ≡ grid.now.height) }
    requires within { IsWithin area.now grid.now.width grid.now.height }
    ensures { to_come result
        ≡ runs grid.now.width grid.now.height area.now (due_at grid.now have.now) }
{
    DueRuns::new(grid, area, have)
}
