//! The runs of due tiles, one after another.

ghost use Rattle.std.specs.Prelude.{◌≡◌};

use crate::grid::Grid;
use crate::have::Have;
use crate::since::DueSince;
use crate::walk::Walk;
use raster::Rect;

/// The runs of due tiles that meet an area, clipped to it: row after row of tiles from the top, each row from the left.
#[derive(Drop)]
pub struct DueRuns<'a> {
    tiles: DueSince<'a>,
    walk: Walk,
    pub ghost size: { (tiles.grid.now.width ≡ walk.width) × (tiles.grid.now.height ≡ walk.height) },
}

impl<'a> DueRuns<'a> {
    ghost use Rattle.raster.specs.Screen.{IsWithin};
    ghost use Rattle.tiles.specs.Grid.{due_at};
    ghost use Rattle.tiles.specs.Runs.{to_come};
    ghost use Rattle.tiles.specs.Touched.{runs};

    /// All runs of an area. Grid and `have` have to be of one screen.
    pub(crate) fn new(grid: &'a Grid, area: &Rect, have: &'a Have) -> Self
        requires size { (have.now.width ≡ grid.now.width) × (have.now.height ≡ grid.now.height) }
        requires within { IsWithin area.now grid.now.width grid.now.height }
        ensures { to_come result
            ≡ runs grid.now.width grid.now.height area.now (due_at grid.now have.now) }
    {
        let (width, height) = grid.size();
        DueRuns {
            tiles: DueSince::new(grid, have),
            walk: Walk::new(area, width, height),
        }
    }
}

impl<'a> Iterator for DueRuns<'a> {
    ghost use Rattle.std.specs.Iterator.{YieldsFirst, item_count};
    ghost use Rattle.tiles.specs.Runs.{to_come};

    type Item = Rect;

    ghost next_gives = { YieldsFirst to_come };

    ghost remaining = { item_count to_come };

    fn next(&mut self) -> Option<Rect> {
        match self.walk.next(&self.tiles) {
            None => None,
            Some(run) => Some(run.area),
        }
    }
}
