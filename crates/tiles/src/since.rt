//! The tiles that are due for a viewer.

ghost use Rattle.std.specs.Prelude.{◌≡◌};

use crate::bringing::due;
use crate::grid::Grid;
use crate::have::Have;
use crate::walk::DueTiles;

/// The tiles that are due for a viewer, by their stamps and by what the viewer has.
#[derive(Clone, Copy)]
pub struct DueSince<'a> {
    grid: &'a Grid,
    have: &'a Have,
    pub ghost size: { (have.now.width ≡ grid.now.width) × (have.now.height ≡ grid.now.height) },
}

impl<'a> DueSince<'a> {
    /// The due tiles of this grid for a viewer that has these tiles. Grid and `have` have to be of one screen.
    pub fn new(grid: &'a Grid, have: &'a Have) -> Self
        requires { (have.now.width ≡ grid.now.width) × (have.now.height ≡ grid.now.height) }
        ensures { (result.grid.now ≡ grid.now) × (result.have.now ≡ have.now) }
    {
        DueSince { grid, have }
    }
}

impl<'a> DueTiles for DueSince<'a> {
    ghost use Rattle.tiles.specs.Grid.{due_at};

    ghost width = { λ s. s.grid.now.width };

    ghost height = { λ s. s.grid.now.height };

    ghost due = { λ s. due_at s.grid.now s.have.now };

    fn is_due(&self, t: u64) -> bool {
        due(self.grid, self.have, t)
    }

    fn may_have_due(&self, row: u64) -> bool {
        match self.have.least_of_row(row) {
            None => true,
            Some(number) => number < self.grid.greatest_of_row(row),
        }
    }
}
