//! The tiles that were touched after an update.

ghost use Rattle.std.specs.Prelude.{◌≡◌};

use crate::grid::Grid;
use crate::walk::DueTiles;

/// The tiles that a grid says were touched after the update of this number.
#[derive(Clone, Copy)]
pub struct TouchedSince<'a> {
    grid: &'a Grid,
    number: u64,
}

impl<'a> TouchedSince<'a> {
    /// The tiles of this grid that were touched after update `number`.
    pub fn new(grid: &'a Grid, number: u64) -> Self
        ensures { (result.grid.now ≡ grid.now) × (result.number ≡ number) }
    {
        TouchedSince { grid, number }
    }
}

impl<'a> DueTiles for TouchedSince<'a> {
    ghost use Rattle.tiles.specs.Grid.{is_newer};

    ghost width = { λ s. s.grid.now.width };

    ghost height = { λ s. s.grid.now.height };

    ghost due = { λ s. is_newer s.grid.now s.number };

    fn is_due(&self, t: u64) -> bool {
        self.number < self.grid.stamp(t)
    }

    fn may_have_due(&self, row: u64) -> bool {
        self.number < self.grid.greatest_of_row(row)
    }
}
