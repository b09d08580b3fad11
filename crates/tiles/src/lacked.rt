//! The tiles that were touched since a grid was last caught up.

ghost use Rattle.std.specs.Prelude.{◌≡◌};

use crate::grid::Grid;
use crate::walk::DueTiles;

/// The tiles that were touched after the update of this number by the newer grid, and not by the grid that is behind.
#[derive(Clone, Copy)]
pub struct LackedSince<'a> {
    grid: &'a Grid,
    newer: &'a Grid,
    number: u64,
    pub ghost size: { (newer.now.width ≡ grid.now.width) × (newer.now.height ≡ grid.now.height) },
}

impl<'a> LackedSince<'a> {
    /// Compares a grid that is behind with a newer one. Both have to be of one screen.
    pub fn new(grid: &'a Grid, newer: &'a Grid, number: u64) -> Self
        requires { (newer.now.width ≡ grid.now.width) × (newer.now.height ≡ grid.now.height) }
        ensures { (result.grid.now ≡ grid.now) × (result.newer.now ≡ newer.now)
            × (result.number ≡ number) }
    {
        LackedSince {
            grid,
            newer,
            number,
        }
    }
}

impl<'a> DueTiles for LackedSince<'a> {
    ghost use Rattle.tiles.specs.Grid.{is_lacked};

    ghost width = { λ s. s.newer.now.width };

    ghost height = { λ s. s.newer.now.height };

    ghost due = { λ s. is_lacked s.grid.now s.newer.now s.number };

    fn is_due(&self, t: u64) -> bool {
        self.number < self.newer.stamp(t) && !(self.number < self.grid.stamp(t))
    }

    fn may_have_due(&self, row: u64) -> bool {
        self.number < self.newer.greatest_of_row(row)
    }
}
