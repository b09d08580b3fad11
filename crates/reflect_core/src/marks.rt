//! The tiles that a cut marks as due.

ghost use Rattle.std.specs.Prelude.{◌≡◌, ℕ, ◌+◌, ◌*◌, ◌<◌, ◌≤◌, false};
ghost use Rattle.raster.specs.Screen.{tile_count, tiles_across};
ghost use Rattle.reflect_core.specs.Source.{marked};

use crate::cut::Cut;
use raster::TILE_SIDE;
use tiles::DueTiles;

impl DueTiles for Cut {
    ghost width = { λ cut. cut.width };

    ghost height = { λ cut. cut.height };

    ghost due = { λ cut t. marked cut t };

    fn is_due(&self, t: u64) -> bool {
        self.due[t as usize]
    }

    fn may_have_due(&self, row: u64) -> bool {
        let across = self.width.div_ceil(TILE_SIDE) as usize;
        let first = row as usize * across;
        self.due[first..first + across].contains(&true)
    }
}
