//! The colours of a board, which change together with the forms of its tiles.

ghost use Rattle.std.specs.Prelude.{◌≡◌, ◌*◌, length};
ghost use Rattle.hextile_codec.specs.Kept.{AreFormsOf};
ghost use Rattle.painter.specs.Newer.{TookTiles};
ghost use Rattle.painter.specs.Patch.{ShowsOver};
ghost use Rattle.raster.specs.Screen.{value_at};
ghost use Rattle.raster.specs.Size.{IsScreenSize};
ghost use Rattle.tiles.specs.Grid.{is_lacked};

use crate::board::Board;
use crate::copying::copy_lacked;
use crate::forms::Forms;
use crate::patch::Patch;
use tiles::{Grid, LackedSince};

/// Paints a patch, and renews the forms of the tiles that it changes, if it `keeps` forms; otherwise they are
/// forgotten.
pub(crate) fn paint_patch(patch: &Patch, colours: &mut [u32], forms: &mut Forms, keeps: bool)
    requires size { IsScreenSize patch.now.width patch.now.height }
    requires rows { length colours.old ≡ patch.now.width * patch.now.height }
    requires forms { AreFormsOf patch.now.width patch.now.height
        (value_at patch.now.width colours.old) forms.old.list.items }
    ensures shows { ShowsOver patch.now colours.old colours.new }
    ensures forms { AreFormsOf patch.now.width patch.now.height
        (value_at patch.now.width colours.new) forms.new.list.items }
{
    patch.paint(colours);
    forms.renew(patch, colours, keeps);
}

/// Copies the tiles of a newer board that were touched after update `number`, but not according to the grid that is
/// behind. Their forms are copied with them where forms are kept here, or are to be (`keeps`).
pub(crate) fn take_lacked(
    newer: &Board,
    number: u64,
    grid: &Grid,
    colours: &mut [u32],
    forms: &mut Forms,
    keeps: bool,
)
    requires size { (newer.now.width ≡ grid.now.width) × (newer.now.height ≡ grid.now.height) }
    requires rows { length colours.old ≡ newer.now.width * newer.now.height }
    requires forms { AreFormsOf newer.now.width newer.now.height
        (value_at newer.now.width colours.old) forms.old.list.items }
    ensures colours { TookTiles newer.now.grid.width newer.now.grid.height
        (is_lacked grid.now newer.now.grid number) newer.now.colours colours.old colours.new }
    ensures forms { AreFormsOf newer.now.width newer.now.height
        (value_at newer.now.width colours.new) forms.new.list.items }
{
    let (width, height) = newer.size();
    copy_lacked(newer.colours(), colours, grid, newer.grid(), number);
    let lacked = LackedSince::new(grid, newer.grid(), number);
    forms.take_lacked(&newer.forms, &lacked, width, height, keeps);
}
