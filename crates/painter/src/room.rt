//! Room for a copy of a board.

ghost use Rattle.std.specs.Prelude.{◌≡◌, IfOk, IfErr};
ghost use Rattle.fault.specs.declared.kinds.Fault.TheVariants.{Memory};
ghost use Rattle.raster.specs.Size.{IsScreenSize};

use crate::board::Board;
use crate::text::LastText;
use copy_log::CopyLog;
use fault::Fault;
use std::alloc::Global;
use std::marker::Model;
use tiles::Grid;

/// Room for a copy of a board of one screen size. The room for its colours isn't touched before they come.
#[derive(Drop)]
pub(crate) struct Room {
    alloc: Global,
    width: u64,
    height: u64,
    colours: Vec<u32>,
    grid: Grid,
    text: LastText,
    log: CopyLog,
}

impl Model for Room {
    ghost use Rattle.std.specs.Prelude.{◌≡◌, ◌*◌, ◌≤◌, [], vec_capacity};
    ghost use Rattle.raster.specs.Size.{IsScreenSize};
    ghost use Rattle.painter.specs.Shown.{RoomSize};

    ghost Value = { RoomSize };

    ghost view = { λ r. record { width = r.width; height = r.height } };

    ghost invariant = { λ r. IsScreenSize r.width r.height
        × (r.colours.items ≡ []) × (r.width * r.height ≤ vec_capacity r.colours)
        × (r.grid.width ≡ r.width) × (r.grid.height ≡ r.height)
        × (r.log.width ≡ r.width) × (r.log.height ≡ r.height) };
}

impl Room {
    /// Room for a board of a screen of `width` by `height` pixels. It fails where memory is refused (`Memory`).
    pub(crate) fn new(alloc: Global, width: u64, height: u64) -> Result<Self, Fault>
        requires { IsScreenSize width height }
        ensures ok { IfOk result (λ room. (room.width ≡ width) × (room.height ≡ height)) }
        ensures err { IfErr result (λ fault. fault ≡ Memory) }
    {
        let text = LastText::new(alloc)?;
        let colours = Vec::with_capacity(alloc, (width * height) as usize)?;
        let grid = Grid::new(alloc, width, height)?;
        let log = CopyLog::new(alloc, width, height)?;
        Ok(Room {
            alloc,
            width,
            height,
            colours,
            grid,
            text,
            log,
        })
    }

    /// A copy of a board of this size. It always succeeds, and takes no memory.
    pub(crate) fn filled(self, board: &Board) -> Board
        requires { (board.now.width ≡ self.width) × (board.now.height ≡ self.height) }
        ensures { result ≡ board.now }
    {
        let Room {
            alloc,
            width: _,
            height: _,
            colours,
            grid,
            text,
            log,
        } = self;
        board.copy_to(alloc, colours, grid, text, log)
    }
}
