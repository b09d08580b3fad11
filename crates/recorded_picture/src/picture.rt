//! A screen that keeps no update: what all of them leave.

ghost use Rattle.std.specs.Prelude.{◌≡◌, ◌*◌, ◌<◌, ◌^◌, [], ◌∷◌, ◌++◌, length, IfOk, IfErr};
ghost use Rattle.fault.specs.declared.kinds.Fault.TheVariants.{Memory};
ghost use Rattle.raster.specs.Screen.{LooksLike, value_at};
ghost use Rattle.raster.specs.Size.{IsScreenSize};
ghost use Rattle.raster.specs.Update.{screen};
ghost use Rattle.reflect_core.specs.Plain.{IsPutRefusal};

use crate::noted::Noted;
use fault::{Fault, LIMIT};
use painter::{Board, Patch};
use reflect_core::Puts;
use std::alloc::Global;
use std::marker::Model;

/// What the screen of a host shows after updates. It takes as much memory for a long session as for a short one.
#[derive(Drop)]
pub struct Picture {
    board: Board,
    // Only clauses read which updates they were.
    noted: Noted,
}

impl Model for Picture {
    ghost use Rattle.recorded_picture.specs.Picture.{IsShown, Shown};

    ghost Value = { Shown };

    ghost view = { λ p. record {
      width = p.board.width;
      height = p.board.height;
      colours = p.board.colours;
      updates = p.noted.updates;
    } };

    ghost invariant = { λ p. IsShown p.board p.noted.updates };
}

impl Picture {
    /// A black picture of `width` by `height` pixels. It fails where memory is refused (`Memory`).
    pub fn black(alloc: Global, width: u64, height: u64) -> Result<Picture, Fault>
        requires { IsScreenSize width height }
        ensures ok { IfOk result (λ picture.
            (picture.width ≡ width) × (picture.height ≡ height) × (picture.updates ≡ [])) }
        ensures err { IfErr result (λ fault. fault ≡ Memory) }
    {
        let board = Board::new(alloc, width, height)?;
        Ok(Picture {
            board,
            noted: Noted::new(),
        })
    }

    /// Its width and height in pixels.
    pub fn size(&self) -> (u64, u64)
        ensures value { (result.0 ≡ self.now.width) × (result.1 ≡ self.now.height) }
        ensures bounds { IsScreenSize self.now.width self.now.height }
    {
        self.board.size()
    }

    /// Its colours 0xRRGGBB, row after row.
    pub fn colours(&self) -> &[u32]
        ensures value { result.now ≡ self.now.colours }
        ensures all { length result.now ≡ self.now.width * self.now.height }
    {
        self.board.colours()
    }

    /// It does nothing. Its clause says what the picture shows at every moment.
    pub fn so_far(&self)
        ensures { LooksLike self.now.width self.now.height
            (value_at self.now.width self.now.colours) (screen self.now.updates) }
    {
        let _ = &self.board;
    }
}

impl Puts for Picture {
    ghost updates = { λ s. s.updates };

    ghost width = { λ s. s.width };

    ghost height = { λ s. s.height };

    fn put(&mut self, patch: Patch) -> Result<u64, (Fault, Patch)> {
        if self.board.number() >= LIMIT {
            return Err((Fault::NumbersOut, patch));
        }
        self.board.apply(&patch, None);
        self.noted.note(&patch);
        Ok(self.board.number())
    }
}
