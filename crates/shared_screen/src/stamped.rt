//! A board that is shared, with its history.

ghost use Rattle.std.specs.Prelude.{◌≡◌, ◌<◌, ◌^◌, ◌∷◌, ◌++◌, [], List, take, length, IfOk, IfErr, IfSome, IsTrue};
ghost use Rattle.std.specs.Arc.{arc_value};
ghost use Rattle.painter.specs.Board.{BoardStands, IsSameScreen};
ghost use Rattle.fault.specs.declared.kinds.Fault.TheVariants.{Memory};
ghost use Rattle.raster.specs.Size.{IsScreenSize};
ghost use Rattle.raster.specs.Update.{Update};
ghost use Rattle.shared_screen.specs.Published.{IsNext, IsPublished};
ghost use Rattle.shared_screen.specs.History.{puts_of};

use crate::front::HistoryFront;
use crate::naming::Naming;
use crate::published::Published;
use fault::Fault;
use painter::{Board, Patch, Wanted};
use std::alloc::Global;
use std::marker::Model;
use std::sync::Arc;

/// A board that is shared. Contracts see the history whose updates it shows.
#[derive(Drop)]
pub struct Stamped<J: Naming> {
    pub(crate) board: Arc<Board, Global>,
    pub(crate) number: u64,
    pub(crate) front: HistoryFront<J>,
}

impl<J: Naming> Model for Stamped<J> {
    ghost use Rattle.std.specs.Prelude.{◌≡◌, List, length};
    ghost use Rattle.std.specs.Arc.{arc_value};
    ghost use Rattle.shared_screen.specs.Published.{IsPublished};
    ghost use Rattle.shared_screen.specs.History as history;
    ghost use Rattle.shared_screen.specs.History.{puts_of};

    ghost Value = { List history.Change };

    ghost view = { λ s. s.front };

    ghost invariant = { λ s. IsPublished J.width J.height (arc_value s.board) s.front
        × (s.number ≡ length (puts_of s.front)) };
}

/// Where nobody else has the board, makes it show what a newer one shows and one update more, and answers true. It
/// keeps what is `wanted` of it (`Board::catch_up`).
fn go_on(board: &mut Arc<Board, Global>, newer: &Board, patch: &Patch, wanted: Wanted) -> bool
    requires same { IsSameScreen (arc_value board.old) newer.now }
    requires size { (patch.now.width ≡ (arc_value board.old).width)
        × (patch.now.height ≡ (arc_value board.old).height) }
    requires number { newer.now.number < 2 ^ 62 }
    ensures size { IsTrue result → IsSameScreen (arc_value board.old) (arc_value board.new) }
    ensures stands { (us : List Update) → IsTrue result
        → BoardStands (arc_value board.old) (take (arc_value board.old).number us)
        → BoardStands newer.now us
        → BoardStands (arc_value board.new) (us ++ patch.now.update ∷ []) }
{
    match Arc::get_mut(board) {
        Some(own) => {
            own.catch_up(newer, patch, wanted);
            true
        }
        None => false,
    }
}

impl<J: Naming> Stamped<J> {
    /// The board of this history, which has `number` updates.
    pub fn new(board: Arc<Board, Global>, number: u64, front: HistoryFront<J>) -> Self
        requires shows { IsPublished J.width J.height (arc_value board) front }
        requires number { number ≡ length (puts_of front) }
        ensures { result ≡ front }
    {
        Stamped {
            board,
            number,
            front,
        }
    }

    /// The opening screen. It fails where memory is refused (`Memory`).
    pub fn opening(
        alloc: Global,
        width: u64,
        height: u64,
        front: &HistoryFront<J>,
    ) -> Result<Self, Fault>
        requires size { IsScreenSize width height × (width ≡ J.width) × (height ≡ J.height) }
        requires empty { front.now ≡ [] }
        ensures ok { IfOk result (λ opening. opening ≡ []) }
        ensures err { IfErr result (λ fault. fault ≡ Memory) }
    {
        let board = Board::new(alloc, width, height)?;
        let Ok(board) = Arc::new(alloc, board) else {
            return Err(Fault::Memory);
        };
        Ok(Stamped::new(board, 0, front.again()))
    }

    /// One more owner of the board, where that isn't refused.
    pub(crate) fn another(&self) -> Option<Self>
        ensures { IfSome result (λ other. other ≡ self.now) }
    {
        let board = Arc::try_clone(&self.board).ok()?;
        Some(Stamped {
            board,
            number: self.number,
            front: self.front.again(),
        })
    }

    /// Whether nobody else has the board. Then nobody will have it later, since only an owner makes another owner.
    pub(crate) fn is_free(&self) -> bool {
        Arc::strong_count(&self.board) == 1
    }

    /// Where nobody else has the board, gives it back once it shows what the newest shows and one update more. It keeps
    /// what is `wanted` of it (`Board::catch_up`).
    pub(crate) fn renewed(
        self,
        newest: &Published<J>,
        patch: &Patch,
        wanted: Wanted,
    ) -> Option<Arc<Board, Global>>
        requires size { (patch.now.width ≡ J.width) × (patch.now.height ≡ J.height) }
        requires number { length (puts_of newest.now) < 2 ^ 62 }
        ensures { IfSome result (λ board.
            IsNext J.width J.height (arc_value board) newest.now patch.now.update) }
    {
        let Stamped {
            mut board,
            number,
            front,
        } = self;
        if newest.number() < number {
            return None;
        }
        // Nothing reads `both`. Its clauses say that the two are beginnings of one history, which the proof needs.
        let mut both = front.again();
        both.learn(&newest.front());
        if !go_on(&mut board, newest.board(), patch, wanted) {
            return None;
        }
        Some(board)
    }
}
