//! A copy of the screen, as the two copies of a pair hold it.

ghost use Rattle.std.specs.Prelude.{◌≡◌, ◌+◌, ◌^◌, ◌≤◌, [], length, IfOk, IfErr};
ghost use Rattle.fault.specs.declared.kinds.Fault.TheVariants.{Memory};
ghost use Rattle.raster.specs.Screen.{IsWithin};
ghost use Rattle.reflect_core.specs.Source.{IsCutOf};
ghost use Rattle.shared_screen.specs.Published.{IsPublished};
ghost use Rattle.shared_screen.specs.History.{puts_of};

use crate::change::Change;
use crate::front::HistoryFront;
use crate::naming::Naming;
use crate::stamped::Stamped;
use fault::Fault;
use left_right::Absorb;
use painter::{Board, Shown};
use raster::Rect;
use reflect_core::Cut;
use std::alloc::{AllocError, Global};
use std::marker::Model;
use std::sync::Arc;
use tiles::Have;

/// A copy of the screen. Contracts see the history that it stands for. Its type says that its board is the one of that
/// history's updates, so this is known wherever a copy is entered.
#[derive(Drop)]
pub struct Published<J: Naming> {
    board: Shown,
    front: HistoryFront<J>,
}

impl<J: Naming> Model for Published<J> {
    ghost use Rattle.std.specs.Prelude.{List};
    ghost use Rattle.shared_screen.specs.Published.{IsPublished};
    ghost use Rattle.shared_screen.specs.History as history;

    ghost Value = { List history.Change };

    ghost view = { λ p. p.front };

    ghost invariant = { λ p. IsPublished J.width J.height p.board p.front };
}

impl<J: Naming> Absorb<Stamped<J>> for Published<J> {
    ghost use Rattle.shared_screen.specs.Published.{follows};

    /// A clause reads an array as a list, of any length.
    type State = [Change; 0];

    ghost state = { λ p. p };

    ghost applied = { follows };

    ghost never_fails = { Unit {0} };

    fn absorb_first(
        &mut self,
        operation: &Stamped<J>,
        _other: &Published<J>,
    ) -> Result<(), AllocError> {
        if operation.number == self.board.board().number() + 1 {
            self.follow(operation);
        }
        Ok(())
    }
}

impl<J: Naming> Published<J> {
    /// The opening screen. It fails where memory is refused (`Memory`).
    pub(crate) fn new(alloc: Global, opening: &Stamped<J>) -> Result<Self, Fault>
        requires { opening.now ≡ [] }
        ensures ok { IfOk result (λ p. p ≡ []) }
        ensures err { IfErr result (λ fault. fault ≡ Memory) }
    {
        let Ok(owner) = Arc::try_clone(&opening.board) else {
            return Err(Fault::Memory);
        };
        Ok(Published {
            board: Shown::new(alloc, owner)?,
            front: opening.front.again(),
        })
    }

    /// How many updates it shows.
    pub(crate) fn number(&self) -> u64
        ensures number { result ≡ length (puts_of self.now) }
        ensures few { result ≤ 2 ^ 62 }
    {
        self.board.board().number()
    }

    /// The board that it shows.
    pub(crate) fn board(&self) -> &Board
        ensures { IsPublished J.width J.height result.now self.now }
    {
        self.board.board()
    }

    /// The history that it stands for.
    pub(crate) fn front(&self) -> HistoryFront<J>
        ensures { result ≡ self.now }
    {
        self.front.again()
    }

    /// Fills a cut with what it shows. It takes no memory.
    pub(crate) fn show(&self, area: &Rect, have: &Have, since: Option<u64>, into: &mut Cut)
        requires within { IsWithin area.now J.width J.height }
        requires size { (have.now.width ≡ J.width) × (have.now.height ≡ J.height) }
        requires room { (into.old.width ≡ J.width) × (into.old.height ≡ J.height) }
        ensures size { (into.new.width ≡ into.old.width) × (into.new.height ≡ into.old.height) }
        ensures cut { IsCutOf (puts_of self.now) (length (puts_of self.now)) area.now have.now
            since into.new }
    {
        into.fill(&self.board, area, have, since);
    }

    /// Goes on to the board of a later history.
    fn follow(&mut self, next: &Stamped<J>)
        ensures { self.new ≡ next.now }
    {
        self.board.show(&next.board);
        self.front = next.front.again();
    }
}
