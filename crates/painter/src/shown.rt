//! A board that may be shared with others.

ghost use Rattle.std.specs.Prelude.{◌≡◌, IfOk, IfErr, IfSome};
ghost use Rattle.std.specs.Arc.{arc_value};
ghost use Rattle.painter.specs.Board.{IsSameScreen};
ghost use Rattle.fault.specs.declared.kinds.Fault.TheVariants.{Memory};

use crate::board::Board;
use crate::room::Room;
use fault::Fault;
use std::alloc::Global;
use std::marker::Model;
use std::sync::Arc;

/// A board that is shared with others, or a copy of its own where one more owner of the board was refused. Contracts
/// see the board that it shows. Room for the copy is taken at the start, and isn't touched before there is a copy.
#[derive(Drop)]
pub struct Shown {
    shared: Option<Arc<Board, Global>>,
    own: Option<Board>,
    room: Option<Room>,
}

impl Model for Shown {
    ghost use Rattle.painter.specs.Board.{Posted};
    ghost use Rattle.painter.specs.Shown.{IsShown, board_of};

    ghost Value = { Posted };

    ghost view = { λ s. board_of s.shared s.own };

    ghost invariant = { λ s. IsShown s.shared s.own s.room };
}

impl Shown {
    /// A shared board. It fails where memory is refused (`Memory`).
    pub fn new(alloc: Global, board: Arc<Board, Global>) -> Result<Self, Fault>
        ensures ok { IfOk result (λ shown. shown ≡ arc_value board) }
        ensures err { IfErr result (λ fault. fault ≡ Memory) }
    {
        let room = {
            let own: &Board = &board;
            let (width, height) = own.grid().size();
            Room::new(alloc, width, height)?
        };
        Ok(Shown {
            shared: Some(board),
            own: None,
            room: Some(room),
        })
    }

    /// Shows another board of its screen from now on. It always succeeds, and takes no memory: where one more owner is
    /// refused, the board is copied.
    pub fn show(&mut self, board: &Arc<Board, Global>)
        requires { IsSameScreen self.old (arc_value board.now) }
        ensures { self.new ≡ arc_value board.now }
    {
        match Arc::try_clone(board) {
            Ok(owner) => self.shared = Some(owner),
            Err(_) => self.copy(board),
        }
    }

    /// Shows a copy of another board of its screen from now on, as `show` does where one more owner is refused.
    pub fn copy(&mut self, board: &Board)
        requires { IsSameScreen self.old board.now }
        ensures { self.new ≡ board.now }
    {
        match self.own.as_mut() {
            Some(own) => own.copy_from(board),
            None => {
                if let Some(room) = self.room.take() {
                    self.own = Some(room.filled(board));
                }
            }
        }
        self.shared = None;
    }

    /// The board that it shows.
    pub fn board(&self) -> &Board
        ensures { result.now ≡ self.now }
    {
        match &self.shared {
            Some(board) => board,
            None => match &self.own {
                Some(own) => own,
                None => unreachable!(),
            },
        }
    }

    /// The owner of that board, where it is shared.
    pub fn owner(&self) -> Option<&Arc<Board, Global>>
        ensures { IfSome result (λ owner. arc_value owner.now ≡ self.now) }
    {
        self.shared.as_ref()
    }
}
