//! Boards of earlier updates. One that nobody reads any more is used for the next update.

ghost use Rattle.std.specs.Prelude.{◌≡◌, ◌<◌, ◌≤◌, ◌^◌, suc, [], length, IfOk, IfErr, IfSome};
ghost use Rattle.std.specs.Arc.{arc_value};
ghost use Rattle.fault.specs.declared.kinds.Fault.TheVariants.{Memory};
ghost use Rattle.raster.specs.Size.{IsScreenSize};
ghost use Rattle.shared_screen.specs.Published.{IsNext};
ghost use Rattle.shared_screen.specs.History.{puts_of};

use crate::front::HistoryFront;
use crate::naming::Naming;
use crate::published::Published;
use crate::stamped::Stamped;
use fault::Fault;
use painter::{Board, Patch, Wanted};
use std::alloc::Global;
use std::marker::Model;
use std::sync::Arc;

/// How many free boards, which nobody else has, are kept for later puts.
const MOST_FREE: usize = 4;

/// Boards that readers have or had, and how many more may be made. Contracts see how many are kept, and how many there
/// may be in all.
#[derive(Drop)]
pub struct Spares<J: Naming> {
    boards: Vec<Stamped<J>>,
    left: usize,
    most: usize,
    alloc: Global,
    width: u64,
    height: u64,
    opening: HistoryFront<J>,
}

impl<J: Naming> Model for Spares<J> {
    ghost use Rattle.std.specs.Prelude.{◌≡◌, ℕ, ◌+◌, ◌≤◌, [], vec_len};
    ghost use Rattle.raster.specs.Size.{IsScreenSize};
    ghost use Rattle.shared_screen.specs.Keeping.{Keeping};

    ghost Value = { Keeping };

    ghost view = { λ s. record { kept = vec_len s.boards; most = s.most } };

    ghost invariant = { λ s. (vec_len s.boards + s.left ≤ s.most) × IsScreenSize s.width s.height
        × (s.width ≡ J.width) × (s.height ≡ J.height) × (s.opening ≡ []) };
}

/// The index of the newest board that nobody else has: it lacks the fewest of the published updates.
fn newest_free<J: Naming>(boards: &[Stamped<J>]) -> Option<usize>
    ensures { IfSome result (λ at. at < length boards.now) }
{
    let mut found = None;
    let mut number = 0;
    for (at, board) in boards.iter().enumerate() {
        if number <= board.number && board.is_free() {
            found = Some(at);
            number = board.number;
        }
    }
    found
}

/// The index of a board that nobody else has, if there are more such boards than are kept.
fn one_too_many<J: Naming>(boards: &[Stamped<J>]) -> Option<usize>
    ensures { IfSome result (λ at. at < length boards.now) }
{
    let mut free = 0usize;
    for (at, board) in boards.iter().enumerate() {
        if board.is_free() {
            if free == MOST_FREE {
                return Some(at);
            }
            free = free.saturating_add(1);
        }
    }
    None
}

impl<J: Naming> Spares<J> {
    /// Spares with the board of an opening screen of `width` by `height` pixels, for at most this many boards in all.
    /// It fails where memory is refused (`Memory`).
    pub fn new(
        alloc: Global,
        width: u64,
        height: u64,
        opening: Stamped<J>,
        most: usize,
    ) -> Result<Self, Fault>
        requires size { IsScreenSize width height × (width ≡ J.width) × (height ≡ J.height) }
        requires empty { opening ≡ [] }
        requires some { 0 < most }
        ensures ok { IfOk result (λ spares. spares ≡ record { kept = 1; most = most }) }
        ensures err { IfErr result (λ fault. fault ≡ Memory) }
    {
        let front = opening.front.again();
        let mut boards = Vec::with_capacity(alloc, most)?;
        boards.push(opening)?;
        Ok(Spares {
            boards,
            left: most - 1,
            most,
            alloc,
            width,
            height,
            opening: front,
        })
    }

    /// How many boards it keeps, free or not.
    pub fn len(&self) -> usize
        ensures kept { result ≡ self.now.kept }
        ensures few { result ≤ self.now.most }
    {
        self.boards.len()
    }

    /// Lets go of a board that nobody else has, where there are more such boards than are kept.
    fn let_go(&mut self)
        ensures most { self.new.most ≡ self.old.most }
        ensures kept { (self.new.kept ≤ self.old.kept) × (self.old.kept ≤ suc self.new.kept) }
    {
        if let Some(at) = one_too_many(self.boards.as_slice()) {
            let board = self.boards.swap_remove(at);
            self.left += 1;
            drop(board);
        }
    }

    /// Keeps a board that may become free later, in room that was taken when the spares were made. Where one more owner
    /// of the board is refused, it isn't kept, which does no harm. First it lets go of a free board, where there are
    /// more of these than are kept.
    pub fn keep(&mut self, board: &Stamped<J>)
        ensures most { self.new.most ≡ self.old.most }
        ensures kept { (self.new.kept ≤ suc self.old.kept) × (self.old.kept ≤ suc self.new.kept) }
    {
        self.let_go();
        if self.boards.len() + self.left == self.most {
            return;
        }
        if let Some(board) = board.another() {
            let _ = self.boards.push(board).is_ok();
        }
    }

    /// A board that nobody else has: the newest free one, or else an opening screen. It fails (`Memory`) where there
    /// are as many boards as there may be and none is free, or where memory is refused.
    fn taken(&mut self) -> Result<Stamped<J>, Fault>
        ensures most { self.new.most ≡ self.old.most }
        ensures kept { (self.new.kept ≤ self.old.kept) × (self.old.kept ≤ suc self.new.kept) }
        ensures err { IfErr result (λ fault. fault ≡ Memory) }
    {
        if let Some(at) = newest_free(self.boards.as_slice()) {
            return Ok(self.boards.swap_remove(at));
        }
        if self.left == 0 {
            return Err(Fault::Memory);
        }
        let opening = Stamped::opening(self.alloc, self.width, self.height, &self.opening)?;
        self.left -= 1;
        Ok(opening)
    }

    /// A board that nobody else has and that shows what the newest shows and one update more. It keeps what is `wanted`
    /// of it (`painter::Board::catch_up`). It fails (`Memory`) where memory is refused, or where every board that there
    /// may be is being read.
    pub fn next(
        &mut self,
        newest: &Published<J>,
        patch: &Patch,
        wanted: Wanted,
    ) -> Result<Arc<Board, Global>, Fault>
        requires size { (patch.now.width ≡ J.width) × (patch.now.height ≡ J.height) }
        requires number { length (puts_of newest.now) < 2 ^ 62 }
        ensures most { self.new.most ≡ self.old.most }
        ensures kept { (self.new.kept ≤ self.old.kept) × (self.old.kept ≤ suc self.new.kept) }
        ensures ok { IfOk result (λ board.
            IsNext J.width J.height (arc_value board) newest.now patch.now.update) }
        ensures err { IfErr result (λ fault. fault ≡ Memory) }
    {
        let spare = self.taken()?;
        match spare.renewed(newest, patch, wanted) {
            Some(board) => Ok(board),
            None => Err(Fault::Memory),
        }
    }
}
