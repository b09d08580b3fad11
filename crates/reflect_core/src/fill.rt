//! How a cut is filled from a board.

ghost use Rattle.std.specs.Prelude.{◌≡◌, ℕ, ◌+◌, ◌*◌, ◌<◌, ◌≤◌, ◌&&◌, true, List, length, slice_get, None, Some};
ghost use Rattle.copy_log.specs.Notes.{LogStands, is_marked};
ghost use Rattle.painter.specs.Board.{BoardStands};
ghost use Rattle.raster.specs.Screen.{IsWithin, tile_count};
ghost use Rattle.raster.specs.Update.{Update};
ghost use Rattle.reflect_core.specs.Fill.{IsWhetherSent, TookRun};
ghost use Rattle.reflect_core.specs.Source.{IsCutOf};

use crate::cut::Cut;
use copy_log::{CopyLog, Passed, SentAt};
use painter::{Board, Shown};
use raster::Rect;
use tiles::{DueSince, Have, Run, Walk};

/// Marks some tiles that stand one after the other as due.
fn mark_part(due: &mut [bool], first: usize, count: usize)
    requires { first + count ≤ length due.old }
    ensures inside { (t : ℕ) → first ≤ t → t < first + count → slice_get due.new t ≡ Some true }
    ensures before { (t : ℕ) → t < first → slice_get due.new t ≡ slice_get due.old t }
    ensures behind { (t : ℕ) → first + count ≤ t → slice_get due.new t ≡ slice_get due.old t }
{
    due[first..first + count].fill(true);
}

/// Whether each of the tiles from `first` on, before `end`, was sent before.
fn were_sent(have: &Have, first: u64, end: u64) -> bool
    requires { end ≤ tile_count have.now.width have.now.height }
    ensures { IsWhetherSent have.now first end result }
{
    for t in first..end {
        if have.sent(t).is_none() {
            return false;
        }
    }
    true
}

/// Of the tiles that are due only those stay due that are lacked behind the copies that are passed on.
fn leave_lacked(due: &mut [bool], passed: &Passed)
    requires { length due.old ≡ tile_count passed.now.width passed.now.height }
    ensures { (t : ℕ) → t < length due.old
        → is_marked due.new t ≡ (is_marked due.old t && is_marked passed.now.lacks t) }
{
    for t in 0..due.len() {
        due[t] = due[t] && passed.is_lacked(t as u64);
    }
}

impl Cut {
    /// Takes a run of due tiles: marks them, and copies the colours of their part of the area, unless the cut shares
    /// the board's colours.
    fn take(&mut self, colours: &[u32], have: &Have, run: &Run)
        requires colours { length colours.now ≡ self.old.width * self.old.height }
        requires screen { (have.now.width ≡ self.old.width) × (have.now.height ≡ self.old.height) }
        requires tiles { run.now.first + run.now.count ≤ tile_count self.old.width self.old.height }
        requires within { IsWithin run.now.area self.old.width self.old.height }
        requires shown { self.old.colours.is_shared ≡ true → self.old.colours.items ≡ colours.now }
        ensures { TookRun colours.now have.now run.now self.old self.new }
    {
        let sent = were_sent(have, run.first, run.first + run.count);
        self.all_were_sent = self.all_were_sent && sent;
        mark_part(
            self.due.as_mut_slice(),
            run.first as usize,
            run.count as usize,
        );
        self.colours.lay(
            colours,
            self.width as usize,
            self.height as usize,
            &run.area,
        );
    }

    /// Keeps what a board shows of an area to a viewer that has these tiles, and to which no copies are passed on:
    /// which of them are due there by the board's grid. Where the cut has colours of its own, those of the due tiles,
    /// and no others, are copied.
    fn keep(&mut self, board: &Board, area: &Rect, have: &Have)
        requires within { IsWithin area.now self.old.width self.old.height }
        requires screen { (have.now.width ≡ self.old.width) × (have.now.height ≡ self.old.height) }
        requires board { (board.now.width ≡ self.old.width) × (board.now.height ≡ self.old.height) }
        requires shown { self.old.colours.is_shared ≡ true
            → self.old.colours.items ≡ board.now.colours }
        ensures size { (self.new.width ≡ self.old.width) × (self.new.height ≡ self.old.height) }
        ensures cut { (us : List Update) → BoardStands board.now us
            → IsCutOf us (length us) area.now have.now None self.new }
    {
        self.number = board.number();
        self.host_size = board.last_size();
        self.bells = board.bells();
        self.text.copy_from(board.text());
        self.passed.clear();
        self.due.as_mut_slice().fill(false);
        self.all_were_sent = true;
        let tiles = DueSince::new(board.grid(), have);
        let mut walk = Walk::new(area, self.width, self.height);
        while let Some(run) = walk.next(&tiles) {
            self.take(board.colours(), have, &run);
        }
    }

    /// Passes on the host's copies since the viewer's last answer, as far as they can be. Tiles that aren't lacked
    /// behind them are no longer due.
    fn pass_copies(&mut self, log: &CopyLog, area: &Rect, have: &Have, since: Option<u64>)
        requires within { IsWithin area.now self.old.width self.old.height }
        requires screen { (have.now.width ≡ self.old.width) × (have.now.height ≡ self.old.height) }
        requires log { (log.now.width ≡ self.old.width) × (log.now.height ≡ self.old.height) }
        ensures size { (self.new.width ≡ self.old.width) × (self.new.height ≡ self.old.height) }
        ensures cut { (us : List Update) → LogStands log.now us
            → IsCutOf us (length us) area.now have.now None self.old
            → IsCutOf us (length us) area.now have.now since self.new }
    {
        let Some(number) = since else {
            return;
        };
        let held = SentAt::new(have, number);
        if log.has_copies(number) && log.pass(number, area, &held, &mut self.passed) {
            leave_lacked(self.due.as_mut_slice(), &self.passed);
        }
    }

    /// Keeps what a board shows of an area to a viewer that has these tiles: which of them are due there by the board's
    /// grid, and, as one more owner of the board, their colours. Where no further owner is granted the due tiles are
    /// copied. The host's copies since the viewer's last answer, of number `since`, are passed on as far as can be.
    /// Board, `have` and cut have to be of one screen. It always succeeds, and takes no memory.
    pub fn fill(&mut self, board: &Shown, area: &Rect, have: &Have, since: Option<u64>)
        requires within { IsWithin area.now self.old.width self.old.height }
        requires screen { (have.now.width ≡ self.old.width) × (have.now.height ≡ self.old.height) }
        requires board { (board.now.width ≡ self.old.width) × (board.now.height ≡ self.old.height) }
        ensures size { (self.new.width ≡ self.old.width) × (self.new.height ≡ self.old.height) }
        ensures cut { (us : List Update) → BoardStands board.now us
            → IsCutOf us (length us) area.now have.now since self.new }
    {
        let shown = board.board();
        // The colours that a board lends tell the proof how many it has.
        let _ = shown.colours();
        self.colours.show(board);
        self.keep(shown, area, have);
        self.pass_copies(shown.log(), area, have, since);
    }

    /// Fills a cut in the same way from a board that isn't shared: the due tiles are copied.
    pub fn fill_with_copy(&mut self, board: &Board, area: &Rect, have: &Have, since: Option<u64>)
        requires within { IsWithin area.now self.old.width self.old.height }
        requires screen { (have.now.width ≡ self.old.width) × (have.now.height ≡ self.old.height) }
        requires board { (board.now.width ≡ self.old.width) × (board.now.height ≡ self.old.height) }
        ensures size { (self.new.width ≡ self.old.width) × (self.new.height ≡ self.old.height) }
        ensures cut { (us : List Update) → BoardStands board.now us
            → IsCutOf us (length us) area.now have.now since self.new }
    {
        self.colours.stand_alone(board.colours());
        self.keep(board, area, have);
        self.pass_copies(board.log(), area, have, since);
    }
}
