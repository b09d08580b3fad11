//! A painter and its patches, boards, and a cut of these.

ghost use Rattle.std.specs.Prelude.{◌≡◌, IsTrue};
ghost use Rattle.raster.specs.Size.{IsScreenSize};

use crate::boards::look;
use crate::copies::tell_copies;
use crate::formats::format_of;
use crate::lines::Tried;
use crate::paints::draw;
use crate::rects::rect_of;
use crate::values::Values;
use crate::viewers::text_of;
use fault::Fault;
use painter::{Board, Painter, Patch, Shown, Wanted};
use pixel_format::Format;
use raster::tile_count;
use reflect_core::{Cut, PlainScreen, Puts, ScreenSource};
use std::alloc::Global;
use std::mem;
use std::sync::Arc;
use tiles::Have;

/// The most updates of a board.
const MOST_UPDATES: u64 = 100;

/// A board, and one that is behind.
#[derive(Drop)]
struct Boards {
    board: Board,
    behind: Board,
}

/// A board that is shared, and what shows it or another.
#[derive(Drop)]
struct Lent {
    owner: Arc<Board, Global>,
    shown: Shown,
}

/// What a viewer has, and a cut for it.
#[derive(Drop)]
struct Viewed {
    have: Have,
    cut: Cut,
}

/// A painter and the last patch, boards, a source, and what a viewer has of these; all of one size.
#[derive(Drop)]
pub struct Bench {
    painter: Painter,
    patch: Patch,
    wanted: Option<Format>,
    boards: Boards,
    lent: Lent,
    source: PlainScreen,
    viewed: Viewed,
}

impl Boards {
    /// Two that are black.
    fn new(alloc: Global, width: u64, height: u64) -> Result<Boards, Fault>
        requires { IsScreenSize width height }
    {
        let board = Board::new(alloc, width, height)?;
        let behind = Board::new(alloc, width, height)?;
        Ok(Boards { board, behind })
    }
}

impl Lent {
    /// Two that are black.
    fn new(alloc: Global, width: u64, height: u64) -> Result<Lent, Fault>
        requires { IsScreenSize width height }
    {
        let board = Arc::new(alloc, Board::new(alloc, width, height)?)?;
        let shown = Shown::new(alloc, board)?;
        let owner = Arc::new(alloc, Board::new(alloc, width, height)?)?;
        Ok(Lent { owner, shown })
    }
}

impl Viewed {
    /// Nothing was sent.
    fn new(alloc: Global, width: u64, height: u64) -> Result<Viewed, Fault>
        requires { IsScreenSize width height }
    {
        let have = Have::new(alloc, width, height)?;
        let cut = Cut::new(alloc, width, height)?;
        Ok(Viewed { have, cut })
    }
}

/// Whether two sizes are the same.
fn are_same(one: (u64, u64), other: (u64, u64)) -> bool
    ensures { IsTrue result → (one.0 ≡ other.0) × (one.1 ≡ other.1) }
{
    one.0 == other.0 && one.1 == other.1
}

impl Bench {
    /// All of it black, and nothing sent.
    pub fn new(alloc: Global, width: u64, height: u64) -> Result<Bench, Fault>
        requires { IsScreenSize width height }
    {
        let boards = Boards::new(alloc, width, height)?;
        let lent = Lent::new(alloc, width, height)?;
        let viewed = Viewed::new(alloc, width, height)?;
        let source = PlainScreen::new(alloc, width, height)?;
        let painter = Painter::new(alloc, width, height)?;
        Ok(Bench {
            painter,
            patch: Patch::bell(width, height),
            wanted: None,
            boards,
            lent,
            source,
            viewed,
        })
    }

    /// Plays a line of patches.
    fn play_patch(
        &mut self,
        alloc: Global,
        word: &str,
        given: &Values,
        seen: &mut Values,
    ) -> Option<()> {
        let (w, h) = self.viewed.have.size();
        let numbers = given.numbers.as_slice();
        match word {
            "painter" => self.painter = Painter::new(alloc, w, h).ok()?,
            "row" if *numbers.first()? < self.painter.size().1 => seen.show(
                self.painter.row(*numbers.first()?),
            )?,
            "patch" => self.patch = self.painter.patch().ok()?,
            "bell" => self.patch = Patch::bell(w, h),
            "text" => self.patch = Patch::text(
                w,
                h,
                text_of(alloc, numbers, given.bytes.as_slice())?,
            ),
            "again" => self.patch = self.patch.copy(alloc).ok()?,
            "copies" => tell_copies(self.patch.copies(), seen)?,
            "tiles" => {
                let (w, h) = self.patch.size();
                let (tiles, colours) = self.patch.tiles();
                seen.tell(&[w, h])?;
                seen.tell(tiles)?;
                seen.show(colours)?;
            }
            _ => return draw(&mut self.painter, alloc, word, given),
        }
        Some(())
    }

    /// Plays a line of boards that are changed.
    fn play_board(&mut self, alloc: Global, word: &str, given: &Values) -> Option<()> {
        let size = self.boards.board.size();
        if self.boards.board.number() > MOST_UPDATES
            || !are_same(self.patch.size(), size)
            || !are_same(self.boards.behind.size(), size)
            || !are_same(self.lent.owner.size(), size)
            || !are_same(self.lent.shown.board().size(), size)
        {
            return None;
        }
        match word {
            "want" if given.bytes.is_empty() => self.wanted = None,
            "want" => self.wanted = Some(format_of(given.bytes.as_slice())?),
            "apply" => self.boards.board.apply(&self.patch, self.wanted),
            "go_on" => self.boards.behind.catch_up(
                &self.boards.board,
                &self.patch,
                Wanted {
                    forms: self.wanted,
                    parts: false,
                },
            ),
            "swap" => mem::swap(&mut self.boards.board, &mut self.boards.behind),
            "share" => {
                let (w, h) = self.viewed.have.size();
                let black = Board::new(alloc, w, h).ok()?;
                let shared = mem::replace(&mut self.boards.board, black);
                self.lent.owner = Arc::new(alloc, shared).ok()?;
            }
            "lend" => self.lent.shown.show(&self.lent.owner),
            "lend_copy" => self.lent.shown.copy(&self.lent.owner),
            "lend_board" => self.lent.shown.copy(&self.boards.board),
            _ => return None,
        }
        Some(())
    }

    /// Plays a line of a source, of what a viewer has, and of the cut.
    fn play_cut(
        &mut self,
        alloc: Global,
        word: &str,
        given: &Values,
        seen: &mut Values,
    ) -> Option<()> {
        let numbers = given.numbers.as_slice();
        let (w, h) = self.viewed.have.size();
        match (word, numbers) {
            ("post", []) if are_same(self.patch.size(), self.source.size()) => {
                let copied = self.patch.copy(alloc).ok()?;
                let number = self.source.put(copied).ok()?;
                seen.tell(&[number])?;
            }
            ("raise", []) => self.source.raise(),
            ("look", []) => seen.tell(&[self.source.look()])?,
            ("owners", []) => {
                let is_owned = u64::from(self.lent.shown.owner().is_some());
                seen.tell(&[is_owned, Arc::strong_count(&self.lent.owner) as u64])?;
            }
            ("forget", []) => self.viewed.have.forget_all(),
            ("new_cut", []) => self.viewed.cut = Cut::new(alloc, w, h).ok()?,
            ("sent", [t]) if *t < tile_count(w, h) => {
                if let Some(number) = self.viewed.have.sent(*t) {
                    seen.tell(&[number])?;
                }
            }
            ("keep" | "cut" | "cut_shown" | "cut_source", _) => self.take(word, numbers)?,
            _ => return self.viewed.cut.play(alloc, word, given, seen),
        }
        Some(())
    }

    /// Notes that an area was sent, at a number, or cuts it of the board, of what is shown, or of the source. Where a
    /// number is given, copies may be passed on to a viewer whose last answer has it.
    fn take(&mut self, word: &str, numbers: &[u64]) -> Option<()> {
        let (area, rest) = rect_of(numbers)?;
        if !area.within(65535, 65535) {
            return None;
        }
        let size = self.viewed.have.size();
        let is_inside = area.within(size.0, size.1);
        if !are_same((self.viewed.cut.width, self.viewed.cut.height), size)
            || !are_same(self.boards.board.size(), size)
            || !are_same(self.lent.shown.board().size(), size)
            || !are_same(self.source.size(), size)
        {
            return None;
        }
        let number = match rest {
            [] => None,
            [number] => Some(*number),
            _ => return None,
        };
        match word {
            "keep" => self.viewed.have.keep(&area, None, number?),
            "cut" if is_inside => self
                .viewed
                .cut
                .fill_with_copy(&self.boards.board, &area, &self.viewed.have, number),
            "cut_shown" if is_inside => self
                .viewed
                .cut
                .fill(&self.lent.shown, &area, &self.viewed.have, number),
            "cut_source" if is_inside => {
                self.source
                    .cut(&area, &self.viewed.have, number, &mut self.viewed.cut)
                    .ok()?;
            }
            _ => return None,
        }
        Some(())
    }
}

impl Tried for Bench {
    fn play(&mut self, alloc: Global, word: &str, given: &Values, seen: &mut Values) -> Option<()> {
        match word {
            "board" | "colours" | "stamps" | "forms" | "keeps" | "made" | "encoded" => {
                look(&self.boards.board, word, given, seen)
            }
            "want" | "apply" | "go_on" | "swap" | "share" | "lend" | "lend_copy" | "lend_board" => {
                self.play_board(alloc, word, given)
            }
            "painter"
            | "row"
            | "patch"
            | "bell"
            | "text"
            | "again"
            | "copies"
            | "tiles"
            | "dots"
            | "put"
            | "fill"
            | "copy"
            | "paint" => self.play_patch(alloc, word, given, seen),
            _ => self.play_cut(alloc, word, given, seen),
        }
    }
}
