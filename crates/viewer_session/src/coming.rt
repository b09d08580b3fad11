//! What comes after the piece that is sent.

ghost use Rattle.std.specs.Prelude.{◌≡◌, ◌*◌, ◌≤◌, [], ◌++◌, false, None, length};
ghost use Rattle.raster.specs.declared.tile.TheConstants.{TILE_SIDE};
ghost use Rattle.viewer_session.specs.Outgoing.{IsOf, all_coming, answer_coming, longest_piece, size_and};

use crate::piece::Piece;
use crate::update::Update;
use raster::Size;
use reflect_core::Cut;

/// What a cut still sends after the piece: its text where that is news, then the size that the viewer is told, and then
/// an answer: its front, which is its header and copies, and one rectangle after another, or what is left of it where
/// it was written whole.
#[derive(Drop)]
pub(crate) struct Coming {
    /// Whether the text of the cut comes.
    pub(crate) text: bool,
    /// The size that the viewer is told, if it is told one.
    pub(crate) size: Option<Size>,
    /// Whether the front of the answer comes.
    pub(crate) head: bool,
    /// The answer, if there is one.
    pub(crate) answer: Option<Update>,
}

impl Coming {
    /// Nothing comes after the piece.
    pub(crate) fn nothing() -> Self
        ensures { result ≡ record { text = false; size = None; head = false; answer = None } }
    {
        Coming {
            text: false,
            size: None,
            head: false,
            answer: None,
        }
    }

    /// The next part of what comes is the piece from now on. It is empty where nothing comes.
    pub(crate) fn put_next(&mut self, cut: &Cut, strip: &mut [u32], piece: &mut Piece)
        requires is_of { IsOf self.old cut.now }
        requires strip { TILE_SIDE * cut.now.width ≤ length strip.old }
        requires room { piece.old.room ≡ longest_piece cut.now.width }
        ensures room { piece.new.room ≡ piece.old.room }
        ensures is_of { IsOf self.new cut.now }
        ensures bytes { all_coming self.old cut.now
            ≡ piece.new.unsent ++ all_coming self.new cut.now }
        ensures shows { length piece.new.unsent ≡ 0
            → (all_coming self.new cut.now ≡ []) × (piece.new.filled ≡ 0) }
    {
        if self.text {
            self.text = false;
            piece.put_text(cut.text.bytes());
        } else if let Some(size) = self.size {
            self.size = None;
            piece.put_size(size);
        } else {
            self.put_of_answer(cut, strip, piece);
        }
    }

    /// The next part of the answer is the piece from now on.
    fn put_of_answer(&mut self, cut: &Cut, strip: &mut [u32], piece: &mut Piece)
        requires text { self.old.text ≡ false }
        requires size { self.old.size ≡ None }
        requires is_of { IsOf self.old cut.now }
        requires strip { TILE_SIDE * cut.now.width ≤ length strip.old }
        requires room { piece.old.room ≡ longest_piece cut.now.width }
        ensures room { piece.new.room ≡ piece.old.room }
        ensures text { self.new.text ≡ false }
        ensures size { self.new.size ≡ None }
        ensures is_of { IsOf self.new cut.now }
        ensures bytes { answer_coming self.old.head self.old.answer cut.now
            ≡ piece.new.unsent ++ answer_coming self.new.head self.new.answer cut.now }
        ensures shows { length piece.new.unsent ≡ 0
            → (answer_coming self.new.head self.new.answer cut.now ≡ []) × (piece.new.filled ≡ 0) }
    {
        match &mut self.answer {
            None => piece.clear(),
            Some(Update::Whole(whole)) => {
                piece.put_some(whole);
                if whole.left().is_empty() {
                    // What it took is let go as soon as it is sent.
                    self.answer = None;
                }
            }
            Some(Update::Runs(answer)) if self.head => {
                self.head = false;
                piece.put_front(answer, cut);
            }
            Some(Update::Runs(answer)) => piece.put_rectangle(answer, cut, strip),
        }
    }
}
