//! How a history begins.

ghost use Rattle.std.specs.Prelude.{◌≡◌, [], true};
ghost use Rattle.shared_screen.specs.Law.{word_of};

use crate::author::Author;
use crate::change::Change;
use crate::change_count::ChangeCount;
use crate::half::{Half, begin};
use crate::law::Law;
use crate::naming::{Naming, Publicity};
use logbook::{Seen, Word};
use std::marker::PhantomData;

/// A history without a change. Its book has no name yet.
#[derive(Drop)]
pub struct Opened<P: Publicity> {
    word: Word<Change, (u64, u64), Law<P>>,
    seen: Seen<Change, (u64, u64), Law<P>>,
    half: Half,
    pub ghost empty: { seen.log ≡ [] },
    pub ghost is_word: { word ≡ word_of seen.book },
    pub ghost is_half: { (half.names ≡ seen.names) × (half.here ≡ true) × (half.number ≡ 0) },
}

impl<P: Publicity> Opened<P> {
    /// A new history, in which nothing was put or raised.
    pub fn new() -> Opened<P> {
        let (start, half) = begin();
        let (seen, mut first, _second) = Seen::open(start, 0, 0);
        Opened {
            word: Word::tracked(0, &mut first),
            seen,
            half,
        }
    }
}

impl<J: Naming> Opened<J> {
    /// The history's word and its author, under its name.
    pub fn named(self) -> (ChangeCount<J>, Author<J>)
        requires { self.seen.book ≡ J.book }
        ensures { result.1 ≡ [] }
    {
        let Opened { word, seen, half } = self;
        (
            ChangeCount {
                word,
                of: PhantomData,
            },
            Author {
                changes: 0,
                half,
                seen,
                of: PhantomData,
            },
        )
    }
}
