//! The word that threads share.

ghost use Rattle.std.specs.Prelude.{◌≡◌};
ghost use Rattle.shared_screen.specs.Law.{word_of};

use crate::change::Change;
use crate::law::Law;
use crate::naming::Naming;
use logbook::Word;
use std::marker::PhantomData;

/// The number of changes of the history.
#[derive(Drop)]
pub struct ChangeCount<J: Naming> {
    pub(crate) word: Word<Change, (u64, u64), Law<J>>,
    pub(crate) of: PhantomData<J>,
    ghost is_word: { word ≡ word_of J.book },
}
