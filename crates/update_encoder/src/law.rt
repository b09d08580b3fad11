//! What an answer of a cut shows.

ghost use Rattle.update_encoder.specs.Written.{CutIsAnswered};

/// An answer that is written from a cut has the same bytes as one of the screen that was cut, in the same rectangles.
pub fn cut_is_answered()
    ensures { CutIsAnswered }
{}
