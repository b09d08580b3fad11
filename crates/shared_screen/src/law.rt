//! The rule that the history and its word keep, and the steps that threads take.

use crate::change::Change;
use crate::naming::Publicity;
use logbook::{Gain, Plain, Play, Rule};
use painter::Patch;
use std::marker::PhantomData;

/// The word is the number of changes, which are legal, and the updates up to the tally are published.
pub struct Law<P: Publicity> {
    of: PhantomData<P>,
}

impl<P: Publicity> Rule<Change, (u64, u64)> for Law<P> {
    ghost use Rattle.std.specs.Prelude.{[]};
    ghost use Rattle.shared_screen.specs.Law.{IsKept};
    ghost use Rattle.shared_screen.specs.Shares.{kept, IsMove};

    ghost holds = { λ cells log. IsKept P.published cells log };

    ghost first = { [] };

    ghost hinted = { λ n log. Unit {0} };

    ghost shows = { λ log. log };

    ghost keeps = { λ names log. kept names log };

    ghost moves = { λ ask before after answer. IsMove before after answer };
}

/// What a look gains: nothing.
pub(crate) struct Nothing;

impl Gain<Change, (u64, u64)> for Nothing {
    ghost use base.Fml.{ftrue};

    ghost after = { λ names about answer. ftrue };
}

/// What a change gains: the author trades its share of the number for the share of the next number.
pub(crate) struct Turn;

impl Gain<Change, (u64, u64)> for Turn {
    ghost use Rattle.shared_screen.specs.Shares.{turned};

    ghost after = { λ names known answer. turned names known answer };
}

/// The step of a look, which changes nothing.
pub(crate) struct Look<P: Publicity> {
    of: PhantomData<P>,
}

impl<P: Publicity> Play<Change, (u64, u64)> for Look<P> {
    ghost use Rattle.shared_screen.specs.Law.{Looks};

    ghost then = { Looks P.published };
}

/// The step of an author, which adds a change and finds as many as it expects.
pub(crate) struct Add<P: Publicity> {
    of: PhantomData<P>,
}

impl<P: Publicity> Play<Change, (u64, u64)> for Add<P> {
    ghost use Rattle.shared_screen.specs.Law.{Adds};

    ghost then = { Adds P.published };
}

/// A put adds the patch's update. Its offer trades nothing, and so counts as having run.
impl<P: Publicity> Plain<Patch, Change, (u64, u64)> for Add<P> {
    ghost use Rattle.std.specs.Prelude.{Some};
    ghost use Rattle.shared_screen.specs.History.{Put};

    ghost ask = { λ patch. Put patch.update };

    ghost state = { λ patch. Some (0, 0) };
}

/// A raise adds a change of the tally to its number.
impl<P: Publicity> Plain<u64, Change, (u64, u64)> for Add<P> {
    ghost use Rattle.std.specs.Prelude.{Some};
    ghost use Rattle.shared_screen.specs.History.{Raise};

    ghost ask = { λ number. Raise number };

    ghost state = { λ number. Some (0, 0) };
}
