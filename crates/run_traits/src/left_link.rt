//! A link whose visit is over.

ghost use Rattle.std.specs.Prelude.{◌≡◌};
ghost use Rattle.run_traits.specs.Either.{left_either};

use link::{EitherLink, Link};

/// The link of a viewer whose visit is over. What it keeps can be sent on, and it can be looked at, but nothing more is
/// given over it or taken from it: no step changes the state in which it was left.
#[derive(Drop)]
pub struct LeftLink<L> {
    link: L,
}

impl<L: Link> LeftLink<L> {
    /// This link, left as it is now.
    pub fn new(link: L) -> LeftLink<L>
        ensures { result.link ≡ link }
    {
        LeftLink { link }
    }

    /// The link, which can't be had again.
    pub fn look(&self) -> &L
        ensures { result.now ≡ self.now.link }
    {
        &self.link
    }

    /// Sends on what the link keeps of the bytes that it was given in the visit.
    pub fn flush(&mut self)
        ensures { L.state self.new.link ≡ L.state self.old.link }
    {
        self.link.flush();
    }
}

/// A left link of one of two kinds.
#[derive(Drop)]
pub enum EitherLeft<A: Link, B: Link> {
    /// A link of the first kind.
    First(LeftLink<A>),
    /// A link of the second kind.
    Second(LeftLink<B>),
}

impl<A: Link, B: Link> LeftLink<EitherLink<A, B>> {
    /// The left link that it holds.
    pub fn either(self) -> EitherLeft<A, B>
        ensures { left_either result ≡ self.link }
    {
        match self.link {
            EitherLink::First(link) => EitherLeft::First(LeftLink { link }),
            EitherLink::Second(link) => EitherLeft::Second(LeftLink { link }),
        }
    }
}
