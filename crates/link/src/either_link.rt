//! A link that is one of two.

use crate::link::{Gave, Link, Took};

/// A link of one of two kinds. It behaves as the link that it holds.
#[derive(Drop)]
pub enum EitherLink<A: Link, B: Link> {
    /// A link of the first kind.
    First(A),
    /// A link of the second kind.
    Second(B),
}

impl<A: Link, B: Link> Link for EitherLink<A, B> {
    ghost use Rattle.link.specs.Either.{either_state};

    ghost state = { either_state A.state B.state };

    fn take(&mut self, into: &mut [u8]) -> Took {
        match self {
            EitherLink::First(link) => link.take(into),
            EitherLink::Second(link) => link.take(into),
        }
    }

    fn give(&mut self, bytes: &[u8]) -> Gave {
        match self {
            EitherLink::First(link) => link.give(bytes),
            EitherLink::Second(link) => link.give(bytes),
        }
    }

    fn flush(&mut self) {
        match self {
            EitherLink::First(link) => link.flush(),
            EitherLink::Second(link) => link.flush(),
        }
    }

    fn failures(&self) -> u64 {
        match self {
            EitherLink::First(link) => link.failures(),
            EitherLink::Second(link) => link.failures(),
        }
    }
}
