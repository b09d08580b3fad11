//! A door that is one of two.

use crate::count::PlaceCount;
use crate::door::Door;
use crate::left_link::{EitherLeft, LeftLink};
use fault::Fault;
use link::EitherLink;

/// A door of one of two kinds, so that a run has places of both. It stays of its kind, and behaves as the door that it
/// holds.
#[derive(Drop)]
pub enum EitherDoor<A: Door, B: Door> {
    /// A door of the first kind.
    First(A),
    /// A door of the second kind.
    Second(B),
}

impl<A: Door, B: Door> Door for EitherDoor<A, B> {
    ghost use Rattle.link.specs.Either.{either_state};
    ghost use Rattle.run_traits.specs.Either.{is_for_either, lets_in_either, sees_off_either};

    type Viewer = EitherLink<A::Viewer, B::Viewer>;

    ghost is_for = { is_for_either A.is_for B.is_for };

    ghost lets_in = { lets_in_either A.lets_in B.lets_in };

    ghost sees_off = { sees_off_either A.sees_off B.sees_off };

    fn next(&mut self) -> Option<EitherLink<A::Viewer, B::Viewer>> {
        match self {
            EitherDoor::First(door) => match door.next() {
                Some(link) => Some(EitherLink::First(link)),
                None => None,
            },
            EitherDoor::Second(door) => match door.next() {
                Some(link) => Some(EitherLink::Second(link)),
                None => None,
            },
        }
    }

    fn count(&self) -> &PlaceCount {
        match self {
            EitherDoor::First(door) => door.count(),
            EitherDoor::Second(door) => door.count(),
        }
    }

    /// A link of the other kind never comes back, since it wasn't handed out. No type says so: such a link is dropped.
    fn left(
        &mut self,
        viewer: LeftLink<EitherLink<A::Viewer, B::Viewer>>,
        answers: u64,
        why: Result<(), Fault>,
    )
        ensures { sees_off_either A.sees_off B.sees_off self.old
            (either_state A.Viewer.state B.Viewer.state viewer.link) why self.new }
    {
        match (self, viewer.either()) {
            (EitherDoor::First(door), EitherLeft::First(link)) => door.left(link, answers, why),
            (EitherDoor::Second(door), EitherLeft::Second(link)) => door.left(link, answers, why),
            _ => {}
        }
    }
}
