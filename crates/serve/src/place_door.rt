//! The doors of a run's places.

ghost use Rattle.std.specs.Prelude.{◌≡◌};

use crate::incident::RunLog;
use crate::tape::RecordingNotes;
use connections::{TcpDoor, ViewerLink};
use fault::Fault;
use link::EitherLink;
use recorder::{RecorderDoor, RecorderLink};
use run_traits::{Door, EitherDoor, LeftLink, PlaceCount};
use std::fs::File;
use std::sync::Wait;
use std::time::Clock;

/// The link of whoever has a place: a viewer's, or the recorder's.
type PlaceLink<R> = EitherLink<ViewerLink<R>, RecorderLink<R, File>>;

/// The door of a place: of viewers, or of the recorder. It is a struct of its own, since the proof of a run is many
/// times as long where its doors have the longer type.
#[derive(Drop)]
pub(crate) struct PlaceDoor<R, G>
where
    R: Wait + Clock + Copy + Drop + Send,
    G: RunLog + Drop + Send,
{
    door: EitherDoor<TcpDoor<R, G>, RecorderDoor<R, File, RecordingNotes<G>>>,
}

impl<R, G> PlaceDoor<R, G>
where
    R: Wait + Clock + Copy + Drop + Send,
    G: RunLog + Drop + Send,
{
    ghost use Rattle.std.specs.Prelude.{◌≡◌};
    ghost use Rattle.connections.specs.Doors.{role_behind};
    ghost use Rattle.roles.specs.declared.role.Role.TheVariants.{View};
    ghost use Rattle.serve.specs.Doors.{place_of, role_for};

    /// The door of a place of viewers.
    pub(crate) fn of_viewers(door: TcpDoor<R, G>) -> PlaceDoor<R, G>
        ensures role { role_for result ≡ role_behind door }
        ensures place { place_of result ≡ door.place }
    {
        PlaceDoor {
            door: EitherDoor::First(door),
        }
    }

    /// The door of the recorder's place.
    pub(crate) fn of_recorder(door: RecorderDoor<R, File, RecordingNotes<G>>) -> PlaceDoor<R, G>
        ensures { role_for result ≡ View }
    {
        PlaceDoor {
            door: EitherDoor::Second(door),
        }
    }
}

impl<R, G> Door for PlaceDoor<R, G>
where
    R: Wait + Clock + Copy + Drop + Send,
    G: RunLog + Drop + Send,
{
    ghost use Rattle.std.specs.Prelude.{◌≡◌};
    ghost use Rattle.link.specs.Either.{either_state};
    ghost use Rattle.connections.specs.Browsers.{viewer_state};
    ghost use Rattle.record_link.specs.Linked.{state_of};
    ghost use Rattle.serve.specs.Doors.{LetsIn, SeesOff, role_for};

    type Viewer = PlaceLink<R>;

    ghost is_for = { λ door role. role ≡ role_for door };

    ghost lets_in = { LetsIn };

    ghost sees_off = { SeesOff };

    fn next(&mut self) -> Option<PlaceLink<R>> {
        self.door.next()
    }

    fn count(&self) -> &PlaceCount {
        self.door.count()
    }

    fn left(&mut self, viewer: LeftLink<PlaceLink<R>>, answers: u64, why: Result<(), Fault>)
        ensures { SeesOff self.old (either_state viewer_state state_of viewer.link) why self.new }
    {
        self.door.left(viewer, answers, why);
    }
}
