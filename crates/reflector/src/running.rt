//! What a run hands out, and what shows that it was run.

ghost use Rattle.std.specs.Prelude.{◌≡◌, map};
ghost use Rattle.host_turns.specs.Running.{came_over};
ghost use Rattle.input_relay.specs.Ends.{taken_of};
ghost use Rattle.run_traits.specs.LinkTrails.{links_in};
ghost use Rattle.shared_screen.specs.History.{puts_of};

use crate::place::PlaceHandle;
use crate::ran::{Ran, Told};
use crate::reader::HostsRead;
use crate::writer::HostsTold;
use host_turns::{Ending, Hosts, RunScreen};
use input_relay::Taker;
use link::Link;
use reflect_core::ScreenSource;
use rfb_wire::Joined;
use roles::{Role, Strokes};
use run_traits::{Door, LinkTrail};
use shared_screen::{Naming, Publisher, Publishes, Watcher};
use std::snapshot::Snapshot;
use std::sync::Wait;
use viewer_session::AnswerForm;

/// What a run leaves.
pub struct Running<L, H, P, S: ScreenSource, D: Door, R: Wait + Drop> {
    /// What shows that it was run, for whoever isn't handed the rest.
    pub ran: Ran,
    /// How the last host has ended: with the answer of reading it, or of joining it.
    pub last: Ending,
    /// The link that each host was read of, in turn.
    pub links: Vec<L>,
    /// The supply of hosts, with those that had no turn.
    pub hosts: H,
    /// The screen, with all that was put.
    pub publisher: P,
    /// The links over which the hosts were told, in turn: each as it came, and then as it was left.
    pub told_links: LinkTrail<L>,
    /// What took the viewers' input.
    pub taker: Taker<R>,
    /// Whose key or button is down after all that was taken, and how many inputs of each place were dropped.
    pub strokes: Strokes,
    /// How many inputs of all places were dropped.
    pub dropped: u64,
    /// The places, by their numbers. Each is still to be joined, and then gives back its watcher and its sender.
    pub places: Vec<PlaceHandle<S, D, R>>,
}

/// What the threads of a run leave: the one that read the hosts, and the one that told them. Those of the places are
/// still to be joined.
pub(crate) struct Left<L: Link, H: Hosts<L>, P: Drop, S: ScreenSource, D: Door, R: Wait + Drop> {
    pub(crate) read: HostsRead<L, H, P>,
    pub(crate) told: HostsTold<L, R>,
    pub(crate) places: Vec<PlaceHandle<S, D, R>>,
}

/// What a run begins with, for clauses: the first host, the room, the doors with their roles, the link that is read,
/// and whether that host has called.
#[derive(Drop)]
pub(crate) struct Beginning<L, D> {
    pub(crate) host: Snapshot<Joined>,
    pub(crate) room: RunScreen,
    pub(crate) doors: Snapshot<Vec<(Role, D)>>,
    pub(crate) link: Snapshot<L>,
    pub(crate) has_called: bool,
}

/// Hands out what the threads of a run left, with what shows that it was run. `C` names what the run was.
pub(crate) fn shown<C, J, L, H, D, R>(
    began: &Beginning<L, D>,
    form: AnswerForm,
    left: Left<L, H, Publisher<J, R>, Watcher<J>, D, R>,
) -> Running<L, H, Publisher<J, R>, Watcher<J>, D, R>
where
    C: Told,
    J: Naming + Publishes,
    L: Link,
    H: Hosts<L>,
    D: Door,
    R: Wait + Drop,
    requires { C.course ≡ record {
      host = began.now.host.value;
      room_width = began.now.room.width;
      room_height = began.now.room.height;
      password = began.now.room.password;
      form = form;
      roles = map (λ door. door.0) began.now.doors.value.items;
      last_end = left.read.last;
      came = came_over began.now.has_called (L.state began.now.link.value);
      links = map L.state left.read.links.items;
      told = links_in L.state left.told.told_links;
      taken = taken_of left.told.taker;
      updates = puts_of left.read.publisher.changes;
    } }
    ensures ran { result.ran.course ≡ C.course }
    ensures last { result.last ≡ left.read.last }
    ensures links { result.links ≡ left.read.links }
    ensures hosts { result.hosts ≡ left.read.hosts }
    ensures publisher { result.publisher ≡ left.read.publisher }
    ensures told_links { result.told_links ≡ left.told.told_links }
    ensures taker { result.taker ≡ left.told.taker }
    ensures strokes { result.strokes ≡ left.told.strokes }
    ensures dropped { result.dropped ≡ left.told.dropped }
    ensures places { result.places ≡ left.places }
{
    let Left { read, told, places } = left;
    Running {
        ran: Ran::new::<C>(),
        last: read.last,
        links: read.links,
        hosts: read.hosts,
        publisher: read.publisher,
        told_links: told.told_links,
        taker: told.taker,
        strokes: told.strokes,
        dropped: told.dropped,
        places,
    }
}
