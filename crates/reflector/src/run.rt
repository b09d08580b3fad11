//! A run: one host after another, and their viewers' places.

ghost use Rattle.std.specs.Prelude.{◌≡◌, ◌⊎◌, ◌≤◌, true, None, [], ◌∷◌, All, map, vec_len, IfOk, IfErr};
ghost use Rattle.reflect_core.specs.Sequential.{nothing_put};
ghost use Rattle.fault.specs.declared.kinds.Fault.TheVariants.{Memory, NoPlace};
ghost use Rattle.input_relay.specs.Ends.{fresh, host_of, relay_of, strand_of, taken_of};
ghost use Rattle.roles.specs.Strokes.{StrokesStand};
ghost use Rattle.reflect_core.specs.Sequential as step;
ghost use Rattle.shared_screen.specs.Reaches.{Reaches};
ghost use Rattle.host_writer.specs.Dropping.{all_dropped};
ghost use Rattle.host_writer.specs.Writing.{taken_from};
ghost use Rattle.reflector.specs.Tellings.{AreToldInTurn, TellsHosts};
ghost use Rattle.run_traits.specs.LinkTrails.{links_in};
ghost use Rattle.shared_screen.specs.History.{puts_of};
ghost use Rattle.host_turns.specs.Running.{HasRun, IsComing, IsOver, came_over, goes_on};
ghost use Rattle.run_traits.specs.Unused.{unused};
ghost use Rattle.reflector.specs.Visits.{IsOfScreen};

use crate::context::RunContext;
use crate::given::{RunHosts, RunPlaces, RunShared};
use crate::running::{Beginning, Running, shown};
use crate::threads::run_over;
use fault::Fault;
use host_turns::{Hosts, RunScreen};
use link::{Link, Rest};
use raster::Size;
use rfb_wire::Joined;
use run_traits::{Alarm, Door, Stop};
use shared_screen::{Naming, Opened, Publisher, Publishes, Watcher};
use std::marker::Brand;
use std::snapshot::Snapshot;
use std::sync::{Arc, Wait};
use std::thread::Threads;
use std::time::Clock;

/// The size of a host's screen.
fn size_of(host: &Joined) -> Size
    ensures { result ≡ record { width = host.now.w; height = host.now.h } }
{
    Size {
        width: host.w,
        height: host.h,
    }
}

/// What viewers are told of the screen: the size of the room, and the name of the first host.
fn screen_of(room: &RunScreen, host: Joined) -> Joined
    ensures size { (result.w ≡ room.now.width) × (result.h ≡ room.now.height) }
    ensures name { result.name ≡ host.name }
{
    let Joined { w: _, h: _, name } = host;
    Joined {
        w: room.width,
        h: room.height,
        name,
    }
}

/// Runs a reflector: a first host that was joined, over its two links, then the hosts of a supply in turn (`hosts`),
/// and the places of their viewers, each behind its door (`places`).
///
/// Each place has a thread, which serves one viewer after another. A further thread tells the hosts what they have to
/// be told, and another reads them. The call waits until the last host is read, tells the other threads to end, and
/// waits for the one that tells the hosts. A place ends once its viewer has left. The caller joins a place for what
/// that gives back.
///
/// Where a host ended between two messages or inside one, or its link failed, the next host is taken from the supply
/// and joined over the end that is read. So it is where a host that has called sends what RFB doesn't have. Then the
/// screen turns black, and the host is read as the first was. A host that can't be joined is passed over where it has
/// another version, refuses, offers no security type that can be chosen or reports a failed handshake, where its link
/// failed or ended, or where its screen doesn't fit into the room. A host whose new size doesn't fit is left for the
/// next one, too. Every other fault ends the run, and so does the end of the supply, with the last answer. The supply
/// has no end where the first host has its turn again.
///
/// Viewers are told the size of the room, and the name of the first host. The screens of all hosts lie at the top left
/// of the room, and what a host doesn't paint is black.
///
/// The link over which the first host is told was given nothing yet, as those of the hosts after it.
///
/// Each door is for the role that stands beside it, in which its place serves its viewers. All viewers are answered in
/// the same one of the two forms (`joined_runs`).
///
/// `shared.everyone`, the alarm of all that wait for news, including the hosts' writer, is rung after each put.
/// `shared.writer` is rung after each input. The hosts' writer goes on with each host that is read; what was cut short
/// at the end of one host isn't told again. Meanwhile `shared.input` tells how many inputs wait, and how many
/// were dropped.
///
/// No other call hands out what shows that a run was run. So a caller further up, which is handed that alone, knows
/// that there was a run, and what it was (`ran`).
///
/// It fails with `Memory` where memory is refused or a thread can't be made, and with `NoPlace` where the shared screen
/// has no place. Then nothing was put, since the thread that reads the hosts is made last; no clause says so, because
/// the publisher ends with what that thread was to do. The threads that were started are told to end and aren't waited
/// for. Once all threads are there, refused memory is an answer of the run.
pub fn run_all<J, L, H, D, B, W, R>(
    rt: R,
    room: RunScreen,
    history: Opened<J>,
    hosts: RunHosts<L, H>,
    places: RunPlaces<D>,
    shared: RunShared<B, W>,
) -> Result<Running<L, H, Publisher<J, R>, Watcher<J>, D, R>, Fault>
where
    J: Naming + Publishes + Send + Sync + 'static,
    L: Link + Send + 'static,
    H: Hosts<L> + Send + 'static,
    D: Door + Send + 'static,
    B: Alarm + Drop + Send + Sync + 'static,
    W: Alarm + Rest + Drop + Send + Sync + 'static,
    R: Threads + Wait + Clock + Copy + Drop + Send + 'static,
    requires history { history.seen.book ≡ J.book }
    requires fits { (hosts.joined.w ≤ room.width) × (hosts.joined.h ≤ room.height) }
    requires size { (room.width ≡ J.width) × (room.height ≡ J.height) }
    requires doors { (1 ≤ vec_len places.doors) × (vec_len places.doors ≤ 65) }
    requires roles { All (λ door. D.is_for door.1 door.0) places.doors.items }
    requires writer { L.state hosts.first.writer ≡ unused }
    ensures run { IfOk result (λ run. HasRun J.width J.height room.password
        (IsComing L.state H.came) run.last
        (came_over hosts.first.has_called (L.state hosts.first.reader))
        (map L.state run.links.items) [] (puts_of run.publisher.changes)) }
    ensures over { IfOk result (λ run. IsOver H.are_out run.hosts run.last) }
    ensures never { IfOk result (λ run. goes_on run.last ≡ true → H.again hosts.further ≡ None) }
    ensures places { IfOk result (λ run.
        map (λ place. strand_of place.promise.sender.value) run.places.items
        ≡ fresh (vec_len places.doors)) }
    ensures relay { IfOk result (λ run.
        All (λ place. relay_of place.promise.sender.value ≡ host_of run.taker) run.places.items) }
    ensures told { IfOk result (λ run.
        TellsHosts (λ old reply new. Reaches old (step.Look reply ∷ []) new)
        (λ _. J.width) (λ _. J.height) nothing_put (links_in L.state run.told_links)
        (taken_of run.taker) run.strokes) }
    ensures in_turn { IfOk result (λ run.
        AreToldInTurn J.width J.height [] (links_in L.state run.told_links) (taken_of run.taker)) }
    ensures strokes { IfOk result (λ run.
        StrokesStand run.strokes (map taken_from (taken_of run.taker))) }
    ensures dropped { IfOk result (λ run.
        run.dropped ≡ all_dropped (map taken_from (taken_of run.taker))) }
    ensures doors { IfOk result (λ run.
        map (λ place. (place.promise.role, place.promise.door.value)) run.places.items
        ≡ places.doors.items) }
    ensures watchers { IfOk result (λ run.
        All (λ place. place.promise.watcher.value ≡ nothing_put) run.places.items) }
    ensures screen { IfOk result (λ run. All (λ place.
        IsOfScreen room.width room.height hosts.joined.name places.form
        (record { width = hosts.joined.w; height = hosts.joined.h })
        place.promise.width place.promise.height place.promise.name.value.items
        place.promise.form place.promise.host) run.places.items) }
    ensures ran { IfOk result (λ run. run.ran.course ≡ record {
      host = hosts.joined;
      room_width = room.width;
      room_height = room.height;
      password = room.password;
      form = places.form;
      roles = map (λ door. door.0) places.doors.items;
      last_end = run.last;
      came = came_over hosts.first.has_called (L.state hosts.first.reader);
      links = map L.state run.links.items;
      told = links_in L.state run.told_links;
      taken = taken_of run.taker;
      updates = puts_of run.publisher.changes;
    }) }
    ensures err { IfErr result (λ fault. (fault ≡ Memory) ⊎ (fault ≡ NoPlace)) }
{
    let RunHosts {
        first: ends,
        joined,
        further,
    } = hosts;
    let RunPlaces { doors, form } = places;
    let first = size_of(&joined);
    let began = Beginning {
        host: Snapshot::of(&joined),
        room,
        doors: Snapshot::of(&doors),
        link: Snapshot::of(&ends.reader),
        has_called: ends.has_called,
    };
    let alloc = room.alloc;
    let stop = Arc::new(alloc, Stop::new(Arc::try_clone(&shared.everyone)?))?;
    let context = RunContext {
        rt,
        alloc,
        password: room.password,
        form,
        screen: screen_of(&room, joined),
        host: first,
        shared,
        stop,
    };
    let (publisher, watchers) = shared_screen::shared::<J, R>(
        rt,
        alloc,
        history,
        room.width,
        room.height,
        doors.len() + 1,
    )?;
    let left = run_over(&context, ends, further, doors, publisher, watchers)?;
    Ok(shown::<Brand, J, L, H, D, R>(&began, form, left))
}
