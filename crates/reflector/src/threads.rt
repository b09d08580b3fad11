//! The threads of a run: what starts them, and what ends them.

ghost use Rattle.std.specs.Prelude.{◌≡◌, ◌+◌, ◌≤◌, ◌<◌, true, None, [], All, drop, map, slice_index_or, vec_len, IfOk, IfErr};
ghost use Rattle.fault.specs.declared.kinds.Fault.TheVariants.{Memory};
ghost use Rattle.raster.specs.Size.{IsScreenSize};
ghost use Rattle.input_relay.specs.Ends.{fresh, host_of, relay_of, strand_of, taken_of};
ghost use Rattle.roles.specs.Strokes.{StrokesStand};
ghost use Rattle.host_writer.specs.Dropping.{IsCounted};
ghost use Rattle.reflector.specs.Tellings.{HasTold, TellsHosts, desk};
ghost use Rattle.run_traits.specs.LinkTrails.{links_in};
ghost use Rattle.host_turns.specs.Running.{HasRun, IsComing, IsOver, came_over, goes_on};
ghost use Rattle.run_traits.specs.Unused.{unused};
ghost use Rattle.reflector.specs.Visits.{IsOfScreen};

use crate::context::RunContext;
use crate::place::{Place, PlaceHandle, start_place};
use crate::reader::{HostsToRead, ReaderHandle, start_reader};
use crate::running::Left;
use crate::session_maker::SessionMaker;
use crate::writer::{WriterHandle, start_writer};
use fault::Fault;
use host_turns::{Handover, HostEnds, Hosts, RunScreen};
use input_relay::{Sender, Taker, relay};
use link::{Link, Rest};
use reflect_core::{Puts, ScreenSource};
use roles::{Role, Strokes};
use run_traits::{Alarm, Door};
use std::alloc::Global;
use std::sync::{Arc, Wait};
use std::thread::Threads;
use std::time::Clock;

/// The relay of a run: the sender of each place, and what the hosts' writer takes their input from.
#[derive(Drop)]
struct RunRelay<R: Wait + Drop> {
    senders: Vec<Sender<R>>,
    taker: Taker<R>,
}

/// The threads of a run.
struct Started<L: Link, H: Hosts<L>, P: Puts + Drop, S: ScreenSource, D: Door, R: Wait + Drop> {
    places: Vec<PlaceHandle<S, D, R>>,
    writer: WriterHandle<L, S, R>,
    reader: ReaderHandle<L, H, P>,
}

/// Starts the thread of each place, with the sender of its number.
fn start_places<S, D, B, W, R>(
    context: &RunContext<R, B, W>,
    mut doors: Vec<(Role, D)>,
    mut watchers: Vec<S>,
    senders: Vec<Sender<R>>,
) -> Result<Vec<PlaceHandle<S, D, R>>, Fault>
where
    S: ScreenSource + Drop + Send + 'static,
    D: Door + Send + 'static,
    B: Alarm + Drop + Send + Sync + 'static,
    W: Alarm + Drop + Send + Sync + 'static,
    R: Threads + Wait + Clock + Copy + Drop + Send + 'static,
    requires size { IsScreenSize context.now.screen.w context.now.screen.h }
    requires screen { (s : S)
        → (S.width s ≡ context.now.screen.w) × (S.height s ≡ context.now.screen.h) }
    requires count { (vec_len doors ≡ vec_len senders) × (vec_len watchers ≡ vec_len senders) }
    ensures of { IfOk result (λ places.
        map (λ place. place.promise.sender.value) places.items ≡ senders.items) }
    ensures doors { IfOk result (λ places.
        map (λ place. (place.promise.role, place.promise.door.value)) places.items ≡ doors.items) }
    ensures watchers { IfOk result (λ places.
        map (λ place. place.promise.watcher.value) places.items ≡ watchers.items) }
    ensures screen { IfOk result (λ places. All (λ place.
        IsOfScreen context.now.screen.w context.now.screen.h context.now.screen.name
        context.now.form context.now.host
        place.promise.width place.promise.height place.promise.name.value.items
        place.promise.form place.promise.host) places.items) }
    ensures err { IfErr result (λ fault. fault ≡ Memory) }
{
    let mut places = Vec::new(context.alloc);
    for sender in senders {
        let (role, door) = doors.remove(0);
        let watcher = watchers.remove(0);
        let maker = SessionMaker::new(
            context.alloc,
            &context.screen,
            role,
            context.form,
            context.host,
        )?;
        let held = Place {
            door,
            watcher,
            sender,
        };
        let place = start_place(context, maker, held)?;
        places.push(place)?;
    }
    Ok(places)
}

/// Starts all threads: those of the places, that of the host's writer, and last the one that reads the hosts. Nothing
/// is put before.
fn start_all<L, H, P, S, D, B, W, R>(
    context: &RunContext<R, B, W>,
    handover: &Arc<Handover<L, W>, Global>,
    to_read: HostsToRead<L, H, P>,
    doors: Vec<(Role, D)>,
    mut watchers: Vec<S>,
    relay: RunRelay<R>,
) -> Result<Started<L, H, P, S, D, R>, Fault>
where
    L: Link + Send + 'static,
    H: Hosts<L> + Send + 'static,
    P: Puts + Drop + Send + 'static,
    S: ScreenSource + Drop + Send + 'static,
    D: Door + Send + 'static,
    B: Alarm + Drop + Send + Sync + 'static,
    W: Alarm + Rest + Drop + Send + Sync + 'static,
    R: Threads + Wait + Clock + Copy + Drop + Send + 'static,
    requires size { IsScreenSize context.now.screen.w context.now.screen.h }
    requires publisher { (P.width to_read.publisher ≡ context.now.screen.w)
        × (P.height to_read.publisher ≡ context.now.screen.h) }
    requires screen { (s : S)
        → (S.width s ≡ context.now.screen.w) × (S.height s ≡ context.now.screen.h) }
    requires count { (vec_len doors ≡ vec_len relay.senders)
        × (vec_len watchers ≡ vec_len relay.senders + 1) }
    ensures places { IfOk result (λ started.
        map (λ place. place.promise.sender.value) started.places.items ≡ relay.senders.items) }
    ensures doors { IfOk result (λ started.
        map (λ place. (place.promise.role, place.promise.door.value)) started.places.items
        ≡ doors.items) }
    ensures watchers { IfOk result (λ started.
        map (λ place. place.promise.watcher.value) started.places.items ≡ drop 1 watchers.items) }
    ensures screen { IfOk result (λ started. All (λ place.
        IsOfScreen context.now.screen.w context.now.screen.h context.now.screen.name
        context.now.form context.now.host
        place.promise.width place.promise.height place.promise.name.value.items
        place.promise.form place.promise.host) started.places.items) }
    ensures writer { IfOk result (λ started. (started.writer.promise.taker.value ≡ relay.taker)
        × (started.writer.promise.source.value
        ≡ slice_index_or watchers.items 0 started.writer.promise.source.value)
        × StrokesStand started.writer.promise.strokes.value []) }
    ensures reader { IfOk result (λ started. (started.reader.promise.width ≡ context.now.screen.w)
        × (started.reader.promise.height ≡ context.now.screen.h)
        × (started.reader.promise.password ≡ context.now.password)
        × (started.reader.promise.has_called ≡ to_read.has_called)
        × (started.reader.promise.link.value ≡ to_read.link)
        × (started.reader.promise.publisher.value ≡ to_read.publisher)
        × (started.reader.promise.hosts.value ≡ to_read.hosts)) }
    ensures err { IfErr result (λ fault. fault ≡ Memory) }
{
    let RunRelay { senders, taker } = relay;
    let watcher = watchers.remove(0);
    let strokes = Strokes::new(context.alloc, senders.len() as u64)?;
    let places = start_places(context, doors, watchers, senders)?;
    let writer = start_writer(context, Arc::try_clone(handover)?, watcher, taker, strokes)?;
    let run_screen = RunScreen {
        alloc: context.alloc,
        width: context.screen.w,
        height: context.screen.h,
        password: context.password,
    };
    let alarm = Arc::try_clone(&context.shared.everyone)?;
    let handover = Arc::try_clone(handover)?;
    let reader = start_reader(context.rt, run_screen, to_read, alarm, handover)?;
    Ok(Started {
        places,
        writer,
        reader,
    })
}

/// Waits until the hosts are read, tells all threads to end, and waits for the hosts' writer.
fn end_all<L, H, P, S, D, B, W, R>(
    context: &RunContext<R, B, W>,
    started: Started<L, H, P, S, D, R>,
) -> Left<L, H, P, S, D, R>
where
    L: Link,
    H: Hosts<L>,
    P: Puts + Drop,
    S: ScreenSource,
    D: Door,
    B: Alarm + Drop,
    W: Alarm + Drop,
    R: Threads + Wait + Drop,
    ensures run { HasRun started.reader.promise.width started.reader.promise.height
        started.reader.promise.password (IsComing L.state H.came) result.read.last
        (came_over started.reader.promise.has_called (L.state started.reader.promise.link.value))
        (map L.state result.read.links.items)
        (P.updates started.reader.promise.publisher.value) (P.updates result.read.publisher) }
    ensures over { IsOver H.are_out result.read.hosts result.read.last }
    ensures never { goes_on result.read.last ≡ true
        → H.again started.reader.promise.hosts.value ≡ None }
    ensures taker { host_of result.told.taker ≡ host_of started.writer.promise.taker.value }
    ensures counted { IsCounted (taken_of started.writer.promise.taker.value)
        started.writer.promise.strokes.value 0
        → IsCounted (taken_of result.told.taker) result.told.strokes result.told.dropped }
    ensures told { HasTold S.looks S.width S.height (desk [] started.writer.promise.source.value
        (taken_of started.writer.promise.taker.value) started.writer.promise.strokes.value)
        (links_in L.state result.told.told_links)
        (taken_of result.told.taker) result.told.strokes }
    ensures places { result.places ≡ started.places }
{
    let Started {
        places,
        writer,
        reader,
    } = started;
    let read = reader.join(&context.rt);
    context.stop.set();
    let told = writer.join(&context.rt);
    Left { read, told, places }
}

/// The relay of a run, and its gauge for those who watch the run. It fails where memory is refused (`Memory`).
fn watched_relay<B, W, R>(context: &RunContext<R, B, W>, places: u64) -> Result<RunRelay<R>, Fault>
where
    B: Alarm + Drop,
    W: Alarm + Drop,
    R: Wait + Drop + Copy,
    requires { (0 < places) × (places ≤ 65) }
    ensures count { IfOk result (λ r. vec_len r.senders ≡ places) }
    ensures places { IfOk result (λ r. map strand_of r.senders.items ≡ fresh places) }
    ensures one { IfOk result (λ r. All (λ s. relay_of s ≡ host_of r.taker) r.senders.items) }
    ensures taken { IfOk result (λ r. taken_of r.taker ≡ []) }
    ensures err { IfErr result (λ fault. fault ≡ Memory) }
{
    let (senders, mut taker) = relay(context.rt, context.alloc, places)?;
    let gauge = taker.gauge()?;
    context.shared.input.attach(&context.rt, gauge);
    Ok(RunRelay { senders, taker })
}

/// A run over any screen: its publisher, and a watcher for each place and one for the hosts' writer.
pub(crate) fn run_over<L, H, P, S, D, B, W, R>(
    context: &RunContext<R, B, W>,
    ends: HostEnds<L>,
    hosts: H,
    doors: Vec<(Role, D)>,
    publisher: P,
    watchers: Vec<S>,
) -> Result<Left<L, H, P, S, D, R>, Fault>
where
    L: Link + Send + 'static,
    H: Hosts<L> + Send + 'static,
    P: Puts + Drop + Send + 'static,
    S: ScreenSource + Drop + Send + 'static,
    D: Door + Send + 'static,
    B: Alarm + Drop + Send + Sync + 'static,
    W: Alarm + Rest + Drop + Send + Sync + 'static,
    R: Threads + Wait + Clock + Copy + Drop + Send + 'static,
    requires size { IsScreenSize context.now.screen.w context.now.screen.h }
    requires publisher { (P.width publisher ≡ context.now.screen.w)
        × (P.height publisher ≡ context.now.screen.h) }
    requires screen { (s : S)
        → (S.width s ≡ context.now.screen.w) × (S.height s ≡ context.now.screen.h) }
    requires doors { (1 ≤ vec_len doors) × (vec_len doors ≤ 65)
        × (vec_len watchers ≡ vec_len doors + 1) }
    requires writer { L.state ends.writer ≡ unused }
    ensures run { IfOk result (λ run.
        HasRun context.now.screen.w context.now.screen.h context.now.password
        (IsComing L.state H.came) run.read.last
        (came_over ends.has_called (L.state ends.reader)) (map L.state run.read.links.items)
        (P.updates publisher) (P.updates run.read.publisher)) }
    ensures over { IfOk result (λ run. IsOver H.are_out run.read.hosts run.read.last) }
    ensures never { IfOk result (λ run. goes_on run.read.last ≡ true → H.again hosts ≡ None) }
    ensures places { IfOk result (λ run.
        map (λ place. strand_of place.promise.sender.value) run.places.items
        ≡ fresh (vec_len doors)) }
    ensures relay { IfOk result (λ run.
        All (λ place. relay_of place.promise.sender.value ≡ host_of run.told.taker)
        run.places.items) }
    ensures counted { IfOk result (λ run.
        IsCounted (taken_of run.told.taker) run.told.strokes run.told.dropped) }
    ensures told { IfOk result (λ run.
        (source : S) × (source ≡ slice_index_or watchers.items 0 source)
        × TellsHosts S.looks S.width S.height source (links_in L.state run.told.told_links)
        (taken_of run.told.taker) run.told.strokes) }
    ensures doors { IfOk result (λ run.
        map (λ place. (place.promise.role, place.promise.door.value)) run.places.items
        ≡ doors.items) }
    ensures watchers { IfOk result (λ run.
        map (λ place. place.promise.watcher.value) run.places.items ≡ drop 1 watchers.items) }
    ensures screen { IfOk result (λ run. All (λ place.
        IsOfScreen context.now.screen.w context.now.screen.h context.now.screen.name
        context.now.form context.now.host
        place.promise.width place.promise.height place.promise.name.value.items
        place.promise.form place.promise.host) run.places.items) }
    ensures err { IfErr result (λ fault. fault ≡ Memory) }
{
    let HostEnds {
        reader,
        writer,
        has_called,
    } = ends;
    let relay = watched_relay(context, doors.len() as u64)?;
    let alarm = Arc::try_clone(&context.shared.writer)?;
    let handover = Arc::new(context.alloc, Handover::new(writer, alarm))?;
    let to_read = HostsToRead {
        link: reader,
        has_called,
        hosts,
        publisher,
    };
    match start_all(context, &handover, to_read, doors, watchers, relay) {
        Ok(started) => Ok(end_all(context, started)),
        Err(fault) => {
            context.stop.set();
            handover.close(&context.rt);
            Err(fault)
        }
    }
}
