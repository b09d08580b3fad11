//! A place, which serves one viewer after another.

ghost use Rattle.std.specs.Prelude.{◌≡◌, ◌⊎◌, ⊤, IfOk, IfErr};
ghost use Rattle.fault.specs.declared.kinds.Fault.TheVariants.{Memory, NumbersOut, QueueFull};
ghost use Rattle.input_relay.specs.Ends.{inputs_of, place_of, relay_of};
ghost use Rattle.roles.specs.declared.role.Role.TheVariants.{View};
ghost use Rattle.reflector.specs.Promise.{KeepsPromise};
ghost use Rattle.reflector.specs.Senders.{IsSameSender};
ghost use Rattle.reflector.specs.Visits.{HasVisits, IsReceived, at, setup_of};

use crate::context::RunContext;
use crate::named_sender::{NamedSender, SenderName};
use crate::no_sender::NoSender;
use crate::session_maker::SessionMaker;
use crate::stages::{FreePlace, LeftPlace, PlaceBeginning};
use fault::Fault;
use input_relay::Sender;
use link::{Rest, StopFlag};
use raster::Size;
use reflect_core::ScreenSource;
use roles::{InputSink, Role};
use run_traits::{Alarm, Door, Ringing, Stop};
use std::alloc::Global;
use std::marker::Brand;
use std::snapshot::Snapshot;
use std::sync::{Arc, Wait};
use std::thread;
use std::thread::{Builder, Promise, PromisedHandle, Threads};
use std::time::{Clock, Duration};
use viewer_server::run_viewer;
use viewer_session::AnswerForm;

/// The stack of a place's thread, in bytes.
const STACK: usize = 1_048_576;

/// How long a place rests where the relay is full, in milliseconds.
const REST_MILLIS: u64 = 1;

/// What a place has while no viewer is there, and gives back.
#[derive(Drop)]
pub struct Place<S, D, R: Wait + Drop> {
    /// Where its viewers came from.
    pub door: D,
    /// What it looked at and cut.
    pub watcher: S,
    /// What sent its viewers' input.
    pub sender: Sender<R>,
}

/// The promise of a place's thread: it gives back the door, the watcher and the sender that it began with, after the
/// place's visits. Each viewer that the door let in was served in turn, in this role and form, over a screen of this
/// size and name, and was told of the host's sizes, the first of which is this one (`IsReceived`). So the place keeps
/// the promise of the program: all of its viewers were shown whole screens of one list, and no more of their input went
/// on than the role allows (`KeepsPromise`).
#[derive(Drop)]
pub struct OfPlace<S, D, R: Wait + Drop> {
    pub role: Role,
    pub width: u64,
    pub height: u64,
    pub name: Snapshot<Vec<u8>>,
    pub form: AnswerForm,
    pub host: Size,
    pub door: Snapshot<D>,
    pub watcher: Snapshot<S>,
    pub sender: Snapshot<Sender<R>>,
}

impl<S: ScreenSource, D: Door, R: Wait + Drop> Promise<Place<S, D, R>> for OfPlace<S, D, R> {
    ghost use Rattle.std.specs.Prelude.{◌≡◌, ◌⊎◌, ⊤};
    ghost use Rattle.fault.specs.declared.kinds.Fault.TheVariants.{NumbersOut, QueueFull};
    ghost use Rattle.input_relay.specs.Ends.{inputs_of};
    ghost use Rattle.reflector.specs.Senders.{IsSameSender};
    ghost use Rattle.reflector.specs.Promise.{KeepsPromise};
    ghost use Rattle.reflector.specs.Visits.{HasVisits, IsReceived, at, setup_of};

    ghost kept_by = { λ promise place. IsSameSender promise.sender.value place.sender
        × HasVisits D.lets_in D.sees_off (λ source_old source_new sent_old sent_new why left.
        IsReceived S.looks S.cuts S.may_end ⊤
        (λ fault. (fault ≡ QueueFull) ⊎ (fault ≡ NumbersOut)) S.known
        (setup_of promise.width promise.height promise.name.value.items promise.form promise.host)
        promise.role source_old source_new sent_old sent_new why left)
        (at promise.door.value promise.watcher.value (inputs_of promise.sender.value))
        (at place.door place.watcher (inputs_of place.sender))
        × KeepsPromise D.lets_in D.sees_off S.known
        (setup_of promise.width promise.height promise.name.value.items promise.form promise.host)
        promise.role (at promise.door.value promise.watcher.value (inputs_of promise.sender.value))
        (at place.door place.watcher (inputs_of place.sender)) };
}

/// The thread of a place.
pub type PlaceHandle<S, D, R> = PromisedHandle<Place<S, D, R>, OfPlace<S, D, R>>;

/// Rests for a moment where the relay is full, since taking an input from it rings no alarm.
#[derive(Drop)]
struct Nap<R: Clock + Drop> {
    clock: R,
}

impl<R: Clock + Drop> Rest for Nap<R> {
    fn rest<Q: Wait>(&self, _rt: &Q) {
        thread::sleep(&self.clock, Duration::from_millis(REST_MILLIS));
    }
}

/// Serves one viewer after another, until no more come or the flag is set. Of what matters it is lent the place alone,
/// and then the visit of each viewer.
fn serve_viewers<'a, D, S, K, F, T, Z, R>(
    rt: &R,
    place: FreePlace<'a, D, S, K, F, T>,
    rest: &Z,
) -> LeftPlace<'a, D, S, K, F, T>
where
    D: Door,
    S: ScreenSource,
    K: InputSink,
    F: StopFlag,
    T: Drop,
    Z: Rest,
    R: Wait,
    ensures { HasVisits D.lets_in D.sees_off (λ source_old source_new sent_old sent_new why left.
        IsReceived S.looks S.cuts S.may_end (F.was_set place.entry.lent.stop.now)
        K.may_refuse S.known (setup_of place.entry.lent.maker.now.width
        place.entry.lent.maker.now.height place.entry.lent.maker.now.name.items
        place.entry.lent.maker.now.form place.entry.lent.maker.now.host)
        place.entry.lent.maker.now.role source_old source_new sent_old sent_new why left)
        (at place.entry.door place.entry.source (K.sent place.entry.sink))
        (at result.door result.source (K.sent result.sink)) }
{
    let mut free = place;
    for _ in rt.forever() {
        if free.stop().is_set() {
            return free.leave();
        }
        let met = match free.meet() {
            Ok(Ok(met)) => met,
            Ok(Err(place)) => {
                free = place;
                continue;
            }
            Err(left) => return left,
        };
        let began = met.beginning();
        let (busy, mut visit) = met.open(&began);
        let why = run_viewer(rt, &mut visit, busy.stop(), rest, &busy.progress());
        free = busy.close(visit, why);
    }
    unreachable!()
}

/// The same as `serve_viewers`, with the sender that `T` names as the sink. The alarm is rung after each of its inputs.
fn serve_from<
    T: SenderName,
    S: ScreenSource,
    D: Door,
    W: Alarm + Drop,
    F: StopFlag,
    Z: Rest,
    R: Wait + Drop,
>(
    rt: &R,
    maker: &SessionMaker,
    place: Place<S, D, R>,
    alarm: W,
    stop: &F,
    rest: &Z,
) -> Place<S, D, R>
    requires screen { (s : S) → (S.width s ≡ maker.now.width) × (S.height s ≡ maker.now.height) }
    requires named { (relay_of place.sender ≡ T.relay) × (place_of place.sender ≡ T.place) }
    ensures named { (relay_of result.sender ≡ T.relay) × (place_of result.sender ≡ T.place) }
    ensures visits { HasVisits D.lets_in D.sees_off
        (λ source_old source_new sent_old sent_new why left.
        IsReceived S.looks S.cuts S.may_end (F.was_set stop.now)
        (λ fault. (fault ≡ QueueFull) ⊎ (fault ≡ NumbersOut)) S.known
        (setup_of maker.now.width maker.now.height maker.now.name.items maker.now.form
        maker.now.host) maker.now.role source_old source_new sent_old sent_new why left)
        (at place.door place.watcher (inputs_of place.sender))
        (at result.door result.watcher (inputs_of result.sender)) }
{
    let Place {
        door,
        watcher,
        sender,
    } = place;
    let inner: NamedSender<T, R> = NamedSender::new(sender);
    let sink = Ringing { inner, alarm };
    let first = PlaceBeginning::of(&door, &watcher, &sink);
    let place = FreePlace::new(&first, maker, stop, door, watcher, sink);
    let left = serve_viewers(rt, place, rest);
    let (door, watcher, sink) = left.into_parts(());
    let Ringing { inner, alarm: _ } = sink;
    Place {
        door,
        watcher,
        sender: inner.into_sender(),
    }
}

/// The same where viewers only look on: their place has no sender, so that none of their input can go on.
fn show_viewers<S: ScreenSource, D: Door, F: StopFlag, R: Wait + Clock + Copy + Drop>(
    rt: &R,
    maker: &SessionMaker,
    door: D,
    source: S,
    sink: NoSender<R>,
    stop: &F,
) -> (D, S)
    requires screen { (s : S) → (S.width s ≡ maker.now.width) × (S.height s ≡ maker.now.height) }
    requires role { maker.now.role ≡ View }
    ensures { HasVisits D.lets_in D.sees_off (λ source_old source_new sent_old sent_new why left.
        IsReceived S.looks S.cuts S.may_end (F.was_set stop.now)
        (λ fault. (fault ≡ QueueFull) ⊎ (fault ≡ NumbersOut)) S.known
        (setup_of maker.now.width maker.now.height maker.now.name.items maker.now.form
        maker.now.host) maker.now.role source_old source_new sent_old sent_new why left)
        (at door source (inputs_of sink.of.value))
        (at result.0 result.1 (inputs_of sink.of.value)) }
{
    let first = PlaceBeginning::of(&door, &source, &sink);
    let place = FreePlace::new(&first, maker, stop, door, source, sink);
    let left = serve_viewers(rt, place, &Nap { clock: *rt });
    let (door, source, _) = left.into_parts(());
    (door, source)
}

/// Keeps a place until no more viewers come or the flag is set.
fn keep<S: ScreenSource, D: Door, W: Alarm + Drop, F: StopFlag, R: Wait + Clock + Copy + Drop>(
    rt: R,
    maker: SessionMaker,
    place: Place<S, D, R>,
    alarm: W,
    stop: &F,
) -> Place<S, D, R>
    requires { (s : S) → (S.width s ≡ maker.width) × (S.height s ≡ maker.height) }
    ensures sender { IsSameSender place.sender result.sender }
    ensures visits { HasVisits D.lets_in D.sees_off
        (λ source_old source_new sent_old sent_new why left.
        IsReceived S.looks S.cuts S.may_end (F.was_set stop.now)
        (λ fault. (fault ≡ QueueFull) ⊎ (fault ≡ NumbersOut)) S.known
        (setup_of maker.width maker.height maker.name.items maker.form maker.host) maker.role
        source_old source_new sent_old sent_new why left)
        (at place.door place.watcher (inputs_of place.sender))
        (at result.door result.watcher (inputs_of result.sender)) }
    ensures promise { KeepsPromise D.lets_in D.sees_off S.known
        (setup_of maker.width maker.height maker.name.items maker.form maker.host)
        maker.role (at place.door place.watcher (inputs_of place.sender))
        (at result.door result.watcher (inputs_of result.sender)) }
{
    match maker.role {
        Role::View => {
            let Place {
                door,
                watcher,
                sender,
            } = place;
            let sink = NoSender::of(&sender);
            let (door, watcher) = show_viewers(&rt, &maker, door, watcher, sink, stop);
            Place {
                door,
                watcher,
                sender,
            }
        }
        Role::Full => {
            // A brand names this one sender, so that the sink which comes back is known to be it.
            let rest = Nap { clock: rt };
            serve_from::<Brand, S, D, W, F, Nap<R>, R>(&rt, &maker, place, alarm, stop, &rest)
        }
    }
}

/// Starts the thread of a place. It fails where memory is refused, or no thread can be made (`Memory`).
pub(crate) fn start_place<S, D, B, W, R>(
    context: &RunContext<R, B, W>,
    maker: SessionMaker,
    place: Place<S, D, R>,
) -> Result<PlaceHandle<S, D, R>, Fault>
where
    S: ScreenSource + Drop + Send + 'static,
    D: Door + Send + 'static,
    B: Alarm + Drop + Send + Sync + 'static,
    W: Alarm + Drop + Send + Sync + 'static,
    R: Threads + Wait + Clock + Copy + Drop + Send + 'static,
    requires { (s : S) → (S.width s ≡ maker.width) × (S.height s ≡ maker.height) }
    ensures maker { IfOk result (λ handle. (handle.promise.role ≡ maker.role)
        × (handle.promise.width ≡ maker.width) × (handle.promise.height ≡ maker.height)
        × (handle.promise.name.value.items ≡ maker.name.items) × (handle.promise.form ≡ maker.form)
        × (handle.promise.host ≡ maker.host)) }
    ensures ends { IfOk result (λ handle. (handle.promise.door.value ≡ place.door)
        × (handle.promise.watcher.value ≡ place.watcher)
        × (handle.promise.sender.value ≡ place.sender)) }
    ensures err { IfErr result (λ fault. fault ≡ Memory) }
{
    let rt = context.rt;
    let alarm = Arc::try_clone(&context.shared.writer)?;
    let stop: Arc<Stop<Arc<B, Global>>, Global> = Arc::try_clone(&context.stop)?;
    let promise = OfPlace {
        role: maker.role,
        width: maker.width,
        height: maker.height,
        name: Snapshot::of(&maker.name),
        form: maker.form,
        host: maker.host,
        door: Snapshot::of(&place.door),
        watcher: Snapshot::of(&place.watcher),
        sender: Snapshot::of(&place.sender),
    };
    let started = Builder::new().stack_size(STACK).spawn_with(
        &rt,
        promise,
        move || -> Place<S, D, R>
            requires { (s : S) → (S.width s ≡ maker.width) × (S.height s ≡ maker.height) }
            ensures sender { IsSameSender place.sender result.sender }
            ensures visits { HasVisits D.lets_in D.sees_off
                (λ source_old source_new sent_old sent_new why left.
                IsReceived S.looks S.cuts S.may_end ⊤
                (λ fault. (fault ≡ QueueFull) ⊎ (fault ≡ NumbersOut)) S.known
                (setup_of maker.width maker.height maker.name.items maker.form maker.host)
                maker.role source_old source_new sent_old sent_new why left)
                (at place.door place.watcher (inputs_of place.sender))
                (at result.door result.watcher (inputs_of result.sender)) }
            ensures promise { KeepsPromise D.lets_in D.sees_off S.known
                (setup_of maker.width maker.height maker.name.items maker.form maker.host)
                maker.role (at place.door place.watcher (inputs_of place.sender))
                (at result.door result.watcher (inputs_of result.sender)) }
        { keep(rt, maker, place, alarm, &*stop) },
    );
    match started {
        Ok(handle) => Ok(handle),
        Err(_) => Err(Fault::Memory),
    }
}
