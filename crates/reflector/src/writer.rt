//! The thread that tells the hosts.

ghost use Rattle.std.specs.Prelude.{◌≡◌, [], IfOk, IfErr};
ghost use Rattle.fault.specs.declared.kinds.Fault.TheVariants.{Memory};
ghost use Rattle.raster.specs.Size.{IsScreenSize};
ghost use Rattle.input_relay.specs.Ends.{host_of, taken_of};
ghost use Rattle.host_writer.specs.Dropping.{IsCounted};
ghost use Rattle.reflector.specs.Tellings.{HasTold, desk};
ghost use Rattle.run_traits.specs.LinkTrails.{links_in};

use crate::context::RunContext;
use crate::handover_taker::HandoverTaker;
use crate::input_counts::{DropCounter, InputCounts};
use crate::teller::{FreeTeller, TellerBeginning};
use fault::Fault;
use host_turns::Handover;
use host_writer::{DropCount, InputSource, run_writer};
use input_relay::Taker;
use link::{Link, Rest};
use reflect_core::ScreenSource;
use roles::Strokes;
use run_traits::{Alarm, LinkTrail};
use std::alloc::Global;
use std::snapshot::Snapshot;
use std::sync::{Arc, Wait};
use std::thread;
use std::thread::{Promise, PromisedHandle, Threads};

/// What the thread that tells the hosts is given: the hosts that are handed over, the source of the looks, the taker of
/// the viewers' input, the strokes by which that is judged, and where others read how much was dropped.
#[derive(Drop)]
struct HostsToTell<L: Link, W: Alarm + Drop, S, R: Wait + Drop> {
    handed: HandoverTaker<L, W>,
    source: S,
    taker: Taker<R>,
    strokes: Strokes,
    input: Arc<InputCounts, Global>,
}

/// What telling the hosts came to: the links over which they were told, the taker of the viewers' input, whose key or
/// button is down after all that was taken, and how many inputs of all places were dropped.
#[derive(Drop)]
pub(crate) struct HostsTold<L, R: Wait + Drop> {
    pub(crate) told_links: LinkTrail<L>,
    pub(crate) taker: Taker<R>,
    pub(crate) strokes: Strokes,
    pub(crate) dropped: u64,
}

/// The promise of the thread that tells the hosts: it gives back the taker with which it began, after it told one host
/// after another what the taker took, and it counted every dropped input.
#[derive(Drop)]
pub(crate) struct OfTaker<S, R: Wait + Drop> {
    pub(crate) source: Snapshot<S>,
    pub(crate) taker: Snapshot<Taker<R>>,
    pub(crate) strokes: Snapshot<Strokes>,
}

impl<L: Link, S: ScreenSource, R: Wait + Drop> Promise<HostsTold<L, R>> for OfTaker<S, R> {
    ghost use Rattle.std.specs.Prelude.{◌≡◌, []};
    ghost use Rattle.input_relay.specs.Ends.{host_of, taken_of};
    ghost use Rattle.host_writer.specs.Dropping.{IsCounted};
    ghost use Rattle.reflector.specs.Tellings.{HasTold, desk};
    ghost use Rattle.run_traits.specs.LinkTrails.{links_in};

    ghost kept_by = { λ promise told. (host_of told.taker ≡ host_of promise.taker.value)
        × (IsCounted (taken_of promise.taker.value) promise.strokes.value 0
        → IsCounted (taken_of told.taker) told.strokes told.dropped)
        × HasTold S.looks S.width S.height
        (desk [] promise.source.value (taken_of promise.taker.value) promise.strokes.value)
        (links_in L.state told.told_links) (taken_of told.taker) told.strokes };
}

/// The thread that tells the hosts.
pub(crate) type WriterHandle<L, S, R> = PromisedHandle<HostsTold<L, R>, OfTaker<S, R>>;

/// Tells one host after another, each until it is left or its link ends. The rest of the input goes on to the next
/// host. A fault of a link isn't answered here, since the reader's link shows it.
///
/// Of what matters it is given the teller alone, and then lent the telling of each host.
fn tell_each<'a, L, W, S, K, D, T, Z, R>(
    rt: &R,
    free: FreeTeller<'a, L, S, K, D, T>,
    handed: &HandoverTaker<L, W>,
    rest: &Z,
) -> FreeTeller<'a, L, S, K, D, T>
where
    L: Link,
    W: Alarm + Drop,
    S: ScreenSource,
    K: InputSource,
    D: DropCount,
    T: Drop,
    Z: Rest,
    R: Wait,
    ensures relay { K.relay result.taker ≡ K.relay free.entry.taker }
    ensures counted { IsCounted (K.taken free.entry.taker)
        free.entry.strokes (D.dropped free.entry.drops)
        → IsCounted (K.taken result.taker) result.strokes (D.dropped result.drops) }
    ensures told { HasTold S.looks S.width S.height (desk (links_in L.state free.entry.told_links)
        free.entry.source (K.taken free.entry.taker) free.entry.strokes)
        (links_in L.state result.told_links) (K.taken result.taker) result.strokes }
{
    let mut idle = free;
    for _ in rt.forever() {
        let Some(came) = handed.next(rt) else {
            return idle;
        };
        let left_flag = handed.left_flag(&came);
        let began = idle.beginning(&came);
        let (busy, mut telling) = idle.meet(came, &began);
        let why = run_writer(rt, &mut telling, &left_flag, rest);
        idle = busy.close(telling, why);
    }
    unreachable!()
}

/// Tells the hosts whose links are handed over, as `tell_each` does.
fn tell<L: Link, W: Alarm + Drop, S: ScreenSource + Drop, Z: Rest, R: Wait + Drop>(
    rt: &R,
    to_tell: HostsToTell<L, W, S, R>,
    rest: &Z,
) -> HostsTold<L, R>
    requires { (s : S) → IsScreenSize (S.width s) (S.height s) }
    ensures relay { host_of result.taker ≡ host_of to_tell.taker }
    ensures counted { IsCounted (taken_of to_tell.taker) to_tell.strokes 0
        → IsCounted (taken_of result.taker) result.strokes result.dropped }
    ensures told { HasTold S.looks S.width S.height
        (desk [] to_tell.source (taken_of to_tell.taker) to_tell.strokes)
        (links_in L.state result.told_links) (taken_of result.taker) result.strokes }
{
    let HostsToTell {
        handed,
        source,
        taker,
        strokes,
        input,
    } = to_tell;
    let drops = DropCounter::new(input);
    let first = TellerBeginning::of(&source, &taker, &strokes, &drops);
    let free = FreeTeller::new(&first, source, taker, strokes, drops);
    let left = tell_each(rt, free, &handed, rest);
    let (_, taker, strokes, drops, told_links) = left.into_parts(());
    HostsTold {
        told_links,
        taker,
        strokes,
        dropped: drops.count,
    }
}

/// A thread that tells the hosts whose links are handed over. It fails where no thread can be made (`Memory`).
fn tell_beside<L, S, Z, W, R>(
    rt: R,
    rest: Arc<Z, Global>,
    to_tell: HostsToTell<L, W, S, R>,
) -> Result<WriterHandle<L, S, R>, Fault>
where
    L: Link + Send + 'static,
    S: ScreenSource + Drop + Send + 'static,
    Z: Rest + Drop + Send + Sync + 'static,
    W: Alarm + Drop + Send + Sync + 'static,
    R: Threads + Wait + Copy + Drop + Send + 'static,
    requires { (s : S) → IsScreenSize (S.width s) (S.height s) }
    ensures of { IfOk result (λ handle. (handle.promise.source.value ≡ to_tell.source)
        × (handle.promise.taker.value ≡ to_tell.taker)
        × (handle.promise.strokes.value ≡ to_tell.strokes)) }
    ensures err { IfErr result (λ fault. fault ≡ Memory) }
{
    let promise = OfTaker {
        source: Snapshot::of(&to_tell.source),
        taker: Snapshot::of(&to_tell.taker),
        strokes: Snapshot::of(&to_tell.strokes),
    };
    let started = thread::spawn_with(
        &rt,
        promise,
        move || -> HostsTold<L, R>
            requires { (s : S) → IsScreenSize (S.width s) (S.height s) }
            ensures relay { host_of result.taker ≡ host_of to_tell.taker }
            ensures counted { IsCounted (taken_of to_tell.taker) to_tell.strokes 0
                → IsCounted (taken_of result.taker) result.strokes result.dropped }
            ensures told { HasTold S.looks S.width S.height
                (desk [] to_tell.source (taken_of to_tell.taker) to_tell.strokes)
                (links_in L.state result.told_links) (taken_of result.taker) result.strokes }
        { tell(&rt, to_tell, &*rest) },
    );
    match started {
        Ok(handle) => Ok(handle),
        Err(_) => Err(Fault::Memory),
    }
}

/// Starts the thread that tells the hosts. It fails where memory is refused, or no thread can be made (`Memory`).
pub(crate) fn start_writer<L, S, B, W, R>(
    context: &RunContext<R, B, W>,
    handover: Arc<Handover<L, W>, Global>,
    source: S,
    taker: Taker<R>,
    strokes: Strokes,
) -> Result<WriterHandle<L, S, R>, Fault>
where
    L: Link + Send + 'static,
    S: ScreenSource + Drop + Send + 'static,
    B: Alarm + Drop + Send + Sync + 'static,
    W: Alarm + Rest + Drop + Send + Sync + 'static,
    R: Threads + Wait + Copy + Drop + Send + 'static,
    requires { (s : S) → IsScreenSize (S.width s) (S.height s) }
    ensures of { IfOk result (λ handle. (handle.promise.source.value ≡ source)
        × (handle.promise.taker.value ≡ taker) × (handle.promise.strokes.value ≡ strokes)) }
    ensures err { IfErr result (λ fault. fault ≡ Memory) }
{
    let rest = Arc::try_clone(&context.shared.writer)?;
    let to_tell = HostsToTell {
        handed: HandoverTaker::new(handover),
        source,
        taker,
        strokes,
        input: Arc::try_clone(&context.shared.input)?,
    };
    tell_beside(context.rt, rest, to_tell)
}
