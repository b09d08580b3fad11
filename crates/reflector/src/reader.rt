//! The thread that reads the hosts.

ghost use Rattle.std.specs.Prelude.{◌≡◌, ◌<◌, true, None, [], map, vec_capacity, IfOk, IfErr};
ghost use Rattle.fault.specs.declared.kinds.Fault.TheVariants.{Memory};
ghost use Rattle.raster.specs.Screen.{opening};
ghost use Rattle.host_decoder.specs.Decoder.{Decodes, IsFor, host_message};
ghost use Rattle.host_turns.specs.Running.{HasRun, IsComing, IsOver, came_over, goes_on};

use fault::Fault;
use host_decoder::HostScreen;
use host_turns::{
    Ending, FirstHost, Handover, Hosts, JoinedRun, RunBeginning, RunScreen, read_all,
};
use link::Link;
use reflect_core::Puts;
use run_traits::{Alarm, Ringing};
use std::alloc::Global;
use std::snapshot::Snapshot;
use std::sync::{Arc, Wait};
use std::thread;
use std::thread::{Promise, PromisedHandle, Threads};
use vnc_auth::Password;

/// What reading the hosts came to.
#[derive(Drop)]
pub(crate) struct HostsRead<L: Link, H: Hosts<L>, P: Drop> {
    pub(crate) last: Ending,
    pub(crate) hosts: H,
    pub(crate) links: Vec<L>,
    pub(crate) publisher: P,
}

/// The promise of the thread that reads the hosts: this link was read to its end, then the links of further hosts in
/// turn, and the updates that they brought were put to this publisher. Where the first host has its turn again, the
/// thread ended only because a host ended in such a way that no other is taken.
#[derive(Drop)]
pub(crate) struct OfHosts<L: Link, H: Hosts<L>, P: Puts> {
    pub(crate) width: u64,
    pub(crate) height: u64,
    pub(crate) password: Option<Password>,
    pub(crate) has_called: bool,
    pub(crate) link: Snapshot<L>,
    pub(crate) publisher: Snapshot<P>,
    pub(crate) hosts: Snapshot<H>,
}

impl<L: Link, H: Hosts<L>, P: Puts + Drop> Promise<HostsRead<L, H, P>> for OfHosts<L, H, P> {
    ghost use Rattle.std.specs.Prelude.{◌≡◌, true, None, map};
    ghost use Rattle.host_turns.specs.Running.{HasRun, IsComing, IsOver, came_over, goes_on};

    ghost kept_by = { λ promise read.
        HasRun promise.width promise.height promise.password (IsComing L.state H.came) read.last
        (came_over promise.has_called (L.state promise.link.value)) (map L.state read.links.items)
        (P.updates promise.publisher.value) (P.updates read.publisher)
        × IsOver H.are_out read.hosts read.last
        × (goes_on read.last ≡ true → H.again promise.hosts.value ≡ None) };
}

/// The thread that reads the hosts.
pub(crate) type ReaderHandle<L, H, P> = PromisedHandle<HostsRead<L, H, P>, OfHosts<L, H, P>>;

/// The hosts of a run, for the thread that reads them: the link of the first one, which was joined, whether that has
/// called, where the others come from, and the publisher to which the updates of all are put.
#[derive(Drop)]
pub(crate) struct HostsToRead<L: Link, H: Hosts<L>, P: Drop> {
    pub(crate) link: L,
    pub(crate) has_called: bool,
    pub(crate) hosts: H,
    pub(crate) publisher: P,
}

/// What the thread begins with: the hosts, what reads the first one, and room for one link.
#[derive(Drop)]
struct Begun<L: Link, H: Hosts<L>, P: Drop> {
    run_screen: RunScreen,
    to_read: HostsToRead<L, H, P>,
    screen: HostScreen,
    links: Vec<L>,
}

/// Reads the hosts, and rings the alarm after each put.
fn read<L: Link, H: Hosts<L>, P: Puts + Drop, B: Alarm + Drop, W: Alarm + Drop, R: Wait>(
    rt: &R,
    begun: Begun<L, H, P>,
    alarm: B,
    handover: &Handover<L, W>,
) -> HostsRead<L, H, P>
    requires room { (begun.links.items ≡ []) × (0 < vec_capacity begun.links) }
    requires size { (begun.screen.decoder.width ≡ begun.run_screen.width)
        × (begun.screen.decoder.height ≡ begun.run_screen.height) }
    requires begins { Decodes begun.screen.decoder begun.screen.painter opening
        (host_message begun.run_screen.width begun.run_screen.height) }
    requires pair { IsFor begun.screen.decoder begun.screen.painter }
    requires publisher { (P.width begun.to_read.publisher ≡ begun.run_screen.width)
        × (P.height begun.to_read.publisher ≡ begun.run_screen.height) }
    ensures run { HasRun begun.run_screen.width begun.run_screen.height begun.run_screen.password
        (IsComing L.state H.came) result.last
        (came_over begun.to_read.has_called (L.state begun.to_read.link))
        (map L.state result.links.items) (P.updates begun.to_read.publisher)
        (P.updates result.publisher) }
    ensures over { IsOver H.are_out result.hosts result.last }
    ensures never { goes_on result.last ≡ true → H.again begun.to_read.hosts ≡ None }
{
    let Begun {
        run_screen,
        to_read,
        screen,
        links,
    } = begun;
    let HostsToRead {
        link,
        has_called,
        hosts,
        publisher,
    } = to_read;
    let ringing = Ringing {
        inner: publisher,
        alarm,
    };
    let first = RunBeginning::of(has_called, &link, &hosts, &ringing);
    let host = FirstHost {
        reader: link,
        has_called,
        screen,
        links,
    };
    let run = JoinedRun::new(&first, &run_screen, handover, host, hosts, ringing);
    let ended = read_all(rt, run);
    let (last, hosts, links, ringing) = ended.into_parts(());
    let Ringing { inner, alarm: _ } = ringing;
    HostsRead {
        last,
        hosts,
        links,
        publisher: inner,
    }
}

/// Starts the thread that reads the hosts. It fails where memory is refused, or no thread can be made (`Memory`).
pub(crate) fn start_reader<L, H, P, B, W, R>(
    rt: R,
    run_screen: RunScreen,
    to_read: HostsToRead<L, H, P>,
    alarm: B,
    handover: Arc<Handover<L, W>, Global>,
) -> Result<ReaderHandle<L, H, P>, Fault>
where
    L: Link + Send + 'static,
    H: Hosts<L> + Send + 'static,
    P: Puts + Drop + Send + 'static,
    B: Alarm + Drop + Send + 'static,
    W: Alarm + Drop + Send + Sync + 'static,
    R: Threads + Wait + Copy + Drop + Send + 'static,
    requires { (P.width to_read.publisher ≡ run_screen.width)
        × (P.height to_read.publisher ≡ run_screen.height) }
    ensures of { IfOk result (λ handle.
        (handle.promise.width ≡ run_screen.width) × (handle.promise.height ≡ run_screen.height)
        × (handle.promise.password ≡ run_screen.password)
        × (handle.promise.has_called ≡ to_read.has_called)
        × (handle.promise.link.value ≡ to_read.link)
        × (handle.promise.publisher.value ≡ to_read.publisher)
        × (handle.promise.hosts.value ≡ to_read.hosts)) }
    ensures err { IfErr result (λ fault. fault ≡ Memory) }
{
    let promise = OfHosts {
        width: run_screen.width,
        height: run_screen.height,
        password: run_screen.password,
        has_called: to_read.has_called,
        link: Snapshot::of(&to_read.link),
        publisher: Snapshot::of(&to_read.publisher),
        hosts: Snapshot::of(&to_read.hosts),
    };
    let begun = Begun {
        run_screen,
        to_read,
        screen: HostScreen::new(run_screen.alloc, run_screen.width, run_screen.height)?,
        links: Vec::with_capacity(run_screen.alloc, 1)?,
    };
    let started = thread::spawn_with(
        &rt,
        promise,
        move ||
            requires room { (begun.links.items ≡ []) × (0 < vec_capacity begun.links) }
            requires size { (begun.screen.decoder.width ≡ begun.run_screen.width)
                × (begun.screen.decoder.height ≡ begun.run_screen.height) }
            requires begins { Decodes begun.screen.decoder begun.screen.painter opening
                (host_message begun.run_screen.width begun.run_screen.height) }
            requires pair { IsFor begun.screen.decoder begun.screen.painter }
            requires publisher { (P.width begun.to_read.publisher ≡ begun.run_screen.width)
                × (P.height begun.to_read.publisher ≡ begun.run_screen.height) }
        { read(&rt, begun, alarm, &*handover) },
    );
    match started {
        Ok(handle) => Ok(handle),
        Err(_) => Err(Fault::Memory),
    }
}
