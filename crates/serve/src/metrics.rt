//! Where machines read a run's numbers.

ghost use Rattle.std.specs.Prelude.{◌≡◌, IfOk, is_some};
ghost use Rattle.settings.specs.ByRole.{HasPlaces};
ghost use Rattle.serve.specs.Doors.{AreBoth};
ghost use Rattle.serve.specs.Numbers.{IsWatched};
ghost use Rattle.serve.specs.Ports.{AsksForAll, AsksForMetrics};
ghost use Rattle.serve.specs.Runs.{IsEndBy};

use crate::bound::Ports;
use crate::callers::open_callers;
use crate::counters::{Inputs, counters_of, inputs_of, places_by_role, recorded_of};
use crate::ended::Ended;
use crate::entries::open_all;
use crate::incident::{Incident, RunLog};
use crate::means::Means;
use crate::password::password_of;
use crate::run::{OpenedRun, run};
use crate::runtime::{REQUEST_STACK, Runtime};
use crate::sentry::Sentry;
use crate::tape::{standing_of, tape_of};
use crate::trouble::{Stage, Trouble};
use connections::{Desk, RunCard};
use fault::Fault;
use metrics_site::{Watched, answer_one};
use recorder::Recording;
use reflector::InputCounts;
use run_control::Entry;
use run_reports::{ByRole, EventCounts, RecordingCounts};
use settings::{Settings, metrics_address_of};
use std::alloc::{AllocError, AllocGlobal, Global};
use std::fs::File;
use std::hash::RandomState;
use std::net::{Net, TcpListener, TcpStream};
use std::random::RandomSource;
use std::rt::Files;
use std::sync::{Arc, Wait};
use std::thread::{Builder, Threads};
use std::time::{Clock, Duration, Instant};
use std::{io, thread};

/// A machine has so many seconds for its request, and to take the answer. One is answered after another.
const PATIENCE_SECONDS: u64 = 2;

/// For how long nobody is answered after the system refused a connection, in milliseconds.
const PAUSE_MILLIS: u64 = 100;

/// Listens for machines that watch the run, if the settings have an address for that, and tells the log where.
#[tactic(auto, using(crate::proofs::Asking::asks_for_metrics))]
fn open_metrics<R: Net<Stream = TcpStream, Listener = TcpListener>, G: RunLog>(
    rt: &R,
    settings: &Settings,
    ports: &mut Ports,
    log: &G,
) -> Result<Option<TcpListener>, Trouble>
    ensures asked { AsksForMetrics settings.now ports.old ports.new }
    ensures heard { IfOk result (λ listener. is_some listener ≡ is_some settings.now.metrics) }
{
    let Some(address) = metrics_address_of(settings) else {
        return Ok(None);
    };
    let Ok(address) = address else {
        return Err(Trouble::new(Stage::ReadMetrics, Fault::LinkFailed));
    };
    match ports.listen(rt, address) {
        Ok(listener) => {
            log.note_incident(&Incident::MetricsListening(address));
            Ok(Some(listener))
        }
        Err(error) => Err(Trouble::of(Stage::ListenMetrics, error)),
    }
}

/// What a run begins with, and where machines are answered meanwhile, if they are.
#[derive(Drop)]
pub(crate) struct Opened<'a> {
    pub(crate) run: OpenedRun<'a>,
    machines: Option<TcpListener>,
}

/// Reads the hosts' password, if there is one, then listens for people, for machines, and for hosts that call, and at
/// last makes the files of the recording, if there is to be one.
#[tactic(auto, using(crate::proofs::Asking::nobody, crate::proofs::Asking::people_alone, crate::proofs::Asking::machines_too, crate::proofs::Asking::with_hosts))]
pub(crate) fn open_ports<'a, R, G>(
    means: &Means<'_, R, G>,
    settings: &'a Settings,
    ports: &mut Ports,
) -> Result<Opened<'a>, Trouble>
where
    R: Net<Stream = TcpStream, Listener = TcpListener>
        + Files<File = File>
        + Clock
        + AllocGlobal
        + Copy
        + Drop,
    G: RunLog,
    ensures asked { AsksForAll settings.now ports.old ports.new }
    ensures both { IfOk result (λ opened.
        AreBoth settings.now opened.run.entrances.full opened.run.entrances.view) }
    ensures password { IfOk result (λ opened.
        is_some opened.run.password ≡ is_some settings.now.host_password) }
    ensures machines { IfOk result (λ opened.
        is_some opened.machines ≡ is_some settings.now.metrics) }
    ensures tape { IfOk result (λ opened.
        is_some opened.run.tape ≡ is_some settings.now.recording) }
{
    let password = password_of(means.rt, means.alloc, settings)?;
    let entrances = open_all(means, settings, ports)?;
    let machines = open_metrics(means.rt, settings, ports, means.log)?;
    let callers = open_callers(means.rt, means.alloc, settings, ports, means.log)?;
    let tape = tape_of(means.rt, means.alloc, settings)?;
    let run = OpenedRun {
        password,
        entrances,
        callers,
        tape,
    };
    Ok(Opened { run, machines })
}

/// What a machine is answered from, of a run that stands so, in which that has happened, with these places and inputs,
/// and this recording. It fails where memory is refused for that.
fn watched_of(
    alloc: Global,
    run_card: &RunCard,
    counts: &EventCounts,
    places: ByRole,
    inputs: Inputs,
    recorded: RecordingCounts,
) -> Result<Watched, AllocError>
    ensures { IfOk result (λ watched.
        IsWatched run_card.entry.now counts.now places inputs recorded watched) }
{
    let counters = counters_of(alloc, run_card, counts, places, inputs, recorded)?;
    let is_drained = run_card.entry != Entry::Open;
    Ok(Watched::new(alloc, counters, is_drained))
}

/// What machines are answered from.
#[derive(Drop)]
struct Sources<R: Eprint + Clock + Wait + Drop> {
    alloc: Global,
    desk: Arc<Desk, Global>,
    sentry: Sentry<R>,
    input: Arc<InputCounts, Global>,
    recording: Option<Arc<Recording, Global>>,
    places: ByRole,
    keys: RandomState,
}

impl<R: Eprint + Clock + Wait + Drop> Sources<R> {
    /// The run as it stands now. It fails where memory is refused for that.
    fn look(&self, rt: &R) -> io::Result<Watched> {
        let run_card = self.desk.look(rt, self.alloc)?;
        let counts = self.sentry.counts();
        let inputs = inputs_of(rt, &self.input);
        let recorded = recorded_of(rt, &self.recording);
        Ok(watched_of(
            self.alloc,
            &run_card,
            &counts,
            self.places,
            inputs,
            recorded,
        )?)
    }

    /// Answers one machine that has connected.
    fn attend(&self, rt: &R, stream: &TcpStream) -> io::Result<()> {
        let patience = Duration::from_secs(PATIENCE_SECONDS);
        stream.set_read_timeout(Some(patience))?;
        stream.set_write_timeout(Some(patience))?;
        let Some(until) = Instant::now(rt)?.checked_add(patience) else {
            return Ok(());
        };
        let watched = self.look(rt)?;
        answer_one(rt, self.alloc, self.keys, &watched, (stream, stream), until)
    }

    /// Answers one machine after another. The peer chooses the names of fields, so maps of them are hashed with secret
    /// keys.
    fn keep(&self, rt: &R, listener: &TcpListener) {
        for stream in listener.incoming() {
            match stream {
                // A machine that got no answer can ask again.
                Ok(stream) => drop(self.attend(rt, &stream)),
                Err(_) => thread::sleep(rt, Duration::from_millis(PAUSE_MILLIS)),
            }
        }
    }
}

/// Starts the thread that answers machines, if there is a listener for them.
fn start_metrics<R>(
    means: &Means<'_, R, Sentry<R>>,
    settings: &Settings,
    listener: Option<TcpListener>,
    desk: &Arc<Desk, Global>,
    input: &Arc<InputCounts, Global>,
    recording: Option<Arc<Recording, Global>>,
) -> Result<(), Trouble>
where
    R: Eprint + Threads + Wait + Clock + RandomSource + Copy + Drop + Send + 'static,
{
    let Some(listener) = listener else {
        return Ok(());
    };
    let rt = *means.rt;
    let Ok(desk) = Arc::try_clone(desk) else {
        return Err(Trouble::new(Stage::Start, Fault::Memory));
    };
    let Ok(input) = Arc::try_clone(input) else {
        return Err(Trouble::new(Stage::Start, Fault::Memory));
    };
    let Ok(sentry) = means.log.clone() else {
        return Err(Trouble::new(Stage::Start, Fault::Memory));
    };
    let keys = match RandomState::new(&rt) {
        Ok(keys) => keys,
        Err(error) => return Err(Trouble::of(Stage::Start, error)),
    };
    let sources = Sources {
        alloc: means.alloc,
        desk,
        sentry,
        input,
        recording,
        places: places_by_role(settings),
        keys,
    };
    let started = Builder::new()
        .stack_size(REQUEST_STACK)
        .spawn(&rt, move || sources.keep(&rt, &listener));
    match started {
        Ok(_clerk) => Ok(()),
        Err(error) => Err(Trouble::of(Stage::Start, error)),
    }
}

/// Reflects the hosts of the settings for viewers that come in by these ports, and answers machines meanwhile, if there
/// is a port for them.
pub(crate) fn run_watched<R>(
    means: &Means<'_, R, Sentry<R>>,
    settings: &Settings,
    opened: Opened<'_>,
) -> Result<Ended, Trouble>
where
    R: Runtime + Eprint + Files<File = File>,
    requires places { HasPlaces settings.now }
    requires password { is_some opened.run.password ≡ is_some settings.now.host_password }
    requires entries { AreBoth settings.now opened.run.entrances.full opened.run.entrances.view }
    requires tape { is_some opened.run.tape ≡ is_some settings.now.recording }
    ensures { IfOk result (λ ended. IsEndBy settings.now ended) }
{
    let Opened {
        run: opened,
        machines,
    } = opened;
    let Ok(input) = Arc::new(means.alloc, InputCounts::new()) else {
        return Err(Trouble::new(Stage::Start, Fault::Memory));
    };
    let desk = opened.entrances.view.lobby.desk();
    let recording = standing_of(&opened.tape)?;
    start_metrics(means, settings, machines, desk, &input, recording)?;
    run(means, settings, opened, input)
}
