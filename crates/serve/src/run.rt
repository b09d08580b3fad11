//! A run, from its first port to its end.

ghost use Rattle.std.specs.Prelude.{◌≡◌, ◌≤◌, ◌∷◌, true, false, None, All, IfOk, is_some, length, map};
ghost use Rattle.std.specs.String.{string_bytes};
ghost use Rattle.raster.specs.Size.{IsScreenSize};
ghost use Rattle.host_turns.specs.Running.{goes_on};
ghost use Rattle.link.specs.Joins.{Joins};
ghost use Rattle.run_traits.specs.Unused.{unused};
ghost use Rattle.settings.specs.ByRole.{HasPlaces};
ghost use Rattle.settings.specs.Rooms.{FitsInto, IsRoomFor};
ghost use Rattle.reflector.specs.Course.{IsReflected};
ghost use Rattle.serve.specs.Hosts.{HasRecording, end_state, is_untimed};
ghost use Rattle.serve.specs.Turns.{endless};
ghost use Rattle.serve.specs.Runs.{CountsAs, IsEndBy, IsRunBy, roles_for};
ghost use Rattle.serve.specs.Doors.{AreDoorsFor, AreBoth, roles_in};

use crate::control::Control;
use crate::ended::{Ended, PlayedEnd, Reflected};
use crate::entries::Entrances;
use crate::form::form_of;
use crate::halls::welcome;
use crate::host_end::HostEnd;
use crate::host_text::texts_of;
use crate::incident::RunLog;
use crate::means::Means;
use crate::meet::{Met, Terms};
use crate::order::StopOrder;
use crate::rooms::{Rooms, all_doors, everyone_of, rooms_of};
use crate::runtime::Runtime;
use crate::start::{RunReach, control_of, lifeline_of, was_cut};
use crate::supply::{NamedHosts, Supply};
use crate::tape::{Recorder, Tape, clear, recorder_of, standing_of};
use crate::trouble::{Stage, Trouble};
use crate::web::shared;
use crate::writer_reach::WriterReach;
use connections::{Desk, HostListener, Seat, WriterSeat};
use fault::Fault;
use host_turns::{Ending, HostEnds, RunScreen};
use link::Rest;
use play_control::Speed;
use player::Player;
use reflector::{InputCounts, RunHosts, RunPlaces, RunShared, Running, run_all};
use rfb_wire::Joined;
use roles::Role;
use run_traits::{Alarm, Door, Log};
use settings::{Settings, recording_path, room_of};
use shared_screen::{Naming, Opened, Publishes};
use std::alloc::{AllocError, Global};
use std::marker::Brand;
use std::net::{Net, TcpListener, TcpStream};
use std::sync::{Arc, Wait};
use std::time::Clock;
use vnc_auth::Password;

/// A recording's own speed.
const OWN_SPEED: Speed = Speed { hundredths: 100 };

/// The run over a history that J names, in this room. Its first host, which fits, was joined over the end that is read,
/// and given nothing over the other. What J names doesn't leave this call: what is handed out says in plain lists what
/// the run was.
fn over<J, D, B, W, G, R>(
    rt: R,
    room: RunScreen,
    history: Opened<J>,
    hosts: RunHosts<HostEnd<R>, Supply<R, G>>,
    places: RunPlaces<D>,
    shared: RunShared<B, W>,
) -> Result<Reflected, Fault>
where
    J: Naming + Publishes + Send + Sync + 'static,
    D: Door + Send + 'static,
    B: Alarm + Drop + Send + Sync + 'static,
    W: Alarm + Rest + Drop + Send + Sync + 'static,
    G: RunLog + Drop + Send + 'static,
    R: Runtime,
    requires history { history.seen.book ≡ J.book }
    requires fits { (hosts.joined.w ≤ room.width) × (hosts.joined.h ≤ room.height) }
    requires size { (room.width ≡ J.width) × (room.height ≡ J.height) }
    requires doors { (1 ≤ length places.doors.items) × (length places.doors.items ≤ 65) }
    requires roles { All (λ door. D.is_for door.1 door.0) places.doors.items }
    requires joins { ∥ Joins room.password unused (end_state hosts.first.reader) hosts.joined ∥₁ }
    requires writer { end_state hosts.first.writer ≡ unused }
    ensures reflected { IfOk result (λ run. IsReflected run.ran.course) }
    ensures room { IfOk result (λ run.
        (run.ran.course.host ≡ hosts.joined) × (run.ran.course.room_width ≡ room.width)
        × (run.ran.course.room_height ≡ room.height) × (run.ran.course.password ≡ room.password)) }
    ensures roles { IfOk result (λ run.
        run.ran.course.roles ≡ map (λ door. door.0) places.doors.items) }
    ensures form { IfOk result (λ run. run.ran.course.form ≡ places.form) }
    ensures last { IfOk result (λ run. run.last ≡ run.ran.course.last_end) }
    ensures never { IfOk result (λ run.
        goes_on run.last ≡ true
        → endless (is_some hosts.further.lifeline) hosts.further.turns.again ≡ None) }
{
    let Running {
        ran,
        last,
        links: _links,
        hosts: supply,
        publisher: _publisher,
        taker: _taker,
        strokes: _strokes,
        dropped: _dropped,
        told_links: _told_links,
        places: _places,
    } = run_all::<J, _, _, D, B, W, R>(rt, room, history, hosts, places, shared)?;
    let played = supply.last_end;
    Ok(Reflected { last, played, ran })
}

/// The room of a run, whose first host was joined so, and the password that its hosts may ask for.
fn run_screen_of(
    alloc: Global,
    settings: &Settings,
    joined: &Joined,
    password: Option<Password>,
) -> RunScreen
    requires size { IsScreenSize joined.now.w joined.now.h }
    requires fits { FitsInto settings.now.room joined.now.w joined.now.h }
    ensures room { IsRoomFor settings.now joined.now.w joined.now.h result.width result.height }
    ensures fits { (joined.now.w ≤ result.width) × (joined.now.h ≤ result.height) }
    ensures password { result.password ≡ password }
{
    let room = room_of(settings, joined.w, joined.h);
    RunScreen {
        alloc,
        width: room.width,
        height: room.height,
        password,
    }
}

/// The doors of a run's places, and where its threads wait.
struct RunSeats<D: Door> {
    /// The door of each place, with the place's role.
    doors: Vec<(Role, D)>,
    /// Where the thread of each place waits.
    seats: Vec<Arc<Seat, Global>>,
    writer: WriterReach,
}

/// Starts all threads, with a place behind each of these doors, and waits until the last host has ended. It hands out
/// what reading or joining that host answered, with what shows that the run was run. Where the first host is to be
/// tried again, no end of a host is the last. The first host's links have no deadline; with one, the run would end ten
/// seconds after it began.
fn reflect<D, G, R>(
    rt: R,
    alloc: Global,
    settings: &Settings,
    supply: Supply<R, G>,
    met: Met<R>,
    run_seats: RunSeats<D>,
) -> Result<Reflected, Fault>
where
    D: Door + Send + 'static,
    G: RunLog + Drop + Send + 'static,
    R: Runtime,
    requires size { IsScreenSize met.joined.w met.joined.h }
    requires fits { FitsInto settings.now.room met.joined.w met.joined.h }
    requires password { is_some met.password ≡ is_some settings.now.host_password }
    requires untimed { (is_untimed met.reader ≡ true) × (is_untimed met.writer ≡ true) }
    requires places { HasPlaces settings.now }
    requires doors { roles_in run_seats.doors.items ≡ roles_for settings.now }
    requires roles { All (λ door. D.is_for door.1 door.0) run_seats.doors.items }
    requires again { endless (is_some supply.lifeline) supply.turns.again
        ≡ endless (is_some settings.now.control) settings.now.again }
    ensures { IfOk result (λ run. IsRunBy settings.now run) }
{
    let RunSeats {
        doors,
        seats,
        writer,
    } = run_seats;
    let WriterReach { seat, input } = writer;
    let everyone = everyone_of(alloc, &seat, seats, supply.desk.count())?;
    let run_screen = run_screen_of(alloc, settings, &met.joined, met.password);
    let Met {
        reader,
        writer: told,
        has_called,
        joined,
        password: _,
    } = met;
    let hosts = RunHosts {
        first: HostEnds {
            reader,
            writer: told,
            has_called,
        },
        joined,
        further: supply,
    };
    let places = RunPlaces {
        doors,
        form: form_of(settings),
    };
    let shared = RunShared {
        everyone,
        writer: seat,
        input,
    };
    over::<Brand, _, _, _, _, _>(rt, run_screen, Opened::new(), hosts, places, shared)
}

/// A run before its first host is met.
struct Prepared<
    'a,
    R: Net<Stream = TcpStream, Listener = TcpListener> + Wait + Clock + Copy + Drop + Send,
    G: RunLog + Drop + Send,
> {
    supply: Supply<R, G>,
    /// The password that hosts may ask for, if one is known.
    password: Option<Password>,
    entrances: Entrances<'a>,
    rooms: Rooms<R, G>,
    recorder: Option<Recorder<R, G>>,
    control: Option<Control>,
    writer: WriterReach,
}

/// Joins the first host, and reflects it and those that follow on it until the last ends, in these rooms. Then the
/// places are waited for, though not for long.
fn reflect_all<G, R>(
    means: &Means<'_, R, G>,
    settings: &Settings,
    prepared: Prepared<'_, R, G>,
) -> Result<Reflected, Trouble>
where
    G: RunLog + Clone + Drop + Send + 'static,
    R: Runtime,
    requires places { HasPlaces settings.now }
    requires doors { AreDoorsFor settings.now prepared.rooms.doors.items }
    requires recorder { is_some prepared.recorder ≡ is_some settings.now.recording }
    requires again { endless (is_some prepared.supply.lifeline) prepared.supply.turns.again
        ≡ endless (is_some settings.now.control) settings.now.again }
    requires password { is_some prepared.password ≡ is_some settings.now.host_password }
    ensures { IfOk result (λ run. IsRunBy settings.now run) }
{
    let rt = *means.rt;
    let alloc = means.alloc;
    let Prepared {
        mut supply,
        password,
        entrances,
        rooms,
        recorder,
        control,
        writer,
    } = prepared;
    let Ok(seats) = shared(alloc, rooms.seats.as_slice()) else {
        return Err(Trouble::new(Stage::Start, Fault::Memory));
    };
    let Ok((doors, all_seats)) = all_doors(rooms, recorder) else {
        return Err(Trouble::new(Stage::Start, Fault::Memory));
    };
    let terms = Terms {
        room: settings.room,
        password,
    };
    let (met, halls) = welcome(means, &mut supply, &terms, entrances, seats, control)?;
    let run_seats = RunSeats {
        doors,
        seats: all_seats,
        writer,
    };
    let reflected = reflect(rt, alloc, settings, supply, met, run_seats);
    halls.close(&rt);
    match reflected {
        Ok(reflected) => Ok(reflected),
        Err(fault) => Err(Trouble::new(Stage::Run, fault)),
    }
}

/// What the threads of a run share beside its rooms.
#[derive(Drop)]
struct Common<G: Drop> {
    /// The doors of all places.
    desk: Arc<Desk, Global>,
    writer: WriterReach,
    log: G,
}

impl<G: Log + Clone + Drop> Common<G> {
    /// What is shared in a run into which viewers come by these entries, and whose input is counted at `input`.
    fn new(
        alloc: Global,
        entrances: &Entrances<'_>,
        input: Arc<InputCounts, Global>,
        log: &G,
    ) -> Result<Common<G>, AllocError> {
        let seat = Arc::new(alloc, WriterSeat::new())?;
        Ok(Common {
            desk: Arc::try_clone(entrances.view.lobby.desk())?,
            writer: WriterReach { seat, input },
            log: log.clone()?,
        })
    }
}

/// What plays the hosts that are recordings, as the settings say.
fn player_of(alloc: Global, settings: &Settings) -> Result<Arc<Player, Global>, Trouble> {
    let from = settings.from.map_or(0, |time| time.millis());
    let speed = settings.speed.unwrap_or(OWN_SPEED);
    match Arc::new(alloc, Player::new(from, speed)) {
        Ok(player) => Ok(player),
        Err(_) => Err(Trouble::new(Stage::Start, Fault::Memory)),
    }
}

/// The hosts of the settings, of which those that call have these listeners.
fn hosts_of(
    alloc: Global,
    settings: &Settings,
    callers: Vec<Option<HostListener>>,
) -> Result<NamedHosts, Trouble>
    ensures texts { IfOk result (λ hosts. map string_bytes hosts.texts.items
        ≡ string_bytes settings.now.host ∷ map string_bytes settings.now.next.items) }
    ensures again { IfOk result (λ hosts. hosts.again ≡ settings.now.again) }
{
    let texts = texts_of(alloc, settings)?;
    let player = player_of(alloc, settings)?;
    Ok(NamedHosts {
        texts,
        callers,
        player,
        again: settings.again,
    })
}

/// Whether one of the hosts is a recording.
#[tactic(auto, using(crate::proofs::Recordings::first_recording, crate::proofs::Recordings::next_recording))]
fn has_recording(settings: &Settings) -> bool
    ensures { result ≡ true → HasRecording settings.now }
{
    if recording_path(settings.host.as_str()).is_some() {
        return true;
    }
    for host in &settings.next {
        if let Some(_path) = recording_path(host.as_str()) {
            return true;
        }
    }
    false
}

/// How the end of a run's last host counts: as it is, or, where that is a recording that is cut off inside a message,
/// as one between two messages.
fn counted(settings: &Settings, last: Ending, played: Option<PlayedEnd>) -> Ending
    ensures answer { CountsAs settings.now last.answer result.answer }
    ensures called { result.has_called ≡ last.has_called }
{
    match (last.answer, played) {
        (Err(Fault::LinkEnded), Some(PlayedEnd::CutOff)) if has_recording(settings) => Ending {
            answer: Ok(()),
            has_called: last.has_called,
        },
        _ => last,
    }
}

/// How a run ended: as an operator has stopped it, if one has, or as it ended by itself.
#[tactic(auto, using(crate::proofs::Endings::by_itself))]
fn end_of(
    settings: &Settings,
    reflected: Result<Reflected, Trouble>,
    stopped: Option<StopOrder>,
) -> Result<Ended, Trouble>
    requires run { IfOk reflected (λ run. IsRunBy settings.now run) }
    requires socket { is_some stopped ≡ true → is_some settings.now.control ≡ true }
    ensures { IfOk result (λ ended. IsEndBy settings.now ended) }
{
    let Some(cut) = stopped else {
        let Reflected { last, played, ran } = reflected?;
        return Ok(Ended {
            last: counted(settings, last, played),
            ran: Some(ran),
            stopped: None,
            played,
        });
    };
    let ran = match reflected {
        Ok(Reflected { ran, .. }) => Some(ran),
        Err(_) => None,
    };
    Ok(Ended {
        last: Ending {
            answer: Ok(()),
            has_called: false,
        },
        ran,
        stopped: Some(cut),
        played: None,
    })
}

/// What a run begins with.
#[derive(Drop)]
pub(crate) struct OpenedRun<'a> {
    /// The password that hosts may ask for, if one is known.
    pub(crate) password: Option<Password>,
    /// Where viewers come in.
    pub(crate) entrances: Entrances<'a>,
    /// Where hosts call, by their numbers: none where a host is connected to.
    pub(crate) callers: Vec<Option<HostListener>>,
    /// The recording that is to be made, if one is.
    pub(crate) tape: Option<Tape>,
}

/// Listens for an operator, if the settings have a path for it. Where that fails, the run doesn't begin, and the files
/// of its recording are taken away again.
fn control_or_clear<R: Runtime, G>(
    means: &Means<'_, R, G>,
    settings: &Settings,
    reach: RunReach<'_>,
    tape: &Option<Tape>,
) -> Result<Option<Control>, Trouble>
    ensures heard { IfOk result (λ control. is_some control ≡ is_some settings.now.control) }
{
    let control = control_of(means.rt, means.alloc, settings, reach);
    if control.is_err() {
        clear(means.rt, tape);
    }
    control
}

/// Reflects the hosts of the settings for viewers who come in by the entries that were opened, one for each role that
/// is served, until the last host ends or an operator stops the run, if one can. `input` tells how much of the viewers'
/// input waits. It hands out how the run ended, or fails where there was trouble before.
#[tactic(auto, using(crate::proofs::Stopping::stopped))]
pub(crate) fn run<G, R>(
    means: &Means<'_, R, G>,
    settings: &Settings,
    opened: OpenedRun<'_>,
    input: Arc<InputCounts, Global>,
) -> Result<Ended, Trouble>
where
    G: RunLog + Clone + Drop + Send + 'static,
    R: Runtime,
    requires places { HasPlaces settings.now }
    requires password { is_some opened.password ≡ is_some settings.now.host_password }
    requires tape { is_some opened.tape ≡ is_some settings.now.recording }
    requires entries { AreBoth settings.now opened.entrances.full opened.entrances.view }
    ensures { IfOk result (λ ended. IsEndBy settings.now ended) }
{
    let rt = *means.rt;
    let alloc = means.alloc;
    let OpenedRun {
        password,
        entrances,
        callers,
        tape,
    } = opened;
    let hosts = hosts_of(alloc, settings, callers)?;
    let rooms = rooms_of(means, settings, &entrances)?;
    let Ok(Common { desk, writer, log }) = Common::new(alloc, &entrances, input, means.log) else {
        return Err(Trouble::new(Stage::Start, Fault::Memory));
    };
    let reach = RunReach {
        desk: &desk,
        writer: &writer,
        player: &hosts.player,
        recording: standing_of(&tape)?,
    };
    let control = control_or_clear(means, settings, reach, &tape)?;
    let (recorder, keeper) = recorder_of(rt, alloc, settings, tape, means.log)?;
    let lifeline = lifeline_of(&control)?;
    let held = lifeline_of(&control)?;
    let prepared = Prepared {
        supply: Supply::new(rt, alloc, log, desk, hosts, held),
        password,
        entrances,
        rooms,
        recorder,
        control,
        writer,
    };
    let reflected = reflect_all(means, settings, prepared);
    if let Some(keeper) = keeper {
        keeper.close(&rt);
    }
    let stopped = was_cut(&rt, &lifeline);
    end_of(settings, reflected, stopped)
}
