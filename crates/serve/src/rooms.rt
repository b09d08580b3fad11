//! Places for viewers, and who lets them in.

ghost use Rattle.std.specs.Prelude.{◌≡◌, ◌+◌, ◌++◌, ◌<◌, ◌∷◌, [], if◌then◌else◌, is_some, length, replicate, IfErr, IfOk, OnOk};
ghost use Rattle.std.specs.Arc.{arc_value};
ghost use Rattle.fault.specs.declared.kinds.Fault.TheVariants.{Memory};
ghost use Rattle.settings.specs.ByRole.{HasPlaces, places_for};
ghost use Rattle.roles.specs.declared.role.Role.TheVariants.{Full, View};
ghost use Rattle.serve.specs.Doors.{AreDoorsFor, AreBoth, AreNumbered, HaveTheirRoles, IsFullEntry, roles_in};

use crate::entries::Entrances;
use crate::incident::RunLog;
use crate::means::Means;
use crate::open::RoleEntry;
use crate::place_door::PlaceDoor;
use crate::runtime::{Runtime, STACK};
use crate::tape::Recorder;
use crate::trouble::{Stage, Trouble};
use connections::{Everyone, Lobby, RoleCaller, Seat, TcpDoor, TcpEntry, TcpPorter, WriterSeat};
use fault::Fault;
use roles::Role;
use run_traits::{HostCount, Log};
use settings::{Settings, places_of};
use std::alloc::{AllocError, Global};
use std::io;
use std::net::Net;
use std::sync::{Arc, Wait};
use std::thread::Builder;
use std::time::{Clock, Duration};

/// For how long viewers are waited for once the host has ended, in milliseconds.
const GOODBYE_MILLIS: u64 = 1_000;

/// The doors of all places of viewers with their roles, and where each place's thread waits. They are of the type that
/// the recorder's door has, too.
#[derive(Drop)]
pub(crate) struct Rooms<R: Wait + Clock + Drop + Copy + Send, G: RunLog + Drop + Send> {
    pub(crate) doors: Vec<(Role, PlaceDoor<R, G>)>,
    pub(crate) seats: Vec<Arc<Seat, Global>>,
    pub(crate) ghost told: { HaveTheirRoles doors.items },
    pub(crate) ghost numbered: { AreNumbered doors.items },
}

impl<R, G> Rooms<R, G>
where
    R: Wait + Clock + Drop + Copy + Net + Send,
    G: RunLog + Clone + Drop + Send,
{
    /// Rooms without any place.
    pub(crate) fn new(alloc: Global) -> Rooms<R, G>
        ensures doors { result.doors.items ≡ [] }
        ensures seats { result.seats.items ≡ [] }
    {
        Rooms {
            doors: Vec::new(alloc),
            seats: Vec::new(alloc),
        }
    }

    /// Adds a place, whose thread waits at this seat.
    #[tactic(auto, using(crate::proofs::Roles::one_more, crate::proofs::Numbered::one_more))]
    fn add(
        &mut self,
        means: &Means<'_, R, G>,
        entry: &RoleEntry<'_>,
        seat: Seat,
    ) -> Result<(), Fault>
        requires { length self.old.doors.items < 64 }
        ensures count { OnOk result
            (length self.new.doors.items ≡ length self.old.doors.items + 1) }
        ensures seats { OnOk result
            (length self.new.seats.items ≡ length self.old.seats.items + 1) }
        ensures roles { OnOk result (roles_in self.new.doors.items
            ≡ roles_in self.old.doors.items ++ (arc_value entry.now.lobby).role ∷ []) }
    {
        let place = self.doors.len() as u64 + 1;
        let seat = Arc::new(means.alloc, seat)?;
        self.seats.push(Arc::try_clone(&seat)?)?;
        let lobby = Arc::try_clone(&entry.lobby)?;
        let role = lobby.role();
        let door = TcpDoor::new(
            *means.rt,
            means.alloc,
            lobby,
            seat,
            place,
            means.log.clone()?,
        );
        self.doors.push((role, PlaceDoor::of_viewers(door)))?;
        Ok(())
    }

    /// Adds the places of viewers with full control, if there are some. They are the first.
    #[tactic(auto, using(crate::proofs::Counts::entry_places))]
    fn add_full(
        &mut self,
        means: &Means<'_, R, G>,
        settings: &Settings,
        full: &Option<RoleEntry<'_>>,
    ) -> Result<(), Trouble>
        requires none { self.old.doors.items ≡ [] }
        requires entry { IsFullEntry settings.now full.now }
        requires places { HasPlaces settings.now }
        ensures count { OnOk result (length self.new.doors.items ≡ places_for Full settings.now) }
        ensures seats { OnOk result (length self.new.seats.items
            ≡ length self.old.seats.items + places_for Full settings.now) }
        ensures roles { OnOk result
            (roles_in self.new.doors.items ≡ replicate (places_for Full settings.now) Full) }
    {
        let _settings = settings;
        match full {
            Some(entry) => self.add_all(means, entry),
            None => Ok(()),
        }
    }

    /// Adds the places of one more role, as many as the entry's settings say.
    pub(crate) fn add_all(
        &mut self,
        means: &Means<'_, R, G>,
        entry: &RoleEntry<'_>,
    ) -> Result<(), Trouble>
        requires { length self.old.doors.items
            + places_for (arc_value entry.now.lobby).role entry.now.settings.now < 65 }
        ensures count { OnOk result (length self.new.doors.items ≡ length self.old.doors.items
            + places_for (arc_value entry.now.lobby).role entry.now.settings.now) }
        ensures seats { OnOk result (length self.new.seats.items ≡ length self.old.seats.items
            + places_for (arc_value entry.now.lobby).role entry.now.settings.now) }
        ensures roles { OnOk result (roles_in self.new.doors.items ≡ roles_in self.old.doors.items
            ++ replicate (places_for (arc_value entry.now.lobby).role entry.now.settings.now)
            (arc_value entry.now.lobby).role) }
    {
        let places = places_of(entry.settings, entry.lobby.role());
        for _place in 0..places {
            let seat = match Seat::new(means.rt, means.alloc) {
                Ok(seat) => seat,
                Err(error) => return Err(Trouble::of(Stage::Start, error)),
            };
            if let Err(fault) = self.add(means, entry, seat) {
                return Err(Trouble::new(Stage::Start, fault));
            }
        }
        Ok(())
    }
}

/// The places that the settings say, whose viewers come in by these entries.
#[tactic(auto, using(crate::proofs::Counts::full_most, crate::proofs::Counts::entry_places))]
pub(crate) fn rooms_of<R, G>(
    means: &Means<'_, R, G>,
    settings: &Settings,
    entrances: &Entrances<'_>,
) -> Result<Rooms<R, G>, Trouble>
where
    R: Wait + Clock + Drop + Copy + Net + Send,
    G: RunLog + Clone + Drop + Send,
    requires entries { AreBoth settings.now entrances.now.full entrances.now.view }
    requires places { HasPlaces settings.now }
    ensures doors { IfOk result (λ rooms. AreDoorsFor settings.now rooms.doors.items) }
    ensures numbers { IfOk result (λ rooms. AreNumbered rooms.doors.items) }
    ensures seats { IfOk result (λ rooms. length rooms.seats.items ≡ length rooms.doors.items) }
{
    let mut rooms = Rooms::new(means.alloc);
    rooms.add_full(means, settings, &entrances.full)?;
    rooms.add_all(means, &entrances.view)?;
    Ok(rooms)
}

/// The doors of all places with their roles, and where their threads wait: those of the viewers, and behind them that
/// of the recorder, if there is one.
#[tactic(auto, using(crate::proofs::Roles::one_more))]
pub(crate) fn all_doors<R, G>(
    rooms: Rooms<R, G>,
    recorder: Option<Recorder<R, G>>,
) -> Result<(Vec<(Role, PlaceDoor<R, G>)>, Vec<Arc<Seat, Global>>), AllocError>
where
    R: Wait + Clock + Drop + Copy + Send,
    G: RunLog + Drop + Send,
    ensures roles { IfOk result (λ all. roles_in all.0.items
        ≡ roles_in rooms.doors.items ++ (if is_some recorder then View ∷ [] else [])) }
    ensures told { IfOk result (λ all. HaveTheirRoles all.0.items) }
{
    let Rooms {
        mut doors,
        mut seats,
    } = rooms;
    let Some(Recorder { door, seat }) = recorder else {
        return Ok((doors, seats));
    };
    doors.push((Role::View, PlaceDoor::of_recorder(door)))?;
    seats.push(seat)?;
    Ok((doors, seats))
}

/// Everyone that is woken by news: the hosts' writer at its seat, and the places' threads at theirs. `count` counts
/// what is put.
pub(crate) fn everyone_of(
    alloc: Global,
    writer: &Arc<WriterSeat, Global>,
    seats: Vec<Arc<Seat, Global>>,
    count: &Arc<HostCount, Global>,
) -> Result<Arc<Everyone, Global>, Fault>
    ensures err { IfErr result (λ fault. fault ≡ Memory) }
{
    let everyone = Everyone {
        count: Arc::try_clone(count)?,
        writer: Arc::try_clone(writer)?,
        seats,
    };
    Ok(Arc::new(alloc, everyone)?)
}

/// What a run reaches of a role's viewers while its port is kept: it lets them in, calls some, and at the end sends all
/// away.
#[derive(Drop)]
pub(crate) struct Hall {
    lobby: Arc<Lobby, Global>,
    caller: Arc<RoleCaller, Global>,
}

/// The porter of the port of a role, whose viewers are let to the entry's lobby.
fn porter_of(rt: &impl Net, alloc: Global, entry: RoleEntry<'_>) -> io::Result<TcpPorter> {
    let RoleEntry {
        settings: _,
        bound,
        lobby,
    } = entry;
    TcpPorter::new(rt, alloc, TcpEntry::new(bound.into_listener(), lobby)?)
}

/// Starts the thread that lets the viewers of a role in.
pub(crate) fn start_porter<R: Runtime, G>(
    rt: R,
    alloc: Global,
    entry: RoleEntry<'_>,
    log: &G,
) -> Result<Hall, Trouble>
where
    G: Log + Clone + Drop + Send + 'static,
{
    let Ok(lobby) = Arc::try_clone(&entry.lobby) else {
        return Err(Trouble::new(Stage::Start, Fault::Memory));
    };
    let porter = match porter_of(&rt, alloc, entry) {
        Ok(porter) => porter,
        Err(error) => return Err(Trouble::of(Stage::Start, error)),
    };
    let Ok(caller) = porter.caller() else {
        return Err(Trouble::new(Stage::Start, Fault::Memory));
    };
    let Ok(log) = log.clone() else {
        return Err(Trouble::new(Stage::Start, Fault::Memory));
    };
    let started = Builder::new()
        .stack_size(STACK)
        .spawn(&rt, move || porter.keep(&rt, &log));
    match started {
        Ok(_porter) => Ok(Hall { lobby, caller }),
        Err(error) => Err(Trouble::of(Stage::Start, error)),
    }
}

impl Hall {
    /// What calls viewers of the role.
    pub(crate) fn caller(&self) -> &Arc<RoleCaller, Global>
        ensures { result.now ≡ self.now.caller }
    {
        &self.caller
    }

    /// Viewers are let in from now on.
    pub(crate) fn open<R: Wait>(&self, rt: &R) {
        self.lobby.hold(rt, false);
    }

    /// No more viewers come, and those that are there are waited for, though not for long. The thread that keeps the
    /// port sees that soon.
    pub(crate) fn close<R: Wait + Clock>(&self, rt: &R) {
        self.lobby.close(rt);
        self.lobby
            .await_empty(rt, Duration::from_millis(GOODBYE_MILLIS));
    }
}
