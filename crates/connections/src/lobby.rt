//! How newcomers come in.

ghost use Rattle.std.specs.Prelude.{◌≡◌, ◌<◌, [], IfOk, IsNone};
ghost use Rattle.std.specs.Arc.{arc_value};
ghost use Rattle.connections.specs.Keys.{HasUnlockedBy, is_locked};
ghost use Rattle.connections.specs.Doors.{HasNoted, LetsIn, SeesOff, links_behind, role_behind};
ghost use Rattle.run_traits.specs.Trails.{KeepsTrail};

use crate::desk::{Comer, Desk};
use crate::hello::HELLO_LEN;
use crate::key::Key;
use crate::refused::Lack;
use crate::role_listener::Entrant;
use crate::seat::Seat;
use crate::tcp::ViewerTcpLink;
use crate::web::BrowserLink;
use fault::Fault;
use link::{EitherLink, Link};
use roles::Role;
use run_control::Entry;
use run_traits::{
    Door, Event, LeftLink, LinkTrail, Log, Parting, PlaceCount, PlaceId, VisitSummary, Way,
};
use std::alloc::{AllocError, Global};
use std::io;
use std::net::SocketAddr;
use std::sync::{Arc, Condvar, Mutex, Wait};
use std::time::{Clock, Duration};

#[derive(Drop)]
struct Waiting {
    entrants: Vec<Entrant>,
    // How many places have no viewer, and no viewer on the way to them.
    free: u64,
    // How many places there are.
    places: u64,
    // Whether nobody is let in now, since there is no host.
    is_held: bool,
    is_closed: bool,
}

/// What is missing for a newcomer to come in, if something is.
fn lack(waiting: &Waiting, is_open: bool) -> Option<Lack>
    ensures none { IsNone result → 0 < waiting.now.free }
{
    if !is_open {
        Some(Lack::Entry)
    } else if waiting.is_held {
        Some(Lack::Host)
    } else if waiting.free == 0 {
        Some(Lack::Place)
    } else {
        None
    }
}

/// What became of a newcomer.
#[derive(Drop)]
pub(crate) enum Entrance {
    Placed,
    Refused(Entrant, Lack),
    Closed,
}

/// What the places of one role share: who came in, and how many places are free; and the key of the port by which they
/// came.
#[derive(Drop)]
pub struct Lobby {
    role: Role,
    key: Key,
    // For how many seconds one of its viewers may take nothing.
    stalled: u64,
    desk: Arc<Desk, Global>,
    waiting: Mutex<Waiting>,
    came: Condvar,
    freed: Condvar,
}

impl Lobby {
    /// A lobby for the viewers of a role, each of which may take nothing for this many seconds. All of its places are
    /// free, and its port has this key. It fails where memory for the streams on their way is refused.
    pub fn new(
        alloc: Global,
        role: Role,
        key: Key,
        places: u64,
        stalled: u64,
        desk: Arc<Desk, Global>,
    ) -> Result<Lobby, AllocError>
        ensures { IfOk result (λ lobby.
            (lobby.role ≡ role) × (lobby.key ≡ key) × (lobby.stalled ≡ stalled)) }
    {
        Ok(Lobby {
            role,
            key,
            stalled,
            desk,
            waiting: Mutex::new(Waiting {
                entrants: Vec::with_capacity(alloc, places as usize)?,
                free: places,
                places,
                is_held: false,
                is_closed: false,
            }),
            came: Condvar::new(),
            freed: Condvar::new(),
        })
    }

    /// The role of its viewers.
    pub fn role(&self) -> Role
        ensures { result ≡ self.now.role }
    {
        self.role
    }

    /// The key of the port by which its viewers come.
    pub fn key(&self) -> Key
        ensures { result ≡ self.now.key }
    {
        self.key
    }

    /// For how many seconds one of its viewers may take nothing.
    pub(crate) fn stalled(&self) -> u64
        ensures { result ≡ self.now.stalled }
    {
        self.stalled
    }

    /// The doors of its places, among others.
    pub fn desk(&self) -> &Arc<Desk, Global> {
        &self.desk
    }

    /// From now on each viewer that comes is told that there is no host yet, or no longer is.
    pub fn hold<R: Wait>(&self, rt: &R, is_held: bool) {
        self.waiting.lock(rt).is_held = is_held;
    }

    /// No more viewers come: each door that waits here, or will wait, is told so. Viewers on their way to a place are
    /// let go.
    pub fn close<R: Wait>(&self, rt: &R) {
        let mut guard = self.waiting.lock(rt);
        let waiting = &mut *guard;
        waiting.is_closed = true;
        let on_their_way = waiting.entrants.len() as u64;
        waiting.entrants.clear();
        waiting.free = waiting.free.saturating_add(on_their_way);
        self.came.notify_all();
        self.freed.notify_all();
    }

    /// Waits until no place has a viewer, but no longer than this.
    pub fn await_empty<R: Wait + Clock>(&self, rt: &R, patience: Duration) {
        let guard = self.waiting.lock(rt);
        let (guard, _) = self.freed.wait_timeout_while(
            rt,
            guard,
            patience,
            |waiting| waiting.free < waiting.places,
        );
        drop(guard);
    }

    /// Hands a newcomer by a listener of the lobby's role to a place that is free, or becomes free in this time. Where
    /// there is none it gives the newcomer back. Nobody is handed to a place of a locked port without the answer to its
    /// own challenge (`unlocked`).
    pub(crate) fn enter<R: Wait + Clock>(
        &self,
        rt: &R,
        entrant: Entrant,
        patience: Duration,
    ) -> Entrance
        requires role { entrant.role ≡ self.now.role }
        requires unlocked { ∥ HasUnlockedBy entrant.way self.now.key
            entrant.socket.said entrant.socket.heard ∥₁ }
    {
        let is_open = self.desk.entry(rt) == Entry::Open;
        let guard = self.waiting.lock(rt);
        let (mut guard, _) = self
            .freed
            .wait_timeout_while(rt, guard, patience, |waiting| {
                waiting.free == 0 && is_open && !waiting.is_closed && !waiting.is_held
            });
        let waiting = &mut *guard;
        if waiting.is_closed {
            return Entrance::Closed;
        }
        if let Some(lack) = lack(waiting, is_open) {
            return Entrance::Refused(entrant, lack);
        }
        if waiting.entrants.push(entrant).is_ok() {
            waiting.free -= 1;
            self.came.notify_one();
        }
        Entrance::Placed
    }

    /// One more place is free.
    fn free<R: Wait>(&self, rt: &R) {
        let mut guard = self.waiting.lock(rt);
        guard.free = guard.free.saturating_add(1);
        self.freed.notify_all();
    }

    /// Waits for the viewer that came first. It answers `None` where no more come.
    fn next_entrant<R: Wait>(&self, rt: &R) -> Option<Entrant> {
        let guard = self.waiting.lock(rt);
        let mut guard = self.came.wait_while(rt, guard, |waiting| {
            waiting.entrants.is_empty() && !waiting.is_closed
        });
        let waiting = &mut *guard;
        if waiting.is_closed || waiting.entrants.is_empty() {
            return None;
        }
        Some(waiting.entrants.remove(0))
    }

    pub(crate) fn is_closed<R: Wait>(&self, rt: &R) -> bool {
        self.waiting.lock(rt).is_closed
    }
}

/// The door of one place: its viewers come from a lobby and have its role, it waits for them at a seat, and a log is
/// told who comes and who leaves.
#[derive(Drop)]
pub struct TcpDoor<R: Wait + Clock + Drop, G: Log + Drop> {
    rt: R,
    alloc: Global,
    lobby: Arc<Lobby, Global>,
    seat: Arc<Seat, Global>,
    // The number of the place.
    place: u64,
    log: G,
    // Whether a viewer was let in, and the lobby hasn't been told yet that the viewer has left.
    has_served: bool,
    // Where that viewer came from, if the system told, and how its bytes travel.
    address: Option<SocketAddr>,
    way: Way,
    // The links of the viewers that were let in. Only clauses read it.
    links: LinkTrail<ViewerLink<R>>,
}

impl<R: Wait + Clock + Drop, G: Log + Drop> TcpDoor<R, G> {
    /// The door of the place of this number, which has let nobody in.
    pub fn new(
        rt: R,
        alloc: Global,
        lobby: Arc<Lobby, Global>,
        seat: Arc<Seat, Global>,
        place: u64,
        log: G,
    ) -> TcpDoor<R, G>
        ensures { (result.lobby ≡ lobby) × (result.place ≡ place) × (links_behind result ≡ []) }
    {
        TcpDoor {
            rt,
            alloc,
            lobby,
            seat,
            place,
            log,
            has_served: false,
            address: None,
            way: Way::Tcp,
            links: LinkTrail::new(),
        }
    }

    /// It does nothing. Its clause says that each such door keeps a trail of its viewers' links.
    pub fn keeps_trail(&self)
        ensures { KeepsTrail (LetsIn {R = R} {G = G}) SeesOff links_behind }
    {}

    /// The place is free again, if a viewer had it or was on the way to it.
    fn vacate(&mut self)
        ensures { HasNoted self.old [] self.new }
    {
        if self.has_served {
            self.lobby.desk.leave(&self.rt, self.place);
            self.lobby.free(&self.rt);
            self.has_served = false;
        }
    }

    /// What a log is told of the place: its number, and the role of the lobby.
    fn place_id(&self) -> PlaceId
        ensures { (result.place ≡ self.now.place) × (result.role ≡ role_behind self.now) }
    {
        PlaceId {
            place: self.place,
            role: self.lobby.role(),
        }
    }
}

/// A viewer's link: over TCP as it is, or a browser's.
pub type ViewerLink<R> = EitherLink<ViewerTcpLink<R>, BrowserLink<R>>;

/// The connection below a viewer's link.
fn connection_of<R: Wait + Clock + Drop>(viewer: &ViewerLink<R>) -> &ViewerTcpLink<R> {
    match viewer {
        EitherLink::First(link) => link,
        EitherLink::Second(link) => link.connection(),
    }
}

/// How a viewer's connection stands.
fn parting_of<R: Wait + Clock + Drop>(viewer: &ViewerLink<R>) -> Parting {
    match viewer {
        EitherLink::First(link) => link.parting(),
        EitherLink::Second(link) => link.parting(),
    }
}

impl<R: Wait + Clock + Drop + Copy, G: Log + Drop> TcpDoor<R, G> {
    ghost use Rattle.std.specs.Prelude.{◌≡◌, [], IfOk, IfSome};
    ghost use Rattle.run_traits.specs.Unused.{unused};
    ghost use Rattle.connections.specs.Browsers.{viewer_state};
    ghost use Rattle.connections.specs.Doors.{HasNoted, role_behind};

    /// The link of a newcomer that came by a listener of the door's role.
    fn link(&self, entrant: Entrant) -> io::Result<ViewerLink<R>>
        requires role { entrant.role ≡ role_behind self.now }
        requires locked { is_locked entrant.key ≡ is_locked (arc_value self.now.lobby).key }
        ensures { IfOk result (λ link. viewer_state link ≡ unused) }
    {
        let (way, is_locked) = (entrant.way(), entrant.is_locked());
        let awaited = match way {
            Way::Tcp => HELLO_LEN,
            // The browser's link awaits the bytes of messages.
            Way::Web => 0,
        };
        let (rt, alloc, socket) = (self.rt, self.alloc, entrant.into_socket());
        let link = ViewerTcpLink::at(rt, alloc, socket, &self.seat, awaited)?;
        match way {
            Way::Tcp => Ok(EitherLink::First(link)),
            Way::Web => {
                let link = BrowserLink::new(rt, alloc, link, is_locked)?;
                Ok(EitherLink::Second(link))
            }
        }
    }

    /// Receives a newcomer, and answers its link. It answers `None` where that can't be made, where nobody is let in
    /// any more, and where the newcomer came by another role's listener, or by an open port while the lobby's is
    /// locked. The lobby takes in none of the latter, but its lock can't keep that for the proof.
    fn receive(&mut self, entrant: Entrant) -> Option<ViewerLink<R>>
        ensures came { IfSome result (λ link. viewer_state link ≡ unused) }
        ensures noted { HasNoted self.old [] self.new }
    {
        let place_id = self.place_id();
        self.has_served = true;
        self.address = entrant.address();
        self.way = entrant.way();
        if entrant.role() != place_id.role || entrant.is_locked() != self.lobby.key().is_locked() {
            return None;
        }
        let comer = Comer {
            place: place_id.place,
            role: place_id.role,
            address: self.address,
            way: self.way,
        };
        if !self.lobby.desk.enter(&self.rt, comer, &self.seat) {
            return None;
        }
        let link = self.link(entrant).ok()?;
        self.log.note(&Event::ViewerIn {
            place_id,
            address: self.address,
            way: self.way,
        });
        Some(link)
    }
}

impl<R: Wait + Clock + Drop + Copy + Send, G: Log + Drop + Send> Door for TcpDoor<R, G> {
    ghost use Rattle.std.specs.Prelude.{◌≡◌};
    ghost use Rattle.connections.specs.Browsers.{viewer_state};
    ghost use Rattle.connections.specs.Doors.{LetsIn, SeesOff, role_behind};

    type Viewer = ViewerLink<R>;

    ghost is_for = { λ door role. role ≡ role_behind door };

    // No clause says which viewers come.
    ghost lets_in = { LetsIn };

    ghost sees_off = { SeesOff };

    /// A viewer whose link can't be made is let go, and the next one waited for.
    fn next(&mut self) -> Option<ViewerLink<R>> {
        let rt = self.rt;
        for _ in rt.forever() {
            self.vacate();
            let entrant = self.lobby.next_entrant(&rt)?;
            if let Some(link) = self.receive(entrant) {
                self.links.note(&link);
                return Some(link);
            }
        }
        unreachable!()
    }

    fn count(&self) -> &PlaceCount {
        self.seat.count()
    }

    /// Closes the connection before the place becomes free.
    fn left(&mut self, mut viewer: LeftLink<ViewerLink<R>>, answers: u64, why: Result<(), Fault>)
        ensures { SeesOff self.old (viewer_state viewer.link) why self.new }
    {
        // This sends the answer to a browser's close frame.
        viewer.flush();
        let link = viewer.look();
        self.links.note(link);
        let connection = connection_of(link);
        let visit = VisitSummary {
            why,
            parting: parting_of(link),
            served: connection.age(),
            answers,
            bytes: connection.sent(),
        };
        drop(viewer);
        let place_id = self.place_id();
        self.log.note(&Event::ViewerOut {
            place_id,
            address: self.address,
            way: self.way,
            visit,
        });
        self.vacate();
    }
}
