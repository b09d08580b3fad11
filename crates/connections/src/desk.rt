//! Which viewers are there, and what an operator asks of the run.

use crate::seat::Seat;
use roles::Role;
use run_control::{Doors, Entry, Outcome, Request};
use run_traits::{HostCount, PlaceCount, Way, clock_millis};
use std::alloc::{AllocError, Global};
use std::net::SocketAddr;
use std::sync::{Arc, Mutex, Wait};
use std::time::Clock;

/// A viewer that comes to a place.
#[derive(Clone, Copy, Debug)]
pub struct Comer {
    /// The number of the place, counted from 1.
    pub place: u64,
    /// What the viewer may do.
    pub role: Role,
    /// Where the viewer comes from, if the system tells.
    pub address: Option<SocketAddr>,
    /// How its bytes travel.
    pub way: Way,
}

/// A viewer that has a place, and what was counted of it when the desk was asked.
#[derive(Clone, Copy, Debug)]
pub struct ViewerCard {
    /// Who the viewer is, and which place it has.
    pub comer: Comer,
    /// When it came, by `clock_millis`.
    pub since: u64,
    /// Whether it was asked to leave.
    pub is_asked: bool,
    /// How many answers were begun for the viewer.
    pub updates: u64,
    /// How many of the run's updates it was shown (`PlaceCount::shown`).
    pub shown: u64,
    /// How many bytes the system took for it.
    pub bytes: u64,
}

/// The host that is joined.
#[derive(Drop)]
pub struct HostCard {
    /// Its address, if the system tells.
    pub address: Option<SocketAddr>,
    /// Its name, in which bytes that aren't printable, and quotation marks, are escaped.
    pub name: String,
    /// The width of its screen in pixels.
    pub width: u64,
    /// The height of its screen in pixels.
    pub height: u64,
    /// When it was joined, by `clock_millis`.
    pub since: u64,
}

/// What was counted of all viewers since the run began, including those that are there.
#[derive(Clone, Copy, Debug)]
pub struct Totals {
    /// How many answers were begun for viewers.
    pub updates: u64,
    /// How many bytes the system took for viewers.
    pub bytes: u64,
}

/// How a run stood when the desk was asked.
#[derive(Drop)]
pub struct RunCard {
    /// Whether viewers are let in.
    pub entry: Entry,
    /// The host, if one is joined.
    pub host: Option<HostCard>,
    /// How many updates were put (`HostCount::updates`). This is read after the viewers' counts.
    pub updates: u64,
    /// When the host's last byte came, by `clock_millis`.
    pub heard: u64,
    /// The time now, by `clock_millis`.
    pub now: u64,
    /// The viewers that have a place, in the order of the places.
    pub viewers: Vec<ViewerCard>,
    /// What was counted of all viewers.
    pub totals: Totals,
}

/// A viewer at its place.
#[derive(Drop)]
struct Present {
    comer: Comer,
    since: u64,
    seat: Arc<Seat, Global>,
}

/// What the desk keeps under its lock.
#[derive(Drop)]
struct Book {
    doors: Doors,
    // The viewers that are there, by their places.
    present: Vec<Option<Present>>,
    host: Option<HostCard>,
    // What was counted of viewers that have left.
    totals: Totals,
}

/// The doors of all places of a run, with the viewers that are there. The places' threads share it with the thread that
/// hears an operator. `run_control` says what a request does to the doors, and who may come in after it.
///
/// It is locked where a viewer or a host comes or leaves, and where somebody asks, but never on the way of pixels: what
/// is counted meanwhile stands in counters (`PlaceCount`, `HostCount`).
#[derive(Drop)]
pub struct Desk {
    book: Mutex<Book>,
    count: Arc<HostCount, Global>,
}

/// This many places that nobody has.
fn vacant(alloc: Global, places: usize) -> Result<Vec<Option<Present>>, AllocError> {
    let mut present = Vec::with_capacity(alloc, places)?;
    for _place in 0..places {
        present.push(None)?;
    }
    Ok(present)
}

/// The viewer of this place among these, if it has one.
fn slot(present: &mut [Option<Present>], place: u64) -> Option<&mut Option<Present>> {
    let index = place.checked_sub(1)?;
    present.get_mut(index as usize)
}

impl Present {
    /// What is told of the viewer now.
    fn card(&self, doors: &Doors) -> ViewerCard {
        let count = self.seat.count();
        ViewerCard {
            comer: self.comer,
            since: self.since,
            is_asked: doors.is_asked(self.comer.place),
            updates: count.updates(),
            shown: count.shown(),
            bytes: count.bytes(),
        }
    }
}

impl Totals {
    /// The totals, with what was counted of one more viewer.
    fn with(self, count: &PlaceCount) -> Totals {
        Totals {
            updates: self.updates.saturating_add(count.updates()),
            bytes: self.bytes.saturating_add(count.bytes()),
        }
    }
}

impl Book {
    /// The viewers that have a place.
    fn viewers(&self, alloc: Global) -> Result<Vec<ViewerCard>, AllocError> {
        let mut viewers = Vec::new(alloc);
        for slot in &self.present {
            if let Some(present) = slot {
                viewers.push(present.card(&self.doors))?;
            }
        }
        Ok(viewers)
    }

    /// Has each viewer leave that was asked to.
    fn dismiss(&self) {
        for slot in &self.present {
            if let Some(present) = slot {
                if self.doors.is_asked(present.comer.place) {
                    present.seat.dismiss();
                }
            }
        }
    }

    /// What was counted of all viewers.
    fn all(&self) -> Totals {
        let mut totals = self.totals;
        for slot in &self.present {
            if let Some(present) = slot {
                totals = totals.with(present.seat.count());
            }
        }
        totals
    }

    /// The host, if one is joined.
    fn host(&self) -> Result<Option<HostCard>, AllocError> {
        match &self.host {
            Some(host) => Ok(Some(HostCard {
                name: host.name.clone()?,
                ..*host
            })),
            None => Ok(None),
        }
    }
}

impl Desk {
    /// A desk of open doors, with this many places, all of them free, and no host. It fails where memory for it is
    /// refused.
    pub fn new(alloc: Global, places: usize) -> Result<Desk, AllocError> {
        let book = Book {
            doors: Doors::new(alloc, places)?,
            present: vacant(alloc, places)?,
            host: None,
            totals: Totals {
                updates: 0,
                bytes: 0,
            },
        };
        Ok(Desk {
            book: Mutex::new(book),
            count: Arc::new(alloc, HostCount::new())?,
        })
    }

    /// What is counted of the hosts.
    pub fn count(&self) -> &Arc<HostCount, Global> {
        &self.count
    }

    /// Whether viewers are let in.
    pub fn entry<R: Wait>(&self, rt: &R) -> Entry {
        self.book.lock(rt).doors.entry()
    }

    /// How many places have no viewer.
    pub fn free<R: Wait>(&self, rt: &R) -> usize {
        self.book.lock(rt).doors.free()
    }

    /// Does what is requested, and has each viewer leave that is asked to.
    pub fn ask<R: Wait>(&self, rt: &R, request: Request) -> Outcome {
        let mut guard = self.book.lock(rt);
        let book = &mut *guard;
        let outcome = book.doors.ask(request);
        book.dismiss();
        outcome
    }

    /// How the run stands. It fails where memory for the answer is refused.
    pub fn look<R: Wait + Clock>(&self, rt: &R, alloc: Global) -> Result<RunCard, AllocError> {
        let guard = self.book.lock(rt);
        let book = &*guard;
        let viewers = book.viewers(alloc)?;
        Ok(RunCard {
            entry: book.doors.entry(),
            host: book.host()?,
            updates: self.count.updates(),
            heard: self.count.heard(),
            now: clock_millis(rt),
            viewers,
            totals: book.all(),
        })
    }

    /// A host is joined.
    pub fn host_joined<R: Wait>(&self, rt: &R, host: HostCard) {
        self.book.lock(rt).host = Some(host);
    }

    /// The host has ended.
    pub fn host_left<R: Wait>(&self, rt: &R) {
        self.book.lock(rt).host = None;
    }

    /// A viewer comes to a place, whose thread waits at this seat. It answers whether the viewer is let in.
    pub(crate) fn enter<R: Wait + Clock>(
        &self,
        rt: &R,
        comer: Comer,
        seat: &Arc<Seat, Global>,
    ) -> bool {
        let Ok(seat) = Arc::try_clone(seat) else {
            return false;
        };
        let since = clock_millis(rt);
        let mut guard = self.book.lock(rt);
        let book = &mut *guard;
        if !book.doors.enter(comer.place) {
            return false;
        }
        seat.welcome();
        if let Some(slot) = slot(book.present.as_mut_slice(), comer.place) {
            *slot = Some(Present { comer, since, seat });
        }
        true
    }

    /// The viewer of this place has left.
    pub(crate) fn leave<R: Wait>(&self, rt: &R, place: u64) {
        let mut guard = self.book.lock(rt);
        let book = &mut *guard;
        book.doors.leave(place);
        let left = match slot(book.present.as_mut_slice(), place) {
            Some(slot) => slot.take(),
            None => None,
        };
        if let Some(left) = left {
            book.totals = book.totals.with(left.seat.count());
        }
    }
}
