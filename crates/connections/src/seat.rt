//! Where the thread of a place waits.
use mio::event::Source;
use mio::{Events, Interest, Poll, Token, Waker};
use run_traits::{Alarm, PlaceCount};
use std::alloc::Global;
use std::io;
use std::net::Net;
use std::sync::atomic::{AtomicBool, Ordering};
use std::sync::{Mutex, Wait};
use std::time::Duration;

const ALARM: Token = Token(0);

const SOCKET: Token = Token(1);

#[derive(Drop)]
struct Ears {
    poll: Poll,
    events: Events,
}

/// Where the thread of a place waits for its viewer's socket and for the alarm, both at once. Only the place's thread
/// locks the ears, so it never waits for the lock.
///
/// A ring sets `rung`, and the thread's answer clears it; while it is set a ring costs one exchange. The thread answers
/// before it looks for news. So where a ring finds `rung` set, the look that finds its news is still to come.
#[derive(Drop)]
pub struct Seat {
    rung: AtomicBool,
    /// Whether the place's viewer is to leave.
    is_dismissed: AtomicBool,
    count: PlaceCount,
    waker: Waker,
    ears: Mutex<Ears>,
}

impl Seat {
    pub fn new(net: &impl Net, alloc: Global) -> io::Result<Seat> {
        let poll = Poll::new(net)?;
        let events = Events::with_capacity(alloc, 4)?;
        let waker = Waker::new(poll.registry(), ALARM)?;
        Ok(Seat {
            rung: AtomicBool::new(false),
            is_dismissed: AtomicBool::new(false),
            count: PlaceCount::new(),
            waker,
            ears: Mutex::new(Ears { poll, events }),
        })
    }

    /// Whether the seat was rung since the last answer.
    pub fn answer(&self) -> bool {
        self.rung.swap(false, Ordering::SeqCst)
    }

    /// From now on a wait ends at this socket too, until it is dropped.
    pub fn hear<R: Wait, S: Source>(&self, rt: &R, socket: &mut S) -> io::Result<()>
        ensures { S.keeps socket.old socket.new }
    {
        let guard = self.ears.lock(rt);
        let both = Interest::READABLE | Interest::WRITABLE;
        guard.poll.registry().register(socket, SOCKET, both)
    }

    /// The viewer of the place is to leave: its link ends.
    pub(crate) fn dismiss(&self) {
        self.is_dismissed.store(true, Ordering::SeqCst);
        self.rouse();
    }

    /// Whether the viewer of the place is to leave.
    pub(crate) fn is_dismissed(&self) -> bool {
        self.is_dismissed.load(Ordering::SeqCst)
    }

    /// What is counted of the viewer of the place.
    pub fn count(&self) -> &PlaceCount {
        &self.count
    }

    /// The place has another viewer, of which nothing was counted yet.
    pub(crate) fn welcome(&self) {
        self.is_dismissed.store(false, Ordering::SeqCst);
        self.count.begin();
    }

    /// Waits for the alarm, or for the socket to become readable or writable, at most this long. The wait may end for
    /// no reason.
    pub fn wait<R: Wait>(&self, rt: &R, most: Option<Duration>) -> io::Result<()> {
        let mut guard = self.ears.lock(rt);
        let Ears { poll, events } = &mut *guard;
        poll.poll(events, most)
    }
}

impl Alarm for Seat {
    fn ring(&self) {
        if !self.rung.swap(true, Ordering::SeqCst) {
            self.rouse();
        }
    }

    fn rouse(&self) {
        // Where this fails there is nothing else to try.
        let _ = self.waker.wake();
    }
}
