//! A port with one place, as its visitors find it: its clock, its log and its desk.

use crate::sockets::{VERSION, come, connect};
use connections::{Desk, Lobby};
use run_control::{Outcome, Request};
use run_traits::{Event, Log};
use std::alloc::Global;
use std::io;
use std::io::Write;
use std::net::{SocketAddr, TcpStream};
use std::random::RandomSource;
use std::sync::atomic::{AtomicU64, Ordering};
use std::sync::{Arc, Mutex, Wait};
use std::time::{Clock, Duration};

/// What a viewer is told that is let in: the version, and a byte after it.
pub(crate) const GREETING: &[u8] = b"RFB 003.008\nR";

/// A runtime whose clock goes on, or stands until it is put forward. Its random bytes count on from 0.
#[derive(Drop)]
pub(crate) struct ByHand<'a, R: Drop> {
    pub(crate) rt: R,
    pub(crate) stands: bool,
    pub(crate) millis: &'a AtomicU64,
    /// How many random bytes were drawn.
    pub(crate) drawn: AtomicU64,
}

impl<R: Drop> RandomSource for ByHand<'_, R> {
    fn fill_bytes(&self, bytes: &mut [u8]) -> io::Result<()> {
        for byte in bytes {
            *byte = (self.drawn.fetch_add(1, Ordering::SeqCst) % 256) as u8;
        }
        Ok(())
    }
}

impl<R: Wait + Drop> Wait for ByHand<'_, R> {}

impl<R: Clock + Drop> Clock for ByHand<'_, R> {
    fn monotonic(&self) -> io::Result<Duration> {
        if self.stands {
            Ok(Duration::from_millis(self.millis.load(Ordering::SeqCst)))
        } else {
            self.rt.monotonic()
        }
    }

    fn since_1970(&self) -> io::Result<Duration> {
        self.rt.since_1970()
    }

    fn sleep(&self, duration: Duration) {
        self.rt.sleep(duration)
    }
}

/// A log that counts the events that it is told, the newcomers that lacked a header, and the viewers of which something
/// was counted before they came. It keeps the address of the viewer that came last.
#[derive(Drop)]
pub(crate) struct Notebook<R: Drop> {
    pub(crate) rt: R,
    alloc: Global,
    desk: Arc<Desk, Global>,
    count: AtomicU64,
    lacking: AtomicU64,
    wrong: AtomicU64,
    counted: AtomicU64,
    last: Mutex<Option<SocketAddr>>,
}

/// A log that was told nothing yet, of what happens at the doors of this lobby.
pub(crate) fn make_notebook<R: Drop>(
    rt: R,
    alloc: Global,
    lobby: &Lobby,
) -> io::Result<Arc<Notebook<R>, Global>> {
    let log = Notebook {
        rt,
        alloc,
        desk: Arc::try_clone(lobby.desk())?,
        count: AtomicU64::new(0),
        lacking: AtomicU64::new(0),
        wrong: AtomicU64::new(0),
        counted: AtomicU64::new(0),
        last: Mutex::new(None),
    };
    Ok(Arc::new(alloc, log)?)
}

impl<R: Wait + Clock + Drop> Notebook<R> {
    /// Whether nothing was counted of the viewer that is there.
    fn is_new(&self) -> bool {
        match self.desk.look(&self.rt, self.alloc) {
            Ok(run_card) => match run_card.viewers.first() {
                Some(viewer) => viewer.updates == 0 && viewer.shown == 0 && viewer.bytes == 0,
                None => false,
            },
            Err(_) => false,
        }
    }

    /// Whether nothing was counted of each viewer as it came.
    pub(crate) fn all_were_new(&self) -> bool {
        self.counted.load(Ordering::SeqCst) == 0
    }
}

impl<R: Wait + Clock + Drop> Log for Notebook<R> {
    fn note(&self, event: &Event<'_>) {
        self.count.fetch_add(1, Ordering::SeqCst);
        match event {
            Event::ViewerIn { address, .. } => {
                *self.last.lock(&self.rt) = *address;
                if !self.is_new() {
                    self.counted.fetch_add(1, Ordering::SeqCst);
                }
            }
            Event::NoHeader { .. } => {
                self.lacking.fetch_add(1, Ordering::SeqCst);
            }
            Event::WrongPassword { .. } => {
                self.wrong.fetch_add(1, Ordering::SeqCst);
            }
            _ => {}
        }
    }
}

/// What the visitors of a port with one place find there.
#[derive(Drop)]
pub(crate) struct House<'a, R: Drop> {
    pub(crate) net: &'a HostRuntime,
    pub(crate) address: SocketAddr,
    pub(crate) lobby: &'a Lobby,
    pub(crate) millis: &'a AtomicU64,
    /// 0 until viewers are let to the place.
    pub(crate) opened: &'a AtomicU64,
    pub(crate) log: &'a Notebook<R>,
}

impl<R: Wait + Drop> House<'_, R> {
    /// A newcomer that sends nothing yet.
    pub(crate) fn connect(&self) -> io::Result<TcpStream> {
        connect(self.net, self.address)
    }

    /// A newcomer that sends its version.
    pub(crate) fn come(&self) -> io::Result<TcpStream> {
        come(self.net, self.address)
    }

    /// A newcomer that sends these bytes before its version, byte by byte.
    pub(crate) fn come_behind(&self, header: &[u8]) -> io::Result<TcpStream> {
        let mut viewer = self.connect()?;
        for byte in header {
            viewer.write_all(&[*byte])?;
        }
        viewer.write_all(VERSION)?;
        Ok(viewer)
    }

    /// Viewers are let to the place from now on.
    pub(crate) fn open(&self) {
        self.opened.store(1, Ordering::SeqCst);
    }

    /// Puts the clock forward.
    pub(crate) fn pass(&self, millis: u64) {
        self.millis.fetch_add(millis, Ordering::SeqCst);
    }

    /// How many places have no viewer.
    pub(crate) fn free(&self) -> usize {
        self.lobby.desk().free(&self.log.rt)
    }

    /// What the desk answers an operator who asks this.
    pub(crate) fn ask(&self, request: Request) -> Outcome {
        self.lobby.desk().ask(&self.log.rt, request)
    }

    /// Whether no viewer is at the place, and the log was told nothing.
    pub(crate) fn is_quiet(&self) -> bool {
        self.free() == 1 && self.log.count.load(Ordering::SeqCst) == 0
    }

    /// Whether the log was told of this many newcomers that lacked a header.
    pub(crate) fn have_lacked(&self, count: u64) -> bool {
        self.log.lacking.load(Ordering::SeqCst) == count
    }

    /// Whether no viewer is at the place, and the log was told only of this many wrong answers.
    pub(crate) fn has_refused(&self, count: u64) -> bool {
        self.free() == 1
            && self.log.count.load(Ordering::SeqCst) == count
            && self.log.wrong.load(Ordering::SeqCst) == count
    }

    /// Whether the log was told last that a viewer came from there.
    pub(crate) fn has_come(&self, address: SocketAddr) -> bool {
        *self.log.last.lock(&self.log.rt) == Some(address)
    }
}
