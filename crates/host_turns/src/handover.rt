//! Hands hosts to the thread that tells them.

ghost use Rattle.std.specs.Prelude.{◌≡◌};
ghost use Rattle.run_traits.specs.Unused.{unused};

use link::Link;
use run_traits::Alarm;
use std::alloc::Global;
use std::sync::atomic::{AtomicU64, Ordering};
use std::sync::{Arc, Condvar, Mutex, Wait};

/// The end of a connection over which a host is to be told, sealed: nothing was given over it, and nobody can give
/// anything until `Handover::take` opens it.
#[derive(Drop)]
pub struct SealedEnd<L: Link> {
    link: L,
    ghost fresh: { L.state link ≡ unused },
}

impl<L: Link> SealedEnd<L> {
    /// Seals an end over which nothing was given.
    pub fn new(link: L) -> SealedEnd<L>
        requires { L.state link ≡ unused }
    {
        SealedEnd { link }
    }

    /// Opens the seal, for the thread that tells the host of this number. It takes no handle.
    fn open(self, number: u64) -> NumberedLink<L> {
        let SealedEnd { link } = self;
        NumberedLink { link, number }
    }
}

/// The end of a connection over which the host of this number is told. Nothing was given over it yet.
#[derive(Drop)]
pub struct NumberedLink<L: Link> {
    pub link: L,
    pub number: u64,
    pub ghost fresh: { L.state link ≡ unused },
}

/// The sealed end of the host of this number.
#[derive(Drop)]
struct NumberedEnd<L: Link> {
    end: SealedEnd<L>,
    number: u64,
}

#[derive(Drop)]
struct Post<L: Link> {
    // The host that is told next. A host that nobody took is dropped where another comes.
    next: Option<NumberedEnd<L>>,
    is_over: bool,
}

/// Hands each host from the thread that reads it to the one that tells it. A host's number is how many hosts were left
/// before it.
#[derive(Drop)]
pub struct Handover<L: Link, W: Alarm + Drop> {
    post: Mutex<Post<L>>,
    came: Condvar,
    left: AtomicU64,
    // Where the thread that tells a host rests.
    alarm: Arc<W, Global>,
}

impl<L: Link, W: Alarm + Drop> Handover<L, W> {
    /// A handover that begins with the first host, over this link.
    pub fn new(link: L, alarm: Arc<W, Global>) -> Handover<L, W>
        requires { L.state link ≡ unused }
    {
        let end = SealedEnd::new(link);
        let next = Some(NumberedEnd { end, number: 0 });
        Handover {
            post: Mutex::new(Post {
                next,
                is_over: false,
            }),
            came: Condvar::new(),
            left: AtomicU64::new(0),
            alarm,
        }
    }

    /// From now on the host at the other end of this link is told.
    pub(crate) fn give<R: Wait>(&self, rt: &R, end: SealedEnd<L>) {
        let number = self.left.load(Ordering::SeqCst);
        let mut guard = self.post.lock(rt);
        guard.next = Some(NumberedEnd { end, number });
        self.came.notify_all();
    }

    /// The host was left, so it is told nothing more.
    pub(crate) fn leave(&self) {
        let _ = self.left.fetch_add(1, Ordering::SeqCst);
        self.alarm.rouse();
    }

    /// The host was left, and no other comes.
    pub fn close<R: Wait>(&self, rt: &R) {
        self.leave();
        let mut guard = self.post.lock(rt);
        guard.is_over = true;
        self.came.notify_all();
    }

    /// Waits for the next host that is to be told, and opens its end. It answers `None` where no other comes.
    pub fn take<R: Wait>(&self, rt: &R) -> Option<NumberedLink<L>> {
        let guard = self.post.lock(rt);
        let mut guard = self
            .came
            .wait_while(rt, guard, |post| post.next.is_none() && !post.is_over);
        let post = &mut *guard;
        if post.is_over {
            return None;
        }
        let NumberedEnd { end, number } = post.next.take()?;
        Some(end.open(number))
    }

    /// Whether the host of this number was left.
    pub fn is_left(&self, number: u64) -> bool {
        self.left.load(Ordering::SeqCst) != number
    }
}
