//! Where a recording is played, as the thread of its link and an operator see it.

use play_control::{Course, Speed};
use run_traits::clock_millis;
use std::alloc::{AllocError, Global};
use std::sync::{Condvar, Mutex, Wait};
use std::time::{Clock, Duration};

/// For how long a time of the recording is waited for at once, in milliseconds.
const MOST_MILLIS: u64 = 1_000;

/// How a recording is played now.
#[derive(Clone, Copy, Debug, PartialEq, Eq)]
pub struct Played {
    /// The time up to which it is played, in milliseconds since it began.
    pub time: u64,
    /// Whether it rests.
    pub is_paused: bool,
}

#[derive(Drop)]
struct Deck {
    course: Course,
    /// The path of the recording that is played, if one is.
    path: Option<String>,
    /// Whether the recording ends here, though it may go on.
    is_left: bool,
    /// From where on the same recording is played next, if it was left for that.
    sought: Option<u64>,
}

/// Plays one recording after another, each from the same time on and at the same speed, unless an operator asks for
/// something else. The thread that reads the recording and the one that hears the operator share it: no clause says
/// what stands here.
#[derive(Drop)]
pub struct Player {
    from: u64,
    speed: Speed,
    deck: Mutex<Deck>,
    changed: Condvar,
}

impl Player {
    /// A player that plays nothing yet. Each recording is played from this time on, in milliseconds, and at this speed.
    pub fn new(from: u64, speed: Speed) -> Player {
        Player {
            from,
            speed,
            deck: Mutex::new(Deck {
                course: Course::new(from, speed.hundredths, 0),
                path: None,
                is_left: false,
                sought: None,
            }),
            changed: Condvar::new(),
        }
    }

    /// The recording at this path is played from now on: from the time that was sought, if one was, and otherwise from
    /// where each begins. It answers that time. One that rested while it was sought rests there.
    pub fn begin<R: Wait + Clock>(&self, rt: &R, path: String) -> u64 {
        let now = clock_millis(rt);
        let mut guard = self.deck.lock(rt);
        let deck = &mut *guard;
        let from = match deck.sought.take() {
            Some(time) => {
                deck.course.seek(time, now);
                time
            }
            None => {
                deck.course = Course::new(self.from, self.speed.hundredths, now);
                self.from
            }
        };
        deck.path = Some(path);
        deck.is_left = false;
        from
    }

    /// The recording that was played has ended.
    pub fn end<R: Wait>(&self, rt: &R) {
        self.deck.lock(rt).path = None;
    }

    /// The recording that is played ends now, for whoever reads it.
    pub fn leave<R: Wait>(&self, rt: &R) {
        self.deck.lock(rt).is_left = true;
        self.changed.notify_all();
    }

    /// Whether the recording ends here.
    pub fn is_left<R: Wait>(&self, rt: &R) -> bool {
        self.deck.lock(rt).is_left
    }

    /// Whether the same recording is to be played next, from another time on.
    pub fn is_sought<R: Wait>(&self, rt: &R) -> bool {
        self.deck.lock(rt).sought.is_some()
    }

    /// The path of the recording that is played, if one is. It fails where memory is refused.
    pub fn path<R: Wait>(&self, rt: &R) -> Result<Option<String>, AllocError> {
        match &self.deck.lock(rt).path {
            Some(path) => Ok(Some(path.clone()?)),
            None => Ok(None),
        }
    }

    /// How the recording is played now, if one is.
    pub fn look<R: Wait + Clock>(&self, rt: &R) -> Option<Played> {
        let now = clock_millis(rt);
        let deck = self.deck.lock(rt);
        if deck.path.is_none() {
            return None;
        }
        Some(Played {
            time: deck.course.time(now),
            is_paused: deck.course.rests(),
        })
    }

    /// The recording rests from now on. The answer says whether one is played.
    pub fn pause<R: Wait + Clock>(&self, rt: &R) -> bool {
        let now = clock_millis(rt);
        let mut deck = self.deck.lock(rt);
        if deck.path.is_none() {
            return false;
        }
        deck.course.pause(now);
        self.changed.notify_all();
        true
    }

    /// The recording goes on from now on. The answer says whether one is played.
    pub fn play<R: Wait + Clock>(&self, rt: &R) -> bool {
        let now = clock_millis(rt);
        let mut deck = self.deck.lock(rt);
        if deck.path.is_none() {
            return false;
        }
        deck.course.play(now);
        self.changed.notify_all();
        true
    }

    /// The recording is left, and played again from this time on, in milliseconds. The answer says whether one is
    /// played.
    pub fn seek<R: Wait>(&self, rt: &R, time: u64) -> bool {
        let mut deck = self.deck.lock(rt);
        if deck.path.is_none() {
            return false;
        }
        deck.sought = Some(time);
        deck.is_left = true;
        self.changed.notify_all();
        true
    }

    /// The time of the recording up to which is played now.
    pub(crate) fn time<R: Wait + Clock>(&self, rt: &R) -> u64 {
        let now = clock_millis(rt);
        self.deck.lock(rt).course.time(now)
    }

    /// For how long this time is to be waited for, in milliseconds, or less.
    fn patience(&self, course: &Course, until: u64, now: u64) -> u64 {
        if course.rests() {
            return MOST_MILLIS;
        }
        let ahead = until.saturating_sub(course.time(now));
        let speed = self.speed.hundredths.max(1);
        (ahead.saturating_mul(100) / speed)
            .saturating_add(1)
            .min(MOST_MILLIS)
    }

    /// Whether the recording rests. Then it is waited for, though not for long, that something is asked for.
    pub(crate) fn awaits_play<R: Wait + Clock>(&self, rt: &R) -> bool {
        let rests = self.deck.lock(rt).course.rests();
        if rests {
            self.wait(rt, u64::MAX);
        }
        rests
    }

    /// Waits until this time of the recording has come, or for less. It returns early where something is asked for.
    pub(crate) fn wait<R: Wait + Clock>(&self, rt: &R, until: u64) {
        let now = clock_millis(rt);
        let deck = self.deck.lock(rt);
        let course = deck.course;
        let patience = Duration::from_millis(self.patience(&course, until, now));
        let (deck, _) = self.changed.wait_timeout_while(rt, deck, patience, |deck| {
            deck.course == course && !deck.is_left
        });
        drop(deck);
    }
}
