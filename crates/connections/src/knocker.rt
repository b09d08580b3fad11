//! Newcomers while they are greeted.

ghost use Rattle.std.specs.Prelude.{◌≡◌};
ghost use Rattle.std.specs.Arc.{arc_value};
ghost use Rattle.connections.specs.Greetings.{IsSameGreeting};

use crate::greeting::Greeting;
use crate::hello::HELLO_SECONDS;
use crate::lobby::Lobby;
use crate::port::{MOST_STEPS, Progress, header_complaint};
use crate::socket::Socket;
use roles::Role;
use run_traits::{Event, Way};
use std::alloc::Global;
use std::io::ErrorKind;
use std::net::SocketAddr;
use std::sync::Arc;
use std::time::{Clock, Duration, Instant};

/// The seconds that a newcomer may take while no place is left for another.
const CROWDED_SECONDS: u64 = 1;

/// The seconds that a newcomer may take once it was asked for a password, which someone may be typing.
const TYPING_SECONDS: u64 = 60;

/// The seconds after which a wrong answer is told. Until then the newcomer keeps its slot, so that all of a port's
/// newcomers together can't guess fast.
const GUESS_SECONDS: u64 = 2;

/// A newcomer while it is greeted: its role, how its bytes travel, its greeting, when that began, when it answered
/// wrongly, if it did, and the lobby of the port that it came by.
#[derive(Drop)]
pub(crate) struct Knocker<S: Socket> {
    pub(crate) role: Role,
    pub(crate) way: Way,
    pub(crate) greeting: Greeting<S>,
    pub(crate) since: Instant,
    pub(crate) wrong: Option<Instant>,
    pub(crate) lobby: Arc<Lobby, Global>,
    pub(crate) ghost told: { role ≡ (arc_value lobby).role },
    pub(crate) ghost key: { greeting.key ≡ (arc_value lobby).key },
}

impl<S: Socket> Knocker<S> {
    /// What becomes of a newcomer that has said all. One that has answered wrongly waits until it is late.
    fn judge<R: Clock>(&mut self, rt: &R) -> Progress
        ensures { IsSameGreeting self.old.greeting self.new.greeting }
    {
        if self.greeting.is_opened() {
            return Progress::Done;
        }
        if self.wrong.is_some() {
            return Progress::Waits;
        }
        self.wrong = Instant::now(rt).ok();
        match self.wrong {
            Some(_) => Progress::Guessed,
            None => Progress::Gone,
        }
    }

    /// Says and hears, as far as it goes now.
    pub(crate) fn go_on<R: Clock>(&mut self, rt: &R) -> Progress
        ensures { IsSameGreeting self.old.greeting self.new.greeting }
    {
        for _ in 0..MOST_STEPS {
            match self.greeting.step() {
                Ok(true) => {}
                Ok(false) => return self.judge(rt),
                Err(error) => match error.kind() {
                    ErrorKind::WouldBlock => return Progress::Waits,
                    ErrorKind::Interrupted => {}
                    _ => return Progress::Gone,
                },
            }
        }
        Progress::Gone
    }

    /// The address from which it comes, if that is known by now.
    pub(crate) fn address(&self) -> Option<SocketAddr> {
        self.greeting.whence().address()
    }

    /// How many seconds it may take. It has less time where the porter has no room for another newcomer.
    fn most_seconds(&self, is_crowded: bool) -> u64 {
        if is_crowded {
            CROWDED_SECONDS
        } else if self.greeting.has_asked() {
            TYPING_SECONDS
        } else {
            HELLO_SECONDS
        }
    }

    /// Whether it has taken too long, or has waited long enough since it answered wrongly.
    pub(crate) fn is_late(&self, now: Instant, is_crowded: bool) -> bool {
        let (since, most) = match self.wrong {
            Some(wrong) => (wrong, GUESS_SECONDS),
            None => (self.since, self.most_seconds(is_crowded)),
        };
        now.checked_duration_since(since)
            .is_some_and(|passed| passed >= Duration::from_secs(most))
    }

    /// What a log is told of it if it goes now, late or not.
    pub(crate) fn complaint(&self, is_late: bool) -> Option<Event<'static>> {
        if is_late && self.wrong.is_some() {
            return Some(Event::WrongPassword {
                role: self.role,
                address: self.address(),
                way: self.way,
            });
        }
        header_complaint(self.greeting.whence(), self.role, self.way, is_late)
    }

    /// Lets it go, late or not. If it has answered wrongly, it is told so.
    pub(crate) fn dismiss(self, is_late: bool) {
        if is_late && self.wrong.is_some() {
            self.greeting.refuse();
        }
    }
}
