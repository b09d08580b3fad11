//! A peer at the other end of a link: a viewer, or an end of a host.

use crate::board::{Board, Gate};
use crate::bytes::{ANSWER, ANSWER_LEN, ASK, GREETING, PRESS, RELEASE};
use crate::follower::Follower;
use crate::sight::Sight;
use link::{Gave, Took};
use std::alloc::Global;
use std::sync::Arc;
use std::sync::atomic::Ordering;
use std::thread;

/// A key event (RFC 6143, 7.5.4).
pub(crate) type Key = [u8; 8];

/// What a peer does.
pub(crate) enum Act {
    /// Sends these bytes.
    Says(&'static [u8]),
    /// Holds the call until the gate is open.
    Waits(Gate),
    /// Asks, again after each answer, until it was shown this update.
    AsksFor(u64),
    /// Asks by this request, again after each answer, until it was shown this update.
    Requests(&'static [u8], u64),
    /// Hands out this many key events, one at a time: key 65 is pressed and released by turns.
    Types(u64),
    /// Ends.
    Ends,
    /// Its link fails.
    Fails,
}

/// How a peer takes what it is given. A viewer takes all of its greeting at once.
pub(crate) enum Taking {
    /// A viewer: all of it at once.
    AtOnce,
    /// A viewer: all of it at once. Its visit ends with a fault of this number, or with none, 0.
    Leaves(u64),
    /// A viewer: nothing of it until the gate is open.
    Stalls(Gate),
    /// A viewer: each `give` is held until the gate is open.
    Held(Gate),
    /// A viewer that follows its answers: all of it at once.
    Follows(&'static Sight),
    /// A viewer: one byte at the first `give`. At the second one its link fails.
    Breaks,
    /// A host that takes a whole handshake. It wants no key event.
    Joins,
    /// A host that is told: it wants to be asked for the screen, and these key events, by twos. The first of them it
    /// takes only once the gate is open.
    Told(Gate, &'static [[Key; 2]]),
    /// A host that is told: its link fails at the first key event, which is the next of these. It is told nothing more.
    FailsAt(&'static [[Key; 2]]),
}

/// What a peer does, one act after another and then nothing more, and how it takes what it is given.
pub(crate) struct Script {
    pub(crate) acts: &'static [Act],
    pub(crate) taking: Taking,
}

/// A peer of one place, or of none.
#[derive(Drop)]
pub(crate) struct Peer {
    pub(crate) board: Arc<Board, Global>,
    pub(crate) place: usize,
    pub(crate) script: &'static Script,
    /// The number of its next act.
    pub(crate) next: usize,
    /// What is left of the bytes that it sends.
    pub(crate) left: &'static [u8],
    /// How often it asked, how many key events it handed out, and how many answers it was given whole.
    pub(crate) asked: usize,
    pub(crate) typed: u64,
    pub(crate) answers: usize,
    pub(crate) heard: Vec<u8>,
    /// One that follows its answers: what it holds, how many of the bytes it followed, and the update it was shown.
    pub(crate) follower: Follower,
    pub(crate) followed: usize,
    pub(crate) number: u64,
}

impl Peer {
    /// Asks, unless it did since the last answer, or was shown this update, which is answered.
    fn ask(&mut self, request: &'static [u8], update: u64) -> bool {
        let was_shown = self.board.is_open(&Gate::Shown(self.place, update));
        if !was_shown && self.asked <= self.answers {
            self.asked = self.asked.wrapping_add(1);
            self.left = request;
        }
        was_shown
    }

    /// Begins its next act, or goes on with it: what it sends of that, and whether the act is done. An act that is held
    /// too long fails, and after an end there is nothing more.
    fn act(&mut self) -> Result<bool, Took> {
        match self.script.acts.get(self.next) {
            Some(Act::Says(bytes)) => {
                self.left = bytes;
                Ok(true)
            }
            Some(Act::Waits(gate)) if self.board.hold(gate) => Ok(true),
            Some(Act::Waits(_)) => Err(Took::Failed),
            Some(Act::AsksFor(update)) => Ok(self.ask(ASK, *update)),
            Some(Act::Requests(request, update)) => Ok(self.ask(request, *update)),
            Some(Act::Types(count)) if self.typed < *count => {
                self.typed = self.typed.wrapping_add(1);
                let _ = self.board.handed.fetch_add(1, Ordering::SeqCst);
                self.left = if self.typed % 2 == 1 { PRESS } else { RELEASE };
                Ok(false)
            }
            Some(Act::Types(_)) => Ok(true),
            Some(Act::Ends) => Err(Took::End),
            Some(Act::Fails) => Err(Took::Failed),
            None => Ok(false),
        }
    }

    /// The bytes that it sends, at the front of the slice: as many as there is room for. The others are left.
    pub(crate) fn speak(&mut self, into: &mut [u8]) -> Took {
        self.look();
        if self.left.is_empty() {
            match self.act() {
                Ok(true) => self.next = self.next.wrapping_add(1),
                Ok(false) => {}
                Err(took) => return took,
            }
        }
        if self.left.is_empty() {
            thread::yield_now();
            return Took::Nothing;
        }
        let count = self.left.len().min(into.len());
        let (now, later) = self.left.split_at(count);
        let (front, _) = into.split_at_mut(count);
        front.copy_from_slice(now);
        self.left = later;
        Took::Bytes(count)
    }

    /// Takes these bytes, as a viewer.
    fn keep(&mut self, bytes: &[u8]) -> Gave {
        if self.heard.extend_from_slice(bytes).is_err() {
            self.board.check(false);
            return Gave::Failed;
        }
        Gave::Bytes(bytes.len())
    }

    /// Looks at the next answer, if it is whole. What is given comes only once the link is taken from, or flushed.
    pub(crate) fn look(&mut self) {
        match &self.script.taking {
            Taking::Follows(sight) => self.follow(sight),
            _ => self.look_at_both(),
        }
    }

    /// Looks at an answer of the screen of 2 by 1: both of its pixels have the same colour.
    fn look_at_both(&mut self) {
        let start = GREETING
            .len()
            .saturating_add(self.answers.saturating_mul(ANSWER_LEN));
        if let Some(answer) = self.heard.get(start..)
            && ANSWER_LEN <= answer.len()
        {
            self.answers = self.answers.wrapping_add(1);
            let (head, colours) = answer.split_at(ANSWER.len());
            self.board.check(head == ANSWER && colours[0] == colours[4]);
            self.board.show(self.place, u64::from(colours[0]));
        }
    }

    /// Follows an answer. After it the peer holds the area asked for as it is after some update, which isn't before the
    /// one that it was shown last.
    fn follow(&mut self, sight: &Sight) {
        let view = self.board.view;
        if self.followed == 0 && view.greeting.len() <= self.heard.len() {
            self.followed = view.greeting.len();
            let is_begun = self.follower.begin(view.w, view.h).is_ok();
            self.board.check(is_begun);
        }
        let answers = self.heard.get(self.followed..).unwrap_or(b"");
        let Some(used) = self.follower.follow(answers, &sight.format) else {
            return;
        };
        self.followed = self.followed.wrapping_add(used);
        self.answers = self.answers.wrapping_add(1);
        match sight.number(&self.follower, view, self.number) {
            Some(number) => {
                self.number = number;
                self.board.reach(self.place, number);
            }
            None => self.board.check(false),
        }
    }

    /// Whether it followed all that it was given, up to the last update, in each encoding that has to come.
    pub(crate) fn has_followed(&self, sight: &Sight) -> bool {
        let is_whole = self.followed == self.heard.len();
        is_whole && self.number == self.board.view.updates && sight.has_come(&self.follower)
    }

    /// Hears a key event, as a host: the next of these.
    fn hear_key(&mut self, keys: &[[Key; 2]], bytes: &[u8]) {
        let number = self.board.told.fetch_add(1, Ordering::SeqCst);
        self.board.check(match keys.get(number as usize / 2) {
            Some(pair) => pair[number as usize % 2].as_slice() == bytes,
            None => false,
        });
    }

    /// How many of these bytes it takes.
    pub(crate) fn hear(&mut self, bytes: &[u8]) -> Gave {
        let is_greeted = GREETING.len() <= self.heard.len();
        let is_key = bytes.first() == Some(&4);
        match &self.script.taking {
            Taking::Stalls(gate) if is_greeted && !self.board.is_open(gate) => {
                thread::yield_now();
                return Gave::Nothing;
            }
            Taking::Held(gate) if is_greeted && !self.board.hold(gate) => return Gave::Failed,
            Taking::Breaks if GREETING.len() < self.heard.len() => return Gave::Failed,
            Taking::Breaks if is_greeted => {
                let (first, _) = bytes.split_at(bytes.len().min(1));
                return self.keep(first);
            }
            Taking::Told(gate, _) if is_key && !self.board.hold(gate) => return Gave::Failed,
            Taking::Told(_, keys) if is_key => self.hear_key(keys, bytes),
            Taking::FailsAt(keys) if is_key => {
                // Nothing more is to come.
                self.board.check(self.typed == 0);
                self.typed = 1;
                self.hear_key(keys, bytes);
                return Gave::Failed;
            }
            Taking::FailsAt(_) => self
                .board
                .check(self.typed == 0 && bytes.first() == Some(&3)),
            // What isn't a key event asks for the screen.
            Taking::Told(..) => self.board.check(bytes.first() == Some(&3)),
            Taking::Joins => self.board.check(!is_key),
            _ => return self.keep(bytes),
        }
        Gave::Bytes(bytes.len())
    }
}
