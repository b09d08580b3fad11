//! What is said to a newcomer over TCP, and heard from it, before it is a viewer.

ghost use Rattle.std.specs.Prelude.{◌≡◌, ◌≤◌, ◌+◌, ◌++◌, length};
ghost use Rattle.rfb_wire.specs.Handshake.{version};

use crate::greeted::{GreetedSocket, MOST_SHOWN, MOST_SPOKEN};
use crate::key::{
    ANSWERED_LEN, Key, NONE, QUESTION_LEN, TYPES_LEN, VNC_AUTHENTICATION, question, right_answer,
};
use crate::noted::Noted;
use crate::refusal::wrong_password_bytes;
use crate::socket::Socket;
use crate::whence::Whence;
use arrayvec::ArrayVec;
use link::Record;
use mio::event::Source;
use mio::net::TcpStream;
use mio::{Interest, Registry, Token};
use std::io;
use std::io::ErrorKind;
use std::marker::Model;
use std::net::SocketAddr;
use vnc_auth::{CHALLENGE_LEN, Password};

/// The bytes of a version (RFC 6143, section 7.1.1).
pub(crate) const VERSION_LEN: usize = 12;

/// The version that is said to each newcomer.
pub(crate) const VERSION: [u8; VERSION_LEN] = *b"RFB 003.008\n";

/// The greeting of a newcomer over a socket. First the header of a proxy is heard, if the newcomer comes from the
/// believed proxy; then the version is said; and then the newcomer's version is heard. At a locked port a question is
/// asked then, and its answer heard (VNC Authentication, RFC 6143, 7.1.2, 7.2.2). Nothing after that is taken.
#[derive(Drop)]
pub struct Greeting<S: Socket> {
    socket: S,
    whence: Whence,
    key: Key,
    // This newcomer's own. No other newcomer is asked it.
    challenge: [u8; CHALLENGE_LEN],
    // How many bytes of the version were said.
    said: usize,
    own: ArrayVec<u8, VERSION_LEN>,
    // How many bytes of the question were said, and those that have answered it.
    asked: usize,
    answered: ArrayVec<u8, ANSWERED_LEN>,
}

impl<S: Socket> Model for Greeting<S> {
    ghost use Rattle.connections.specs.Greetings.{Begun, IsGreeting};

    ghost Value = { Begun };

    ghost view = { λ g. record {
      whence = g.whence;
      key = g.key;
      challenge = g.challenge;
      said = g.said;
      own = g.own.items;
      asked = g.asked;
      answered = g.answered.items;
      sent = S.sent g.socket;
      received = S.received g.socket;
    } };

    ghost invariant = { λ g. IsGreeting (record {
      whence = g.whence;
      key = g.key;
      challenge = g.challenge;
      said = g.said;
      own = g.own.items;
      asked = g.asked;
      answered = g.answered.items;
      sent = S.sent g.socket;
      received = S.received g.socket;
    }) };
}

/// The error of a peer that has ended.
fn ended() -> io::Error {
    io::Error::from(ErrorKind::UnexpectedEof)
}

/// The error of a peer that sends something else than is wanted.
fn unwanted() -> io::Error {
    io::Error::from(ErrorKind::InvalidData)
}

/// The bytes with which an owner has to begin: the version, and these.
pub(crate) fn spoken_of(more: &[u8]) -> ArrayVec<u8, MOST_SPOKEN>
    requires { length more.now ≤ 2 }
    ensures { result.items ≡ version ++ more.now }
{
    let mut spoken = ArrayVec::new();
    let _ = spoken.try_extend_from_slice(&VERSION);
    let _ = spoken.try_extend_from_slice(more);
    spoken
}

/// The bytes that an owner hears first: this version, and these.
pub(crate) fn shown_of(own: &[u8], more: &[u8]) -> ArrayVec<u8, MOST_SHOWN>
    requires { length own.now + length more.now ≤ 13 }
    ensures { result.items ≡ own.now ++ more.now }
{
    let mut shown = ArrayVec::new();
    let _ = shown.try_extend_from_slice(own);
    let _ = shown.try_extend_from_slice(more);
    shown
}

impl<S: Socket> Greeting<S> {
    ghost use Rattle.std.specs.Prelude.{◌≡◌, ◌≤◌, ◌<◌, ◌∷◌, ◌++◌, ◌↔◌, [], IfOk, IfSome, IsTrue, Ok, Some, false, length, take, true};
    ghost use Rattle.rfb_wire.specs.Handshake.{version};
    ghost use Rattle.connections.specs.declared.key.Key.TheVariants.{Locked, Open};
    ghost use Rattle.connections.specs.Keys.{HasUnlocked, Opens, Unlocks, is_locked};
    ghost use Rattle.connections.specs.Greetings.{IsGreeted, IsGreeting, IsKnown, IsSameGreeting, IsUnlocked, IsWelcome};

    /// The greeting of a newcomer that comes from there, over a socket by which nothing was sent or received, at a port
    /// with this key. The challenge has to be this newcomer's own.
    pub fn new(socket: S, whence: Whence, key: Key, challenge: [u8; CHALLENGE_LEN]) -> Greeting<S>
        requires sent { S.sent socket ≡ [] }
        requires received { S.received socket ≡ [] }
        requires front { whence.front ≡ [] }
        ensures whence { result.whence ≡ whence }
        ensures key { result.key ≡ key }
        ensures challenge { result.challenge ≡ challenge }
        ensures said { result.said ≡ 0 }
        ensures own { result.own ≡ [] }
    {
        Greeting {
            socket,
            whence,
            key,
            challenge,
            said: 0,
            own: ArrayVec::new(),
            asked: 0,
            answered: ArrayVec::new(),
        }
    }

    /// It does nothing. Its clause says what is true at every moment. What was sent is the beginning of the version and
    /// of what is asked at a locked port. What was received is a header and the beginning of the newcomer's own version
    /// and of its answer. Nothing was said or heard before its turn.
    pub fn is_right(&self)
        ensures { IsGreeting self.now }
    {
        let _ = &self.said;
    }

    /// Where the newcomer comes from.
    pub fn whence(&self) -> &Whence
        ensures { result.now ≡ self.now.whence }
    {
        &self.whence
    }

    /// The key of the port.
    pub fn key(&self) -> Key
        ensures { result ≡ self.now.key }
    {
        self.key
    }

    /// Hears a byte of the header.
    #[tactic(auto, using(crate::proofs::Heard::behind_header))]
    fn hear_header(&mut self) -> io::Result<()>
        requires proxied { self.old.whence.is_proxied ≡ true }
        requires none { length self.old.own ≡ 0 }
        requires unasked { self.old.asked ≡ 0 }
        ensures { IsSameGreeting self.old self.new }
    {
        let mut byte = [0u8; 1];
        if self.socket.receive(&mut byte)? == 0 {
            return Err(ended());
        }
        self.whence.feed(byte[0]);
        Ok(())
    }

    /// Says what is left of the version, as far as it goes.
    #[tactic(auto, using(crate::proofs::Asked::said_more))]
    fn say(&mut self) -> io::Result<()>
        requires unasked { self.old.asked ≡ 0 }
        ensures { IsSameGreeting self.old self.new }
    {
        let (_, left) = VERSION.split_at(self.said);
        let count = self.socket.send(left)?;
        if count == 0 {
            return Err(io::Error::from(ErrorKind::WriteZero));
        }
        self.said += count;
        Ok(())
    }

    /// Hears what is missing of the newcomer's own version, as far as it has come.
    #[tactic(auto, using(crate::proofs::Heard::more))]
    fn hear(&mut self) -> io::Result<()>
        requires said { self.old.said ≡ 12 }
        requires unasked { self.old.asked ≡ 0 }
        ensures { IsSameGreeting self.old self.new }
    {
        let mut room = [0u8; VERSION_LEN];
        let (room, _) = room.split_at_mut(VERSION_LEN - self.own.len());
        let count = self.socket.receive(room)?;
        if count == 0 {
            return Err(ended());
        }
        let (heard, _) = room.split_at(count);
        let _ = self.own.try_extend_from_slice(heard);
        Ok(())
    }

    /// Says more of the question: what is left of its first `due` bytes, as far as it goes.
    fn ask(&mut self, due: usize) -> io::Result<()>
        requires due { due ≤ 18 }
        requires left { self.old.asked ≤ due }
        requires locked { is_locked self.old.key ≡ true }
        requires version { self.old.own ≡ version }
        requires choice { 2 < due → take 1 self.old.answered ≡ 2 ∷ [] }
        ensures { IsSameGreeting self.old self.new }
    {
        let question = question(&self.challenge);
        let (_, left) = question.split_at(self.asked);
        let (left, _) = left.split_at(due - self.asked);
        let count = self.socket.send(left)?;
        if count == 0 {
            return Err(io::Error::from(ErrorKind::WriteZero));
        }
        self.asked += count;
        Ok(())
    }

    /// Hears more of the answer: what is missing of its first `wanted` bytes, as far as they have come.
    #[tactic(auto, using(crate::proofs::Asked::heard, crate::proofs::Asked::same_choice))]
    fn hear_answer(&mut self, wanted: usize) -> io::Result<()>
        requires wanted { wanted ≤ 17 }
        requires missing { length self.old.answered ≤ wanted }
        requires choice_in_turn { 2 ≤ self.old.asked }
        requires answer_in_turn { 1 < wanted → self.old.asked ≡ 18 }
        requires none { wanted ≡ 1 → self.old.asked ≡ 2 }
        ensures { IsSameGreeting self.old self.new }
    {
        let mut room = [0u8; ANSWERED_LEN];
        let (room, _) = room.split_at_mut(wanted - self.answered.len());
        let count = self.socket.receive(room)?;
        if count == 0 {
            return Err(ended());
        }
        let (heard, _) = room.split_at(count);
        let _ = self.answered.try_extend_from_slice(heard);
        Ok(())
    }

    /// Goes on with the lock by one read or one write: says the list of types, hears the choice, says the challenge and
    /// hears its answer. It answers false where nothing is left of that. It fails where the newcomer has another
    /// version or chooses another type, too.
    fn unlock(&mut self) -> io::Result<bool>
        requires locked { is_locked self.old.key ≡ true }
        requires said { self.old.said ≡ 12 }
        ensures same { IsSameGreeting self.old self.new }
        ensures over { IfOk result (λ goes_on. goes_on ≡ false → length self.new.own ≡ 12) }
    {
        if self.own.as_slice() != VERSION.as_slice() {
            return Err(unwanted());
        }
        if self.asked < TYPES_LEN {
            self.ask(TYPES_LEN)?;
            return Ok(true);
        }
        match self.answered.first() {
            None => self.hear_answer(1)?,
            Some(choice) if *choice != VNC_AUTHENTICATION => return Err(unwanted()),
            Some(_) if self.asked < QUESTION_LEN => self.ask(QUESTION_LEN)?,
            Some(_) if !self.answered.is_full() => self.hear_answer(ANSWERED_LEN)?,
            Some(_) => return Ok(false),
        }
        Ok(true)
    }

    /// Says or hears a version, where it is still to be: after the header. It answers false where both were.
    fn exchange_versions(&mut self) -> io::Result<bool>
        requires unasked { self.old.asked ≡ 0 }
        ensures same { IsSameGreeting self.old self.new }
        ensures over { IfOk result (λ goes_on.
            goes_on ≡ false → (self.new.said ≡ 12) × (length self.new.own ≡ 12)) }
    {
        match self.whence.known() {
            None if self.said == 0 => self.hear_header()?,
            Some(Ok(_)) if self.said < VERSION_LEN => self.say()?,
            Some(Ok(_)) if !self.own.is_full() => self.hear()?,
            Some(Ok(_)) => return Ok(false),
            None | Some(Err(_)) => return Err(unwanted()),
        }
        Ok(true)
    }

    /// Goes on by one read or one write. It answers false where nothing is left to be said or heard. It fails where the
    /// system does, where the peer has ended, where the peer sent no header though one was due, and where a newcomer to
    /// a locked port has another version or chooses another type.
    pub fn step(&mut self) -> io::Result<bool>
        ensures same { IsSameGreeting self.old self.new }
        ensures over { IfOk result (λ goes_on. goes_on ≡ false → length self.new.own ≡ 12) }
    {
        if self.asked == 0 && self.exchange_versions()? {
            return Ok(true);
        }
        if self.key.is_locked() {
            self.unlock()
        } else {
            Ok(false)
        }
    }

    /// Whether what has come opens the port.
    pub fn is_opened(&self) -> bool
        ensures { IsTrue result ↔ Opens self.now.key self.now.challenge self.now.answered }
    {
        self.key
            .is_opened_by(&self.challenge, self.answered.as_slice())
    }

    /// Whether a whole question was asked.
    pub fn has_asked(&self) -> bool
        ensures { IsTrue result ↔ (self.now.asked ≡ 18) }
    {
        self.asked == QUESTION_LEN
    }

    /// Tells a newcomer that has answered that the answer was wrong.
    pub(crate) fn refuse(self) {
        if self.answered.is_full() && !self.is_opened() {
            let Greeting { mut socket, .. } = self;
            let _ = socket.send(&wrong_password_bytes());
        }
    }

    /// The socket of a newcomer to an open port, once its version has come.
    fn welcomed(self) -> Option<GreetedSocket<S>>
        requires open { self.key ≡ Open }
        ensures welcome { IfSome result (λ g. IsWelcome g) }
        ensures unsent { IfSome result (λ g. g.sent ≡ []) }
        ensures unreceived { IfSome result (λ g. g.received ≡ []) }
        ensures sent { IfSome result (λ g. g.below_sent ≡ self.sent) }
        ensures received { IfSome result (λ g. g.below_received ≡ self.received) }
        ensures said { IfSome result (λ g. self.sent ≡ g.said) }
        ensures heard { IfSome result (λ g. self.received ≡ self.whence.front ++ g.heard) }
    {
        if self.asked > 0 || !self.own.is_full() {
            return None;
        }
        let Greeting {
            socket,
            whence,
            own,
            ..
        } = self;
        let mut said = Record::new();
        said.note(&VERSION);
        let mut heard = Record::new();
        heard.note(own.as_slice());
        let spoken = spoken_of(&[]);
        let shown = shown_of(own.as_slice(), &[]);
        let front = whence.into_front();
        Some(GreetedSocket::greeted(socket, front, said, heard, spoken, shown))
    }

    /// The socket of a newcomer to a port that is locked with this password, once the right answer to its challenge has
    /// come.
    fn unlocked(self, password: &Password) -> Option<GreetedSocket<S>>
        requires locked { self.key ≡ Locked password.now }
        ensures welcome { IfSome result (λ g. IsUnlocked g) }
        ensures unlocked { IfSome result (λ g. Unlocks password.now g.said g.heard) }
        ensures unsent { IfSome result (λ g. g.sent ≡ []) }
        ensures unreceived { IfSome result (λ g. g.received ≡ []) }
        ensures sent { IfSome result (λ g. g.below_sent ≡ self.sent) }
        ensures received { IfSome result (λ g. g.below_received ≡ self.received) }
        ensures said { IfSome result (λ g. self.sent ≡ g.said) }
        ensures heard { IfSome result (λ g. self.received ≡ self.whence.front ++ g.heard) }
    {
        if self.asked < QUESTION_LEN || self.own.as_slice() != VERSION.as_slice() {
            return None;
        }
        if self.answered.as_slice() != right_answer(password, &self.challenge).as_slice() {
            return None;
        }
        let Greeting {
            socket,
            whence,
            challenge,
            own,
            answered,
            ..
        } = self;
        let mut said = Record::new();
        said.note(&VERSION);
        said.note(&question(&challenge));
        let mut heard = Record::new();
        heard.note(own.as_slice());
        heard.note(answered.as_slice());
        let spoken = spoken_of(&[1, NONE]);
        let shown = shown_of(&VERSION, &[NONE]);
        let front = whence.into_front();
        Some(GreetedSocket::greeted(socket, front, said, heard, spoken, shown))
    }

    /// The socket, for its owner from now on, and the newcomer's address, once the newcomer's version has come and, at
    /// a locked port, the right answer to its challenge. Until then it answers `None`.
    pub fn done(self) -> Option<(GreetedSocket<S>, Option<SocketAddr>)>
        ensures greeted { IfSome result (λ both. IsGreeted self.key both.0) }
        ensures unlocked { IfSome result (λ both. HasUnlocked self.key both.0.said both.0.heard) }
        ensures unsent { IfSome result (λ both. both.0.sent ≡ []) }
        ensures unreceived { IfSome result (λ both. both.0.received ≡ []) }
        ensures address { IfSome result (λ both. IsKnown self.whence (Some (Ok both.1))) }
        ensures sent { IfSome result (λ both. both.0.below_sent ≡ self.sent) }
        ensures received { IfSome result (λ both. both.0.below_received ≡ self.received) }
        ensures said { IfSome result (λ both. self.sent ≡ both.0.said) }
        ensures heard { IfSome result (λ both. self.received ≡ self.whence.front ++ both.0.heard) }
    {
        let Some(Ok(address)) = self.whence.known() else {
            return None;
        };
        let key = self.key;
        let socket = match &key {
            Key::Open => self.welcomed()?,
            Key::Locked(password) => self.unlocked(password)?,
        };
        Some((socket, address))
    }
}

impl Source for Greeting<Noted<TcpStream>> {
    ghost use Rattle.std.specs.Prelude.{◌≡◌};

    ghost keeps = { λ old new. new ≡ old };

    fn register(
        &mut self,
        registry: &Registry,
        token: Token,
        interests: Interest,
    ) -> io::Result<()> {
        self.socket.register(registry, token, interests)
    }

    fn reregister(
        &mut self,
        registry: &Registry,
        token: Token,
        interests: Interest,
    ) -> io::Result<()> {
        self.socket.reregister(registry, token, interests)
    }

    fn deregister(&mut self, registry: &Registry) -> io::Result<()> {
        self.socket.deregister(registry)
    }
}
