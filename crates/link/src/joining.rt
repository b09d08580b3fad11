//! The join of one host: its link, and how far the two handshakes are, in the hands of steps that take no handle.

ghost use Rattle.std.specs.Prelude.{◌≡◌, ◌<◌, ◌≤◌, ◌≢◌, ℕ, Bool, true, false, List, Option, Some, [], MatchResult, length};
ghost use Rattle.byte_reading.specs.Reading.{wants_more, whole_of};
ghost use Rattle.rfb_wire.specs.Handshake.{Joined};
ghost use Rattle.rfb_wire.specs.Joining.{ahead, to_send};
ghost use Rattle.link.specs.Joins.{FailsAs, LinkFails, first_messages};
ghost use Rattle.link.specs.Links.{LinkState};
ghost use Rattle.link.specs.Moment.{AllIsSaid, IsHeard, IsHearing, IsJoining, IsTelling, IsUnheard, JoinsSoFar};

use crate::hearing::{hear, say};
use crate::link::Link;
use crate::telling::{MESSAGES_LEN, messages_of, tell};
use fault::Fault;
use rfb_wire::{HostHello, Joined};
use std::snapshot::Snapshot;
use vnc_auth::Password;

/// A host's link, what was heard of the host's handshake, and how much the host was given of what it is told.
///
/// Only a join's own steps use these while the join has them. No step takes a handle, so each is proved to end where
/// the link's calls end, and `lawful` holds at its end. So `so_far` is true whenever steps were called, in whatever
/// order and for however long.
#[derive(Drop)]
pub struct Joining<'a, L: Link> {
    link: &'a mut L,
    hello: HostHello,
    // Whether the host's handshake is whole and the client's side was given: then the first messages are told.
    is_heard: bool,
    // The first messages, once they are told, and how many of their bytes were given.
    messages: [u8; MESSAGES_LEN],
    given: usize,
    // How it all began. It is lent, so no step can put another beginning in its place.
    first: &'a Snapshot<L>,
    ghost lawful: { ∥ IsJoining is_heard (L.state first.now.value) (L.state link.now)
        hello messages given ∥₁ },
}

impl<'a, L: Link> Joining<'a, L> {
    /// A join that begins, with this password if one is known, over a link that is still as it was at the beginning.
    pub fn new(password: Option<Password>, first: &'a Snapshot<L>, link: &'a mut L) -> Self
        requires { first.now.value ≡ link.old }
        ensures link { (result.link.now ≡ link.old)
            × (result.link.ghost_name ≡ link.entry.ghost_name) }
        ensures begins { (result.is_heard ≡ false) × IsUnheard result.hello }
        ensures first { result.first ≡ first.entry }
        ensures password { result.hello.password ≡ password }
    {
        Joining {
            link,
            hello: HostHello::new(password),
            is_heard: false,
            messages: [0; MESSAGES_LEN],
            given: 0,
            first,
        }
    }

    /// It does nothing. Its clause says what is true of the join at every moment.
    pub fn so_far(&self)
        ensures { ∥ JoinsSoFar self.now.hello.password
            (L.state self.now.first.now.value) (L.state self.now.link.now) ∥₁ }
    {}

    /// Whether something is to be said to the host that wasn't given yet.
    pub(crate) fn is_owing(&self) -> bool
        ensures owes { result ≡ true → 0 < length (to_send self.now.hello) }
        ensures none { result ≡ false → AllIsSaid self.now.hello }
    {
        !self.hello.out().is_empty()
    }

    /// What the host told, once its handshake is whole.
    pub(crate) fn told(&self) -> Option<Joined>
        ensures { result ≡ whole_of (ahead self.now.hello) }
    {
        self.hello.done()
    }

    /// Gives the link as much as it takes now of what is to be said.
    pub(crate) fn say(&mut self) -> Result<(), Fault>
        requires hears { self.old.is_heard ≡ false }
        requires owes { 0 < length (to_send self.old.hello) }
        ensures keeps { (start : LinkState)
            → IsHearing start (L.state self.old.link.now) self.old.hello
            → MatchResult result (λ _. IsHearing start (L.state self.new.link.now) self.new.hello)
            (λ fault. FailsAs self.old.hello.password fault start (L.state self.new.link.now)) }
        ensures hears { self.new.is_heard ≡ false }
        ensures same { self.new.link.ghost_name ≡ self.old.link.ghost_name }
        ensures first { self.new.first ≡ self.old.first }
        ensures password { self.new.hello.password ≡ self.old.hello.password }
    {
        say(self.link, &mut self.hello)
    }

    /// Takes the next byte of the host's handshake, if it has come.
    pub(crate) fn hear(&mut self) -> Result<(), Fault>
        requires hears { self.old.is_heard ≡ false }
        requires open { wants_more (ahead self.old.hello) ≡ true }
        ensures keeps { (start : LinkState)
            → IsHearing start (L.state self.old.link.now) self.old.hello
            → MatchResult result (λ _. IsHearing start (L.state self.new.link.now) self.new.hello)
            (λ fault. FailsAs self.old.hello.password fault start (L.state self.new.link.now)) }
        ensures hears { self.new.is_heard ≡ false }
        ensures same { self.new.link.ghost_name ≡ self.old.link.ghost_name }
        ensures first { self.new.first ≡ self.old.first }
        ensures password { self.new.hello.password ≡ self.old.hello.password }
    {
        hear(self.link, &mut self.hello)
    }

    /// From now on the host, whose handshake is whole, is told the first messages.
    pub(crate) fn begin_messages(&mut self, joined: &Joined)
        requires hears { self.old.is_heard ≡ false }
        requires whole { whole_of (ahead self.old.hello) ≡ Some joined.now }
        requires said { AllIsSaid self.old.hello }
        requires size { (joined.now.w ≤ 4096) × (joined.now.h ≤ 4096) }
        ensures tells { (self.new.is_heard ≡ true) × (self.new.given ≡ 0)
            × (self.new.messages ≡ first_messages joined.now) }
        ensures link { (self.new.link.now ≡ self.old.link.now)
            × (self.new.link.ghost_name ≡ self.old.link.ghost_name) }
        ensures first { self.new.first ≡ self.old.first }
        ensures password { self.new.hello.password ≡ self.old.hello.password }
    {
        self.messages = messages_of(joined.w, joined.h);
        self.given = 0;
        self.is_heard = true;
    }

    /// Whether all bytes of the first messages were given.
    pub(crate) fn is_told(&self) -> bool
        ensures whole { result ≡ true → length self.now.messages ≤ self.now.given }
        ensures part { result ≡ false → self.now.given < length self.now.messages }
    {
        self.given >= MESSAGES_LEN
    }

    /// Gives the link as much as it takes now of the first messages.
    pub(crate) fn tell(&mut self) -> Result<(), Fault>
        requires tells { self.old.is_heard ≡ true }
        requires part { self.old.given < length self.old.messages }
        ensures keeps { (password : Option (List ℕ)) (start : LinkState) (joined : Joined)
            → IsTelling password start (L.state self.old.link.now)
            joined self.old.messages self.old.given
            → MatchResult result (λ _. IsTelling password start
            (L.state self.new.link.now) joined self.new.messages self.new.given)
            (λ fault. LinkFails fault start (L.state self.new.link.now)) }
        ensures tells { self.new.is_heard ≡ true }
        ensures same { self.new.link.ghost_name ≡ self.old.link.ghost_name }
        ensures first { self.new.first ≡ self.old.first }
        ensures password { self.new.hello.password ≡ self.old.hello.password }
    {
        tell(self.link, &self.messages, &mut self.given)
    }
}
