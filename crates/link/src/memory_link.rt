//! A link in memory.

ghost use Rattle.std.specs.Prelude.{◌≡◌, ℕ, ◌+◌, ◌≤◌, [], ◌++◌, length, take, IfOk, IfErr};
ghost use Rattle.fault.specs.declared.kinds.Fault.TheVariants.{Memory};

use crate::link::{Gave, Link, Took};
use fault::{Fault, LIMIT};
use std::alloc::Global;
use std::marker::Model;

/// A link whose peer is a list of answers to `take` and a list of answers to `give`.
///
/// `Took::Bytes(n)` brings the next `n` of the bytes that the peer sends. Bytes for which the slice has no room come at
/// the next call. `Gave::Bytes(n)` takes `n` bytes, or all of a shorter slice, and is used up. A call for which no byte
/// is left answers Nothing, and a list that is used up answers End. No call takes memory.
#[derive(Drop)]
pub struct MemoryLink {
    sends: Vec<u8>,
    taken: usize,
    takes: Vec<Took>,
    next_take: usize,
    // What the peer was given, and room for all that it may still be given.
    room: Vec<u8>,
    given: usize,
    gives: Vec<Gave>,
    next_give: usize,
    failures: u64,
    ends: u64,
}

impl Model for MemoryLink {
    ghost use Rattle.std.specs.Prelude.{◌≤◌, ◌^◌, length, take};
    ghost use Rattle.link.specs.Links.{LinkState};

    ghost Value = { LinkState };

    ghost view = { λ l. record {
      taken = take l.taken l.sends.items;
      given = take l.given l.room.items;
      failed = l.failures;
      ended = l.ends;
    } };

    ghost invariant = { λ l. (l.taken ≤ length l.sends.items) × (l.given ≤ length l.room.items)
        × (l.failures ≤ 2 ^ 62) × (l.ends ≤ 2 ^ 62) };
}

/// How many bytes these answers allow in all.
fn most(gives: &[Gave]) -> usize {
    let mut most: usize = 0;
    for answer in gives {
        if let Gave::Bytes(count) = answer {
            most = most.saturating_add(*count);
        }
    }
    most
}

/// Puts these bytes into the slice from `start` on.
fn put_at(slice: &mut [u8], start: usize, bytes: &[u8])
    requires { start + length bytes.now ≤ length slice.old }
    ensures len { length slice.new ≡ length slice.old }
    ensures bytes { take (start + length bytes.now) slice.new ≡ take start slice.old ++ bytes.now }
{
    let (_, back) = slice.split_at_mut(start);
    let (front, _) = back.split_at_mut(bytes.len());
    front.copy_from_slice(bytes);
}

impl MemoryLink {
    ghost use Rattle.std.specs.Prelude.{◌≡◌, [], IfOk, IfErr};
    ghost use Rattle.link.specs.Links.{with_end, with_failure};

    /// A link to a peer that sends these bytes. It fails where room for all that the peer may be given is refused
    /// (`Memory`).
    pub fn new(
        alloc: Global,
        sends: Vec<u8>,
        takes: Vec<Took>,
        gives: Vec<Gave>,
    ) -> Result<MemoryLink, Fault>
        ensures ok { IfOk result (λ link.
            link ≡ record { taken = []; given = []; failed = 0; ended = 0 }) }
        ensures err { IfErr result (λ fault. fault ≡ Memory) }
    {
        let room = vec![in alloc; 0u8; most(gives.as_slice())]?;
        Ok(MemoryLink {
            sends,
            taken: 0,
            takes,
            next_take: 0,
            room,
            given: 0,
            gives,
            next_give: 0,
            failures: 0,
            ends: 0,
        })
    }

    /// The bytes that were taken from the peer.
    pub fn taken(&self) -> &[u8]
        ensures { result.now ≡ self.now.taken }
    {
        &self.sends[..self.taken]
    }

    /// The bytes that the peer was given.
    pub fn given(&self) -> &[u8]
        ensures { result.now ≡ self.now.given }
    {
        &self.room[..self.given]
    }

    /// The next answer to `take`. Where it brings more bytes than there is room for, the rest is kept for the next
    /// call.
    fn answer_take(&mut self, room: usize) -> Took
        ensures { self.new ≡ self.old }
    {
        if self.next_take >= self.takes.len() {
            return Took::End;
        }
        let answer = self.takes[self.next_take];
        match answer {
            Took::Bytes(count) if room < count => {
                self.takes[self.next_take] = Took::Bytes(count - room);
            }
            _ => self.next_take += 1,
        }
        answer
    }

    /// The next answer to `give`.
    fn answer_give(&mut self) -> Gave
        ensures { self.new ≡ self.old }
    {
        if self.next_give >= self.gives.len() {
            return Gave::End;
        }
        let answer = self.gives[self.next_give];
        self.next_give += 1;
        answer
    }

    fn fail(&mut self)
        ensures { self.new ≡ with_failure self.old }
    {
        self.failures = LIMIT.min(self.failures + 1);
    }

    fn end(&mut self)
        ensures { self.new ≡ with_end self.old }
    {
        self.ends = LIMIT.min(self.ends + 1);
    }
}

impl Link for MemoryLink {
    ghost state = { λ l. l };

    fn take(&mut self, into: &mut [u8]) -> Took {
        match self.answer_take(into.len()) {
            Took::Bytes(count) => self.bring(count, into),
            Took::Nothing => Took::Nothing,
            Took::End => {
                self.end();
                Took::End
            }
            Took::Failed => {
                self.fail();
                Took::Failed
            }
        }
    }

    fn give(&mut self, bytes: &[u8]) -> Gave {
        match self.answer_give() {
            Gave::Bytes(count) => self.keep(count, bytes),
            Gave::Nothing => Gave::Nothing,
            Gave::End => {
                self.end();
                Gave::End
            }
            Gave::Failed => {
                self.fail();
                Gave::Failed
            }
        }
    }

    fn failures(&self) -> u64 {
        self.failures
    }
}

impl MemoryLink {
    ghost use Rattle.link.specs.Links.{TakesAs, GivesAs};

    /// Brings this many of the bytes, or as many as there are and as fit.
    fn bring(&mut self, wanted: usize, into: &mut [u8]) -> Took
        ensures { TakesAs result self.old self.new into.new }
    {
        let (_, left) = self.sends.split_at(self.taken);
        let count = wanted.min(left.len()).min(into.len());
        if count == 0 {
            return Took::Nothing;
        }
        let (bytes, _) = left.split_at(count);
        put_at(into, 0, bytes);
        self.taken += count;
        Took::Bytes(count)
    }

    /// Keeps this many of the bytes, or as many as there are and as fit.
    fn keep(&mut self, wanted: usize, bytes: &[u8]) -> Gave
        ensures { GivesAs result self.old self.new bytes.now }
    {
        let count = wanted.min(bytes.len()).min(self.room.len() - self.given);
        if count == 0 {
            return Gave::Nothing;
        }
        let (kept, _) = bytes.split_at(count);
        put_at(self.room.as_mut_slice(), self.given, kept);
        self.given += count;
        Gave::Bytes(count)
    }
}
