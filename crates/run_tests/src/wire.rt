//! A link in memory whose peer may wait for other peers.

ghost use Rattle.std.specs.Prelude.{◌≡◌};
ghost use Rattle.run_traits.specs.Unused.{unused};

use crate::peer::Peer;
use fault::LIMIT;
use link::{Gave, Link, Record, Took};
use std::marker::Model;

/// A link to a peer in memory.
#[derive(Drop)]
pub(crate) struct Wire {
    pub(crate) peer: Peer,
    taken: Record,
    given: Record,
    failures: u64,
    ends: u64,
}

impl Model for Wire {
    ghost use Rattle.std.specs.Prelude.{◌≤◌, ◌^◌};
    ghost use Rattle.link.specs.Links.{LinkState};

    ghost Value = { LinkState };

    ghost view = { λ w. record {
      taken = w.taken.bytes;
      given = w.given.bytes;
      failed = w.failures;
      ended = w.ends;
    } };

    ghost invariant = { λ w. (w.failures ≤ 2 ^ 62) × (w.ends ≤ 2 ^ 62) };
}

impl Wire {
    ghost use Rattle.link.specs.Links.{with_end, with_failure};

    /// A link that has done nothing.
    pub(crate) fn new(peer: Peer) -> Wire
        ensures { result ≡ unused }
    {
        Wire {
            peer,
            taken: Record::new(),
            given: Record::new(),
            failures: 0,
            ends: 0,
        }
    }

    fn fail(&mut self)
        ensures { self.new ≡ with_failure self.old }
    {
        self.failures = LIMIT.min(self.failures + 1);
    }

    fn end(&mut self)
        ensures { self.new ≡ with_end self.old }
    {
        self.ends = LIMIT.min(self.ends + 1);
    }
}

impl Link for Wire {
    ghost state = { λ w. w };

    fn take(&mut self, into: &mut [u8]) -> Took {
        match self.peer.speak(into) {
            Took::Bytes(count) if 1 <= count && count <= into.len() => {
                let (came, _) = into.split_at(count);
                self.taken.note(came);
                Took::Bytes(count)
            }
            Took::Nothing => Took::Nothing,
            Took::End => {
                self.end();
                Took::End
            }
            _ => {
                self.fail();
                Took::Failed
            }
        }
    }

    fn give(&mut self, bytes: &[u8]) -> Gave {
        match self.peer.hear(bytes) {
            Gave::Bytes(count) if 1 <= count && count <= bytes.len() => {
                let (went, _) = bytes.split_at(count);
                self.given.note(went);
                Gave::Bytes(count)
            }
            Gave::Nothing => Gave::Nothing,
            Gave::End => {
                self.end();
                Gave::End
            }
            _ => {
                self.fail();
                Gave::Failed
            }
        }
    }

    fn flush(&mut self) {
        self.peer.look();
    }

    fn failures(&self) -> u64 {
        self.failures
    }
}
