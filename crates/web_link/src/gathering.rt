//! A link that keeps bytes, and gives them on together.

use crate::message_buffer::MessageBuffer;
use crate::web::WebLink;
use fault::LIMIT;
use link::{Gave, Link, Record, Took};
use std::alloc::{AllocError, Global};
use std::marker::Model;

/// How the link below was lost while kept bytes were given to it.
#[derive(Clone, Copy)]
enum Loss {
    /// The link below ended.
    Ended,
    /// The link below failed.
    Failed,
}

/// A link that keeps what it is given, and gives it to the link below together: before it takes, when it is flushed,
/// and where it is full. So an answer of many rectangles becomes a few messages of a `WebLink` below. Only `new` takes
/// memory.
#[derive(Drop)]
pub struct GatheringLink<L: Link> {
    link: L,
    kept: MessageBuffer,
    // How the link below was lost, so that kept bytes can't go out any more.
    loss: Option<Loss>,
    failures: u64,
    ends: u64,
    taken: Record,
    given: Record,
}

impl<L: Link> Model for GatheringLink<L> {
    ghost use Rattle.std.specs.Prelude.{◌≤◌, ◌^◌};
    ghost use Rattle.link.specs.Links.{LinkState};
    ghost use Rattle.web_link.specs.Gathering.{Gathered, Gathers};

    ghost Value = { Gathered };

    ghost view = { λ w. record {
      below = L.state w.link;
      own = record {
        taken = w.taken.bytes;
        given = w.given.bytes;
        failed = w.failures;
        ended = w.ends;
      };
      kept = w.kept;
    } };

    ghost invariant = { λ w. (w.failures ≤ 2 ^ 62) × (w.ends ≤ 2 ^ 62) × Gathers (record {
      below = L.state w.link;
      own = record {
        taken = w.taken.bytes;
        given = w.given.bytes;
        failed = w.failures;
        ended = w.ends;
      };
      kept = w.kept;
    }) };
}

impl<L: Link> GatheringLink<L> {
    ghost use Rattle.std.specs.Prelude.{◌≡◌, ◌<◌, ◌≤◌, [], length, IfOk};
    ghost use Rattle.link.specs.Links.{with_end, with_failure};
    ghost use Rattle.web_link.specs.Gathering.{Gathers};

    /// A gathering link over a link that has taken and given nothing yet.
    pub fn new(alloc: Global, link: L) -> Result<GatheringLink<L>, AllocError>
        requires taken { (L.state link).taken ≡ [] }
        requires given { (L.state link).given ≡ [] }
        ensures own { IfOk result (λ own.
            own.own ≡ record { taken = []; given = []; failed = 0; ended = 0 }) }
        ensures below { IfOk result (λ own. own.below ≡ L.state link) }
        ensures kept { IfOk result (λ own. own.kept ≡ []) }
    {
        let kept = MessageBuffer::new(alloc)?;
        Ok(GatheringLink {
            link,
            kept,
            loss: None,
            failures: 0,
            ends: 0,
            taken: Record::new(),
            given: Record::new(),
        })
    }

    /// The link below.
    pub fn below(&self) -> &L
        ensures { L.state result.now ≡ self.now.below }
    {
        &self.link
    }

    /// It does nothing. Its clause says that, at every moment, what was taken is what the link below took, and what was
    /// given is what the link below was given followed by what is kept.
    pub fn gathers(&self)
        ensures { Gathers self.now }
    {
        let _ = &self.failures;
    }

    /// Counts one more failure: one of the link below, or one of the caller that gives the link up.
    pub fn fail(&mut self)
        ensures { self.new ≡ record self.old { own = with_failure self.old.own } }
    {
        self.failures = LIMIT.min(self.failures + 1);
    }

    fn end(&mut self)
        ensures { self.new ≡ record self.old { own = with_end self.old.own } }
    {
        self.ends = LIMIT.min(self.ends + 1);
    }

    /// Gives what is kept to the link below, as far as it goes now.
    fn send(&mut self)
        ensures { self.new.own ≡ self.old.own }
    {
        while !self.kept.is_empty() {
            match self.link.give(self.kept.as_slice()) {
                Gave::Bytes(count) => self.kept.pass(count),
                Gave::Nothing => return,
                Gave::End => {
                    self.loss = Some(Loss::Ended);
                    return;
                }
                Gave::Failed => {
                    self.loss = Some(Loss::Failed);
                    return;
                }
            }
        }
    }
}

impl<L: Link> GatheringLink<WebLink<L>> {
    ghost use Rattle.std.specs.Prelude.{◌≡◌};

    /// Has the link below send a ping, as `WebLink::ping` does. It takes, gives and keeps nothing. No clause says that
    /// the ping goes out.
    pub fn ping(&mut self)
        ensures { self.new ≡ self.old }
    {
        self.link.ping();
    }
}

impl<L: Link> Link for GatheringLink<L> {
    ghost state = { λ w. w.own };

    fn take(&mut self, into: &mut [u8]) -> Took {
        self.send();
        match self.loss {
            Some(Loss::Ended) => {
                self.end();
                return Took::End;
            }
            Some(Loss::Failed) => {
                self.fail();
                return Took::Failed;
            }
            None => {}
        }
        match self.link.take(into) {
            Took::Bytes(count) => {
                let (bytes, _) = into.split_at(count);
                self.taken.note(bytes);
                Took::Bytes(count)
            }
            Took::Nothing => Took::Nothing,
            Took::End => {
                self.end();
                Took::End
            }
            Took::Failed => {
                self.fail();
                Took::Failed
            }
        }
    }

    fn give(&mut self, bytes: &[u8]) -> Gave {
        if self.kept.is_full() {
            self.send();
        }
        match self.loss {
            Some(Loss::Ended) => {
                self.end();
                return Gave::End;
            }
            Some(Loss::Failed) => {
                self.fail();
                return Gave::Failed;
            }
            None => {}
        }
        let count = self.kept.keep(bytes);
        if count == 0 {
            return Gave::Nothing;
        }
        let (kept, _) = bytes.split_at(count);
        self.given.note(kept);
        Gave::Bytes(count)
    }

    fn flush(&mut self) {
        self.send();
        self.link.flush();
    }

    fn failures(&self) -> u64 {
        self.failures
    }
}
