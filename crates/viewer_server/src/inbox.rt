//! What has come from a viewer and isn't passed on yet.

ghost use Rattle.std.specs.Prelude.{◌≡◌, ◌++◌, [], true, false, None, Some, is_some, IfErr};
ghost use Rattle.roles.specs.Held.{left_in};
ghost use Rattle.viewer_session.specs.Session.{IsSameSession, fault_in};
ghost use Rattle.viewer_server.specs.Steps.{FillsAs, Passes, Reads, all_passed};
ghost use Rattle.viewer_session.specs.Acts.{waiting_list};

use fault::Fault;
use link::{Link, Took};
use roles::{Input, InputSink};
use std::marker::Model;
use viewer_session::Session;

/// How many bytes are taken from the link at a time, at most.
const PIECE: usize = 4096;

/// Bytes that the session hasn't read, and an input that the sink hasn't taken.
#[derive(Drop)]
pub(crate) struct Inbox {
    bytes: [u8; PIECE],
    // Where the unread bytes begin, and where they end.
    start: usize,
    end: usize,
    waiting: Option<Input>,
}

impl Model for Inbox {
    ghost use Rattle.std.specs.Prelude.{◌≤◌, drop, length, option_map, take};
    ghost use Rattle.roles.specs.Held.{input_in};
    ghost use Rattle.viewer_server.specs.Steps.{Unpassed};

    ghost Value = { Unpassed };

    ghost view = { λ i. record {
      unread = drop i.start (take i.end i.bytes);
      waiting = option_map input_in i.waiting;
    } };

    ghost invariant = { λ i. (i.start ≤ i.end) × (i.end ≤ length i.bytes) };
}

impl Inbox {
    /// An empty inbox: no byte has come.
    pub(crate) fn new() -> Inbox
        ensures { result ≡ all_passed }
    {
        Inbox {
            bytes: [0; PIECE],
            start: 0,
            end: 0,
            waiting: None,
        }
    }

    /// The bytes that the session hasn't read.
    pub(crate) fn unread(&self) -> &[u8]
        ensures { result.now ≡ self.now.unread }
    {
        let (came, _) = self.bytes.split_at(self.end);
        let (_, unread) = came.split_at(self.start);
        unread
    }

    /// Whether an input waits for room in the sink.
    pub(crate) fn waits(&self) -> bool
        ensures { result ≡ is_some self.now.waiting }
    {
        self.waiting.is_some()
    }

    /// Takes bytes from the link, once all that came before were read.
    pub(crate) fn fill<L: Link>(&mut self, link: &mut L) -> Took
        requires { self.old ≡ all_passed }
        ensures { FillsAs result self.new (L.state link.old) (L.state link.new) }
    {
        self.start = 0;
        self.end = 0;
        let took = link.take(&mut self.bytes);
        if let Took::Bytes(count) = took {
            self.end = count;
        }
        took
    }

    /// Lets the session read on, to the end of the bytes or of a message whose input then waits. It fails with the
    /// session's fault.
    pub(crate) fn read(&mut self, session: &mut Session) -> Result<(), Fault>
        requires { self.old.waiting ≡ None }
        ensures same { IsSameSession session.old session.new }
        ensures reads { Reads session.old session.new self.old self.new }
        ensures err { IfErr result (λ fault. fault_in session.new ≡ Some fault) }
    {
        let fed = session.feed(self.unread());
        self.waiting = session.take_input();
        match fed {
            Ok(used) => {
                self.start += used;
                Ok(())
            }
            Err(fault) => {
                self.start = self.end;
                Err(fault)
            }
        }
    }

    /// Passes the input that waits to the sink, and answers whether the sink is full. It fails where the sink refuses
    /// the input for good. A refused input waits as before.
    pub(crate) fn pass<K: InputSink>(&mut self, sink: &mut K) -> Result<bool, Fault>
        ensures { Passes K.may_refuse result self.old self.new (K.sent sink.old) (K.sent sink.new) }
    {
        let Some(input) = self.waiting.take() else {
            return Ok(false);
        };
        match sink.send(input) {
            Ok(()) => Ok(false),
            Err((fault, input)) => {
                self.waiting = Some(input);
                match fault {
                    Fault::QueueFull => Ok(true),
                    _ => Err(fault),
                }
            }
        }
    }

    /// Makes the next release the input that waits. It answers whether there is one.
    pub(crate) fn release(&mut self, session: &mut Session) -> bool
        requires { self.old.waiting ≡ None }
        ensures next { left_in session.old.held
            ≡ waiting_list self.new.waiting ++ left_in session.new.held }
        ensures none { result ≡ false
            → (self.new.waiting ≡ None) × (left_in session.new.held ≡ []) }
        ensures others { session.new ≡ record session.old { held = session.new.held } }
    {
        self.waiting = session.leave();
        self.waits()
    }
}
