//! What contracts see of a link over TCP.

ghost use Rattle.std.specs.Prelude.{◌≡◌};
ghost use Rattle.std.specs.IoError.{error_kind};
ghost use Rattle.connections.specs.Answers.{gave_for, is_passing, took_for};

use fault::LIMIT;
use link::{Gave, Record, Took};
use std::io;
use std::io::ErrorKind;
use std::marker::Model;

/// Whether the error says only that nothing could be done now. `TimedOut` isn't such an error: the system has given the
/// peer up.
fn is_passing(error: &io::Error) -> bool
    ensures { result ≡ is_passing (error_kind error.now) }
{
    let kind = error.kind();
    kind == ErrorKind::WouldBlock || kind == ErrorKind::Interrupted
}

/// What this answer to a read means. A read of no byte is the peer's end.
fn took_of(answer: &io::Result<usize>) -> Took
    ensures { result ≡ took_for answer.now }
{
    match answer {
        Ok(0) => Took::End,
        Ok(count) => Took::Bytes(*count),
        Err(error) if is_passing(error) => Took::Nothing,
        Err(_) => Took::Failed,
    }
}

/// What this answer to a write means. A write of no byte is a failure.
pub(crate) fn gave_of(answer: &io::Result<usize>) -> Gave
    ensures { result ≡ gave_for answer.now }
{
    match answer {
        Ok(0) => Gave::Failed,
        Ok(count) => Gave::Bytes(*count),
        Err(error) if is_passing(error) => Gave::Nothing,
        Err(_) => Gave::Failed,
    }
}

/// How often a link has failed and ended, and the bytes that it took and was given, which only clauses read.
#[derive(Drop)]
pub(crate) struct Account {
    failures: u64,
    ends: u64,
    taken: Record,
    given: Record,
}

impl Model for Account {
    ghost use Rattle.std.specs.Prelude.{◌≤◌, ◌^◌};
    ghost use Rattle.link.specs.Links.{LinkState};

    ghost Value = { LinkState };

    ghost view = { λ a. record {
      taken = a.taken.bytes;
      given = a.given.bytes;
      failed = a.failures;
      ended = a.ends;
    } };

    ghost invariant = { λ a. (a.failures ≤ 2 ^ 62) × (a.ends ≤ 2 ^ 62) };
}

impl Account {
    ghost use Rattle.std.specs.Prelude.{◌≡◌, ◌+◌, ◌≤◌, ◌++◌, length, IfOk};
    ghost use Rattle.std.specs.Io.{ReadsAtMost, WritesAtMost};
    ghost use Rattle.link.specs.Links.{TakesAs, GivesAs, with_end, with_failure};
    ghost use Rattle.run_traits.specs.Unused.{unused};
    ghost use Rattle.connections.specs.Answers.{took_for, gave_for};
    ghost use Rattle.connections.specs.Wires.{moved, moved_behind};

    /// The account of a link that has done nothing.
    pub(crate) fn new() -> Account
        ensures { result ≡ unused }
    {
        Account {
            failures: 0,
            ends: 0,
            taken: Record::new(),
            given: Record::new(),
        }
    }

    /// Notes that the link failed once more.
    pub(crate) fn fail(&mut self)
        ensures { self.new ≡ with_failure self.old }
    {
        self.failures = LIMIT.min(self.failures + 1);
    }

    /// Notes that the link said once more that it ended.
    pub(crate) fn end(&mut self)
        ensures { self.new ≡ with_end self.old }
    {
        self.ends = LIMIT.min(self.ends + 1);
    }

    /// Notes a receive to which the system gave this answer; what came is at the front of `into`. It answers what this
    /// comes to for the link's `take`.
    pub(crate) fn take(&mut self, answer: &io::Result<usize>, into: &[u8]) -> Took
        requires { ReadsAtMost answer.now into.now }
        ensures answer { result ≡ took_for answer.now }
        ensures state { TakesAs result self.old self.new into.now }
        ensures taken { self.new.taken ≡ self.old.taken ++ moved answer.now into.now }
        ensures given { self.new.given ≡ self.old.given }
    {
        let took = took_of(answer);
        match took {
            Took::Bytes(count) => {
                let (read, _) = into.split_at(count);
                self.taken.note(read);
            }
            Took::Nothing => {}
            Took::End => self.end(),
            Took::Failed => self.fail(),
        }
        took
    }

    /// Notes a send of these bytes, to which the system gave this answer. It answers what this comes to for the link's
    /// `give`.
    pub(crate) fn give(&mut self, answer: &io::Result<usize>, bytes: &[u8]) -> Gave
        requires { WritesAtMost answer.now bytes.now }
        ensures answer { result ≡ gave_for answer.now }
        ensures state { GivesAs result self.old self.new bytes.now }
        ensures given { self.new.given ≡ self.old.given ++ moved answer.now bytes.now }
        ensures taken { self.new.taken ≡ self.old.taken }
    {
        let gave = gave_of(answer);
        match gave {
            Gave::Bytes(count) => {
                let (written, _) = bytes.split_at(count);
                self.note_given(written);
            }
            Gave::Nothing => {}
            Gave::End => self.end(),
            Gave::Failed => self.fail(),
        }
        gave
    }

    /// Notes a send of `kept` kept bytes and then these bytes, to which the system gave this answer. Of these bytes,
    /// those that went out count as given; none do where no more went out than was kept.
    pub(crate) fn give_behind(
        &mut self,
        kept: usize,
        answer: &io::Result<usize>,
        bytes: &[u8],
    ) -> Gave
        requires { IfOk answer.now (λ count. count ≤ kept + length bytes.now) }
        ensures state { GivesAs result self.old self.new bytes.now }
        ensures given { self.new.given ≡ self.old.given ++ moved_behind kept answer.now bytes.now }
        ensures taken { self.new.taken ≡ self.old.taken }
    {
        match gave_of(answer) {
            Gave::Bytes(count) if kept < count => {
                let (written, _) = bytes.split_at(count - kept);
                self.note_given(written);
                Gave::Bytes(count - kept)
            }
            Gave::Bytes(_) | Gave::Nothing => Gave::Nothing,
            Gave::End | Gave::Failed => {
                self.fail();
                Gave::Failed
            }
        }
    }

    /// Notes that the link was given these bytes.
    pub(crate) fn note_given(&mut self, bytes: &[u8])
        ensures { self.new ≡ record self.old { given = self.old.given ++ bytes.now } }
    {
        self.given.note(bytes);
    }

    /// The bytes that the link was given, and those that it took, which only clauses read.
    pub(crate) fn into_records(self) -> (Record, Record)
        ensures given { result.0.bytes ≡ self.given }
        ensures taken { result.1.bytes ≡ self.taken }
    {
        (self.given, self.taken)
    }

    /// How often the link failed.
    pub(crate) fn failures(&self) -> u64
        ensures { result ≡ self.now.failed }
    {
        self.failures
    }
}
