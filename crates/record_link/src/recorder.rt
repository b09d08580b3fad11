//! The link between a session and the file in which it is recorded.

use crate::growing::GrowingRecording;
use crate::storage::Storage;
use crate::talk::RecorderTalk;
use fault::LIMIT;
use link::{Gave, Link, Took};
use std::alloc::{AllocError, Global};
use std::marker::Model;

/// When it is, and how the recorder waits. No clause rests on either.
pub trait Watch: Drop {
    /// How many milliseconds have passed since the recording began.
    fn now(&mut self) -> u32;

    /// Waits until the screen may have changed, or for a second.
    fn wait(&mut self);
}

/// A link whose peer is the recorder of a session, a viewer that only looks on. What it is given goes into the file of
/// the recording, and it hands out what the recorder says.
///
/// It asks for what has changed whenever the session has said something, and now and then for all of the screen: where
/// the answer begins in the recording is a key moment, at which a player may begin. Before it hands out anything it
/// makes what was given whole blocks. It waits only where there is nothing to hand out.
///
/// Where the file fails, or the session's handshake is at fault, the link has failed. A file that takes no bytes for
/// now is a link that takes none.
#[derive(Drop)]
pub struct RecordLink<S: Storage, W: Watch> {
    growing: GrowingRecording<S>,
    talk: RecorderTalk,
    watch: W,
    /// Whether the session's handshake is at fault.
    is_refused: bool,
    /// Whether the session has said something since the last request.
    is_answered: bool,
    /// Whether all was kept that the session gave last. If so, the session stands between two messages when it takes
    /// bytes.
    is_between: bool,
    /// How many milliseconds lie between two key moments, and when the last one was begun.
    key_every: u32,
    key_time: u32,
    failures: u64,
}

impl<S: Storage, W: Watch> Model for RecordLink<S, W> {
    ghost use Rattle.std.specs.Prelude.{◌≤◌, ◌^◌};
    ghost use Rattle.record_link.specs.Linked.{Linked, IsLinked};

    ghost Value = { Linked };

    ghost view = { λ l. record { growing = l.growing; talk = l.talk; failed = l.failures } };

    ghost invariant = { λ l. (l.failures ≤ 2 ^ 62) × IsLinked (record {
      growing = l.growing;
      talk = l.talk;
      failed = l.failures;
    }) };
}

impl<S: Storage, W: Watch> RecordLink<S, W> {
    ghost use Rattle.std.specs.Prelude.{◌≡◌, ◌<◌, [], true, false, length, IfOk};
    ghost use Rattle.link.specs.Links.{TakesAs, GivesAs, with_failure};
    ghost use Rattle.link.specs.declared.link.Gave.TheVariants as Gave;
    ghost use Rattle.record_link.specs.Linked.{IsCarried, state_of};

    /// A link to the recorder of a session, whose recording goes into a file that has nothing, with its index in
    /// another one. Key moments are so many milliseconds apart. It takes all the memory that it will need.
    pub fn new(
        alloc: Global,
        file: S,
        index: S,
        watch: W,
        key_every: u32,
    ) -> Result<RecordLink<S, W>, AllocError>
        requires file { S.stored file ≡ [] }
        requires index { S.stored index ≡ [] }
        ensures { IfOk result (λ link. state_of link ≡ record {
          taken = [];
          given = [];
          failed = 0;
          ended = 0;
        }) }
    {
        let growing = GrowingRecording::new(alloc, file, index)?;
        Ok(RecordLink {
            growing,
            talk: RecorderTalk::new(),
            watch,
            is_refused: false,
            is_answered: false,
            is_between: false,
            key_every,
            key_time: 0,
            failures: 0,
        })
    }

    /// The recording.
    pub fn recording(&self) -> &GrowingRecording<S>
        ensures { result.now ≡ self.now.growing }
    {
        &self.growing
    }

    /// The watch that tells it the time. No clause says so.
    pub fn watch(&self) -> &W {
        &self.watch
    }

    /// It does nothing. Its clause says that, at every moment, what was given is in the file's whole blocks and in what
    /// waits for it, and that what was taken is what a recorder says.
    pub fn carries(&self)
        ensures { IsCarried self.now }
    {
        self.growing.is_kept();
    }

    fn fail(&mut self)
        ensures { state_of self.new ≡ with_failure (state_of self.old) }
    {
        self.failures = LIMIT.min(self.failures + 1);
    }

    /// Makes what was given whole blocks, as far as the file takes it now.
    fn make_whole(&mut self)
        ensures same { state_of self.new ≡ state_of self.old }
        ensures whole { self.new.growing.tape.is_broken ≡ false → self.new.growing.tape.unsent ≡ []
            → self.new.growing.waiting.said ≡ [] }
        ensures broken { self.old.growing.tape.is_broken ≡ true
            → self.new.growing.tape.is_broken ≡ true }
    {
        self.growing.make_whole();
    }

    /// Whether the recording has ended, since its file or the session's handshake has failed.
    pub fn is_over(&self) -> bool
        ensures { self.now.growing.tape.is_broken ≡ true → result ≡ true }
    {
        self.growing.is_broken() || self.is_refused
    }

    /// Whether a key moment is to be begun at this time, if it can be.
    fn is_key_due(&self, now: u32) -> bool {
        self.is_between
            && (!self.talk.is_asked() || now.saturating_sub(self.key_time) >= self.key_every)
    }

    /// Asks for all of the screen, where the session has taken all that was said and a key moment can begin. It answers
    /// whether it has.
    fn ask_key(&mut self, now: u32) -> bool
        ensures { state_of self.new ≡ state_of self.old }
    {
        let Some(joined) = self.talk.free() else {
            return false;
        };
        if !self.growing.begin_key() {
            return false;
        }
        self.talk.ask(&joined, false);
        self.is_answered = false;
        self.key_time = now;
        true
    }

    /// Whether there is a reason to make a request: the session has answered the last one, or none was made.
    fn has_reason(&self) -> bool {
        self.is_answered || !self.talk.is_asked()
    }

    /// Asks for what has changed, where the session has taken all that was said and has answered; or, where it is the
    /// first request, for all of the screen.
    fn ask_more(&mut self)
        ensures { state_of self.new ≡ state_of self.old }
    {
        let Some(joined) = self.talk.free() else {
            return;
        };
        if !self.has_reason() {
            return;
        }
        let incremental = self.talk.is_asked();
        self.talk.ask(&joined, incremental);
        self.is_answered = false;
    }

    /// Makes the next request, where there is reason to.
    fn ask(&mut self)
        ensures { state_of self.new ≡ state_of self.old }
    {
        let now = self.watch.now();
        if self.is_key_due(now) && self.ask_key(now) {
            return;
        }
        self.ask_more();
    }

    /// Waits where there is nothing to say.
    fn wait(&mut self)
        ensures { state_of self.new ≡ state_of self.old }
    {
        if self.talk.is_silent() {
            self.watch.wait();
        }
    }

    /// Hands out what the recorder says, as much as there is room for.
    fn say(&mut self, into: &mut [u8]) -> Took
        ensures { TakesAs result (state_of self.old) (state_of self.new) into.new }
    {
        let count = self.talk.say(into);
        if count == 0 {
            return Took::Nothing;
        }
        Took::Bytes(count)
    }

    /// Keeps the first of these bytes, and hears them.
    fn keep(&mut self, now: u32, bytes: &[u8]) -> Gave
        ensures gives { GivesAs result (state_of self.old) (state_of self.new) bytes.now }
        ensures over { self.old.growing.tape.is_broken ≡ true → result ≡ Gave.Failed }
    {
        match self.growing.keep(now, bytes) {
            Gave::Bytes(count) => {
                let (kept, _) = bytes.split_at(count);
                // They are kept, so it is only from the next call on that the link fails.
                self.is_refused = self.talk.hear(kept).is_err();
                self.is_answered = true;
                self.is_between = count == bytes.len();
                Gave::Bytes(count)
            }
            Gave::Nothing => {
                self.is_between = false;
                Gave::Nothing
            }
            Gave::End => Gave::End,
            Gave::Failed => {
                self.fail();
                Gave::Failed
            }
        }
    }
}

impl<S: Storage, W: Watch> Link for RecordLink<S, W> {
    ghost use Rattle.std.specs.Prelude.{◌≡◌, ◌<◌, [], true, false, length};
    ghost use Rattle.link.specs.Links.{TakesAs, GivesAs};
    ghost use Rattle.link.specs.declared.link.Took.TheVariants as Took;
    ghost use Rattle.link.specs.declared.link.Gave.TheVariants as Gave;
    ghost use Rattle.record_link.specs.Linked.{state_of};

    ghost state = { state_of };

    fn take(&mut self, into: &mut [u8]) -> Took
        requires { 0 < length into.old }
        ensures takes { TakesAs result (state_of self.old) (state_of self.new) into.new }
        ensures over { self.old.growing.tape.is_broken ≡ true → result ≡ Took.Failed }
    {
        self.make_whole();
        if self.is_over() {
            self.fail();
            return Took::Failed;
        }
        self.ask();
        self.wait();
        self.say(into)
    }

    fn give(&mut self, bytes: &[u8]) -> Gave
        requires { 0 < length bytes.now }
        ensures gives { GivesAs result (state_of self.old) (state_of self.new) bytes.now }
        ensures over { self.old.growing.tape.is_broken ≡ true → result ≡ Gave.Failed }
    {
        if self.is_refused {
            self.fail();
            return Gave::Failed;
        }
        let now = self.watch.now();
        self.keep(now, bytes)
    }

    fn flush(&mut self)
        ensures same { state_of self.new ≡ state_of self.old }
        ensures whole { self.new.growing.tape.is_broken ≡ false → self.new.growing.tape.unsent ≡ []
            → self.new.growing.waiting.said ≡ [] }
    {
        self.make_whole();
    }

    fn failures(&self) -> u64 {
        self.failures
    }
}
