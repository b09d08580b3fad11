//! The link between a host's reader and a recording.

ghost use Rattle.std.specs.Prelude.{◌≡◌, ◌≢◌, ◌≤◌, ◌++◌, ℕ, List, true, false, min, length, take};
ghost use Rattle.link.specs.Links.{LinkState, TakesAs};
ghost use Rattle.link.specs.declared.link.Took.TheVariants as Took;
ghost use Rattle.recording.specs.Waiting.{stamp};
ghost use Rattle.playback.specs.Heard.{is_later};
ghost use Rattle.playback.specs.Playing.{HasHandshake};

use crate::bad::BadPlayback;
use crate::opening::OpeningReader;
use crate::pace::Pace;
use crate::recorded::Recorded;
use crate::reel::FileReel;
use fault::LIMIT;
use link::{Gave, Link, Record, Took};
use recording::BadRecording;
use recording_index::KeyMoment;
use rfb_wire::HostHello;
use std::alloc::{AllocError, Global};
use std::marker::Model;

/// What is heard in place of a session's opening: version 3.8, the one security type None, and SecurityResult 0.
const GREETING: [u8; 18] = *b"RFB 003.008\n\x01\x01\x00\x00\x00\x00";

/// Whether the block of this time is later than the time up to which is played.
fn is_later(until: Option<u64>, time: u32) -> bool
    ensures { (said : List ℕ) → result ≡ is_later until (record { said = said; time = time }) }
{
    match until {
        Some(until) => until < u64::from(time),
        None => false,
    }
}

/// Copies bytes to the front of a slice, as many as it has room for, and answers how many.
fn copy_front(bytes: &[u8], into: &mut [u8]) -> usize
    ensures count { result ≡ min (length bytes.now) (length into.old) }
    ensures len { length into.new ≡ length into.old }
    ensures front { take result into.new ≡ take result bytes.now }
{
    let count = bytes.len().min(into.len());
    let (said, _) = bytes.split_at(count);
    let (front, _) = into.split_at_mut(count);
    front.copy_from_slice(said);
    count
}

/// How many of these bytes are heard. Before the link goes to a key moment (`is_front`), these are at most as many as
/// end the handshake, and all where the handshake is at fault.
fn fitting(hello: &mut HostHello, is_front: bool, bytes: &[u8]) -> usize
    ensures count { result ≤ length bytes.now }
    ensures all { is_front ≡ false → result ≡ length bytes.now }
    ensures front { is_front ≡ true
        → (played : List (ℕ × ℕ)) (time : ℕ) → HasHandshake hello.old played
        → HasHandshake hello.new (played ++ stamp time (take result bytes.now)) }
{
    if !is_front {
        return bytes.len();
    }
    match hello.feed(bytes) {
        Ok(count) => count,
        Err(_) => bytes.len(),
    }
}

/// What is answered where so many bytes were taken.
fn took(count: usize) -> Took
    ensures takes { (old new : LinkState) (into : List ℕ) → count ≤ length into
        → new ≡ record old { taken = old.taken ++ take count into } → TakesAs result old new into }
    ensures goes { result ≢ Took.End }
    ensures fine { result ≢ Took.Failed }
{
    if count == 0 {
        Took::Nothing
    } else {
        Took::Bytes(count)
    }
}

/// What is to be done about the block at hand.
enum Next {
    /// No block is whole, or the time of the one that is hasn't come.
    Nothing,
    /// The recording can't be read on.
    Bad(BadRecording),
    /// The block is later than the time up to which is played.
    Over,
    /// The block is to be played. It has this time.
    Now(u64),
}

/// A link whose peer is a recording. It hands out what the host said in the session that was recorded, at the
/// recording's pace, as a host of version 3.8 with security type None. It hears nothing: what it is given is forgotten.
///
/// A call of `take` does one thing: it hands out bytes, or waits once until the time of the next ones may have come, or
/// reads on in the file. It ends where the file does, wherever it is cut off, or before a block that is too late. It
/// fails where the file does, or where the recording is bad, and `why` says which.
#[derive(Drop)]
pub struct PlayedLink<F: Recorded, P: Pace> {
    reel: FileReel<F>,
    pace: P,
    until: Option<u64>,
    /// The place of the key moment from which on it is played.
    key: Option<u64>,
    opening: OpeningReader,
    /// The handshake that was heard so far, where there is a key moment to go to.
    hello: HostHello,
    /// How many bytes of the greeting were handed out.
    sent: usize,
    /// How many bytes of the block at hand were used.
    used: usize,
    /// The time of the last block that was begun.
    time: u64,
    is_over: bool,
    why: Option<BadPlayback>,
    failures: u64,
    ends: u64,
    taken: Record,
    given: Record,
}

impl<F: Recorded, P: Pace> Model for PlayedLink<F, P> {
    ghost use Rattle.std.specs.Prelude.{◌≡◌, ◌<◌, ◌≤◌, ◌^◌, true};
    ghost use Rattle.playback.specs.Playing.{Played, IsPlaying};

    ghost Value = { Played };

    ghost view = { λ l. record {
      reel = l.reel;
      until = l.until;
      key = l.key;
      hello = l.hello;
      opening = l.opening;
      sent = l.sent;
      used = l.used;
      time = l.time;
      taken = l.taken.bytes;
      given = l.given.bytes;
      failed = l.failures;
      ended = l.ends;
      is_over = l.is_over;
      why = l.why;
    } };

    ghost invariant = { λ l. (l.failures ≤ 2 ^ 62) × (l.ends ≤ 2 ^ 62) × (l.sent ≤ 18)
        × IsPlaying P.has_come F.is_all F.has_failed (record {
          reel = l.reel;
          until = l.until;
          key = l.key;
          hello = l.hello;
          opening = l.opening;
          sent = l.sent;
          used = l.used;
          time = l.time;
          taken = l.taken.bytes;
          given = l.given.bytes;
          failed = l.failures;
          ended = l.ends;
          is_over = l.is_over;
          why = l.why;
        })
        × (0 < l.ends → l.is_over ≡ true) };
}

impl<F: Recorded, P: Pace> PlayedLink<F, P> {
    ghost use Rattle.std.specs.Prelude.{◌≡◌, ◌≢◌, ◌⊎◌, ◌<◌, ◌≤◌, ℕ, [], true, false, Some, None, Err, not, ◌&&◌, is_some, length, IfOk};
    ghost use Rattle.byte_reading.specs.Reading.{whole_of};
    ghost use Rattle.link.specs.Links.{TakesAs, with_failure, with_end};
    ghost use Rattle.recording.specs.Progress.{ahead};
    ghost use Rattle.recording.specs.declared.bad.BadRecording.{BadRecording};
    ghost use Rattle.playback.specs.Playing.{IsPlayed, IsPlayedOut, IsWhy, IsGoing, IsReady, IsAtKey, IsDue, IsLate, HasCome, state_of};
    ghost use Rattle.link.specs.declared.link.Took.TheVariants as Took;
    ghost use Rattle.playback.specs.declared.played.Next.TheVariants as next;

    /// A link to a recording in a file that is at its beginning.
    fn with_key(
        alloc: Global,
        file: F,
        pace: P,
        until: Option<u64>,
        key: Option<u64>,
    ) -> Result<PlayedLink<F, P>, AllocError>
        requires start { F.start file ≡ 0 }
        requires none { F.so_far file ≡ [] }
        ensures state { IfOk result (λ link. state_of link ≡ record {
          taken = [];
          given = [];
          failed = 0;
          ended = 0;
        }) }
        ensures until { IfOk result (λ link. (link.until ≡ until) × (link.key ≡ key)) }
    {
        let reel = FileReel::new(alloc, file)?;
        Ok(PlayedLink {
            reel,
            pace,
            until,
            key,
            opening: OpeningReader::new(alloc),
            hello: HostHello::new(None),
            sent: 0,
            used: 0,
            time: 0,
            is_over: false,
            why: None,
            failures: 0,
            ends: 0,
            taken: Record::new(),
            given: Record::new(),
        })
    }

    /// A link to a recording, which is played from its beginning on. The file is at its beginning. It is played up to
    /// this time in milliseconds, if any is given, and no further. The link takes the memory for pieces of the file;
    /// more is taken as blocks are read.
    pub fn new(
        alloc: Global,
        file: F,
        pace: P,
        until: Option<u64>,
    ) -> Result<PlayedLink<F, P>, AllocError>
        requires start { F.start file ≡ 0 }
        requires none { F.so_far file ≡ [] }
        ensures state { IfOk result (λ link. state_of link ≡ record {
          taken = [];
          given = [];
          failed = 0;
          ended = 0;
        }) }
        ensures until { IfOk result (λ link. (link.until ≡ until) × (link.key ≡ None)) }
    {
        PlayedLink::with_key(alloc, file, pace, until, None)
    }

    /// A link to a recording, which is played from a key moment on: the handshake is heard, and then what was said from
    /// the key moment on. The rest is as of `new`.
    pub fn from_key(
        alloc: Global,
        file: F,
        pace: P,
        until: Option<u64>,
        moment: KeyMoment,
    ) -> Result<PlayedLink<F, P>, AllocError>
        requires start { F.start file ≡ 0 }
        requires none { F.so_far file ≡ [] }
        ensures state { IfOk result (λ link. state_of link ≡ record {
          taken = [];
          given = [];
          failed = 0;
          ended = 0;
        }) }
        ensures until { IfOk result (λ link.
            (link.until ≡ until) × (link.key ≡ Some moment.place)) }
    {
        PlayedLink::with_key(alloc, file, pace, until, Some(moment.place))
    }

    /// It does nothing. Its clauses say what is true at every moment. What was taken is a beginning of what is heard of
    /// all that was read of the file, and the time of each byte of it had come. Once the link has ended, all of that was
    /// taken, and nothing more is played. And if the recording can't be played on, there is the reason for it.
    pub fn plays(&self)
        ensures played { IsPlayed P.has_come self.now }
        ensures out { 0 < self.now.ended → IsPlayedOut F.is_all self.now }
        ensures why { IsWhy F.has_failed self.now.why self.now }
    {
        let _ = &self.used;
    }

    /// The time of the last block that was begun, in milliseconds since the recording began, or 0.
    pub fn time(&self) -> u64
        ensures time { result ≡ self.now.time }
        ensures shown { (result ≡ 0) ⊎ HasCome P.has_come result }
    {
        self.time
    }

    /// Why the recording can't be played on, if it can't: from then on the link fails.
    pub fn why(&self) -> Option<BadPlayback>
        ensures { result ≡ self.now.why }
    {
        self.why
    }

    fn fail(&mut self)
        ensures state { state_of self.new ≡ with_failure (state_of self.old) }
        ensures same { self.new ≡ record self.old { failed = self.new.failed } }
    {
        self.failures = LIMIT.min(self.failures + 1);
    }

    fn end(&mut self)
        requires over { self.old.is_over ≡ true }
        ensures state { state_of self.new ≡ with_end (state_of self.old) }
        ensures same { self.new ≡ record self.old { ended = self.new.ended } }
    {
        self.ends = LIMIT.min(self.ends + 1);
    }

    /// Whether the greeting is being handed out.
    fn is_greeting(&self) -> bool
        ensures open { result ≡ true → self.now.opening.is_open ≡ true }
        ensures some { result ≡ true → self.now.sent < 18 }
        ensures over { result ≡ false → self.now.opening.is_open ≡ true → self.now.sent ≡ 18 }
    {
        self.opening.is_open() && self.sent < GREETING.len()
    }

    /// Whether there is a key moment that wasn't gone to yet.
    fn is_front(&self) -> bool
        ensures { result ≡ (not self.now.reel.is_behind && is_some self.now.key) }
    {
        !self.reel.is_behind() && self.key.is_some()
    }

    /// The place of the key moment, where it is to be gone to now.
    fn due_key(&self) -> Option<u64>
        requires greeted { self.now.opening.is_open ≡ true → self.now.sent ≡ 18 }
        ensures some { (place : ℕ) → result ≡ Some place → IsAtKey self.now place }
        ensures none { result ≡ None → IsReady self.now }
    {
        if !self.is_front() || self.hello.done().is_none() || !self.opening.is_open() {
            return None;
        }
        self.key
    }

    /// Goes to the key moment.
    fn go(&mut self, place: u64)
        requires going { IsGoing self.old }
        requires key { IsAtKey self.old place }
        ensures state { state_of self.new ≡ state_of self.old }
        ensures same { (self.new.until ≡ self.old.until) × (self.new.key ≡ self.old.key) }
    {
        match self.reel.go_to(place) {
            Ok(()) => self.used = 0,
            Err(why) => self.why = Some(why),
        }
    }

    /// Goes on to the next block, where all of the one at hand was used.
    fn turn(&mut self)
        requires going { IsGoing self.old }
        requires ready { IsReady self.old }
        ensures going { IsGoing self.new }
        ensures ready { IsReady self.new }
        ensures state { state_of self.new ≡ state_of self.old }
        ensures same { (self.new.until ≡ self.old.until) × (self.new.key ≡ self.old.key) }
    {
        let Some(Ok(block)) = self.reel.found() else {
            return;
        };
        // A block without data has a time, too: it is over once that has come.
        let is_begun = u64::from(block.time) <= self.time;
        if self.used < block.said.len() || !is_begun || is_later(self.until, block.time) {
            return;
        }
        self.reel.go_on();
        self.used = 0;
    }

    /// Reads on in the file, where no block is whole.
    fn read_on(&mut self)
        requires going { IsGoing self.old }
        requires ready { IsReady self.old }
        ensures ready { IsReady self.new }
        ensures state { state_of self.new ≡ state_of self.old }
        ensures same { (self.new.until ≡ self.old.until) × (self.new.key ≡ self.old.key) }
    {
        let None = self.reel.found() else {
            return;
        };
        self.used = 0;
        match self.reel.read_on() {
            Ok(more) => self.is_over = !more,
            Err(why) => self.why = Some(why),
        }
    }

    /// What is to be done about the block at hand. Where its time hasn't come it waits, once.
    fn next(&self) -> Next
        ensures bad { (bad : BadRecording) → result ≡ next.Bad bad
            → whole_of (ahead self.now.reel.reader) ≡ Some (Err bad) }
        ensures over { result ≡ next.Over → IsLate self.now }
        ensures now { (time : ℕ) → result ≡ next.Now time
            → HasCome P.has_come time × IsDue P.has_come self.now }
    {
        match self.reel.found() {
            None => Next::Nothing,
            Some(Err(bad)) => Next::Bad(bad),
            Some(Ok(block)) if is_later(self.until, block.time) => Next::Over,
            Some(Ok(block)) => {
                let time = u64::from(block.time);
                if time <= self.pace.time() {
                    return Next::Now(time);
                }
                self.pace.wait(time);
                Next::Nothing
            }
        }
    }

    /// Hands out the next bytes of the greeting.
    fn say_greeting(&mut self, into: &mut [u8]) -> Took
        requires going { IsGoing self.old }
        requires open { self.old.opening.is_open ≡ true }
        requires some { self.old.sent < 18 }
        ensures takes { TakesAs result (state_of self.old) (state_of self.new) into.new }
        ensures goes { result ≢ Took.End }
        ensures fine { result ≢ Took.Failed }
        ensures same { (self.new.until ≡ self.old.until) × (self.new.key ≡ self.old.key) }
    {
        let is_front = self.is_front();
        let (_, left) = GREETING.split_at(self.sent);
        let copied = copy_front(left, into);
        let (front, _) = into.split_at(copied);
        let count = fitting(&mut self.hello, is_front, front);
        let (said, _) = front.split_at(count);
        self.taken.note(said);
        self.sent += count;
        took(count)
    }

    /// Reads the opening in the block at hand.
    fn hear(&mut self)
        requires going { IsGoing self.old }
        requires closed { self.old.opening.is_open ≡ false }
        requires due { IsDue P.has_come self.old }
        ensures state { state_of self.new ≡ state_of self.old }
        ensures same { (self.new.until ≡ self.old.until) × (self.new.key ≡ self.old.key) }
    {
        let Some(Ok(block)) = self.reel.found() else {
            return;
        };
        let start = self.used.min(block.said.len());
        let (_, left) = block.said.split_at(start);
        match self.opening.feed(left) {
            Ok(count) => self.used = start + count,
            Err(why) => self.why = Some(why),
        }
    }

    /// Hands out the next bytes of the block at hand.
    fn say_block(&mut self, into: &mut [u8]) -> Took
        requires going { IsGoing self.old }
        requires open { self.old.opening.is_open ≡ true }
        requires greeted { self.old.sent ≡ 18 }
        requires due { IsDue P.has_come self.old }
        ensures takes { TakesAs result (state_of self.old) (state_of self.new) into.new }
        ensures goes { result ≢ Took.End }
        ensures fine { result ≢ Took.Failed }
        ensures same { (self.new.until ≡ self.old.until) × (self.new.key ≡ self.old.key) }
    {
        let is_front = self.is_front();
        let Some(Ok(block)) = self.reel.found() else {
            return Took::Nothing;
        };
        let start = self.used.min(block.said.len());
        let (_, left) = block.said.split_at(start);
        let copied = copy_front(left, into);
        let (front, _) = into.split_at(copied);
        let count = fitting(&mut self.hello, is_front, front);
        let (said, _) = front.split_at(count);
        self.taken.note(said);
        self.used = start + count;
        took(count)
    }

    /// Plays the block at hand.
    fn say(&mut self, into: &mut [u8]) -> Took
        requires going { IsGoing self.old }
        requires greeted { self.old.opening.is_open ≡ true → self.old.sent ≡ 18 }
        requires due { IsDue P.has_come self.old }
        ensures takes { TakesAs result (state_of self.old) (state_of self.new) into.new }
        ensures goes { result ≢ Took.End }
        ensures fine { result ≢ Took.Failed }
        ensures same { (self.new.until ≡ self.old.until) × (self.new.key ≡ self.old.key) }
    {
        if self.opening.is_open() {
            self.say_block(into)
        } else {
            self.hear();
            Took::Nothing
        }
    }

    /// Begins the block of this time.
    fn begin(&mut self, time: u64)
        requires { HasCome P.has_come time }
        ensures { self.new ≡ record self.old { time = time } }
    {
        self.time = time;
    }

    /// There is a reason why the recording can't be played on.
    fn stop(&mut self, bad: BadRecording)
        requires { whole_of (ahead self.old.reel.reader) ≡ Some (Err bad) }
        ensures state { state_of self.new ≡ state_of self.old }
        ensures same { (self.new.until ≡ self.old.until) × (self.new.key ≡ self.old.key) }
    {
        self.why = Some(BadPlayback::Recording(bad));
    }

    /// All was played that comes before the block at hand, and that block is later than is played.
    fn finish(&mut self)
        requires ready { IsReady self.old }
        requires late { IsLate self.old }
        ensures state { state_of self.new ≡ state_of self.old }
        ensures same { (self.new.until ≡ self.old.until) × (self.new.key ≡ self.old.key) }
    {
        self.is_over = true;
    }

    /// Plays on, where it isn't over.
    fn play(&mut self, into: &mut [u8]) -> Took
        requires ready { IsReady self.old }
        ensures takes { TakesAs result (state_of self.old) (state_of self.new) into.new }
        ensures goes { result ≢ Took.End }
        ensures fine { result ≢ Took.Failed }
        ensures same { (self.new.until ≡ self.old.until) × (self.new.key ≡ self.old.key) }
    {
        if self.is_over || self.why.is_some() {
            return Took::Nothing;
        }
        match self.next() {
            Next::Nothing => Took::Nothing,
            Next::Bad(bad) => {
                self.stop(bad);
                Took::Nothing
            }
            Next::Over => {
                self.finish();
                Took::Nothing
            }
            Next::Now(time) => {
                self.begin(time);
                self.say(into)
            }
        }
    }
}

impl<F: Recorded, P: Pace> Link for PlayedLink<F, P> {
    ghost use Rattle.std.specs.Prelude.{◌≡◌, ◌<◌, true, is_some, length};
    ghost use Rattle.link.specs.Links.{TakesAs, GivesAs};
    ghost use Rattle.link.specs.declared.link.Took.TheVariants as Took;
    ghost use Rattle.link.specs.declared.link.Gave.TheVariants as Gave;
    ghost use Rattle.playback.specs.Playing.{IsPlayedOut, state_of};

    ghost state = { state_of };

    fn take(&mut self, into: &mut [u8]) -> Took
        requires { 0 < length into.old }
        ensures takes { TakesAs result (state_of self.old) (state_of self.new) into.new }
        ensures end { result ≡ Took.End → IsPlayedOut F.is_all self.new }
        ensures failed { result ≡ Took.Failed → is_some self.new.why ≡ true }
        ensures stays { is_some self.old.why ≡ true → result ≡ Took.Failed }
        ensures same { (self.new.until ≡ self.old.until) × (self.new.key ≡ self.old.key) }
    {
        if self.why.is_some() {
            self.fail();
            return Took::Failed;
        }
        if self.is_over {
            self.end();
            return Took::End;
        }
        if self.is_greeting() {
            return self.say_greeting(into);
        }
        if let Some(place) = self.due_key() {
            self.go(place);
            return Took::Nothing;
        }
        self.turn();
        self.read_on();
        self.play(into)
    }

    fn give(&mut self, bytes: &[u8]) -> Gave
        requires { 0 < length bytes.now }
        ensures gives { GivesAs result (state_of self.old) (state_of self.new) bytes.now }
        ensures all { result ≡ Gave.Bytes (length bytes.now) }
        ensures same { self.new ≡ record self.old { given = self.new.given } }
    {
        self.given.note(bytes);
        Gave::Bytes(bytes.len())
    }

    fn flush(&mut self)
        ensures same { self.new ≡ self.old }
    {
        let _ = &self.given;
    }

    fn failures(&self) -> u64 {
        self.failures
    }
}
