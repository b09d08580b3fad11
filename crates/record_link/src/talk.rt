//! What the recorder says to the session that it records.

ghost use Rattle.std.specs.Prelude.{◌≡◌, ◌<◌, ◌≤◌, ◌++◌, ℕ, Bool, List, [], ◌∷◌, true, false, None, IfSome, if◌then◌else◌, length, min, take, drop};
ghost use Rattle.byte_reading.specs.Reading.{taken};
ghost use Rattle.rfb_wire.specs.Handshake.{Joined};
ghost use Rattle.rfb_wire.specs.Joining.{ahead, to_send};
ghost use Rattle.rfb_wire.specs.Writing.{request_bytes};
ghost use Rattle.link.specs.Moment.{AllIsSaid};
ghost use Rattle.record_link.specs.Talking.{IsFree, IsSaying, choices};

use fault::Fault;
use link::Record;
use pixel_format::Format;
use raster::{Encoding, Rect};
use rfb_wire::{HostHello, Joined, write_request, write_set_encodings, write_set_pixel_format};
use std::marker::Model;

/// How many bytes a SetPixelFormat has (RFC 6143, 7.5.1).
const FORMAT_LEN: usize = 20;

/// How many bytes a SetEncodings with three encodings has (RFC 6143, 7.5.2).
const ENCODINGS_LEN: usize = 16;

/// How many bytes stand before the first request: these two messages.
const CHOICES_LEN: usize = FORMAT_LEN + ENCODINGS_LEN;

/// How many bytes these have with a FramebufferUpdateRequest of 10 (RFC 6143, 7.5.3).
const MESSAGES_LEN: usize = CHOICES_LEN + 10;

/// Writes the choices, and a request of a screen of this size.
fn write_messages(width: u64, height: u64, incremental: bool, out: &mut [u8])
    requires room { length out.old ≡ 46 }
    requires size { (width ≤ 4096) × (height ≤ 4096) }
    ensures { out.new ≡ choices ++ request_bytes incremental (record {
      x = 0;
      y = 0;
      w = width;
      h = height;
    }) }
{
    let screen = Rect {
        x: 0,
        y: 0,
        w: width,
        h: height,
    };
    let numbers = [
        Encoding::Hextile.number(),
        Encoding::Rre.number(),
        Encoding::Raw.number(),
    ];
    let (format, others) = out.split_at_mut(FORMAT_LEN);
    write_set_pixel_format(&Format::HOST, format);
    let (encodings, request) = others.split_at_mut(ENCODINGS_LEN);
    write_set_encodings(&numbers, encodings);
    write_request(incremental, &screen, request);
}

/// The choices, and a request of a screen of this size.
fn messages_of(width: u64, height: u64, incremental: bool) -> [u8; MESSAGES_LEN]
    requires { (width ≤ 4096) × (height ≤ 4096) }
    ensures { result ≡ choices ++ request_bytes incremental (record {
      x = 0;
      y = 0;
      w = width;
      h = height;
    }) }
{
    let mut messages = [0; MESSAGES_LEN];
    write_messages(width, height, incremental, &mut messages);
    messages
}

/// Where the messages of a request begin: behind the choices, unless it is the first.
fn start_of(is_asked: bool) -> usize
    ensures value { result ≡ (if is_asked then 36 else 0) }
    ensures within { result ≤ 46 }
{
    if is_asked { CHOICES_LEN } else { 0 }
}

/// Copies bytes to the front of a slice, as many as it has room for, and answers how many.
fn copy_front(bytes: &[u8], into: &mut [u8]) -> usize
    ensures count { result ≡ min (length bytes.now) (length into.old) }
    ensures len { length into.new ≡ length into.old }
    ensures front { take result into.new ≡ take result bytes.now }
{
    let count = bytes.len().min(into.len());
    let (said, _) = bytes.split_at(count);
    let (front, _) = into.split_at_mut(count);
    front.copy_from_slice(said);
    count
}

/// What the recorder says, as a viewer that only looks on: its side of the handshake, the pixel format and the
/// encodings that it reads, and one request after another. It takes no memory.
#[derive(Drop)]
pub(crate) struct RecorderTalk {
    hello: HostHello,
    /// Whether a request was made.
    is_asked: bool,
    /// The choices, and the last request. From `start` on the session hasn't taken them.
    messages: [u8; MESSAGES_LEN],
    start: usize,
    taken: Record,
}

impl Model for RecorderTalk {
    ghost use Rattle.std.specs.Prelude.{◌≤◌, drop};
    ghost use Rattle.record_link.specs.Talking.{Talk};

    ghost Value = { Talk };

    ghost view = { λ t. record {
      hello = t.hello;
      is_asked = t.is_asked;
      taken = t.taken.bytes;
      pending = drop t.start t.messages;
    } };

    ghost invariant = { λ t. t.start ≤ 46 };
}

impl RecorderTalk {
    /// A talk in which nothing was said.
    pub(crate) fn new() -> RecorderTalk
        ensures says { IsSaying result [] [] }
        ensures taken { result.taken ≡ [] }
    {
        RecorderTalk {
            hello: HostHello::new(None),
            is_asked: false,
            messages: [0; MESSAGES_LEN],
            start: MESSAGES_LEN,
            taken: Record::new(),
        }
    }

    /// Hears what the session said. It fails with the fault of its handshake.
    pub(crate) fn hear(&mut self, bytes: &[u8]) -> Result<(), Fault>
        ensures taken { self.new.taken ≡ self.old.taken }
        ensures says { (heard : List ℕ) (kinds : List Bool) → IsSaying self.old heard kinds
            → IsSaying self.new (heard
            ++ take (taken (ahead self.old.hello) bytes.now) bytes.now) kinds }
    {
        self.hello.feed(bytes)?;
        Ok(())
    }

    /// What of the messages the session hasn't taken.
    fn pending(&self) -> &[u8]
        ensures { result.now ≡ self.now.pending }
    {
        let (_, pending) = self.messages.split_at(self.start);
        pending
    }

    /// Whether the session has taken all that was said.
    pub(crate) fn is_silent(&self) -> bool
        ensures said { result ≡ true → AllIsSaid self.now.hello }
        ensures none { result ≡ true → self.now.pending ≡ [] }
    {
        self.hello.out().is_empty() && self.pending().is_empty()
    }

    /// What the session told, where its handshake is whole, and it has taken all that was said.
    pub(crate) fn free(&self) -> Option<Joined>
        ensures { IfSome result (IsFree self.now) }
    {
        if !self.is_silent() {
            return None;
        }
        self.hello.done()
    }

    /// Makes the next request.
    pub(crate) fn ask(&mut self, joined: &Joined, incremental: bool)
        requires free { IsFree self.old joined.now }
        requires size { (joined.now.w ≤ 4096) × (joined.now.h ≤ 4096) }
        requires first { self.old.is_asked ≡ false → incremental ≡ false }
        ensures taken { self.new.taken ≡ self.old.taken }
        ensures says { (heard : List ℕ) (kinds : List Bool) → IsSaying self.old heard kinds
            → IsSaying self.new heard (kinds ++ incremental ∷ []) }
    {
        self.messages = messages_of(joined.w, joined.h, incremental);
        self.start = start_of(self.is_asked);
        self.is_asked = true;
    }

    /// Whether a request was made.
    pub(crate) fn is_asked(&self) -> bool
        ensures { result ≡ self.now.is_asked }
    {
        self.is_asked
    }

    /// Says what comes next of the handshake, as much as there is room for, and answers how many bytes that is.
    fn say_hello(&mut self, into: &mut [u8]) -> usize
        requires { 0 < length (to_send self.old.hello) }
        ensures count { result ≤ length into.new }
        ensures taken { self.new.taken ≡ self.old.taken ++ take result into.new }
        ensures says { (heard : List ℕ) (kinds : List Bool) → IsSaying self.old heard kinds
            → IsSaying self.new heard kinds }
    {
        let count = copy_front(self.hello.out(), into);
        let (front, _) = into.split_at(count);
        self.taken.note(front);
        self.hello.sent(count);
        count
    }

    /// Says what comes next of the messages, in the same way.
    fn say_messages(&mut self, into: &mut [u8]) -> usize
        ensures count { result ≤ length into.new }
        ensures taken { self.new.taken ≡ self.old.taken ++ take result into.new }
        ensures says { (heard : List ℕ) (kinds : List Bool) → IsSaying self.old heard kinds
            → IsSaying self.new heard kinds }
    {
        let (_, pending) = self.messages.split_at(self.start);
        let count = copy_front(pending, into);
        let (front, _) = into.split_at(count);
        self.taken.note(front);
        self.start += count;
        count
    }

    /// Says what comes next, as much as there is room for, and answers how many bytes that is.
    pub(crate) fn say(&mut self, into: &mut [u8]) -> usize
        ensures count { result ≤ length into.new }
        ensures taken { self.new.taken ≡ self.old.taken ++ take result into.new }
        ensures says { (heard : List ℕ) (kinds : List Bool) → IsSaying self.old heard kinds
            → IsSaying self.new heard kinds }
    {
        if self.hello.out().is_empty() {
            self.say_messages(into)
        } else {
            self.say_hello(into)
        }
    }
}
