//! How far a decoder has come in a message.

ghost use Rattle.std.specs.Prelude.{◌≡◌, ℕ, ◌<◌, ◌≤◌, false, true, length, unwrap_or, IfOk, IsFalse, IsTrue, Result};
ghost use Rattle.byte_reading.specs.Reading.{Reading};
ghost use Rattle.raster.specs.Screen.{Canvas};
ghost use Rattle.raster.specs.Size.{IsScreenSize};
ghost use Rattle.rfb_wire.specs.ServerMessage.{ServerMessage};
ghost use Rattle.host_decoder.specs.Decoder.{Feeds, Stands, StandsUnpainted, Stays, Suits, Uses, answered, is_open, keeping, passing, start};

use crate::advance::{skip, take_fields, take_text};
use crate::data::Data;
use crate::event::HostEvent;
use crate::part::HostPart;
use crate::passed::Passed;
use crate::update_data::read_data;
use fault::Fault;
use painter::{Painter, Patch};
use rfb_wire::{Fields, KeptText, SkippedBytes, Text};
use std::alloc::Global;

/// The part of a message that has come.
#[derive(Drop)]
pub(crate) enum HostState {
    /// A part of the fields whose length is fixed.
    Fields(Fields<HostPart>),
    /// A part of a rectangle's data, after which this many rectangles follow.
    Pixels(u16, Data),
    /// A part of a text that is kept.
    Keeping(KeptText),
    /// A part of the bytes that are read past.
    Passing(Passed, SkippedBytes),
    /// The whole message, as the event that it brings.
    Whole(HostEvent),
    /// The fault that the message shows, or `Memory` where memory was refused. Nothing more is read.
    Failed(Fault),
}

impl HostState {
    /// The state between two messages: nothing of the next has come.
    pub(crate) fn start() -> HostState
        ensures { result ≡ start }
    {
        HostState::Fields(Fields::of(HostPart::Kind))
    }

    /// The state in which this many bytes are still to be read past.
    pub(crate) fn past(what: Passed, left: u32) -> HostState
        ensures stands { (w h : ℕ) → StandsUnpainted w h result (passing left what) }
        ensures suits { (w h : ℕ) → Suits w h result }
    {
        if left == 0 {
            HostState::Whole(what.event())
        } else {
            HostState::Passing(what, SkippedBytes::of(left))
        }
    }

    /// The state in which all bytes of a text that is kept have come.
    pub(crate) fn text(painter: &Painter, text: Text) -> HostState
        requires { IsScreenSize painter.now.width painter.now.height }
        ensures stands { StandsUnpainted painter.now.width painter.now.height
            result (keeping text 0) }
        ensures suits { (w h : ℕ) → Suits w h result }
    {
        let (width, height) = painter.size();
        HostState::Whole(HostEvent::Cut(Patch::text(width, height, text.into_vec())))
    }

    /// Whether it takes another byte. It doesn't after a whole message or after a fault.
    pub(crate) fn is_open(&self) -> bool
        ensures { result ≡ is_open self.now }
    {
        match self {
            HostState::Fields(_)
            | HostState::Pixels(_, _)
            | HostState::Keeping(_)
            | HostState::Passing(_, _) => { true }
            HostState::Whole(_) | HostState::Failed(_) => false,
        }
    }

    /// Takes all of these bytes, where they end inside the pixels of a Raw rectangle. Otherwise it answers `false`, and
    /// nothing changes.
    fn advance_raw(&mut self, painter: &mut Painter, bytes: &[u8]) -> bool
        requires suits { Suits painter.old.width painter.old.height self.old }
        ensures stays { Stays painter.old painter.new self.new }
        ensures uses { IsTrue result → (start : Canvas) (r : Reading ServerMessage)
            → Stands painter.old.width painter.old.height self.old start painter.old r
            → Uses painter.old painter.new self.new start r bytes.now (length bytes.now) }
        ensures others { IsFalse result → (self.new ≡ self.old) × (painter.new ≡ painter.old) }
    {
        match self {
            HostState::Pixels(_, reader) => reader.feed_raw(painter, bytes),
            _ => false,
        }
    }

    /// Takes bytes from the front of a piece. It answers the state that follows, or none where this one stays, and how
    /// many bytes it took.
    fn step(
        &mut self,
        alloc: Global,
        painter: &mut Painter,
        bytes: &[u8],
    ) -> (Option<HostState>, usize)
        requires size { IsScreenSize painter.old.width painter.old.height }
        requires suits { Suits painter.old.width painter.old.height self.old }
        requires wanted { is_open self.old ≡ true }
        requires some { 0 < length bytes.now }
        ensures stays { Stays painter.old painter.new (unwrap_or result.0 self.new) }
        ensures within { (0 < result.1) × (result.1 ≤ length bytes.now) }
        ensures uses { (start : Canvas) (r : Reading ServerMessage)
            → Stands painter.old.width painter.old.height self.old start painter.old r
            → Uses painter.old painter.new (unwrap_or result.0 self.new)
            start r bytes.now result.1 }
    {
        match self {
            HostState::Fields(fields) => take_fields(alloc, painter, fields, bytes),
            HostState::Pixels(left, reader) => read_data(painter, *left, reader, bytes),
            HostState::Keeping(kept) => take_text(alloc, painter, kept, bytes),
            HostState::Passing(what, past) => skip(*what, past, bytes),
            HostState::Whole(_) | HostState::Failed(_) => unreachable!(),
        }
    }

    /// Takes bytes from the front of these, as many as the part, the data or the text wants, and answers how many.
    fn advance(&mut self, alloc: Global, painter: &mut Painter, bytes: &[u8]) -> usize
        requires size { IsScreenSize painter.old.width painter.old.height }
        requires suits { Suits painter.old.width painter.old.height self.old }
        requires wanted { is_open self.old ≡ true }
        requires some { 0 < length bytes.now }
        ensures stays { Stays painter.old painter.new self.new }
        ensures within { (0 < result) × (result ≤ length bytes.now) }
        ensures uses { (start : Canvas) (r : Reading ServerMessage)
            → Stands painter.old.width painter.old.height self.old start painter.old r
            → Uses painter.old painter.new self.new start r bytes.now result }
    {
        // Most pieces of a large update are such bytes. `step` answers with room for a whole state, and filling that
        // room for each piece costs noticeable time where pieces are small.
        if self.advance_raw(painter, bytes) {
            return bytes.len();
        }
        let (next, count) = self.step(alloc, painter, bytes);
        if let Some(state) = next {
            *self = state;
        }
        count
    }

    /// What is answered once this many bytes were used.
    fn so_far(&self, used: usize) -> Result<usize, Fault>
        ensures { result ≡ answered self.now used }
    {
        match self {
            HostState::Failed(fault) => Err(*fault),
            _ => Ok(used),
        }
    }

    /// Takes a piece, up to the end of a whole message, and answers how many bytes it used, or what failed.
    pub(crate) fn feed(
        &mut self,
        alloc: Global,
        painter: &mut Painter,
        piece: &[u8],
    ) -> Result<usize, Fault>
        requires size { IsScreenSize painter.old.width painter.old.height }
        requires suits { Suits painter.old.width painter.old.height self.old }
        ensures stays { Stays painter.old painter.new self.new }
        ensures within { IfOk result (λ used. used ≤ length piece.now) }
        ensures feeds { (screen : Canvas) (r : Reading ServerMessage)
            → Stands painter.old.width painter.old.height self.old screen painter.old r
            → Feeds
            (record { width = painter.old.width; height = painter.old.height; state = self.new })
            painter.new screen r piece.now result }
        ensures closed { is_open self.old ≡ false
            → (result ≡ answered self.old 0) × (self.new ≡ self.old) × (painter.new ≡ painter.old) }
    {
        let mut used = 0;
        while used < piece.len() && self.is_open() {
            let (_, left) = piece.split_at(used);
            used += self.advance(alloc, painter, left);
        }
        self.so_far(used)
    }
}
