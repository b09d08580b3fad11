//! How far a reader of a viewer's messages has come.

ghost use Rattle.std.specs.Prelude.{◌≡◌, ◌<◌, ◌↔◌, IsTrue, true, length, unwrap_or, None, Some, MatchResult};
ghost use Rattle.byte_reading.specs.Reading.{fault_of, wants_more};
ghost use Rattle.rfb_wire.specs.ClientMessage.{client_message};
ghost use Rattle.rfb_wire.specs.ClientReader.{ahead, is_partial, passing, UsesOrLoses};
ghost use Rattle.rfb_wire.specs.Message.{FeedsOrLoses, IsOrLoses};
ghost use Rattle.rfb_wire.specs.declared.client_reader.state.State.TheVariants as state;

use crate::client_reader::complete::complete;
use crate::client_reader::part::Part;
use crate::fields::{Fields, FixedPart};
use crate::kept_text::KeptText;
use crate::message::ClientMessage;
use crate::skipped_bytes::SkippedBytes;
use fault::Fault;
use std::alloc::Global;

/// What has come of a message.
#[derive(Drop)]
pub(crate) enum State {
    /// Bytes of fields that have a fixed length.
    Fields(Fields<Part>),
    /// A part of a text that is kept.
    Keeping(KeptText),
    /// A part of a text of this many bytes that is read past.
    Passing(u32, SkippedBytes),
    /// The whole message has come.
    Whole(ClientMessage),
    /// Bytes have come that show a fault.
    Failed(Fault),
}

/// Takes bytes from the front of a piece for a part. It answers what the part becomes, if the part is whole then, and
/// how many bytes were taken.
fn take_fields(alloc: Global, fields: &mut Fields<Part>, piece: &[u8]) -> (Option<State>, usize)
    requires { 0 < length piece.now }
    ensures { UsesOrLoses (ahead (state.Fields fields.old))
        (ahead (unwrap_or result.0 (state.Fields fields.new))) piece.now result.1 }
{
    let part = fields.part();
    let count = piece.len().min(fields.left());
    let (next, _) = piece.split_at(count);
    if count < fields.left() {
        fields.keep(next);
        return (None, count);
    }
    let all = fields.whole(next);
    (Some(complete(alloc, part, &all[..part.len()])), count)
}

/// Takes bytes from the front of a piece for a text that is kept. It answers what the text becomes, if that changes,
/// and how many bytes were taken. Where memory for the text is refused, the text is read past from now on.
fn take_text(alloc: Global, kept: &mut KeptText, piece: &[u8]) -> (Option<State>, usize)
    requires { 0 < length piece.now }
    ensures { UsesOrLoses (ahead (state.Keeping kept.old))
        (ahead (unwrap_or result.0 (state.Keeping kept.new))) piece.now result.1 }
{
    let len = kept.len() as u32;
    let count = piece.len().min(kept.left());
    let (next, _) = piece.split_at(count);
    let left = (kept.left() - count) as u32;
    if left == 0 {
        let message = match kept.finish(alloc, next) {
            Ok(text) => ClientMessage::Cut(text),
            Err(_) => ClientMessage::CutLost(len),
        };
        return (Some(State::Whole(message)), count);
    }
    match kept.keep(next) {
        Ok(()) => (None, count),
        Err(_) => (Some(State::past(left, len)), count),
    }
}

/// Reads past bytes from the front of a piece, of a text of `len` bytes. It answers what the text becomes, if it ends
/// there, and how many bytes were taken.
fn skip(len: u32, bytes: &mut SkippedBytes, piece: &[u8]) -> (Option<State>, usize)
    requires { 0 < length piece.now }
    ensures { UsesOrLoses (ahead (state.Passing len bytes.old))
        (ahead (unwrap_or result.0 (state.Passing len bytes.new))) piece.now result.1 }
{
    let count = piece.len().min(bytes.left());
    if count < bytes.left() {
        bytes.skip(count);
        return (None, count);
    }
    (Some(State::Whole(ClientMessage::CutLost(len))), count)
}

impl State {
    /// The state in which nothing of a message has come.
    pub(crate) fn start() -> State
        ensures { ahead result ≡ client_message }
    {
        State::Fields(Fields::of(Part::Kind))
    }

    /// A text of which this many bytes are left to be read past.
    pub(crate) fn past(left: u32, len: u32) -> State
        ensures { ahead result ≡ passing left len }
    {
        if left == 0 {
            State::Whole(ClientMessage::CutLost(len))
        } else {
            State::Passing(len, SkippedBytes::of(left))
        }
    }

    /// Whether nothing of a message has come.
    pub(crate) fn is_start(&self) -> bool
        ensures value { IsTrue result ↔ IsOrLoses (ahead self.now) client_message }
        ensures begins { IsTrue result → ahead self.now ≡ client_message }
    {
        match self {
            State::Fields(fields) => matches!(fields.part(), Part::Kind),
            State::Keeping(_) | State::Passing(_, _) | State::Whole(_) | State::Failed(_) => false,
        }
    }

    /// Whether another byte is wanted, since no message is whole and no fault is shown.
    pub(crate) fn wants_more(&self) -> bool
        ensures value { result ≡ wants_more (ahead self.now) }
        ensures partial { result ≡ is_partial self.now }
    {
        // At least one byte of each part is left. The call that asks for their number is for the proof.
        match self {
            State::Fields(fields) => fields.left() > 0,
            State::Keeping(kept) => kept.left() > 0,
            State::Passing(_, bytes) => bytes.left() > 0,
            State::Whole(_) | State::Failed(_) => false,
        }
    }

    /// The fault that is shown.
    pub(crate) fn fault(&self) -> Option<Fault>
        ensures { result ≡ fault_of (ahead self.now) }
    {
        // A part shows no fault. `wants_more` is called for the proof.
        if self.wants_more() {
            return None;
        }
        match self {
            State::Failed(fault) => Some(*fault),
            _ => None,
        }
    }

    /// Takes bytes from the front of a piece, as many as the part or the text wants, and answers how many.
    pub(crate) fn advance(&mut self, alloc: Global, piece: &[u8]) -> usize
        requires wanted { wants_more (ahead self.old) ≡ true }
        requires some { 0 < length piece.now }
        ensures { UsesOrLoses (ahead self.old) (ahead self.new) piece.now result }
    {
        let (next, count) = match self {
            State::Fields(fields) => take_fields(alloc, fields, piece),
            State::Keeping(kept) => take_text(alloc, kept, piece),
            State::Passing(len, bytes) => skip(*len, bytes, piece),
            State::Whole(_) | State::Failed(_) => unreachable!(),
        };
        if let Some(state) = next {
            *self = state;
        }
        count
    }

    /// What is answered once this many bytes were used.
    fn so_far(&self, used: usize) -> Result<usize, Fault>
        ensures { MatchResult result (λ n. (n ≡ used) × (fault_of (ahead self.now) ≡ None))
            (λ fault. fault_of (ahead self.now) ≡ Some fault) }
    {
        match self.fault() {
            Some(fault) => Err(fault),
            None => Ok(used),
        }
    }

    /// Takes a piece, up to the end of a whole message, and answers how many bytes it used, or the fault.
    pub(crate) fn feed(&mut self, alloc: Global, piece: &[u8]) -> Result<usize, Fault>
        ensures { FeedsOrLoses (ahead self.old) (ahead self.new) piece.now result }
    {
        let mut used = 0;
        while used < piece.len() && self.wants_more() {
            let (_, left) = piece.split_at(used);
            used += self.advance(alloc, left);
        }
        self.so_far(used)
    }
}
