//! What follows once all bytes of a part have come.

ghost use Rattle.std.specs.Prelude.{◌≡◌, length, drop, suc};
ghost use Rattle.std.specs.Int.{w32, from_be_bytes};
ghost use Rattle.byte_reading.specs.Reading.{after};
ghost use Rattle.rfb_wire.specs.ClientMessage.{CutText, LostText, ask, fields_of, key_event, pointer_event, set_encodings, set_pixel_format, text};
ghost use Rattle.rfb_wire.specs.ClientReader.{ahead, form_of, numbers};
ghost use Rattle.rfb_wire.specs.Parts.{len_of};

use crate::client_reader::found::Found;
use crate::client_reader::part::Part;
use crate::client_reader::state::State;
use crate::fields::Fields;
use crate::kept_text::KeptText;
use crate::message::ClientMessage;
use crate::message_type::{
    CLIENT_CUT_TEXT, FRAMEBUFFER_UPDATE_REQUEST, KEY_EVENT, POINTER_EVENT, SET_ENCODINGS,
    SET_PIXEL_FORMAT,
};
use crate::text::Text;
use fault::{Fault, LONGEST_TEXT};
use pixel_format::Format;
use raster::Rect;
use std::alloc::Global;

/// How reading goes on after a part that has these bytes.
pub(crate) fn complete(alloc: Global, part: Part, b: &[u8]) -> State
    requires { length b.now ≡ len_of part }
    ensures { ahead result ≡ after (form_of part) b.now }
{
    match part {
        Part::Kind => behind_kind(b[0]),
        Part::Format => format(b),
        Part::Count => encodings(b),
        Part::Number { left, found } => number(left, found, b),
        Part::Ask => request(b),
        Part::Key => key(b),
        Part::Pointer => pointer(b),
        Part::Length => cut(alloc, b),
    }
}

/// What follows the type of a message.
fn behind_kind(kind: u8) -> State
    ensures { ahead result ≡ fields_of kind }
{
    let part = match kind {
        SET_PIXEL_FORMAT => Part::Format,
        SET_ENCODINGS => Part::Count,
        FRAMEBUFFER_UPDATE_REQUEST => Part::Ask,
        KEY_EVENT => Part::Key,
        POINTER_EVENT => Part::Pointer,
        CLIENT_CUT_TEXT => Part::Length,
        _ => return State::Failed(Fault::UnknownMessage(kind)),
    };
    State::Fields(Fields::of(part))
}

/// What follows the fields of SetPixelFormat (RFC 6143, 7.5.1).
fn format(b: &[u8]) -> State
    requires { length b.now ≡ 19 }
    ensures { ahead result ≡ after set_pixel_format b.now }
{
    let (_, fields) = b.split_at(3);
    match fields.first_chunk::<16>() {
        Some(fields) => match Format::read(fields) {
            Ok(format) => State::Whole(ClientMessage::Format(format)),
            Err(fault) => State::Failed(fault),
        },
        None => unreachable!(),
    }
}

/// What follows the count of SetEncodings (RFC 6143, 7.5.2).
fn encodings(b: &[u8]) -> State
    requires { length b.now ≡ 3 }
    ensures { ahead result ≡ after set_encodings b.now }
{
    match u16::from_be_bytes([b[1], b[2]]) {
        0 => State::Whole(ClientMessage::Encodings(Found::NOTHING.choice())),
        count => State::Fields(Fields::of(Part::Number {
            left: count - 1,
            found: Found::NOTHING,
        })),
    }
}

/// What follows a number of SetEncodings, after which this many more are left (RFC 6143, 7.5.2).
fn number(left: u16, found: Found, b: &[u8]) -> State
    requires { length b.now ≡ 4 }
    ensures { ahead result ≡ after (numbers (suc left) found) b.now }
{
    let found = found.note(u32::from_be_bytes([b[0], b[1], b[2], b[3]]));
    if left == 0 {
        State::Whole(ClientMessage::Encodings(found.choice()))
    } else {
        State::Fields(Fields::of(Part::Number {
            left: left - 1,
            found,
        }))
    }
}

/// What follows the fields of FramebufferUpdateRequest (RFC 6143, 7.5.3).
fn request(b: &[u8]) -> State
    requires { length b.now ≡ 9 }
    ensures { ahead result ≡ after ask b.now }
{
    let (flag, rect) = b.split_at(1);
    State::Whole(ClientMessage::Ask {
        incremental: flag[0] != 0,
        rect: Rect::read(rect),
    })
}

/// What follows the fields of KeyEvent (RFC 6143, 7.5.4).
fn key(b: &[u8]) -> State
    requires { length b.now ≡ 7 }
    ensures { ahead result ≡ after key_event b.now }
{
    State::Whole(ClientMessage::Key {
        down: b[0] != 0,
        key: u32::from_be_bytes([b[3], b[4], b[5], b[6]]),
    })
}

/// What follows the fields of PointerEvent (RFC 6143, 7.5.5).
fn pointer(b: &[u8]) -> State
    requires { length b.now ≡ 5 }
    ensures { ahead result ≡ after pointer_event b.now }
{
    State::Whole(ClientMessage::Pointer {
        mask: b[0],
        x: u16::from_be_bytes([b[1], b[2]]),
        y: u16::from_be_bytes([b[3], b[4]]),
    })
}

/// How many bytes a text has, after three of padding.
fn text_length(b: &[u8]) -> u32
    requires { length b.now ≡ 7 }
    ensures { result ≡ from_be_bytes w32 (drop 3 b.now) }
{
    u32::from_be_bytes([b[3], b[4], b[5], b[6]])
}

/// What follows the length of ClientCutText: its text, which is kept or read past (RFC 6143, 7.5.6).
fn cut(alloc: Global, b: &[u8]) -> State
    requires { length b.now ≡ 7 }
    ensures { ahead result ≡ after (text CutText LostText) b.now }
{
    let len = text_length(b);
    if len > LONGEST_TEXT {
        State::past(len, len)
    } else if len == 0 {
        State::Whole(ClientMessage::Cut(Text::from_vec(Vec::new(alloc))))
    } else {
        State::Keeping(KeptText::begin(alloc, len as usize))
    }
}
