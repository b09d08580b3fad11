//! A viewer's messages as they come, in pieces.

use fault::Fault;
use pixel_format::Format;
use raster::{Encoding, Rect};
use rfb_wire::{ClientMessage, ClientReader};
use std::alloc::Global;
use std::process::Abort;

/// What a message says.
#[derive(Clone, Copy)]
enum Says {
    Format([u8; 16]),
    /// How pixels are wanted, and whether CopyRect is among the encodings, and DesktopSize.
    Encodings(Encoding, bool, bool, bool),
    /// Whether only what has changed is asked for, and where.
    Ask(bool, Rect),
    /// Whether the key is pressed, and which it is.
    Key(bool, u32),
    /// The buttons, and the position.
    Pointer(u8, u16, u16),
    Text(&'static [u8]),
    /// A text of this many bytes, each of which is an M.
    LongText(usize),
    LostText(u32),
}

/// A format of 16 bits, red 5, green 6 and blue 5 bits, most significant byte first.
const FORMAT: [u8; 16] = [16, 16, 1, 1, 0, 31, 0, 63, 0, 31, 11, 5, 0, 0, 0, 0];

/// Messages, and what they say.
const MESSAGES: [(&[u8], Says); 11] = [
    (
        &[
            0, 0, 0, 0, 16, 16, 1, 1, 0, 31, 0, 63, 0, 31, 11, 5, 0, 0, 0, 0,
        ],
        Says::Format(FORMAT),
    ),
    // CopyRect, one that isn't known, Hextile, Raw, RRE
    (
        &[
            2, 0, 0, 5, 0, 0, 0, 1, 255, 255, 255, 0, 0, 0, 0, 5, 0, 0, 0, 0, 0, 0, 0, 2,
        ],
        Says::Encodings(Encoding::Hextile, true, false, false),
    ),
    (
        &[2, 0, 0, 2, 0, 0, 0, 1, 255, 255, 255, 0],
        Says::Encodings(Encoding::Raw, true, false, false),
    ),
    // ZRLE, Hextile, CopyRect
    (
        &[2, 0, 0, 3, 0, 0, 0, 16, 0, 0, 0, 5, 0, 0, 0, 1],
        Says::Encodings(Encoding::Hextile, true, false, true),
    ),
    // ExtendedDesktopSize (-308), DesktopSize (-223)
    (
        &[2, 0, 0, 2, 255, 255, 254, 204, 255, 255, 255, 33],
        Says::Encodings(Encoding::Raw, false, true, false),
    ),
    (
        &[2, 0, 0, 0],
        Says::Encodings(Encoding::Raw, false, false, false),
    ),
    (&[3, 255, 1, 2, 0, 3, 16, 0, 0, 1], Says::Ask(true, AREA)),
    (&[4, 1, 9, 9, 0, 0, 255, 13], Says::Key(true, 0xFF0D)),
    (&[5, 4, 1, 0, 0, 7], Says::Pointer(4, 256, 7)),
    (
        &[6, 0, 0, 0, 0, 0, 0, 3, 65, 255, 67],
        Says::Text(&[65, 255, 67]),
    ),
    (&[6, 0, 0, 0, 0, 0, 0, 0], Says::Text(&[])),
];

const AREA: Rect = Rect {
    x: 258,
    y: 3,
    w: 4096,
    h: 1,
};

fn is_format(format: &Format, bytes: &[u8; 16]) -> bool {
    let mut written = [0; 16];
    format.write(&mut written);
    written == *bytes
}

/// Whether these are this many bytes, each of which is an M.
fn is_long_text(bytes: &[u8], count: usize) -> bool {
    bytes.len() == count && bytes.iter().all(|byte| *byte == b'M')
}

fn is_said(message: &ClientMessage, says: &Says) -> bool {
    match (message, says) {
        (ClientMessage::Format(format), Says::Format(bytes)) => is_format(format, bytes),
        (ClientMessage::Encodings(choice), Says::Encodings(wanted, copied, sized, compressed)) => {
            choice.kind == *wanted
                && choice.copy == *copied
                && choice.resizes == *sized
                && choice.zrle == *compressed
        }
        (ClientMessage::Ask { incremental, rect }, Says::Ask(changes, area)) => {
            incremental == changes && rect == area
        }
        (ClientMessage::Key { down, key }, Says::Key(pressed, symbol)) => {
            down == pressed && key == symbol
        }
        (ClientMessage::Pointer { mask, x, y }, Says::Pointer(buttons, across, down)) => {
            mask == buttons && x == across && y == down
        }
        (ClientMessage::Cut(text), Says::Text(bytes)) => text.as_slice() == *bytes,
        (ClientMessage::Cut(text), Says::LongText(count)) => is_long_text(text.as_slice(), *count),
        (ClientMessage::CutLost(len), Says::LostText(lost)) => len == lost,
        _ => false,
    }
}

/// Whether a message is whole, and says this. It is taken.
fn gives(reader: &mut ClientReader, says: &Says) -> bool {
    match reader.take() {
        Some(message) => is_said(&message, says),
        None => false,
    }
}

/// Whether this many bytes of the piece are used, and no fault is shown.
fn uses(reader: &mut ClientReader, piece: &[u8], count: usize) -> bool {
    match reader.feed(piece) {
        Ok(used) => used == count,
        Err(_) => false,
    }
}

fn shows_bad_format(reader: &mut ClientReader, piece: &[u8]) -> bool {
    matches!(reader.feed(piece), Err(Fault::BadFormat))
}

/// Whether all bytes of both pieces are used, and they spell this.
fn reads_in_two(reader: &mut ClientReader, front: &[u8], back: &[u8], says: &Says) -> bool {
    uses(reader, front, front.len()) && uses(reader, back, back.len()) && gives(reader, says)
}

/// Whether `count` pieces are each used up to this byte.
fn uses_pieces(reader: &mut ClientReader, piece: &[u8], used: usize, count: usize) -> bool {
    for _ in 0..count {
        if !uses(reader, piece, used) {
            return false;
        }
    }
    true
}

fn reads_byte_by_byte(reader: &mut ClientReader, bytes: &[u8], says: &Says) -> bool {
    for piece in bytes.chunks(1) {
        if !uses(reader, piece, 1) {
            return false;
        }
    }
    gives(reader, says)
}

/// A message is read wherever it is cut in two, and in a piece for each byte.
#[test]
fn messages_in_pieces(rt: HostRuntime) {
    for (i, (bytes, says)) in MESSAGES.iter().enumerate() {
        for cut in 0..=bytes.len() {
            let (front, back) = bytes.split_at(cut);
            let mut reader = ClientReader::new(rt.alloc());
            let is_read = reads_in_two(&mut reader, front, back, says);
            assert!(rt; is_read, "message {i} cut at {cut}");
        }
        let mut reader = ClientReader::new(rt.alloc());
        let is_read = reads_byte_by_byte(&mut reader, bytes, says);
        assert!(rt; is_read, "message {i} byte by byte");
    }
}

/// What is done with one reader, and what the reader answers.
#[derive(Clone, Copy)]
enum Step {
    /// This many bytes of a piece are used, and no fault is shown.
    Uses(&'static [u8], usize),
    /// This many bytes of a piece are used, and no fault is shown, for this many such pieces, one after the other.
    UsesAgain(&'static [u8], usize, usize),
    /// The pieces of this length and number are each used so far, where each byte is an M.
    UsesLong(Long),
    Gives(Says),
    GivesNothing,
    /// A text is given, and gives no bytes back.
    GivesEmptyText,
    /// A message of this type isn't known.
    IsUnknown(&'static [u8], u8),
    IsBadFormat(&'static [u8]),
    IsFine,
    IsAtFault,
}

/// Pieces of one length: their length, how many bytes of each are used, and how many pieces there are.
#[derive(Clone, Copy)]
struct Long {
    len: usize,
    used: usize,
    count: usize,
}

const EMPTY_TEXT: [Step; 2] = [
    Step::Uses(&[6, 0, 0, 0, 0, 0, 0, 0], 8),
    Step::GivesEmptyText,
];

/// Of 65,535 numbers only one is an encoding that is written.
const LONGEST_LIST: [Step; 6] = [
    Step::Uses(&[2, 0, 255, 255], 4),
    Step::UsesAgain(&[0, 0, 0, 7], 4, 65533),
    Step::Uses(&[0, 0, 0, 2], 4),
    Step::GivesNothing,
    Step::Uses(&[0, 0, 0, 0, 99], 4),
    Step::Gives(Says::Encodings(Encoding::Rre, false, false, false)),
];

const LONGEST_TEXT_THAT_IS_KEPT: [Step; 3] = [
    Step::Uses(&[6, 0, 0, 0, 0, 1, 0, 0], 8),
    Step::UsesLong(Long {
        len: 65536,
        used: 65536,
        count: 1,
    }),
    Step::Gives(Says::LongText(65536)),
];

const TEXT_THAT_IS_TOO_LONG: [Step; 3] = [
    Step::Uses(&[6, 0, 0, 0, 0, 1, 0, 1], 8),
    Step::UsesLong(Long {
        len: 65537,
        used: 65537,
        count: 1,
    }),
    Step::Gives(Says::LostText(65537)),
];

/// The pieces have 1,048,576 bytes, of which 4,096 pieces hold one byte more than the text.
const LONGEST_TEXT: [Step; 5] = [
    Step::Uses(&[6, 0, 0, 0, 255, 255, 255, 255], 8),
    Step::UsesLong(Long {
        len: 1048576,
        used: 1048576,
        count: 4095,
    }),
    Step::GivesNothing,
    Step::UsesLong(Long {
        len: 1048576,
        used: 1048575,
        count: 1,
    }),
    Step::Gives(Says::LostText(4294967295)),
];

/// What is left to read of a text of 4,294,967,295 bytes is no message, and its first bytes are no fault.
const LONGEST_TEXT_BEGUN: [Step; 3] = [
    Step::Uses(&[6, 0, 0, 0, 255, 255, 255, 255, 65, 66, 67], 11),
    Step::IsFine,
    Step::GivesNothing,
];

const ONE_AT_A_TIME: [Step; 6] = [
    Step::Uses(&[5, 1, 0, 2, 0, 3, 5, 0], 6),
    Step::Uses(&[5, 0], 0),
    Step::Gives(Says::Pointer(1, 2, 3)),
    Step::GivesNothing,
    Step::Uses(&[5, 0, 0, 2, 0, 3], 6),
    Step::Gives(Says::Pointer(0, 2, 3)),
];

const UNKNOWN_TYPE: [Step; 6] = [
    Step::IsFine,
    Step::IsUnknown(&[7, 3, 0], 7),
    Step::IsUnknown(&[3], 7),
    Step::IsUnknown(&[], 7),
    Step::GivesNothing,
    Step::IsAtFault,
];

/// 24 bits a pixel, which the first of the 16 bytes shows.
const REFUSED_FORMAT: [Step; 4] = [
    Step::Uses(
        &[
            0, 0, 0, 0, 24, 24, 0, 1, 0, 255, 0, 255, 0, 255, 16, 8, 0, 0, 0,
        ],
        19,
    ),
    Step::IsFine,
    Step::IsBadFormat(&[0]),
    Step::IsBadFormat(&[0]),
];

fn uses_long(alloc: Global, reader: &mut ClientReader, long: &Long) -> bool {
    match Vec::from_elem(alloc, b'M', long.len) {
        Ok(piece) => uses_pieces(reader, piece.as_slice(), long.used, long.count),
        Err(_) => false,
    }
}

/// Whether a text is given. It gives its bytes back, and has none.
fn gives_empty_text(reader: &mut ClientReader) -> bool {
    match reader.take() {
        Some(ClientMessage::Cut(text)) => text.into_vec().is_empty(),
        _ => false,
    }
}

fn is_unknown(reader: &mut ClientReader, piece: &[u8], kind: u8) -> bool {
    match reader.feed(piece) {
        Err(Fault::UnknownMessage(found)) => found == kind,
        _ => false,
    }
}

/// Whether a step has the result that it should have.
fn goes(alloc: Global, reader: &mut ClientReader, step: &Step) -> bool {
    match step {
        Step::Uses(piece, used) => uses(reader, piece, *used),
        Step::UsesAgain(piece, used, count) => uses_pieces(reader, piece, *used, *count),
        Step::UsesLong(long) => uses_long(alloc, reader, long),
        Step::Gives(says) => gives(reader, says),
        Step::GivesNothing => reader.take().is_none(),
        Step::GivesEmptyText => gives_empty_text(reader),
        Step::IsUnknown(piece, kind) => is_unknown(reader, piece, *kind),
        Step::IsBadFormat(piece) => shows_bad_format(reader, piece),
        Step::IsFine => reader.fault().is_none(),
        Step::IsAtFault => reader.fault().is_some(),
    }
}

/// Each step over a new reader has the result that it should have.
fn plays<R: Abort + AllocGlobal>(rt: &R, name: &str, steps: &[Step]) {
    let mut reader = ClientReader::new(rt.alloc());
    for (i, step) in steps.iter().enumerate() {
        assert!(rt; goes(rt.alloc(), &mut reader, step), "{name}: step {i}");
    }
}

const STREAMS: [(&str, &[Step]); 9] = [
    ("an empty text", &EMPTY_TEXT),
    ("the longest list", &LONGEST_LIST),
    ("the longest text that is kept", &LONGEST_TEXT_THAT_IS_KEPT),
    ("a text that is too long", &TEXT_THAT_IS_TOO_LONG),
    ("the longest text", &LONGEST_TEXT),
    ("the longest text, begun", &LONGEST_TEXT_BEGUN),
    ("one message at a time", &ONE_AT_A_TIME),
    ("a type that is unknown", &UNKNOWN_TYPE),
    ("a format that is refused", &REFUSED_FORMAT),
];

#[test]
fn streams(rt: HostRuntime) {
    for (name, steps) in STREAMS {
        plays(&rt, name, steps);
    }
}

/// Whether a message type is read as one that is known: it is no fault.
fn is_known_type(alloc: Global, kind: u8) -> bool {
    let mut reader = ClientReader::new(alloc);
    uses(&mut reader, &[kind], 1)
}

/// Whether just the types that are known are read as known.
fn is_judged_type(alloc: Global, kind: u8) -> bool {
    is_known_type(alloc, kind) == matches!(kind, 0 | 2..=6)
}

#[test]
fn all_types(rt: HostRuntime) {
    for kind in 0..=255 {
        assert!(rt; is_judged_type(rt.alloc(), kind), "type {kind}");
    }
}

/// Whether the format is still accepted with one byte changed so: byte 0 are the bits a pixel, 3 is the true-colour
/// flag, 4 to 9 are the greatest values, 10 to 12 the shifts.
fn stays_accepted(position: usize, value: u8) -> bool {
    match position {
        0 => value == 16 || value == 32,
        3 => value != 0,
        4 | 6 | 8 => value == 0,
        5 | 9 => matches!(value, 1 | 3 | 7 | 15 | 31),
        7 => matches!(value, 1 | 3 | 7 | 15 | 31 | 63),
        10 => value == 11,
        11 => value == 5,
        12 => value == 0,
        _ => true,
    }
}

fn changed(position: usize, value: u8) -> [u8; 16] {
    let mut bytes = FORMAT;
    if position < 16 {
        bytes[position] = value;
    }
    bytes
}

/// Whether the last byte of a format makes a whole message, where the format is accepted; and otherwise shows
/// BadFormat, which stays.
fn is_judged(reader: &mut ClientReader, last: &[u8], accepted: bool) -> bool {
    if accepted {
        uses(reader, last, 1) && reader.take().is_some()
    } else {
        shows_bad_format(reader, last) && shows_bad_format(reader, &[5]) && reader.take().is_none()
    }
}

/// Whether a SetPixelFormat with these bytes shows no fault before the last of them, and is judged there.
fn is_judged_at_its_end(alloc: Global, format: &[u8; 16], accepted: bool) -> bool {
    let mut reader = ClientReader::new(alloc);
    let (front, last) = format.split_at(15);
    uses(&mut reader, &[0, 0, 0, 0], 4)
        && uses(&mut reader, front, 15)
        && is_judged(&mut reader, last, accepted)
}

/// Each value of this byte of a format is judged as it should be.
fn is_judged_at_each_value<R: Abort + AllocGlobal>(rt: &R, position: usize) {
    for value in 0..=255 {
        let format = changed(position, value);
        let accepted = stays_accepted(position, value);
        let judged = is_judged_at_its_end(rt.alloc(), &format, accepted);
        assert!(rt; judged, "byte {position}: {value}");
    }
}

#[test]
fn every_byte_of_a_format(rt: HostRuntime) {
    for position in 0..16 {
        is_judged_at_each_value(&rt, position);
    }
}
