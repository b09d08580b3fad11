//! Rectangles as they lie in a file.

ghost use Rattle.std.specs.Prelude.{◌≡◌, length};

use pixel_format::Format;

/// What a writer has to answer.
#[derive(Clone, Copy, PartialEq, Eq)]
pub enum Answer {
    /// The rectangle is for reading alone.
    Unasked,
    /// The data of the record, byte for byte.
    Data,
    /// Nothing, since Raw is as short.
    Nothing,
}

/// A rectangle: its encoding's number, its pixel format, its size in pixels, what a writer has to answer, its data, and
/// its pixels in Raw.
#[derive(Clone, Copy)]
pub struct Record<'a> {
    pub encoding: u8,
    pub format: Format,
    pub width: u16,
    pub height: u16,
    pub answer: Answer,
    pub data: &'a [u8],
    pub pixels: &'a [u8],
}

/// How many bytes stand before the data.
const HEAD_LEN: usize = 26;

/// The part before the data: all but the data and the pixels, and how many bytes the data has.
#[derive(Clone, Copy)]
struct Head {
    encoding: u8,
    format: Format,
    width: u16,
    height: u16,
    answer: Answer,
    data_len: usize,
}

/// What these bytes say in front of a record's data; `None` where that is no pixel format.
fn read_head(head: &[u8]) -> Option<Head>
    requires { length head.now ≡ HEAD_LEN }
{
    let mut format = [0; 16];
    format.copy_from_slice(&head[1..17]);
    let format = Format::read(&format).ok()?;
    let answer = match head[21] {
        0 => Answer::Unasked,
        1 => Answer::Data,
        _ => Answer::Nothing,
    };
    Some(Head {
        encoding: head[0],
        format,
        width: u16::from_be_bytes([head[17], head[18]]),
        height: u16::from_be_bytes([head[19], head[20]]),
        answer,
        data_len: u32::from_be_bytes([head[22], head[23], head[24], head[25]]) as usize,
    })
}

/// The record at the front of some bytes, and the bytes after it; `None` where no whole one stands there.
pub fn read_record(bytes: &[u8]) -> Option<(Record<'_>, &[u8])> {
    let (front, rest) = bytes.split_at_checked(HEAD_LEN)?;
    let head = read_head(front)?;
    let (data, rest) = rest.split_at_checked(head.data_len)?;
    let pixels_len = head.width as usize * head.height as usize * head.format.bytes();
    let (pixels, rest) = rest.split_at_checked(pixels_len)?;
    let record = Record {
        encoding: head.encoding,
        format: head.format,
        width: head.width,
        height: head.height,
        answer: head.answer,
        data,
        pixels,
    };
    Some((record, rest))
}
