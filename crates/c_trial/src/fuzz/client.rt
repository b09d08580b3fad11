//! What a viewer sends.

use crate::fuzz::pieces::Pieces;
use crate::fuzz::transcript::Transcript;
use fault::Fault;
use rfb_wire::{ClientMessage, ClientReader};
use std::alloc::Global;

/// Writes down a message.
fn write_message(message: ClientMessage, transcript: &mut Transcript<'_>) {
    match message {
        ClientMessage::Format(format) => {
            let mut bytes = [0; 16];
            format.write(&mut bytes);
            transcript.byte(0);
            transcript.bytes(&bytes);
        }
        ClientMessage::Encodings(choice) => {
            let kind = choice.kind.number() as u8;
            transcript.bytes(&[2, kind, u8::from(choice.copy), u8::from(choice.resizes)]);
        }
        ClientMessage::Ask { incremental, rect } => {
            transcript.bytes(&[3, u8::from(incremental)]);
            transcript.number(rect.x);
            transcript.number(rect.y);
            transcript.number(rect.w);
            transcript.number(rect.h);
        }
        ClientMessage::Key { down, key } => {
            transcript.bytes(&[4, u8::from(down)]);
            transcript.number(u64::from(key));
        }
        ClientMessage::Pointer { mask, x, y } => {
            transcript.bytes(&[5, mask]);
            transcript.number(u64::from(x));
            transcript.number(u64::from(y));
        }
        ClientMessage::Cut(text) => {
            transcript.byte(6);
            transcript.number(text.as_slice().len() as u64);
            transcript.bytes(text.as_slice());
        }
        ClientMessage::CutLost(length) => {
            transcript.byte(7);
            transcript.number(u64::from(length));
        }
    }
}

/// Reads one piece to its end, and answers how many bytes were used.
fn read_piece(
    reader: &mut ClientReader,
    piece: &[u8],
    transcript: &mut Transcript<'_>,
) -> Result<usize, Fault> {
    let mut left = piece;
    for _ in 0..=piece.len() {
        let used = reader.feed(left)?;
        let (_, rest) = left.split_at(used.min(left.len()));
        left = rest;
        match reader.take() {
            Some(message) => write_message(message, transcript),
            None => break,
        }
    }
    Ok(piece.len().saturating_sub(left.len()))
}

/// A viewer's stream after its handshake: its messages, and its end.
#[unsafe(no_mangle)]
pub extern "C" fn fuzz_client(
    alloc: Global,
    bytes: &[u8],
    lengths: &[u8],
    out: &mut [u8],
) -> usize {
    let mut transcript = Transcript::new(out);
    let mut pieces = Pieces::new(bytes, lengths);
    let mut reader = ClientReader::new(alloc);
    let mut used: usize = 0;
    let mut fault = None;
    for _ in 0..bytes.len() {
        let Some(piece) = pieces.next() else {
            break;
        };
        match read_piece(&mut reader, piece, &mut transcript) {
            Ok(count) => used = used.saturating_add(count),
            Err(found) => fault = Some(found),
        }
    }
    transcript.end(fault, used);
    transcript.byte(u8::from(reader.is_between()));
    transcript.len()
}
