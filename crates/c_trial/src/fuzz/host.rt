//! What a host sends.

ghost use Rattle.host_decoder.specs.Decoder.{IsFor};

use crate::fuzz::pieces::Pieces;
use crate::fuzz::transcript::Transcript;
use fault::{Fault, LIMIT};
use host_decoder::{HostEvent, HostScreen};
use painter::{Board, Patch};
use std::alloc::Global;

/// Applies a patch of the board's size, and answers whether it is.
fn apply(board: &mut Board, patch: &Patch) -> bool {
    let is_one = board.size() == patch.size() && board.number() < LIMIT;
    if is_one {
        board.apply(patch, None);
    }
    is_one
}

/// Applies what a message brings, and writes it down.
fn keep(event: HostEvent, board: &mut Board, transcript: &mut Transcript<'_>) {
    match event {
        HostEvent::Paint(patch) => {
            transcript.bytes(&[0, u8::from(apply(board, &patch))]);
        }
        HostEvent::Map => transcript.byte(1),
        HostEvent::Bell(patch) => {
            transcript.bytes(&[2, u8::from(apply(board, &patch))]);
        }
        HostEvent::Cut(patch) => {
            transcript.bytes(&[3, u8::from(apply(board, &patch))]);
            if let Some(text) = patch.text_bytes() {
                transcript.number(text.len() as u64);
                transcript.bytes(text);
            }
        }
        HostEvent::LongCut => transcript.byte(4),
    }
}

/// Reads one piece to its end, and answers how many bytes were used.
fn read_piece(
    screen: &mut HostScreen,
    board: &mut Board,
    piece: &[u8],
    transcript: &mut Transcript<'_>,
) -> Result<usize, Fault>
    requires { IsFor screen.old.decoder screen.old.painter }
    ensures { IsFor screen.new.decoder screen.new.painter }
{
    let mut left = piece;
    for _ in 0..=piece.len() {
        let used = screen.decoder.feed(&mut screen.painter, left)?;
        let (_, rest) = left.split_at(used);
        left = rest;
        match screen.decoder.whole() {
            Some(event) => keep(event, board, transcript),
            None => break,
        }
    }
    Ok(piece.len().saturating_sub(left.len()))
}

/// Reads a stream: its messages, and its end.
fn read(
    screen: &mut HostScreen,
    board: &mut Board,
    bytes: &[u8],
    lengths: &[u8],
    transcript: &mut Transcript<'_>,
)
    requires { IsFor screen.old.decoder screen.old.painter }
{
    let mut pieces = Pieces::new(bytes, lengths);
    let mut used: usize = 0;
    let mut fault = None;
    for _ in 0..bytes.len() {
        let Some(piece) = pieces.next() else {
            break;
        };
        match read_piece(screen, board, piece, transcript) {
            Ok(count) => used = used.saturating_add(count),
            Err(found) => fault = Some(found),
        }
    }
    transcript.end(fault, used);
}

/// Writes down what a board shows.
fn write_board(board: &Board, transcript: &mut Transcript<'_>) {
    transcript.number(board.number());
    transcript.number(board.bells());
    for colour in board.colours() {
        transcript.bytes(&colour.to_be_bytes());
    }
}

/// A host's stream after its handshake, of a screen of `width` by `height`: its messages, its end, and what its
/// updates made of the screen. Nothing where there is no such screen or no memory.
#[unsafe(no_mangle)]
pub extern "C" fn fuzz_host(
    alloc: Global,
    width: u32,
    height: u32,
    bytes: &[u8],
    lengths: &[u8],
    out: &mut [u8],
) -> usize {
    if width == 0 || width > 4096 || height == 0 || height > 4096 {
        return 0;
    }
    let (w, h) = (u64::from(width), u64::from(height));
    let mut transcript = Transcript::new(out);
    let Ok(mut screen) = HostScreen::new(alloc, w, h) else {
        return 0;
    };
    let Ok(mut board) = Board::new(alloc, w, h) else {
        return 0;
    };
    read(&mut screen, &mut board, bytes, lengths, &mut transcript);
    write_board(&board, &mut transcript);
    transcript.len()
}
