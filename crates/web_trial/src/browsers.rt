//! The link of a browser in memory.

use crate::words::length_at;
use link::{Gave, Link, MemoryLink, Took};
use std::alloc::{AllocError, Global};
use std::test::Fail;
use web_link::{GatheringLink, WebLink};

/// The link of a browser.
pub(crate) type Browser = GatheringLink<WebLink<MemoryLink>>;

/// A link is taken from at most this many times.
const MOST_TURNS: usize = 100_000;

/// So many pieces, of these lengths, over and over.
#[derive(Clone, Copy)]
pub(crate) struct Pieces<'a> {
    pub(crate) lengths: &'a [u8],
    pub(crate) count: usize,
}

/// The answers of a peer that sends these pieces. Nothing comes where a length is 0.
fn takes_of(alloc: Global, pieces: Pieces<'_>) -> Result<Vec<Took>, AllocError> {
    let mut takes = Vec::new(alloc);
    for turn in 0..pieces.count {
        takes.push(match length_at(pieces.lengths, turn) {
            0 => Took::Nothing,
            length => Took::Bytes(length),
        })?;
    }
    Ok(takes)
}

/// The answers of a peer that takes these pieces. It has no room where a length is 0.
fn gives_of(alloc: Global, pieces: Pieces<'_>) -> Result<Vec<Gave>, AllocError> {
    let mut gives = Vec::new(alloc);
    for turn in 0..pieces.count {
        gives.push(match length_at(pieces.lengths, turn) {
            0 => Gave::Nothing,
            length => Gave::Bytes(length),
        })?;
    }
    Ok(gives)
}

/// The link of a browser that sends this stream in pieces, and takes pieces.
pub(crate) fn browser_of(
    alloc: Global,
    stream: Vec<u8>,
    sent: Pieces<'_>,
    taken: Pieces<'_>,
) -> Result<Browser, Fail> {
    let takes = takes_of(alloc, sent)?;
    let gives = gives_of(alloc, taken)?;
    let below = MemoryLink::new(alloc, stream, takes, gives)?;
    Ok(GatheringLink::new(alloc, WebLink::new(below))?)
}

/// Takes all that comes, and gives back each byte where that is wanted. It answers how the link ended.
pub(crate) fn take_all(
    link: &mut Browser,
    taken: &mut Vec<u8>,
    gives_back: bool,
) -> Result<&'static str, AllocError> {
    let mut into = [0u8; 64];
    for _ in 0..MOST_TURNS {
        match link.take(&mut into) {
            Took::Bytes(count) => {
                let (bytes, _) = into.split_at(count);
                taken.extend_from_slice(bytes)?;
                if gives_back {
                    let _ = link.give(bytes);
                }
            }
            Took::Nothing => {}
            Took::End => return Ok("ended"),
            Took::Failed => return Ok("failed"),
        }
    }
    Ok("open")
}
