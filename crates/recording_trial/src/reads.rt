//! Reading a file as a recording.

use crate::words::{bytes_of, parted, print_bytes};
use recording::{Block, RecordingReader};
use std::test::Fail;

/// Prints a block.
fn print_block(rt: &HostRuntime, block: &Block<'_>) -> Result<(), Fail> {
    print!(rt; " {}=", block.time)?;
    print_bytes(rt, block.said)
}

/// Prints a block that is whole, and goes on to the next. It answers whether there may be one.
fn take_block(rt: &HostRuntime, reader: &mut RecordingReader) -> Result<bool, Fail> {
    match reader.found() {
        None => return Ok(true),
        Some(Ok(block)) => print_block(rt, &block)?,
        Some(Err(bad)) => {
            println!(rt; " {}: {bad}", bad.number())?;
            return Ok(false);
        }
    }
    reader.go_on();
    Ok(true)
}

/// Feeds the bytes of a file in pieces of this length. It answers whether they could be read to their end.
fn feed_all(
    rt: &HostRuntime,
    reader: &mut RecordingReader,
    bytes: &[u8],
    cut: usize,
) -> Result<bool, Fail> {
    let mut left = bytes;
    for _ in 0..bytes.len() {
        let (piece, _) = left.split_at(left.len().min(cut));
        let used = reader.feed(piece)?;
        left = left.get(used..).unwrap_or(&[]);
        if !take_block(rt, reader)? {
            return Ok(false);
        }
    }
    Ok(true)
}

/// Plays a line with a name, the length of the pieces in which a file comes, and the file's bytes.
pub(crate) fn read_file(rt: &HostRuntime, line: &str) -> Result<(), Fail> {
    let (name, line) = parted(line);
    let (cut, word) = parted(line);
    let cut = cut.parse::<usize>()?;
    let bytes = bytes_of(rt.alloc(), word)?;
    print!(rt; "{name}:")?;
    let mut reader = RecordingReader::new(rt.alloc());
    if feed_all(rt, &mut reader, bytes.as_slice(), cut)? {
        let end = if reader.is_between() {
            "whole"
        } else {
            "cut off"
        };
        println!(rt; " {end}")?;
    }
    Ok(())
}
