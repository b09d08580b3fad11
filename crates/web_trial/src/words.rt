//! Bytes as a word of a line spells them, and as they are printed.

use std::alloc::Global;
use std::test::Fail;

/// Adds the bytes of a part of a word: `HEX`, or `HEX*COUNT` for that many times the same.
fn add_part(alloc: Global, bytes: &mut Vec<u8>, part: &str) -> Result<(), Fail> {
    let (text, count) = part.split_once('*').unwrap_or((part, "1"));
    let count = count.parse::<u64>()?;
    let once = hex::decode(alloc, text)?;
    for _ in 0..count {
        bytes.extend_from_slice(once.as_slice())?;
    }
    Ok(())
}

/// The bytes of a word. Its parts are parted by commas, and a word `-` has none.
pub(crate) fn bytes_of(alloc: Global, word: &str) -> Result<Vec<u8>, Fail> {
    let mut bytes = Vec::new(alloc);
    for part in word.split(',') {
        if part != "-" {
            add_part(alloc, &mut bytes, part)?;
        }
    }
    Ok(bytes)
}

/// Parts a line at its first space.
pub(crate) fn parted(line: &str) -> (&str, &str) {
    line.split_once(' ').unwrap_or((line, ""))
}

/// The length of a piece, where these are the lengths, over and over. It is 1 where there are none.
pub(crate) fn length_at(lengths: &[u8], turn: usize) -> usize {
    match lengths.len() {
        0 => 1,
        count => usize::from(lengths[turn % count]),
    }
}

/// Prints bytes in hex.
pub(crate) fn print_bytes(rt: &HostRuntime, bytes: &[u8]) -> Result<(), Fail> {
    let text = hex::encode(rt.alloc(), bytes)?;
    print!(rt; "{text}")?;
    Ok(())
}

/// Prints how many bytes these are, and the first of them, up to so many.
pub(crate) fn print_first(rt: &HostRuntime, bytes: &[u8], most: usize) -> Result<(), Fail> {
    let (front, _) = bytes.split_at(bytes.len().min(most));
    print!(rt; " {}:", bytes.len())?;
    print_bytes(rt, front)
}
