//! Bytes as a word of a line spells them, and as they are printed.

use crate::sums::adler;
use std::alloc::Global;
use std::test::Fail;

/// Up to so many bytes are printed in hex, and of more their count and their sum.
const MOST_SHOWN: usize = 80;

/// Adds the bytes of a part of a word: `HEX`, or `HEX*COUNT` for that many times the same.
fn add_part(alloc: Global, bytes: &mut Vec<u8>, part: &str) -> Result<(), Fail> {
    let (text, count) = part.split_once('*').unwrap_or((part, "1"));
    let count = count.parse::<u64>()?;
    let once = hex::decode(alloc, text)?;
    for _ in 0..count {
        bytes.extend_from_slice(once.as_slice())?;
    }
    Ok(())
}

/// The bytes of a word. Its parts are parted by commas, and a word `-` has none.
pub(crate) fn bytes_of(alloc: Global, word: &str) -> Result<Vec<u8>, Fail> {
    let mut bytes = Vec::new(alloc);
    for part in word.split(',') {
        if part != "-" {
            add_part(alloc, &mut bytes, part)?;
        }
    }
    Ok(bytes)
}

/// Parts a line at its first space.
pub(crate) fn parted(line: &str) -> (&str, &str) {
    line.split_once(' ').unwrap_or((line, ""))
}

/// Prints bytes: in hex, or where there are many, `COUNT/ADLER`.
pub(crate) fn print_bytes(rt: &HostRuntime, bytes: &[u8]) -> Result<(), Fail> {
    if bytes.len() > MOST_SHOWN {
        print!(rt; "{}/{}", bytes.len(), adler(bytes))?;
    } else {
        let text = hex::encode(rt.alloc(), bytes)?;
        print!(rt; "{text}")?;
    }
    Ok(())
}
