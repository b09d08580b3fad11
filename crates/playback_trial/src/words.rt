//! The words of a line.

use std::alloc::Global;
use std::test::Fail;

/// Parts a text at the first of these characters. Where there is none, nothing is behind it.
pub(crate) fn parted(text: &str, at: char) -> (&str, &str) {
    text.split_once(at).unwrap_or((text, ""))
}

/// The bytes of a word in hex. A part `HEX*COUNT` has that many times the same, and parts are joined by `+`.
pub(crate) fn bytes_of(alloc: Global, word: &str) -> Result<Vec<u8>, Fail> {
    let mut bytes = Vec::new(alloc);
    for part in word.split('+') {
        let (text, count) = part.split_once('*').unwrap_or((part, "1"));
        let once = hex::decode(alloc, text)?;
        for _ in 0..count.parse::<u64>()? {
            bytes.extend_from_slice(once.as_slice())?;
        }
    }
    Ok(bytes)
}

/// Prints bytes in hex, and of more than 64 their count and the sum of their values.
pub(crate) fn print_bytes(rt: &HostRuntime, bytes: &[u8]) -> Result<(), Fail> {
    if bytes.len() > 64 {
        let mut sum: u64 = 0;
        for byte in bytes {
            sum = sum.saturating_add(u64::from(*byte));
        }
        print!(rt; "{}#{sum}", bytes.len())?;
        return Ok(());
    }
    let text = hex::encode(rt.alloc(), bytes)?;
    print!(rt; "{text}")?;
    Ok(())
}

/// The number of a word, and none where it is `-`.
pub(crate) fn number_of(word: &str) -> Result<Option<u64>, Fail> {
    if word == "-" {
        return Ok(None);
    }
    Ok(Some(word.parse::<u64>()?))
}
