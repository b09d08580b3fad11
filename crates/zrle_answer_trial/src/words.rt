//! Formats and numbers as a line spells them.

use pixel_format::Format;
use std::alloc::Global;
use std::test::Fail;

/// Parts a line at its first space.
pub(crate) fn parted(line: &str) -> (&str, &str) {
    line.split_once(' ').unwrap_or((line, ""))
}

/// The pixel format whose 16 bytes these are, in hex.
pub(crate) fn format_of(alloc: Global, word: &str) -> Result<Format, Fail> {
    let bytes = hex::decode(alloc, word)?;
    if bytes.len() != 16 {
        return Err(Fail::new("no format"));
    }
    let mut fields = [0; 16];
    fields.copy_from_slice(bytes.as_slice());
    Format::read(&fields).map_err(|_fault| Fail::new("a format that is not accepted"))
}

/// Adds the numbers of a part of a word: `HEX`, or `HEX*COUNT` for that many times the same. A number has eight digits.
fn add_part(alloc: Global, numbers: &mut Vec<u32>, part: &str) -> Result<(), Fail> {
    let (text, count) = part.split_once('*').unwrap_or((part, "1"));
    let count = count.parse::<u64>()?;
    let once = hex::decode(alloc, text)?;
    for _ in 0..count {
        for four in once.as_slice().chunks_exact(4) {
            numbers.push(u32::from_be_bytes([four[0], four[1], four[2], four[3]]))?;
        }
    }
    Ok(())
}

/// The numbers of a word, whose parts are parted by commas.
pub(crate) fn numbers_of(alloc: Global, word: &str) -> Result<Vec<u32>, Fail> {
    let mut numbers = Vec::new(alloc);
    for part in word.split(',') {
        add_part(alloc, &mut numbers, part)?;
    }
    Ok(numbers)
}
