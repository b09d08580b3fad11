//! Bytes as a line spells them.

use std::alloc::Global;
use std::test::Fail;

/// Adds the bytes of a part of a line: `HEX`, or `HEX*COUNT` for that many times the same.
fn add_part(alloc: Global, bytes: &mut Vec<u8>, part: &str) -> Result<(), Fail> {
    let (text, count) = part.split_once('*').unwrap_or((part, "1"));
    let count = count.parse::<u64>()?;
    let once = hex::decode(alloc, text)?;
    for _ in 0..count {
        bytes.extend_from_slice(once.as_slice())?;
    }
    Ok(())
}

/// The bytes of a line. Its parts are parted by commas, and a part `-` has none.
pub(crate) fn bytes_of(alloc: Global, line: &str) -> Result<Vec<u8>, Fail> {
    let mut bytes = Vec::new(alloc);
    for part in line.split(',') {
        if part != "-" {
            add_part(alloc, &mut bytes, part)?;
        }
    }
    Ok(bytes)
}
