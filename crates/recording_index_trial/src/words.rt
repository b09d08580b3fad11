//! The words of a line, and key moments as they are printed.

use recording_index::KeyMoment;
use std::alloc::Global;
use std::test::Fail;

/// Parts a line at its first space.
pub(crate) fn parted(line: &str) -> (&str, &str) {
    line.split_once(' ').unwrap_or((line, ""))
}

/// The bytes of a word in hex. A word `-` has none.
pub(crate) fn bytes_of(alloc: Global, word: &str) -> Result<Vec<u8>, Fail> {
    if word == "-" {
        return Ok(Vec::new(alloc));
    }
    Ok(hex::decode(alloc, word)?)
}

/// Prints a key moment.
pub(crate) fn print_moment(rt: &HostRuntime, moment: KeyMoment) -> Result<(), Fail> {
    print!(rt; " {}@{}", moment.time, moment.place)?;
    Ok(())
}
