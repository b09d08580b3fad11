//! Prints what the files of a recording have.

use crate::words::print_bytes;
use recording::RecordingReader;
use recording_index::Index;
use std::test::Fail;

/// Prints the whole blocks of a recording, each with its time, and how the file ends.
pub(crate) fn print_recording(rt: &HostRuntime, bytes: &[u8]) -> Result<(), Fail> {
    let mut reader = RecordingReader::new(rt.alloc());
    let mut left = bytes;
    print!(rt; " |")?;
    for _ in 0..bytes.len() {
        let used = reader.feed(left)?;
        left = left.get(used..).unwrap_or(&[]);
        if let Some(found) = reader.found() {
            let block = found?;
            print!(rt; " {}=", block.time)?;
            print_bytes(rt, block.said)?;
        }
        reader.go_on();
    }
    let end = if reader.is_between() {
        "whole"
    } else {
        "cut off"
    };
    print!(rt; " {end}")?;
    Ok(())
}

/// Prints the key moments of an index.
pub(crate) fn print_index(rt: &HostRuntime, bytes: &[u8]) -> Result<(), Fail> {
    let index = Index::read(rt.alloc(), bytes)?;
    print!(rt; " |")?;
    for moment in index.moments() {
        print!(rt; " {}@{}", moment.time, moment.place)?;
    }
    Ok(())
}
