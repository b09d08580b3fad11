//! Reading a recording from its key moments on.

use crate::words::{bytes_of, parted};
use recording::{FIRST_LINE, RecordingReader};
use recording_index::Index;
use std::test::Fail;

/// Feeds a reader these bytes, and prints each block.
fn feed(rt: &HostRuntime, reader: &mut RecordingReader, bytes: &[u8]) -> Result<(), Fail> {
    let mut left = bytes;
    for _ in 0..bytes.len() {
        let used = reader.feed(left)?;
        left = left.get(used..).unwrap_or(&[]);
        if let Some(found) = reader.found() {
            let block = found?;
            let text = hex::encode(rt.alloc(), block.said)?;
            print!(rt; " {}={text}", block.time)?;
        }
        reader.go_on();
    }
    Ok(())
}

/// Plays a line with a name, the bytes of a recording and those of its index: from each key moment on.
pub(crate) fn lead(rt: &HostRuntime, line: &str) -> Result<(), Fail> {
    let (name, line) = parted(line);
    let (recording, index) = parted(line);
    let recording = bytes_of(rt.alloc(), recording)?;
    let index = bytes_of(rt.alloc(), index)?;
    let index = Index::read(rt.alloc(), index.as_slice())?;
    print!(rt; "{name}:")?;
    for moment in index.moments() {
        let place = usize::try_from(moment.place)?;
        let mut reader = RecordingReader::new(rt.alloc());
        print!(rt; " at {}:", moment.time)?;
        feed(rt, &mut reader, &FIRST_LINE)?;
        feed(rt, &mut reader, recording.get(place..).unwrap_or(&[]))?;
    }
    println!(rt)?;
    Ok(())
}
