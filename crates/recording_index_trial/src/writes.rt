//! Writing an index.

use crate::words::parted;
use recording_index::{ENTRY_LEN, INDEX_LINE, KeyMoment, write_moment};
use std::test::Fail;

/// Adds the entry of a key moment to the bytes of an index.
fn add(bytes: &mut Vec<u8>, moment: KeyMoment) -> Result<(), Fail> {
    let mut entry = [0; ENTRY_LEN];
    write_moment(moment, &mut entry);
    bytes.extend_from_slice(&entry)?;
    Ok(())
}

/// Plays a line with a name, and then the time and the place of each key moment.
pub(crate) fn write(rt: &HostRuntime, line: &str) -> Result<(), Fail> {
    let (name, line) = parted(line);
    let mut bytes = Vec::new(rt.alloc());
    bytes.extend_from_slice(&INDEX_LINE)?;
    for word in line.split(' ') {
        if let Some((time, place)) = word.split_once('@') {
            let time = time.parse::<u32>()?;
            let place = place.parse::<u64>()?;
            add(&mut bytes, KeyMoment { time, place })?;
        }
    }
    let text = hex::encode(rt.alloc(), bytes.as_slice())?;
    println!(rt; "{name}: {text}")?;
    Ok(())
}
