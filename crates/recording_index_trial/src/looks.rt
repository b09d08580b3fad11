//! Reading an index, and looking a time up in it.

use crate::words::{bytes_of, parted, print_moment};
use recording_index::{BadIndex, Index};
use std::test::Fail;

/// Prints the key moments of an index, or why it is none.
fn print_index(rt: &HostRuntime, index: Result<Index, BadIndex>) -> Result<(), Fail> {
    match index {
        Ok(index) => {
            for moment in index.moments() {
                print_moment(rt, *moment)?;
            }
            println!(rt)?;
        }
        Err(bad) => println!(rt; " {}: {bad}", bad.number())?,
    }
    Ok(())
}

/// Plays a line with a name, and the bytes of an index.
pub(crate) fn read(rt: &HostRuntime, line: &str) -> Result<(), Fail> {
    let (name, word) = parted(line);
    let bytes = bytes_of(rt.alloc(), word)?;
    print!(rt; "{name}:")?;
    print_index(rt, Index::read(rt.alloc(), bytes.as_slice()))
}

/// Plays a line with a name, a time, and the bytes of an index that has no fault.
pub(crate) fn find(rt: &HostRuntime, line: &str) -> Result<(), Fail> {
    let (name, line) = parted(line);
    let (time, word) = parted(line);
    let time = time.parse::<u32>()?;
    let bytes = bytes_of(rt.alloc(), word)?;
    let index = Index::read(rt.alloc(), bytes.as_slice())?;
    print!(rt; "{name}:")?;
    match index.last_at(time) {
        Some(moment) => print_moment(rt, moment)?,
        None => print!(rt; " none")?,
    }
    println!(rt)?;
    Ok(())
}
