//! Makes indexes of recordings anew, one per line, and prints them. `README.md` says what the lines are.
#![tactic(auto)]

mod file;

use file::MemoryFile;
use rebuilt_index::{BadRebuild, index_file, rebuild_index};
use recording_index::KeyMoment;
use std::test::Fail;

/// Prints the key moments and the bytes of an index, or why there is none.
fn print_index(rt: &HostRuntime, rebuilt: Result<Vec<KeyMoment>, BadRebuild>) -> Result<(), Fail> {
    let moments = match rebuilt {
        Ok(moments) => moments,
        Err(why) => {
            println!(rt; " {why}")?;
            return Ok(());
        }
    };
    for moment in moments.as_slice() {
        print!(rt; " {}@{}", moment.time, moment.place)?;
    }
    let file = index_file(rt.alloc(), moments.as_slice())?;
    let text = hex::encode(rt.alloc(), file.as_slice())?;
    println!(rt; " {text}")?;
    Ok(())
}

fn main(rt: HostRuntime) -> Result<(), Fail> {
    for line in rt.lines(rt.alloc()) {
        let line = line?;
        if line.is_empty() || line.starts_with('#') {
            continue;
        }
        let (name, rest) = line.split_once(' ').unwrap_or((line.as_str(), ""));
        let (most, bytes) = rest.split_once(' ').unwrap_or((rest, ""));
        let bytes = hex::decode(rt.alloc(), bytes)?;
        let mut file = MemoryFile::new(bytes, most.parse::<usize>()?);
        print!(rt; "{name}:")?;
        let rebuilt = rebuild_index(&rt, rt.alloc(), &mut file);
        print_index(&rt, rebuilt)?;
    }
    Ok(())
}
