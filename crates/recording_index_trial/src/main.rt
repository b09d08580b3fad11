//! Reads and writes indexes of recordings, and reads recordings from their key moments on, one case per line, and
//! prints what is made of each. `README.md` says what the lines are.
#![tactic(auto)]

mod leads;
mod looks;
mod words;
mod writes;

use leads::lead;
use looks::{find, read};
use std::test::Fail;
use words::parted;
use writes::write;

/// Plays one line.
fn play(rt: &HostRuntime, line: &str) -> Result<(), Fail> {
    let (kind, rest) = parted(line);
    match kind {
        "read" => read(rt, rest),
        "at" => find(rt, rest),
        "write" => write(rt, rest),
        "lead" => lead(rt, rest),
        "" | "#" => Ok(()),
        _ => Err(Fail::new("no such line")),
    }
}

fn main(rt: HostRuntime) -> Result<(), Fail> {
    for line in rt.lines(rt.alloc()) {
        play(&rt, line?.as_str())?;
    }
    Ok(())
}
