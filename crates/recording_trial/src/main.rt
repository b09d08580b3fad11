//! Reads files as recordings, and writes recordings of what a server says, one case per line, and prints what is made
//! of each. `README.md` says what the lines are.
#![tactic(auto)]

mod reads;
mod sums;
mod words;
mod writes;

use reads::read_file;
use std::test::Fail;
use words::parted;
use writes::write_file;

/// Plays one line.
fn play(rt: &HostRuntime, line: &str) -> Result<(), Fail> {
    let (kind, rest) = parted(line);
    match kind {
        "read" => read_file(rt, rest),
        "write" => write_file(rt, rest),
        "" | "#" => Ok(()),
        _ => Err(Fail::new("no such line")),
    }
}

fn main(rt: HostRuntime) -> Result<(), Fail> {
    for line in rt.lines(rt.alloc()) {
        play(&rt, line?.as_str())?;
    }
    Ok(())
}
