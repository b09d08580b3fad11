//! Writes tiles and areas in ZRLE, one per line, and prints what is made of each. `README.md` says what the lines are.
#![tactic(auto)]

mod cases;
mod words;

use cases::{print_area, print_tile};
use std::test::Fail;
use words::parted;
use zrle_codec::Encoder;

/// Plays one line.
fn play(rt: &HostRuntime, encoder: &mut Encoder, line: &str) -> Result<(), Fail> {
    let (kind, rest) = parted(line);
    match kind {
        "tile" => print_tile(rt, rest),
        "area" => print_area(rt, encoder, rest),
        "" | "#" => Ok(()),
        _ => Err(Fail::new("no such line")),
    }
}

fn main(rt: HostRuntime) -> Result<(), Fail> {
    let alloc = rt.alloc();
    let mut encoder = Encoder::new(alloc)?;
    for line in rt.lines(alloc) {
        play(&rt, &mut encoder, line?.as_str())?;
    }
    Ok(())
}
