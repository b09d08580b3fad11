//! Compresses sources, one per line, and prints the part that is made of each. `README.md` says what the lines are.
#![tactic(auto)]

mod words;

use deflate::Deflater;
use std::alloc::Global;
use std::test::Fail;
use words::bytes_of;

/// The most bytes of a source.
const MOST_BYTES: usize = 1 << 31;

/// Prints the part of one line's source, in hex.
fn print_part(rt: &HostRuntime, deflater: &mut Deflater, line: &str) -> Result<(), Fail> {
    let alloc: Global = rt.alloc();
    let source = bytes_of(alloc, line)?;
    if source.len() > MOST_BYTES {
        return Err(Fail::new("too long"));
    }
    let mut part = Vec::new(alloc);
    deflater.compress(source.as_slice(), &mut part)?;
    let text = hex::encode(alloc, part.as_slice())?;
    println!(rt; "{text}")?;
    Ok(())
}

fn main(rt: HostRuntime) -> Result<(), Fail> {
    let alloc = rt.alloc();
    let mut deflater = Deflater::new(alloc)?;
    for line in rt.lines(alloc) {
        let line = line?;
        if line.is_empty() || line.starts_with('#') {
            continue;
        }
        print_part(&rt, &mut deflater, line.as_str())?;
    }
    Ok(())
}
