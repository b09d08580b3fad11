//! Makes files of PNG, one picture per line, and prints each of them. `README.md` says what the lines are.
#![tactic(auto)]

mod words;

use png::png_of;
use std::test::Fail;
use words::picture_of;

/// Prints the file of one line's picture, in hex.
fn print_file(rt: &HostRuntime, line: &str) -> Result<(), Fail> {
    let alloc = rt.alloc();
    let (w, h, colours) = picture_of(alloc, line)?;
    let in_bounds = 1 <= w && w <= 4096 && 1 <= h && h <= 4096;
    if !in_bounds || colours.len() as u64 != w * h {
        return Err(Fail::new("no such size"));
    }
    let file = png_of(alloc, w, h, colours.as_slice())?;
    let text = hex::encode(alloc, file.as_slice())?;
    println!(rt; "{text}")?;
    Ok(())
}

fn main(rt: HostRuntime) -> Result<(), Fail> {
    for line in rt.lines(rt.alloc()) {
        let line = line?;
        if line.is_empty() || line.starts_with('#') {
            continue;
        }
        print_file(&rt, line.as_str())?;
    }
    Ok(())
}
