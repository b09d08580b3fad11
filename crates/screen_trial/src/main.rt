//! Plays cases of formats, rasters, hosts, boards and answers, which are data, and names the lines that come out
//! otherwise than they tell. `README.md` says what a line is.
#![tactic(auto)]

mod bench;
mod boards;
mod case;
mod copies;
mod cuts;
mod formats;
mod hosts;
mod lines;
mod paints;
mod rasters;
mod rects;
mod values;
mod viewers;

use case::Case;
use std::fs;
use std::test::Fail;

fn main(rt: HostRuntime) -> Result<(), Fail> {
    for file in ["formats", "rects", "rasters", "hosts", "boards", "answers"] {
        play_file(&rt, file)?;
    }
    Ok(())
}

/// Plays the cases of a file, names each line that comes out otherwise, and says how many cases there are.
fn play_file(rt: &HostRuntime, file: &str) -> Result<(), Fail> {
    let text = fs::read_to_string(rt, file)?;
    let mut count: u64 = 0;
    for case in text.as_str().split("= ").skip(1) {
        let Some(case) = Case::read(case) else {
            return Err(Fail::new("no case"));
        };
        count = count.saturating_add(1);
        if let Some(line) = case.otherwise(rt.alloc()) {
            println!(rt; "otherwise: {}, at {line}", case.name)?;
        }
    }
    println!(rt; "{file}: {count} played")?;
    Ok(())
}
