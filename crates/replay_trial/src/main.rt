//! Plays scripts, and counts those that do as they are told.
//!
//! `scripts` has whole scripts, and `real_hosts` has scripts with what real hosts sent. `bad_lines` has lines that no
//! script may have, and `first_lines` has lines that no script may begin with. `examples` has the scripts that
//! `examples/README.md` tells of, and `growths` has those that are played while memory is refused, which a word in the
//! program's arguments leaves out. `steps` has worlds and sessions, step by step.
#![tactic(auto)]

mod act;
mod case;
mod examples;
mod hoard;
mod lines;
mod links;
mod memory;
mod refused;
mod sessions;
mod steps;
mod updates;
mod worlds;

use case::{Case, FIRST, LATER, Place};
use examples::play_examples;
use links::play_links;
use memory::refuse_growths;
use std::test::Fail;
use std::{env, fs};
use steps::play_steps;

/// The word that leaves out what takes all memory of the process.
const WITHOUT_MEMORY: &str = "--without-memory";

fn main(rt: HostRuntime) -> Result<(), Fail> {
    if !has_word(&rt, WITHOUT_MEMORY)? {
        // This comes first, while nothing else has used the heap.
        refuse_growths(&rt, "growths")?;
    }
    play_examples(&rt)?;
    play_scripts(&rt, "scripts")?;
    play_scripts(&rt, "real_hosts")?;
    refuse_lines(&rt, "bad_lines", &LATER)?;
    refuse_lines(&rt, "first_lines", &FIRST)?;
    play_links(&rt)?;
    play_steps(&rt, "steps")
}

/// Whether this is one of the words after the program's name.
fn has_word(rt: &HostRuntime, wanted: &str) -> Result<bool, Fail> {
    Ok(env::args(rt)?.skip(1).any(|word| word.as_str() == wanted))
}

/// Plays the scripts of a file, names those that do something else than they are told, and says how many scripts there
/// are.
fn play_scripts(rt: &HostRuntime, file: &str) -> Result<(), Fail> {
    let text = fs::read_to_string(rt, file)?;
    let mut count: u64 = 0;
    for case in text.as_str().split("= ").skip(1) {
        let Some(case) = Case::read(case) else {
            return Err(Fail::new("no case"));
        };
        count = count.saturating_add(1);
        if !case.holds(rt.alloc()) {
            println!(rt; "otherwise: {}", case.name)?;
        }
    }
    println!(rt; "{file}: {count} played")?;
    Ok(())
}

/// Plays a script for each line of a file, names those lines that aren't refused, and says how many there are.
fn refuse_lines(rt: &HostRuntime, file: &str, place: &Place) -> Result<(), Fail> {
    let text = fs::read_to_string(rt, file)?;
    let mut count: u64 = 0;
    for row in text.lines() {
        count = count.saturating_add(1);
        if !place.refuses(rt.alloc(), row)? {
            println!(rt; "not refused: {row}")?;
        }
    }
    println!(rt; "{file}: {count} refused")?;
    Ok(())
}
