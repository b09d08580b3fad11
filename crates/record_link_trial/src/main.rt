//! Plays links to recorders, one case per line, and prints what came of each act, and what the files have in the end.
//! `README.md` says what the lines are.
#![tactic(auto)]

mod acts;
mod clock;
mod file;
mod files;
mod words;

use acts::{Acts, play_acts};
use clock::Clock;
use file::PlayedFile;
use files::{print_index, print_recording};
use record_link::RecordLink;
use std::test::Fail;
use words::parted;

/// Plays a line with a name, the time between two key moments, the times, the answers of the two files, and acts.
fn play(rt: &HostRuntime, line: &str) -> Result<(), Fail> {
    let (name, line) = parted(line, ' ');
    let (every, line) = parted(line, ' ');
    let (times, line) = parted(line, ' ');
    let (answers, line) = parted(line, ' ');
    let (index_answers, acts) = parted(line, ' ');
    let file = PlayedFile::new(rt.alloc(), answers);
    let index = PlayedFile::new(rt.alloc(), index_answers);
    let clock = Clock { times };
    let link = RecordLink::new(rt.alloc(), file, index, clock, every.parse::<u32>()?)?;
    print!(rt; "{name}:")?;
    let link = play_acts(rt, Acts { link, acts })?;
    print_recording(rt, link.recording().file().bytes())?;
    print_index(rt, link.recording().index_file().bytes())?;
    println!(rt)?;
    Ok(())
}

fn main(rt: HostRuntime) -> Result<(), Fail> {
    for line in rt.lines(rt.alloc()) {
        play(&rt, line?.as_str())?;
    }
    Ok(())
}
