//! Reads what browsers may send, and what else a web port is asked, one case per line, and prints what is made of each.
//! `README.md` says what the lines are.
#![tactic(auto)]

mod browsers;
mod disks;
mod frames;
mod links;
mod requests;
mod sites;
mod tables;
mod things;
mod words;

use disks::{lay, read_disk, read_system};
use frames::{read_frames, refuse, talk};
use links::play_link;
use requests::Asker;
use sites::{FIRST, site_of};
use std::hash::RandomState;
use std::test::Fail;
use tables::play_table;
use words::parted;

/// Plays one line.
fn play(rt: &HostRuntime, asker: &mut Asker, line: &str) -> Result<(), Fail> {
    let (kind, rest) = parted(line);
    match kind {
        "frames" => talk(rt, rest),
        "requests" => asker.play(rt, rest),
        "reader" => read_frames(rt, rest),
        "link" => play_link(rt, rest),
        "refusal" => refuse(rt, rest),
        "site" => {
            asker.move_to(site_of(rt.alloc(), rest)?);
            Ok(())
        }
        "ask" => asker.ask(rt, rest),
        "table" => play_table(rt, rest),
        "disk" => read_disk(rt, rest),
        "lay" => lay(rt, rest),
        "system" => read_system(rt, rest),
        "" | "#" => Ok(()),
        _ => Err(Fail::new("no such line")),
    }
}

fn main(rt: HostRuntime) -> Result<(), Fail> {
    let alloc = rt.alloc();
    let mut asker = Asker::new(site_of(alloc, FIRST)?, RandomState::new(&rt)?);
    for line in rt.lines(alloc) {
        play(&rt, &mut asker, line?.as_str())?;
    }
    Ok(())
}
