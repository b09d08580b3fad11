//! Plays recorded sessions from links in memory, one per line, and prints the picture that each of them shows.
//! `README.md` says what the lines are.
#![tactic(auto)]

mod words;

use fault::Fault;
use link::{Gave, MemoryLink, Took};
use recorded_picture::{Picture, picture_of};
use std::alloc::Global;
use std::sync::Wait;
use std::test::Fail;
use words::{Session, runs_of, session_of};

/// How many pieces of what a client says the link takes at most, and how many bytes of each.
const PIECES: usize = 40;

const ROOM: usize = 100;

/// The picture that a session shows.
fn show<R: Wait>(rt: &R, alloc: Global, session: Session) -> Result<Picture, Fault> {
    let Session { last, cut, bytes } = session;
    let count = bytes.len().div_ceil(cut.max(1));
    let mut takes = Vec::from_elem(alloc, Took::Bytes(cut), count)?;
    takes.push(last)?;
    let gives = Vec::from_elem(alloc, Gave::Bytes(ROOM), PIECES)?;
    let mut link = MemoryLink::new(alloc, bytes, takes, gives)?;
    picture_of(rt, alloc, &mut link)
}

/// Prints a picture, or the number of the fault in place of it.
fn print_picture(rt: &HostRuntime, shown: Result<Picture, Fault>) -> Result<(), Fail> {
    match shown {
        Ok(picture) => {
            let (width, height) = picture.size();
            let runs = runs_of(rt.alloc(), picture.colours())?;
            println!(rt; "{width} {height} {runs}")?;
        }
        Err(fault) => println!(rt; "fault {}", fault.number())?,
    }
    Ok(())
}

fn main(rt: HostRuntime) -> Result<(), Fail> {
    let alloc: Global = rt.alloc();
    for line in rt.lines(alloc) {
        let line = line?;
        if line.is_empty() || line.starts_with('#') {
            continue;
        }
        let session = session_of(alloc, line.as_str())?;
        let shown = show(&rt, alloc, session);
        print_picture(&rt, shown)?;
    }
    Ok(())
}
