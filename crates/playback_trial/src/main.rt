//! Plays recordings as links, one case per line, and prints what was taken by each act. `README.md` says what the lines
//! are.
#![tactic(auto)]

mod acts;
mod clock;
mod file;
mod words;

use acts::{Acts, play_acts};
use clock::{Clock, Hands};
use file::PlayedFile;
use playback::PlayedLink;
use recording_index::KeyMoment;
use std::test::Fail;
use words::{bytes_of, number_of, parted};

/// Plays a line with a name, the time up to which is played, the place of a key moment, the answers of the file, what it
/// has, and acts.
fn play(rt: &HostRuntime, line: &str) -> Result<(), Fail> {
    let (name, line) = parted(line, ' ');
    let (until, line) = parted(line, ' ');
    let (key, line) = parted(line, ' ');
    let (answers, line) = parted(line, ' ');
    let (content, acts) = parted(line, ' ');
    let bytes = bytes_of(rt.alloc(), content)?;
    let file = PlayedFile::new(bytes, answers);
    let hands = Hands::new();
    let clock = Clock { hands: &hands };
    let until = number_of(until)?;
    let link = match number_of(key)? {
        None => PlayedLink::new(rt.alloc(), file, clock, until)?,
        Some(place) => {
            PlayedLink::from_key(rt.alloc(), file, clock, until, KeyMoment { time: 0, place })?
        }
    };
    print!(rt; "{name}:")?;
    play_acts(
        rt,
        Acts {
            link,
            hands: &hands,
        },
        acts,
    )?;
    println!(rt)?;
    Ok(())
}

fn main(rt: HostRuntime) -> Result<(), Fail> {
    for line in rt.lines(rt.alloc()) {
        play(&rt, line?.as_str())?;
    }
    Ok(())
}
