//! Shows recordings at times, one per line, and prints the files of PNG that come of it. `README.md` says what the lines
//! are.
#![tactic(auto)]

use show::{ShowError, show, show_each};
use std::alloc::Global;
use std::fs;
use std::test::Fail;

/// Where the picture is written.
const PICTURE: &str = "picture.png";

/// The folder where pictures of several times are written: the one that the program runs in.
const FOLDER: &str = ".";

/// The time that a word tells, in milliseconds; `end` is none.
fn time_of(word: &str) -> Result<Option<u64>, Fail> {
    match word {
        "end" => Ok(None),
        _ => Ok(Some(word.parse::<u64>()?)),
    }
}

/// Prints the file at a path, in hex.
fn print_file(rt: &HostRuntime, path: &str) -> Result<(), Fail> {
    let bytes = fs::read(rt, path)?;
    let text = hex::encode(rt.alloc(), bytes.as_slice())?;
    println!(rt; "{text}")?;
    Ok(())
}

/// Prints the picture that was written, in hex, or why there is none.
fn print_picture(rt: &HostRuntime, shown: Result<(), ShowError>) -> Result<(), Fail> {
    match shown {
        Ok(()) => print_file(rt, PICTURE),
        Err(error) => {
            println!(rt; "{error}")?;
            Ok(())
        }
    }
}

/// Prints how many pictures were written, or why it was given up.
fn print_count(rt: &HostRuntime, shown: Result<u64, ShowError>) -> Result<(), Fail> {
    match shown {
        Ok(count) => println!(rt; "{count} pictures")?,
        Err(error) => println!(rt; "{error}")?,
    }
    Ok(())
}

fn main(rt: HostRuntime) -> Result<(), Fail> {
    let alloc: Global = rt.alloc();
    for line in rt.lines(alloc) {
        let line = line?;
        if line.is_empty() || line.starts_with('#') {
            continue;
        }
        let (recording, word) = line.split_once(' ').unwrap_or((line.as_str(), "end"));
        if recording == "print" {
            print_file(&rt, word)?;
        } else if let Some(step) = word.strip_prefix("each ") {
            let seconds = step.parse::<u32>()?.max(1);
            let shown = show_each(&rt, alloc, recording, seconds, FOLDER);
            print_count(&rt, shown)?;
        } else {
            let at = time_of(word)?;
            let shown = show(&rt, alloc, recording, at, PICTURE);
            print_picture(&rt, shown)?;
        }
    }
    Ok(())
}
