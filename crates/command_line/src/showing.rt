//! Shows what a recording has.

ghost use Rattle.command_line.specs.Tasks.{MayEndAShowing};

use show::{ShowError, show, show_each};
use std::alloc::Global;
use std::rt::Files;
use std::sync::Wait;
use written_index::{IndexError, write_index};

/// The exit statuses: of what was done, of a line that can't be read, where there is nothing to show, and where memory
/// is refused.
const DONE: u8 = 0;

const BAD_LINE: u8 = 2;

const NOTHING_SHOWN: u8 = 3;

const NO_MEMORY: u8 = 4;

/// What is told of a line that can't be read.
const USAGE: &str =
    "reflectord: show PATH [--at HH:MM:SS] OUT.png, or show PATH --each SECONDS DIR, with one second or more, or show PATH --index";

/// The option that asks for the index of a recording in the place of pictures.
const INDEX: &str = "--index";

/// Which pictures of a recording are to be made.
#[derive(Clone, Copy)]
enum Times {
    /// The one at its end.
    End,
    /// The one at this time, in milliseconds.
    At(u64),
    /// One each so many seconds.
    Each(u32),
}

/// What a line asks for.
#[derive(Clone, Copy)]
enum Wanted<'a> {
    /// These pictures of the recording at the first path, into the second one.
    Pictures(Times, &'a str, &'a str),
    /// The index of the recording at this path, beside it.
    Index(&'a str),
}

/// The milliseconds of a time that is written as HH:MM:SS.
fn time_of(text: &str) -> Option<u64> {
    let (hours, rest) = text.split_once(':')?;
    let (minutes, seconds) = rest.split_once(':')?;
    let hours = u64::from(hours.parse::<u16>().ok()?);
    let minutes = u64::from(minutes.parse::<u8>().ok()?);
    let seconds = u64::from(seconds.parse::<u8>().ok()?);
    if minutes > 59 || seconds > 59 {
        return None;
    }
    Some((hours * 3_600 + minutes * 60 + seconds) * 1_000)
}

/// The times that an option says.
fn times_of(option: &str, value: &str) -> Option<Times> {
    match option {
        "--at" => Some(Times::At(time_of(value)?)),
        "--each" => Some(Times::Each(value.parse::<u32>().ok()?)),
        _ => None,
    }
}

/// The path that this word is, unless it is an option.
fn path(word: &str) -> Option<&str> {
    if word.starts_with("--") {
        return None;
    }
    Some(word)
}

/// The only path that stands in these words, before and behind an option.
fn one_path<'a>(before: &'a [String], after: &'a [String]) -> Option<&'a str> {
    let mut words = before.iter().chain(after);
    let only = words.next()?;
    match words.next() {
        Some(_) => None,
        None => path(only.as_str()),
    }
}

/// The two paths that stand in these words, before and behind an option.
fn two_paths<'a>(before: &'a [String], after: &'a [String]) -> Option<(&'a str, &'a str)> {
    let mut words = before.iter().chain(after);
    let from = words.next()?;
    let to = words.next()?;
    match words.next() {
        Some(_) => None,
        None => Some((path(from.as_str())?, path(to.as_str())?)),
    }
}

/// What a line asks for, whose words are these. Its option stands before, between or behind its paths.
fn asked<'a>(words: &'a [String]) -> Option<Wanted<'a>> {
    let place = words
        .iter()
        .position(|word| word.as_str().starts_with("--"));
    let Some(place) = place else {
        let (from, to) = two_paths(words, &[])?;
        return Some(Wanted::Pictures(Times::End, from, to));
    };
    let (before, rest) = words.split_at(place);
    let (option, rest) = rest.split_first()?;
    if option.as_str() == INDEX {
        return Some(Wanted::Index(one_path(before, rest)?));
    }
    let (value, after) = rest.split_first()?;
    let (from, to) = two_paths(before, after)?;
    let times = times_of(option.as_str(), value.as_str())?;
    Some(Wanted::Pictures(times, from, to))
}

/// Makes the pictures.
fn make<R: Files + Wait>(
    rt: &R,
    alloc: Global,
    times: Times,
    from: &str,
    to: &str,
) -> Result<(), ShowError> {
    match times {
        Times::End | Times::Each(0) => show(rt, alloc, from, None, to),
        Times::At(time) => show(rt, alloc, from, Some(time), to),
        Times::Each(seconds) => show_each(rt, alloc, from, seconds, to).map(|_| ()),
    }
}

/// The exit status where pictures were made, or weren't. Standard error has the reason.
fn status_of_pictures<R: Eprint>(rt: &R, from: &str, made: Result<(), ShowError>) -> u8
    ensures { MayEndAShowing result }
{
    let Err(error) = made else {
        return DONE;
    };
    let _ = rt.eprintln(format_args!("reflectord: {from}: {error}"));
    match error {
        ShowError::Memory => NO_MEMORY,
        _ => NOTHING_SHOWN,
    }
}

/// The exit status where an index was written, or wasn't. Standard error has the reason.
fn status_of_index<R: Eprint>(rt: &R, from: &str, written: Result<(), IndexError>) -> u8
    ensures { MayEndAShowing result }
{
    let Err(error) = written else {
        return DONE;
    };
    let _ = rt.eprintln(format_args!("reflectord: {from}: {error}"));
    match error {
        IndexError::Memory => NO_MEMORY,
        _ => NOTHING_SHOWN,
    }
}

/// Does what a line of `show` asks for, whose words are these, and answers the exit status: 0; 2 where it can't be
/// read; 3 where there is nothing to show, or it can't be written; or 4 where memory is refused. Standard error has the
/// reason.
pub fn show_words<R: Files + Wait + Eprint>(rt: &R, alloc: Global, words: &[String]) -> u8
    ensures { MayEndAShowing result }
{
    match asked(words.get(1..).unwrap_or(&[])) {
        None | Some(Wanted::Pictures(Times::Each(0), _, _)) => {
            let _ = rt.eprintln(USAGE);
            BAD_LINE
        }
        Some(Wanted::Pictures(times, from, to)) => {
            status_of_pictures(rt, from, make(rt, alloc, times, from, to))
        }
        Some(Wanted::Index(from)) => status_of_index(rt, from, write_index(rt, alloc, from)),
    }
}
