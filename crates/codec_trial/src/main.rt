//! Runs the codecs over rectangles that other programs spelled.
//!
//! Without words it prints, for the files `rectangles`, `libvncserver` and `joined`, how many rectangles there are, how
//! many are read as the other program told, and for how many the writer answers what that program told. With the words
//! `FILE ROUNDS` it prints how long each rectangle of a file takes, and with `kept` after these, how long joined runs
//! take with kept forms.
#![tactic(auto)]

mod codec;
mod kept;
mod record;
mod timing;

use codec::{HEXTILE, is_read, is_written, values_of};
use fault::Fault;
use joined_runs::RectForm;
use kept::kept_micros;
use pixel_format::Format;
use record::{Answer, Record, read_record};
use std::alloc::Global;
use std::test::Fail;
use std::{env, fs};
use timing::{reading_micros, writing_micros};

/// How many rectangles there are, how many are read as told, for how many the writer is asked, and how often it answers
/// as told.
#[derive(Clone, Copy)]
struct Tally {
    rectangles: u64,
    read: u64,
    asked: u64,
    written: u64,
}

/// Runs the codecs over one rectangle, which is written in a form. There is no data to read where the writer has to answer nothing.
fn count(
    alloc: Global,
    form: RectForm,
    record: &Record<'_>,
    tally: &mut Tally,
) -> Result<(), Fault> {
    let values = values_of(alloc, &record.format, record.pixels)?;
    tally.rectangles = tally.rectangles.saturating_add(1);
    if record.answer == Answer::Nothing || is_read(alloc, record, values.as_slice())? {
        tally.read = tally.read.saturating_add(1);
    }
    if record.answer != Answer::Unasked {
        tally.asked = tally.asked.saturating_add(1);
        if is_written(alloc, form, record, values.as_slice())? {
            tally.written = tally.written.saturating_add(1);
        }
    }
    Ok(())
}

/// Runs the codecs over all rectangles of a file.
fn count_all(alloc: Global, form: RectForm, bytes: &[u8]) -> Result<Tally, Fail> {
    let mut tally = Tally {
        rectangles: 0,
        read: 0,
        asked: 0,
        written: 0,
    };
    let mut rest = bytes;
    for _ in 0..bytes.len() {
        if rest.is_empty() {
            return Ok(tally);
        }
        let Some((record, behind)) = read_record(rest) else {
            return Err(Fail::new("no whole record"));
        };
        count(alloc, form, &record, &mut tally)?;
        rest = behind;
    }
    Ok(tally)
}

/// Runs the codecs over all rectangles of the file of this name.
fn count_file(rt: &HostRuntime, form: RectForm, name: &str) -> Result<Tally, Fail> {
    let bytes = fs::read(rt, name)?;
    count_all(rt.alloc(), form, bytes.as_slice())
}

/// Prints how many rectangles of the three files are read and written as told.
fn check(rt: &HostRuntime) -> Result<(), Fail> {
    for (name, form) in [
        ("rectangles", RectForm::OfRows),
        ("libvncserver", RectForm::OfRows),
        ("joined", RectForm::Joined),
    ] {
        let tally = count_file(rt, form, name)?;
        println!(rt;
            "{name}: {} rectangles, {} read as told; {} to write, {} written as told",
            tally.rectangles, tally.read, tally.asked, tally.written
        )?;
    }
    Ok(())
}

/// Prints for each rectangle of a file the microseconds in which it is read and written, and the bytes that were
/// written.
fn time(rt: &HostRuntime, name: &str, rounds: u64) -> Result<(), Fail> {
    let bytes = fs::read(rt, name)?;
    let mut rest = bytes.as_slice();
    for _ in 0..bytes.len() {
        let Some((record, behind)) = read_record(rest) else {
            return Ok(());
        };
        let reading = reading_micros(rt, &record, rounds)?;
        let (writing, written) = writing_micros(rt, &record, rounds)?;
        println!(rt; "{reading} {writing} {written}")?;
        rest = behind;
    }
    Ok(())
}

/// Prints for each rectangle in Hextile and the host's format of a file the microseconds in which it is written as joined
/// runs, without forms and with those of its tiles, and the bytes that were written.
fn time_kept(rt: &HostRuntime, name: &str, rounds: u64) -> Result<(), Fail> {
    let bytes = fs::read(rt, name)?;
    let mut rest = bytes.as_slice();
    for _ in 0..bytes.len() {
        let Some((record, behind)) = read_record(rest) else {
            return Ok(());
        };
        if record.encoding == HEXTILE && record.format == Format::HOST {
            let times = kept_micros(rt, &record, rounds)?;
            println!(rt; "{} {} {}", times.without, times.with, times.bytes)?;
        }
        rest = behind;
    }
    Ok(())
}

fn main(rt: HostRuntime) -> Result<(), Fail> {
    let mut words = env::args(&rt)?;
    words.next();
    let (Some(name), Some(rounds)) = (words.next(), words.next()) else {
        return check(&rt);
    };
    let rounds = rounds.parse::<u64>()?;
    match words.next() {
        Some(_kept) => time_kept(&rt, name.as_str(), rounds),
        None => time(&rt, name.as_str(), rounds),
    }
}
