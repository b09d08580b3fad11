//! Sessions as a line spells them, and colours as they are printed.

use link::Took;
use std::alloc::Global;
use std::test::Fail;

/// What a host says, in how many bytes it comes at a time, and what the link says in the end.
#[derive(Drop)]
pub(crate) struct Session {
    pub(crate) last: Took,
    pub(crate) cut: usize,
    pub(crate) bytes: Vec<u8>,
}

/// The session of a line.
pub(crate) fn session_of(alloc: Global, line: &str) -> Result<Session, Fail> {
    let (word, rest) = line.split_once(' ').unwrap_or((line, ""));
    let (cut, text) = rest.split_once(' ').unwrap_or((rest, "-"));
    let last = match word {
        "end" => Took::End,
        "fail" => Took::Failed,
        _ => return Err(Fail::new("no such end")),
    };
    let bytes = match text {
        "-" => Vec::new(alloc),
        _ => hex::decode(alloc, text)?,
    };
    let cut = cut.parse::<usize>()?;
    Ok(Session { last, cut, bytes })
}

/// Adds so many of the same colour, behind a comma where something stands before.
fn add_run(alloc: Global, text: &mut String, colour: u32, count: usize) -> Result<(), Fail> {
    if !text.is_empty() {
        text.push(',')?;
    }
    let run = if count > 1 {
        format!(in alloc; "{colour:06X}*{count}")?
    } else {
        format!(in alloc; "{colour:06X}")?
    };
    text.push_str(run.as_str())?;
    Ok(())
}

/// Colours row after row, as `RRGGBB`, or `RRGGBB*COUNT` for so many of the same.
pub(crate) fn runs_of(alloc: Global, colours: &[u32]) -> Result<String, Fail> {
    let mut text = String::new(alloc);
    let mut begun = 0;
    for at in 0..colours.len() {
        let next = at + 1;
        if next == colours.len() || colours[next] != colours[begun] {
            add_run(alloc, &mut text, colours[begun], next - begun)?;
            begun = next;
        }
    }
    Ok(text)
}
