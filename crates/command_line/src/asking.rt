//! Asks something of a run that goes on.

ghost use Rattle.command_line.specs.Tasks.{MayEndAnAsking};

use std::alloc::{AllocError, Global};
use std::io::{Read, Write};
use std::net::Net;
use std::os::unix::net::UnixStream;
use std::time::Duration;
use std::{io, str};

/// For how long an answer may take, in seconds.
const PATIENCE_SECONDS: u64 = 30;

/// The exit status where what was asked for isn't done.
const REFUSED: u8 = 1;

/// How an answer begins where what was asked for isn't done.
const ERROR: &str = "error: ";

/// The line of the request that these words say.
fn line_of(alloc: Global, words: &[String]) -> Result<String, AllocError> {
    let mut line = String::new(alloc);
    for word in words {
        if !line.is_empty() {
            line.push_str(" ")?;
        }
        line.push_str(word.as_str())?;
    }
    line.push_str("\n")?;
    Ok(line)
}

/// The whole answer to this line at the socket of this path.
fn answer_to<R: Net>(rt: &R, alloc: Global, path: &str, line: &str) -> io::Result<Vec<u8>> {
    let stream = UnixStream::connect(rt, path)?;
    stream.set_read_timeout(Some(Duration::from_secs(PATIENCE_SECONDS)))?;
    let mut both = &stream;
    both.write_all(line.as_bytes())?;
    let mut answer = Vec::new(alloc);
    both.read_to_end(&mut answer)?;
    Ok(answer)
}

/// Prints an answer, or why nothing was done, and answers the exit status.
fn print<R: Print + Eprint>(rt: &R, answer: &[u8]) -> u8
    ensures { MayEndAnAsking result }
{
    let text = str::from_utf8(answer).unwrap_or("error: the answer is no text\n");
    match text.strip_prefix(ERROR) {
        Some(reason) => {
            let _ = rt.eprint(format_args!("reflectord: {reason}"));
            REFUSED
        }
        None => match rt.print(text) {
            Ok(()) => 0,
            Err(_) => REFUSED,
        },
    }
}

/// Asks what these words say, `control`, a path and a request, and prints the answer. The status is 0, or 1 where
/// nothing was done, with the reason on standard error.
pub fn ask<R: Net + Print + Eprint>(rt: &R, alloc: Global, words: &[String]) -> u8
    ensures { MayEndAnAsking result }
{
    let Some((path, request)) = words.get(1..).unwrap_or(&[]).split_first() else {
        return REFUSED;
    };
    let answer = match line_of(alloc, request) {
        Ok(line) => answer_to(rt, alloc, path.as_str(), line.as_str()),
        Err(_) => Err(io::Error::from(io::ErrorKind::OutOfMemory)),
    };
    match answer {
        Ok(answer) => print(rt, answer.as_slice()),
        Err(error) => {
            let path = path.as_str();
            let _ = rt.eprintln(format_args!("reflectord: {path}: {error}"));
            REFUSED
        }
    }
}
