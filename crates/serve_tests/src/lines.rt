//! Lines of words, and the exit status with which each ends.

use crate::room::{Ear, Room};
use crate::system::SocketFiles;
use command_line::run_words;
use std::alloc::{AllocError, Global};
use std::io;
use std::net::{Net, TcpListener, TcpStream};
use std::random::RandomSource;
use std::sync::Wait;
use std::test::*;
use std::thread::Threads;
use std::time::Clock;

/// The exit status of a line that is no command.
const BAD_COMMAND: u8 = 2;

/// The exit status where memory is refused.
pub(crate) const NO_MEMORY: u8 = 4;

/// No word, a word too many, a path without a request, a word that is no command, a host that isn't told, a port that is
/// no number, an option that there isn't.
const LINES: &str = "
replay again
control /run/reflectord
srve
serve
serve --host 127.0.0.1:5900 --full none
serve --host 127.0.0.1:5900 --quick";

/// What the word that is no command is told of.
const HINT: &str = "a similar subcommand exists: 'serve'";

/// The words of a line.
pub(crate) fn words_of(alloc: Global, line: &str) -> Result<Vec<String>, AllocError> {
    let mut words = Vec::new(alloc);
    for word in line.split_whitespace() {
        words.push(String::from_str(alloc, word)?)?;
    }
    Ok(words)
}

/// The exit status of this line. The bounds name the types of the sockets, which the proof of a test needs.
pub(crate) fn status_of<R>(rt: R, alloc: Global, room: &'static Room, line: &str) -> u8
where
    R: Net<Stream = TcpStream, Listener = TcpListener>
        + Threads
        + Wait
        + Clock
        + RandomSource
        + SocketFiles
        + Copy
        + Drop
        + Send
        + 'static,
{
    let ear = Ear::new(rt, alloc, room);
    match words_of(alloc, line) {
        Ok(words) => run_words(ear, alloc, words.as_slice(), io::empty(), io::sink()),
        Err(_) => NO_MEMORY,
    }
}

#[test]
fn lines_that_are_no_command(rt: HostRuntime) -> Result<(), Fail> {
    let room = Room::new(rt.alloc())?;
    for line in LINES.lines() {
        if status_of(rt, rt.alloc(), room, line) != BAD_COMMAND {
            return Err(Fail::new(line));
        }
    }
    if !Ear::new(rt, rt.alloc(), room).has(HINT) {
        return Err(Fail::new(HINT));
    }
    Ok(())
}
