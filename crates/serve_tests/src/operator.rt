//! An operator, who asks something of a run at its socket, or by the program's own command.

use crate::lines::words_of;
use crate::loopback::address_of;
use crate::room::Ear;
use crate::system::SocketFiles;
use command_line::ask;
use std::alloc::AllocError;
use std::io::{Read, Write};
use std::net::{Net, TcpListener, TcpStream};
use std::os::unix::net::UnixStream;
use std::sync::Wait;
use std::time::{Clock, Duration};
use std::{io, str};

/// An answer that takes this many seconds has failed.
const LONG: u64 = 20;

/// A connection to the run that has this port, where an operator is heard: at a file of the folder that the test runs
/// in.
pub(crate) fn connect<R>(ear: &Ear<R>, port: u16) -> io::Result<UnixStream>
where
    R: Net<Stream = TcpStream, Listener = TcpListener> + Drop,
{
    let path = format!(in ear.alloc; "control-{port}")?;
    UnixStream::connect(ear, path.as_str())
}

/// Whether this text is answered, up to the answer's end.
fn is_read(mut stream: &UnixStream, text: &str, answer: &mut Vec<u8>) -> bool {
    stream
        .set_read_timeout(Some(Duration::from_secs(LONG)))
        .is_ok()
        && stream.write_all(text.as_bytes()).is_ok()
        && stream.read_to_end(answer).is_ok()
}

/// The answer to this text between bars.
pub(crate) fn answer<R>(ear: &Ear<R>, port: u16, text: &str) -> Result<String, AllocError>
where
    R: Net<Stream = TcpStream, Listener = TcpListener> + Drop,
{
    let mut bytes = Vec::new(ear.alloc);
    let is_read = match connect(ear, port) {
        Ok(stream) => is_read(&stream, text, &mut bytes),
        Err(_) => false,
    };
    let answer = if is_read { bytes.as_slice() } else { b"" };
    let answer = str::from_utf8(answer).unwrap_or("");
    format!(in ear.alloc; "|{answer}|")
}

/// Whether a text has each of these parts.
fn has_all(text: &str, parts: &[&str]) -> bool {
    let mut has_all = true;
    for part in parts {
        has_all = has_all && text.contains(*part);
    }
    has_all
}

/// Whether the answer to this text has each of these parts, where bars stand round the answer.
pub(crate) fn is_answered<R>(ear: &Ear<R>, port: u16, text: &str, parts: &[&str]) -> bool
where
    R: Net<Stream = TcpStream, Listener = TcpListener> + Drop,
{
    match answer(ear, port, text) {
        Ok(answer) => has_all(answer.as_str(), parts),
        Err(_) => false,
    }
}

/// Whether the answer to this text has the address of this viewer between these two.
pub(crate) fn is_answered_of<R>(
    ear: &Ear<R>,
    port: u16,
    stream: &TcpStream,
    text: &str,
    before: &str,
    after: &str,
) -> bool
where
    R: Net<Stream = TcpStream, Listener = TcpListener> + Drop,
{
    let address = address_of(stream);
    match format!(in ear.alloc; "{before}{address}{after}") {
        Ok(part) => is_answered(ear, port, text, &[part.as_str()]),
        Err(_) => false,
    }
}

/// Whether the program's own command ends with this status where it asks so.
pub(crate) fn is_done<R>(ear: &Ear<R>, port: u16, request: &str, status: u8) -> bool
where
    R: Net<Stream = TcpStream, Listener = TcpListener> + Wait + Clock + Drop,
{
    match format!(in ear.alloc; "control control-{port} {request}") {
        Ok(line) => match words_of(ear.alloc, line.as_str()) {
            Ok(words) => ask(ear, ear.alloc, words.as_slice()) == status,
            Err(_) => false,
        },
        Err(_) => false,
    }
}

/// Whether what stands where an operator is heard is removed.
pub(crate) fn is_removed<R: SocketFiles + Drop>(ear: &Ear<R>, port: u16) -> bool {
    match format!(in ear.alloc; "control-{port}") {
        Ok(path) => ear.rt.remove(path.as_str()).is_ok(),
        Err(_) => false,
    }
}
