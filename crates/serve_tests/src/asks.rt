//! What is asked of a run by HTTP and at its operator's socket, until the answer is the right one: what is counted of a
//! viewer may be told a little later than the viewer has its bytes.

use crate::actors::{Actor, filled};
use crate::loopback::{connect, sends};
use crate::operator::answer;
use crate::room::Ear;
use crate::scene::PORTS;
use std::io::Read;
use std::net::{Net, TcpListener, TcpStream};
use std::sync::Wait;
use std::thread;
use std::time::{Clock, Duration};

/// Something is asked this often at most.
const TRIES: u64 = 300;

/// A machine that is not answered asks again this often at most: on a busy machine its time may be over.
const MOST_MISSED: u64 = 2;

/// A head of an answer has at most this many bytes.
const MOST_HEAD: u64 = 4_096;

/// The answer of a machine's port to this request, up to its end.
fn read_answer(stream: &mut TcpStream, request: &str, out: &mut Vec<u8>) -> bool {
    sends(stream, request.as_bytes()) && stream.read_to_end(out).is_ok()
}

/// Whether the bytes are a text that has each of these parts.
fn has_all(bytes: &[u8], parts: &[&str]) -> bool {
    let text = std::str::from_utf8(bytes).unwrap_or("");
    let mut has_all = true;
    for part in parts {
        has_all = has_all && text.contains(*part);
    }
    has_all
}

/// Whether the answer to this request has each of these parts now, or `None` where it isn't answered.
fn told_now<R>(ear: &Ear<R>, port: u16, request: &str, parts: &[&str]) -> Option<bool>
where
    R: Net<Stream = TcpStream, Listener = TcpListener> + Clock + Drop,
{
    let mut bytes = Vec::new(ear.alloc);
    let mut stream = connect(ear, port)?;
    if read_answer(&mut stream, request, &mut bytes) {
        Some(has_all(bytes.as_slice(), parts))
    } else {
        None
    }
}

/// Whether a machine that asks so is told each of these parts in time.
pub(crate) fn is_told<R>(ear: &Ear<R>, port: u16, request: &str, parts: &[&str]) -> bool
where
    R: Net<Stream = TcpStream, Listener = TcpListener> + Wait + Clock + Drop,
{
    let mut missed: u64 = 0;
    for _ in 0..TRIES {
        match told_now(ear, port, request, parts) {
            Some(true) => return true,
            Some(false) => {}
            None => missed = missed.saturating_add(1),
        }
        if missed > MOST_MISSED {
            return false;
        }
        thread::sleep(&ear.rt, Duration::from_millis(10));
    }
    false
}

/// Whether one of the lines of a text begins so and has this part.
fn has_line(text: &str, begins: &str, part: &str) -> bool {
    for line in text.lines() {
        if line.starts_with(begins) && line.contains(part) {
            return true;
        }
    }
    false
}

/// Whether a line of the state begins so and has this part now.
fn stands_now<R>(ear: &Ear<R>, port: u16, begins: &str, part: &str) -> bool
where
    R: Net<Stream = TcpStream, Listener = TcpListener> + Drop,
{
    match answer(ear, port, "state\n") {
        Ok(text) => has_line(text.as_str(), begins, part),
        Err(_) => false,
    }
}

/// Whether a line of the state begins so and has this part in time.
fn stands<R>(ear: &Ear<R>, port: u16, begins: &str, part: &str) -> bool
where
    R: Net<Stream = TcpStream, Listener = TcpListener> + Wait + Clock + Drop,
{
    for _ in 0..TRIES {
        if stands_now(ear, port, begins, part) {
            return true;
        }
        thread::sleep(&ear.rt, Duration::from_millis(10));
    }
    false
}

/// Whether a line of the state begins so and has this part in time, where the actor names itself in its beginning.
pub(crate) fn is_standing<R>(
    ear: &Ear<R>,
    ports: &[u16; PORTS],
    actor: &Actor,
    port: u16,
    begins: &str,
    part: &str,
) -> bool
where
    R: Net<Stream = TcpStream, Listener = TcpListener> + Wait + Clock + Drop,
{
    match filled(ear.alloc, ports, actor, begins) {
        Some(begins) => stands(ear, port, begins.as_str(), part),
        None => false,
    }
}

/// Whether what comes next ends so at last, byte by byte.
pub(crate) fn reads_up_to<R: Drop>(ear: &Ear<R>, stream: &mut TcpStream, wanted: &[u8]) -> bool {
    let mut read = Vec::new(ear.alloc);
    for _ in 0..MOST_HEAD {
        let mut one = [0u8; 1];
        if stream.read_exact(&mut one).is_err() || read.push(one[0]).is_err() {
            return false;
        }
        if read.as_slice().ends_with(wanted) {
            return true;
        }
    }
    false
}
