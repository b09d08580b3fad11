//! Requests before a site.

use crate::words::{length_at, parted, print_bytes};
use std::alloc::Global;
use std::hash::RandomState;
use std::sync::Arc;
use std::test::Fail;
use std::{io, str};
use web_site::{Guest, Site};

/// A connection is advanced at most this many times.
const MOST_TURNS: usize = 100_000;

fn write(guest: &mut Guest, answers: &mut Vec<u8>) -> io::Result<()> {
    let _ = guest.write_to(answers)?;
    Ok(())
}

fn read(guest: &mut Guest, mut piece: &[u8]) -> io::Result<()> {
    let _ = guest.read_from(&mut piece)?;
    Ok(())
}

/// Has a connection say this stream, in pieces of these lengths, and puts what it is answered to the end.
fn hear(guest: &mut Guest, lengths: &[u8], stream: &[u8], answers: &mut Vec<u8>) -> io::Result<()> {
    let mut rest = stream;
    let mut turn: usize = 0;
    for _ in 0..MOST_TURNS {
        if guest.is_done() {
            break;
        }
        if guest.wants_write() {
            write(guest, answers)?;
        } else if guest.wants_read() {
            let length = length_at(lengths, turn).max(1);
            let (piece, behind) = rest.split_at(length.min(rest.len()));
            read(guest, piece)?;
            rest = behind;
            turn = turn.saturating_add(1);
        } else {
            break;
        }
        guest.advance();
    }
    Ok(())
}

/// The bytes of a request whose lines are told with bars between them.
fn request_of(alloc: Global, lines: &str) -> Result<Vec<u8>, Fail> {
    let mut bytes = Vec::new(alloc);
    for line in lines.split('|') {
        bytes.extend_from_slice(line.as_bytes())?;
        bytes.extend_from_slice(b"\r\n")?;
    }
    bytes.extend_from_slice(b"\r\n")?;
    Ok(bytes)
}

/// The line of a head that has a field, or `none`.
fn field_in<'a>(head: &'a str, field: &str) -> &'a str {
    for line in head.split("\r\n") {
        let (name, _) = line.split_once(':').unwrap_or(("", ""));
        if name == field {
            return line;
        }
    }
    "none"
}

/// Prints the first line of an answer, those of some fields, and the body where that is told.
fn print_answer(rt: &HostRuntime, fields: &str, answer: &[u8]) -> Result<(), Fail> {
    let answer = str::from_utf8(answer)?;
    let (head, body) = answer.split_once("\r\n\r\n").unwrap_or((answer, ""));
    let (first, _) = head.split_once("\r\n").unwrap_or((head, ""));
    print!(rt; "{first}")?;
    for field in fields.split(',') {
        match field {
            "-" => {}
            "body" => print!(rt; " | {body}")?,
            _ => print!(rt; " | {}", field_in(head, field))?,
        }
    }
    Ok(())
}

/// Asks a site.
#[derive(Drop)]
pub(crate) struct Asker {
    site: Arc<Site, Global>,
    keys: RandomState,
}

impl Asker {
    pub(crate) fn new(site: Arc<Site, Global>, keys: RandomState) -> Asker {
        Asker { site, keys }
    }

    /// Asks another site from now on.
    pub(crate) fn move_to(&mut self, site: Arc<Site, Global>) {
        self.site = site;
    }

    /// Asks the site with this stream, in pieces of these lengths. It answers whether the connection is let in as a
    /// link.
    fn end(
        &self,
        alloc: Global,
        lengths: &[u8],
        stream: &[u8],
        answers: &mut Vec<u8>,
    ) -> Result<&'static str, Fail> {
        let mut guest = Guest::new(alloc, self.keys, Arc::try_clone(&self.site)?);
        hear(&mut guest, lengths, stream, answers)?;
        Ok(if guest.is_done() && guest.is_let_in() {
            "in"
        } else {
            "out"
        })
    }

    /// Plays a line with the lengths of pieces and a stream. It prints the answers, and whether the connection is let
    /// in.
    pub(crate) fn play(&self, rt: &HostRuntime, line: &str) -> Result<(), Fail> {
        let alloc = rt.alloc();
        let (lengths, stream) = parted(line);
        let lengths = hex::decode(alloc, lengths)?;
        let stream = hex::decode(alloc, stream)?;
        let mut answers = Vec::new(alloc);
        let end = self.end(alloc, lengths.as_slice(), stream.as_slice(), &mut answers)?;
        print_bytes(rt, answers.as_slice())?;
        println!(rt; " {end}")?;
        Ok(())
    }

    /// Plays a line with a name, the fields of the answer that are printed, and a request.
    pub(crate) fn ask(&self, rt: &HostRuntime, line: &str) -> Result<(), Fail> {
        let alloc = rt.alloc();
        let (name, line) = parted(line);
        let (fields, request) = parted(line);
        print!(rt; "{name}: ")?;
        let request = request_of(alloc, request)?;
        let mut answer = Vec::new(alloc);
        let end = self.end(alloc, &[255], request.as_slice(), &mut answer)?;
        print_answer(rt, fields, answer.as_slice())?;
        println!(rt; " | {end}")?;
        Ok(())
    }
}
