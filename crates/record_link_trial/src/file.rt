//! A file in memory that plays the answers of a line.

ghost use Rattle.std.specs.Prelude.{◌≡◌, []};

use crate::words::parted;
use record_link::Storage;
use std::alloc::Global;
use std::io::{self, ErrorKind};

/// A file that plays these answers, one after another. A number takes at most so many bytes. `x` and a number takes so
/// many, too, and fails. Where no answer is left it takes all.
#[derive(Drop)]
pub(crate) struct PlayedFile<'a> {
    bytes: Vec<u8>,
    answers: &'a str,
}

impl<'a> PlayedFile<'a> {
    /// A file that has nothing.
    pub(crate) fn new(alloc: Global, answers: &'a str) -> PlayedFile<'a>
        ensures { result.bytes.items ≡ [] }
    {
        PlayedFile {
            bytes: Vec::new(alloc),
            answers,
        }
    }

    /// What the file has.
    pub(crate) fn bytes(&self) -> &[u8] {
        self.bytes.as_slice()
    }

    /// The next answer: how many bytes are taken at most, and whether the file fails.
    fn next(&mut self) -> (usize, bool)
        ensures { self.new.bytes ≡ self.old.bytes }
    {
        let (answer, later) = parted(self.answers, ',');
        self.answers = later;
        match answer.split_once('x') {
            Some((_, count)) => (count.parse::<usize>().unwrap_or(0), true),
            None => (answer.parse::<usize>().unwrap_or(usize::MAX), false),
        }
    }
}

impl Storage for PlayedFile<'_> {
    ghost stored = { λ file. file.bytes.items };

    fn append(&mut self, bytes: &[u8]) -> io::Result<usize> {
        let (most, fails) = self.next();
        let (some, _) = bytes.split_at(bytes.len().min(most));
        if self.bytes.extend_from_slice(some).is_err() {
            return Err(io::Error::from(ErrorKind::OutOfMemory));
        }
        if fails {
            return Err(io::Error::from(ErrorKind::StorageFull));
        }
        Ok(some.len())
    }
}
