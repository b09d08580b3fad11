//! A file in memory that plays the answers of a line.

ghost use Rattle.std.specs.Prelude.{◌≡◌, [], take, drop};

use crate::words::parted;
use link::Record;
use playback::Recorded;
use std::io::{self, ErrorKind};

/// A file of these bytes that plays these answers, one after another. A number gives at most so many bytes; `i` is an
/// interrupted call, and `x` a failure. Where no answer is left it gives all that there is room for.
#[derive(Drop)]
pub(crate) struct PlayedFile<'a> {
    bytes: Vec<u8>,
    /// Where it stands, and from where on it was read.
    place: usize,
    start: u64,
    so_far: Record,
    answers: &'a str,
}

impl<'a> PlayedFile<'a> {
    /// A file at its beginning.
    pub(crate) fn new(bytes: Vec<u8>, answers: &'a str) -> PlayedFile<'a>
        ensures start { result.start ≡ 0 }
        ensures none { result.so_far.bytes ≡ [] }
    {
        PlayedFile {
            bytes,
            place: 0,
            start: 0,
            so_far: Record::new(),
            answers,
        }
    }

    /// The next answer: how many bytes are given at most, or the error.
    fn next(&mut self) -> Result<usize, ErrorKind>
        ensures start { self.new.start ≡ self.old.start }
        ensures so_far { self.new.so_far.bytes ≡ self.old.so_far.bytes }
    {
        let (answer, later) = parted(self.answers, ',');
        self.answers = later;
        match answer {
            "i" => Err(ErrorKind::Interrupted),
            "x" => Err(ErrorKind::Other),
            _ => Ok(answer.parse::<usize>().unwrap_or(usize::MAX)),
        }
    }
}

impl Recorded for PlayedFile<'_> {
    ghost start = { λ file. file.start };

    ghost so_far = { λ file. file.so_far.bytes };

    ghost is_all = { λ start bytes. Unit {0} };

    ghost has_failed = { Unit {0} };

    fn read(&mut self, into: &mut [u8]) -> io::Result<usize> {
        let most = match self.next() {
            Ok(most) => most,
            Err(kind) => return Err(io::Error::from(kind)),
        };
        let left = self.bytes.as_slice().get(self.place..).unwrap_or(&[]);
        let count = left.len().min(into.len()).min(most);
        let (some, _) = left.split_at(count);
        let (front, _) = into.split_at_mut(count);
        front.copy_from_slice(some);
        self.so_far.note(some);
        self.place = self.place.saturating_add(count);
        Ok(count)
    }

    fn go_to(&mut self, place: u64) -> io::Result<()> {
        if let Err(kind) = self.next() {
            return Err(io::Error::from(kind));
        }
        self.place = usize::try_from(place).unwrap_or(usize::MAX);
        self.start = place;
        self.so_far = Record::new();
        Ok(())
    }
}
