//! A file in memory.

ghost use Rattle.std.specs.Prelude.{◌≡◌, []};

use link::Record;
use playback::Recorded;
use std::io;

/// A file of these bytes, of which it gives at most so many at once.
#[derive(Drop)]
pub(crate) struct MemoryFile {
    bytes: Vec<u8>,
    most: usize,
    /// Where it stands, and from where on it was read.
    place: usize,
    start: u64,
    so_far: Record,
}

impl MemoryFile {
    /// A file at its beginning.
    pub(crate) fn new(bytes: Vec<u8>, most: usize) -> MemoryFile
        ensures start { result.start ≡ 0 }
        ensures none { result.so_far.bytes ≡ [] }
    {
        MemoryFile {
            bytes,
            most,
            place: 0,
            start: 0,
            so_far: Record::new(),
        }
    }
}

impl Recorded for MemoryFile {
    ghost start = { λ file. file.start };

    ghost so_far = { λ file. file.so_far.bytes };

    ghost is_all = { λ start bytes. Unit {0} };

    ghost has_failed = { Unit {0} };

    fn read(&mut self, into: &mut [u8]) -> io::Result<usize> {
        let left = self.bytes.as_slice().get(self.place..).unwrap_or(&[]);
        let count = left.len().min(into.len()).min(self.most);
        let (some, _) = left.split_at(count);
        let (front, _) = into.split_at_mut(count);
        front.copy_from_slice(some);
        self.so_far.note(some);
        self.place = self.place.saturating_add(count);
        Ok(count)
    }

    fn go_to(&mut self, place: u64) -> io::Result<()> {
        self.place = usize::try_from(place).unwrap_or(usize::MAX);
        self.start = place;
        self.so_far = Record::new();
        Ok(())
    }
}
