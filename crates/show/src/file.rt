//! The file of a recording.

ghost use Rattle.std.specs.Prelude.{◌≡◌, []};

use link::Record;
use playback::Recorded;
use std::io::{self, Read, Seek, SeekFrom};

/// A file that is read as a recording. It notes what the system gives, for clauses alone: no clause can say which bytes
/// a file has.
#[derive(Drop)]
pub struct RecordingFile<F: Read + Seek + Drop> {
    file: F,
    start: u64,
    so_far: Record,
}

impl<F: Read + Seek + Drop> RecordingFile<F> {
    /// A file that was just opened, and stands at its beginning.
    pub fn new(file: F) -> RecordingFile<F>
        ensures start { result.start ≡ 0 }
        ensures none { result.so_far.bytes ≡ [] }
    {
        RecordingFile {
            file,
            start: 0,
            so_far: Record::new(),
        }
    }
}

impl<F: Read + Seek + Drop> Recorded for RecordingFile<F> {
    ghost start = { λ f. f.start };

    ghost so_far = { λ f. f.so_far.bytes };

    ghost is_all = { λ start bytes. Unit {0} };

    ghost has_failed = { Unit {0} };

    fn read(&mut self, into: &mut [u8]) -> io::Result<usize> {
        let count = self.file.read(into)?;
        self.so_far.note(&into[..count]);
        Ok(count)
    }

    fn go_to(&mut self, place: u64) -> io::Result<()> {
        self.file.seek(SeekFrom::Start(place))?;
        self.start = place;
        self.so_far = Record::new();
        Ok(())
    }
}
