//! A file that is recorded into.

ghost use Rattle.std.specs.Prelude.{◌≡◌, ◌≤◌, ◌++◌, [], length, take};

use crate::standing::Recording;
use link::Record;
use record_link::Storage;
use std::alloc::Global;
use std::io;
use std::io::{ErrorKind, Write};
use std::sync::Arc;

/// A file to which bytes are appended, and a record of those that it took, which only clauses read: contracts know
/// nothing of what a file of the system has.
#[derive(Drop)]
pub struct RecordedFile<F: Write + Drop> {
    file: F,
    taken: Record,
    // Where the bytes are counted, if they are.
    recording: Option<Arc<Recording, Global>>,
    // What the system said when it refused bytes.
    failure: Option<ErrorKind>,
}

impl<F: Write + Drop> RecordedFile<F> {
    /// A file that has nothing yet. Where there is a recording, it counts the bytes that the file takes.
    pub fn new(file: F, recording: Option<Arc<Recording, Global>>) -> RecordedFile<F>
        ensures { result.taken.bytes ≡ [] }
    {
        RecordedFile {
            file,
            taken: Record::new(),
            recording,
            failure: None,
        }
    }

    /// What the system said when it refused bytes, if it has. No clause says so.
    pub fn failure(&self) -> Option<ErrorKind> {
        self.failure
    }

    /// Notes that the file took the first of these bytes, as many as this.
    fn note(&mut self, bytes: &[u8], count: usize)
        requires { count ≤ length bytes.now }
        ensures { self.new.taken.bytes ≡ self.old.taken.bytes ++ take count bytes.now }
    {
        let (first, _) = bytes.split_at(count);
        self.taken.note(first);
        if let Some(recording) = &self.recording {
            recording.count(count as u64);
        }
    }
}

impl<F: Write + Drop> Storage for RecordedFile<F> {
    ghost stored = { λ f. f.taken.bytes };

    /// A write that a signal interrupts has written nothing, and can be made again.
    fn append(&mut self, bytes: &[u8]) -> io::Result<usize> {
        match self.file.write(bytes) {
            Ok(count) => {
                self.note(bytes, count);
                Ok(count)
            }
            Err(error) if error.kind() == ErrorKind::Interrupted => Ok(0),
            Err(error) => {
                self.failure = Some(error.kind());
                Err(error)
            }
        }
    }
}
