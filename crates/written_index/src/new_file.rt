//! The file of an index, which is made once.

ghost use Rattle.std.specs.Prelude.{ℕ, List};
ghost use Rattle.written_index.specs.Failing.{MakesAs};

use crate::error::IndexError;
use std::fs::OpenOptions;
use std::io::{ErrorKind, Write};
use std::rt::Files;

/// A file that isn't made yet.
pub trait NewFile {
    /// The fact that the file was made, and has these bytes. Only `make` tells it.
    ghost has: { List ℕ → Type 0 };

    /// The fact that there is a file already, which stays as it is. Only `make` tells it.
    ghost is_there: { Type 0 };

    /// The fact that no file can be made, or that it takes no more. Only `make` tells it.
    ghost has_failed: { Type 0 };

    /// Makes the file, with these bytes. It fails with `HasIndex` where there is one, and with `Output` where none can
    /// be made, or it takes no more.
    fn make(&mut self, bytes: &[u8]) -> Result<(), IndexError>
        ensures { MakesAs result has is_there has_failed bytes.now };
}

/// A file of the system that isn't made yet, at a path. Clauses know nothing of what it has.
#[derive(Drop)]
pub(crate) struct FileAt<'a, R: Files> {
    rt: &'a R,
    path: &'a str,
}

impl<'a, R: Files> FileAt<'a, R> {
    pub(crate) fn new(rt: &'a R, path: &'a str) -> FileAt<'a, R> {
        FileAt { rt, path }
    }
}

impl<R: Files> NewFile for FileAt<'_, R> {
    ghost has = { λ _. Unit {0} };

    ghost is_there = { Unit {0} };

    ghost has_failed = { Unit {0} };

    /// Where the file takes no more, it is taken away again, if the system lets it.
    fn make(&mut self, bytes: &[u8]) -> Result<(), IndexError> {
        let opened = OpenOptions::new()
            .write(true)
            .create_new(true)
            .open(self.rt, self.path);
        let mut file = match opened {
            Ok(file) => file,
            Err(error) if error.kind() == ErrorKind::AlreadyExists => {
                return Err(IndexError::HasIndex);
            }
            Err(error) => return Err(IndexError::Output(error)),
        };
        match file.write_all(bytes) {
            Ok(()) => Ok(()),
            Err(error) => {
                // A part of an index would lead a player to fewer moments. Where it can't be taken away, it stays.
                let _ = self.rt.remove_file(self.path);
                Err(IndexError::Output(error))
            }
        }
    }
}
