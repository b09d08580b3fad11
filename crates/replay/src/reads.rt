//! A reader with a limit on the number of its reads.

use std::io;
use std::io::{ErrorKind, Read};

/// Reads from another reader, and fails once that reader was asked as often as it may be.
#[derive(Drop)]
pub(crate) struct FewReads<R> {
    reader: R,
    /// How many more times the inner reader may be asked.
    left: u64,
}

impl<R> FewReads<R> {
    /// A reader that is asked at most `count` times.
    pub(crate) fn new(reader: R, count: u64) -> Self {
        FewReads {
            reader,
            left: count,
        }
    }
}

impl<R: Read> Read for FewReads<R> {
    fn read(&mut self, buf: &mut [u8]) -> io::Result<usize> {
        if self.left == 0 {
            return Err(io::Error::from(ErrorKind::Other));
        }
        self.left -= 1;
        self.reader.read(buf)
    }
}
