//! A stream with little time.

use std::io;
use std::io::{ErrorKind, Read, Write};
use std::time::{Clock, Instant};

/// A stream whose reads and writes fail once its time is over. Where the clock can't be read, the time counts as over.
#[derive(Drop)]
pub struct Hasty<'a, R: Clock, S> {
    rt: &'a R,
    stream: S,
    until: Instant,
}

impl<'a, R: Clock, S> Hasty<'a, R, S> {
    /// The stream, with time until this moment.
    pub fn new(rt: &'a R, stream: S, until: Instant) -> Hasty<'a, R, S>
    where
        S: Drop,
    {
        Hasty { rt, stream, until }
    }

    /// Fails where the time is over.
    fn check(&self) -> io::Result<()> {
        let now = Instant::now(self.rt)?;
        if now >= self.until {
            return Err(io::Error::from(ErrorKind::TimedOut));
        }
        Ok(())
    }
}

impl<R: Clock, S: Read> Read for Hasty<'_, R, S> {
    fn read(&mut self, buf: &mut [u8]) -> io::Result<usize> {
        self.check()?;
        self.stream.read(buf)
    }
}

impl<R: Clock, S: Write> Write for Hasty<'_, R, S> {
    fn write(&mut self, buf: &[u8]) -> io::Result<usize> {
        self.check()?;
        self.stream.write(buf)
    }

    fn flush(&mut self) -> io::Result<()> {
        self.stream.flush()
    }
}
