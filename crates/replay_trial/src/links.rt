//! Readers and writers that fail, lines that are no text, and how a script spells bytes.

use crate::case::plays;
use replay::{replay, script_bytes, shown};
use std::alloc::Global;
use std::io;
use std::test::Fail;

/// Gives a script, and then fails.
#[derive(Drop)]
struct TornReader<'a>(Option<&'a [u8]>);

impl<'a> io::Read for TornReader<'a> {
    fn read(&mut self, buf: &mut [u8]) -> io::Result<usize> {
        let Some(script) = self.0.take() else {
            return Err(io::Error::from(io::ErrorKind::ConnectionReset));
        };
        let count = script.len().min(buf.len());
        buf[..count].copy_from_slice(&script[..count]);
        Ok(count)
    }
}

/// Bytes that no text has, for long lines: they are copied, as single ones take long in a run before any proof.
static NO_TEXT: [u8; 8_192] = [0xFF; 8_192];

/// Gives a script, then so many bytes of a line that is no text, and then its line feed. It counts how often it was
/// asked.
#[derive(Drop)]
struct LongReader<'a> {
    script: &'a [u8],
    left: usize,
    line_feed: &'a [u8],
    asked: u64,
}

impl<'a> io::Read for LongReader<'a> {
    fn read(&mut self, buf: &mut [u8]) -> io::Result<usize> {
        self.asked = self.asked.saturating_add(1);
        if !self.script.is_empty() {
            return self.script.read(buf);
        }
        if self.left == 0 {
            return self.line_feed.read(buf);
        }
        let count = NO_TEXT.len().min(buf.len()).min(self.left);
        buf[..count].copy_from_slice(&NO_TEXT[..count]);
        self.left -= count;
        Ok(count)
    }
}

/// A writer that takes no byte, as a full disk.
#[derive(Drop)]
struct FullWriter;

impl io::Write for FullWriter {
    fn write(&mut self, _buf: &[u8]) -> io::Result<usize> {
        Err(io::Error::from(io::ErrorKind::StorageFull))
    }

    fn flush(&mut self) -> io::Result<()> {
        Ok(())
    }
}

const SCRIPT: &[u8] = b"screen 2 1 T\nopen 1 full\nturn 1\n";

/// Whether a reader that fails after these bytes, or at once, ends the script with status 3 and this printed.
fn ends_torn(alloc: Global, script: Option<&[u8]>, printed: &str) -> bool {
    let mut output = Vec::new(alloc);
    replay(alloc, TornReader(script), &mut output) == 3 && output.as_slice() == printed.as_bytes()
}

/// A line has at most this many bytes before its line feed (docs/OPERATING.md, "How it ends").
const MOST_BYTES: usize = 256 * 1024 * 1024 - 1;

/// A line that is too long ends a script in at most this many reads, each of which brings 4 KiB or more.
const MOST_READS: u64 = 1 << 16;

/// Whether a script ends in few reads with this status and this printed, if a line follows it of so many bytes that is
/// no text.
fn ends_long(alloc: Global, script: &[u8], left: usize, printed: &str, status: u8) -> bool {
    let mut output = Vec::new(alloc);
    let mut reader = LongReader {
        script,
        left,
        line_feed: b"\n",
        asked: 0,
    };
    replay(alloc, &mut reader, &mut output) == status
        && output.as_slice() == printed.as_bytes()
        && reader.asked <= MOST_READS
}

/// Whether bytes are read and shown as a script spells them.
fn spells(alloc: Global) -> Result<bool, Fail> {
    let is_read = match script_bytes(alloc, "0 10aB fFf")? {
        Some(bytes) => bytes.as_slice() == [1, 0x0A, 0xBF, 0xFF].as_slice(),
        None => false,
    };
    Ok(
        is_read
            && script_bytes(alloc, "012")?.is_none()
            && shown(alloc, &[0, 1, 0xAB, 0xCD, 0xEF])?.as_str() == "0001ABCD EF"
            && shown(alloc, &[])?.as_str() == "",
    )
}

/// Says for each of these whether it does as told.
pub fn play_links(rt: &HostRuntime) -> Result<(), Fail> {
    let alloc = rt.alloc();
    let later = b"screen 2 1 T\nopen 1 full\nturn 1\nraise\xC3\nturn 1\n";
    for (name, holds) in [
        (
            "reader that fails",
            ends_torn(alloc, Some(SCRIPT), "1: -\n"),
        ),
        ("reader that fails at once", ends_torn(alloc, None, "")),
        ("writer that fails", replay(alloc, SCRIPT, FullWriter) == 3),
        (
            "line of the most bytes",
            ends_long(alloc, b"", MOST_BYTES, "line 1\n", 2),
        ),
        (
            "line of a byte more",
            ends_long(alloc, b"", MOST_BYTES + 1, "", 3),
        ),
        (
            "later line without an end",
            ends_long(alloc, SCRIPT, usize::MAX, "1: -\n", 3),
        ),
        (
            "first line that is no text",
            plays(alloc, b"screen 2 1 \xFF\n", "line 1\n", 2),
        ),
        (
            "later line that is no text",
            plays(alloc, later, "1: -\nline 4\n", 2),
        ),
        ("bytes as a script spells them", spells(alloc)?),
    ] {
        if holds {
            println!(rt; "{name}: as told")?;
        } else {
            println!(rt; "{name}: otherwise")?;
        }
    }
    Ok(())
}
