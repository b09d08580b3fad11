//! The file of a recording, and the reader of its blocks.

ghost use Rattle.std.specs.Prelude.{◌≡◌, ◌≤◌, length, take};

use crate::bad::BadPlayback;
use crate::recorded::Recorded;
use link::Record;
use recording::{BadRecording, Block, FIRST_LINE, RecordingReader};
use std::alloc::{AllocError, Global};
use std::io::ErrorKind;
use std::marker::Model;
use std::mem;

/// How many bytes of the file are read at once, at most.
const PIECE_LEN: usize = 65_536;

/// Puts these bytes at the front of the slice.
fn put_front(slice: &mut [u8], bytes: &[u8])
    requires { length bytes.now ≤ length slice.old }
    ensures len { length slice.new ≡ length slice.old }
    ensures bytes { take (length bytes.now) slice.new ≡ bytes.now }
{
    let (front, _) = slice.split_at_mut(bytes.len());
    front.copy_from_slice(bytes);
}

/// The file of a recording that is read in pieces, and the reader of its blocks. It is read from its beginning on, and
/// may go to another place once.
#[derive(Drop)]
pub(crate) struct FileReel<F: Recorded> {
    alloc: Global,
    file: F,
    reader: RecordingReader,
    /// Room for one piece of the file. From `start` to `end` it has bytes that the reader hasn't seen.
    piece: Vec<u8>,
    start: usize,
    end: usize,
    /// Whether it went to another place, and what was read before.
    is_behind: bool,
    before: Record,
    so_far: Record,
}

impl<F: Recorded> Model for FileReel<F> {
    ghost use Rattle.std.specs.Prelude.{◌≡◌, ◌≤◌, false, take, drop, length};
    ghost use Rattle.playback.specs.Reels.{Reel};

    ghost Value = { Reel };

    ghost view = { λ r. record {
      is_behind = r.is_behind;
      before = r.before.bytes;
      start = F.start r.file;
      so_far = F.so_far r.file;
      unread = drop r.start (take r.end r.piece.items);
      reader = r.reader;
    } };

    ghost invariant = { λ r. (r.start ≤ r.end) × (r.end ≤ length r.piece.items)
        × (12 ≤ length r.piece.items) × (r.so_far.bytes ≡ F.so_far r.file) };
}

impl<F: Recorded> FileReel<F> {
    ghost use Rattle.std.specs.Prelude.{◌≡◌, ◌≤◌, [], true, false, length, option_map, IfOk, IfErr, OnOk, OnErr};
    ghost use Rattle.byte_reading.specs.Reading.{whole_of};
    ghost use Rattle.recording.specs.Progress.{ahead, shown};
    ghost use Rattle.recording.specs.BlockReading.{found, going_on};
    ghost use Rattle.recording.specs.declared.bad.BadRecording.TheVariants.{Memory};
    ghost use Rattle.playback.specs.Reels.{HasBlocks, ReadsOn, IsNoMore, first_of};
    ghost use Rattle.playback.specs.declared.bad.BadPlayback.TheVariants.{Recording, File};

    /// A file of which nothing was read. It takes the memory for pieces.
    pub(crate) fn new(alloc: Global, file: F) -> Result<FileReel<F>, AllocError>
        requires start { F.start file ≡ 0 }
        requires none { F.so_far file ≡ [] }
        ensures blocks { IfOk result (λ reel. HasBlocks reel []) }
        ensures first { IfOk result (λ reel. reel.is_behind ≡ false) }
    {
        let piece = vec![in alloc; 0u8; PIECE_LEN]?;
        Ok(FileReel {
            alloc,
            file,
            reader: RecordingReader::new(alloc),
            piece,
            start: 0,
            end: 0,
            is_behind: false,
            before: Record::new(),
            so_far: Record::new(),
        })
    }

    /// Whether it went to another place.
    pub(crate) fn is_behind(&self) -> bool
        ensures { result ≡ self.now.is_behind }
    {
        self.is_behind
    }

    /// Goes to another place, at which a block begins. It fails where the file does, and then nothing changes.
    pub(crate) fn go_to(&mut self, place: u64) -> Result<(), BadPlayback>
        requires { self.old.is_behind ≡ false }
        ensures behind { OnOk result ((self.new.is_behind ≡ true) × (self.new.start ≡ place)
            × (self.new.so_far ≡ [])) }
        ensures first { OnOk result (first_of self.new ≡ first_of self.old) }
        ensures blocks { OnOk result (HasBlocks self.new []) }
        ensures err { IfErr result (IsNoMore F.has_failed) }
        ensures same { OnErr result (self.new ≡ self.old) }
    {
        let Ok(()) = self.file.go_to(place) else {
            return Err(BadPlayback::File);
        };
        self.before = mem::replace(&mut self.so_far, Record::new());
        self.is_behind = true;
        self.reader = RecordingReader::new(self.alloc);
        // The reader is to see the line of a recording first.
        put_front(self.piece.as_mut_slice(), &FIRST_LINE);
        self.start = 0;
        self.end = FIRST_LINE.len();
        Ok(())
    }

    /// The block that is whole, or why the recording can't be read on.
    pub(crate) fn found(&self) -> Option<Result<Block<'_>, BadRecording>>
        ensures { option_map shown result ≡ whole_of (ahead self.now.reader) }
    {
        self.reader.found()
    }

    /// Goes on to the next block, where one is whole.
    pub(crate) fn go_on(&mut self)
        ensures same { self.new ≡ record self.old { reader = self.new.reader } }
        ensures reader { ahead self.new.reader ≡ going_on (ahead self.old.reader) }
    {
        self.reader.go_on();
    }

    /// Reads more of the file, where the reader has seen all of it that was read. It answers whether there may be more,
    /// and fails where the file does (`File`).
    fn read_more(&mut self) -> Result<bool, BadPlayback>
        ensures on { ReadsOn self.old self.new }
        ensures reader { self.new.reader ≡ self.old.reader }
        ensures end { IfOk result (λ more. more ≡ false → (self.new.unread ≡ [])
            × F.is_all self.new.start self.new.so_far) }
        ensures err { IfErr result (IsNoMore F.has_failed) }
    {
        if self.start < self.end {
            return Ok(true);
        }
        self.start = 0;
        self.end = 0;
        match self.file.read(self.piece.as_mut_slice()) {
            Ok(count) => {
                let (come, _) = self.piece.split_at(count);
                self.so_far.note(come);
                self.end = count;
                Ok(count > 0)
            }
            Err(error) if error.kind() == ErrorKind::Interrupted => Ok(true),
            Err(_) => Err(BadPlayback::File),
        }
    }

    /// Shows the reader more of what was read. It fails where memory is refused, and then nothing changes.
    fn feed(&mut self) -> Result<(), BadPlayback>
        ensures on { ReadsOn self.old self.new }
        ensures err { IfErr result (IsNoMore F.has_failed) }
    {
        let (come, _) = self.piece.split_at(self.end);
        let (_, unread) = come.split_at(self.start);
        let used = self.reader.feed(unread)?;
        self.start += used;
        Ok(())
    }

    /// Reads on. It answers whether there may be more: `false` is the end of the file. It fails where the file does
    /// (`File`), or where memory is refused.
    pub(crate) fn read_on(&mut self) -> Result<bool, BadPlayback>
        ensures on { ReadsOn self.old self.new }
        ensures end { IfOk result (λ more. more ≡ false → (self.new.unread ≡ [])
            × F.is_all self.new.start self.new.so_far × (self.new.reader ≡ self.old.reader)) }
        ensures err { IfErr result (IsNoMore F.has_failed) }
    {
        if !self.read_more()? {
            return Ok(false);
        }
        self.feed()?;
        Ok(true)
    }
}
