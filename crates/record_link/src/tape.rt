//! The file of a recording or of its index, and the bytes that wait until it takes them.

ghost use Rattle.std.specs.Prelude.{◌≡◌, ◌≤◌, length, take};

use crate::storage::Storage;
use fault::LIMIT;
use link::Record;
use recording::{LONGEST_SPELLING, RecordingWriter};
use recording_index::{KeyMoment, write_moment};
use std::alloc::{AllocError, Global};
use std::marker::Model;

/// The length from which on no more is spelled for a file: a count has no room for more.
const LONGEST_TAPE: u64 = LIMIT - LONGEST_SPELLING as u64;

/// A file that is written, and room for one block as it is spelled, which the file takes in as many calls as it wants.
/// Where the file fails it is left alone from then on.
#[derive(Drop)]
pub(crate) struct Tape<S: Storage> {
    storage: S,
    room: Vec<u8>,
    /// Where in the room the bytes lie that the file hasn't taken.
    start: usize,
    end: usize,
    /// How many bytes were spelled.
    len: u64,
    is_broken: bool,
    spelled: Record,
}

impl<S: Storage> Model for Tape<S> {
    ghost use Rattle.std.specs.Prelude.{◌≡◌, ◌≤◌, ◌^◌, drop, take, length};
    ghost use Rattle.recording.specs.declared.form.TheConstants.{LONGEST_SPELLING};
    ghost use Rattle.record_link.specs.Tapes.{Tape, IsTape};

    ghost Value = { Tape };

    ghost view = { λ t. record {
      stored = S.stored t.storage;
      unsent = drop t.start (take t.end t.room.items);
      spelled = t.spelled.bytes;
      is_broken = t.is_broken;
    } };

    ghost invariant = { λ t. (t.start ≤ t.end) × (t.end ≤ length t.room.items)
        × (length t.room.items ≡ LONGEST_SPELLING) × (t.len ≡ length t.spelled.bytes)
        × (t.len ≤ 2 ^ 62)
        × IsTape (record {
          stored = S.stored t.storage;
          unsent = drop t.start (take t.end t.room.items);
          spelled = t.spelled.bytes;
          is_broken = t.is_broken;
        }) };
}

/// Puts these bytes at the front of the slice.
fn put_front(slice: &mut [u8], bytes: &[u8])
    requires { length bytes.now ≤ length slice.old }
    ensures len { length slice.new ≡ length slice.old }
    ensures bytes { take (length bytes.now) slice.new ≡ bytes.now }
{
    let (front, _) = slice.split_at_mut(bytes.len());
    front.copy_from_slice(bytes);
}

impl<S: Storage> Tape<S> {
    ghost use Rattle.std.specs.Prelude.{◌≡◌, ◌≢◌, ◌≤◌, ◌+◌, ◌^◌, ◌↔◌, [], ◌++◌, length, true, false, IfOk};
    ghost use Rattle.recording.specs.Recording.{blocks_bytes};
    ghost use Rattle.recording.specs.Waiting.{as_blocks};
    ghost use Rattle.recording.specs.declared.form.TheConstants.{LONGEST_SPELLING};
    ghost use Rattle.recording_index.specs.IndexBytes.{entry_bytes};
    ghost use Rattle.record_link.specs.Tapes.{unwritten, IsTape, IsClear};

    /// A file that has nothing, and is to have this line. It takes all the memory that it will need.
    pub(crate) fn new(alloc: Global, storage: S, line: &[u8]) -> Result<Tape<S>, AllocError>
        requires empty { S.stored storage ≡ [] }
        requires short { length line.now ≤ LONGEST_SPELLING }
        ensures { IfOk result (λ tape. tape ≡ unwritten line.now) }
    {
        let mut room = vec![in alloc; 0u8; LONGEST_SPELLING]?;
        put_front(room.as_mut_slice(), line);
        let mut spelled = Record::new();
        spelled.note(line);
        Ok(Tape {
            storage,
            room,
            start: 0,
            end: line.len(),
            len: line.len() as u64,
            is_broken: false,
            spelled,
        })
    }

    /// Where the bytes are.
    pub(crate) fn storage(&self) -> &S
        ensures { S.stored result.now ≡ self.now.stored }
    {
        &self.storage
    }

    /// It does nothing. Its clause says that the file has a beginning of what was spelled for it.
    pub(crate) fn is_tape(&self)
        ensures { IsTape self.now }
    {
        let _ = &self.start;
    }

    /// Whether the file is written no more.
    pub(crate) fn is_broken(&self) -> bool
        ensures { result ≡ self.now.is_broken }
    {
        self.is_broken
    }

    /// How many bytes were spelled for the file.
    pub(crate) fn len(&self) -> u64
        ensures { result ≡ length self.now.spelled }
    {
        self.len
    }

    /// Whether the file has taken all bytes that were spelled for it.
    pub(crate) fn is_sent(&self) -> bool
        ensures { result ≡ true ↔ self.now.unsent ≡ [] }
    {
        self.start >= self.end
    }

    /// Whether the file has all bytes, so that more may be spelled.
    pub(crate) fn is_clear(&self) -> bool
        ensures { result ≡ true ↔ IsClear self.now }
    {
        !self.is_broken && self.start >= self.end && self.len <= LONGEST_TAPE
    }

    /// Ends writing to the file, where it is so long that no more may be spelled for it.
    pub(crate) fn end_if_full(&mut self)
        ensures same { self.new ≡ record self.old { is_broken = self.new.is_broken } }
        ensures broken { self.old.is_broken ≡ true → self.new ≡ self.old }
        ensures room { self.new.is_broken ≡ false
            → length self.new.spelled + LONGEST_SPELLING ≤ 2 ^ 62 }
    {
        if self.len > LONGEST_TAPE {
            self.is_broken = true;
        }
    }

    /// Whether bytes wait for the file, and it is still written.
    fn is_waiting(&self) -> bool
        ensures fine { result ≡ true → self.now.is_broken ≡ false }
        ensures some { result ≡ true → self.now.unsent ≢ [] }
    {
        !self.is_broken && self.start < self.end
    }

    /// Appends once. It answers whether the file has taken bytes.
    fn append_once(&mut self) -> bool
        requires { self.old.is_broken ≡ false }
        ensures { self.new.spelled ≡ self.old.spelled }
    {
        let (written, _) = self.room.split_at(self.end);
        let (_, unsent) = written.split_at(self.start);
        match self.storage.append(unsent) {
            Ok(count) => {
                self.start += count;
                count > 0
            }
            Err(_) => {
                self.is_broken = true;
                false
            }
        }
    }

    /// Appends what the file hasn't taken, as far as it takes it now.
    pub(crate) fn append_all(&mut self)
        ensures spelled { self.new.spelled ≡ self.old.spelled }
        ensures clear { self.old.unsent ≡ [] → self.new ≡ self.old }
        ensures broken { self.old.is_broken ≡ true → self.new ≡ self.old }
    {
        // Each round but the last appends at least one byte.
        for _ in 0..=LONGEST_SPELLING {
            if !self.is_waiting() || !self.append_once() {
                return;
            }
        }
    }

    /// Spells the block that waits with the writer, if any, so that the file is to have it.
    pub(crate) fn spell(&mut self, writer: &mut RecordingWriter)
        requires { IsClear self.old }
        ensures spelled { self.new.spelled ≡ self.old.spelled
            ++ blocks_bytes (as_blocks writer.old) }
        ensures empty { writer.new ≡ record { said = []; time = writer.old.time } }
        ensures fine { self.new.is_broken ≡ false }
    {
        let count = writer.flush(self.room.as_mut_slice());
        let (block, _) = self.room.split_at(count);
        self.spelled.note(block);
        self.start = 0;
        self.end = count;
        self.len += count as u64;
    }

    /// Spells the entry of a key moment, so that the file is to have it.
    pub(crate) fn add(&mut self, moment: KeyMoment)
        requires { IsClear self.old }
        ensures spelled { self.new.spelled ≡ self.old.spelled ++ entry_bytes moment }
        ensures fine { self.new.is_broken ≡ false }
    {
        let count = write_moment(moment, self.room.as_mut_slice());
        let (entry, _) = self.room.split_at(count);
        self.spelled.note(entry);
        self.start = 0;
        self.end = count;
        self.len += count as u64;
    }
}
