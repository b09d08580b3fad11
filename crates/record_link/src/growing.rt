//! A recording that grows, as bytes are given to it, and its index.

use crate::storage::Storage;
use crate::tape::Tape;
use link::Gave;
use recording::{FIRST_LINE, LONGEST_WRITTEN, RecordingWriter};
use recording_index::{INDEX_LINE, KeyMoment};
use std::alloc::{AllocError, Global};
use std::marker::Model;

/// A recording that grows in a file, with its index in another. It keeps at most one block that isn't spelled and one
/// that is. It never waits: where the file doesn't take the spelled block, and the other one has no more room, nothing
/// is kept. Where the file fails the recording has ended, and what the file has is right up to its last whole block.
/// Where the file of the index fails the recording goes on, with no further key moment.
#[derive(Drop)]
pub struct GrowingRecording<S: Storage> {
    tape: Tape<S>,
    index: Tape<S>,
    writer: RecordingWriter,
    /// Whether the block that is spelled next is a key moment.
    is_key: bool,
}

impl<S: Storage> Model for GrowingRecording<S> {
    ghost use Rattle.record_link.specs.Growing.{Growing, IsGrowing};

    ghost Value = { Growing };

    ghost view = { λ g. record {
      tape = g.tape;
      index = g.index;
      waiting = g.writer;
      is_key = g.is_key;
    } };

    ghost invariant = { λ g. IsGrowing (record {
      tape = g.tape;
      index = g.index;
      waiting = g.writer;
      is_key = g.is_key;
    }) };
}

impl<S: Storage> GrowingRecording<S> {
    ghost use Rattle.std.specs.Prelude.{◌≡◌, ◌≢◌, ◌<◌, ◌≤◌, ◌+◌, ◌^◌, ◌↔◌, [], ◌∷◌, ◌++◌, true, false, length, max, IfOk};
    ghost use Rattle.link.specs.declared.link.Gave.TheVariants as Gave;
    ghost use Rattle.recording.specs.Waiting.{room};
    ghost use Rattle.recording.specs.declared.form.TheConstants.{LONGEST_SPELLING};
    ghost use Rattle.record_link.specs.Tapes.{IsClear};
    ghost use Rattle.record_link.specs.Growing.{IsKept, IsIndexed, IsWhole, KeepsAs, recorded_in, key_points};

    /// A recording in which nothing was kept, in a file that has nothing, and with an index in another one. It takes
    /// all the memory that it will need.
    pub fn new(alloc: Global, file: S, index: S) -> Result<GrowingRecording<S>, AllocError>
        requires file { S.stored file ≡ [] }
        requires index { S.stored index ≡ [] }
        ensures recorded { IfOk result (λ growing. recorded_in growing ≡ []) }
        ensures points { IfOk result (λ growing. key_points growing ≡ []) }
        ensures time { IfOk result (λ growing. growing.waiting.time ≡ 0) }
    {
        let tape = Tape::new(alloc, file, &FIRST_LINE)?;
        let index = Tape::new(alloc, index, &INDEX_LINE)?;
        let writer = RecordingWriter::new(alloc)?;
        Ok(GrowingRecording {
            tape,
            index,
            writer,
            is_key: false,
        })
    }

    /// The file.
    pub fn file(&self) -> &S
        ensures { S.stored result.now ≡ self.now.tape.stored }
    {
        self.tape.storage()
    }

    /// The file of the index.
    pub fn index_file(&self) -> &S
        ensures { S.stored result.now ≡ self.now.index.stored }
    {
        self.index.storage()
    }

    /// How many bytes the recording has, with those that the file hasn't taken yet.
    pub fn len(&self) -> u64
        ensures { result ≡ length self.now.tape.spelled }
    {
        self.tape.len()
    }

    /// Whether the recording has ended, since its file failed or is as long as can be.
    pub fn is_broken(&self) -> bool
        ensures { result ≡ self.now.tape.is_broken }
    {
        self.tape.is_broken()
    }

    /// It does nothing. Its clauses say that, at every moment, what the file's whole blocks say is a beginning of what
    /// was recorded, and that the rest waits; and that the key moments of the index are those of the recording.
    pub fn is_kept(&self)
        ensures kept { IsKept self.now }
        ensures indexed { IsIndexed self.now }
    {
        self.tape.is_tape();
        self.index.is_tape();
    }

    /// Whether no byte waits that isn't spelled.
    fn is_spelled(&self) -> bool
        ensures { result ≡ true ↔ self.now.waiting.said ≡ [] }
    {
        self.writer.room(self.writer.time()) == LONGEST_WRITTEN
    }

    /// Whether all that was recorded is in whole blocks of the file.
    pub fn is_whole(&self) -> bool
        ensures { result ≡ true ↔ IsWhole self.now }
    {
        !self.tape.is_broken() && self.tape.is_sent() && self.is_spelled()
    }

    /// Spells the block that waits, with its entry in the index where it is a key moment.
    fn spell(&mut self)
        requires clear { IsClear self.old.tape }
        requires some { self.old.waiting.said ≢ [] }
        ensures recorded { recorded_in self.new ≡ recorded_in self.old }
        ensures points { key_points self.new ≡ key_points self.old }
        ensures waiting { self.new.waiting ≡ record { said = []; time = self.old.waiting.time } }
    {
        let moment = KeyMoment {
            time: self.writer.time(),
            place: self.tape.len(),
        };
        self.tape.spell(&mut self.writer);
        if !self.is_key {
            return;
        }
        self.index.add(moment);
        self.is_key = false;
    }

    /// Appends what was spelled, as far as the files take it now.
    fn append(&mut self)
        ensures recorded { recorded_in self.new ≡ recorded_in self.old }
        ensures points { key_points self.new ≡ key_points self.old }
        ensures waiting { self.new.waiting ≡ self.old.waiting }
        ensures room { self.new.tape.is_broken ≡ false
            → length self.new.tape.spelled + LONGEST_SPELLING ≤ 2 ^ 62 }
        ensures broken { self.old.tape.is_broken ≡ true → self.new.tape ≡ self.old.tape }
    {
        self.tape.append_all();
        self.tape.end_if_full();
        self.index.append_all();
    }

    /// Whether a block waits that may be spelled now.
    fn can_spell(&self) -> bool
        ensures clear { result ≡ true → IsClear self.now.tape }
        ensures some { result ≡ true → self.now.waiting.said ≢ [] }
        ensures none { result ≡ false → IsClear self.now.tape → self.now.waiting.said ≡ [] }
    {
        self.tape.is_clear() && !self.is_spelled()
    }

    /// Makes what waits a block, and appends it as far as the file takes it now. Where the file hasn't taken the block
    /// before, it waits.
    pub fn make_whole(&mut self)
        ensures whole { self.new.tape.is_broken ≡ false → self.new.tape.unsent ≡ []
            → self.new.waiting.said ≡ [] }
        ensures recorded { recorded_in self.new ≡ recorded_in self.old }
        ensures points { key_points self.new ≡ key_points self.old }
        ensures time { self.new.waiting.time ≡ self.old.waiting.time }
        ensures broken { self.old.tape.is_broken ≡ true → self.new.tape ≡ self.old.tape }
    {
        self.append();
        if self.can_spell() {
            self.spell();
            self.append();
        }
    }

    /// Makes the block that is recorded next a key moment, where all that was recorded is in the file and the index can
    /// take an entry. It answers whether it did.
    pub fn begin_key(&mut self) -> bool
        ensures recorded { recorded_in self.new ≡ recorded_in self.old }
        ensures time { self.new.waiting.time ≡ self.old.waiting.time }
        ensures begun { result ≡ true
            → key_points self.new ≡ key_points self.old ++ length (recorded_in self.old) ∷ [] }
        ensures none { result ≡ false → self.new ≡ self.old }
    {
        if self.is_key || !self.is_whole() || !self.index.is_clear() {
            return false;
        }
        self.is_key = true;
        true
    }

    /// Keeps the first of these bytes, where the file hasn't failed, and where there is room.
    fn keep_now(&mut self, time: u32, bytes: &[u8]) -> Gave
        requires { self.old.waiting.time ≤ time }
        ensures kept { KeepsAs result time (recorded_in self.old) (recorded_in self.new) bytes.now }
        ensures points { key_points self.new ≡ key_points self.old }
        ensures failed { result ≡ Gave.Failed ↔ self.old.tape.is_broken ≡ true }
        ensures full { result ≡ Gave.Nothing → 0 < length bytes.now
            → room self.old.waiting time ≡ 0 }
        ensures tape { self.new.tape ≡ self.old.tape }
    {
        if self.tape.is_broken() {
            return Gave::Failed;
        }
        let count = self.writer.keep(time, bytes);
        if count == 0 {
            return Gave::Nothing;
        }
        Gave::Bytes(count)
    }

    /// Keeps the first of these bytes, which came at this time, in milliseconds since the recording began. A time
    /// before that of what was kept last counts as that one. It answers `Failed` only where the recording has ended,
    /// and `Nothing` only where the file hasn't taken all that was spelled for it.
    pub fn keep(&mut self, time: u32, bytes: &[u8]) -> Gave
        ensures kept { KeepsAs result (max time self.old.waiting.time) (recorded_in self.old)
            (recorded_in self.new) bytes.now }
        ensures points { key_points self.new ≡ key_points self.old }
        ensures failed { result ≡ Gave.Failed ↔ self.new.tape.is_broken ≡ true }
        ensures full { result ≡ Gave.Nothing → 0 < length bytes.now → self.new.tape.unsent ≢ [] }
        ensures broken { self.old.tape.is_broken ≡ true → self.new.tape ≡ self.old.tape }
    {
        let time = time.max(self.writer.time());
        if self.writer.room(time) > 0 {
            return self.keep_now(time, bytes);
        }
        self.make_whole();
        self.keep_now(time, bytes)
    }
}
