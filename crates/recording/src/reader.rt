//! Reading a recording, in whatever pieces its bytes come.

ghost use Rattle.std.specs.Prelude.{◌≡◌, ◌≤◌, ◌<◌, ◌+◌, ◌%◌, ◌-◌, ◌^◌, ◌==◌, ◌&&◌, None, Some, is_some, is_none, option_map, bytes_eq, length, IfOk, IfErr, take, drop};
ghost use Rattle.std.specs.Int.{w32, from_be_bytes};
ghost use Rattle.byte_reading.specs.Reading.{whole_of};
ghost use Rattle.recording.specs.BlockReading.{first_block, going_on};
ghost use Rattle.recording.specs.Progress.{Progress, IsProgress, Uses, ahead, part_end, block_end, told_len, time_place, said_of, time_of, outcome, shown};
ghost use Rattle.recording.specs.Recording.{line, padding_len};
ghost use Rattle.recording.specs.declared.bad.BadRecording.TheVariants.{Memory};
ghost use Rattle.recording.specs.declared.form.TheConstants.{LONGEST_READ};

use crate::bad::BadRecording;
use crate::block::Block;
use crate::form::{FIRST_LINE, LONGEST_READ};
use std::alloc::Global;
use std::marker::Model;

/// How many bytes a length has, and a time.
const NUMBER_LEN: usize = 4;

/// The number that four bytes spell, the most significant first.
fn number(field: &[u8]) -> u32
    requires { length field.now ≡ 4 }
    ensures { result ≡ from_be_bytes w32 field.now }
{
    u32::from_be_bytes([field[0], field[1], field[2], field[3]])
}

/// How many bytes of padding follow so many bytes of data.
pub(crate) fn padding_len(len: usize) -> usize
    ensures value { result ≡ padding_len len }
    ensures few { result < 4 }
{
    (4 - len % 4) % 4
}

/// The length of the data that a block's first bytes tell.
fn told_len(begun: &[u8]) -> usize
    requires { 4 ≤ length begun.now }
    ensures value { result ≡ told_len begun.now }
    ensures within { result < 2 ^ 32 }
{
    number(&begun[..NUMBER_LEN]) as usize
}

/// The data of a whole block, of this length.
fn said_of(begun: &[u8], len: usize) -> &[u8]
    requires len { len ≡ told_len begun.now }
    requires whole { length begun.now ≡ time_place len + 4 }
    ensures { result.now ≡ said_of begun.now }
{
    let (_, behind) = begun.split_at(NUMBER_LEN);
    let (said, _) = behind.split_at(len);
    said
}

/// The time of a whole block with data of this length.
fn time_of(begun: &[u8], len: usize) -> u32
    requires len { len ≡ told_len begun.now }
    requires whole { length begun.now ≡ time_place len + 4 }
    ensures { result ≡ time_of begun.now }
{
    let (_, end) = begun.split_at(NUMBER_LEN + len + padding_len(len));
    number(end)
}

/// At how many bytes a block that begins so is looked at: at the end of its length, and then at its own end.
fn block_end(begun: &[u8]) -> usize
    ensures value { result ≡ block_end begun.now }
    ensures least { 4 ≤ result }
{
    if begun.len() < NUMBER_LEN {
        return NUMBER_LEN;
    }
    let len = told_len(begun);
    if len > LONGEST_READ {
        return NUMBER_LEN;
    }
    NUMBER_LEN + len + padding_len(len) + NUMBER_LEN
}

/// The block that these bytes spell, where the block before has the time `last`. They are at least the block's length,
/// and where that is within the bound, all of the block.
fn judge_block(last: u32, begun: &[u8]) -> Result<Block<'_>, BadRecording>
    requires head { 4 ≤ length begun.now }
    requires whole { told_len begun.now ≤ LONGEST_READ
        → length begun.now ≡ time_place (told_len begun.now) + 4 }
    ensures { shown result ≡ outcome (Some last) begun.now }
{
    let len = told_len(begun);
    if len > LONGEST_READ {
        return Err(BadRecording::BlockTooLong);
    }
    let said = said_of(begun, len);
    let time = time_of(begun, len);
    if time < last {
        return Err(BadRecording::TimeGoesBack);
    }
    Ok(Block { said, time })
}

/// Whether the line of a recording has come.
fn is_line(last: Option<u32>, begun: &[u8]) -> bool
    ensures { result ≡ (is_none last && bytes_eq begun.now line) }
{
    last.is_none() && begun == FIRST_LINE.as_slice()
}

/// A reader of a recording. It holds what has come of the line or of the next block, and takes memory for that.
#[derive(Drop)]
pub struct RecordingReader {
    begun: Vec<u8>,
    /// The time of the block before, 0 before the first, and none while the line comes.
    last: Option<u32>,
}

impl Model for RecordingReader {
    ghost use Rattle.recording.specs.Progress.{Progress, IsProgress};

    ghost Value = { Progress };

    ghost view = { λ r. record { last = r.last; begun = r.begun.items } };

    ghost invariant = { λ r. IsProgress r.last r.begun.items };
}

impl RecordingReader {
    /// A reader to which no byte has come. It takes no memory yet.
    pub fn new(alloc: Global) -> RecordingReader
        ensures { ahead result ≡ first_block }
    {
        RecordingReader {
            begun: Vec::new(alloc),
            last: None,
        }
    }

    /// How many bytes of the line or of the block are wanted before it is looked at again.
    fn part_end(&self) -> usize
        ensures value { result ≡ part_end self.now.last self.now.begun }
        ensures within { length self.now.begun ≤ result }
    {
        match self.last {
            None => FIRST_LINE.len(),
            Some(_) => block_end(self.begun.as_slice()),
        }
    }

    /// Takes bytes from the front of a piece, at most up to the end of a block, and answers how many. It takes at least
    /// one, unless a block waits to be taken or the recording can't be read on. Where memory is refused (`Memory`)
    /// nothing changes.
    pub fn feed(&mut self, piece: &[u8]) -> Result<usize, BadRecording>
        ensures used { IfOk result (Uses (ahead self.old) (ahead self.new) piece.now) }
        ensures refused { IfErr result (λ bad. (bad ≡ Memory) × (self.new ≡ self.old)) }
    {
        let come = self.begun.as_slice().len();
        let count = piece.len().min(self.part_end() - come);
        self.begun.extend_from_slice(&piece[..count])?;
        if is_line(self.last, self.begun.as_slice()) {
            self.begun.clear();
            self.last = Some(0);
        }
        Ok(count)
    }

    /// The block that is whole, or why the recording can't be read on: `NotARecording` at the end of a line that isn't
    /// the right one, `BlockTooLong` at the end of a length, `TimeGoesBack` at the end of a block. There is neither
    /// while bytes of a block are missing, and the file may end there.
    pub fn found(&self) -> Option<Result<Block<'_>, BadRecording>>
        ensures { option_map shown result ≡ whole_of (ahead self.now) }
    {
        let begun = self.begun.as_slice();
        if begun.len() < self.part_end() {
            return None;
        }
        match self.last {
            None => Some(Err(BadRecording::NotARecording)),
            Some(last) => Some(judge_block(last, begun)),
        }
    }

    /// Goes on to the next block, where one is whole. Where the recording can't be read on nothing changes.
    pub fn go_on(&mut self)
        ensures { ahead self.new ≡ going_on (ahead self.old) }
    {
        let Some(Ok(block)) = self.found() else {
            return;
        };
        let time = block.time;
        self.begun.clear();
        self.last = Some(time);
    }

    /// Whether the file may end here with nothing lost: the line has come, and no byte of a block.
    pub fn is_between(&self) -> bool
        ensures { result ≡ (is_some self.now.last && (length self.now.begun == 0)) }
    {
        self.last.is_some() && self.begun.is_empty()
    }
}
