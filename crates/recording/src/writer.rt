//! Writing a recording.

ghost use Rattle.std.specs.Prelude.{◌≡◌, ◌≤◌, ◌<◌, ◌+◌, ◌^◌, [], ◌++◌, length, min, take, replicate, IfOk};
ghost use Rattle.std.specs.Int.{w32, to_be_bytes};
ghost use Rattle.recording.specs.Recording.{block_bytes, blocks_bytes, padding_len};
ghost use Rattle.recording.specs.Waiting.{Writes, room, with_more, as_blocks};
ghost use Rattle.recording.specs.declared.form.TheConstants.{LONGEST_SPELLING, LONGEST_WRITTEN};

use crate::form::{LONGEST_SPELLING, LONGEST_WRITTEN};
use crate::reader::padding_len;
use std::alloc::{AllocError, Global};
use std::marker::Model;

/// Copies these bytes to the front.
fn put(bytes: &[u8], out: &mut [u8]) -> usize
    requires { length bytes.now ≤ length out.old }
    ensures { Writes bytes.now out.old out.new result }
{
    let (front, _) = out.split_at_mut(bytes.len());
    front.copy_from_slice(bytes);
    bytes.len()
}

/// Spells the padding and the time that follow data of this length, and answers how many bytes they are.
fn write_end(len: usize, time: u32, out: &mut [u8]) -> usize
    requires { padding_len len + 4 ≤ length out.old }
    ensures { Writes (replicate (padding_len len) 0 ++ to_be_bytes w32 time)
        out.old out.new result }
{
    let zeros = [0; 4];
    let (padding, _) = zeros.split_at(padding_len(len));
    let count = put(padding, out);
    let (_, behind) = out.split_at_mut(count);
    count + put(&time.to_be_bytes(), behind)
}

/// Spells data, with the padding and the time.
fn write_body(said: &[u8], time: u32, out: &mut [u8]) -> usize
    requires { length said.now + padding_len (length said.now) + 4 ≤ length out.old }
    ensures { Writes (said.now ++ (replicate (padding_len (length said.now)) 0
        ++ to_be_bytes w32 time)) out.old out.new result }
{
    let count = put(said, out);
    let (_, behind) = out.split_at_mut(count);
    count + write_end(said.len(), time, behind)
}

/// Spells a block at the front of `out`, leaves what follows it, and answers how many bytes it has.
fn write_block(said: &[u8], time: u32, out: &mut [u8]) -> usize
    requires short { length said.now < 2 ^ 32 }
    requires room { 4 + length said.now + padding_len (length said.now) + 4 ≤ length out.old }
    ensures { Writes (block_bytes (record { said = said.now; time = time }))
        out.old out.new result }
{
    let count = put(&(said.len() as u32).to_be_bytes(), out);
    let (_, behind) = out.split_at_mut(count);
    count + write_body(said, time, behind)
}

/// A writer of the blocks of a recording. It holds the data of one block, up to 65,536 bytes, until they are flushed.
/// All bytes of a block came at one time, in milliseconds since the recording began. Contracts see the block that
/// waits.
///
/// A file begins with `FIRST_LINE`, which isn't this writer's. Where all is kept of what a server says, and flushed
/// whenever nothing more can be kept, the blocks say all of it, each byte with its time (`all_is_recorded`).
#[derive(Drop)]
pub struct RecordingWriter {
    said: Vec<u8>,
    time: u32,
}

impl Model for RecordingWriter {
    ghost use Rattle.std.specs.Prelude.{ℕ, ◌≤◌, length, vec_capacity};
    ghost use Rattle.recording.specs.Recording.{Block};
    ghost use Rattle.recording.specs.declared.form.TheConstants.{LONGEST_WRITTEN};

    ghost Value = { Block };

    ghost view = { λ w. record { said = w.said.items; time = w.time } };

    ghost invariant = { λ w. (length w.said.items ≤ LONGEST_WRITTEN)
        × (LONGEST_WRITTEN ≤ vec_capacity w.said) };
}

impl RecordingWriter {
    /// A writer with which nothing waits, at time 0. It takes all the memory that it will need.
    pub fn new(alloc: Global) -> Result<RecordingWriter, AllocError>
        ensures { IfOk result (λ w. w ≡ record { said = []; time = 0 }) }
    {
        let said = Vec::with_capacity(alloc, LONGEST_WRITTEN)?;
        Ok(RecordingWriter { said, time: 0 })
    }

    /// The time of what was kept last, or 0: no time before it may be given.
    pub fn time(&self) -> u32
        ensures { result ≡ self.now.time }
    {
        self.time
    }

    /// How many more bytes can be kept before a flush, if they come at this time.
    pub fn room(&self, time: u32) -> usize
        ensures { result ≡ room self.now time }
    {
        let said = self.said.as_slice();
        if said.is_empty() || self.time == time {
            LONGEST_WRITTEN - said.len()
        } else {
            0
        }
    }

    /// Keeps bytes that came at this time, as many as can be kept before a flush, and answers how many. It takes no
    /// memory.
    pub fn keep(&mut self, time: u32, bytes: &[u8]) -> usize
        requires { self.old.time ≤ time }
        ensures count { result ≡ min (length bytes.now) (room self.old time) }
        ensures kept { self.new ≡ with_more self.old time (take result bytes.now) }
    {
        let count = bytes.len().min(self.room(time));
        if count > 0 {
            // There is room for all bytes of a block.
            let _ = self.said.extend_from_slice(&bytes[..count]);
            self.time = time;
        }
        count
    }

    /// Spells the block that waits at the front of `out`, leaves what follows it, and answers how many bytes it has, at
    /// most 65,544; where none waits, no byte. After that no block waits.
    pub fn flush(&mut self, out: &mut [u8]) -> usize
        requires { LONGEST_SPELLING ≤ length out.old }
        ensures written { Writes (blocks_bytes (as_blocks self.old)) out.old out.new result }
        ensures empty { self.new ≡ record { said = []; time = self.old.time } }
    {
        let said = self.said.as_slice();
        if said.is_empty() {
            return 0;
        }
        let count = write_block(said, self.time, out);
        self.said.clear();
        count
    }
}
