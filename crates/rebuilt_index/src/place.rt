//! Where the blocks of a recording begin.

ghost use Rattle.std.specs.Prelude.{◌≡◌, ◌+◌, ◌<◌, ◌^◌, length, IfOk, IfErr};
ghost use Rattle.fault.specs.declared.kinds.Fault.TheVariants.{NumbersOut};
ghost use Rattle.recording.specs.Recording.{padding_len};

use fault::{Fault, LIMIT};
use recording::Block;

/// How many bytes of a block aren't its data or its padding: its length, and its time.
const FRAME_LEN: u64 = 8;

/// Fails where a count has no room for so many bytes (`NumbersOut`).
pub(crate) fn check_count(count: usize) -> Result<(), Fault>
    ensures { IfErr result (λ fault. (fault ≡ NumbersOut) × (2 ^ 62 < count)) }
{
    if count as u64 > LIMIT {
        return Err(Fault::NumbersOut);
    }
    Ok(())
}

/// The place behind a block that begins at this place, in bytes from the beginning of the recording. It fails where a
/// count has no room for it (`NumbersOut`).
pub(crate) fn behind(place: u64, block: Block<'_>) -> Result<u64, Fault>
    ensures ok { IfOk result (λ next. next ≡ place + (length block.entry.said.now
        + padding_len (length block.entry.said.now) + 8)) }
    ensures err { IfErr result (λ fault. (fault ≡ NumbersOut)
        × (2 ^ 62 < place + (length block.entry.said.now
        + padding_len (length block.entry.said.now) + 8))) }
{
    let len = block.said.len() as u64;
    if place > LIMIT || len > LIMIT {
        return Err(Fault::NumbersOut);
    }
    Ok(place + (len + (4 - len % 4) % 4 + FRAME_LEN))
}
