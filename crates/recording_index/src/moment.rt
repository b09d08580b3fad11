//! A key moment, and the entry that spells it.

ghost use Rattle.std.specs.Prelude.{◌≡◌, ◌≤◌, ◌+◌, ◌++◌, length};
ghost use Rattle.std.specs.Int.{w32, w64, to_be_bytes, from_be_bytes};
ghost use Rattle.recording.specs.Waiting.{Writes};
ghost use Rattle.recording_index.specs.IndexBytes.{entry_bytes};
ghost use Rattle.recording_index.specs.IndexReading.{moment_of, fault_at};
ghost use Rattle.recording_index.specs.declared.form.TheConstants.{ENTRY_LEN};

use crate::bad::BadIndex;
use crate::form::{ENTRY_LEN, PLACE_LEN, TIME_LEN};

/// A key moment of a recording: from the block at this place on, all of the screen is brought anew.
#[derive(Clone, Copy, Debug, PartialEq, Eq)]
pub struct KeyMoment {
    /// The time of the block, in milliseconds since the recording began.
    pub time: u32,
    /// How many bytes of the recording stand before the block.
    pub place: u64,
}

/// Copies these bytes to the front.
fn put(bytes: &[u8], out: &mut [u8]) -> usize
    requires { length bytes.now ≤ length out.old }
    ensures { Writes bytes.now out.old out.new result }
{
    let (front, _) = out.split_at_mut(bytes.len());
    front.copy_from_slice(bytes);
    bytes.len()
}

/// Spells the entry of a key moment at the front of `out`, leaves what follows it, and answers how many bytes it has:
/// `ENTRY_LEN`.
pub fn write_moment(moment: KeyMoment, out: &mut [u8]) -> usize
    requires { ENTRY_LEN ≤ length out.old }
    ensures { Writes (entry_bytes moment) out.old out.new result }
{
    let count = put(&moment.time.to_be_bytes(), out);
    let (_, behind) = out.split_at_mut(count);
    count + put(&moment.place.to_be_bytes(), behind)
}

/// The time that four bytes spell.
fn time_in(field: &[u8]) -> u32
    requires { length field.now ≡ 4 }
    ensures { result ≡ from_be_bytes w32 field.now }
{
    u32::from_be_bytes([field[0], field[1], field[2], field[3]])
}

/// The place that eight bytes spell.
fn place_in(field: &[u8]) -> u64
    requires { length field.now ≡ 8 }
    ensures { result ≡ from_be_bytes w64 field.now }
{
    u64::from_be_bytes([
        field[0], field[1], field[2], field[3], field[4], field[5], field[6], field[7],
    ])
}

/// The key moment that the entry at the front of these bytes spells.
#[tactic(auto, unfolding(crate::specs::IndexReading::moment_of))]
pub(crate) fn moment_of(bytes: &[u8]) -> KeyMoment
    requires { ENTRY_LEN ≤ length bytes.now }
    ensures { result ≡ moment_of bytes.now }
{
    let (time, behind) = bytes.split_at(TIME_LEN);
    let (place, _) = behind.split_at(PLACE_LEN);
    KeyMoment {
        time: time_in(time),
        place: place_in(place),
    }
}

/// Why the second of two key moments can't follow the first, if it can't.
pub(crate) fn fault_at(before: KeyMoment, moment: KeyMoment) -> Option<BadIndex>
    ensures { result ≡ fault_at before moment }
{
    if moment.time < before.time {
        return Some(BadIndex::TimeGoesBack);
    }
    if moment.place < before.place {
        return Some(BadIndex::PlaceGoesBack);
    }
    None
}
