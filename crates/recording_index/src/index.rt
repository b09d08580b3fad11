//! An index, as it was read.

ghost use Rattle.std.specs.Prelude.{◌≡◌, ◌⊎◌, None, Some, IfOk, IfErr};
ghost use Rattle.recording_index.specs.IndexBytes.{start};
ghost use Rattle.recording_index.specs.IndexReading.{IsLastAt, all_in, fault_after, fault_in, moments_in, begins_as_line};
ghost use Rattle.recording_index.specs.declared.bad.BadIndex.TheVariants.{Memory};

use crate::bad::BadIndex;
use crate::form::{ENTRY_LEN, INDEX_LINE};
use crate::moment::{KeyMoment, fault_at, moment_of};
use std::alloc::Global;
use std::marker::Model;

/// Whether these bytes begin with the line of an index, or are a beginning of it.
fn begins_as_line(bytes: &[u8]) -> bool
    ensures { result ≡ begins_as_line bytes.now }
{
    let count = bytes.len().min(INDEX_LINE.len());
    bytes[..count] == INDEX_LINE[..count]
}

/// Reads the entries that are whole, up to the first one that is at fault.
fn read_entries(alloc: Global, entries: &[u8]) -> Result<Vec<KeyMoment>, BadIndex>
    ensures ok { IfOk result (λ v.
        (fault_after start (all_in entries.now) ≡ None) × (v.items ≡ all_in entries.now)) }
    ensures err { IfErr result (λ bad.
        (bad ≡ Memory) ⊎ (fault_after start (all_in entries.now) ≡ Some bad)) }
{
    let mut moments = Vec::new(alloc);
    let mut before = KeyMoment { time: 0, place: 0 };
    for i in 0..entries.len() / ENTRY_LEN {
        let (_, left) = entries.split_at(i * ENTRY_LEN);
        let moment = moment_of(left);
        if let Some(bad) = fault_at(before, moment) {
            return Err(bad);
        }
        moments.push(moment)?;
        before = moment;
    }
    Ok(moments)
}

/// The key moments of a recording, in order, as an index has them. Contracts see their list.
#[derive(Drop)]
pub struct Index {
    moments: Vec<KeyMoment>,
}

impl Model for Index {
    ghost use Rattle.std.specs.Prelude.{List};
    ghost use Rattle.recording_index.specs.declared.moment.KeyMoment.{KeyMoment};

    ghost Value = { List KeyMoment };

    ghost view = { λ i. i.moments.items };
}

impl Index {
    /// Reads the bytes of an index, up to its last whole entry. It fails where the bytes don't begin as an index does
    /// (`NotAnIndex`), at the first key moment that is before the one before it (`TimeGoesBack`, `PlaceGoesBack`), and
    /// where memory is refused (`Memory`).
    pub fn read(alloc: Global, bytes: &[u8]) -> Result<Index, BadIndex>
        ensures ok { IfOk result (λ index.
            (fault_in bytes.now ≡ None) × (index ≡ moments_in bytes.now)) }
        ensures err { IfErr result (λ bad. (bad ≡ Memory) ⊎ (fault_in bytes.now ≡ Some bad)) }
    {
        if !begins_as_line(bytes) {
            return Err(BadIndex::NotAnIndex);
        }
        let (_, entries) = bytes.split_at(bytes.len().min(INDEX_LINE.len()));
        match read_entries(alloc, entries) {
            Ok(moments) => Ok(Index { moments }),
            Err(bad) => Err(bad),
        }
    }

    /// The key moments, in order.
    pub fn moments(&self) -> &[KeyMoment]
        ensures { result.now ≡ self.now }
    {
        self.moments.as_slice()
    }

    /// The last key moment at or before this time, in milliseconds since the recording began, or `None` where there is
    /// none.
    pub fn last_at(&self, time: u32) -> Option<KeyMoment>
        ensures { IsLastAt self.now time result }
    {
        let moments = self.moments.as_slice();
        for i in 0..moments.len() {
            let moment = moments[moments.len() - 1 - i];
            if moment.time <= time {
                return Some(moment);
            }
        }
        None
    }
}
