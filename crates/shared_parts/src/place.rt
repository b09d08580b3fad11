//! A place for a part, which one thread fills and many read.

ghost use Rattle.std.specs.Prelude.{◌≡◌, ◌%◌, IfOk, IfSome};
ghost use Rattle.shared_parts.specs.Parts.{ShowsArea};

use crate::part::Part;
use counted_slot::{Claim, Counted, FREE, MOST_READERS, ONE_READER, PRESENT, TAKEN};
use pixel_format::Format;
use raster::Rect;

/// A place for a part. Its word has the mark of the part in its high half. Contracts see the screen of its parts.
pub(crate) type Place = Counted<Option<Part>>;

/// The word of a place that nobody uses.
const VACANT: u64 = FREE;

/// How a place stands to a mark: another part has it, or none; the part of this mark is being made; or it is there.
#[derive(Clone, Copy, PartialEq, Eq)]
pub(crate) enum Standing {
    Elsewhere,
    BeingMade,
    Made,
}

/// How a place of this word stands to a mark.
pub(crate) fn stand_to(word: u64, mark: u64) -> Standing {
    if word - word % 0x1_0000_0000 != mark {
        return Standing::Elsewhere;
    }
    match word % 4 {
        PRESENT => Standing::Made,
        TAKEN => Standing::BeingMade,
        _ => Standing::Elsewhere,
    }
}

/// The right to make a part in a place. Where it is dropped, the place is vacant again.
pub struct PartMaker<'a> {
    claim: Claim<'a, Option<Part>>,
    mark: u64,
    ghost writes: { claim.right ≡ 2 },
    ghost marked: { mark % 4294967296 ≡ 0 },
}

impl<'a> PartMaker<'a> {
    /// Leaves the part in its place, where others find it.
    pub fn keep(self, part: Part)
        requires { ShowsArea part.format self.claim.tag.width self.claim.tag.colours.value.items
            part.area part.bytes.items }
    {
        let PartMaker { claim, mark } = self;
        claim.put(Some(part), mark + PRESENT);
    }
}

impl Drop for PartMaker<'_> {
    fn drop(self) {
        let PartMaker { claim, mark: _ } = self;
        claim.put(None, VACANT);
    }
}

/// Takes a place for the part of this mark, if it is vacant. Otherwise it answers the place's word.
pub(crate) fn take<'a>(place: &'a Place, mark: u64) -> Result<PartMaker<'a>, u64>
    requires { mark % 4294967296 ≡ 0 }
    ensures { IfOk result (λ maker. maker.claim.tag ≡ place.now) }
{
    let word = place.load();
    if word != VACANT {
        return Err(word);
    }
    let (found, claim) = place.turn(VACANT, mark + TAKEN);
    if found == VACANT {
        return Ok(PartMaker { claim, mark });
    }
    claim.done();
    Err(found)
}

/// The right to read a part, which stays where it is for as long.
pub struct PartReader<'a> {
    claim: Claim<'a, Option<Part>>,
    ghost reads: { claim.right ≡ 1 },
}

impl<'a> PartReader<'a> {
    /// The bytes of the part of an area in a format, if this is the part.
    pub fn bytes(&self, format: &Format, area: &Rect) -> Option<&[u8]>
        ensures { IfSome result (λ bytes. ShowsArea format.now self.now.claim.tag.width
            self.now.claim.tag.colours.value.items area.now bytes.now) }
    {
        let part = self.claim.get().as_ref()?;
        if part.format != *format || part.area != *area {
            return None;
        }
        Some(part.bytes.as_slice())
    }
}

impl Drop for PartReader<'_> {
    fn drop(self) {
        let PartReader { claim } = self;
        claim.leave();
    }
}

/// How often a reader tries again while others come and go.
const TRIES: usize = 64;

/// The right to read the part of a place, if one is there.
pub(crate) fn read(place: &Place) -> Option<PartReader<'_>>
    ensures { IfSome result (λ reader. reader.claim.tag ≡ place.now) }
{
    for _ in 0..TRIES {
        let word = place.load();
        if word % 4 != PRESENT || word % 0x1_0000_0000 / 4 == MOST_READERS {
            return None;
        }
        let (found, claim) = place.turn(word, word + ONE_READER);
        if found == word {
            return Some(PartReader { claim });
        }
        claim.done();
    }
    None
}
