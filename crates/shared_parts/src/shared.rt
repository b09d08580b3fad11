//! The parts of a screen.

ghost use Rattle.std.specs.Prelude.{◌≡◌, ℕ, List, [], IfOk, IfSome};
ghost use Rattle.shared_parts.specs.Parts.{ArePartsOf, IsScreen};

use crate::mark::mark_of;
use crate::part::Screen;
use crate::place::{PartMaker, PartReader, Place, Standing, read, stand_to, take};
use counted_slot::Counted;
use pixel_format::Format;
use raster::Rect;
use std::alloc::{AllocError, Global};
use std::hint::spin_loop;
use std::marker::Model;

/// The most parts of a screen that are kept.
const MOST_PARTS: usize = 64;

/// How many positions are compressed in the time between two looks for a part that somebody makes.
const POSITIONS_A_LOOK: u64 = 64;

/// How long a processor pauses between two looks.
const PAUSES: usize = 64;

/// Parts of a screen: of up to 64 areas and formats, or of none. Contracts see the screen of each place for one.
#[derive(Drop)]
pub struct SharedParts {
    places: Vec<Place>,
}

impl Model for SharedParts {
    ghost use Rattle.std.specs.Prelude.{List};
    ghost use Rattle.shared_parts.specs.declared.part.Screen.{Screen};

    ghost Value = { List Screen };

    ghost view = { λ s. s.places.items };
}

/// Pauses for a moment.
fn pause() {
    for _ in 0..PAUSES {
        spin_loop();
    }
}

impl SharedParts {
    /// No places, and room for them. It fails where memory is refused.
    pub fn new(alloc: Global) -> Result<SharedParts, AllocError>
        ensures { IfOk result (λ parts. parts ≡ []) }
    {
        let places = Vec::with_capacity(alloc, MOST_PARTS)?;
        Ok(SharedParts { places })
    }

    /// No places, and no room for any: no part is ever shared.
    pub fn none(alloc: Global) -> SharedParts
        ensures { result ≡ [] }
    {
        SharedParts {
            places: Vec::new(alloc),
        }
    }

    /// Forgets the parts. None are shared until they are renewed.
    pub fn clear(&mut self)
        ensures { self.new ≡ [] }
    {
        self.places.clear();
    }

    /// Forgets the parts. From now on those of a screen of these colours are shared, which stand in rows of `width`, or
    /// none. It takes no memory.
    pub fn renew(&mut self, width: u64, colours: &Vec<u32>, are_shared: bool)
        ensures { ArePartsOf width colours.now.items self.new }
    {
        self.places.clear();
        if !are_shared {
            return;
        }
        let screen = Screen::new(width, colours);
        for _ in self.places.len()..self.places.capacity() {
            // Not refused: there is room.
            let _ = self.places.push(Counted::new(None, &screen));
        }
    }

    /// The right to make the part of an area in a format, where nobody has begun to make it and there is a place for it.
    pub fn claim(&self, format: &Format, area: &Rect) -> Option<PartMaker<'_>>
        ensures { (width : ℕ) (colours : List ℕ) → ArePartsOf width colours self.now
            → IfSome result (λ maker. IsScreen width colours maker.claim.tag) }
    {
        let mark = mark_of(format, area);
        for place in &self.places {
            match take(place, mark) {
                Ok(maker) => return Some(maker),
                Err(word) => {
                    if stand_to(word, mark) != Standing::Elsewhere {
                        return None;
                    }
                }
            }
        }
        None
    }

    /// The place of the part of this mark, if somebody has begun to make it.
    fn place(&self, mark: u64) -> Option<&Place>
        ensures { (width : ℕ) (colours : List ℕ) → ArePartsOf width colours self.now
            → IfSome result (λ place. IsScreen width colours place.now) }
    {
        self.places.iter().find(|place| stand_to(place.load(), mark) != Standing::Elsewhere)
    }

    /// The part of an area in a format, if somebody made it. While it is being made, it is looked for as long as that
    /// takes.
    pub fn find(&self, format: &Format, area: &Rect) -> Option<PartReader<'_>>
        ensures { (width : ℕ) (colours : List ℕ) → ArePartsOf width colours self.now
            → IfSome result (λ reader. IsScreen width colours reader.claim.tag) }
    {
        let mark = mark_of(format, area);
        let place = self.place(mark)?;
        for _ in 0..area.w.saturating_mul(area.h) / POSITIONS_A_LOOK {
            match stand_to(place.load(), mark) {
                Standing::Made => return read(place),
                Standing::BeingMade => pause(),
                Standing::Elsewhere => return None,
            }
        }
        None
    }
}
