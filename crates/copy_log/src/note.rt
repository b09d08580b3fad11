//! What a log keeps of one update.

ghost use Rattle.std.specs.Prelude.{◌≡◌, ℕ, ◌<◌, ◌≤◌, [], All, false, length, IfOk, IfErr};
ghost use Rattle.copy_log.specs.Notes.{is_among, is_marked};
ghost use Rattle.fault.specs.declared.kinds.Fault.TheVariants.{Memory};

use crate::copy_rect::CopyRect;
use arrayvec::ArrayVec;
use fault::Fault;
use std::alloc::Global;
use std::marker::Model;

/// How many copies are kept of an update: those that it begins with, up to this many.
pub const MOST_COPIES: usize = 16;

/// The copies that an update begins with, and for each tile whether its other paints touch it.
#[derive(Drop)]
pub(crate) struct Note {
    copies: ArrayVec<CopyRect, MOST_COPIES>,
    touched: Vec<bool>,
}

impl Model for Note {
    ghost use Rattle.copy_log.specs.Notes.{Noted};

    ghost Value = { Noted };

    ghost view = { λ n. record { copies = n.copies.items; touched = n.touched.items } };
}

/// Marks the tiles of these numbers, and no others.
fn mark_only(marks: &mut [bool], tiles: &[u64])
    requires { All (λ t. t < length marks.old) tiles.now }
    ensures { (t : ℕ) → t < length marks.old → is_marked marks.new t ≡ is_among tiles.now t }
{
    marks.fill(false);
    for t in tiles {
        marks[*t as usize] = true;
    }
}

impl Note {
    /// The note of an update that changes none of this many tiles. It fails where memory is refused (`Memory`).
    pub fn new(alloc: Global, count: usize) -> Result<Self, Fault>
        ensures ok { IfOk result (λ note. (note.copies ≡ []) × (length note.touched ≡ count)) }
        ensures err { IfErr result (λ fault. fault ≡ Memory) }
    {
        Ok(Note {
            copies: ArrayVec::new(),
            touched: vec![in alloc; false; count]?,
        })
    }

    /// Becomes the note of an update that begins with these copies, and whose other paints touch these tiles.
    pub fn write(&mut self, copies: &[CopyRect], tiles: &[u64])
        requires few { length copies.now ≤ MOST_COPIES }
        requires there { All (λ t. t < length self.old.touched) tiles.now }
        ensures count { length self.new.touched ≡ length self.old.touched }
        ensures copies { self.new.copies ≡ copies.now }
        ensures touched { (t : ℕ) → t < length self.old.touched
            → is_marked self.new.touched t ≡ is_among tiles.now t }
    {
        self.copies.clear();
        // Not refused: there is room.
        let _ = self.copies.try_extend_from_slice(copies);
        mark_only(self.touched.as_mut_slice(), tiles);
    }

    /// Becomes equal to a note of as many tiles.
    pub fn copy_from(&mut self, other: &Note)
        requires { length other.now.touched ≡ length self.old.touched }
        ensures { self.new ≡ other.now }
    {
        self.copies.clear();
        // Not refused: there is room.
        let _ = self.copies.try_extend_from_slice(other.copies.as_slice());
        self.touched
            .as_mut_slice()
            .copy_from_slice(other.touched.as_slice());
    }

    /// The copies that the update begins with.
    pub fn copies(&self) -> &[CopyRect]
        ensures value { result.now ≡ self.now.copies }
        ensures few { length result.now ≤ MOST_COPIES }
    {
        self.copies.as_slice()
    }

    /// For each tile whether other paints touch it.
    pub fn touched(&self) -> &[bool]
        ensures { result.now ≡ self.now.touched }
    {
        self.touched.as_slice()
    }
}
