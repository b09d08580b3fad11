//! The log of a host's copies.

ghost use Rattle.std.specs.Prelude.{◌&&◌, ◌≡◌, ◌≢◌, ℕ, ◌+◌, ◌<◌, ◌≤◌, ◌^◌, ◌%◌, [], ◌∷◌, ◌++◌, All, true, not, take, drop, length, slice_index_or, List, IfOk, IfErr};
ghost use Rattle.std.specs.List.{list_any};
ghost use Rattle.copy_log.specs.Notes.{IsSameLog, IsSameScreen, LogStands, is_among, nothing, paints, passed_in, reaches};
ghost use Rattle.copy_log.specs.Passed.{BeginsWith, IsSamePassed, has_copy, passed};
ghost use Rattle.copy_log.specs.declared.note.TheConstants.{MOST_COPIES};
ghost use Rattle.copy_log.specs.declared.passed.TheConstants.{MOST_PASSED};
ghost use Rattle.fault.specs.declared.kinds.Fault.TheVariants.{Memory};
ghost use Rattle.raster.specs.Screen.{IsWithin, tile_count};
ghost use Rattle.raster.specs.Size.{IsScreenSize};
ghost use Rattle.raster.specs.Update.{Update};

use crate::copy_rect::CopyRect;
use crate::held::HeldTiles;
use crate::note::Note;
use crate::passed::Passed;
use fault::Fault;
use raster::{Rect, tile_count};
use std::alloc::Global;
use std::marker::Model;

/// Of how many updates a log keeps notes: of the last so many.
pub const KEPT: u64 = 4;

/// Of the last updates of a host, the copies that each began with, and which tiles its other paints touched. All its
/// memory is taken when it is made.
#[derive(Drop)]
pub struct CopyLog {
    width: u64,
    height: u64,
    number: u64,
    /// The note of the update after the first k stands at k % KEPT, until another takes its place.
    notes: Vec<Note>,
}

impl Model for CopyLog {
    ghost use Rattle.std.specs.Prelude.{◌≡◌, ℕ, ◌<◌, length, slice_index_or};
    ghost use Rattle.copy_log.specs.Notes.{Log, nothing};
    ghost use Rattle.raster.specs.Screen.{tile_count};
    ghost use Rattle.raster.specs.Size.{IsScreenSize};

    ghost Value = { Log };

    ghost view = { λ l. record {
      width = l.width;
      height = l.height;
      number = l.number;
      notes = l.notes.items;
    } };

    ghost invariant = { λ l. IsScreenSize l.width l.height × (length l.notes.items ≡ 4)
        × ((k : ℕ) → k < 4 → length (slice_index_or l.notes.items k nothing).touched
        ≡ tile_count l.width l.height) };
}

/// The place of the note of the update after the first `k`.
fn place(k: u64) -> usize
    ensures { result ≡ k % KEPT }
{
    (k % KEPT) as usize
}

/// Notes of updates that change none of this many tiles.
fn empty_notes(alloc: Global, count: usize) -> Result<Vec<Note>, Fault>
    ensures len { IfOk result (λ notes. length notes.items ≡ 4) }
    ensures each { (k : ℕ) → IfOk result (λ notes. k < 4
        → length (slice_index_or notes.items k nothing).touched ≡ count) }
    ensures err { IfErr result (λ fault. fault ≡ Memory) }
{
    let mut notes = Vec::with_capacity(alloc, KEPT as usize)?;
    for _ in 0..KEPT {
        notes.push(Note::new(alloc, count)?)?;
    }
    Ok(notes)
}

/// Takes over the notes of the updates after the first `from`, up to that after the first `to - 1`. All notes are of
/// one screen.
fn take_notes(notes: &mut [Note], newer: &[Note], from: u64, to: u64)
    requires places { (length notes.old ≡ 4) × (length newer.now ≡ 4) }
    requires screen { (j : ℕ) → j < 4 → length (slice_index_or newer.now j nothing).touched
        ≡ length (slice_index_or notes.old j nothing).touched }
    ensures taken { (k : ℕ) → from ≤ k → k < to → to ≤ k + KEPT
        → slice_index_or notes.new (k % KEPT) nothing
        ≡ slice_index_or newer.now (k % KEPT) nothing }
    ensures others { (j : ℕ) → j < 4 → ((k : ℕ) → from ≤ k → k < to → k % KEPT ≢ j)
        → slice_index_or notes.new j nothing ≡ slice_index_or notes.old j nothing }
    ensures screen { (j : ℕ) → j < 4 → length (slice_index_or notes.new j nothing).touched
        ≡ length (slice_index_or notes.old j nothing).touched }
{
    for k in from..to {
        notes[place(k)].copy_from(&newer[place(k)]);
    }
}

impl CopyLog {
    /// The log of no updates of a screen of `width` by `height` pixels. It fails where memory is refused (`Memory`).
    pub fn new(alloc: Global, width: u64, height: u64) -> Result<Self, Fault>
        requires { IsScreenSize width height }
        ensures size { IfOk result (λ log. (log.width ≡ width) × (log.height ≡ height)) }
        ensures stands { IfOk result (λ log. LogStands log []) }
        ensures err { IfErr result (λ fault. fault ≡ Memory) }
    {
        let notes = empty_notes(alloc, tile_count(width, height) as usize)?;
        Ok(CopyLog {
            width,
            height,
            number: 0,
            notes,
        })
    }

    /// The width and height of the screen in pixels.
    pub fn size(&self) -> (u64, u64)
        ensures { (result.0 ≡ self.now.width) × (result.1 ≡ self.now.height) }
    {
        (self.width, self.height)
    }

    /// The number of the last update, from 1; 0 before the first.
    pub fn number(&self) -> u64
        ensures { result ≡ self.now.number }
    {
        self.number
    }

    /// Whether it has notes of all updates after this number.
    pub fn reaches(&self, since: u64) -> bool
        ensures { result ≡ reaches self.now since }
    {
        since <= self.number && self.number - since <= KEPT
    }

    /// Whether it reaches back to `since`, and an update after that begins with a copy. Where none does, nothing can be
    /// passed on, and `pass` may be spared.
    pub fn has_copies(&self, since: u64) -> bool
        ensures { (us : List Update) → LogStands self.now us
            → result ≡ (reaches self.now since && list_any has_copy (drop since us)) }
    {
        if !self.reaches(since) {
            return false;
        }
        for k in since..self.number {
            if !self.notes[place(k)].copies().is_empty() {
                return true;
            }
        }
        false
    }

    /// Notes the next update. It begins with these copies, 16 at most, and its other paints, which are no copies, touch
    /// the tiles of these numbers. A Bell or a text has neither. It takes no memory.
    pub fn note(&mut self, copies: &[CopyRect], tiles: &[u64])
        requires number { self.old.number < 2 ^ 62 }
        requires few { length copies.now ≤ MOST_COPIES }
        requires there { All (λ t. t < tile_count self.old.width self.old.height) tiles.now }
        ensures size { IsSameLog self.old self.new }
        ensures number { self.new.number ≡ self.old.number + 1 }
        ensures stands { (us : List Update) (u : Update) → LogStands self.old us
            → BeginsWith self.old.width self.old.height (paints copies.now) (is_among tiles.now) u
            → LogStands self.new (us ++ u ∷ []) }
    {
        self.notes[place(self.number)].write(copies, tiles);
        self.number += 1;
    }

    /// Takes over what a newer log of the same screen has. This log has to be the one of the newer log's first updates.
    /// Only notes of later updates are copied. It takes no memory.
    pub fn catch_up(&mut self, newer: &CopyLog)
        requires { IsSameLog self.old newer.now }
        ensures size { IsSameLog self.old self.new }
        ensures number { self.new.number ≡ newer.now.number }
        ensures stands { (us : List Update) → LogStands self.old (take self.old.number us)
            → LogStands newer.now us → LogStands self.new us }
    {
        let first = self.number.max(newer.number.saturating_sub(KEPT));
        take_notes(
            self.notes.as_mut_slice(),
            newer.notes.as_slice(),
            first,
            newer.number,
        );
        self.number = newer.number;
    }

    /// Becomes equal to another log of the same screen. It takes no memory.
    pub fn copy_from(&mut self, other: &CopyLog)
        requires { IsSameLog self.old other.now }
        ensures { self.new ≡ other.now }
    {
        take_notes(self.notes.as_mut_slice(), other.notes.as_slice(), 0, KEPT);
        self.number = other.number;
    }

    /// Fills `into` with what is passed on to a viewer of this area that holds these tiles as they were after update
    /// `since`, and lacks the others. It answers false, and leaves `into` as it is, where the log doesn't reach back
    /// so far. It takes no memory.
    pub fn pass<T: HeldTiles>(&self, since: u64, area: &Rect, held: &T, into: &mut Passed) -> bool
        requires within { IsWithin area.now self.now.width self.now.height }
        requires screen { (T.width held.now ≡ self.now.width)
            × (T.height held.now ≡ self.now.height) }
        requires room { (into.old.width ≡ self.now.width)
            × (into.old.height ≡ self.now.height) }
        ensures reaches { result ≡ reaches self.now since }
        ensures size { IsSameScreen into.old into.new }
        ensures few { result ≡ true → length into.new.copies ≤ MOST_PASSED }
        ensures passed { (us : List Update) → result ≡ true → LogStands self.now us
            → IsSamePassed self.now.width self.now.height
            (passed self.now.width self.now.height area.now (λ t. not (T.held held.now t))
            (drop since us)) (passed_in into.new) }
    {
        if !self.reaches(since) {
            return false;
        }
        into.begin(held);
        for k in since..self.number {
            into.add(area, &self.notes[place(k)]);
        }
        true
    }
}
