//! What is passed on to a viewer.

ghost use Rattle.std.specs.Prelude.{◌≡◌, ℕ, ◌+◌, ◌<◌, ◌≤◌, [], not, ◌||◌, length, IfOk, IfErr};
ghost use Rattle.std.specs.List.{All};
ghost use Rattle.copy_log.specs.Notes.{IsNoteOf, IsOnScreen, IsSameScreen, is_marked, paint_of, paints, passed_in};
ghost use Rattle.copy_log.specs.Passed.{IsSamePassed, can_pass, is_held, passed_after_paint, passed_after_paints};
ghost use Rattle.fault.specs.declared.kinds.Fault.TheVariants.{Memory};
ghost use Rattle.raster.specs.Screen.{IsWithin, tile_count, tiles_across};
ghost use Rattle.raster.specs.Size.{IsScreenSize};
ghost use Rattle.raster.specs.Update.{Update, paints_of};

use crate::copy_rect::CopyRect;
use crate::held::HeldTiles;
use crate::met::mark_met;
use crate::note::Note;
use arrayvec::ArrayVec;
use fault::Fault;
use raster::{Rect, tile_count};
use std::alloc::Global;
use std::marker::Model;
use tiles::{DueTiles, Walk};

/// How many copies are passed on at most: all that a log keeps.
pub const MOST_PASSED: usize = 64;

/// The copies of the host that a viewer is sent, in order, and the tiles that it lacks behind them. Those tiles count
/// as due: a walk over them brings what the viewer is sent besides the copies.
#[derive(Drop)]
pub struct Passed {
    width: u64,
    height: u64,
    copies: ArrayVec<CopyRect, MOST_PASSED>,
    lacks: Vec<bool>,
}

impl Model for Passed {
    ghost use Rattle.std.specs.Prelude.{◌≡◌, length};
    ghost use Rattle.std.specs.List.{All};
    ghost use Rattle.copy_log.specs.Notes.{IsOnScreen, PassedOn};
    ghost use Rattle.raster.specs.Screen.{tile_count};
    ghost use Rattle.raster.specs.Size.{IsScreenSize};

    ghost Value = { PassedOn };

    ghost view = { λ p. record {
      width = p.width;
      height = p.height;
      copies = p.copies.items;
      lacks = p.lacks.items;
    } };

    ghost invariant = { λ p. IsScreenSize p.width p.height
        × (length p.lacks.items ≡ tile_count p.width p.height)
        × All (IsOnScreen p.width p.height) p.copies.items };
}

/// Marks each tile that isn't held.
fn mark_lacked<T: HeldTiles>(marks: &mut [bool], held: &T)
    requires { length marks.old ≡ tile_count (T.width held.now) (T.height held.now) }
    ensures { (t : ℕ) → t < length marks.old → is_marked marks.new t ≡ not (T.held held.now t) }
{
    for t in 0..marks.len() {
        marks[t] = !held.is_held(t as u64);
    }
}

/// Marks each tile that has a mark in either list.
fn mark_both(marks: &mut [bool], others: &[bool])
    requires { length others.now ≡ length marks.old }
    ensures { (t : ℕ) → t < length marks.old
        → is_marked marks.new t ≡ (is_marked marks.old t || is_marked others.now t) }
{
    for t in 0..marks.len() {
        marks[t] = marks[t] || others[t];
    }
}

impl Passed {
    /// Room for what is passed on of a screen of `width` by `height` pixels: no copies, and no tile is lacked. It fails
    /// where memory is refused (`Memory`).
    pub fn new(alloc: Global, width: u64, height: u64) -> Result<Self, Fault>
        requires { IsScreenSize width height }
        ensures size { IfOk result (λ passed. (passed.width ≡ width) × (passed.height ≡ height)) }
        ensures none { IfOk result (λ passed. passed.copies ≡ []) }
        ensures err { IfErr result (λ fault. fault ≡ Memory) }
    {
        let lacks = vec![in alloc; false; tile_count(width, height) as usize]?;
        Ok(Passed {
            width,
            height,
            copies: ArrayVec::new(),
            lacks,
        })
    }

    /// The width and height of the screen in pixels.
    pub fn size(&self) -> (u64, u64)
        ensures { (result.0 ≡ self.now.width) × (result.1 ≡ self.now.height) }
    {
        (self.width, self.height)
    }

    /// The copies that the viewer is sent, in order.
    pub fn copies(&self) -> &[CopyRect]
        ensures value { result.now ≡ self.now.copies }
        ensures few { length result.now ≤ MOST_PASSED }
        ensures on { All (IsOnScreen self.now.width self.now.height) result.now }
    {
        self.copies.as_slice()
    }

    /// Whether the viewer lacks tile `t` behind the copies.
    pub fn is_lacked(&self, t: u64) -> bool
        requires { t < tile_count self.now.width self.now.height }
        ensures { result ≡ is_marked self.now.lacks t }
    {
        self.lacks[t as usize]
    }

    /// There are no copies any longer. Which tiles are lacked stays.
    pub fn clear(&mut self)
        ensures size { IsSameScreen self.old self.new }
        ensures copies { self.new.copies ≡ [] }
        ensures lacks { self.new.lacks ≡ self.old.lacks }
    {
        self.copies.clear();
    }

    /// Begins with no copies. Whatever isn't held is lacked.
    pub(crate) fn begin<T: HeldTiles>(&mut self, held: &T)
        requires { (T.width held.now ≡ self.old.width) × (T.height held.now ≡ self.old.height) }
        ensures size { IsSameScreen self.old self.new }
        ensures copies { self.new.copies ≡ [] }
        ensures lacks { (t : ℕ) → t < tile_count self.old.width self.old.height
            → is_marked self.new.lacks t ≡ not (T.held held.now t) }
    {
        self.copies.clear();
        mark_lacked(self.lacks.as_mut_slice(), held);
    }

    /// Whether all of a rectangle is held. It looks only at the tiles that the rectangle meets.
    fn is_held(&self, area: &Rect) -> bool
        requires { IsWithin area.now self.now.width self.now.height }
        ensures { result
            ≡ is_held self.now.width self.now.height (is_marked self.now.lacks) area.now }
    {
        Walk::new(area, self.width, self.height)
            .next(self)
            .is_none()
    }

    /// Whether a copy can be passed on to a viewer of this area.
    fn can_pass(&self, area: &Rect, copy: &CopyRect) -> bool
        requires { IsWithin area.now self.now.width self.now.height }
        ensures { result ≡ can_pass self.now.width self.now.height area.now
            (is_marked self.now.lacks) copy.now.area copy.now.x copy.now.y }
    {
        let source = copy.source();
        copy.area.lies_in(area) && source.lies_in(area) && self.is_held(&source)
    }

    /// Passes a copy on to a viewer of this area, or else notes that what it touches is lacked.
    fn pass_copy(&mut self, area: &Rect, copy: &CopyRect)
        requires within { IsWithin area.now self.old.width self.old.height }
        requires room { length self.old.copies < MOST_PASSED }
        ensures size { IsSameScreen self.old self.new }
        ensures few { length self.new.copies ≤ length self.old.copies + 1 }
        ensures passed { IsSamePassed self.old.width self.old.height
            (passed_after_paint self.old.width self.old.height area.now (passed_in self.old)
            (paint_of copy.now)) (passed_in self.new) }
    {
        if self.can_pass(area, copy) {
            self.copies.push(*copy);
        } else {
            mark_met(
                self.lacks.as_mut_slice(),
                self.width,
                self.height,
                &copy.area,
            );
        }
    }

    /// Goes through several copies, in order.
    fn pass_copies(&mut self, area: &Rect, copies: &[CopyRect])
        requires within { IsWithin area.now self.old.width self.old.height }
        requires room { length self.old.copies + length copies.now ≤ MOST_PASSED }
        ensures size { IsSameScreen self.old self.new }
        ensures few { length self.new.copies ≤ length self.old.copies + length copies.now }
        ensures passed { IsSamePassed self.old.width self.old.height
            (passed_after_paints self.old.width self.old.height area.now (passed_in self.old)
            (paints copies.now)) (passed_in self.new) }
    {
        for copy in copies {
            self.pass_copy(area, copy);
        }
    }

    /// Goes through an update, by its note.
    pub(crate) fn add(&mut self, area: &Rect, note: &Note)
        requires within { IsWithin area.now self.old.width self.old.height }
        requires room { length self.old.copies + 16 ≤ MOST_PASSED }
        requires tiles { length note.now.touched ≡ tile_count self.old.width self.old.height }
        ensures size { IsSameScreen self.old self.new }
        ensures few { length self.new.copies ≤ length self.old.copies + 16 }
        ensures passed { (u : Update) → IsNoteOf self.old.width self.old.height note.now u
            → IsSamePassed self.old.width self.old.height
            (passed_after_paints self.old.width self.old.height area.now (passed_in self.old)
            (paints_of u)) (passed_in self.new) }
    {
        self.pass_copies(area, note.copies());
        mark_both(self.lacks.as_mut_slice(), note.touched());
    }
}

impl DueTiles for Passed {
    ghost width = { λ s. s.width };

    ghost height = { λ s. s.height };

    ghost due = { λ s. is_marked s.lacks };

    fn is_due(&self, t: u64) -> bool {
        self.is_lacked(t)
    }

    fn may_have_due(&self, _row: u64) -> bool {
        true
    }
}
