//! An answer to a request: a FramebufferUpdate that is written one rectangle at a time (RFC 6143, 7.6.1).

ghost use Rattle.std.specs.Prelude.{◌≡◌, ◌+◌, ◌*◌, ◌<◌, ◌≤◌, ◌^◌, ◌++◌, ◌==◌, [], ◌&&◌, length, take, IfNone, IfSome};
ghost use Rattle.raster.specs.Screen.{IsWithin};
ghost use Rattle.raster.specs.declared.tile.TheConstants.{TILE_SIDE};
ghost use Rattle.reflect_core.specs.Source.{copies_in, marked};
ghost use Rattle.tiles.specs.Touched.{runs};
ghost use Rattle.tiles.specs.Walk.{runs_left};
ghost use Rattle.update_encoder.specs.Answer.{answer_bytes};
ghost use Rattle.update_encoder.specs.Coming.{AnswerStands, IsSameAnswer, WroteNext, coming, front_bytes, shown};
ghost use Rattle.update_encoder.specs.Style.{style_in};
ghost use Rattle.update_encoder.specs.Written.{IsFront};

use crate::front::write_front;
use crate::rectangle::write_rectangle;
use crate::style::Style;
use raster::Rect;
use reflect_core::Cut;
use std::marker::Model;
use tiles::Walk;

/// A FramebufferUpdate that is written part by part: its front, which is its header and the copies of the host that the
/// cut passes on, and then one rectangle at a time, what the cut shows in the tiles of an area that are still due, run
/// by run (RFC 6143, 7.6.1). It takes no memory, and holds no borrow of the cut, which is lent to each step.
#[derive(Drop)]
pub struct Answer {
    walk: Walk,
    style: Style,
    /// Whether a rectangle may be written by CopyRect (RFC 6143, 7.7.2).
    may_copy: bool,
    /// The rectangle that was written last, or none before the first.
    before: Option<Rect>,
    /// How many rectangles there are in all behind the copies.
    count: u64,
}

impl Model for Answer {
    ghost use Rattle.std.specs.Prelude.{◌≤◌, ◌^◌};
    ghost use Rattle.reflect_core.specs.Asked.{LiesOn};
    ghost use Rattle.update_encoder.specs.Coming.{Answering};
    ghost use Rattle.update_encoder.specs.Style.{style_in};

    ghost Value = { Answering };

    ghost view = { λ a. record {
      walk = a.walk;
      style = style_in a.style;
      may_copy = a.may_copy;
      before = a.before;
      count = a.count;
    } };

    ghost invariant = { λ a. (a.count ≤ 2 ^ 15) × LiesOn a.walk.width a.walk.height a.before };
}

/// How many runs of due tiles a walk has left.
fn count_runs(cut: &Cut, mut walk: Walk) -> u64
    requires size { (walk.width ≡ cut.now.width) × (walk.height ≡ cut.now.height) }
    requires few { length (runs_left walk (marked cut.now)) ≤ 2 ^ 15 }
    ensures { result ≡ length (runs_left walk (marked cut.now)) }
{
    let mut count = 0;
    while walk.next(cut).is_some() {
        count += 1;
    }
    count
}

impl Answer {
    /// An answer of the copies that a cut passes on, and of what it shows in the tiles of an area that are still due,
    /// in a style, none of whose rectangles is written yet. For these CopyRect is used where the viewer takes it and
    /// each tile that was due was sent to it before.
    pub fn start(cut: &Cut, area: &Rect, style: Style) -> Self
        requires { IsWithin area.now cut.now.width cut.now.height }
        ensures stands { AnswerStands result cut.now }
        ensures count { result.count
            ≡ length (runs cut.now.width cut.now.height area.now (marked cut.now)) }
        ensures bytes { front_bytes (copies_in cut.now) result.count ++ coming result cut.now
            ≡ answer_bytes (style_in style) (shown cut.now) (copies_in cut.now)
            cut.now.all_were_sent (runs cut.now.width cut.now.height area.now
            (marked cut.now)) }
    {
        Answer {
            walk: Walk::new(area, cut.width, cut.height),
            style,
            may_copy: style.choice.copy && cut.all_were_sent,
            before: None,
            count: count_runs(cut, Walk::new(area, cut.width, cut.height)),
        }
    }

    /// How many rectangles it has in all behind the copies, written or not.
    pub fn count(&self) -> u64
        ensures value { result ≡ self.now.count }
        ensures few { result ≤ 2 ^ 15 }
    {
        self.count
    }

    /// Whether it has neither a copy nor a rectangle. The cut has to be the one that it was started with.
    pub fn is_empty(&self, cut: &Cut) -> bool
        ensures { result ≡ ((self.now.count == 0) && (length (copies_in cut.now) == 0)) }
    {
        self.count == 0 && cut.passed.copies().is_empty()
    }

    /// Writes the front of the answer to the front of `out`, and answers how many bytes it has: the header, and the
    /// copies that the cut passes on. The cut has to be the one that the answer was started with, and `out` has
    /// `LONGEST_FRONT` bytes at least.
    pub fn write_front(&self, cut: &Cut, out: &mut [u8]) -> usize
        requires room { 1028 ≤ length out.old }
        ensures written { IsFront (front_bytes (copies_in cut.now) self.now.count) out.new result }
        ensures some { 4 ≤ result }
        ensures room { result ≤ 1028 }
    {
        write_front(cut.passed.copies(), self.count, out)
    }

    /// Writes the next rectangle to the front of `out`, and answers how many bytes it has; `None` where all are
    /// written. The cut has to be the one that the answer was started with. `values` is room for the pixel values of
    /// one run.
    pub fn next(&mut self, cut: &Cut, values: &mut [u32], out: &mut [u8]) -> Option<usize>
        requires stands { AnswerStands self.old cut.now }
        requires values { TILE_SIDE * cut.now.width ≤ length values.old }
        requires room { 12 + 64 * cut.now.width ≤ length out.old }
        ensures stands { AnswerStands self.new cut.now }
        ensures same { IsSameAnswer self.old self.new }
        ensures some { IfSome result (λ n. (0 < n) × (n ≤ 12 + 64 * cut.now.width)
            × WroteNext self.old self.new cut.now (take n out.new)) }
        ensures none { IfNone result
            ((coming self.old cut.now ≡ []) × (coming self.new cut.now ≡ [])) }
    {
        let run = self.walk.next(cut)?;
        let before = self.before;
        self.before = Some(run.area);
        Some(write_rectangle(
            &self.style,
            cut,
            self.may_copy,
            before,
            &run.area,
            values,
            out,
        ))
    }
}
