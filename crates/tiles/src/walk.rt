//! Walks over the runs of due tiles.

ghost use Rattle.std.specs.Prelude.{◌≡◌, ℕ, ◌+◌, ◌*◌, ◌/◌, ◌%◌, ◌<◌, ◌≤◌, ◌&&◌, ◌⊎◌, Bool, true, false, IfSome, IfNone};
ghost use Rattle.raster.specs.Screen.{IsWithin, common, tile_count, tiles_across};
ghost use Rattle.raster.specs.Size.{IsScreenSize};
ghost use Rattle.tiles.specs.Walk.{IsDone, IsFound, IsNextRun, IsRowRun, IsSameWalk, is_in, runs_left, tiles_rect, with_run};

use crate::covered::{tiles_along, tiles_met};
use raster::{Rect, TILE_SIDE};
use std::marker::Model;

/// The tiles of a screen, of which some are due.
pub trait DueTiles {
    /// The width of the screen in pixels.
    ghost width: { Self → ℕ };

    /// The height of the screen in pixels.
    ghost height: { Self → ℕ };

    /// The tile of this number is due.
    ghost due: { Self → ℕ → Bool };

    /// Whether tile `t` is due.
    fn is_due(&self, t: u64) -> bool
        requires { t < tile_count (width self.now) (height self.now) }
        ensures { result ≡ due self.now t };

    /// False only where no tile of a row of tiles is due, so that a walk may leave the row out.
    fn may_have_due(&self, row: u64) -> bool
        requires { row < tiles_across (height self.now) }
        ensures { (t : ℕ) → result ≡ false → row * tiles_across (width self.now) ≤ t
            → t < row * tiles_across (width self.now) + tiles_across (width self.now)
            → due self.now t ≡ false };
}

/// Due tiles that stand side by side in one row of tiles.
#[derive(Clone, Copy, Debug, PartialEq, Eq)]
pub struct Run {
    /// The number of the first tile.
    pub first: u64,
    /// How many tiles there are.
    pub count: u64,
    /// The part of the area asked for that lies in them, in pixels.
    pub area: Rect,
}

/// How far a walk over the runs of an area has come. It takes no memory, and doesn't borrow the tiles, which each step
/// is lent.
#[derive(Drop)]
pub struct Walk {
    width: u64,
    height: u64,
    area: Rect,
    met: Rect,
    next: u64,
}

impl Model for Walk {
    ghost use Rattle.std.specs.Prelude.{◌≡◌, ℕ, ◌<◌, ◌/◌, ◌%◌};
    ghost use Rattle.raster.specs.Screen.{IsWithin, holds, meets, tile_count, tile_rect, tiles_across};
    ghost use Rattle.raster.specs.Size.{IsScreenSize};
    ghost use Rattle.tiles.specs.Walk.{Walking};

    ghost Value = { Walking };

    ghost view = { λ k.
        record { width = k.width; height = k.height; area = k.area; next = k.next } };

    ghost invariant = { λ k. IsScreenSize k.width k.height × IsWithin k.area k.width k.height
        × IsWithin k.met (tiles_across k.width) (tiles_across k.height)
        × ((t : ℕ) → t < tile_count k.width k.height
        → holds k.met (t % tiles_across k.width) (t / tiles_across k.width)
        ≡ meets k.area (tile_rect k.width k.height t)) };
}

/// The first due tile from `from` on, before `to`, if there is one.
fn first_due<T: DueTiles>(tiles: &T, from: u64, to: u64) -> Option<u64>
    requires { to ≤ tile_count (T.width tiles.now) (T.height tiles.now) }
    ensures some { IfSome result (λ t. (from ≤ t) × (t < to) × (T.due tiles.now t ≡ true)
        × ((k : ℕ) → from ≤ k → k < t → T.due tiles.now k ≡ false)) }
    ensures none { (k : ℕ) → IfNone result (from ≤ k → k < to → T.due tiles.now k ≡ false) }
{
    for t in from..to {
        if tiles.is_due(t) {
            return Some(t);
        }
    }
    None
}

/// The first tile from `from` on that isn't due, or `to` where all before `to` are due.
fn end_of_due<T: DueTiles>(tiles: &T, from: u64, to: u64) -> u64
    requires there { to ≤ tile_count (T.width tiles.now) (T.height tiles.now) }
    requires order { from ≤ to }
    ensures within { (from ≤ result) × (result ≤ to) }
    ensures due { (k : ℕ) → from ≤ k → k < result → T.due tiles.now k ≡ true }
    ensures end { result < to → T.due tiles.now result ≡ false }
{
    for t in from..to {
        if !tiles.is_due(t) {
            return t;
        }
    }
    to
}

/// The first run in a row of tiles, from tile `next` on, of the tiles that lie in `met`, a rectangle of tiles: its
/// first tile, and the tile after its last.
fn find_in_row<T: DueTiles>(
    tiles: &T,
    met: &Rect,
    across: u64,
    row: u64,
    next: u64,
) -> Option<(u64, u64)>
    requires size { IsScreenSize (T.width tiles.now) (T.height tiles.now) }
    requires across { across ≡ tiles_across (T.width tiles.now) }
    requires met { IsWithin met.now across (tiles_across (T.height tiles.now)) }
    requires row { (met.now.y ≤ row) × (row < met.now.y + met.now.h) }
    ensures some { IfSome result (λ run.
        IsRowRun (is_in (T.due tiles.now) met.now across) (row * across) across next run.0 run.1) }
    ensures none { (t : ℕ) → IfNone result (next ≤ t → row * across ≤ t → t < row * across + across
        → is_in (T.due tiles.now) met.now across t ≡ false) }
{
    if !tiles.may_have_due(row) {
        return None;
    }
    let left = row * across + met.x;
    let right = left + met.w;
    match first_due(tiles, left.max(next), right) {
        None => None,
        Some(start) => Some((start, end_of_due(tiles, start + 1, right))),
    }
}

/// The first run of the tiles in `met`, over all of its rows, as `find_in_row` gives it.
fn find<T: DueTiles>(tiles: &T, met: &Rect, across: u64, next: u64) -> Option<(u64, u64)>
    requires size { IsScreenSize (T.width tiles.now) (T.height tiles.now) }
    requires across { across ≡ tiles_across (T.width tiles.now) }
    requires met { IsWithin met.now across (tiles_across (T.height tiles.now)) }
    ensures some { IfSome result (λ run. IsFound (is_in (T.due tiles.now) met.now across) across
        (tiles_across (T.height tiles.now)) next run.0 run.1) }
    ensures none { (t : ℕ)
        → IfNone result (next ≤ t → t < tile_count (T.width tiles.now) (T.height tiles.now)
        → is_in (T.due tiles.now) met.now across t ≡ false) }
{
    for row in met.y.max(next / across)..met.y + met.h {
        if let Some(run) = find_in_row(tiles, met, across, row, next) {
            return Some(run);
        }
    }
    None
}

impl Walk {
    /// A walk over the runs of an area on a screen of `width` by `height` pixels, at its beginning.
    pub fn new(area: &Rect, width: u64, height: u64) -> Self
        requires size { IsScreenSize width height }
        requires within { IsWithin area.now width height }
        ensures { result ≡ record { width = width; height = height; area = area.now; next = 0 } }
    {
        Walk {
            width,
            height,
            area: *area,
            met: tiles_met(area, width, height),
            next: 0,
        }
    }

    /// The next run, and none once all were brought. The tiles have to be those of the walk's screen.
    pub fn next<T: DueTiles>(&mut self, tiles: &T) -> Option<Run>
        requires { (T.width tiles.now ≡ self.old.width) × (T.height tiles.now ≡ self.old.height) }
        ensures same { IsSameWalk self.old self.new }
        ensures run { IfSome result (λ run.
            IsNextRun self.old (T.due tiles.now) run × (self.new.next ≡ run.first + run.count)) }
        ensures done { IfNone result
            (IsDone self.old (T.due tiles.now) × IsDone self.new (T.due tiles.now)) }
        ensures left { runs_left self.old (T.due tiles.now)
            ≡ with_run result (runs_left self.new (T.due tiles.now)) }
    {
        let across = tiles_along(self.width);
        match find(tiles, &self.met, across, self.next) {
            None => {
                self.next = across * tiles_along(self.height);
                None
            }
            Some((first, end)) => {
                self.next = end;
                Some(self.run(first, end - first))
            }
        }
    }

    /// This many tiles of a row, from tile `first` on, as a run of the area.
    fn run(&self, first: u64, count: u64) -> Run
        requires there { first < tile_count self.now.width self.now.height }
        requires count { count ≤ 256 }
        ensures { result ≡ record {
          first = first;
          count = count;
          area = common self.now.area (tiles_rect self.now.width first count);
        } }
    {
        let across = tiles_along(self.width);
        let tiles = Rect {
            x: first % across * TILE_SIDE,
            y: first / across * TILE_SIDE,
            w: count * TILE_SIDE,
            h: TILE_SIDE,
        };
        Run {
            first,
            count,
            area: self.area.common(&tiles),
        }
    }
}
