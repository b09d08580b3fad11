//! Marks the tiles that a rectangle meets.

ghost use Rattle.std.specs.Prelude.{◌≡◌, ℕ, ◌+◌, ◌<◌, ◌≤◌, ◌||◌, true, length};
ghost use Rattle.raster.specs.Screen.{IsWithin, meets, tile_count, tile_rect};
ghost use Rattle.raster.specs.Size.{IsScreenSize};
ghost use Rattle.copy_log.specs.Notes.{is_marked};

use raster::Rect;
use tiles::{DueTiles, Walk};

/// All tiles of a screen: a walk over these brings each tile that an area meets.
#[derive(Clone, Copy)]
struct AllTiles {
    width: u64,
    height: u64,
}

impl DueTiles for AllTiles {
    ghost width = { λ s. s.width };

    ghost height = { λ s. s.height };

    ghost due = { λ s t. true };

    fn is_due(&self, _t: u64) -> bool {
        true
    }

    fn may_have_due(&self, _row: u64) -> bool {
        true
    }
}

/// Marks some tiles that stand one after the other.
fn mark_part(marks: &mut [bool], from: usize, count: usize)
    requires { from + count ≤ length marks.old }
    ensures inside { (k : ℕ) → from ≤ k → k < from + count → is_marked marks.new k ≡ true }
    ensures before { (k : ℕ) → k < from → is_marked marks.new k ≡ is_marked marks.old k }
    ensures behind { (k : ℕ) → from + count ≤ k → is_marked marks.new k ≡ is_marked marks.old k }
{
    marks[from..from + count].fill(true);
}

/// Marks each tile of a screen of `width` by `height` that an area of it meets, and looks at no others.
fn mark_area(marks: &mut [bool], width: u64, height: u64, area: &Rect)
    requires size { IsScreenSize width height }
    requires all { length marks.old ≡ tile_count width height }
    requires within { IsWithin area.now width height }
    ensures { (t : ℕ) → t < tile_count width height
        → is_marked marks.new t
        ≡ (is_marked marks.old t || meets area.now (tile_rect width height t)) }
{
    let all = AllTiles { width, height };
    let mut walk = Walk::new(area, width, height);
    while let Some(run) = walk.next(&all) {
        mark_part(marks, run.first as usize, run.count as usize);
    }
}

/// Marks each tile of a screen of `width` by `height` that a rectangle meets. The rectangle may reach beyond the
/// screen.
pub(crate) fn mark_met(marks: &mut [bool], width: u64, height: u64, area: &Rect)
    requires size { IsScreenSize width height }
    requires all { length marks.old ≡ tile_count width height }
    ensures { (t : ℕ) → t < tile_count width height
        → is_marked marks.new t
        ≡ (is_marked marks.old t || meets area.now (tile_rect width height t)) }
{
    let part = area.clip(width, height);
    if part.is_empty() {
        return;
    }
    mark_area(marks, width, height, &part);
}
