//! What a viewer has of each tile.

ghost use Rattle.std.specs.Prelude.{◌≡◌, ℕ, ◌+◌, ◌*◌, ◌<◌, ◌≤◌, [], ◌∷◌, List, false, length, IfOk, IfErr, slice_get, Some, if◌then◌else◌};
ghost use Rattle.raster.specs.Screen.{IsWithin, fill, tile_count, tiles_across};
ghost use Rattle.raster.specs.Size.{IsScreenSize};
ghost use Rattle.tiles.specs.Have.{AtMost, HaveStands, IsSameSize, entry, lowered, sent_at};
ghost use Rattle.raster.specs.declared.size.Size as sizes;
ghost use Rattle.tiles.specs.Touched.{Event, Requested, NewFormat, NewSize, Answered, told_last};
ghost use Rattle.fault.specs.declared.kinds.Fault.TheVariants.{Memory};

use crate::covered::{tiles_along, tiles_inside, tiles_met};
use fault::Fault;
use raster::{Rect, Size, tile_count};
use std::alloc::Global;
use std::marker::Model;

/// For each tile of a screen the number of the update at which a viewer was last sent it, or none where it was never
/// sent.
#[derive(Drop)]
pub struct Have {
    width: u64,
    height: u64,
    sent: Vec<Option<u64>>,
    /// For each row of tiles a number that is at most each of its tiles' numbers, so that a row without a due tile is
    /// found at once. It is none where a tile may never have been sent. It may be lower than needed.
    least: Vec<Option<u64>>,
}

impl Model for Have {
    ghost use Rattle.std.specs.Prelude.{◌≡◌, ℕ, ◌+◌, ◌*◌, ◌<◌, length};
    ghost use Rattle.raster.specs.Screen.{tile_count, tiles_across};
    ghost use Rattle.raster.specs.Size.{IsScreenSize};
    ghost use Rattle.tiles.specs.Have.{AtMost, SentTiles, entry};

    ghost Value = { SentTiles };

    ghost view = { λ have.
        record { width = have.width; height = have.height; sent = have.sent.items } };

    ghost invariant = { λ have. IsScreenSize have.width have.height
        × (length have.sent.items ≡ tile_count have.width have.height)
        × (length have.least.items ≡ tiles_across have.height)
        × ((x y : ℕ) → x < tiles_across have.width → y < tiles_across have.height
        → AtMost
        (entry have.least.items y) (entry have.sent.items (y * tiles_across have.width + x))) };
}

/// Gives some tiles that stand one after the other this number, or none.
fn mark_part(sent: &mut [Option<u64>], from: usize, count: usize, number: Option<u64>)
    requires { from + count ≤ length sent.old }
    ensures inside { (k : ℕ) → from ≤ k → k < from + count → slice_get sent.new k ≡ Some number }
    ensures before { (k : ℕ) → k < from → slice_get sent.new k ≡ slice_get sent.old k }
    ensures behind { (k : ℕ) → from + count ≤ k → slice_get sent.new k ≡ slice_get sent.old k }
{
    sent[from..from + count].fill(number);
}

/// Gives the tiles of a rectangle of tiles this number, or none, on a screen of `width` by `height` pixels.
fn mark(sent: &mut [Option<u64>], width: u64, height: u64, tiles: Rect, number: Option<u64>)
    requires size { IsScreenSize width height }
    requires all { length sent.old ≡ tile_count width height }
    requires within { IsWithin tiles (tiles_across width) (tiles_across height) }
    ensures { (x y : ℕ) → x < tiles_across width → y < tiles_across height
        → slice_get sent.new (y * tiles_across width + x)
        ≡ fill tiles (Some number) (λ i j. slice_get sent.old (j * tiles_across width + i)) x y }
{
    let across = tiles_along(width) as usize;
    for row in 0..tiles.h as usize {
        let from = (tiles.y as usize + row) * across + tiles.x as usize;
        mark_part(sent, from, tiles.w as usize, number);
    }
}

/// The lesser of two numbers, and none where the first is none.
fn lower(least: Option<u64>, number: u64) -> Option<u64>
    ensures { result ≡ lowered least number }
{
    match least {
        None => None,
        Some(before) => Some(before.min(number)),
    }
}

/// Notes that in these rows of tiles some tiles, or all of them, were sent at this number.
fn keep_rows(least: &mut [Option<u64>], from: usize, to: usize, number: u64, all: bool)
    requires there { to ≤ length least.old }
    requires order { from ≤ to }
    ensures inside { (k : ℕ) → from ≤ k → k < to
        → entry least.new k ≡ (if all then Some number else lowered (entry least.old k) number) }
    ensures above { (k : ℕ) → k < from → entry least.new k ≡ entry least.old k }
    ensures below { (k : ℕ) → to ≤ k → entry least.new k ≡ entry least.old k }
{
    for row in from..to {
        least[row] = if all {
            Some(number)
        } else {
            lower(least[row], number)
        };
    }
}

impl Have {
    /// What a viewer has of a screen of `width` by `height` pixels of which no tile was sent yet. It fails where memory
    /// is refused (`Memory`).
    pub fn new(alloc: Global, width: u64, height: u64) -> Result<Self, Fault>
        requires { IsScreenSize width height }
        ensures ok { IfOk result (λ have.
            (have.width ≡ width) × (have.height ≡ height) × HaveStands have []) }
        ensures err { IfErr result (λ fault. fault ≡ Memory) }
    {
        let sent = vec![in alloc; None; tile_count(width, height) as usize]?;
        let least = vec![in alloc; None; tiles_along(height) as usize]?;
        Ok(Have {
            width,
            height,
            sent,
            least,
        })
    }

    /// The width and height of the screen in pixels.
    pub fn size(&self) -> (u64, u64)
        ensures value { (result.0 ≡ self.now.width) × (result.1 ≡ self.now.height) }
        ensures screen { IsScreenSize result.0 result.1 }
    {
        (self.width, self.height)
    }

    /// The number at which tile `t` was last sent.
    pub fn sent(&self, t: u64) -> Option<u64>
        requires { t < tile_count self.now.width self.now.height }
        ensures { result ≡ sent_at self.now t }
    {
        self.sent[t as usize]
    }

    /// From now on no tile counts as sent, since a pixel format was taken (RFC 6143, 7.5.1), or the viewer was told a
    /// size of the screen (7.8.2).
    pub fn forget_all(&mut self)
        ensures size { IsSameSize self.old self.new }
        ensures stands { (es : List Event) → HaveStands self.old es
            → HaveStands self.new (NewFormat ∷ es) }
        ensures resized { (size : sizes.Size) (es : List Event) → HaveStands self.old es
            → HaveStands self.new (NewSize size ∷ es) }
    {
        self.sent.as_mut_slice().fill(None);
        self.least.as_mut_slice().fill(None);
    }

    /// From now on no tile that meets the area counts as sent, since the area was asked for by a request that isn't
    /// incremental (RFC 6143, 7.5.3).
    pub fn forget(&mut self, area: &Rect)
        requires { IsWithin area.now 65536 65536 }
        ensures size { IsSameSize self.old self.new }
        ensures stands { (es : List Event) → HaveStands self.old es
            → HaveStands self.new (Requested false area.now ∷ es) }
    {
        let tiles = tiles_met(area, self.width, self.height);
        mark(
            self.sent.as_mut_slice(),
            self.width,
            self.height,
            tiles,
            None,
        );
        mark_part(
            self.least.as_mut_slice(),
            tiles.y as usize,
            tiles.h as usize,
            None,
        );
    }

    /// From now on each tile of which all that the viewer knows of lies inside the area counts as sent at this number,
    /// since an answer was begun. The viewer was told this size last, or none.
    pub fn keep(&mut self, area: &Rect, told: Option<Size>, number: u64)
        requires { IsWithin area.now 65536 65536 }
        ensures size { IsSameSize self.old self.new }
        ensures stands { (es : List Event) → told_last es ≡ told → HaveStands self.old es
            → HaveStands self.new (Answered area.now number ∷ es) }
    {
        let tiles = tiles_inside(area, told, self.width, self.height);
        mark(
            self.sent.as_mut_slice(),
            self.width,
            self.height,
            tiles,
            Some(number),
        );
        keep_rows(
            self.least.as_mut_slice(),
            tiles.y as usize,
            (tiles.y + tiles.h) as usize,
            number,
            tiles.w == tiles_along(self.width),
        );
    }

    /// A number that is at most each number of a row's tiles, and none where one of these tiles may never have been
    /// sent.
    pub(crate) fn least_of_row(&self, row: u64) -> Option<u64>
        requires { row < tiles_across self.now.height }
        ensures { (t : ℕ) → row * tiles_across self.now.width ≤ t
            → t < row * tiles_across self.now.width + tiles_across self.now.width
            → AtMost result (sent_at self.now t) }
    {
        self.least[row as usize]
    }
}
