//! At which update each tile was last touched.

ghost use Rattle.std.specs.Prelude.{◌≡◌, ℕ, ◌+◌, ◌*◌, ◌<◌, ◌≤◌, [], length, max, nat_lt, not, ◌&&◌, if◌then◌else◌, slice_index, List, IfOk, IfErr};
ghost use Rattle.raster.specs.Screen.{IsWithin, fill, meets, tile_count, tile_rect, tiles_across};
ghost use Rattle.raster.specs.Size.{IsScreenSize};
ghost use Rattle.raster.specs.Update.{Update};
ghost use Rattle.tiles.specs.Grid.{GridStands, IsCaughtUp, IsTouched, stamp_at};
ghost use Rattle.tiles.specs.Touched.{last_touch};
ghost use Rattle.fault.specs.declared.kinds.Fault.TheVariants.{Memory};

use crate::covered::{tiles_along, tiles_met};
use fault::Fault;
use raster::{Rect, tile_count};
use std::alloc::Global;
use std::marker::Model;

/// For each tile of a screen the number of the last update that touched it, and 0 where none did.
#[derive(Drop)]
pub struct Grid {
    width: u64,
    height: u64,
    stamps: Vec<u64>,
    /// For each row of tiles a number that is at least each of its stamps, so that a row without a due tile is found at
    /// once.
    greatest: Vec<u64>,
}

impl Model for Grid {
    ghost use Rattle.std.specs.Prelude.{◌≡◌, ℕ, ◌+◌, ◌*◌, ◌<◌, ◌≤◌, length, slice_index};
    ghost use Rattle.raster.specs.Screen.{tile_count, tiles_across};
    ghost use Rattle.raster.specs.Size.{IsScreenSize};
    ghost use Rattle.tiles.specs.Grid.{Stamps};

    ghost Value = { Stamps };

    ghost view = { λ g. record { width = g.width; height = g.height; stamps = g.stamps.items } };

    ghost invariant = { λ g. IsScreenSize g.width g.height
        × (length g.stamps.items ≡ tile_count g.width g.height)
        × (length g.greatest.items ≡ tiles_across g.height)
        × ((x y : ℕ) → x < tiles_across g.width → y < tiles_across g.height
        → slice_index g.stamps.items (y * tiles_across g.width + x)
        ≤ slice_index g.greatest.items y) };
}

/// Stamps some tiles that stand one after the other.
fn stamp_part(stamps: &mut [u64], from: usize, count: usize, n: u64)
    requires { from + count ≤ length stamps.old }
    ensures inside { (k : ℕ) → from ≤ k → k < from + count → slice_index stamps.new k ≡ n }
    ensures before { (k : ℕ) → k < from → slice_index stamps.new k ≡ slice_index stamps.old k }
    ensures behind { (k : ℕ) → from + count ≤ k
        → slice_index stamps.new k ≡ slice_index stamps.old k }
{
    stamps[from..from + count].fill(n);
}

/// Stamps a rectangle of tiles, on a screen of `width` by `height` pixels.
fn stamp_tiles(stamps: &mut [u64], width: u64, height: u64, tiles: Rect, n: u64)
    requires size { IsScreenSize width height }
    requires all { length stamps.old ≡ tile_count width height }
    requires within { IsWithin tiles (tiles_across width) (tiles_across height) }
    ensures { (x y : ℕ) → x < tiles_across width → y < tiles_across height
        → slice_index stamps.new (y * tiles_across width + x)
        ≡ fill tiles n (λ i j. slice_index stamps.old (j * tiles_across width + i)) x y }
{
    let across = tiles_along(width) as usize;
    for row in 0..tiles.h as usize {
        let from = (tiles.y as usize + row) * across + tiles.x as usize;
        stamp_part(stamps, from, tiles.w as usize, n);
    }
}

/// Notes that some rows of tiles now have a tile with this stamp.
fn raise_rows(greatest: &mut [u64], from: usize, to: usize, n: u64)
    requires there { to ≤ length greatest.old }
    requires order { from ≤ to }
    ensures inside { (k : ℕ) → from ≤ k → k < to
        → slice_index greatest.new k ≡ max (slice_index greatest.old k) n }
    ensures outside { (k : ℕ) → (k < from)
        → slice_index greatest.new k ≡ slice_index greatest.old k }
    ensures behind { (k : ℕ) → to ≤ k → slice_index greatest.new k ≡ slice_index greatest.old k }
{
    for row in from..to {
        greatest[row] = greatest[row].max(n);
    }
}

/// The stamp of a tile that is caught up: the newer grid's where that is above `number` and the tile's own isn't, and
/// otherwise its own.
fn later(own: u64, newer: u64, number: u64) -> u64
    ensures { result ≡ (if nat_lt number newer && not (nat_lt number own) then newer else own) }
{
    if number < newer && !(number < own) {
        newer
    } else {
        own
    }
}

/// Catches up some tiles that stand one after the other.
fn take_part(stamps: &mut [u64], newer: &[u64], from: usize, to: usize, number: u64)
    requires same { length newer.now ≡ length stamps.old }
    requires there { to ≤ length stamps.old }
    requires order { from ≤ to }
    ensures inside { (k : ℕ) → from ≤ k → k < to
        → slice_index stamps.new k
        ≡ (if nat_lt number (slice_index newer.now k)
        && not (nat_lt number (slice_index stamps.old k))
        then slice_index newer.now k else slice_index stamps.old k) }
    ensures before { (k : ℕ) → k < from → slice_index stamps.new k ≡ slice_index stamps.old k }
    ensures behind { (k : ℕ) → to ≤ k → slice_index stamps.new k ≡ slice_index stamps.old k }
{
    for t in from..to {
        stamps[t] = later(stamps[t], newer[t], number);
    }
}

/// Catches up the tiles of a row, unless none of them is newer.
fn take_row(stamps: &mut [u64], newer: &Grid, across: u64, row: u64, number: u64)
    requires across { across ≡ tiles_across newer.now.width }
    requires all { length stamps.old ≡ tile_count newer.now.width newer.now.height }
    requires there { row < tiles_across newer.now.height }
    ensures inside { (k : ℕ) → row * across ≤ k → k < row * across + across
        → slice_index stamps.new k
        ≡ (if nat_lt number (stamp_at newer.now k) && not (nat_lt number (slice_index stamps.old k))
        then stamp_at newer.now k else slice_index stamps.old k) }
    ensures before { (k : ℕ) → k < row * across
        → slice_index stamps.new k ≡ slice_index stamps.old k }
    ensures behind { (k : ℕ) → row * across + across ≤ k
        → slice_index stamps.new k ≡ slice_index stamps.old k }
{
    if number < newer.greatest_of_row(row) {
        let first = (row * across) as usize;
        take_part(
            stamps,
            newer.stamps.as_slice(),
            first,
            first + across as usize,
            number,
        );
    }
}

/// Catches up all tiles of a screen.
fn take_rows(stamps: &mut [u64], newer: &Grid, number: u64)
    requires { length stamps.old ≡ tile_count newer.now.width newer.now.height }
    ensures { (t : ℕ) → t < tile_count newer.now.width newer.now.height
        → slice_index stamps.new t
        ≡ (if nat_lt number (stamp_at newer.now t) && not (nat_lt number (slice_index stamps.old t))
        then stamp_at newer.now t else slice_index stamps.old t) }
{
    let across = tiles_along(newer.width);
    for row in 0..tiles_along(newer.height) {
        take_row(stamps, newer, across, row, number);
    }
}

/// Gives each row of tiles the greater of two numbers.
fn raise_each(greatest: &mut [u64], newer: &[u64])
    requires { length newer.now ≡ length greatest.old }
    ensures { (k : ℕ) → k < length greatest.old
        → slice_index greatest.new k ≡ max (slice_index greatest.old k) (slice_index newer.now k) }
{
    for row in 0..greatest.len() {
        greatest[row] = greatest[row].max(newer[row]);
    }
}

impl Grid {
    /// The grid of a screen of `width` by `height` pixels, no tile of which was touched yet. It fails where memory is
    /// refused (`Memory`).
    pub fn new(alloc: Global, width: u64, height: u64) -> Result<Self, Fault>
        requires { IsScreenSize width height }
        ensures ok { IfOk result (λ grid.
            (grid.width ≡ width) × (grid.height ≡ height) × GridStands grid []) }
        ensures err { IfErr result (λ fault. fault ≡ Memory) }
    {
        let stamps = vec![in alloc; 0u64; tile_count(width, height) as usize]?;
        let greatest = vec![in alloc; 0u64; tiles_along(height) as usize]?;
        Ok(Grid {
            width,
            height,
            stamps,
            greatest,
        })
    }

    /// The width and height of the screen in pixels.
    pub fn size(&self) -> (u64, u64)
        ensures value { (result.0 ≡ self.now.width) × (result.1 ≡ self.now.height) }
        ensures screen { IsScreenSize result.0 result.1 }
    {
        (self.width, self.height)
    }

    /// The number of the last update that touched tile `t`, and 0 where none did.
    pub fn stamp(&self, t: u64) -> u64
        requires { t < tile_count self.now.width self.now.height }
        ensures value { result ≡ stamp_at self.now t }
        ensures last { (us : List Update) → GridStands self.now us
            → result ≡ last_touch (tile_rect self.now.width self.now.height t) us }
    {
        self.stamps[t as usize]
    }

    /// Notes that update `n` touched each tile that meets the rectangle. A grid stands for one update more once it was
    /// touched, at that update's number, by each rectangle that the update paints.
    pub fn touch(&mut self, area: &Rect, n: u64)
        requires { IsWithin area.now 65536 65536 }
        ensures { IsTouched (λ t. meets area.now (tile_rect self.old.width self.old.height t))
            n self.old self.new }
    {
        let tiles = tiles_met(area, self.width, self.height);
        stamp_tiles(
            self.stamps.as_mut_slice(),
            self.width,
            self.height,
            tiles,
            n,
        );
        raise_rows(
            self.greatest.as_mut_slice(),
            tiles.y as usize,
            (tiles.y + tiles.h) as usize,
            n,
        );
    }

    /// Takes over the newer grid's stamp of each tile that, by the newer grid and not by this one, was touched after
    /// update `number`. Both have to be of one screen. It takes no memory, and skips each row without such a tile.
    pub fn catch_up(&mut self, newer: &Grid, number: u64)
        requires { (newer.now.width ≡ self.old.width) × (newer.now.height ≡ self.old.height) }
        ensures { IsCaughtUp newer.now number self.old self.new }
    {
        take_rows(self.stamps.as_mut_slice(), newer, number);
        raise_each(self.greatest.as_mut_slice(), newer.greatest.as_slice());
    }

    /// Takes over all stamps of another grid of the same screen. It takes no memory.
    pub fn copy_from(&mut self, other: &Grid)
        requires { (other.now.width ≡ self.old.width) × (other.now.height ≡ self.old.height) }
        ensures { self.new ≡ other.now }
    {
        self.stamps
            .as_mut_slice()
            .copy_from_slice(other.stamps.as_slice());
        self.greatest
            .as_mut_slice()
            .copy_from_slice(other.greatest.as_slice());
    }

    /// A number that is at least the stamp of each tile in a row of tiles.
    pub(crate) fn greatest_of_row(&self, row: u64) -> u64
        requires { row < tiles_across self.now.height }
        ensures { (t : ℕ) → row * tiles_across self.now.width ≤ t
            → t < row * tiles_across self.now.width + tiles_across self.now.width
            → stamp_at self.now t ≤ result }
    {
        self.greatest[row as usize]
    }
}
