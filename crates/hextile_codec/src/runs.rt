//! The runs of a tile.

ghost use Rattle.std.specs.Prelude.{◌≡◌, ◌+◌, ◌*◌, ◌<◌, ◌≤◌, ◌^◌, ◌++◌, ◌==◌, [], false, length, map, take_while, IsTrue};
ghost use Rattle.std.specs.List.{list_all};
ghost use Rattle.arrayvec.specs.ArrayVec.{array_vec_len};
ghost use Rattle.raster.specs.Screen.{value_at, part_of};
ghost use Rattle.raster.specs.Encoding.{runs_of_row};
ghost use Rattle.joined_runs.specs.Joined.{runs_over};
ghost use Rattle.raster.specs.RowShown.{row_shows};
ghost use Rattle.hextile_codec.specs.TileKinds.{subrect_of, has_one_value};
ghost use Rattle.hextile_codec.specs.Marks.{AreMarks, LiesAmong, runs_of_rows};

use crate::marking::{Marks, mark_rows};
use crate::rows::row_of;
use arrayvec::ArrayVec;
use raster::{Rect, TILE_SIDE, has_runs};
use std::simd::cmp::SimdPartialEq;
use std::simd::u32x16;

/// How many pixels a tile has at most.
pub const TILE_AREA: usize = (TILE_SIDE * TILE_SIDE) as usize;

/// This many runs in the first rows of a tile are a reason to count them all.
const CROWDED: usize = 8;

/// With this many runs in its first four rows of 16 a tile is left to a search row by row, which counts first.
const DENSE: usize = 48;

/// A run or subrectangle: `len` by `high` pixels of one value, from column `x` of row `y` of its tile on. A run is of one
/// row.
#[derive(Clone, Copy, Default)]
pub struct Run {
    pub value: u32,
    pub x: u8,
    pub y: u8,
    pub len: u8,
    pub high: u8,
}

/// The runs or subrectangles of one tile, from the left and from the top.
pub type Found = ArrayVec<Run, TILE_AREA>;

/// How many values at the front are this one.
fn run_len(values: &[u32], value: u32) -> usize
    ensures { result ≡ length (take_while (λ v. v == value) values.now) }
{
    values.iter().take_while(|v| **v == value).count()
}

/// Whether all runs have one value, as also none do.
pub fn has_one_value(runs: &[Run]) -> bool
    ensures { result ≡ has_one_value (map subrect_of runs.now) }
{
    match runs.split_first() {
        Some((first, others)) => others.iter().all(|run| run.value == first.value),
        None => true,
    }
}

/// Whether all values of a row are this one. A whole row of a tile is compared at once.
fn is_all(row: &[u32], value: u32) -> bool
    ensures { result ≡ list_all (λ v. v == value) row.now }
{
    if row.len() == TILE_SIDE as usize {
        return u32x16::from_slice(row).simd_eq(u32x16::splat(value)).all();
    }
    row.iter().all(|v| *v == value)
}

/// Whether a tile shows its background alone. A whole row is compared at once, and nothing else is done.
pub fn is_plain(values: &[u32], w: usize, tile: &Rect, background: u32) -> bool
    requires { LiesAmong values.now w tile.now }
    ensures { IsTrue result
        → runs_over (part_of tile.now (value_at w values.now)) background
        tile.now.w tile.now.h ≡ [] }
{
    for y in 0..tile.h as usize {
        if !is_all(row_of(values, w, tile, y), background) {
            return false;
        }
    }
    true
}

/// Adds the runs of four rows of 16, from row `y` on, found by their marks.
pub fn add_marked(values: &[u32], w: usize, tile: &Rect, y: usize, marks: Marks, runs: &mut Found)
    requires lies { LiesAmong values.now w tile.now }
    requires wide { tile.now.w ≡ 16 }
    requires rows { y + 4 ≤ tile.now.h }
    requires high { tile.now.h ≤ TILE_SIDE }
    requires marks { AreMarks (part_of tile.now (value_at w values.now)) marks.background y marks }
    requires room { array_vec_len runs.old + 64 ≤ TILE_AREA }
    ensures added { map subrect_of runs.new.items ≡ map subrect_of runs.old.items
        ++ runs_of_rows (part_of tile.now (value_at w values.now)) marks.background 16 y 4 }
    ensures few { array_vec_len runs.new ≤ array_vec_len runs.old + 64 }
{
    let mut begins = marks.begins;
    while begins != 0 {
        let at = begins.trailing_zeros() as usize;
        let (x, row) = (at % 16, y + at / 16);
        let len = (marks.ends >> at).trailing_zeros() + 1;
        runs.push(Run {
            value: row_of(values, w, tile, row)[x],
            x: x as u8,
            y: row as u8,
            len: len as u8,
            high: 1,
        });
        begins &= begins - 1;
    }
}

/// Finds the runs of a whole tile by the marks of its rows, where there are fewer than `enough`, and its first rows
/// aren't dense.
fn find_marked(
    values: &[u32],
    w: usize,
    tile: &Rect,
    background: u32,
    enough: usize,
    found: &mut Found,
) -> bool
    requires lies { LiesAmong values.now w tile.now }
    requires wide { tile.now.w ≡ 16 }
    requires high { tile.now.h ≡ 16 }
    ensures { IsTrue result
        → map subrect_of found.new.items
        ≡ runs_over (part_of tile.now (value_at w values.now)) background 16 16 }
{
    let first = mark_rows(values, w, tile, 0, background);
    if first.count() >= DENSE {
        return false;
    }
    let second = mark_rows(values, w, tile, 4, background);
    let third = mark_rows(values, w, tile, 8, background);
    let fourth = mark_rows(values, w, tile, 12, background);
    let count = first.count() + second.count() + third.count() + fourth.count();
    if count >= enough {
        return false;
    }
    found.clear();
    add_marked(values, w, tile, 0, first, found);
    add_marked(values, w, tile, 4, second, found);
    add_marked(values, w, tile, 8, third, found);
    add_marked(values, w, tile, 12, fourth, found);
    true
}

/// Adds the runs of row `y` other than the background to those of the rows above.
fn add_row(row: &[u32], y: usize, background: u32, runs: &mut Found)
    requires some { 0 < length row.now }
    requires wide { length row.now ≤ TILE_SIDE }
    requires high { y < TILE_SIDE }
    requires room { array_vec_len runs.old + length row.now ≤ TILE_AREA }
    ensures added { map subrect_of runs.new.items ≡ map subrect_of runs.old.items
        ++ runs_of_row (row_shows row.now) background (length row.now) y }
    ensures few { array_vec_len runs.new ≤ array_vec_len runs.old + length row.now }
{
    if row[0] == background && is_all(row, background) {
        return;
    }
    let mut x = 0;
    while x < row.len() {
        let value = row[x];
        let len = run_len(&row[x..], value);
        if value != background {
            runs.push(Run {
                value,
                x: x as u8,
                y: y as u8,
                len: len as u8,
                high: 1,
            });
        }
        x += len;
    }
}

/// Finds the runs of a tile row after row; `false` as `find_runs` answers it.
fn find_by_rows(
    values: &[u32],
    w: usize,
    tile: &Rect,
    background: u32,
    enough: usize,
    found: &mut Found,
) -> bool
    requires lies { LiesAmong values.now w tile.now }
    requires w_some { 0 < tile.now.w }
    requires w_most { tile.now.w ≤ TILE_SIDE }
    requires h_some { 0 < tile.now.h }
    requires h_most { tile.now.h ≤ TILE_SIDE }
    requires background { background ≡ part_of tile.now (value_at w values.now) 0 0 }
    ensures all { let all = runs_over (part_of tile.now (value_at w values.now))
        background tile.now.w tile.now.h in
        IsTrue result → map subrect_of found.new.items ≡ all }
    ensures many { let all = runs_over (part_of tile.now (value_at w values.now))
        background tile.now.w tile.now.h in
        result ≡ false → enough ≤ length all }
    ensures mixed { let all = runs_over (part_of tile.now (value_at w values.now))
        background tile.now.w tile.now.h in
        result ≡ false → has_one_value all ≡ false }
{
    found.clear();
    let mut judged = false;
    for y in 0..tile.h as usize {
        add_row(row_of(values, w, tile, y), y, background, found);
        // A crowded tile shows early, and its runs are counted faster than found.
        if !judged && found.len() >= CROWDED {
            judged = true;
            if !has_one_value(found.as_slice()) && has_runs(values, w, tile, enough as u64) {
                return false;
            }
        }
    }
    true
}

/// Finds the runs of a tile other than its background, the first pixel's value, and puts them into `found`.
///
/// `false` only where there are `enough` of them, of more values than one; `found` then holds the first of them.
pub fn find_runs(
    values: &[u32],
    w: usize,
    tile: &Rect,
    background: u32,
    enough: usize,
    found: &mut Found,
) -> bool
    requires lies { LiesAmong values.now w tile.now }
    requires w_some { 0 < tile.now.w }
    requires w_most { tile.now.w ≤ TILE_SIDE }
    requires h_some { 0 < tile.now.h }
    requires h_most { tile.now.h ≤ TILE_SIDE }
    requires background { background ≡ part_of tile.now (value_at w values.now) 0 0 }
    ensures all { let all = runs_over (part_of tile.now (value_at w values.now))
        background tile.now.w tile.now.h in
        IsTrue result → map subrect_of found.new.items ≡ all }
    ensures many { let all = runs_over (part_of tile.now (value_at w values.now))
        background tile.now.w tile.now.h in
        result ≡ false → enough ≤ length all }
    ensures mixed { let all = runs_over (part_of tile.now (value_at w values.now))
        background tile.now.w tile.now.h in
        result ≡ false → has_one_value all ≡ false }
{
    if is_plain(values, w, tile, background) {
        found.clear();
        return true;
    }
    if tile.w == TILE_SIDE
        && tile.h == TILE_SIDE
        && find_marked(values, w, tile, background, enough, found)
    {
        return true;
    }
    find_by_rows(values, w, tile, background, enough, found)
}

/// Finds all runs of a tile other than a background, row after row, and puts them into `found`.
pub fn find_each_row(values: &[u32], w: usize, tile: &Rect, background: u32, found: &mut Found)
    requires lies { LiesAmong values.now w tile.now }
    requires w_some { 0 < tile.now.w }
    requires w_most { tile.now.w ≤ TILE_SIDE }
    requires h_most { tile.now.h ≤ TILE_SIDE }
    ensures { map subrect_of found.new.items
        ≡ runs_over (part_of tile.now (value_at w values.now)) background tile.now.w tile.now.h }
{
    found.clear();
    for y in 0..tile.h as usize {
        add_row(row_of(values, w, tile, y), y, background, found);
    }
}
