//! The subrectangles of a tile in either form.

ghost use Rattle.std.specs.Prelude.{◌≡◌, ◌+◌, ◌*◌, ◌<◌, ◌≤◌, ◌^◌, length, map};
ghost use Rattle.std.specs.List.{All};
ghost use Rattle.raster.specs.Screen.{Canvas, value_at, part_of};
ghost use Rattle.joined_runs.specs.declared.rect_form.RectForm.TheVariants.{OfRows, Joined};
ghost use Rattle.joined_runs.specs.Joined.{written};
ghost use Rattle.hextile_codec.specs.Heads.{AreFound, AreSearched};
ghost use Rattle.hextile_codec.specs.TileKinds.{IsRowRun, IsSearched, subrect_of};
ghost use Rattle.hextile_codec.specs.Marks.{LiesAmong};

use crate::crowded::is_crowded;
use crate::frequent::{Pixels, find_most, find_most_marked};
use crate::listing::list_joined;
use crate::runs::{Found, Run, find_each_row, find_runs, is_plain};
use crate::tile_marks::{TileMarks, find_changes, find_others};
use joined_runs::{RectForm, RowRun, height};
use raster::{Rect, TILE_SIDE};

/// What is found of one tile, and the room that this takes.
#[derive(Drop)]
pub struct TileRoom {
    pixels: Pixels,
    pub runs: Found,
    pub subrects: Found,
}

impl TileRoom {
    /// Room in which nothing is found.
    pub fn new() -> TileRoom {
        TileRoom {
            pixels: Pixels::new(),
            runs: Found::new(),
            subrects: Found::new(),
        }
    }
}

/// Joins all runs of a tile with those below them.
fn join(values: &[u32], w: usize, tile: &Rect, runs: &[Run], joined: &mut Found)
    requires lies { LiesAmong values.now w tile.now }
    requires h_most { tile.now.h ≤ TILE_SIDE }
    requires rows { All (IsRowRun tile.now.w tile.now.h) runs.now }
    requires few { length runs.now ≤ 256 }
    ensures { map subrect_of joined.new.items ≡ written Joined
        (part_of tile.now (value_at w values.now)) tile.now.w tile.now.h (map subrect_of runs.now) }
{
    joined.clear();
    for run in runs {
        let row_run = RowRun {
            value: run.value,
            x: usize::from(run.x),
            y: usize::from(run.y),
            len: usize::from(run.len),
        };
        if let Some(high) = height(RectForm::Joined, values, w, tile, &row_run) {
            joined.push(Run {
                high: high as u8,
                ..*run
            });
        }
    }
}

/// The backgrounds of a tile in both forms, and how many runs its rows have.
#[derive(Clone, Copy)]
pub struct Backgrounds {
    pub joined: u32,
    pub rows: u32,
    pub count: usize,
}

/// Finds the joined runs of a whole tile over its most frequent value, and counts the runs of its rows.
fn search_whole(
    values: &[u32],
    w: usize,
    tile: &Rect,
    first: u32,
    room: &mut TileRoom,
) -> Backgrounds
    requires lies { LiesAmong values.now w tile.now }
    requires wide { tile.now.w ≡ 16 }
    requires high { tile.now.h ≡ 16 }
    requires first { first ≡ part_of tile.now (value_at w values.now) 0 0 }
    ensures { AreFound 16 16 (part_of tile.now (value_at w values.now))
        (map subrect_of room.new.subrects.items) result }
{
    let changes = find_changes(values, w, tile);
    let others = find_others(values, w, tile, first);
    let most = find_most_marked(values, w, tile, first, &others);
    let marks = TileMarks::over(most.value, &changes, &most.others);
    let joins = marks.joins(&marks.breaks(values, w, tile));
    list_joined(values, w, tile, &marks, &joins, &mut room.subrects);
    Backgrounds {
        joined: most.value,
        rows: first,
        count: TileMarks::over(first, &changes, &others).count(),
    }
}

/// Finds the joined runs of a tile at an edge over its most frequent value, and counts the runs of its rows.
fn search_part(
    values: &[u32],
    w: usize,
    tile: &Rect,
    first: u32,
    room: &mut TileRoom,
) -> Backgrounds
    requires lies { LiesAmong values.now w tile.now }
    requires w_some { 0 < tile.now.w }
    requires w_most { tile.now.w ≤ TILE_SIDE }
    requires h_some { 0 < tile.now.h }
    requires h_most { tile.now.h ≤ TILE_SIDE }
    requires first { first ≡ part_of tile.now (value_at w values.now) 0 0 }
    ensures { AreFound tile.now.w tile.now.h (part_of tile.now (value_at w values.now))
        (map subrect_of room.new.subrects.items) result }
{
    let most = find_most(values, w, tile, &mut room.pixels);
    find_each_row(values, w, tile, most, &mut room.runs);
    join(values, w, tile, room.runs.as_slice(), &mut room.subrects);
    find_each_row(values, w, tile, first, &mut room.runs);
    Backgrounds {
        joined: most,
        rows: first,
        count: room.runs.len(),
    }
}

/// Finds the joined runs of a tile over its most frequent value, and counts the runs of its rows.
fn search(values: &[u32], w: usize, tile: &Rect, first: u32, room: &mut TileRoom) -> Backgrounds
    requires lies { LiesAmong values.now w tile.now }
    requires w_some { 0 < tile.now.w }
    requires w_most { tile.now.w ≤ TILE_SIDE }
    requires h_some { 0 < tile.now.h }
    requires h_most { tile.now.h ≤ TILE_SIDE }
    requires first { first ≡ part_of tile.now (value_at w values.now) 0 0 }
    ensures { AreFound tile.now.w tile.now.h (part_of tile.now (value_at w values.now))
        (map subrect_of room.new.subrects.items) result }
{
    if tile.w == TILE_SIDE && tile.h == TILE_SIDE {
        search_whole(values, w, tile, first, room)
    } else {
        search_part(values, w, tile, first, room)
    }
}

/// Finds the joined runs of a tile over its most frequent value, and counts the runs of its rows over its first pixel's
/// value. A tile of one value is answered at once, and one that will be Raw in both forms is left as soon as that shows.
///
/// `None` only where there are `enough` subrectangles in both forms, of more values than one.
pub fn find_both(
    values: &[u32],
    w: usize,
    tile: &Rect,
    enough: usize,
    room: &mut TileRoom,
) -> Option<Backgrounds>
    requires lies { LiesAmong values.now w tile.now }
    requires w_some { 0 < tile.now.w }
    requires w_most { tile.now.w ≤ TILE_SIDE }
    requires h_some { 0 < tile.now.h }
    requires h_most { tile.now.h ≤ TILE_SIDE }
    requires some { 0 < enough }
    ensures { AreSearched tile.now.w tile.now.h (part_of tile.now (value_at w values.now)) enough
        (map subrect_of room.new.subrects.items) result }
{
    let first = values[tile.y as usize * w + tile.x as usize];
    if is_plain(values, w, tile, first) {
        room.subrects.clear();
        return Some(Backgrounds {
            joined: first,
            rows: first,
            count: 0,
        });
    }
    if tile.w == TILE_SIDE && is_crowded(values, w, tile, enough) {
        return None;
    }
    Some(search(values, w, tile, first, room))
}

/// Finds the runs of the rows of a tile over its first pixel's value, which it answers.
///
/// `None` only where there are `enough` of them, of more values than one.
pub fn find_rows(
    values: &[u32],
    w: usize,
    tile: &Rect,
    enough: usize,
    runs: &mut Found,
) -> Option<u32>
    requires lies { LiesAmong values.now w tile.now }
    requires w_some { 0 < tile.now.w }
    requires w_most { tile.now.w ≤ TILE_SIDE }
    requires h_some { 0 < tile.now.h }
    requires h_most { tile.now.h ≤ TILE_SIDE }
    ensures { IsSearched OfRows tile.now.w tile.now.h (part_of tile.now (value_at w values.now))
        enough (map subrect_of runs.new.items) result }
{
    let first = values[tile.y as usize * w + tile.x as usize];
    find_runs(values, w, tile, first, enough, runs).then_some(first)
}
