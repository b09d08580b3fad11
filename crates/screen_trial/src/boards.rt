//! What a board shows.

ghost use Rattle.std.specs.Prelude.{◌≡◌};

use crate::formats::format_of;
use crate::rects::rect_of;
use crate::values::Values;
use crate::viewers::tell_text;
use hextile_codec::{TileForm, TileRoom, form_of_tile};
use painter::Board;
use raster::{tile_count, tile_rect};

/// Tells how many joined runs a form has, and the colour of the first, or 0; and a 0 where there is no form.
fn tell_form(form: Option<&TileForm>, seen: &mut Values) -> Option<()> {
    let Some(form) = form else {
        return seen.tell(&[0]);
    };
    let runs = form.subrects().runs;
    let value = match runs.first() {
        Some(run) => run.value,
        None => 0,
    };
    seen.tell(&[1, runs.len() as u64])?;
    seen.show(&[value])
}

/// Tells the forms that are made from the colours of both tiles of a screen of 17 by 2.
fn tell_made(board: &Board, seen: &mut Values) -> Option<()> {
    let (w, h) = board.size();
    if w != 17 || h != 2 {
        return None;
    }
    let mut room = TileRoom::new();
    let colours = board.colours();
    let first = form_of_tile(colours, 17, &tile_rect(17, 2, 0), &mut room);
    tell_form(first.as_ref(), seen)?;
    let second = form_of_tile(colours, 17, &tile_rect(17, 2, 1), &mut room);
    tell_form(second.as_ref(), seen)
}

/// Tells the number at which each tile of a board was touched, or the form of each that is kept.
fn tell_tiles(board: &Board, word: &str, seen: &mut Values) -> Option<()> {
    let (w, h) = board.size();
    if w > 4096 || h > 4096 {
        return None;
    }
    for t in 0..tile_count(w, h) {
        if word == "stamps" {
            seen.tell(&[board.grid().stamp(t)])?;
        } else {
            let form = match board.forms().get(t as usize) {
                Some(form) => form.as_ref(),
                None => None,
            };
            tell_form(form, seen)?;
        }
    }
    Some(())
}

/// Plays a line of what a board shows.
pub fn look(board: &Board, word: &str, given: &Values, seen: &mut Values) -> Option<()> {
    match word {
        "board" => {
            let (w, h) = board.size();
            seen.tell(&[w, h, board.number(), board.bells()])?;
            tell_text(board.text(), seen)
        }
        "colours" if given.numbers.is_empty() => seen.show(board.colours()),
        "colours" => seen.pick(board.colours(), given.numbers.as_slice()),
        "stamps" | "forms" => tell_tiles(board, word, seen),
        "made" => tell_made(board, seen),
        "keeps" => seen.tell(&[u64::from(!board.forms().is_empty())]),
        "encoded" => {
            let (area, _) = rect_of(given.numbers.as_slice())?;
            match board.encoded(&area, &format_of(given.bytes.as_slice())?) {
                Some(bytes) => {
                    seen.tell(&[1])?;
                    seen.spell(bytes)
                }
                None => seen.tell(&[0]),
            }
        }
        _ => None,
    }
}
