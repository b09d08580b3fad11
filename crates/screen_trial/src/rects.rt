//! Rectangles, tiles, runs and numbers of encodings.

ghost use Rattle.std.specs.Prelude.{◌≡◌};

use crate::lines::Tried;
use crate::values::Values;
use raster::{
    COPY_RECT, Encoding, Paint, RECT_LEN, Rect, apply_paints, has_runs, tile_count, tile_rect,
};
use std::alloc::Global;

/// The greatest number of a rectangle on the wire (RFC 6143, 7.6.1).
const MOST: u64 = 65535;

/// The greatest width and height of pixels that a line spells.
const MOST_ACROSS: u64 = 64;

/// The rectangle that four numbers say, and the numbers behind them.
pub fn rect_of(numbers: &[u64]) -> Option<(Rect, &[u64])> {
    let ([x, y, w, h], rest) = numbers.split_first_chunk::<4>()?;
    let area = Rect {
        x: *x,
        y: *y,
        w: *w,
        h: *h,
    };
    Some((area, rest))
}

/// The numbers of a rectangle.
fn tell(seen: &mut Values, area: &Rect) -> Option<()> {
    seen.tell(&[area.x, area.y, area.w, area.h])
}

/// What is said of a rectangle alone, and of a rectangle in a width and a height or beside another.
fn play_rect(word: &str, numbers: &[u64], seen: &mut Values) -> Option<()> {
    let (area, rest) = rect_of(numbers)?;
    if area.x > MOST || area.y > MOST || area.w > MOST || area.h > MOST {
        return None;
    }
    match (word, rest) {
        ("write", []) => seen.spell(&area.write()),
        ("empty", []) => seen.tell(&[u64::from(area.is_empty())]),
        ("clip", [w, h]) => tell(seen, &area.clip(*w, *h)),
        ("within", [w, h]) => seen.tell(&[u64::from(area.within(*w, *h))]),
        _ => {
            let (other, _) = rect_of(rest)?;
            match word {
                "meets" => seen.tell(&[u64::from(area.meets(&other))]),
                "common" => seen.tell(&[u64::from(area.common(&other).is_empty())]),
                "cover" if other.within(MOST, MOST) => tell(seen, &area.cover(&other)),
                _ => None,
            }
        }
    }
}

/// Whether an area of pixel values, in rows of a width, has so many runs.
fn runs(numbers: &[u64], values: &[u32], seen: &mut Values) -> Option<()> {
    let (area, [w, enough]) = rect_of(numbers)? else {
        return None;
    };
    if *w > MOST_ACROSS || area.is_empty() || !area.within(*w, MOST_ACROSS) {
        return None;
    }
    if (area.y + area.h) * *w > values.len() as u64 {
        return None;
    }
    seen.tell(&[u64::from(has_runs(values, *w as usize, &area, *enough))])
}

/// Puts colours on all of a black row, and then copies a part of it.
fn paints(alloc: Global, numbers: &[u64], colours: &[u32], seen: &mut Values) -> Option<()> {
    let (area, [x, y]) = rect_of(numbers)? else {
        return None;
    };
    let w = colours.len();
    if w as u64 > MOST_ACROSS {
        return None;
    }
    let all = Rect {
        x: 0,
        y: 0,
        w: w as u64,
        h: 1,
    };
    let from = Rect {
        x: *x,
        y: *y,
        ..area
    };
    if !area.within(w as u64, 1) || !from.within(w as u64, 1) {
        return None;
    }
    let mut values = vec![in alloc; 0u32; w].ok()?;
    let put = colours.to_vec(alloc).ok()?;
    apply_paints(values.as_mut_slice(), w, 1, &[Paint::Put(all, put)]);
    apply_paints(values.as_mut_slice(), w, 1, &[Paint::Copy(area, *x, *y)]);
    seen.show(values.as_slice())
}

/// Lines of rectangles.
#[derive(Drop)]
pub struct Rects;

impl Tried for Rects {
    fn play(&mut self, alloc: Global, word: &str, given: &Values, seen: &mut Values) -> Option<()> {
        let numbers = given.numbers.as_slice();
        match (word, numbers) {
            ("read", []) if given.bytes.len() >= RECT_LEN => {
                tell(seen, &Rect::read(given.bytes.as_slice()))
            }
            ("encodings", []) => {
                let kinds = [Encoding::Raw, Encoding::Rre, Encoding::Hextile];
                seen.tell(&kinds.map(|kind| u64::from(kind.number())))?;
                seen.tell(&[u64::from(COPY_RECT), RECT_LEN as u64])
            }
            ("encoding", [number]) => match Encoding::of_number(u32::try_from(*number).ok()?) {
                Some(kind) => seen.tell(&[u64::from(kind.number())]),
                None => Some(()),
            },
            ("count", [w, h]) if *w <= MOST && *h <= MOST => seen.tell(&[tile_count(*w, *h)]),
            ("tile", [w, h, k]) if *w <= MOST && *h <= MOST && *k < tile_count(*w, *h) => {
                tell(seen, &tile_rect(*w, *h, *k))
            }
            ("runs", _) => runs(numbers, given.colours.as_slice(), seen),
            ("paints", _) => paints(alloc, numbers, given.colours.as_slice(), seen),
            _ => play_rect(word, numbers, seen),
        }
    }
}
