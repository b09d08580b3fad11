//! What is painted on a screen.

use crate::rects::rect_of;
use crate::values::Values;
use painter::Painter;
use raster::{Paint, Rect};
use std::alloc::Global;

/// Puts single pixels at the top left, and right of it, in turn: each has its number as its colour.
fn dots(painter: &mut Painter, count: u64) -> Option<()> {
    for k in 0..u32::try_from(count).ok()? {
        let dot = Rect {
            x: u64::from(k % 2),
            y: 0,
            w: 1,
            h: 1,
        };
        let (w, h) = painter.size();
        if dot.within(w, h) {
            painter.put(dot, &[k]);
        }
    }
    Some(())
}

/// Plays a line that paints: pixels, a rectangle of these colours or of a single one, or one that is copied.
pub fn draw(painter: &mut Painter, alloc: Global, word: &str, given: &Values) -> Option<()> {
    let (w, h) = painter.size();
    let colours = given.colours.as_slice();
    if let ("dots", [count]) = (word, given.numbers.as_slice()) {
        return dots(painter, *count);
    }
    let (area, rest) = rect_of(given.numbers.as_slice())?;
    if !area.within(w, h) || w > 4096 || h > 4096 {
        return None;
    }
    match (word, rest) {
        ("put", []) if colours.len() as u64 == area.w * area.h => painter.put(area, colours),
        ("fill", []) => {
            let all = vec![in alloc; *colours.first()?; (area.w * area.h) as usize].ok()?;
            painter.put(area, all.as_slice());
        }
        (_, [x, y])
            if (Rect {
                x: *x,
                y: *y,
                ..area
            })
            .within(w, h) => match word {
            "copy" => painter.copy(area, *x, *y),
            "paint" => painter.paint(&Paint::Copy(area, *x, *y)),
            _ => return None,
        },
        _ => return None,
    }
    Some(())
}
