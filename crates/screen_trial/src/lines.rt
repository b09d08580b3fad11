//! Lines that are tried one after the other.

use crate::values::Values;
use std::alloc::Global;

/// What lines are tried on.
pub trait Tried {
    /// Does what a line's word and values say, and adds what is seen then. It answers `None` where they say nothing
    /// that can be done.
    fn play(&mut self, alloc: Global, word: &str, given: &Values, seen: &mut Values) -> Option<()>;
}

/// What a line gives, what it tells, and what is seen.
#[derive(Drop)]
struct Line {
    given: Values,
    told: Values,
    seen: Values,
}

impl Line {
    /// Plays `WORD GIVEN: TOLD`, and answers whether what is seen is what is told. Without a colon nothing is to be
    /// seen.
    fn is_so<T: Tried>(&mut self, alloc: Global, tried: &mut T, line: &str) -> bool {
        let (act, told) = line.split_once(": ").unwrap_or((line, ""));
        let (word, given) = act.split_once(' ').unwrap_or((act, ""));
        self.seen.clear();
        self.given.read(given).is_some()
            && self.told.read(told).is_some()
            && tried
                .play(alloc, word, &self.given, &mut self.seen)
                .is_some()
            && self.seen.are(&self.told)
    }
}

/// Plays lines, and answers the first one that comes out otherwise.
pub fn otherwise<'a, T: Tried>(alloc: Global, tried: &mut T, lines: &'a str) -> Option<&'a str> {
    let mut played = Line {
        given: Values::new(alloc),
        told: Values::new(alloc),
        seen: Values::new(alloc),
    };
    for line in lines.lines() {
        if !played.is_so(alloc, tried, line) {
            return Some(line);
        }
    }
    None
}
