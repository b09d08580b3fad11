//! Lines of worlds, of sessions and of what a viewer holds: what is done, and what is seen then.

use fault::Fault;
use replay::script_bytes;
use roles::Input;
use std::alloc::Global;

/// The type of the one message that is sent here and isn't known.
const UNKNOWN: u8 = 7;

/// A word, a number, and what follows them.
#[derive(Clone, Copy)]
pub struct Act<'a> {
    pub word: &'a str,
    pub number: u64,
    rest: &'a str,
}

impl<'a> Act<'a> {
    /// Reads `WORD NUMBER`, which a blank and more may follow.
    pub fn read(line: &'a str) -> Option<Self> {
        let (word, behind) = line.split_once(' ')?;
        let (number, rest) = behind.split_once(' ').unwrap_or((behind, ""));
        Some(Act {
            word,
            number: number.parse::<u64>().ok()?,
            rest,
        })
    }

    /// The bytes that follow the number, or no bytes where nothing follows. It answers `None` where what follows is no
    /// HEX.
    pub fn bytes(&self, alloc: Global) -> Option<Vec<u8>> {
        if self.rest.is_empty() {
            return Some(Vec::new(alloc));
        }
        script_bytes(alloc, self.rest).ok()?
    }

    /// The number that follows the first.
    pub fn second(&self) -> Option<u64> {
        self.rest.parse::<u64>().ok()
    }

    /// Whether the number says the same as `is_so`: 1 for yes, 0 for no.
    pub fn says(&self, is_so: bool) -> bool {
        self.number == u64::from(is_so)
    }

    /// Whether a message passes as the line says.
    pub fn lets(&self, passes: bool) -> bool {
        (self.rest == "passes") == passes
    }

    /// Whether the fault has this number.
    pub fn names(&self, fault: Fault) -> bool {
        let is_expected = match fault {
            Fault::UnknownMessage(kind) => kind == UNKNOWN,
            _ => true,
        };
        is_expected && fault.number() == self.number
    }

    /// Whether this input is released: `lifts` a key, `points` with no button at a position, or `none`.
    pub fn releases(&self, input: Option<Input>) -> bool {
        match input {
            Some(Input::Key { down, key }) => {
                self.word == "lifts" && !down && u64::from(key) == self.number
            }
            Some(Input::Pointer { mask, x, y }) => {
                let is_there = u64::from(x) == self.number && self.second() == Some(u64::from(y));
                self.word == "points" && mask == 0 && is_there
            }
            Some(Input::Cut(_)) => false,
            None => self.word == "none",
        }
    }
}
