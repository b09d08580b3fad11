//! Which input of several places goes to the host, so that no place breaks into another's stroke.

ghost use Rattle.std.specs.Prelude.{◌≡◌, ◌<◌, if◌then◌else◌, List, [], ◌∷◌, ◌++◌, length, slice_index, IfOk, IfErr};
ghost use Rattle.fault.specs.declared.kinds.Fault.TheVariants.{Memory};
ghost use Rattle.roles.specs.Held.{input_in};
ghost use Rattle.roles.specs.Strokes.{Taken, input_from, unbroken, passes_after, dropped, StrokesStand, lets_pass, let_through, counts_after};

use crate::held::Held;
use crate::input::Input;
use fault::{Fault, LIMIT};
use std::alloc::Global;
use std::marker::Model;

/// Whose key or button is down, and how many inputs of each place were dropped.
#[derive(Drop)]
pub struct Strokes {
    place: u64,
    held: Held,
    counts: Vec<u64>,
}

impl Model for Strokes {
    ghost use Rattle.roles.specs.Strokes.{StrokesKept};

    ghost Value = { StrokesKept };

    ghost view = { λ s. record { place = s.place; held = s.held; counts = s.counts.items } };
}

/// Counts an input of this place, if there is a count for it. A count at `LIMIT` stays there.
fn count_up(counts: &mut [u64], place: u64)
    ensures { counts.new ≡ counts_after place counts.old }
{
    let place = place as usize;
    if place < counts.len() {
        counts[place] = LIMIT.min(counts[place].saturating_add(1));
    }
}

impl Strokes {
    /// The strokes before any input. Dropped inputs are counted for this many places, whose numbers begin at 0.
    ///
    /// It fails where memory for the counts is refused (`Memory`).
    pub fn new(alloc: Global, places: u64) -> Result<Self, Fault>
        ensures stands { IfOk result (λ strokes. StrokesStand strokes []) }
        ensures places { IfOk result (λ strokes. length strokes.counts ≡ places) }
        ensures err { IfErr result (λ fault. fault ≡ Memory) }
    {
        let counts = vec![in alloc; 0u64; places as usize]?;
        Ok(Strokes {
            place: 0,
            held: Held::new(),
            counts,
        })
    }

    /// Whether an input of this place passes. It notes what is held after that input, and counts nothing.
    fn lets(&mut self, place: u64, input: &Input) -> bool
        ensures value { result ≡ lets_pass self.old (input_from place (input_in input.now)) }
        ensures kept { self.new ≡ let_through self.old (input_from place (input_in input.now)) }
    {
        if self.place != place && self.held.is_holding() {
            return false;
        }
        let passes = self.held.passes_input(input);
        if passes {
            self.place = place;
        }
        passes
    }

    /// Whether an input that was taken from this place passes to the host. It takes no memory.
    ///
    /// An input passes where no other place has a key or a button down. There are two exceptions: the release of a key
    /// that its own place doesn't have down, and the press of a further key while its own place has 64 down. An input
    /// that doesn't pass is dropped, and counted.
    pub fn passes(&mut self, place: u64, input: &Input) -> bool
        ensures value { (taken : List Taken) → StrokesStand self.old taken
            → result ≡ passes_after (unbroken taken) (input_from place (input_in input.now)) }
        ensures unbroken { (taken : List Taken) → StrokesStand self.old taken
            → unbroken (taken ++ input_from place (input_in input.now) ∷ []) ≡ unbroken taken
            ++ (if result then input_from place (input_in input.now) ∷ [] else []) }
        ensures stands { (taken : List Taken) → StrokesStand self.old taken
            → StrokesStand self.new (taken ++ input_from place (input_in input.now) ∷ []) }
        ensures places { length self.new.counts ≡ length self.old.counts }
    {
        let passes = self.lets(place, input);
        if !passes {
            count_up(self.counts.as_mut_slice(), place);
        }
        passes
    }

    /// How many inputs of this place were dropped, at most `LIMIT`. It takes no memory.
    pub fn dropped(&self, place: u64) -> u64
        requires { place < length self.now.counts }
        ensures { (taken : List Taken) → StrokesStand self.now taken
            → result ≡ dropped place taken }
    {
        self.counts[place as usize]
    }
}
