//! Counts the inputs that are dropped.

ghost use Rattle.std.specs.Prelude.{◌≡◌, ◌+◌, ℕ, List, [], ◌∷◌, ◌++◌, length, min, if◌then◌else◌};
ghost use Rattle.fault.specs.declared.limits.TheConstants.{LIMIT};
ghost use Rattle.roles.specs.Held.{input_in};
ghost use Rattle.roles.specs.Strokes.{Taken, input_from, passes_after, unbroken, StrokesStand};

use roles::{Input, Strokes};

/// A count of the inputs that are dropped.
pub trait DropCount {
    /// How many dropped inputs it has counted.
    ghost dropped: { Self → ℕ };

    /// Counts one more dropped input. A count at `LIMIT` stays there.
    fn count_one(&mut self)
        ensures { dropped self.new ≡ min LIMIT (dropped self.old + 1) };
}

/// Whether an input that was taken from this place passes to the host. An input that doesn't is dropped, and counted.
pub(crate) fn passes<D: DropCount>(
    strokes: &mut Strokes,
    drops: &mut D,
    place: u64,
    input: &Input,
) -> bool
    ensures value { (taken : List Taken) → StrokesStand strokes.old taken
        → result ≡ passes_after (unbroken taken) (input_from place (input_in input.now)) }
    ensures stands { (taken : List Taken) → StrokesStand strokes.old taken
        → StrokesStand strokes.new (taken ++ input_from place (input_in input.now) ∷ []) }
    ensures places { length strokes.new.counts ≡ length strokes.old.counts }
    ensures counted { D.dropped drops.new
        ≡ (if result then D.dropped drops.old else min LIMIT (D.dropped drops.old + 1)) }
{
    let passes = strokes.passes(place, input);
    if !passes {
        drops.count_one();
    }
    passes
}
