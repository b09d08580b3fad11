//! How a loop over links ends, and how it waits where there is nothing to do.

ghost use Rattle.std.specs.Prelude.{IsTrue};

use std::sync::Wait;

/// A flag, shared by threads, that ends their loops.
pub trait StopFlag {
    /// The fact that the flag was set, which only `is_set` tells. Each flag says what this means.
    ghost was_set: { Self → Type 0 };

    /// Whether the loops are to end.
    fn is_set(&self) -> bool
        ensures { IsTrue result → was_set self.now };
}

/// How a loop waits until there may be more to do. No clause rests on it.
pub trait Rest {
    /// Returns once there may be more to do, or earlier.
    fn rest<R: Wait>(&self, rt: &R);
}
