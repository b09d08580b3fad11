//! How fast a recording is played.

ghost use Rattle.std.specs.Prelude.{ℕ};

/// Tells up to which time a recording may be shown by now. A pace knows where playing began, how fast it goes, and
/// whether it rests. Times are milliseconds since the recording began.
pub trait Pace: Drop {
    /// The fact that this time of a recording may be shown. Only `time` tells it.
    ghost has_come: { ℕ → Type 0 };

    /// The time up to which the recording may be shown by now.
    fn time(&self) -> u64
        ensures { has_come result };

    /// Waits until this time may be shown, or for less. No clause rests on it.
    fn wait(&self, until: u64);
}
