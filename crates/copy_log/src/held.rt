//! The tiles that a viewer holds.

ghost use Rattle.std.specs.Prelude.{◌≡◌, ℕ, ◌<◌, Bool};
ghost use Rattle.raster.specs.Screen.{tile_count};

use tiles::Have;

/// The tiles of a screen, of which a viewer holds some as they were after some update.
pub trait HeldTiles {
    /// The width of the screen in pixels.
    ghost width: { Self → ℕ };

    /// The height of the screen in pixels.
    ghost height: { Self → ℕ };

    /// The tile of this number is held.
    ghost held: { Self → ℕ → Bool };

    /// Whether tile `t` is held.
    fn is_held(&self, t: u64) -> bool
        requires { t < tile_count (width self.now) (height self.now) }
        ensures { result ≡ held self.now t };
}

/// The tiles that a viewer was last sent at one number: it holds them as they were after that update.
#[derive(Clone, Copy)]
pub struct SentAt<'a> {
    have: &'a Have,
    number: u64,
}

impl<'a> SentAt<'a> {
    /// The tiles of `have` that were last sent at this number.
    pub fn new(have: &'a Have, number: u64) -> Self
        ensures { (result.have.now ≡ have.now) × (result.number ≡ number) }
    {
        SentAt { have, number }
    }
}

impl<'a> HeldTiles for SentAt<'a> {
    ghost use Rattle.copy_log.specs.Notes.{was_sent_at};

    ghost width = { λ s. s.have.now.width };

    ghost height = { λ s. s.have.now.height };

    ghost held = { λ s. was_sent_at s.have.now s.number };

    fn is_held(&self, t: u64) -> bool {
        match self.have.sent(t) {
            None => false,
            Some(number) => number == self.number,
        }
    }
}
