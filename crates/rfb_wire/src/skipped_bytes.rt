//! Bytes that are read past.

ghost use Rattle.std.specs.Prelude.{◌≡◌, ◌-◌, ◌<◌};

use std::marker::Model;

/// How many bytes are left to be read past: at least one. Contracts see the number.
#[derive(Drop)]
pub struct SkippedBytes {
    left: usize,
}

impl Model for SkippedBytes {
    ghost use Rattle.std.specs.Prelude.{ℕ, ◌<◌};

    ghost Value = { ℕ };

    ghost view = { λ s. s.left };

    ghost invariant = { λ s. 0 < s.left };
}

impl SkippedBytes {
    /// This many bytes, none of which has come.
    pub fn of(left: u32) -> SkippedBytes
        requires { 0 < left }
        ensures { result ≡ left }
    {
        SkippedBytes {
            left: left as usize,
        }
    }

    /// How many bytes are left to be read past.
    pub fn left(&self) -> usize
        ensures value { result ≡ self.now }
        ensures some { 0 < result }
    {
        self.left
    }

    /// Reads past this many of them. At least one has to be left.
    pub fn skip(&mut self, count: usize)
        requires { count < self.old }
        ensures { self.new ≡ self.old - count }
    {
        self.left -= count;
    }
}
