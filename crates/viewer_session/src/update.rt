//! An update that is sent part by part.

ghost use Rattle.std.specs.Prelude.{◌≡◌, ◌≤◌, drop, length};

use std::marker::Model;
use update_encoder::Answer;

/// An answer that was written whole. Contracts see the bytes that weren't put into a piece yet.
#[derive(Drop)]
pub(crate) struct Whole {
    bytes: Vec<u8>,
    put: usize,
}

impl Model for Whole {
    ghost use Rattle.std.specs.Prelude.{◌≤◌, ℕ, List, drop, length};

    ghost Value = { List ℕ };

    ghost view = { λ w. drop w.put w.bytes.items };

    ghost invariant = { λ w. w.put ≤ length w.bytes.items };
}

impl Whole {
    /// An answer of these bytes.
    pub(crate) fn new(bytes: Vec<u8>) -> Self
        ensures { result ≡ bytes.items }
    {
        Whole { bytes, put: 0 }
    }

    /// The bytes that weren't put into a piece yet.
    pub(crate) fn left(&self) -> &[u8]
        ensures { result.now ≡ self.now }
    {
        &self.bytes.as_slice()[self.put..]
    }

    /// This many more of its bytes were put into a piece.
    pub(crate) fn put(&mut self, count: usize)
        requires { count ≤ length self.old }
        ensures { self.new ≡ drop count self.old }
    {
        self.put += count;
    }
}

/// An update: one that is written rectangle by rectangle, or one that was written whole.
#[derive(Drop)]
pub(crate) enum Update {
    Runs(Answer),
    Whole(Whole),
}
