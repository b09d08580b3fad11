//! A reader of a header.

use crate::origin::{Origin, Refusal};
use crate::state::State;
use std::marker::Model;

/// Reads a header, in whatever pieces it comes, and nothing after it. It takes no memory, and of a header's bytes it
/// keeps only the address.
#[derive(Drop)]
pub struct HeaderReader {
    state: State,
}

impl Model for HeaderReader {
    ghost use Rattle.proxy_header.specs.declared.state.State.{State};

    ghost Value = { State };

    ghost view = { λ r. r.state };
}

impl HeaderReader {
    ghost use Rattle.std.specs.Prelude.{◌≡◌};
    ghost use Rattle.byte_reading.specs.Reading.{after, taken, whole_of};
    ghost use Rattle.proxy_header.specs.Header.{header};
    ghost use Rattle.proxy_header.specs.State.{ahead};

    /// A reader to which no byte has come.
    pub fn new() -> HeaderReader
        ensures { ahead result ≡ header }
    {
        HeaderReader {
            state: State::Signature(0),
        }
    }

    /// Takes bytes up to the end of the header, or up to the byte that shows why the header is refused, and answers how
    /// many. After that it takes none.
    pub fn feed(&mut self, piece: &[u8]) -> usize
        ensures reads { ahead self.new ≡ after (ahead self.old) piece.now }
        ensures used { result ≡ taken (ahead self.old) piece.now }
    {
        self.state.feed(piece)
    }

    /// What the header tells, or why it is refused, once that is known.
    pub fn done(&self) -> Option<Result<Origin, Refusal>>
        ensures { result ≡ whole_of (ahead self.now) }
    {
        self.state.done()
    }
}
