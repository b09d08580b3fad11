//! A stream in pieces.

/// What is left of a stream, and how long its pieces are: this many bytes, and again from the first number on. A 0
/// counts as 1. Where there is no number it is one piece.
#[derive(Drop)]
pub struct Pieces<'a> {
    left: &'a [u8],
    lengths: &'a [u8],
    next: usize,
}

impl<'a> Pieces<'a> {
    pub fn new(bytes: &'a [u8], lengths: &'a [u8]) -> Pieces<'a> {
        Pieces {
            left: bytes,
            lengths,
            next: 0,
        }
    }

    /// The next piece, if bytes are left.
    pub fn next(&mut self) -> Option<&'a [u8]> {
        if self.left.is_empty() {
            return None;
        }
        if self.next >= self.lengths.len() {
            self.next = 0;
        }
        let length = match self.lengths.get(self.next) {
            Some(length) => usize::from((*length).max(1)),
            None => self.left.len(),
        };
        self.next = self.next.saturating_add(1);
        let (piece, rest) = self.left.split_at(length.min(self.left.len()));
        self.left = rest;
        Some(piece)
    }
}
