//! A script of which one line is played while memory is refused.

use crate::hoard::Hoard;
use std::io;
use std::io::Read;

/// The reserve is kept in blocks of at most this size.
const MOST: usize = 1 << 22;

/// Hands a script out line by line. From before one of them up to the next the hoard keeps all memory but a hole.
#[derive(Drop)]
pub struct Lines<'a, 'b> {
    left: &'a [u8],
    hoard: &'b mut Hoard,
    // How often bytes were asked for.
    asked: u64,
    line: u64,
    hole: usize,
    is_refused: bool,
}

impl<'a, 'b> Lines<'a, 'b> {
    /// The lines of a script. Memory is refused from before the line of this number on, counted from 1; or from now on
    /// up to the first line.
    pub fn new(script: &'a str, hoard: &'b mut Hoard, line: u64, hole: usize) -> Self {
        let is_refused = line > 0 || hoard.close(MOST, hole);
        Lines {
            left: script.as_bytes(),
            hoard,
            asked: 0,
            line,
            hole,
            is_refused,
        }
    }

    /// Gives all memory back, and answers whether it could be refused.
    pub fn end(&mut self) -> bool {
        self.hoard.open();
        self.is_refused
    }
}

impl<'a, 'b> Read for Lines<'a, 'b> {
    fn read(&mut self, into: &mut [u8]) -> io::Result<usize> {
        if self.asked == self.line {
            self.hoard.open();
        }
        self.asked = self.asked.saturating_add(1);
        if self.asked == self.line {
            self.is_refused = self.hoard.close(MOST, self.hole);
        }
        let (front, _) = into.split_at_mut(line_len(self.left).min(into.len()));
        self.left.read(front)
    }
}

/// How many bytes the first line has, with its line feed.
fn line_len(bytes: &[u8]) -> usize {
    match bytes.iter().position(|byte| *byte == b'\n') {
        Some(number) => number.saturating_add(1),
        None => bytes.len(),
    }
}
