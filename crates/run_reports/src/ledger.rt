//! A log that nobody waits for.

ghost use Rattle.std.specs.Prelude.{◌≡◌, ◌++◌, ℕ, List, OnOk, true, false};
ghost use Rattle.std.specs.String.{string_bytes};
ghost use Rattle.run_reports.specs.Lines.{after_line, counted};

use itoa::Buffer;
use std::alloc::{AllocError, Global};

/// What lines are written on.
pub trait Paper: Drop {
    /// All that it has taken.
    ghost text: { Self → List ℕ };

    /// Whether a line would be taken now, without a wait. No clause says when.
    fn has_room(&self) -> bool;

    /// Takes a whole text, or none of it. It answers whether it took the text.
    fn take(&mut self, written: &str) -> bool
        ensures taken { result ≡ true → text self.new ≡ text self.old ++ written.now }
        ensures left { result ≡ false → text self.new ≡ text self.old };
}

/// Lines on paper, and how many were left out since the last line that was written.
#[derive(Drop)]
pub struct Ledger<P: Paper> {
    alloc: Global,
    paper: P,
    lost: u64,
}

/// Puts a line's end, and before it how many lines were left out, if some were.
fn put_end(line: &mut String, lost: u64) -> Result<(), AllocError>
    ensures { OnOk result (string_bytes line.new ≡ after_line (string_bytes line.old) lost) }
{
    if lost > 0 {
        line.push_str(" left-out=")?;
        line.push_str(Buffer::new().format(lost))?;
    }
    line.push_str("\n")
}

impl<P: Paper> Ledger<P> {
    ghost use Rattle.std.specs.String.{string_bytes};
    ghost use Rattle.run_reports.specs.Lines.{after_line, counted};

    /// A ledger on this paper, without a line yet.
    pub fn new(alloc: Global, paper: P) -> Ledger<P>
        ensures paper { result.paper ≡ paper }
        ensures none_lost { result.lost ≡ 0 }
    {
        Ledger {
            alloc,
            paper,
            lost: 0,
        }
    }

    /// What the lines are written on.
    pub fn paper(&self) -> &P
        ensures { result.now ≡ self.now.paper }
    {
        &self.paper
    }

    /// How many lines were left out since the last that was written.
    pub fn lost(&self) -> u64
        ensures { result ≡ self.now.lost }
    {
        self.lost
    }

    /// Writes a line that is given without its end, and after it how many lines were left out before, if some were. A
    /// line for which there is no room or no memory is left out and counted. It answers whether the line was written.
    pub fn write(&mut self, line: String) -> bool
        ensures written { result ≡ true
            → (P.text self.new.paper
            ≡ P.text self.old.paper ++ after_line (string_bytes line) self.old.lost)
            × (self.new.lost ≡ 0) }
        ensures left_out { result ≡ false
            → (P.text self.new.paper ≡ P.text self.old.paper)
            × (self.new.lost ≡ counted self.old.lost) }
    {
        let mut line = line;
        if self.paper.has_room()
            && put_end(&mut line, self.lost).is_ok()
            && self.paper.take(line.as_str())
        {
            self.lost = 0;
            return true;
        }
        self.lost = self.lost.saturating_add(1);
        false
    }
}
