//! Collects fields of a fixed length as their bytes come.

ghost use Rattle.rfb_wire.specs.declared.fields.TheConstants.{LONGEST_PART};
ghost use Rattle.std.specs.Prelude.{◌≡◌, ◌+◌, ◌<◌, ◌≤◌, ℕ, List, [], ◌++◌, length, take};

use std::marker::Model;

/// How many bytes the longest part of a message has: padding and a pixel format (RFC 6143, 7.5.1).
pub const LONGEST_PART: usize = 19;

/// A part of a message whose length is known before it comes.
pub trait FixedPart: Copy {
    ghost len_of: { Self → ℕ };

    /// How many bytes it has.
    fn len(self) -> usize
        ensures { result ≡ len_of self };
}

/// A part of a message, and those of its bytes that have come. At least one is missing.
#[derive(Drop)]
pub struct Fields<P: FixedPart> {
    part: P,
    bytes: [u8; LONGEST_PART],
    filled: usize,
}

impl<P: FixedPart> Model for Fields<P> {
    ghost use Rattle.std.specs.Prelude.{◌≡◌, ℕ, ◌<◌, ◌≤◌, List, length, take};

    ghost Value = { P × List ℕ };

    ghost view = { λ f. (f.part, take f.filled f.bytes) };

    ghost use Rattle.rfb_wire.specs.declared.fields.TheConstants.{LONGEST_PART};

    ghost invariant = { λ f. (length (take f.filled f.bytes) ≡ f.filled)
        × (f.filled < P.len_of f.part) × (P.len_of f.part ≤ LONGEST_PART) };
}

impl<P: FixedPart> Fields<P> {
    /// This part, of which no byte has come.
    pub fn of(part: P) -> Fields<P>
        requires some { 0 < P.len_of part }
        requires most { P.len_of part ≤ LONGEST_PART }
        ensures { result ≡ (part, []) }
    {
        Fields {
            part,
            bytes: [0; LONGEST_PART],
            filled: 0,
        }
    }

    /// Which part of a message it is.
    pub fn part(&self) -> P
        ensures value { result ≡ self.now.0 }
        ensures missing { length self.now.1 < P.len_of self.now.0 }
    {
        self.part
    }

    /// How many of its bytes are missing.
    pub fn left(&self) -> usize
        ensures value { length self.now.1 + result ≡ P.len_of self.now.0 }
        ensures some { 0 < result }
    {
        self.part.len() - self.filled
    }

    /// Keeps the next bytes of the part. More bytes have to be missing than these.
    pub fn keep(&mut self, next: &[u8])
        requires { length self.old.1 + length next.now < P.len_of self.old.0 }
        ensures { self.new ≡ (self.old.0, self.old.1 ++ next.now) }
    {
        let end = self.filled + next.len();
        self.bytes[self.filled..end].copy_from_slice(next);
        self.filled = end;
    }

    /// All bytes of the part, of which these are the last. They stand at the front of the answer.
    pub fn whole(&mut self, last: &[u8]) -> [u8; LONGEST_PART]
        requires { length self.old.1 + length last.now ≡ P.len_of self.old.0 }
        ensures { take (P.len_of self.old.0) result ≡ self.old.1 ++ last.now }
    {
        let end = self.filled + last.len();
        self.bytes[self.filled..end].copy_from_slice(last);
        self.bytes
    }
}
