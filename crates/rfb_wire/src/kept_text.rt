//! A text that is kept as it comes.

ghost use Rattle.std.specs.Prelude.{◌≡◌, ◌+◌, ◌-◌, ◌<◌, ◌≤◌, [], ◌++◌, length, OnOk, IfOk, IfErr};
ghost use Rattle.fault.specs.declared.limits.TheConstants.{LONGEST_TEXT};
ghost use Rattle.fault.specs.declared.kinds.Fault.TheVariants.{Memory};

use crate::text::Text;
use fault::Fault;
use std::alloc::Global;
use std::marker::Model;
use std::mem;

/// The bytes of a cut text that have come, and how many are left: at least one. Contracts see the two as a pair.
#[derive(Drop)]
pub struct KeptText {
    bytes: Vec<u8>,
    left: usize,
}

impl Model for KeptText {
    ghost use Rattle.std.specs.Prelude.{ℕ, ◌+◌, ◌<◌, ◌≤◌, List, length};
    ghost use Rattle.fault.specs.declared.limits.TheConstants.{LONGEST_TEXT};

    ghost Value = { List ℕ × ℕ };

    ghost view = { λ k. (k.bytes.items, k.left) };

    ghost invariant = { λ k. (0 < k.left) × (length k.bytes.items + k.left ≤ LONGEST_TEXT) };
}

impl KeptText {
    /// A text of this length, of which no byte has come. It takes no memory.
    pub fn begin(alloc: Global, len: usize) -> KeptText
        requires some { 0 < len }
        requires short { len ≤ LONGEST_TEXT }
        ensures { result ≡ ([], len) }
    {
        KeptText {
            bytes: Vec::new(alloc),
            left: len,
        }
    }

    /// How many of its bytes are left.
    pub fn left(&self) -> usize
        ensures value { result ≡ self.now.1 }
        ensures some { 0 < result }
    {
        self.left
    }

    /// How many bytes the whole text has: at most 65,536.
    pub fn len(&self) -> usize
        ensures value { result ≡ length self.now.0 + self.now.1 }
        ensures short { result ≤ LONGEST_TEXT }
    {
        self.bytes.len() + self.left
    }

    /// Keeps the next bytes of the text. More bytes have to be left than these. Where memory is refused (`Memory`)
    /// nothing changes.
    pub fn keep(&mut self, next: &[u8]) -> Result<(), Fault>
        requires { length next.now < self.old.1 }
        ensures kept { OnOk result
            (self.new ≡ (self.old.0 ++ next.now, self.old.1 - length next.now)) }
        ensures refused { IfErr result (λ fault. (fault ≡ Memory) × (self.new ≡ self.old)) }
    {
        self.bytes.extend_from_slice(next)?;
        self.left -= next.len();
        Ok(())
    }

    /// Hands out the whole text, of which these are the last bytes. What stays is a text of which no byte has come.
    /// Where memory is refused (`Memory`) nothing changes.
    pub fn finish(&mut self, alloc: Global, last: &[u8]) -> Result<Text, Fault>
        requires { length last.now ≡ self.old.1 }
        ensures text { IfOk result (λ text. text ≡ self.old.0 ++ last.now) }
        ensures refused { IfErr result (λ fault. (fault ≡ Memory) × (self.new ≡ self.old)) }
    {
        self.bytes.extend_from_slice(last)?;
        Ok(Text::from_vec(mem::replace(&mut self.bytes, Vec::new(alloc))))
    }
}
