//! The last text of the host's cut buffer.

ghost use Rattle.std.specs.Prelude.{◌≡◌, ℕ, ◌≤◌, length, IfOk, IfErr, IfSome, Some, None, if◌then◌else◌};
ghost use Rattle.fault.specs.declared.kinds.Fault.TheVariants.{Memory};
ghost use Rattle.painter.specs.Kept.{number_of, bytes_of, is_later, newer};
ghost use Rattle.std.specs.Option.{option_copied};
ghost use Rattle.fault.specs.declared.limits.TheConstants.{LONGEST_TEXT};

use fault::{Fault, LONGEST_TEXT};
use std::alloc::Global;
use std::marker::Model;

/// A text of at most 65,536 bytes with the number of the update that brought it, or none. The room for its bytes is
/// kept.
#[derive(Drop)]
pub struct LastText {
    bytes: Vec<u8>,
    number: Option<u64>,
}

impl Model for LastText {
    ghost use Rattle.std.specs.Prelude.{◌≤◌, Option, length, vec_capacity};
    ghost use Rattle.raster.specs.Update.{NumberedText};
    ghost use Rattle.painter.specs.Kept.{numbered};
    ghost use Rattle.fault.specs.declared.limits.TheConstants.{LONGEST_TEXT};

    ghost Value = { Option NumberedText };

    ghost view = { λ text. numbered text.bytes.items text.number };

    ghost invariant = { λ text. (LONGEST_TEXT ≤ vec_capacity text.bytes)
        × (length text.bytes.items ≤ LONGEST_TEXT) };
}

impl LastText {
    /// No text yet, and room for one. It fails where memory is refused (`Memory`).
    pub fn new(alloc: Global) -> Result<Self, Fault>
        ensures ok { IfOk result (λ text. text ≡ None) }
        ensures err { IfErr result (λ fault. fault ≡ Memory) }
    {
        Ok(LastText {
            bytes: Vec::with_capacity(alloc, LONGEST_TEXT as usize)?,
            number: None,
        })
    }

    /// The number of the update that brought the text, or none where there is no text.
    pub fn number(&self) -> Option<u64>
        ensures { result ≡ number_of self.now }
    {
        self.number
    }

    /// Its bytes: none where there is no text.
    pub fn bytes(&self) -> &[u8]
        ensures bytes { result.now ≡ bytes_of self.now }
        ensures short { length result.now ≤ LONGEST_TEXT }
    {
        match self.number {
            None => &[],
            Some(_) => self.bytes.as_slice(),
        }
    }

    /// Forgets the text: from now on there is none.
    pub fn clear(&mut self)
        ensures { self.new ≡ None }
    {
        self.number = None;
    }

    /// Takes these bytes as the text, brought by the update of this number.
    pub fn set(&mut self, bytes: &[u8], number: u64)
        requires { length bytes.now ≤ LONGEST_TEXT }
        ensures { self.new ≡ Some (record { text = bytes.now; number = number }) }
    {
        self.bytes.clear();
        // Not refused: the room was taken where it was made.
        let _ = self.bytes.extend_from_slice(bytes);
        self.number = Some(number);
    }

    /// Becomes the same text as another, or none.
    pub fn copy_from(&mut self, other: &LastText)
        ensures { self.new ≡ other.now }
    {
        match other.number {
            None => self.clear(),
            Some(number) => self.set(other.bytes(), number),
        }
    }

    /// Becomes the same text as a newer one, if an update after the one of this number brought that. Otherwise it
    /// stays, and nothing is copied.
    pub(crate) fn catch_up(&mut self, newer: &LastText, number: u64)
        ensures { self.new ≡ (if is_later newer.now number then newer.now else self.old) }
    {
        if let Some(brought) = newer.number {
            if number < brought {
                self.copy_from(newer);
            }
        }
    }

    /// Follows the update of this number, which brings these bytes, or no text. Without a text the last one stays.
    pub fn follow(&mut self, bytes: Option<&[u8]>, number: u64)
        requires { IfSome bytes (λ text. length text.now ≤ LONGEST_TEXT) }
        ensures { self.new ≡ newer self.old number (option_copied bytes.entry) }
    {
        if let Some(bytes) = bytes {
            self.set(bytes, number);
        }
    }
}
