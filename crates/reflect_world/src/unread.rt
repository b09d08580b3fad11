//! Bytes that came and wait to be read.

ghost use Rattle.std.specs.Prelude.{◌≡◌, ◌≤◌, [], ◌++◌, ◌-◌, length, drop, take, OnOk, IfErr};
ghost use Rattle.fault.specs.declared.kinds.Fault.TheVariants.{Memory};

use fault::Fault;
use std::alloc::Global;
use std::marker::Model;

/// A stream of bytes that is read from its front. Contracts see those that weren't read yet.
#[derive(Drop)]
pub(crate) struct Unread {
    bytes: Vec<u8>,
    read: usize,
}

impl Model for Unread {
    ghost use Rattle.std.specs.Prelude.{ℕ, ◌≤◌, List, length, drop};

    ghost Value = { List ℕ };

    ghost view = { λ u. drop u.read u.bytes.items };

    ghost invariant = { λ u. u.read ≤ length u.bytes.items };
}

impl Unread {
    /// A stream of which nothing has come yet.
    pub(crate) fn new(alloc: Global) -> Self
        ensures { result ≡ [] }
    {
        Unread {
            bytes: Vec::new(alloc),
            read: 0,
        }
    }

    /// Adds bytes at the end. Where memory is refused (`Memory`) nothing has changed.
    pub(crate) fn add(&mut self, bytes: &[u8]) -> Result<(), Fault>
        ensures ok { OnOk result (self.new ≡ self.old ++ bytes.now) }
        ensures err { IfErr result (λ fault. (fault ≡ Memory) × (self.new ≡ self.old)) }
    {
        match self.bytes.extend_from_slice(bytes) {
            Ok(()) => Ok(()),
            Err(_) => Err(Fault::Memory),
        }
    }

    /// The bytes that have come and were not read yet.
    pub(crate) fn bytes(&self) -> &[u8]
        ensures { result.now ≡ self.now }
    {
        &self.bytes.as_slice()[self.read..]
    }

    /// This many of the unread bytes, from the first on, were read.
    pub(crate) fn take(&mut self, count: usize)
        requires { count ≤ length self.old }
        ensures { self.new ≡ drop count self.old }
    {
        self.read += count;
        if self.read == self.bytes.len() {
            self.bytes.clear();
            self.read = 0;
        }
    }

    /// Takes this many bytes away from the end of the unread ones, as if they hadn't been added.
    pub(crate) fn take_back(&mut self, count: usize)
        requires { count ≤ length self.old }
        ensures { self.new ≡ take (length self.old - count) self.old }
    {
        let left = self.bytes.len() - count;
        self.bytes.truncate(left);
    }

    /// Drops all unread bytes.
    pub(crate) fn clear(&mut self)
        ensures { self.new ≡ [] }
    {
        self.bytes.clear();
        self.read = 0;
    }
}
