//! Where a recording is kept.

ghost use Rattle.std.specs.Prelude.{ℕ, List};
ghost use Rattle.record_link.specs.Storing.{AppendsAs};

use std::io;

/// A file to which bytes are appended. It is known what it has.
pub trait Storage: Drop {
    /// All bytes that it has, in order.
    ghost stored: { Self → List ℕ };

    /// Appends the first of these bytes, and answers how many: all, some or none. Where it fails it may have appended
    /// some all the same.
    fn append(&mut self, bytes: &[u8]) -> io::Result<usize>
        ensures { AppendsAs result (stored self.old) (stored self.new) bytes.now };
}
