//! Where the files of a web port are read from.

ghost use Rattle.std.specs.Prelude.{List, ℕ, IfOk};
ghost use Rattle.web_site.specs.declared.walk.Found.{Found};

use std::alloc::Global;
use std::io;
use web_site::Found;

/// Where files are read from: the system's disk in a run, and memory in a test. Paths are relative to a root and begin
/// with a slash; the path of the root is empty.
pub trait Disk {
    /// The disk said that this is under a path.
    ghost has: { Self → List ℕ → Found → Type 0 };

    /// The disk gave these bytes as those of the file at a path.
    ghost gave: { Self → List ℕ → List ℕ → Type 0 };

    /// The names in the folder at this path: all of them, or one more than `MOST_NAMES`.
    fn names(&self, alloc: Global, folder: &str) -> io::Result<Vec<String>>;

    /// What is under this path. A symbolic link isn't followed.
    fn look(&self, path: &str) -> io::Result<Found>
        ensures { IfOk result (λ found. has self.now path.now found) };

    /// The bytes of the file at this path, at most this many of them.
    fn read(&self, alloc: Global, path: &str, most: u64) -> io::Result<Vec<u8>>
        ensures { IfOk result (λ bytes. gave self.now path.now bytes.items) };
}
