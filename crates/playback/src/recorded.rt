//! Where a recording is read.

ghost use Rattle.std.specs.Prelude.{◌≡◌, ◌<◌, ℕ, List, length};
ghost use Rattle.playback.specs.Files.{ReadsAs, GoesAs};

use std::io;

/// A file that is read, from its beginning or from another place on. It is known what was read.
pub trait Recorded: Drop {
    /// Where reading began, in bytes from the file's beginning: 0, or the place to which it went last.
    ghost start: { Self → ℕ };

    /// All bytes that were read from there on, in order.
    ghost so_far: { Self → List ℕ };

    /// The fact that a file has these bytes from this place on, and no more. Only `read` tells it.
    ghost is_all: { ℕ → List ℕ → Type 0 };

    /// The fact that a file has failed. Only errors tell it.
    ghost has_failed: { Type 0 };

    /// Reads the next bytes into the front of the slice, and answers how many, as many or as few as the system likes. 0
    /// is the end of the file. After an error other than `Interrupted` the file isn't read any more.
    fn read(&mut self, into: &mut [u8]) -> io::Result<usize>
        requires { 0 < length into.old }
        ensures start { start self.new ≡ start self.old }
        ensures bytes { ReadsAs result (is_all (start self.old)) has_failed
            (so_far self.old) (so_far self.new) into.new };

    /// Has reading go on at this place, in bytes from the file's beginning. It may lie behind the end.
    fn go_to(&mut self, place: u64) -> io::Result<()>
        ensures { GoesAs result has_failed place (start self.old) (start self.new)
            (so_far self.old) (so_far self.new) };
}
