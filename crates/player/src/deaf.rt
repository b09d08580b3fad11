//! The link to whoever hears nothing.

ghost use Rattle.std.specs.Prelude.{◌≡◌};

use link::{Gave, Link, Record, Took};

/// A link whose peer takes all that it is given, forgets it, and says nothing: the end of a recording that is told what
/// viewers type.
#[derive(Drop)]
pub struct DeafLink {
    given: Record,
}

impl DeafLink {
    ghost use Rattle.std.specs.Prelude.{◌≡◌};
    ghost use Rattle.run_traits.specs.Unused.{unused};
    ghost use Rattle.player.specs.Played.{deaf_state};

    /// A link over which nothing was given.
    pub fn new() -> DeafLink
        ensures { deaf_state result ≡ unused }
    {
        DeafLink {
            given: Record::new(),
        }
    }
}

impl Link for DeafLink {
    ghost use Rattle.std.specs.Prelude.{◌≡◌, ◌<◌, length};
    ghost use Rattle.link.specs.Links.{GivesAs};
    ghost use Rattle.link.specs.declared.link.Gave.TheVariants as Gave;
    ghost use Rattle.player.specs.Played.{deaf_state};

    ghost state = { deaf_state };

    fn take(&mut self, _into: &mut [u8]) -> Took {
        Took::Nothing
    }

    fn give(&mut self, bytes: &[u8]) -> Gave
        requires { 0 < length bytes.now }
        ensures gives { GivesAs result (deaf_state self.old) (deaf_state self.new) bytes.now }
        ensures all { result ≡ Gave.Bytes (length bytes.now) }
    {
        self.given.note(bytes);
        Gave::Bytes(bytes.len())
    }

    fn failures(&self) -> u64 {
        0
    }
}
