//! Why an index can't be read.

use std::alloc::AllocFailed;
use thiserror::Error;

/// Why bytes can't be read as an index. Each reason has a number of its own, which programs print.
#[derive(Clone, Copy, Debug, Error)]
pub enum BadIndex {
    /// The bytes neither begin with the line of an index, nor are they a beginning of it.
    #[error("the file does not begin as an index does")]
    NotAnIndex,
    /// A key moment's time is before that of the one before it.
    #[error("the time of the index goes back")]
    TimeGoesBack,
    /// A key moment's place is before that of the one before it.
    #[error("the place in the index goes back")]
    PlaceGoesBack,
    /// Memory was refused.
    #[error("out of memory")]
    Memory,
}

impl BadIndex {
    ghost use Rattle.std.specs.Prelude.{◌≡◌};
    ghost use Rattle.recording_index.specs.BadNumber.{number_of};

    /// The number by which programs name the reason.
    pub fn number(&self) -> u64
        ensures { result ≡ number_of self.now }
    {
        match self {
            BadIndex::NotAnIndex => 1,
            BadIndex::TimeGoesBack => 2,
            BadIndex::PlaceGoesBack => 3,
            BadIndex::Memory => 20,
        }
    }
}

/// Lets `?` answer `Memory` where memory was refused. The value that couldn't be stored is dropped.
impl<T: Drop> From<AllocFailed<T>> for BadIndex {
    ghost use Rattle.std.specs.Prelude.{◌≡◌};
    ghost use Rattle.recording_index.specs.declared.bad.BadIndex.TheVariants.{Memory};

    ghost from_gives = { λ _ bad. bad ≡ Memory };

    fn from(_refused: AllocFailed<T>) -> BadIndex {
        BadIndex::Memory
    }
}
