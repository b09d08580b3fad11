//! Faults of reading a folder.

ghost use Rattle.web_root.specs.declared.fault.RootFault.TheVariants.{Memory};

use std::alloc::{AllocError, AllocFailed};
use std::io;
use std::io::ErrorKind;
use web_site::TableFault;

/// Why the files of a folder weren't read.
#[derive(Clone, Copy, Debug, PartialEq, Eq, thiserror::Error)]
pub enum RootFault {
    /// The system refused a folder or a file in it, with this error.
    #[error("a folder or a file in it can't be read: {0}")]
    System(ErrorKind),
    /// There are too many files, or they are too large.
    #[error("{0}")]
    Table(TableFault),
    /// There are more than `MOST_FOLDERS` folders.
    #[error("there are more than 2,000 folders")]
    TooManyFolders,
    /// A folder has more than `MOST_NAMES` names.
    #[error("a folder has more than 20,000 names")]
    TooManyNames,
    /// Memory is refused.
    #[error("memory is refused")]
    Memory,
}

impl From<AllocError> for RootFault {
    ghost use Rattle.std.specs.Prelude.{◌≡◌};

    ghost from_gives = { λ _ fault. fault ≡ Memory };

    fn from(_error: AllocError) -> RootFault {
        RootFault::Memory
    }
}

impl<T: Drop> From<AllocFailed<T>> for RootFault {
    ghost use Rattle.std.specs.Prelude.{◌≡◌};

    ghost from_gives = { λ _ fault. fault ≡ Memory };

    fn from(_error: AllocFailed<T>) -> RootFault {
        RootFault::Memory
    }
}

impl From<io::Error> for RootFault {
    fn from(error: io::Error) -> RootFault {
        match error.kind() {
            ErrorKind::OutOfMemory => RootFault::Memory,
            kind => RootFault::System(kind),
        }
    }
}

impl From<TableFault> for RootFault {
    fn from(fault: TableFault) -> RootFault {
        match fault {
            TableFault::Memory => RootFault::Memory,
            fault => RootFault::Table(fault),
        }
    }
}
