//! What can be wrong with a peer, a link or a call.

use crate::reason::Reason;
use std::alloc::{AllocError, AllocFailed};
use thiserror::Error;

/// Why a message, a handshake or a call is refused. Each fault has a number of its own, which programs print.
#[derive(Clone, Copy, Debug, Error)]
pub enum Fault {
    /// The peer's first 12 bytes aren't a version that is accepted (RFC 6143, section 7.1.1).
    #[error("the protocol version is not accepted")]
    BadVersion,
    /// The host offers no security type; its reason, of which the first 255 bytes are kept (section 7.1.2).
    #[error("the host refused the connection")]
    HostRefused(Reason),
    /// The host doesn't offer security type None (sections 7.1.2 and 7.2.1).
    #[error("the host does not offer security type None")]
    NoNone,
    /// The host's SecurityResult isn't OK (section 7.1.3).
    #[error("the host reported a failed handshake")]
    SecurityFailed,
    /// The host's screen, as ServerInit tells it (section 7.3.2), has a width or a height that is 0 or over 4096.
    #[error("the host's screen has a size that is not served")]
    BadScreen,
    /// The peer sent a message type that its side doesn't send (sections 7.5 and 7.6).
    #[error("unknown message type {0}")]
    UnknownMessage(u8),
    /// A rectangle of the host leaves the screen (section 7.6.1).
    #[error("a rectangle leaves the screen")]
    RectOutside,
    /// A rectangle of the host has an encoding that wasn't asked for (sections 7.5.2 and 7.6.1).
    #[error("a rectangle has an unknown encoding")]
    UnknownEncoding,
    /// A subrectangle leaves its rectangle (RRE, section 7.7.3) or its tile (Hextile, section 7.7.4).
    #[error("a subrectangle leaves its rectangle or tile")]
    SubrectOutside,
    /// A Hextile tile has no background, and none is carried (section 7.7.4).
    #[error("a tile has no background colour")]
    NoBackground,
    /// A Hextile tile of plain subrectangles has no foreground, and none is carried (section 7.7.4).
    #[error("a tile has no foreground colour")]
    NoForeground,
    /// A viewer's pixel format isn't accepted (sections 7.4 and 7.5.1).
    #[error("the pixel format is not accepted")]
    BadFormat,
    /// A viewer chose a security type that wasn't offered (section 7.1.2).
    #[error("the chosen security type was not offered")]
    BadChoice,
    /// The source of a CopyRect leaves the screen (section 7.7.2).
    #[error("the source of a copy leaves the screen")]
    CopyOutside,
    /// Memory was refused.
    #[error("out of memory")]
    Memory,
    /// The link failed, or there is none: an address that can't be reached, a port that can't be bound.
    #[error("the link failed")]
    LinkFailed,
    /// The link ended inside a message, a hello or an answer, or before all was written.
    #[error("the link ended too early")]
    LinkEnded,
    /// The publisher of the screen has ended.
    #[error("the screen is no longer published")]
    Gone,
    /// No place for a reader was left while the pair of screens was made.
    #[error("no place for a reader is left")]
    NoPlace,
    /// The queue of input was full at a moment of the call.
    #[error("the queue of input is full")]
    QueueFull,
    /// Numbers have run out: of updates, or of inputs.
    #[error("the numbers have run out")]
    NumbersOut,
}

impl Fault {
    ghost use Rattle.std.specs.Prelude.{◌≡◌};
    ghost use Rattle.fault.specs.FaultNumber.{number_of};

    /// The number by which programs and scripts name the fault.
    pub fn number(&self) -> u64
        ensures { result ≡ number_of self.now }
    {
        match self {
            Fault::BadVersion => 1,
            Fault::HostRefused(_) => 2,
            Fault::NoNone => 3,
            Fault::SecurityFailed => 4,
            Fault::BadScreen => 5,
            Fault::UnknownMessage(_) => 6,
            Fault::RectOutside => 7,
            Fault::UnknownEncoding => 8,
            Fault::SubrectOutside => 9,
            Fault::NoBackground => 10,
            Fault::NoForeground => 11,
            Fault::BadFormat => 12,
            Fault::BadChoice => 13,
            Fault::CopyOutside => 14,
            Fault::Memory => 20,
            Fault::LinkFailed => 21,
            Fault::LinkEnded => 22,
            Fault::Gone => 23,
            Fault::NoPlace => 24,
            Fault::QueueFull => 30,
            Fault::NumbersOut => 31,
        }
    }
}

/// Lets `?` answer `Memory` where memory was refused.
impl From<AllocError> for Fault {
    ghost use Rattle.std.specs.Prelude.{◌≡◌};
    ghost use Rattle.fault.specs.declared.kinds.Fault.TheVariants.{Memory};

    ghost from_gives = { λ _ fault. fault ≡ Memory };

    fn from(_refused: AllocError) -> Fault {
        Fault::Memory
    }
}

/// Does the same where the value that couldn't be stored comes back, as from `Vec::push`. That value is dropped.
impl<T: Drop> From<AllocFailed<T>> for Fault {
    ghost use Rattle.std.specs.Prelude.{◌≡◌};
    ghost use Rattle.fault.specs.declared.kinds.Fault.TheVariants.{Memory};

    ghost from_gives = { λ _ fault. fault ≡ Memory };

    fn from(_refused: AllocFailed<T>) -> Fault {
        Fault::Memory
    }
}
