//! What went wrong, and where.

use fault::Fault;
use playback::BadPlayback;
use roles::Role;
use std::io;
use std::io::ErrorKind;
use web_root::RootFault;

/// What was being done.
#[derive(Clone, Copy, Debug)]
pub(crate) enum Stage {
    /// Reading the address to listen on for viewers of a role.
    ReadBind(Role),
    /// Reading the address of the proxy that is believed.
    ReadProxy,
    /// Listening for viewers of a role.
    Listen(Role),
    /// Reading this one of the origins.
    ReadOrigin(usize),
    /// Reading the files for browsers.
    ReadRoot(RootFault),
    /// Listening for browsers of a role.
    ListenWeb(Role),
    /// Reading the address to listen on for machines.
    ReadMetrics,
    /// Listening for machines.
    ListenMetrics,
    /// Listening for an operator.
    Control,
    /// Making the files of the recording.
    Record,
    /// Reading the file with the hosts' password.
    ReadPassword,
    /// Reading the file with the password of a role's viewers.
    ReadKey(Role),
    /// Reading the first host's address.
    ReadHost,
    /// Reading the address of this one of the further hosts.
    ReadNext(usize),
    /// Listening for the host of this number, 0 for the first, which calls.
    ListenHost(usize),
    /// Asking the system for the addresses of the host's name.
    LookUp,
    /// Connecting to the host.
    Connect,
    /// Opening the recording that is the host.
    OpenRecording,
    /// The handshake with the host of this number, 0 for the first.
    Join(usize),
    /// Playing the recording that is the host of this number, which can't be played on, for this reason.
    Play(usize, BadPlayback),
    /// Starting the threads.
    Start,
    /// Reflecting.
    Run,
}

/// A fault, what was being done, and what the system said of it.
#[derive(Debug, Drop)]
pub(crate) struct Trouble {
    pub(crate) fault: Fault,
    pub(crate) stage: Stage,
    pub(crate) error: Option<io::Error>,
}

impl Trouble {
    ghost use Rattle.std.specs.Prelude.{◌≡◌, None, Some};
    ghost use Rattle.std.specs.IoError.{error_kind};
    ghost use Rattle.serve.specs.Troubles.{fault_for, is_final_fault};

    /// A fault that the system says nothing of.
    pub(crate) fn new(stage: Stage, fault: Fault) -> Trouble
        ensures { (result.fault ≡ fault) × (result.stage ≡ stage) × (result.error ≡ None) }
    {
        Trouble {
            fault,
            stage,
            error: None,
        }
    }

    /// Whether no host has its turn after it: memory was refused.
    pub(crate) fn is_final(&self) -> bool
        ensures { result ≡ is_final_fault self.now.fault }
    {
        matches!(self.fault, Fault::Memory)
    }

    /// What the system refused: memory, or a connection.
    pub(crate) fn of(stage: Stage, error: io::Error) -> Trouble
        ensures fault { result.fault ≡ fault_for (error_kind error) }
        ensures stage { result.stage ≡ stage }
        ensures error { result.error ≡ Some error }
    {
        let fault = if error.kind() == ErrorKind::OutOfMemory {
            Fault::Memory
        } else {
            Fault::LinkFailed
        };
        Trouble {
            fault,
            stage,
            error: Some(error),
        }
    }
}
