//! How hosts end.

ghost use Rattle.std.specs.Prelude.{◌≡◌};
ghost use Rattle.host_turns.specs.Running.{goes_on};

use fault::Fault;

/// How reading a host, or joining it, has ended.
#[derive(Clone, Copy, Debug)]
pub struct Ending {
    /// The answer of reading or of joining the host.
    pub answer: Result<(), Fault>,
    /// Whether the host had called. Otherwise it was connected to.
    pub has_called: bool,
}

/// Whether the next host is taken after this end of a host.
pub(crate) fn goes_on(ending: &Ending) -> bool
    ensures { result ≡ goes_on ending.now }
{
    match ending.answer {
        Ok(()) => true,
        Err(
            Fault::BadVersion
            | Fault::HostRefused(_)
            | Fault::NoNone
            | Fault::SecurityFailed
            | Fault::BadScreen
            | Fault::LinkFailed
            | Fault::LinkEnded,
        ) => true,
        Err(Fault::Memory | Fault::Gone | Fault::NoPlace | Fault::QueueFull | Fault::NumbersOut) =>
            false,
        Err(_) => ending.has_called,
    }
}
