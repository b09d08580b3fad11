//! How a run came to its end.

ghost use Rattle.std.specs.Prelude.{◌≡◌, Err, None};
ghost use Rattle.serve.specs.Statuses.{status_for};

use crate::order::StopOrder;
use crate::status::status_of;
use fault::Fault;
use host_turns::Ending;
use playback::BadPlayback;
use reflector::Ran;

/// How a recording has ended that was played as a host, where it wasn't played to its end.
#[derive(Clone, Copy, Debug)]
pub(crate) enum PlayedEnd {
    /// It is cut off inside a message, or was left there.
    CutOff,
    /// The host of this number can't be played on, for this reason.
    Bad(usize, BadPlayback),
}

/// A run that was run.
#[derive(Drop)]
pub(crate) struct Reflected {
    /// How its last host has ended.
    pub(crate) last: Ending,
    /// How that has ended, if it is a recording that wasn't played to its end.
    pub(crate) played: Option<PlayedEnd>,
    /// What shows that it was run.
    pub(crate) ran: Ran,
}

/// How a run ended that was run, or that an operator has stopped, it may be before its first host was joined.
#[derive(Drop)]
pub(crate) struct Ended {
    /// How its last host has ended. A run that was stopped has ended well, and so has one whose last host is a
    /// recording that is cut off inside a message.
    pub(crate) last: Ending,
    pub(crate) ran: Option<Ran>,
    pub(crate) stopped: Option<StopOrder>,
    /// How the last host has ended, if it is a recording that wasn't played to its end.
    pub(crate) played: Option<PlayedEnd>,
}

/// What `serve` came to.
#[derive(Drop)]
pub struct Served {
    /// The exit status.
    pub status: u8,
    /// What shows that a run was run, and what it was, if one was.
    pub ran: Option<Ran>,
    /// What shows that an operator has asked the run to stop, if one has.
    pub stopped: Option<StopOrder>,
}

impl Served {
    /// No run was run, because of this fault.
    pub(crate) fn without_a_run(fault: Fault) -> Served
        ensures status { result.status ≡ status_for (Err fault) }
        ensures none { (result.ran ≡ None) × (result.stopped ≡ None) }
    {
        Served {
            status: status_of(&Err(fault)),
            ran: None,
            stopped: None,
        }
    }
}
