//! The steps of a schedule, and what a world keeps of them.

ghost use Rattle.std.specs.Prelude.{◌≡◌, IfOk, List, Bool};
ghost use Rattle.reflect_world.specs.World.{step_of, step_with};

use roles::Role;
use std::alloc::{AllocError, Global};

/// What may happen next in a reflector. Viewers are named by numbers from 1 to 64; a step of a viewer that isn't there
/// changes nothing.
#[derive(Debug, Drop)]
pub enum Step {
    /// Bytes of the host come. They are kept; `Put` reads on.
    HostBytes(Vec<u8>),
    /// The next update in the host's bytes is put, if there is one.
    Put,
    /// The tally becomes the number of updates.
    Raise,
    /// The host has ended, and the next begins with a switch to black, which the next `Put` puts. This happens only
    /// where no update of the old host is left to be put and its bytes are at no fault.
    Next,
    /// Bytes of a viewer come, and are read.
    Bytes(u64, Vec<u8>),
    /// A viewer's session looks at the tally, where all its bytes are written and it has no fault: the first half of a
    /// turn.
    Look(u64),
    /// A viewer's session cuts and answers, where there is reason to: the second half of a turn. It is taken only where
    /// that viewer's last step was its `Look`.
    Cut(u64),
    /// This many more of a viewer's unsent bytes are written, at most those there are.
    Written(u64, u64),
    /// A viewer's waiting input goes into the queue to the host, if there is room.
    Send(u64),
    /// The queue's first input is taken, if there is one, and goes to the host unless it breaks into another viewer's
    /// stroke.
    Take,
}

/// An entry of the schedule that a world keeps: a viewer joined or left, or a step was played, with marks for the texts
/// of a viewer that it completed.
#[derive(Drop)]
pub(crate) enum ScheduleEntry {
    /// A viewer of this number and role joined: with its hello where the last field is true, otherwise after it.
    Joined(u64, Role, bool),
    /// The viewer of this number left.
    Left(u64),
    /// This step was played. The marks say of each text that it completed whether the text found no memory.
    Played(Step, Vec<bool>),
}

impl Step {
    /// A copy of the step, with bytes of its own. It fails where memory is refused.
    pub fn copy(&self, alloc: Global) -> Result<Step, AllocError>
        ensures same { IfOk result (λ same. step_of same ≡ step_of self.now) }
        ensures marked { IfOk result (λ same.
            (lost : List Bool) → step_with same lost ≡ step_with self.now lost) }
    {
        Ok(match self {
            Step::HostBytes(bytes) => Step::HostBytes(Vec::from_slice(alloc, bytes.as_slice())?),
            Step::Put => Step::Put,
            Step::Raise => Step::Raise,
            Step::Next => Step::Next,
            Step::Bytes(viewer, bytes) => Step::Bytes(
                *viewer,
                Vec::from_slice(alloc, bytes.as_slice())?,
            ),
            Step::Look(viewer) => Step::Look(*viewer),
            Step::Cut(viewer) => Step::Cut(*viewer),
            Step::Written(viewer, count) => Step::Written(*viewer, *count),
            Step::Send(viewer) => Step::Send(*viewer),
            Step::Take => Step::Take,
        })
    }
}
