//! Where viewers come from.

ghost use Rattle.std.specs.Prelude.{◌≡◌, Bool, Result, IfSome, is_some, ⊤};
ghost use Rattle.fault.specs.declared.kinds.Fault.{Fault};
ghost use Rattle.link.specs.Links.{LinkState};
ghost use Rattle.roles.specs.declared.role.Role.{Role};
ghost use Rattle.run_traits.specs.Unused.{unused};

use crate::count::PlaceCount;
use crate::left_link::LeftLink;
use fault::Fault;
use link::Link;

/// Where the viewers of one place come from, one after another.
pub trait Door: Drop {
    /// The viewers' links, which may go to another thread.
    type Viewer: Link + Send;

    /// The fact that its viewers may be served in this role. A door that doesn't say is for either role.
    ghost is_for: { Self → Role → Type 0 } = { λ _ _. ⊤ };

    /// The second door may come of the first when it is asked for the next viewer, where a viewer came (true) or where
    /// none did. Each door says what this means.
    ghost lets_in: { Self → Bool → Self → Type 0 };

    /// The second door may come of the first when it takes back a viewer whose link was left in this state and whose
    /// visit ended with this answer. Each door says what this means.
    ghost sees_off: { Self → LinkState → Result (Unit {0}) Fault → Self → Type 0 };

    /// The next viewer, or `None` where no more come. It may wait without an end.
    fn next(&mut self) -> Option<Self::Viewer>
        ensures came { IfSome result (λ link. Self.Viewer.state link ≡ unused) }
        ensures lets_in { lets_in self.old (is_some result) self.new };

    /// What is counted of the door's viewer while that is served.
    fn count(&self) -> &PlaceCount;

    /// Takes back the link of a viewer that was served to its end, and is told how many answers were begun for it and
    /// how serving ended. No more is given over that link.
    fn left(&mut self, viewer: LeftLink<Self::Viewer>, answers: u64, why: Result<(), Fault>)
        ensures { sees_off self.old (Self.Viewer.state viewer.link) why self.new };
}
