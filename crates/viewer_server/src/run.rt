//! Serves one viewer, and relays what is left of its input once it has left.

ghost use Rattle.std.specs.Prelude.{◌≡◌, Bool, None, true};
ghost use Rattle.reflect_core.specs.Sequential.{Begins};
ghost use Rattle.roles.specs.declared.role.Role as roles;
ghost use Rattle.viewer_session.specs.Session.{Stands};
ghost use Rattle.viewer_session.specs.Viewer.{Setup, new_viewer};
ghost use Rattle.viewer_server.specs.Serving.{Serves};
ghost use Rattle.viewer_server.specs.Steps.{all_passed};

use crate::breaks::Break;
use crate::leave::leave;
use crate::progress::Progress;
use crate::serve::serve;
use crate::visit::Visit;
use fault::Fault;
use link::{Link, Rest, StopFlag};
use reflect_core::ScreenSource;
use roles::InputSink;
use std::sync::Wait;

/// Serves a viewer over a link, from any source, and relays its input to any sink. Once it has left, its input that
/// waits and then the releases go to the sink, until the sink has taken all of them or the flag is set.
///
/// Before each call of `take` with nothing unsent the session has a turn, and `progress` is told how far the viewer is.
/// While the sink is full no bytes are taken from the viewer, and updates go on. It rests only where the sink is full.
///
/// It is `Ok` where the link ends between two messages with nothing unsent, or where the flag is set. Otherwise it
/// fails: with the fault of the viewer's bytes, with `LinkFailed`, with `LinkEnded`, with `Gone` where a source that
/// may end has ended, or with the fault, any but `QueueFull`, by which the sink refuses an input for good. In the last
/// case that input and all after it are given up: the sink is offered nothing more.
pub fn run_viewer<L, S, K, T, F, Z, P, R>(
    rt: &R,
    visit: &mut Visit<'_, L, S, K, T>,
    stop: &F,
    rest: &Z,
    progress: &P,
) -> Result<(), Fault>
where
    L: Link,
    S: ScreenSource,
    K: InputSink,
    T: Drop,
    F: StopFlag,
    Z: Rest,
    P: Progress,
    R: Wait,
    requires served { visit.old.is_served ≡ true }
    requires uncut { visit.old.session.asked.last ≡ None }
    requires empty { visit.old.inbox ≡ all_passed }
    ensures first { visit.new.first ≡ visit.old.first }
    ensures grows { Begins (S.known visit.old.source) (S.known visit.new.source) }
    ensures serves { (s : Setup) (role : roles.Role) (greet : Bool)
        → Stands s visit.old.session (new_viewer role greet)
        → Serves S.looks S.cuts S.may_end (F.was_set stop.now) K.may_refuse
        visit.old.source visit.new.source (S.known visit.new.source) s
        (new_viewer role greet) (K.sent visit.old.sink) (K.sent visit.new.sink) result
        (L.state visit.old.link) (L.state visit.new.link) }
{
    let served = serve(rt, visit, stop, rest, progress);
    visit.end();
    match served {
        Ok(()) => leave(rt, visit, stop, rest),
        Err(Break::At(fault)) => {
            let _ = leave(rt, visit, stop, rest);
            Err(fault)
        }
        Err(Break::Refused(fault)) => Err(fault),
    }
}
