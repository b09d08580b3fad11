//! What still goes to the sink once a viewer has left: its input that waits, and then the releases.

ghost use Rattle.std.specs.Prelude.{◌≡◌, ◌++◌, false};
ghost use Rattle.roles.specs.Held.{left_in};
ghost use Rattle.viewer_server.specs.Steps.{Leaves};
ghost use Rattle.viewer_session.specs.Acts.{waiting_list};

use crate::visit::Visit;
use fault::Fault;
use link::{Link, Rest, StopFlag};
use reflect_core::ScreenSource;
use roles::InputSink;
use std::sync::Wait;

/// Passes the input that waits to the sink, and then one release after another. Where the sink is full it rests and
/// tries again, until the flag is set. It fails where the sink refuses an input for good.
pub(crate) fn leave<L, S, K, T, F, Z, R>(
    rt: &R,
    visit: &mut Visit<'_, L, S, K, T>,
    stop: &F,
    rest: &Z,
) -> Result<(), Fault>
where
    L: Link,
    S: ScreenSource,
    K: InputSink,
    T: Drop,
    F: StopFlag,
    Z: Rest,
    R: Wait,
    requires { visit.old.is_served ≡ false }
    ensures first { visit.new.first ≡ visit.old.first }
    ensures link { visit.new.link ≡ visit.old.link }
    ensures source { visit.new.source ≡ visit.old.source }
    ensures leaves { Leaves (F.was_set stop.now) K.may_refuse
        (waiting_list visit.old.inbox.waiting ++ left_in visit.old.session.held)
        (K.sent visit.old.sink) (K.sent visit.new.sink) result }
{
    for _ in rt.forever() {
        if !visit.waits() && !visit.release() {
            return Ok(());
        }
        let is_full = visit.pass()?;
        if is_full {
            if stop.is_set() {
                return Ok(());
            }
            rest.rest(rt);
        }
    }
    unreachable!()
}
