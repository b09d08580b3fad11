//! How a publisher changes the two copies of a pair, by the handle that it keeps.

ghost use Rattle.std.specs.Prelude.{◌≡◌, ◌^◌, ◌<◌, ◌≤◌, [], length, suc, IfOk, IfErr, MatchResult};
ghost use Rattle.left_right.specs.Handles.{published, pending};
ghost use Rattle.fault.specs.declared.kinds.Fault.TheVariants.{Memory};
ghost use Rattle.shared_screen.specs.History.{puts_of};

use crate::front::HistoryFront;
use crate::naming::Naming;
use crate::pair_news::PairNews;
use crate::published::Published;
use crate::publishes::Publishes;
use crate::stamped::Stamped;
use fault::Fault;
use left_right::WriteHandle;
use std::alloc::Global;
use std::sync::Wait;

/// A pair of opening screens, and room for `places` readers and for the operations of each later put. It fails where
/// memory is refused (`Memory`).
pub fn opened<J: Naming, R: Wait + Drop>(
    rt: R,
    alloc: Global,
    opening: &Stamped<J>,
    places: usize,
) -> Result<WriteHandle<Published<J>, Stamped<J>, R>, Fault>
    requires empty { opening.now ≡ [] }
    requires places { (0 < places) × (places < 2 ^ 32) }
    ensures ok { IfOk result (λ handle. (published handle ≡ []) × (pending handle ≡ [])) }
    ensures err { IfErr result (λ fault. fault ≡ Memory) }
{
    let first = Published::new(alloc, opening)?;
    let second = Published::new(alloc, opening)?;
    let mut handle = WriteHandle::new(alloc, rt, first, second, places)?;
    // An operation that changes no copy. Its room stays, so that no operation is refused room once the history has
    // changed.
    let Some(nothing) = opening.another() else {
        return Err(Fault::Memory);
    };
    let Ok(()) = handle.append(nothing) else {
        return Err(Fault::Memory);
    };
    handle.publish().unwrap();
    Ok(handle)
}

/// Publishes a board whose history has one update more. It may wait for a reader that is still inside the copy from
/// before the last call. Where memory is refused (`Memory`) readers see what they saw before.
pub fn publish<J: Naming, R: Wait + Drop>(
    handle: &mut WriteHandle<Published<J>, Stamped<J>, R>,
    next: Stamped<J>,
) -> Result<(), Fault>
    requires idle { pending handle.old ≡ [] }
    requires next { suc (length (puts_of (published handle.old))) ≡ length (puts_of next) }
    ensures idle { pending handle.new ≡ [] }
    ensures published { MatchResult result (λ _. published handle.new ≡ next)
        (λ fault. (fault ≡ Memory) × (published handle.new ≡ published handle.old)) }
{
    let Ok(()) = handle.append(next) else {
        return Err(Fault::Memory);
    };
    handle.publish().unwrap();
    Ok(())
}

/// Makes news of what is published.
pub fn news_of<J: Naming + Publishes, R: Wait + Drop>(
    handle: &WriteHandle<Published<J>, Stamped<J>, R>,
) -> PairNews<J>
    ensures news { result ≡ puts_of (published handle.now) }
    ensures published { J.published result }
    ensures few { length result ≤ 2 ^ 62 }
{
    J::known_by(handle);
    let copy = handle.published();
    PairNews {
        front: copy.front(),
        number: copy.number(),
    }
}
