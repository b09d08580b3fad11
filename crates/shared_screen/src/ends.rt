//! The readers' ends of a new pair, made at once.

ghost use Rattle.std.specs.Prelude.{◌≡◌, ◌⊎◌, [], vec_len, All, IfOk, IfErr};
ghost use Rattle.fault.specs.declared.kinds.Fault.TheVariants.{Memory, NoPlace};

use crate::eye::Eye;
use crate::front::HistoryFront;
use crate::naming::Naming;
use crate::published::Published;
use crate::stamped::Stamped;
use fault::Fault;
use left_right::WriteHandle;
use std::alloc::Global;
use std::sync::Wait;

/// How many boards there may be besides one for each place: one for each of the two copies, and the one that is being
/// made.
pub const BESIDE_PLACES: usize = 3;

/// Makes this many eyes of a pair, which know no update yet. It fails where memory is refused (`Memory`) or no place is
/// left (`NoPlace`).
pub fn eyes<J: Naming, R: Wait + Drop>(
    alloc: Global,
    handle: &WriteHandle<Published<J>, Stamped<J>, R>,
    front: &HistoryFront<J>,
    places: usize,
) -> Result<Vec<Eye<J>>, Fault>
    ensures count { IfOk result (λ eyes. vec_len eyes ≡ places) }
    ensures empty { IfOk result (λ eyes. All (λ eye. eye ≡ []) eyes.items) }
    ensures err { IfErr result (λ fault. (fault ≡ Memory) ⊎ (fault ≡ NoPlace)) }
{
    let mut eyes = Vec::new(alloc);
    for _ in 0..places {
        // The two reasons for a refusal look the same here: no place is free, or the count of owners is full.
        let Ok(reader) = handle.handle() else {
            return Err(Fault::NoPlace);
        };
        eyes.push(Eye::new(reader, front))?;
    }
    Ok(eyes)
}
