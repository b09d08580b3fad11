//! How a shared screen begins: its publisher and its watchers, made at once.

ghost use Rattle.std.specs.Prelude.{◌≡◌, ◌⊎◌, ◌≤◌, [], length, vec_len, All, IfOk, IfErr};
ghost use Rattle.fault.specs.declared.kinds.Fault.TheVariants.{Memory, NoPlace};
ghost use Rattle.raster.specs.Size.{IsScreenSize};
ghost use Rattle.shared_screen.specs.Publishing.{opening};

use crate::demand::{Claim, Demand};
use crate::ends::{BESIDE_PLACES, eyes};
use crate::eye::Eye;
use crate::glance::Glance;
use crate::naming::Naming;
use crate::opening::Opened;
use crate::publisher::Publisher;
use crate::publishing::opened;
use crate::raiser::tally;
use crate::spares::Spares;
use crate::stamped::Stamped;
use crate::watcher::Watcher;
use fault::Fault;
use std::alloc::Global;
use std::sync::{Arc, Wait};

/// Makes one watcher from each eye.
fn watchers<J: Naming>(
    alloc: Global,
    width: u64,
    height: u64,
    eyes: Vec<Eye<J>>,
    glance: &Glance<J>,
    demand: &Arc<Demand, Global>,
) -> Result<Vec<Watcher<J>>, Fault>
    requires size { (width ≡ J.width) × (height ≡ J.height) }
    requires empty { All (λ eye. eye ≡ []) eyes.items × (glance.now ≡ []) }
    ensures count { IfOk result (λ made. vec_len made ≡ vec_len eyes) }
    ensures made { IfOk result (λ made.
        All (λ w. w ≡ record { updates = []; tally = 0 }) made.items) }
    ensures err { IfErr result (λ fault. fault ≡ Memory) }
{
    let mut made = Vec::new(alloc);
    for eye in eyes {
        let claim = Claim::new(Arc::try_clone(demand)?);
        made.push(Watcher::new(width, height, eye, glance.another()?, claim))?;
    }
    Ok(made)
}

/// A publisher, and a watcher for each of `places`, over an opening screen of `width` by `height` pixels and a history
/// without a change. It fails where memory is refused (`Memory`) or no place for a reader is left (`NoPlace`).
pub fn shared<J: Naming, R: Wait + Drop + Copy>(
    rt: R,
    alloc: Global,
    history: Opened<J>,
    width: u64,
    height: u64,
    places: usize,
) -> Result<(Publisher<J, R>, Vec<Watcher<J>>), Fault>
    requires history { history.seen.book ≡ J.book }
    requires size { IsScreenSize width height × (width ≡ J.width) × (height ≡ J.height) }
    requires places { (1 ≤ places) × (places ≤ 66) }
    ensures publisher { IfOk result (λ ends. ends.0 ≡ opening) }
    ensures count { IfOk result (λ ends. vec_len ends.1 ≡ places) }
    ensures watchers { IfOk result (λ ends.
        All (λ w. w ≡ record { updates = []; tally = 0 }) ends.1.items) }
    ensures err { IfErr result (λ fault. (fault ≡ Memory) ⊎ (fault ≡ NoPlace)) }
{
    let (change_count, author) = history.named();
    let change_count = Arc::new(alloc, change_count)?;
    let (raiser, glance) = tally(&change_count, author)?;
    let front = raiser.front();
    let opening = Stamped::opening(alloc, width, height, &front)?;
    let handle = opened(rt, alloc, &opening, places)?;
    let eyes = eyes(alloc, &handle, &front, places)?;
    let demand = Arc::new(alloc, Demand::new())?;
    let watchers = watchers(alloc, width, height, eyes, &glance, &demand)?;
    let spares = Spares::new(alloc, width, height, opening, places + BESIDE_PLACES)?;
    Ok((Publisher::new(handle, raiser, spares, demand), watchers))
}
