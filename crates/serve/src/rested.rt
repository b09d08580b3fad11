//! A pause that was made.

ghost use Rattle.std.specs.Prelude.{◌≡◌, ◌*◌, IfOk};
ghost use Rattle.std.specs.Duration.{as_nanos};

use std::thread;
use std::time::{Clock, Duration};

/// Who may call a pause off.
pub(crate) trait CallsOff {
    /// What shows that a pause was called off.
    type Order: Drop;

    /// What shows that the pause is called off, if it is.
    fn order(&self) -> Option<Self::Order>;
}

/// Whoever has one has let so many seconds pass: only `after` and `after_unless` make it. No clause says that the
/// system lets them pass.
#[derive(Debug, Drop)]
pub struct Rested {
    seconds: u64,
}

/// So many seconds.
fn seconds_long(seconds: u64) -> Duration
    ensures { as_nanos result ≡ seconds * 1_000_000_000 }
{
    Duration::from_secs(seconds)
}

impl Rested {
    /// Lets so many seconds pass.
    pub fn after<R: Clock>(rt: &R, seconds: u64) -> Rested
        ensures { result.seconds ≡ seconds }
    {
        thread::sleep(rt, seconds_long(seconds));
        Rested { seconds }
    }

    /// Lets so many seconds pass, unless the pause is called off. Before each second it looks whether it is.
    pub(crate) fn after_unless<R: Clock, C: CallsOff>(
        rt: &R,
        seconds: u64,
        caller: &C,
    ) -> Result<Rested, C::Order>
        ensures { IfOk result (λ rested. rested.seconds ≡ seconds) }
    {
        for _second in 0..seconds {
            if let Some(order) = caller.order() {
                return Err(order);
            }
            thread::sleep(rt, seconds_long(1));
        }
        Ok(Rested { seconds })
    }
}
