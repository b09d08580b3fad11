//! Where the inputs come from that a host is told.

ghost use Rattle.std.specs.Prelude.{◌≡◌, List, [], ◌∷◌, ◌++◌, IfSome, IfNone};
ghost use Rattle.atomic_table.specs.Seated.{TableId};
ghost use Rattle.input_relay.specs.Relay.{message};
ghost use Rattle.input_relay.specs.declared.queue.Message.{Message};
ghost use Rattle.input_relay.specs.Ends.{host_of, taken_of};

use input_relay::Taker;
use roles::Input;
use std::sync::Wait;

/// Where the inputs of viewers are taken from: for a writer, the taker of a relay.
///
/// A taker has a handle, since its calls may wait. A telling takes its inputs through this trait, so that none of its
/// own steps has a handle.
pub trait InputSource {
    /// The relay that the inputs are taken from.
    ghost relay: { Self → TableId };

    /// The inputs that were taken, in order, each with the place that sent it.
    ghost taken: { Self → List Message };

    /// The input that has waited longest, with the number of its place; `None` where none waits.
    fn take(&mut self) -> Option<(u64, Input)>
        ensures some { IfSome result (λ r.
            taken self.new ≡ taken self.old ++ message r.0 r.1 ∷ []) }
        ensures none { IfNone result (taken self.new ≡ taken self.old) }
        ensures same { relay self.new ≡ relay self.old };
}

impl<T: Wait + Drop> InputSource for Taker<T> {
    ghost relay = { host_of };

    ghost taken = { taken_of };

    fn take(&mut self) -> Option<(u64, Input)> {
        Taker::take(self)
    }
}
