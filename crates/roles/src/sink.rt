//! Where input goes.

ghost use Rattle.std.specs.Prelude.{◌≡◌, List, [], ◌∷◌, ◌++◌, OnOk, IfErr};
ghost use Rattle.fault.specs.declared.kinds.Fault.{Fault};
ghost use Rattle.roles.specs.Allowed as definitions;
ghost use Rattle.roles.specs.Held.{input_in};

use crate::input::Input;
use fault::Fault;

/// What takes the input of one viewer on its way to the host.
pub trait InputSink {
    /// The inputs that it has taken, in order.
    ghost sent: { Self → List definitions.Input };

    /// It may refuse an input with this fault.
    ghost may_refuse: { Fault → Type 0 };

    /// Takes an input. Where it is refused nothing has changed, and the input comes back: with `QueueFull` where there
    /// is no room now, with another fault where there will never be room again.
    fn send(&mut self, input: Input) -> Result<(), (Fault, Input)>
        ensures ok { OnOk result (sent self.new ≡ sent self.old ++ input_in input ∷ []) }
        ensures err { IfErr result (λ refused.
            (sent self.new ≡ sent self.old) × (refused.1 ≡ input) × may_refuse refused.0) };
}
