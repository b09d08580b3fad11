//! How a sender takes the input of a viewer, as an `InputSink`.

ghost use Rattle.std.specs.Prelude.{◌≡◌, List, [], ◌∷◌, ◌++◌, ◌⊎◌, OnOk, IfErr};
ghost use Rattle.roles.specs.Held.{input_in};
ghost use Rattle.fault.specs.declared.kinds.Fault.TheVariants.{QueueFull, NumbersOut};
ghost use Rattle.input_relay.specs.Ends.{inputs_of};

use crate::queue::Sender;
use fault::Fault;
use roles::{Input, InputSink};
use std::sync::Wait;

impl<R: Wait + Drop> InputSink for Sender<R> {
    ghost sent = { inputs_of };

    ghost may_refuse = { λ fault. (fault ≡ QueueFull) ⊎ (fault ≡ NumbersOut) };

    fn send(&mut self, input: Input) -> Result<(), (Fault, Input)> {
        Sender::send(self, input)
    }
}
