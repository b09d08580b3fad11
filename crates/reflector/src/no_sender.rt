//! What viewers that only look on have in place of a sender.

ghost use Rattle.std.specs.Prelude.{◌≡◌, ◌⊎◌};
ghost use Rattle.fault.specs.declared.kinds.Fault.TheVariants.{NumbersOut, QueueFull};
ghost use Rattle.input_relay.specs.Ends.{inputs_of};

use fault::Fault;
use input_relay::Sender;
use roles::{Input, InputSink};
use std::snapshot::Snapshot;
use std::sync::Wait;

/// A sink that takes no input. What counts as sent to it is what the sender of its place had sent, which can't change.
#[derive(Drop)]
pub(crate) struct NoSender<R: Wait + Drop> {
    of: Snapshot<Sender<R>>,
}

impl<R: Wait + Drop> NoSender<R> {
    /// The sink of a place whose sender isn't used.
    pub(crate) fn of(sender: &Sender<R>) -> Self
        ensures { result.of.value ≡ sender.now }
    {
        NoSender {
            of: Snapshot::of(sender),
        }
    }
}

impl<R: Wait + Drop> InputSink for NoSender<R> {
    ghost sent = { λ sink. inputs_of sink.of.value };

    ghost may_refuse = { λ fault. (fault ≡ QueueFull) ⊎ (fault ≡ NumbersOut) };

    fn send(&mut self, input: Input) -> Result<(), (Fault, Input)> {
        Err((Fault::NumbersOut, input))
    }
}
