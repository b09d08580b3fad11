//! The sender of one place, known by a name.

ghost use Rattle.std.specs.Prelude.{◌≡◌, ◌⊎◌};
ghost use Rattle.fault.specs.declared.kinds.Fault.TheVariants.{QueueFull, NumbersOut};
ghost use Rattle.input_relay.specs.Ends.{inputs_of, place_of, relay_of};

use fault::Fault;
use input_relay::Sender;
use roles::{Input, InputSink};
use std::marker::{Brand, PhantomData};
use std::sync::Wait;

/// Names a sender: its relay, and its place there. A sink with that name stays the same sender, whatever it is lent to.
/// No value of such a type is ever made. It isn't the seat at which a place's thread waits (`connections::Seat`).
pub(crate) trait SenderName {
    ghost use Rattle.std.specs.Prelude.{ℕ};
    ghost use Rattle.atomic_table.specs.Seated.{TableId};

    /// The relay of which it is a sender.
    ghost relay: { TableId };

    /// The number of the place.
    ghost place: { ℕ };
}

impl SenderName for Brand {
    ghost use Rattle.reflector.specs.Senders.{no_relay};

    ghost relay = { no_relay };

    ghost place = { 0 };
}

/// The sender that has this name.
#[derive(Drop)]
pub(crate) struct NamedSender<T: SenderName, R: Wait + Drop> {
    sender: Sender<R>,
    of: PhantomData<T>,
    ghost is_named: { (relay_of sender ≡ T.relay) × (place_of sender ≡ T.place) },
}

impl<T: SenderName, R: Wait + Drop> NamedSender<T, R> {
    pub(crate) fn new(sender: Sender<R>) -> Self
        requires { (relay_of sender ≡ T.relay) × (place_of sender ≡ T.place) }
        ensures { result.sender ≡ sender }
    {
        NamedSender {
            sender,
            of: PhantomData,
        }
    }

    /// The sender again.
    pub(crate) fn into_sender(self) -> Sender<R>
        ensures named { (relay_of result ≡ T.relay) × (place_of result ≡ T.place) }
        ensures same { result ≡ self.sender }
    {
        let NamedSender { sender, of: _ } = self;
        sender
    }
}

impl<T: SenderName, R: Wait + Drop> InputSink for NamedSender<T, R> {
    ghost sent = { λ named. inputs_of named.sender };

    ghost may_refuse = { λ fault. (fault ≡ QueueFull) ⊎ (fault ≡ NumbersOut) };

    fn send(&mut self, input: Input) -> Result<(), (Fault, Input)> {
        self.sender.send(input)
    }
}
