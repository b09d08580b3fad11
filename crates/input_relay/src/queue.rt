//! The queue between the viewers' places and the host, what each of its ends knows, and the rule that they keep.

ghost use Rattle.std.specs.Prelude.{◌≡◌, [], length};
ghost use Rattle.std.specs.Arc.{arc_value};
ghost use Rattle.crossbeam_queue.specs.Passes.{view, IsPassOf, ruled_capacity};
ghost use Rattle.input_relay.specs.Relay.{sender, taker};

use crossbeam_queue::protocol::{Join, Lesson, Outcome, Protocol, Split};
use crossbeam_queue::{Pass, RuledArrayQueue};
use roles::Input;
use std::alloc::Global;
use std::collections::LinkedList;
use std::sync::{Arc, Wait};

/// An input with the place that sent it.
#[derive(Drop)]
pub struct Message {
    /// The number of the place.
    pub from: u64,
    /// The input that it sent.
    pub input: Input,
}

/// What a place has sent. Only clauses speak of it: no value of this type is ever made.
pub struct Strand {
    /// The number of the place.
    pub from: u64,
    /// All that it has sent, in order.
    pub sent: LinkedList<Input>,
}

/// What the holder of a pass knows. A sender knows its place and what it has sent. The taker knows how many senders
/// were made, what it got, and what the senders that came back had sent. No value of this type is ever made.
pub struct View {
    /// Whether it is a sender's.
    pub sends: bool,
    /// Whether it is the taker's.
    pub gets: bool,
    /// For a sender the number of its place; for the taker how many senders it has made.
    pub from: u64,
    /// What a sender has sent, in order.
    pub put: LinkedList<Input>,
    /// What the taker got, in order.
    pub got: LinkedList<Message>,
    /// What the senders that came back had sent.
    pub known: LinkedList<Strand>,
}

mod ends;

pub use ends::{relay, settle};

/// The queue's rule: the taker gets the inputs of each place in the order in which that place sent them.
pub struct InOrder;

impl Protocol<Message, View> for InOrder {
    ghost use Rattle.std.specs.Prelude.{[]};
    ghost use Rattle.input_relay.specs.Relay.{Delivers, taker};

    ghost holds = { Delivers };

    ghost first = { taker 0 [] [] };
}

/// How a sender is made of the taker's pass: the next place, which has sent nothing.
struct Seats;

impl Split<View> for Seats {
    ghost use Rattle.std.specs.Prelude.{[], ◌+◌};
    ghost use Rattle.input_relay.specs.Relay.{sender, taker};

    ghost left = { λ v. taker (v.from + 1) v.got v.known };

    ghost right = { λ v. sender v.from [] };
}

/// How a sender comes back: the taker knows what it has sent.
struct Back;

impl Join<View> for Back {
    ghost use Rattle.std.specs.Prelude.{[], ◌∷◌, ◌++◌};
    ghost use Rattle.input_relay.specs.Relay.{taker, strand, spent};

    ghost both = { λ v w. taker v.from v.got (v.known ++ strand w.from w.put ∷ []) };

    ghost spent = { spent };
}

/// How a gauge is made of the taker's pass, which stays as it is. A gauge neither sends nor gets.
struct Watched;

impl Split<View> for Watched {
    ghost use Rattle.input_relay.specs.Relay.{spent};

    ghost left = { λ v. v };

    ghost right = { λ v. spent };
}

impl Lesson<Message, View> for Watched {
    ghost fact = { λ v items. Unit {0} };
}

/// What a push does: the sender has sent one more.
struct Sent;

impl Outcome<Message, View> for Sent {
    ghost use Rattle.std.specs.Prelude.{◌≡◌, [], ◌∷◌, ◌++◌};
    ghost use Rattle.input_relay.specs.Relay.{sender};

    ghost then = { λ v x w. w ≡ sender v.from (v.put ++ x.input ∷ []) };
}

impl Lesson<Message, View> for Sent {
    ghost fact = { λ v items. Unit {0} };
}

/// What a pop does: the taker has got one more.
struct Taken;

impl Outcome<Message, View> for Taken {
    ghost use Rattle.std.specs.Prelude.{◌≡◌, [], ◌∷◌, ◌++◌};
    ghost use Rattle.input_relay.specs.Relay.{taker};

    ghost then = { λ v x w. w ≡ taker v.from (v.got ++ x ∷ []) v.known };
}

impl Lesson<Message, View> for Taken {
    ghost use Rattle.std.specs.Prelude.{◌++◌};
    ghost use Rattle.input_relay.specs.Relay.{Accounted};

    ghost fact = { λ v items. Accounted v.known (v.got ++ items) };
}

/// The queue, under that rule.
type Line = RuledArrayQueue<Message, View, InOrder>;

/// The most inputs that can wait.
const ROOM: usize = 256;

/// The most inputs that a place sends. The queue's own numbers last for 64 places.
const MOST: u64 = 1 << 55;

/// The end of the relay that a viewer's place has.
#[derive(Drop)]
pub struct Sender<R: Wait + Drop> {
    line: Arc<Line, Global>,
    pass: Pass<Message, View>,
    place: u64,
    count: u64,
    rt: R,
    ghost seated: { IsPassOf (arc_value line) pass },
    ghost role: { view pass ≡ sender place (view pass).put },
    ghost counted: { count ≡ length (view pass).put },
}

/// The end of the relay that the host's writer has.
#[derive(Drop)]
pub struct Taker<R: Wait + Drop> {
    line: Arc<Line, Global>,
    pass: Pass<Message, View>,
    rt: R,
    ghost seated: { IsPassOf (arc_value line) pass },
    ghost role: { view pass ≡ taker (view pass).from (view pass).got [] },
    ghost room: { ruled_capacity (arc_value line) ≡ 256 },
}

/// The end of the relay by which others see how many inputs wait.
#[derive(Drop)]
pub struct Gauge {
    line: Arc<Line, Global>,
    pass: Pass<Message, View>,
    ghost seated: { IsPassOf (arc_value line) pass },
    ghost room: { ruled_capacity (arc_value line) ≡ 256 },
}

/// A relay whose ends all came back, with the inputs that nobody has taken.
#[derive(Drop)]
pub struct Settled<R: Wait + Drop> {
    line: Arc<Line, Global>,
    pass: Pass<Message, View>,
    rt: R,
    ghost seated: { IsPassOf (arc_value line) pass },
    ghost role: { view pass ≡ taker (view pass).from (view pass).got (view pass).known },
}
