//! The loop that tells the host.

ghost use Rattle.std.specs.Prelude.{◌≡◌, [], MatchResult, length};
ghost use Rattle.host_writer.specs.Dropping.{IsCounted};
ghost use Rattle.host_writer.specs.Moment.{Gives, IsOpen, StopsSaying};
ghost use Rattle.host_writer.specs.Saying.{begun, left_of};
ghost use Rattle.host_writer.specs.Writing.{Tells, answer_at, whole_request};

use crate::dropped::DropCount;
use crate::input_source::InputSource;
use crate::telling::Telling;
use fault::Fault;
use link::{Halt, Link, Rest, StopFlag};
use reflect_core::ScreenSource;
use std::sync::Wait;

/// What a run answers where giving stopped for this reason.
fn answer_at(halt: Halt) -> Result<(), Fault>
    ensures { result ≡ answer_at halt }
{
    match halt {
        Halt::Stopped | Halt::Before => Ok(()),
        Halt::Inside => Err(Fault::LinkEnded),
        Halt::Failed => Err(Fault::LinkFailed),
    }
}

/// Gives all that is left of what is said. While the link takes nothing it asks again, until the flag is set; it waits
/// as the link does.
fn give_out<L, S, K, D, T, F, R>(
    rt: &R,
    telling: &mut Telling<'_, L, S, K, D, T>,
    stop: &F,
) -> Result<(), Halt>
where
    L: Link,
    S: ScreenSource,
    K: InputSource,
    D: DropCount,
    T: Drop,
    F: StopFlag,
    R: Wait,
    ensures gives { Gives telling.old.saying telling.new.saying (L.state telling.old.link)
        (L.state telling.new.link) }
    ensures stops { MatchResult result
        (λ _. IsOpen (L.state telling.old.link) (L.state telling.new.link)
        × (left_of telling.new.saying ≡ []))
        (λ halt.
        StopsSaying (F.was_set stop.now) halt telling.new.saying (L.state telling.old.link)
        (L.state telling.new.link)) }
    ensures others { (telling.new.source ≡ telling.old.source)
        × (telling.new.taker ≡ telling.old.taker) × (telling.new.strokes ≡ telling.old.strokes)
        × (telling.new.drops ≡ telling.old.drops) × (telling.new.request ≡ telling.old.request)
        × (telling.new.asked ≡ telling.old.asked) × (telling.new.first ≡ telling.old.first) }
{
    for _ in rt.forever() {
        if !telling.has_left() {
            return Ok(());
        }
        let was_given = telling.give()?;
        if !was_given && stop.is_set() {
            return Err(Halt::Stopped);
        }
    }
    unreachable!()
}

/// Tells the host the inputs that it takes from the relay, one after another. For each look whose reply is above 0 and
/// above each reply before it, it asks once for what is new of the whole screen (RFC 6143, 7.5.3). It rests where no
/// input was taken and the reply hasn't risen.
///
/// The host is told the inputs that the strokes let pass: none of a place while another has a key or a button down. An
/// input that doesn't pass is dropped, and counted twice: in the strokes for its place, and in the drops for all places
/// together.
///
/// It is `Ok` where the flag is set, and where the link ends before the first byte of a spelling. It is `LinkEnded`
/// where the link ends inside a spelling, and `LinkFailed` where the link fails. In each case the end of what was said
/// last may be missing.
///
/// Of what matters it is lent the telling alone: it can call the telling's steps, and rest, and nothing else.
pub fn run_writer<L, S, K, D, T, F, Z, R>(
    rt: &R,
    telling: &mut Telling<'_, L, S, K, D, T>,
    stop: &F,
    rest: &Z,
) -> Result<(), Fault>
where
    L: Link,
    S: ScreenSource,
    K: InputSource,
    D: DropCount,
    T: Drop,
    F: StopFlag,
    Z: Rest,
    R: Wait,
    requires begins { (telling.old.saying ≡ begun []) × (telling.old.asked ≡ 0) }
    requires whole { telling.old.request
        ≡ whole_request (S.width telling.old.source) (S.height telling.old.source) }
    ensures relay { K.relay telling.new.taker ≡ K.relay telling.old.taker }
    ensures places { length telling.new.strokes.counts ≡ length telling.old.strokes.counts }
    ensures counted { IsCounted (K.taken telling.old.taker) telling.old.strokes
        (D.dropped telling.old.drops)
        → IsCounted (K.taken telling.new.taker) telling.new.strokes (D.dropped telling.new.drops) }
    ensures tells { Tells S.looks (F.was_set stop.now) telling.old.source telling.new.source
        (K.taken telling.old.taker) (K.taken telling.new.taker) telling.old.strokes
        telling.new.strokes (S.width telling.old.source)
        (S.height telling.old.source) result (L.state telling.old.link) (L.state telling.new.link) }
    ensures first { telling.new.first ≡ telling.old.first }
{
    for _ in rt.forever() {
        if stop.is_set() {
            return Ok(());
        }
        let was_taken = telling.take_input();
        if let Err(halt) = give_out(rt, telling, stop) {
            return answer_at(halt);
        }
        let has_risen = telling.look();
        if let Err(halt) = give_out(rt, telling, stop) {
            return answer_at(halt);
        }
        if !was_taken && !has_risen {
            rest.rest(rt);
        }
    }
    unreachable!()
}
