//! What the ends of the relay do.

ghost use Rattle.std.specs.Prelude.{◌≡◌, ◌+◌, ◌<◌, ◌≤◌, [], ◌∷◌, ◌++◌, map, length, vec_len, List, IfOk, OnOk, IfErr, IfSome, IfNone, All};
ghost use Rattle.fault.specs.declared.kinds.Fault.TheVariants.{Memory};
ghost use Rattle.std.specs.Arc.{arc_value};
ghost use Rattle.crossbeam_queue.specs.Passes.{view, IsPassOf, ruled_capacity};
ghost use Rattle.input_relay.specs.Relay.{message, strand, taker, Accounted};
ghost use Rattle.input_relay.specs.declared.queue.Message.{Message};
ghost use Rattle.input_relay.specs.Ends.{place_of, sent_of, relay_of, taken_of, host_of, IsRefusal, seen_by, strand_of, fresh, taken_at_end, known_at_end, relay_at_end};

use super::{
    Back, Gauge, Line, MOST, Message, ROOM, Seats, Sender, Sent, Settled, Taken, Taker, View,
    Watched,
};
use crossbeam_queue::Pass;
use fault::Fault;
use roles::Input;
use std::alloc::Global;
use std::sync::{Arc, Wait};

impl<R: Wait + Drop> Sender<R> {
    /// The number of this end's place, below the number of places.
    pub fn place(&self) -> u64
        ensures { result ≡ place_of self.now }
    {
        self.place
    }

    /// Sends an input, after all that this place has sent. It fails where 256 inputs are waiting (`QueueFull`) and, for
    /// good, where this place has sent 2^55 (`NumbersOut`); then the input comes back and nothing has changed. It may
    /// wait where another thread stands still inside a call.
    pub fn send(&mut self, input: Input) -> Result<(), (Fault, Input)>
        ensures ok { OnOk result (sent_of self.new ≡ sent_of self.old ++ input ∷ []) }
        ensures err { IfErr result (λ refused. (sent_of self.new ≡ sent_of self.old)
            × (refused.1 ≡ input) × IsRefusal refused.0 (length (sent_of self.old))) }
        ensures same { (place_of self.new ≡ place_of self.old)
            × (relay_of self.new ≡ relay_of self.old) }
    {
        if self.count >= MOST {
            return Err((Fault::NumbersOut, input));
        }
        let message = Message {
            from: self.place,
            input,
        };
        match self
            .line
            .push_as::<Sent, R>(&self.rt, &mut self.pass, message)
        {
            Ok(()) => {
                self.count += 1;
                Ok(())
            }
            Err(back) => {
                let Message { from: _, input } = back;
                Err((Fault::QueueFull, input))
            }
        }
    }
}

impl<R: Wait + Drop> Taker<R> {
    /// The input that has waited longest, with the number of its place; `None` where none waits. The inputs of one
    /// place come in the order in which it sent them.
    pub fn take(&mut self) -> Option<(u64, Input)>
        ensures some { IfSome result (λ r.
            taken_of self.new ≡ taken_of self.old ++ message r.0 r.1 ∷ []) }
        ensures none { IfNone result (taken_of self.new ≡ taken_of self.old) }
        ensures same { host_of self.new ≡ host_of self.old }
    {
        match self.line.pop_as::<Taken, R>(&self.rt, &mut self.pass) {
            Some(message) => {
                let Message { from, input } = message;
                Some((from, input))
            }
            None => None,
        }
    }

    /// A gauge of this relay. It fails where memory is refused (`Memory`). Either way nothing is taken.
    pub fn gauge(&mut self) -> Result<Gauge, Fault>
        ensures own { IfOk result (λ gauge. seen_by gauge ≡ host_of self.old) }
        ensures taken { taken_of self.new ≡ taken_of self.old }
        ensures same { host_of self.new ≡ host_of self.old }
        ensures err { IfErr result (λ fault. fault ≡ Memory) }
    {
        let line = Arc::try_clone(&self.line)?;
        let pass = self.line.another::<Watched>(&mut self.pass);
        Ok(Gauge { line, pass })
    }
}

impl Gauge {
    /// How many inputs of all places waited at one moment of the call: at most 256. It takes none of them. It may wait
    /// where another thread stands still inside a call.
    pub fn waiting<R: Wait>(&mut self, rt: &R) -> usize
        ensures most { result ≤ 256 }
        ensures same { seen_by self.new ≡ seen_by self.old }
    {
        self.line.len_as::<Watched, R>(rt, &mut self.pass)
    }
}

impl<R: Wait + Drop> Settled<R> {
    /// The next input that is left, with the number of its place. It is `None` only once every input that was sent has
    /// been taken.
    pub fn next(&mut self) -> Option<(u64, Input)>
        ensures some { IfSome result (λ r.
            taken_at_end self.new ≡ taken_at_end self.old ++ message r.0 r.1 ∷ []) }
        ensures none { IfNone result ((taken_at_end self.new ≡ taken_at_end self.old)
            × Accounted (known_at_end self.old) (taken_at_end self.old)) }
        ensures same { (known_at_end self.new ≡ known_at_end self.old)
            × (relay_at_end self.new ≡ relay_at_end self.old) }
    {
        match self.line.pop_as::<Taken, R>(&self.rt, &mut self.pass) {
            Some(message) => {
                let Message { from, input } = message;
                Some((from, input))
            }
            None => None,
        }
    }
}

/// The sender of the next place, made of the taker's pass. It fails where memory is refused (`Memory`).
fn seat<R: Wait + Drop + Clone>(
    line: &Arc<Line, Global>,
    pass: &mut Pass<Message, View>,
    rt: &R,
    place: u64,
) -> Result<Sender<R>, Fault>
    requires seated { IsPassOf (arc_value line.now) pass.old }
    requires knows { view pass.old ≡ taker place [] [] }
    ensures seated { IsPassOf (arc_value line.now) pass.new }
    ensures same { pass.new.table_id ≡ pass.old.table_id }
    ensures made { IfOk result (λ sender. strand_of sender ≡ strand place []) }
    ensures own { IfOk result (λ sender. relay_of sender ≡ pass.old.table_id) }
    ensures knows { OnOk result (view pass.new ≡ taker (place + 1) [] []) }
    ensures err { IfErr result (λ fault. fault ≡ Memory) }
{
    let line_too = Arc::try_clone(line)?;
    let rt = rt.clone()?;
    let own = line.another::<Seats>(pass);
    Ok(Sender {
        line: line_too,
        pass: own,
        place,
        count: 0,
        rt,
    })
}

/// A relay for 1 to 65 places with room for 256 inputs: the senders of the places from 0 on, each at its number, and
/// the taker. It fails where memory is refused (`Memory`).
pub fn relay<R: Wait + Drop + Clone>(
    rt: R,
    alloc: Global,
    places: u64,
) -> Result<(Vec<Sender<R>>, Taker<R>), Fault>
    requires { (0 < places) × (places ≤ 65) }
    ensures count { IfOk result (λ r. vec_len r.0 ≡ places) }
    ensures places { IfOk result (λ r. map strand_of r.0.items ≡ fresh places) }
    ensures one { IfOk result (λ r. All (λ s. relay_of s ≡ host_of r.1) r.0.items) }
    ensures taken { IfOk result (λ r. taken_of r.1 ≡ []) }
    ensures err { IfErr result (λ fault. fault ≡ Memory) }
{
    let (line, mut pass) = Line::ruled(alloc, ROOM)?;
    let line = Arc::new(alloc, line)?;
    let mut senders = Vec::with_capacity(alloc, places as usize)?;
    for place in 0..places {
        let sender = seat(&line, &mut pass, &rt, place)?;
        senders.push_reserved(sender);
    }
    Ok((senders, Taker { line, pass, rt }))
}

/// Ends a relay: the senders and the taker come back. Of what a place sent, the first inputs are those that were taken,
/// and the rest are those that are left. The senders have to be those of this taker's relay.
pub fn settle<R: Wait + Drop>(senders: Vec<Sender<R>>, taker: Taker<R>) -> Settled<R>
    requires { All (λ s. relay_of s ≡ host_of taker) senders.items }
    ensures taken { taken_at_end result ≡ taken_of taker }
    ensures known { known_at_end result ≡ map strand_of senders.items }
    ensures all { (left : List Message)
        × Accounted (known_at_end result) (taken_at_end result ++ left) }
{
    let Taker { line, mut pass, rt } = taker;
    for sender in senders {
        let Sender {
            line: _,
            pass: own,
            place: _,
            count: _,
            rt: _,
        } = sender;
        line.absorb::<Back>(&mut pass, own);
    }
    line.learn_as::<Taken>(&mut pass);
    Settled { line, pass, rt }
}
