//! A full queue, many threads at once, and what is left at the end.

ghost use Rattle.std.specs.Prelude.{◌≡◌, ◌<◌, IfSome};
ghost use Rattle.input_relay.specs.Ends.{relay_of, host_of};

use fault::Fault;
use input_relay::{Gauge, Sender, Settled, Taker, relay, settle};
use roles::{Input, InputSink};
use std::alloc::Global;
use std::process::Abort;
use std::snapshot::Snapshot;
use std::sync::Wait;
use std::test::*;
use std::thread;
use std::thread::{JoinHandle, Promise, Threads};

/// This many inputs fit.
const ROOM: u32 = 256;

/// Each thread sends this many inputs.
const MANY: u32 = 10_000;

fn press(key: u32) -> Input {
    Input::Key { down: true, key }
}

fn is_press(input: &Input, wanted: u32) -> bool {
    match input {
        Input::Key { down: true, key } => *key == wanted,
        _ => false,
    }
}

/// Whether it is a press of this key from place 0.
fn is_next(taken: Option<(u64, Input)>, wanted: u32) -> bool {
    match taken {
        Some((0, input)) => is_press(&input, wanted),
        _ => false,
    }
}

fn send_press(sink: &mut impl InputSink, key: u32) -> Result<(), (Fault, Input)> {
    sink.send(press(key))
}

/// Whether there is room for a key.
fn fits<R: Wait + Drop>(sender: &mut Sender<R>, key: u32) -> bool {
    send_press(sender, key).is_ok()
}

/// Whether a key is refused for want of room, and comes back.
fn is_refused<R: Wait + Drop>(sender: &mut Sender<R>, key: u32) -> bool {
    match send_press(sender, key) {
        Err((Fault::QueueFull, input)) => is_press(&input, key),
        _ => false,
    }
}

fn takes<R: Wait + Drop>(taker: &mut Taker<R>, key: u32) -> bool {
    is_next(taker.take(), key)
}

fn leaves<R: Wait + Drop>(settled: &mut Settled<R>, key: u32) -> bool {
    is_next(settled.next(), key)
}

fn check_nothing_left<R: Wait + Drop + Abort>(rt: &R, taker: &mut Taker<R>) {
    assert!(rt; taker.take().is_none());
}

fn check_full<R: Wait + Drop + Abort>(rt: &R, sender: &mut Sender<R>) {
    for key in 0..ROOM {
        assert!(rt; fits(sender, key));
    }
    assert!(rt; is_refused(sender, ROOM));
}

fn check_empties<R: Wait + Drop + Abort>(rt: &R, taker: &mut Taker<R>) {
    for key in 0..ROOM {
        assert!(rt; takes(taker, key));
    }
    check_nothing_left(rt, taker);
}

/// 256 sends are accepted, the next gives its input back, 256 takes give them in order, and then there is none.
#[test]
fn full_and_empty(rt: HostRuntime) -> Result<(), Fail> {
    let (mut senders, mut taker) = relay(rt, rt.alloc(), 1)?;
    let mut sender = senders.pop().ok_or("a sender")?;
    check_full(&rt, &mut sender);
    check_empties(&rt, &mut taker);
    Ok(())
}

fn check_waiting<R: Wait + Abort>(rt: &R, gauge: &mut Gauge, count: usize) {
    assert_eq!(rt; gauge.waiting(rt), count);
}

/// A gauge counts the inputs of all places that wait, up to 256, and takes none.
#[test]
fn a_gauge_counts_what_waits(rt: HostRuntime) -> Result<(), Fail> {
    let (mut senders, mut taker) = relay(rt, rt.alloc(), 2)?;
    let mut gauge = taker.gauge()?;
    check_waiting(&rt, &mut gauge, 0);
    let mut last = senders.pop().ok_or("a sender")?;
    let mut first = senders.pop().ok_or("a sender")?;
    assert!(rt; fits(&mut first, 0));
    check_waiting(&rt, &mut gauge, 1);
    for key in 1..ROOM {
        assert!(rt; fits(&mut last, key));
    }
    check_waiting(&rt, &mut gauge, 256);
    assert!(rt; is_refused(&mut last, ROOM));
    check_waiting(&rt, &mut gauge, 256);
    assert!(rt; takes(&mut taker, 0));
    check_waiting(&rt, &mut gauge, 255);
    Ok(())
}

/// Sends an input as soon as there is room.
fn send<R: Wait + Drop>(rt: &R, sender: &mut Sender<R>, mut input: Input)
    ensures { relay_of sender.new ≡ relay_of sender.old }
{
    for _ in rt.forever() {
        match sender.send(input) {
            Ok(()) => return,
            Err((_, back)) => input = back,
        }
        thread::yield_now();
    }
}

/// Sends the keys from 0 on.
fn send_all<R: Wait + Drop>(rt: &R, sender: &mut Sender<R>)
    ensures { relay_of sender.new ≡ relay_of sender.old }
{
    for key in 0..MANY {
        send(rt, sender, press(key));
    }
}

/// The next input of a relay whose sender is at work.
fn wait_for<R: Wait + Drop>(rt: &R, taker: &mut Taker<R>) -> (u64, Input)
    ensures { host_of taker.new ≡ host_of taker.old }
{
    for _ in rt.forever() {
        if let Some(taken) = taker.take() {
            return taken;
        }
        thread::yield_now();
    }
    unreachable!()
}

/// A thread gives back a sender of the same relay.
#[derive(Drop)]
struct SameRelay<R: Wait + Drop>(Snapshot<Sender<R>>);

impl<R: Wait + Drop> Promise<Sender<R>> for SameRelay<R> {
    ghost kept_by = { λ p r. relay_of r ≡ relay_of p.0.value };
}

fn sends<R: Wait + Drop>(rt: R, mut sender: Sender<R>) -> Sender<R>
    ensures { relay_of result ≡ relay_of sender }
{
    send_all(&rt, &mut sender);
    sender
}

/// Whether the next input is a press of this key.
fn comes<R: Wait + Drop>(rt: &R, taker: &mut Taker<R>, key: u32) -> bool
    ensures { host_of taker.new ≡ host_of taker.old }
{
    let (_, input) = wait_for(rt, taker);
    is_press(&input, key)
}

/// Takes all keys but the last 100, while the sender is at work.
fn take_most<R: Wait + Drop + Abort>(rt: &R, taker: &mut Taker<R>)
    ensures { host_of taker.new ≡ host_of taker.old }
{
    for key in 0..MANY - 100 {
        assert!(rt; comes(rt, taker, key));
    }
}

fn check_rest<R: Wait + Drop + Abort>(rt: &R, settled: &mut Settled<R>) {
    for key in MANY - 100..MANY {
        assert!(rt; leaves(settled, key));
    }
    assert!(rt; settled.next().is_none());
}

/// What was not taken when the sender comes back from its thread is left, in order.
#[test]
fn the_rest_is_left(rt: HostRuntime) -> Result<(), Fail> {
    let (mut senders, mut taker) = relay(rt, rt.alloc(), 1)?;
    let sender = senders.pop().ok_or("a sender")?;
    let promise = SameRelay(Snapshot::of(&sender));
    let thread = thread::spawn_with(&rt, promise, move || sends(rt, sender))?;
    take_most(&rt, &mut taker);
    senders.push(thread.join(&rt))?;
    check_rest(&rt, &mut settle(senders, taker));
    Ok(())
}

/// A thread for each sender.
fn start<R: Threads + Wait + Copy + Drop + Send + 'static>(
    rt: R,
    alloc: Global,
    senders: Vec<Sender<R>>,
) -> Result<Vec<JoinHandle<()>>, Fail> {
    let mut threads = Vec::new(alloc);
    for mut sender in senders {
        threads.push(thread::spawn(&rt, move || send_all(&rt, &mut sender))?)?;
    }
    Ok(threads)
}

/// The place of the next input, if that is a press of the key that has to come next from that place.
fn next_place<R: Wait + Drop>(rt: &R, taker: &mut Taker<R>, wanted: &[u32; 4]) -> Option<usize>
    ensures { IfSome result (λ place. place < 4) }
{
    let (place, input) = wait_for(rt, taker);
    if place < 4 && is_press(&input, wanted[place as usize]) {
        Some(place as usize)
    } else {
        None
    }
}

/// Takes all that four places send, and checks that each place's keys come in order.
fn check_four<R: Wait + Drop + Abort>(rt: &R, taker: &mut Taker<R>) {
    let mut wanted = [0u32; 4];
    for _ in 0..4 * MANY {
        match next_place(rt, taker, &wanted) {
            Some(place) => wanted[place] = wanted[place].wrapping_add(1),
            None => assert!(rt; false, "an input out of order"),
        }
    }
    assert!(rt; wanted == [MANY; 4]);
}

/// Four threads send at once, and each one's keys come in its order, each once.
#[test]
fn four_threads(rt: HostRuntime) -> Result<(), Fail> {
    let (senders, mut taker) = relay(rt, rt.alloc(), 4)?;
    let threads = start(rt, rt.alloc(), senders)?;
    check_four(&rt, &mut taker);
    for thread in threads {
        thread.join(&rt);
    }
    check_nothing_left(&rt, &mut taker);
    Ok(())
}
