//! The time in microseconds that inputs take through a relay, one thread for each sender.

use input_relay::{Sender, Taker, relay};
use roles::Input;
use std::alloc::Global;
use std::sync::Wait;
use std::test::Fail;
use std::thread;
use std::thread::{JoinHandle, Threads};
use std::time::{Clock, Instant};

/// Sends an input as soon as there is room.
fn send<R: Wait + Drop>(rt: &R, sender: &mut Sender<R>, mut input: Input) {
    for _ in rt.forever() {
        match sender.send(input) {
            Ok(()) => return,
            Err((_, back)) => input = back,
        }
        thread::yield_now();
    }
}

/// Sends this many pointer events.
fn send_all<R: Wait + Drop>(rt: &R, sender: &mut Sender<R>, count: u64) {
    for number in 0..count {
        let x = (number % 4096) as u16;
        send(rt, sender, Input::Pointer { mask: 0, x, y: 0 });
    }
}

/// Takes an input as soon as there is one.
fn take<R: Wait + Drop>(rt: &R, taker: &mut Taker<R>) {
    for _ in rt.forever() {
        if taker.take().is_some() {
            return;
        }
        thread::yield_now();
    }
}

fn take_all<R: Wait + Drop>(rt: &R, taker: &mut Taker<R>, count: u64) {
    for _ in 0..count {
        take(rt, taker);
    }
}

/// A thread for each sender, which sends this many inputs.
fn start<R: Threads + Wait + Copy + Drop + Send + 'static>(
    rt: R,
    alloc: Global,
    senders: Vec<Sender<R>>,
    each: u64,
) -> Result<Vec<JoinHandle<()>>, Fail> {
    let mut threads = Vec::new(alloc);
    for mut sender in senders {
        threads.push(thread::spawn(&rt, move || send_all(&rt, &mut sender, each))?)?;
    }
    Ok(threads)
}

/// The time that the inputs of all senders take, this many each.
fn micros<R: Threads + Wait + Clock + Copy + Drop + Send + 'static>(
    rt: R,
    alloc: Global,
    senders: Vec<Sender<R>>,
    taker: &mut Taker<R>,
    each: u64,
) -> Result<u128, Fail> {
    let start_time = Instant::now(&rt)?;
    let inputs = each.saturating_mul(senders.len() as u64);
    let threads = start(rt, alloc, senders, each)?;
    take_all(&rt, taker, inputs);
    for thread in threads {
        thread.join(&rt);
    }
    Ok(start_time.elapsed(&rt)?.as_micros())
}

/// Prints the time that this many inputs take. Nothing is done unless there are from 1 to 64 senders.
pub(crate) fn print<R: Print + Threads + Wait + Clock + Copy + Drop + Send + 'static>(
    rt: R,
    alloc: Global,
    senders: u64,
    inputs: u64,
) -> Result<(), Fail> {
    if senders == 0 || senders > 64 {
        return Ok(());
    }
    let (ends, mut taker) = relay(rt, alloc, senders)?;
    let taken = micros(rt, alloc, ends, &mut taker, inputs / senders)?;
    println!(rt; "{taken}")?;
    Ok(())
}
