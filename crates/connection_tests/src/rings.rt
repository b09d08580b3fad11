//! What rings after each step.

ghost use Rattle.std.specs.Prelude.{◌≡◌, [], IfOk};
ghost use Rattle.fault.specs.declared.kinds.Fault.TheVariants.{QueueFull};

use connections::WriterSeat;
use fault::Fault;
use input_relay::{Sender, Taker, relay};
use link::Rest;
use painter::Patch;
use reflect_core::{PlainScreen, Puts};
use roles::{Input, InputSink};
use run_traits::{Alarm, Ringing};
use std::alloc::Global;
use std::sync::atomic::{AtomicU64, Ordering};
use std::sync::{Arc, Wait};
use std::test::*;

/// An alarm that counts its rings.
#[derive(Drop)]
struct Count {
    rings: AtomicU64,
}

impl Alarm for Count {
    fn ring(&self) {
        let _ = self.rings.fetch_add(1, Ordering::SeqCst);
    }

    fn rouse(&self) {}
}

/// A sink that is full.
#[derive(Drop)]
struct Full;

impl InputSink for Full {
    ghost sent = { λ _. [] };

    ghost may_refuse = { λ fault. fault ≡ QueueFull };

    fn send(&mut self, input: Input) -> Result<(), (Fault, Input)> {
        Err((Fault::QueueFull, input))
    }
}

fn press() -> Input {
    Input::Key {
        down: true,
        key: 0x61,
    }
}

/// Whether an update that is put rings once.
fn put_rings(alloc: Global) -> Result<bool, Fault> {
    let mut screen = Ringing {
        inner: PlainScreen::new(alloc, 2, 1)?,
        alarm: Count {
            rings: AtomicU64::new(0),
        },
    };
    let is_put = matches!(screen.put(Patch::bell(2, 1)), Ok(1));
    Ok(is_put && screen.alarm.rings.load(Ordering::SeqCst) == 1)
}

/// Whether an input is refused where the sink is full, and that doesn't ring.
fn refusal_is_quiet() -> bool {
    let mut full = Ringing {
        inner: Full,
        alarm: Count {
            rings: AtomicU64::new(0),
        },
    };
    let is_refused = matches!(full.send(press()), Err((Fault::QueueFull, _)));
    is_refused && full.alarm.rings.load(Ordering::SeqCst) == 0
}

/// An update that is put rings once, and an input that is refused doesn't ring.
#[test]
fn each_success_rings_once(rt: HostRuntime) -> Result<(), Fail> {
    assert!(rt; put_rings(rt.alloc())? && refusal_is_quiet());
    Ok(())
}

/// Whether an input that is sent rings the writer, and is relayed as the press from place 0.
fn rings_and_relays<R: Wait + Drop, S: InputSink>(
    rt: &R,
    ringing: &mut S,
    taker: &mut Taker<R>,
    writer: &WriterSeat,
) -> bool {
    if ringing.send(press()).is_err() {
        return false;
    }
    writer.rest(rt);
    match taker.take() {
        Some((place, Input::Key { down, key })) => place == 0 && down && key == 0x61,
        _ => false,
    }
}

/// Whether `rings_and_relays` is true with a new relay of one place.
fn send_rings<R: Wait + Copy + Drop>(rt: R, alloc: Global) -> Result<bool, Fault> {
    let writer = Arc::new(alloc, WriterSeat::new())?;
    let alarm = Arc::try_clone(&writer)?;
    let (mut senders, mut taker) = relay(rt, alloc, 1)?;
    match senders.pop() {
        Some(inner) => {
            let mut ringing = Ringing { inner, alarm };
            Ok(rings_and_relays(&rt, &mut ringing, &mut taker, &writer))
        }
        None => Ok(false),
    }
}

/// An input that is sent rings the host's writer.
#[test]
fn input_rings_the_writer(rt: HostRuntime) -> Result<(), Fail> {
    assert!(rt; send_rings(rt, rt.alloc())?);
    Ok(())
}
