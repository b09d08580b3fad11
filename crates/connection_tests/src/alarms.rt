//! Rings end waits. A ring that was lost shows after ten seconds, since the viewer's handshake is late by then.

use crate::sockets::make_seat;
use connections::{Everyone, Seat, WriterSeat};
use link::{Link, Rest, StopFlag, Took};
use run_traits::{Alarm, HostCount, Stop};
use std::alloc::Global;
use std::sync::atomic::{AtomicU64, Ordering};
use std::sync::{Arc, Wait};
use std::thread::Threads;
use std::{io, thread};

/// This many rings are answered.
const MANY: u64 = 1_000;

/// Whether a ring before a take ends it, and a rouse too; they end the writer's rest as well.
pub(crate) fn keeps_early_rings<R: Wait, L: Link>(rt: &R, seat: &Seat, link: &mut L) -> bool {
    let mut into = [0u8; 4];
    // The socket is writable for the first time, which ends a wait.
    let first = link.take(&mut into);
    seat.ring();
    seat.ring();
    let rung = link.take(&mut into);
    seat.rouse();
    let roused = link.take(&mut into);
    let writer = WriterSeat::new();
    writer.ring();
    writer.rest(rt);
    writer.rouse();
    writer.rest(rt);
    [first, rung, roused] == [Took::Nothing; 3]
}

/// Looks at the number after each take, until the flag is set. It answers false where a take failed, or the number
/// hadn't risen to the last.
fn follows<L: Link, F: StopFlag>(
    link: &mut L,
    stop: &F,
    news: &AtomicU64,
    seen: &AtomicU64,
) -> bool {
    let mut into = [0u8; 4];
    for _ in 0..1_000_000 {
        if stop.is_set() {
            return seen.load(Ordering::SeqCst) == MANY;
        }
        seen.store(news.load(Ordering::SeqCst), Ordering::SeqCst);
        if link.take(&mut into) != Took::Nothing {
            break;
        }
    }
    seen.store(u64::MAX, Ordering::SeqCst);
    false
}

/// Raises the number and rings, again each time that it was seen. Then it sets the flag.
fn tells<R: Wait, B: Alarm + Drop>(
    rt: &R,
    stop: &Stop<B>,
    seat: &Seat,
    news: &AtomicU64,
    seen: &AtomicU64,
) {
    for number in 1..=MANY {
        news.store(number, Ordering::SeqCst);
        seat.ring();
        for _ in rt.forever() {
            if seen.load(Ordering::SeqCst) >= number {
                break;
            }
            thread::yield_now();
        }
    }
    stop.set();
}

fn rests_until<R: Wait, F: StopFlag>(rt: &R, stop: &F, writer: &WriterSeat) {
    for _ in rt.forever() {
        if stop.is_set() {
            return;
        }
        writer.rest(rt);
    }
}

/// Whether the link's holder sees each number that is rung for, and then the flag ends its wait and the writer's.
fn ends_both<R: Threads + Wait + Send + Sync, L: Link + Send>(
    rt: &R,
    stop: &Stop<Everyone>,
    writer: &WriterSeat,
    seat: &Seat,
    link: &mut L,
) -> bool {
    let was_set = stop.is_set();
    let news = AtomicU64::new(0);
    let seen = AtomicU64::new(0);
    let ((right, ()), ()) = thread::join(
        rt,
        || thread::join(
            rt,
            || follows(link, stop, &news, &seen),
            || rests_until(rt, stop, writer),
        ),
        || tells(rt, stop, seat, &news, &seen),
    );
    !was_set && right && stop.is_set()
}

/// The alarm of a writer and of three places, the last of which is this one. Nobody waits at the others.
fn everyone(
    net: &HostRuntime,
    writer: &Arc<WriterSeat, Global>,
    seat: &Arc<Seat, Global>,
) -> io::Result<Everyone> {
    let alloc = net.alloc();
    let count = Arc::new(alloc, HostCount::new())?;
    let writer = Arc::try_clone(writer)?;
    let mut seats = Vec::new(alloc);
    seats.push(make_seat(net)?)?;
    seats.push(make_seat(net)?)?;
    seats.push(Arc::try_clone(seat)?)?;
    Ok(Everyone {
        count,
        writer,
        seats,
    })
}

/// Whether `ends_both` is true of a new flag, whose alarm is that of a writer and of this place.
pub(crate) fn ends_each_wait<R: Threads + Wait + Send + Sync, L: Link + Send>(
    rt: &R,
    net: &HostRuntime,
    seat: &Arc<Seat, Global>,
    link: &mut L,
) -> io::Result<bool> {
    let writer = Arc::new(net.alloc(), WriterSeat::new())?;
    let stop = Stop::new(everyone(net, &writer, seat)?);
    Ok(ends_both(rt, &stop, &writer, seat, link))
}
