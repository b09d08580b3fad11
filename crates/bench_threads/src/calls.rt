//! Each call by itself, while no thread is inside a copy.

ghost use Rattle.std.specs.Prelude.{◌≡◌};

use crate::scene::{ALL, Brush, Room, TILE, cut, put};
use reflect_core::{Puts, ScreenSource};
use std::alloc::Global;
use std::sync::atomic::{AtomicU64, Ordering};
use std::time::{Clock, Instant};

pub const NAMES: [&str; 9] = [
    "put-screen",
    "put-tile-behind-screen",
    "put-tile",
    "first-cut",
    "cut-screen",
    "cut-tile",
    "cut-nothing",
    "looks-1000",
    "loads-1000",
];

/// The time of a thousand looks.
fn looks<S: ScreenSource, R: Clock>(rt: &R, source: &mut S) -> Option<u128>
    requires { (S.width source.old ≡ 1920) × (S.height source.old ≡ 1080) }
    ensures { (S.width source.new ≡ 1920) × (S.height source.new ≡ 1080) }
{
    let start = Instant::now(rt).ok()?;
    look_often(source, 1000);
    Some(start.elapsed(rt).ok()?.as_nanos())
}

/// Looks this many times, one after another.
pub fn look_often<S: ScreenSource>(source: &mut S, count: u64)
    ensures { (S.width source.new ≡ S.width source.old)
        × (S.height source.new ≡ S.height source.old) }
{
    for _ in 0..count {
        source.look();
    }
}

/// The time of a thousand loads of an atomic word.
fn loads<R: Clock>(rt: &R, word: &AtomicU64) -> Option<u128> {
    let mut sum = 0u64;
    let start = Instant::now(rt).ok()?;
    for _ in 0..1000u64 {
        sum = sum.wrapping_add(word.load(Ordering::SeqCst));
    }
    let time = start.elapsed(rt).ok()?.as_nanos();
    if sum == 0 { Some(time) } else { None }
}

/// The times of puts, in the order of the names.
fn puts_once<P: Puts, R: Clock>(
    rt: &R,
    brush: &mut Brush,
    puts: &mut P,
    colour: u32,
    best: &mut [u128; 9],
) -> Option<()>
    requires { (P.width puts.old ≡ 1920) × (P.height puts.old ≡ 1080) }
    ensures { (P.width puts.new ≡ 1920) × (P.height puts.new ≡ 1080) }
{
    best[0] = best[0].min(put(rt, brush, puts, ALL, colour)?);
    // Each of the two boards that these are put on was shown before the full screen, and catches up with it.
    best[1] = best[1].min(put(rt, brush, puts, TILE, colour)?);
    best[2] = best[2].min(put(rt, brush, puts, TILE, colour)?);
    Some(())
}

/// The times of a session's first cut, and of cuts of the screen, of one tile, and of none.
fn cuts_once<P: Puts, S: ScreenSource, R: Clock>(
    rt: &R,
    alloc: Global,
    brush: &mut Brush,
    puts: &mut P,
    source: &mut S,
    best: &mut [u128; 9],
) -> Option<()>
    requires puts { (P.width puts.old ≡ 1920) × (P.height puts.old ≡ 1080) }
    requires source { (S.width source.old ≡ 1920) × (S.height source.old ≡ 1080) }
    ensures puts { (P.width puts.new ≡ 1920) × (P.height puts.new ≡ 1080) }
    ensures source { (S.width source.new ≡ 1920) × (S.height source.new ≡ 1080) }
{
    let mut room = Room::new(alloc).ok()?;
    // It gives the black screen back that the session begins with.
    best[3] = best[3].min(cut(rt, source, &mut room)?);
    best[4] = best[4].min(cut(rt, source, &mut room)?);
    room.keep_all();
    put(rt, brush, puts, TILE, 7)?;
    best[5] = best[5].min(cut(rt, source, &mut room)?);
    room.keep_all();
    best[6] = best[6].min(cut(rt, source, &mut room)?);
    Some(())
}

/// The best times in nanoseconds, if each call was taken.
pub fn best<P: Puts, S: ScreenSource, R: Clock>(
    rt: &R,
    alloc: Global,
    puts: &mut P,
    sources: &mut [S],
    rounds: u64,
) -> Option<[u128; 9]>
    requires puts { (P.width puts.old ≡ 1920) × (P.height puts.old ≡ 1080) }
    requires sources { (s : S) → (S.width s ≡ 1920) × (S.height s ≡ 1080) }
    ensures { (P.width puts.new ≡ 1920) × (P.height puts.new ≡ 1080) }
{
    let mut best = [u128::MAX; 9];
    let word = AtomicU64::new(0);
    let source = sources.first_mut()?;
    let mut brush = Brush::new(alloc).ok()?;
    for round in 0..rounds {
        puts_once(rt, &mut brush, puts, (round % 256) as u32, &mut best)?;
        cuts_once(rt, alloc, &mut brush, puts, source, &mut best)?;
        best[7] = best[7].min(looks(rt, source)?);
        best[8] = best[8].min(loads(rt, &word)?);
    }
    Some(best)
}
