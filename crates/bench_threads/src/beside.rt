//! Calls of many threads at once.

ghost use Rattle.std.specs.Prelude.{◌≡◌};

use crate::calls::look_often;
use crate::scene::{Brush, Room, TILE, cut, put};
use reflect_core::{Puts, ScreenSource};
use std::alloc::Global;
use std::thread::{Threads, for_each_mut, join, sleep};
use std::time::{Clock, Duration, Instant};

pub const NAMES: [&str; 5] = [
    "looks-of-1",
    "looks-of-4",
    "looks-of-16",
    "put-beside-cuts-mean",
    "put-beside-cuts-longest",
];

/// The time of this many looks of each source, each in a thread.
fn looks_of<S: ScreenSource + Send, R: Threads + Clock + Sync>(
    rt: &R,
    sources: &mut [S],
    each: u64,
) -> Option<u128> {
    let start = Instant::now(rt).ok()?;
    let threads = sources.len().max(1);
    for_each_mut(
        rt,
        sources,
        threads,
        &|_: usize, source: &mut S| look_often(source, each),
    );
    Some(start.elapsed(rt).ok()?.as_nanos())
}

/// Takes this many cuts of the whole screen. It answers whether each was had.
fn cut_often<S: ScreenSource, R: Clock>(rt: &R, alloc: Global, source: &mut S, count: u64) -> bool
    requires { (S.width source.old ≡ 1920) × (S.height source.old ≡ 1080) }
{
    let Ok(mut room) = Room::new(alloc) else {
        return false;
    };
    let mut right = true;
    for _ in 0..count {
        right = cut(rt, source, &mut room).is_some() && right;
    }
    right
}

/// The mean and the longest time of this many puts of one tile.
fn put_often<P: Puts, R: Clock>(
    rt: &R,
    alloc: Global,
    puts: &mut P,
    count: u64,
) -> Option<(u128, u128)>
    requires { (P.width puts.old ≡ 1920) × (P.height puts.old ≡ 1080) }
{
    let mut brush = Brush::new(alloc).ok()?;
    let (mut sum, mut longest) = (0u128, 0u128);
    for _ in 0..count {
        // So that the reader is inside a copy again.
        sleep(rt, Duration::from_millis(1));
        let time = put(rt, &mut brush, puts, TILE, 9)?;
        sum = sum.saturating_add(time);
        longest = longest.max(time);
    }
    Some((sum / u128::from(count.max(1)), longest))
}

/// The times in nanoseconds of looks of 1, 4 and 16 threads, and of puts of one tile beside a thread that cuts whole
/// screens.
pub fn all<P: Puts + Send, S: ScreenSource + Send, R: Threads + Clock + Sync>(
    rt: &R,
    alloc: Global,
    puts: &mut P,
    sources: &mut [S],
    rounds: u64,
    looks: u64,
) -> Option<[u128; 5]>
    requires puts { (P.width puts.old ≡ 1920) × (P.height puts.old ≡ 1080) }
    requires sources { (s : S) → (S.width s ≡ 1920) × (S.height s ≡ 1080) }
{
    let few = sources.len().min(4);
    let one = looks_of(rt, &mut sources[..few.min(1)], looks)?;
    let four = looks_of(rt, &mut sources[..few], looks)?;
    let sixteen = looks_of(rt, sources, looks)?;
    let source = sources.first_mut()?;
    // A put waits at most for one cut, so the cuts outlast the puts.
    let cuts = rounds.saturating_mul(3);
    let (times, cut) = join(
        rt,
        || put_often(rt, alloc, puts, rounds),
        || cut_often(rt, alloc, source, cuts),
    );
    let (mean, longest) = times?;
    if cut {
        Some([one, four, sixteen, mean, longest])
    } else {
        None
    }
}
