//! What puts, looks and cuts of a screen of 1920 by 1080 take, in nanoseconds.

ghost use Rattle.std.specs.Prelude.{◌≡◌};

use crate::{answered, beside, calls};
use shared_screen::{Naming, Opened, Publishes, shared};
use std::alloc::Global;
use std::marker::Brand;
use std::sync::Wait;
use std::test::Fail;
use std::thread::Threads;
use std::time::Clock;

/// This many watchers may look at once.
const PLACES: usize = 16;

fn run<J: Naming + Publishes + Send + Sync, R: Threads + Wait + Clock + Sync + Send + Copy + Drop>(
    rt: R,
    alloc: Global,
    opened: Opened<J>,
    rounds: u64,
    looks: u64,
) -> Result<([u128; 9], [u128; 2], [u128; 5]), Fail>
    requires { (opened.seen.book ≡ J.book) × (1920 ≡ J.width) × (1080 ≡ J.height) }
{
    let (mut publisher, mut watchers) = shared::<J, R>(rt, alloc, opened, 1920, 1080, PLACES)?;
    let alone = calls::best(&rt, alloc, &mut publisher, watchers.as_mut_slice(), rounds).ok_or(
        "a call was refused",
    )?;
    let answered = answered::best(
        &rt,
        alloc,
        &mut publisher,
        watchers.as_mut_slice(),
        rounds,
    ).ok_or("a call was refused")?;
    let both = beside::all(
        &rt,
        alloc,
        &mut publisher,
        watchers.as_mut_slice(),
        rounds,
        looks,
    )
    .ok_or("a call of many was refused")?;
    Ok((alone, answered, both))
}

fn print_all<R: Print>(rt: &R, names: &[&str], times: &[u128]) -> Result<(), Fail> {
    for (name, time) in names.iter().zip(times.iter()) {
        println!(rt; "{name} {time}")?;
    }
    Ok(())
}

/// Prints what each call takes, alone, and beside other threads that look this often.
pub(crate) fn print<R: Print + Threads + Wait + Clock + Sync + Send + Copy + Drop>(
    rt: R,
    alloc: Global,
    rounds: u64,
    looks: u64,
) -> Result<(), Fail> {
    let (alone, answered, both) = run::<Brand, _>(rt, alloc, Opened::new(), rounds, looks)?;
    print_all(&rt, &calls::NAMES, &alone)?;
    print_all(&rt, &answered::NAMES, &answered)?;
    print_all(&rt, &beside::NAMES, &both)
}
