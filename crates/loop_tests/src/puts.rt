//! A screen of 4 by 4, on which patch n paints colour n all over; and ends that read it.

ghost use Rattle.std.specs.Prelude.{◌≡◌, IfOk};
ghost use Rattle.std.specs.Thread.{IsSync, IsSend};

use fault::Fault;
use painter::{Painter, Patch};
use raster::Rect;
use reflect_core::{Cut, Puts};
use std::alloc::Global;
use std::sync::atomic::{AtomicU64, Ordering};
use std::thread::{Threads, for_each_mut, join};
use tiles::Have;

pub const ALL: Rect = Rect {
    x: 0,
    y: 0,
    w: 4,
    h: 4,
};

/// This many patches are put.
pub const MANY: u64 = 2_500;

/// Patch n.
pub fn painted(alloc: Global, n: u64) -> Result<Patch, Fault>
    ensures { IfOk result (λ patch. (patch.width ≡ 4) × (patch.height ≡ 4)) }
{
    let mut painter = Painter::new(alloc, 4, 4)?;
    let colour = u32::try_from(n).unwrap_or(u32::MAX);
    painter.put(ALL, &[colour; 16]);
    painter.patch()
}

/// Puts patch n, and says whether it is answered n. Where the put is refused for want of memory the patch comes back,
/// and is put then, which is right where memory may be short.
pub fn puts_one<P: Puts>(alloc: Global, puts: &mut P, n: u64, is_short: bool) -> Result<bool, Fault>
    requires { (P.width puts.old ≡ 4) × (P.height puts.old ≡ 4) }
    ensures { (P.width puts.new ≡ 4) × (P.height puts.new ≡ 4) }
{
    match puts.put(painted(alloc, n)?) {
        Ok(number) => Ok(number == n),
        Err((Fault::Memory, patch)) => {
            let is_put = matches!(puts.put(patch), Ok(number) if number == n);
            Ok(is_put && is_short)
        }
        Err(_) => Ok(false),
    }
}

/// Puts these patches, from the first to the last, and says whether each is answered its number.
pub fn puts_many<P: Puts>(
    alloc: Global,
    puts: &mut P,
    first: u64,
    last: u64,
    is_short: bool,
) -> Result<bool, Fault>
    requires { (P.width puts.old ≡ 4) × (P.height puts.old ≡ 4) }
    ensures { (P.width puts.new ≡ 4) × (P.height puts.new ≡ 4) }
{
    let mut right = true;
    for n in first..=last {
        right = puts_one(alloc, puts, n, is_short)? && right;
    }
    Ok(right)
}

/// Room for a cut, and what a viewer has to which nothing was sent.
#[derive(Drop)]
pub struct Room {
    pub have: Have,
    pub cut: Cut,
    pub ghost have_is: { (have.width ≡ 4) × (have.height ≡ 4) },
    pub ghost cut_is: { (cut.width ≡ 4) × (cut.height ≡ 4) },
}

impl Room {
    pub fn new(alloc: Global) -> Result<Room, Fault> {
        let have = Have::new(alloc, 4, 4)?;
        let cut = Cut::new(alloc, 4, 4)?;
        Ok(Room { have, cut })
    }

    /// Whether the last cut shows n updates, and colour n all over.
    pub fn shows(&self, n: u64) -> bool {
        let colour = u32::try_from(n).unwrap_or(u32::MAX);
        self.cut.number == n && self.cut.colours.as_slice() == [colour; 16].as_slice()
    }
}

/// An end that looks and cuts.
pub trait Reads {
    /// Its screen has 4 by 4 pixels.
    ghost fits: { Type 0 };

    /// Looks, and then cuts. It answers both numbers, if there is a cut and the cut shows its number all over.
    fn reads(&mut self, room: &mut Room) -> Option<(u64, u64)>
        requires { fits };
}

/// Looks and cuts 2,000 times, and says whether looks didn't fall, each look was at most one below the cut before it,
/// and no cut below its look.
fn reads_on<E: Reads>(alloc: Global, end: &mut E) -> bool
    requires { E.fits }
{
    let Ok(mut room) = Room::new(alloc) else {
        return false;
    };
    let mut right = true;
    let mut before = (0u64, 0u64);
    for _ in 0..2000u64 {
        match end.reads(&mut room) {
            Some((looked, cut)) => {
                let rises = before.0 <= looked && before.1.saturating_sub(1) <= looked;
                right = right && rises && looked <= cut;
                before = (looked, cut);
            }
            None => right = false,
        }
    }
    right
}

/// Each end reads in a thread, and is counted where all of it was right.
fn all_read<R: Threads + Sync, E: Reads + Send>(
    rt: &R,
    alloc: Global,
    ends: &mut [E],
    right: &AtomicU64,
)
    requires { E.fits }
{
    for_each_mut(
        rt,
        ends,
        4,
        &|_: usize, end: &mut E| {
            let is_right = u64::from(reads_on(alloc, end));
            let _ = right.fetch_add(is_right, Ordering::SeqCst);
        },
    );
}

/// One thread puts very many patches, and each of four ends reads in a thread. It answers whether each put was answered
/// its number, and all that was read was right.
pub fn beside<R: Threads + Sync, P: Puts + Send, E: Reads + Send>(
    rt: &R,
    alloc: Global,
    puts: &mut P,
    ends: &mut [E],
) -> bool
    requires puts { (P.width puts.old ≡ 4) × (P.height puts.old ≡ 4) }
    requires ends { E.fits }
{
    let right = AtomicU64::new(0);
    let (put, ()) = join(
        rt,
        || puts_many(alloc, puts, 1, MANY, false),
        ||
            requires { IsSync R.row × IsSend E.row × E.fits }
        { all_read(rt, alloc, ends, &right) },
    );
    matches!(put, Ok(true)) && right.load(Ordering::SeqCst) == 4
}
