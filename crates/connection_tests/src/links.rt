//! A viewer's link, and what is tried over it. One function owns the link, and lends it to each case.

use crate::alarms::{ends_each_wait, keeps_early_rings};
use crate::sockets::{make_seat, pair};
use crate::viewers::{
    gives_a_long_answer, keeps_small_slices, passes_both_ways, sees_the_end, waits_for_a_viewer,
};
use connections::{Seat, ViewerTcpLink};
use link::Link;
use std::alloc::Global;
use std::io;
use std::net::TcpStream;
use std::sync::{Arc, Wait};
use std::test::*;
use std::thread::Threads;
use std::time::Clock;

/// What is tried over a new link.
#[derive(Clone, Copy)]
enum LinkCase {
    /// A ring before a wait ends the wait, and so does a rouse.
    EarlyRing,
    /// No ring is lost, and a stop ends each wait.
    RingsAndStop,
    /// A byte that is given is kept, goes out before a wait, and comes in its order; so do bytes that come.
    BothWays,
    /// Bytes that are kept stay here until they are sent on.
    SmallSlices,
    /// A peer that is closed is an end.
    ClosedPeer,
    /// Where a viewer takes nothing the link answers Nothing, and what was given in slices of this length waits for the
    /// viewer.
    NoRoom(usize),
    /// A wait for room ends, even where nothing is kept: otherwise the viewer's read would fail.
    LongAnswer,
}

const CASES: [(&str, LinkCase); 8] = [
    ("an early ring is kept", LinkCase::EarlyRing),
    (
        "no ring is lost, and a stop ends each wait",
        LinkCase::RingsAndStop,
    ),
    ("bytes come and go", LinkCase::BothWays),
    ("small slices are kept", LinkCase::SmallSlices),
    ("a closed peer is an end", LinkCase::ClosedPeer),
    (
        "slices that are kept wait for a viewer",
        LinkCase::NoRoom(1_000),
    ),
    (
        "slices that are written at once wait for a viewer",
        LinkCase::NoRoom(16_384),
    ),
    ("a slow viewer is given a long answer", LinkCase::LongAnswer),
];

fn plays<R: Threads + Wait + Clock + Send + Sync, L: Link + Send>(
    rt: &R,
    net: &HostRuntime,
    case: LinkCase,
    seat: &Arc<Seat, Global>,
    link: &mut L,
    mut far: TcpStream,
) -> io::Result<bool> {
    match case {
        LinkCase::EarlyRing => Ok(keeps_early_rings(rt, seat, link)),
        LinkCase::RingsAndStop => ends_each_wait(rt, net, seat, link),
        LinkCase::BothWays => passes_both_ways(link, &mut far),
        LinkCase::SmallSlices => keeps_small_slices(link, &mut far),
        LinkCase::ClosedPeer => sees_the_end(link, far),
        LinkCase::NoRoom(len) => waits_for_a_viewer(link, &mut far, len),
        LinkCase::LongAnswer => gives_a_long_answer(rt, link, &mut far),
    }
}

/// Whether what is tried comes out right.
fn is_right<R: Threads + Wait + Clock + Copy + Drop + Send + Sync>(
    rt: R,
    net: &HostRuntime,
    case: LinkCase,
) -> io::Result<bool> {
    let seat = make_seat(net)?;
    let (far, near) = pair(net)?;
    let mut link = ViewerTcpLink::new(rt, net.alloc(), near, &seat, 60)?;
    plays(&rt, net, case, &seat, &mut link, far)
}

/// Each case comes out right, over its own link. A case that doesn't is named.
#[test]
fn each_trial_is_right(rt: HostRuntime) -> Result<(), Fail> {
    for (name, case) in CASES {
        if !is_right(rt, &rt, case).unwrap_or(false) {
            return Err(Fail::new(name));
        }
    }
    Ok(())
}
