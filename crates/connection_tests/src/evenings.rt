//! What comes to a port with one place, evening after evening: viewers and an operator, and newcomers that never become
//! viewers.

use crate::board::hold;
use crate::doors::place_is_free_again;
use crate::house::{ByHand, House, make_notebook};
use crate::locks::{PASSWORD, lock_holds};
use crate::newcomers::{
    checks_leave_nothing, header_of_another_is_no_header, headers_are_believed,
    silent_ones_make_room,
};
use crate::orders::{drained_one_gives_its_place_back, orders_are_obeyed};
use crate::port::{make_door, make_lobby, make_porter};
use crate::sockets::VERSION;
use connections::{Key, TcpPorter};
use link::{Gave, Link, Took};
use run_traits::{Door, LeftLink};
use std::net::IpAddr;
use std::sync::atomic::AtomicU64;
use std::sync::{Arc, Wait};
use std::test::*;
use std::thread::Threads;
use std::time::Clock;
use std::{io, thread};
use vnc_auth::Password;

/// Who comes to a port with one place.
#[derive(Clone, Copy)]
enum Visitors {
    /// Viewers of whom one has the place, and then another.
    Rivals,
    /// Viewers whom an operator turns away and sends away.
    Ordered,
    /// A viewer that is on its way to the place when the doors are drained, and others after it.
    Drained,
    /// Newcomers that leave, or are silent, before their version is whole.
    Checks,
    /// As many silent newcomers as the port keeps.
    Crowd,
    /// Newcomers from the proxy that is believed.
    Proxied,
    /// A newcomer that sends a header, but comes from elsewhere.
    Strangers,
    /// Newcomers to a locked port, of whom two know the password and find the place.
    Guessers,
}

/// The evenings, and how many viewers come to the place at each.
const EVENINGS: [(&str, Visitors, u64); 8] = [
    ("full lobby refuses and is free again", Visitors::Rivals, 2),
    ("viewers are refused and sent away", Visitors::Ordered, 3),
    (
        "who is drained on its way gives its place back",
        Visitors::Drained,
        1,
    ),
    (
        "a newcomer leaving before its version leaves nothing",
        Visitors::Checks,
        1,
    ),
    ("who says nothing makes room", Visitors::Crowd, 1),
    ("header of the proxy is believed", Visitors::Proxied, 2),
    ("header of another is not believed", Visitors::Strangers, 1),
    (
        "a lock is opened by its password alone",
        Visitors::Guessers,
        2,
    ),
];

/// How many viewers came to a door, how many of them were greeted, of how many the version came at once, and how many
/// of their links ended.
#[derive(Clone, Copy)]
struct Count {
    came: u64,
    greeted: u64,
    heard: u64,
    ended: u64,
}

/// Says to a viewer what is said before anything else: the version, and the one security type, None, where the port is
/// locked. None of that is sent, since the viewer has heard what stands for it.
fn begins<L: Link>(link: &mut L, is_locked: bool) -> bool {
    link.give(VERSION) == Gave::Bytes(12)
        && (!is_locked || link.give(b"\x01\x01") == Gave::Bytes(2))
}

/// Greets a viewer with its version and a byte, and then serves it until it ends.
fn serve<L: Link>(link: &mut L, is_locked: bool, count: &mut Count) {
    count.came = count.came.saturating_add(1);
    if begins(link, is_locked) && link.give(b"R") == Gave::Bytes(1) {
        count.greeted = count.greeted.saturating_add(1);
    }
    let mut into = [0u8; 64];
    for turn in 0..1_000u64 {
        match link.take(&mut into) {
            Took::Nothing => {}
            Took::Bytes(taken) => {
                if turn == 0 && taken == 12 {
                    count.heard = count.heard.saturating_add(1);
                }
            }
            Took::End => {
                count.ended = count.ended.saturating_add(1);
                break;
            }
            Took::Failed => break,
        }
    }
}

/// Serves the viewers that come to a door, once it is opened, until no more come.
fn serve_from<D: Door>(opened: &AtomicU64, door: &mut D, is_locked: bool) -> Count {
    hold(opened, 1);
    serve_all(door, is_locked)
}

/// Serves the viewers that come to a door, until no more come.
fn serve_all<D: Door>(door: &mut D, is_locked: bool) -> Count {
    let mut count = Count {
        came: 0,
        greeted: 0,
        heard: 0,
        ended: 0,
    };
    for _ in 0..1_000 {
        let Some(mut link) = door.next() else {
            break;
        };
        serve(&mut link, is_locked, &mut count);
        door.left(LeftLink::new(link), 0, Ok(()));
    }
    count
}

/// Whether these visitors are met as they should be. Then the lobby is closed, which the thread that keeps the port
/// sees soon.
fn visits<R: Wait + Clock + Drop>(house: &House<'_, R>, visitors: Visitors) -> bool {
    let is_right = match visitors {
        Visitors::Rivals => place_is_free_again(house),
        Visitors::Ordered => orders_are_obeyed(house),
        Visitors::Drained => drained_one_gives_its_place_back(house),
        Visitors::Checks => checks_leave_nothing(house),
        Visitors::Crowd => silent_ones_make_room(house),
        Visitors::Proxied => headers_are_believed(house),
        Visitors::Strangers => header_of_another_is_no_header(house),
        Visitors::Guessers => lock_holds(house),
    };
    house.lobby.close(&house.log.rt);
    is_right.unwrap_or(false)
}

/// Keeps the port and its place while these visitors come. It answers whether they were met as they should be, and what
/// was counted at the place.
fn serves<R, D>(
    rt: R,
    hand: &ByHand<'_, R>,
    house: &House<'_, R>,
    porter: TcpPorter,
    door: &mut D,
    visitors: Visitors,
) -> (bool, Count)
where
    R: Threads + Wait + Clock + Copy + Drop + Send + Sync,
    D: Door + Send,
{
    let (is_right, (count, _)) = thread::join(
        &rt,
        || visits(house, visitors),
        || thread::join(
            &rt,
            || serve_from(house.opened, door, house.lobby.key().is_locked()),
            || porter.keep(hand, house.log),
        ),
    );
    (is_right, count)
}

/// The proxy that is believed, if one is.
fn proxy_for(visitors: Visitors) -> Option<IpAddr> {
    match visitors {
        Visitors::Proxied => Some(IpAddr::from([127, 0, 0, 1])),
        Visitors::Strangers => Some(IpAddr::from([127, 0, 0, 9])),
        _ => None,
    }
}

/// The key of the port.
fn key_for(visitors: Visitors) -> Key {
    match visitors {
        Visitors::Guessers => Key::Locked(Password::new(PASSWORD)),
        _ => Key::Open,
    }
}

/// What `serves` answers at a new port; also, nothing may have been counted of any viewer as it came. The port's clock
/// goes on only where viewers wait for a place.
fn opens<R>(rt: R, net: &HostRuntime, visitors: Visitors) -> io::Result<(bool, Count)>
where
    R: Threads + Wait + Clock + Copy + Drop + Send + Sync,
{
    let lobby = make_lobby(net.alloc(), key_for(visitors))?;
    let log = make_notebook(rt, net.alloc(), &lobby)?;
    let (address, porter) = make_porter(net, &lobby, proxy_for(visitors))?;
    let mut door = make_door(rt, net, &lobby, Arc::try_clone(&log)?)?;
    let millis = AtomicU64::new(0);
    let hand = ByHand {
        rt,
        stands: !matches!(
            visitors,
            Visitors::Rivals | Visitors::Ordered | Visitors::Drained
        ),
        millis: &millis,
        drawn: AtomicU64::new(0),
    };
    let opened = AtomicU64::new(if matches!(visitors, Visitors::Drained) {
        0
    } else {
        1
    });
    let house = House {
        net,
        address,
        lobby: &lobby,
        millis: &millis,
        opened: &opened,
        log: &log,
    };
    let (is_right, count) = serves(rt, &hand, &house, porter, &mut door, visitors);
    Ok((is_right && log.all_were_new(), count))
}

/// Whether this many viewers came, and each was greeted. Of rivals the version came at once, and the links of viewers
/// that were sent away ended.
fn are_counted(visitors: Visitors, count: Count, came: u64) -> bool {
    let are_served = match visitors {
        Visitors::Rivals => count.heard == came,
        Visitors::Ordered => count.ended == came,
        _ => true,
    };
    are_served && count.came == came && count.greeted == came
}

/// Each evening goes as it should, at its own port. One that doesn't is named.
#[test]
fn each_evening_is_right(rt: HostRuntime) -> Result<(), Fail> {
    for (name, visitors, came) in EVENINGS {
        let (is_right, count) = opens(rt, &rt, visitors)?;
        if !is_right || !are_counted(visitors, count, came) {
            return Err(Fail::new(name));
        }
    }
    Ok(())
}
