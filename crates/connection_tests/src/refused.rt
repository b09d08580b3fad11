//! One viewer finds no memory, over links in memory and over TCP.

ghost use Rattle.roles.specs.declared.role.Role.TheVariants.{Full};

use crate::board::Board;
use crate::keeper::{Keeper, come_all};
use crate::port::{make_door, make_lobby, make_porter};
use crate::run::ends_well;
use crate::three_viewers::Viewers;
use crate::wire::VIEWERS;
use connections::{Key, Lobby, TcpPorter};
use run_traits::{Door, NoLog, PlaceCount};
use std::alloc::Global;
use std::net::SocketAddr;
use std::random::RandomSource;
use std::sync::atomic::Ordering;
use std::sync::{Arc, Wait};
use std::test::*;
use std::thread::Threads;
use std::time::Clock;
use std::{fs, thread};

/// Fails where the system counts all memory that is asked for: there, taking it would take that of other processes.
fn expect_loose_counting(rt: &HostRuntime) -> Result<(), Fail> {
    match fs::read_to_string(rt, "/proc/sys/vm/overcommit_memory") {
        Ok(text) if text.starts_with('2') => Err(Fail::new("the system counts memory strictly")),
        _ => Ok(()),
    }
}

/// Whether a run ends well whose viewers come over links in memory.
fn runs_in_memory<R>(rt: R, alloc: Global, board: &Arc<Board, Global>) -> Result<bool, Fail>
where
    R: Threads + Wait + Clock + Copy + Drop + Send + 'static,
{
    let viewers = Viewers {
        alloc,
        board: Arc::try_clone(board)?,
        hoard: None,
        count: PlaceCount::new(),
    };
    ends_well(rt, alloc, viewers, board)
}

/// Whether a run with this door ends well, while the port is kept.
fn runs<D, R>(
    rt: R,
    net: &HostRuntime,
    porter: TcpPorter,
    door: D,
    board: &Arc<Board, Global>,
) -> Result<bool, Fail>
where
    D: Door + Send + 'static,
    R: Threads + Wait + Clock + RandomSource + Copy + Drop + Send + Sync + 'static,
    requires { D.is_for door Full }
{
    let (ended, ()) = thread::join(
        &rt,
        ||
            requires { D.is_for door Full }
        { ends_well(rt, net.alloc(), door, board) },
        || porter.keep(&rt, &NoLog),
    );
    ended
}

/// Whether a run with this door ends well, and each viewer that comes to this port is given what it should be.
fn serves<D, R>(
    rt: R,
    net: &HostRuntime,
    porter: TcpPorter,
    place: (SocketAddr, &Lobby),
    door: D,
    board: &Arc<Board, Global>,
) -> Result<bool, Fail>
where
    D: Door + Send + 'static,
    R: Threads + Wait + Clock + RandomSource + Copy + Drop + Send + Sync + 'static,
    requires { D.is_for door Full }
{
    let (address, lobby) = place;
    let (came, ended) = thread::join(
        &rt,
        || come_all(&rt, net, address, lobby, board),
        ||
            requires { D.is_for door Full }
        { runs(rt, net, porter, door, board) },
    );
    Ok(ended? && came)
}

/// Whether a run ends well whose viewers come over TCP, and each of them is given what it should be.
fn runs_over_tcp<R>(rt: R, net: &HostRuntime, board: &Arc<Board, Global>) -> Result<bool, Fail>
where
    R: Threads + Wait + Clock + RandomSource + Copy + Drop + Send + Sync + 'static,
{
    let log = Keeper::new(rt, net.alloc(), Arc::try_clone(board)?);
    let lobby = make_lobby(net.alloc(), Key::Open)?;
    let door = make_door(rt, net, &lobby, log)?;
    let (address, porter) = make_porter(net, &lobby, None)?;
    serves(rt, net, porter, (address, &lobby), door, board)
}

/// Whether all viewers leave a run as they should, the second of which finds no memory.
fn second_is_let_go<R>(rt: R, net: &HostRuntime, is_over_tcp: bool) -> Result<bool, Fail>
where
    R: Threads + Wait + Clock + RandomSource + Copy + Drop + Send + Sync + 'static,
{
    let board = Board::new(net.alloc())?;
    let ended = if is_over_tcp {
        runs_over_tcp(rt, net, &board)
    } else {
        runs_in_memory(rt, net.alloc(), &board)
    };
    Ok(ended? && board.left.load(Ordering::SeqCst) == VIEWERS)
}

/// How the viewers come.
const WAYS: [(&str, bool); 2] = [
    ("viewer without memory is let go", false),
    ("viewer without memory is let go over TCP", true),
];

/// Over links in memory, and over TCP. A way that doesn't end so is named.
#[test]
fn viewer_without_memory_is_let_go(rt: HostRuntime) -> Result<(), Fail> {
    expect_loose_counting(&rt)?;
    for (name, is_over_tcp) in WAYS {
        if !second_is_let_go(rt, &rt, is_over_tcp)? {
            return Err(Fail::new(name));
        }
    }
    Ok(())
}
