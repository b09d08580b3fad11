//! The three viewers over TCP, and a log that keeps memory from one of them.

use crate::board::{Board, hold};
use crate::hoard::Hoard;
use crate::sockets::{LONG, VERSION, connect, hears};
use crate::three_viewers::{ends_right, given_to, sent_by};
use crate::wire::VIEWERS;
use connections::Lobby;
use run_traits::{Event, Log};
use std::alloc::Global;
use std::io;
use std::io::{Read, Write};
use std::net::{SocketAddr, TcpStream};
use std::sync::{Arc, Mutex, Wait};
use std::time::{Clock, Duration};

/// A log that keeps memory from the second viewer while that viewer has the place.
#[derive(Drop)]
pub(crate) struct Keeper<R: Drop> {
    rt: R,
    alloc: Global,
    board: Arc<Board, Global>,
    hoard: Mutex<Option<Hoard>>,
}

impl<R: Wait + Drop> Keeper<R> {
    /// A log that keeps no memory yet.
    pub(crate) fn new(rt: R, alloc: Global, board: Arc<Board, Global>) -> Keeper<R> {
        Keeper {
            rt,
            alloc,
            board,
            hoard: Mutex::new(None),
        }
    }
}

impl<R: Wait + Drop> Log for Keeper<R> {
    fn note(&self, event: &Event<'_>) {
        let mut hoard = self.hoard.lock(&self.rt);
        match event {
            Event::ViewerIn { .. } => {
                if self.board.enter() == Some(2) {
                    *hoard = Hoard::new(self.alloc).unwrap_or(None);
                }
            }
            Event::ViewerOut { visit, .. } => {
                *hoard = None;
                let viewer = self.board.number();
                let is_whole = visit.bytes == given_to(viewer).len() as u64;
                self.board.leave(ends_right(viewer, &visit.why) && is_whole);
            }
            _ => {}
        }
    }
}

/// Whether a viewer that is let go has sent its version and was sent one, and nothing more.
fn is_let_go(stream: &mut TcpStream) -> io::Result<bool> {
    stream.write_all(VERSION)?;
    Ok(hears(stream, VERSION)? && stream.read(&mut [0])? == 0)
}

/// Whether a viewer that sends what it has to is given what it should be.
fn is_given(stream: &mut TcpStream, viewer: u64) -> io::Result<bool> {
    stream.write_all(sent_by(viewer))?;
    hears(stream, given_to(viewer))
}

/// Whether a viewer is let go, or given what it should be. Then it leaves by itself.
fn visits(net: &HostRuntime, address: SocketAddr, viewer: u64) -> io::Result<bool> {
    let mut stream = connect(net, address)?;
    if given_to(viewer).is_empty() {
        is_let_go(&mut stream)
    } else {
        is_given(&mut stream, viewer)
    }
}

/// The viewers come once the host was asked for more, and each once the place is free. Then the lobby is closed, which
/// the thread that keeps the port sees soon.
pub(crate) fn come_all<R: Wait + Clock>(
    rt: &R,
    net: &HostRuntime,
    address: SocketAddr,
    lobby: &Lobby,
    board: &Board,
) -> bool {
    hold(&board.told, 1);
    let mut is_right = true;
    for number in 0..VIEWERS {
        is_right = visits(net, address, number + 1).unwrap_or(false) && is_right;
        lobby.await_empty(rt, Duration::from_secs(LONG));
    }
    lobby.close(rt);
    is_right
}
