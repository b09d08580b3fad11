//! A play has a run and all who have to do with it at the same time: hosts, several viewers of a role, browsers,
//! machines and an operator. One thread does what they do, in the order of a table, so that nothing of it depends on
//! when threads run.

use crate::actors::{Actor, make_actors};
use crate::deeds::{Act, is_act_right};
use crate::lines::status_of;
use crate::room::{Ear, Room};
use crate::scene::{PORTS, Stage, are_left_alone, are_noted, is_filled, set};
use crate::system::SocketFiles;
use std::alloc::{AllocError, Global};
use std::net::{Net, TcpListener, TcpStream};
use std::random::RandomSource;
use std::sync::Wait;
use std::test::*;
use std::thread;
use std::thread::Threads;
use std::time::Clock;

/// A play is played this often at most.
const ATTEMPTS: u64 = 3;

/// How each line begins by which `serve` is told of a play.
const BEGIN: &str = "serve --full |full| --view |view| ";

/// What `serve` is told, who does what, how the run ends, and what it says. In its texts the name of a port stands for
/// the port, between bars.
#[derive(Drop)]
pub(crate) struct Play<'a> {
    /// The name that is printed where the play goes otherwise.
    pub(crate) name: &'static str,
    /// Further words of the line.
    pub(crate) words: &'static str,
    /// Where systemd hears of the run, or an empty text where it hasn't started it.
    pub(crate) notify: &'static str,
    /// What is done, one act after another, in parts.
    pub(crate) acts: &'a [&'static [Act]],
    /// The exit status.
    pub(crate) status: u8,
    /// What stands on standard error, beside what the acts say of it.
    pub(crate) lines: &'static [&'static str],
}

/// Plays each play. It answers an error with the name of one that doesn't go as it should.
pub(crate) fn perform_all<R>(rt: R, alloc: Global, plays: &[Play<'_>]) -> Result<(), Fail>
where
    R: Net<Stream = TcpStream, Listener = TcpListener>
        + Threads
        + Wait
        + Clock
        + RandomSource
        + SocketFiles
        + Copy
        + Drop
        + Send
        + Sync
        + 'static,
{
    for play in plays {
        if !is_right_at_last(rt, alloc, play)? {
            return Err(Fail::new(play.name));
        }
    }
    Ok(())
}

/// What a run says that finds a port taken.
const IS_TAKEN: &str = "can't listen on ";

/// Whether a play goes as it should. It is played again where another program had taken one of its ports meanwhile.
fn is_right_at_last<R>(rt: R, alloc: Global, play: &Play<'_>) -> Result<bool, AllocError>
where
    R: Net<Stream = TcpStream, Listener = TcpListener>
        + Threads
        + Wait
        + Clock
        + RandomSource
        + SocketFiles
        + Copy
        + Drop
        + Send
        + Sync
        + 'static,
{
    for _ in 0..ATTEMPTS {
        let room = Room::new(alloc)?;
        if is_right(rt, alloc, room, play) {
            return Ok(true);
        }
        if !Ear::new(rt, alloc, room).has(IS_TAKEN) {
            return Ok(false);
        }
    }
    Ok(false)
}

/// Whether a play goes as it should.
fn is_right<R>(rt: R, alloc: Global, room: &'static Room, play: &Play<'_>) -> bool
where
    R: Net<Stream = TcpStream, Listener = TcpListener>
        + Threads
        + Wait
        + Clock
        + RandomSource
        + SocketFiles
        + Copy
        + Drop
        + Send
        + Sync
        + 'static,
{
    match set(&rt, false) {
        Ok(stage) => is_performed(rt, alloc, room, play, &stage),
        Err(_) => false,
    }
}

/// Whether what is done goes well, the run ends so, and it says what it should. No host is connected to more often than
/// it should be.
fn is_performed<R>(
    rt: R,
    alloc: Global,
    room: &'static Room,
    play: &Play<'_>,
    stage: &Stage,
) -> bool
where
    R: Net<Stream = TcpStream, Listener = TcpListener>
        + Threads
        + Wait
        + Clock
        + RandomSource
        + SocketFiles
        + Copy
        + Drop
        + Send
        + Sync
        + 'static,
{
    let ear = Ear::new(rt, alloc, room);
    let are_noted = are_noted(&stage.ports, play.lines, &mut ear.wanted());
    let is_told_where = is_filled(&stage.ports, play.notify, &mut ear.room.notify.lock(&ear));
    let (are_right, is_served) = thread::join(
        &rt,
        || are_acts_right(&ear, stage, play.acts),
        || is_served(rt, alloc, room, play, &stage.ports),
    );
    are_noted
        && is_told_where
        && are_right
        && is_served
        && ear.is_told()
        && are_left_alone(&stage.hosts)
}

/// Whether each act goes well.
fn go_well<R>(ear: &Ear<R>, stage: &Stage, actors: &mut [Actor], acts: &[Act]) -> bool
where
    R: Net<Stream = TcpStream, Listener = TcpListener>
        + Threads
        + Wait
        + Clock
        + RandomSource
        + SocketFiles
        + Copy
        + Drop
        + Send
        + 'static,
{
    let mut are_right = true;
    for act in acts {
        are_right = are_right && is_act_right(ear, stage, actors, act);
    }
    are_right
}

/// Whether each act of all parts goes well. Whoever has a connection then closes it.
fn are_acts_right<R>(ear: &Ear<R>, stage: &Stage, parts: &[&[Act]]) -> bool
where
    R: Net<Stream = TcpStream, Listener = TcpListener>
        + Threads
        + Wait
        + Clock
        + RandomSource
        + SocketFiles
        + Copy
        + Drop
        + Send
        + 'static,
{
    let Ok(mut actors) = make_actors(ear.alloc) else {
        return false;
    };
    let mut are_right = true;
    for acts in parts {
        are_right = are_right && go_well(ear, stage, actors.as_mut_slice(), acts);
    }
    are_right
}

/// Whether `serve` ends with its status.
fn is_served<R>(
    rt: R,
    alloc: Global,
    room: &'static Room,
    play: &Play<'_>,
    ports: &[u16; PORTS],
) -> bool
where
    R: Net<Stream = TcpStream, Listener = TcpListener>
        + Threads
        + Wait
        + Clock
        + RandomSource
        + SocketFiles
        + Copy
        + Drop
        + Send
        + 'static,
{
    let mut line = String::new(alloc);
    let is_served = is_filled(ports, BEGIN, &mut line)
        && is_filled(ports, play.words, &mut line)
        && status_of(rt, alloc, room, line.as_str()) == play.status;
    Ear::new(rt, alloc, room).ends();
    is_served
}
