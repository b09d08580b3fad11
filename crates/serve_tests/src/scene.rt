//! A scene has hosts, viewers of each role, and `serve` between them. `serve` runs as the program does, by a line of
//! words, on a runtime whose standard error and clock are the scene's.

use crate::hosts::{Host, are_hosts_right};
use crate::lines::status_of;
use crate::loopback::{free_port, listen, port_at};
use crate::room::{Ear, Room};
use crate::system::SocketFiles;
use crate::visits::{Door, Visit, are_visits_right};
use std::alloc::Global;
use std::net::{Net, TcpListener, TcpStream};
use std::random::RandomSource;
use std::sync::Wait;
use std::test::*;
use std::thread::Threads;
use std::time::Clock;
use std::{io, thread};

/// The hosts, the viewers of each role and `serve` have a thread each.
const PARTS: usize = 4;

/// The exit status of a fault other than a lack of memory.
pub(crate) const FAULT: u8 = 3;

/// How each line begins by which `serve` is told of a scene.
const BEGIN: &str = "serve --full |full| --view |view| --full-places 1 --view-places 1 ";

/// How many ports a scene has.
pub(crate) const PORTS: usize = 9;

/// How the texts of a scene name its ports: those of the listeners of three hosts, one at which nothing listens, those
/// at which `serve` listens for viewers of each role, those for browsers, and the one for machines.
const NAMES: &[&str] = &[
    "first", "second", "third", "nobody", "full", "view", "web_full", "web_view", "metrics",
];

/// What `serve` is told, whom it meets, how it ends, and what it says. In its texts the name of a port stands for the
/// port, between bars.
pub(crate) struct Scene {
    /// The name that is printed where the scene goes otherwise.
    pub(crate) name: &'static str,
    /// Further words of the line.
    pub(crate) words: &'static str,
    /// Whether the port of viewers with full control is taken.
    pub(crate) is_taken: bool,
    /// The hosts that are there, one after another.
    pub(crate) hosts: &'static [Host],
    /// The viewers with full control, one after another, and those that only look on.
    pub(crate) full: &'static [Visit],
    pub(crate) view: &'static [Visit],
    /// The exit status.
    pub(crate) status: u8,
    /// What stands on standard error, beside what viewers leave there: a line of the log after its time, or how another
    /// line begins.
    pub(crate) lines: &'static [&'static str],
}

/// Three hosts that listen, and the ports in the order of their names.
#[derive(Drop)]
pub(crate) struct Stage {
    pub(crate) hosts: [TcpListener; 3],
    pub(crate) ports: [u16; PORTS],
}

/// Sets a stage, on which the port of full control may be taken.
pub(crate) fn set<R: Net<Stream = TcpStream, Listener = TcpListener>>(
    rt: &R,
    is_taken: bool,
) -> io::Result<Stage> {
    let hosts = [listen(rt)?, listen(rt)?, listen(rt)?];
    let ports = ports(rt, &hosts, is_taken);
    Ok(Stage { hosts, ports })
}

/// The ports of a stage, where that of full control may be taken.
fn ports<R: Net<Stream = TcpStream, Listener = TcpListener>>(
    rt: &R,
    hosts: &[TcpListener; 3],
    is_taken: bool,
) -> [u16; PORTS] {
    let [first, second, third] = hosts;
    let full = if is_taken {
        port_at(second)
    } else {
        free_port(rt)
    };
    [
        port_at(first),
        port_at(second),
        port_at(third),
        free_port(rt),
        full,
        free_port(rt),
        free_port(rt),
        free_port(rt),
        free_port(rt),
    ]
}

/// The port of this name.
pub(crate) fn port_of(ports: &[u16; PORTS], name: &str) -> Option<u16> {
    for (port, named) in ports.iter().zip(NAMES) {
        if *named == name {
            return Some(*port);
        }
    }
    None
}

/// Whether a text is added to this one, with its ports.
pub(crate) fn is_filled(ports: &[u16; PORTS], text: &str, out: &mut String) -> bool {
    let mut is_filled = true;
    for piece in text.split('|') {
        let is_added = match port_of(ports, piece) {
            Some(port) => write!(out, "{port}").is_ok(),
            None => out.push_str(piece).is_ok(),
        };
        is_filled = is_filled && is_added;
    }
    is_filled
}

/// Whether the lines are noted that have to come on standard error.
pub(crate) fn are_noted(ports: &[u16; PORTS], lines: &[&str], out: &mut String) -> bool {
    let mut are_noted = true;
    for line in lines {
        are_noted = are_noted && is_filled(ports, line, out) && out.push_str("\n").is_ok();
    }
    are_noted
}

/// Plays each scene. It answers an error with the scene's name where a scene doesn't go as it should.
pub(crate) fn play_all<R>(rt: R, alloc: Global, scenes: &[Scene]) -> Result<(), Fail>
where
    R: Net<Stream = TcpStream, Listener = TcpListener>
        + Threads
        + Wait
        + Clock
        + RandomSource
        + SocketFiles
        + Copy
        + Drop
        + Send
        + Sync
        + 'static,
{
    for scene in scenes {
        let room = Room::new(alloc)?;
        if !is_right(rt, alloc, room, scene) {
            return Err(Fail::new(scene.name));
        }
    }
    Ok(())
}

/// Whether a scene goes as it should.
fn is_right<R>(rt: R, alloc: Global, room: &'static Room, scene: &Scene) -> bool
where
    R: Net<Stream = TcpStream, Listener = TcpListener>
        + Threads
        + Wait
        + Clock
        + RandomSource
        + SocketFiles
        + Copy
        + Drop
        + Send
        + Sync
        + 'static,
{
    match set(&rt, scene.is_taken) {
        Ok(stage) => is_played(rt, alloc, room, scene, &stage),
        Err(_) => false,
    }
}

/// Whether each part of a scene is right: the hosts, the viewers of each role, and `serve`, including what it prints.
/// No host is connected to more often than it should be.
fn is_played<R>(rt: R, alloc: Global, room: &'static Room, scene: &Scene, stage: &Stage) -> bool
where
    R: Net<Stream = TcpStream, Listener = TcpListener>
        + Threads
        + Wait
        + Clock
        + RandomSource
        + SocketFiles
        + Copy
        + Drop
        + Send
        + Sync
        + 'static,
{
    let ear = Ear::new(rt, alloc, room);
    let are_noted = are_noted(&stage.ports, scene.lines, &mut ear.wanted());
    let is_right = |part: usize| is_part_right(rt, &ear, scene, stage, part);
    let are_right = match thread::map_indices(&rt, alloc, PARTS, &is_right) {
        Ok(are_right) => !are_right.contains(&false),
        Err(_) => false,
    };
    are_noted && are_right && ear.is_told() && are_left_alone(&stage.hosts)
}

/// Whether a part of a scene is right, by its number.
fn is_part_right<R>(rt: R, ear: &Ear<R>, scene: &Scene, stage: &Stage, part: usize) -> bool
where
    R: Net<Stream = TcpStream, Listener = TcpListener>
        + Threads
        + Wait
        + Clock
        + RandomSource
        + SocketFiles
        + Copy
        + Drop
        + Send
        + 'static,
{
    let [_, _, _, _, full, view, ..] = stage.ports;
    match part {
        0 => are_hosts_right(ear, scene.hosts, &stage.hosts),
        1 => are_visits_right(ear, &full_door(full), scene.full),
        2 => are_visits_right(ear, &view_door(view), scene.view),
        _ => is_served(rt, ear.alloc, ear.room, scene, &stage.ports),
    }
}

/// The door of viewers with full control, whose one place comes first.
fn full_door(port: u16) -> Door {
    Door {
        port,
        comes: "viewer-in place=1 role=full address=",
        leaves: "viewer-out place=1 role=full address=",
    }
}

/// The door of viewers that only look on, with the next place.
fn view_door(port: u16) -> Door {
    Door {
        port,
        comes: "viewer-in place=2 role=view address=",
        leaves: "viewer-out place=2 role=view address=",
    }
}

/// Whether `serve` ends with its status.
fn is_served<R>(
    rt: R,
    alloc: Global,
    room: &'static Room,
    scene: &Scene,
    ports: &[u16; PORTS],
) -> bool
where
    R: Net<Stream = TcpStream, Listener = TcpListener>
        + Threads
        + Wait
        + Clock
        + RandomSource
        + SocketFiles
        + Copy
        + Drop
        + Send
        + 'static,
{
    let mut line = String::new(alloc);
    is_filled(ports, BEGIN, &mut line)
        && is_filled(ports, scene.words, &mut line)
        && status_of(rt, alloc, room, line.as_str()) == scene.status
}

/// Whether no client connects to these hosts.
pub(crate) fn are_left_alone(hosts: &[TcpListener]) -> bool {
    let mut are_left_alone = true;
    for listener in hosts {
        let is_called = listener.set_nonblocking(true).is_err() || listener.accept().is_ok();
        are_left_alone = are_left_alone && !is_called;
    }
    are_left_alone
}
