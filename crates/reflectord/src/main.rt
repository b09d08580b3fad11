//! reflectord: a VNC reflector. `reflectord serve` reflects a host to its viewers, `reflectord replay` plays a script
//! from standard input.
#![tactic(auto)]

use std::alloc::AllocGlobal;
use std::env::Env;
use std::fs::File;
use std::io::{Read, Write};
use std::net::{Net, TcpListener, TcpStream};
use std::process::ExitCode;
use std::random::RandomSource;
use std::rt::Files;
use std::sync::Wait;
use std::thread::Threads;
use std::time::Clock;

/// Does what the words after the program's name say. The bounds stand in full here, and not as those of a run of
/// `serve`: the proof of `main` needs the types of the sockets by name.
fn run<R, I, O>(rt: R, reader: I, writer: O) -> ExitCode
where
    R: Net<Stream = TcpStream, Listener = TcpListener>
        + Threads
        + Wait
        + Clock
        + RandomSource
        + Env
        + Files<File = File, Dir: Send>
        + AllocGlobal
        + Print
        + Eprint
        + Copy
        + Drop
        + Send
        + 'static,
    I: Read + Drop,
    O: Write + Drop,
{
    command_line::run(rt, reader, writer)
}

fn main(rt: HostRuntime) -> ExitCode {
    run(rt, rt.stdin(), rt.stdout())
}
