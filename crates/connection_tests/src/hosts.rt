//! The two ends of the host's connection.

use crate::sockets::{connect, listen, pair};
use connections::{HostCall, HostLink, HostListener};
use link::{Gave, Link, Took};
use std::io;
use std::io::{Read, Write};
use std::net::TcpStream;
use std::test::*;

/// Whether what a host sends is taken, what is given reaches it, and its end is seen.
fn is_read_and_told<L: Link>(
    reader: &mut L,
    writer: &mut L,
    mut far: TcpStream,
) -> io::Result<bool> {
    far.write_all(b"RFB 003.008\n")?;
    let mut into = [0u8; 64];
    let is_read = reader.take(&mut into) == Took::Bytes(12)
        && &into[..12] == b"RFB 003.008\n".as_slice();
    let gave = writer.give(b"\x01\x01");
    let mut told = [0u8; 2];
    far.read_exact(&mut told)?;
    drop(far);
    let is_told = gave == Gave::Bytes(2) && told == [1, 1];
    let has_ended = reader.take(&mut into) == Took::End;
    Ok(is_read && is_told && has_ended && reader.failures() == 0 && writer.failures() == 0)
}

/// Whether a host that takes nothing is answered Nothing at last, which is no failure.
fn is_answered_when_full<L: Link>(writer: &mut L) -> bool {
    let bytes = [7u8; 65_536];
    for _ in 0..10_000 {
        match writer.give(&bytes) {
            Gave::Bytes(_) => {}
            gave => return gave == Gave::Nothing && writer.failures() == 0,
        }
    }
    false
}

/// Makes a new connection, and answers whether its two ends do as one of the two tests wants: where `is_full`, the
/// second.
fn is_right(rt: &HostRuntime, is_full: bool) -> io::Result<bool> {
    let (far, near) = pair(rt)?;
    let (mut reader, mut writer) = HostLink::pair(near)?;
    if is_full {
        Ok(is_answered_when_full(&mut writer))
    } else {
        is_read_and_told(&mut reader, &mut writer, far)
    }
}

/// A host is read and told. Where a host takes nothing the link answers Nothing, each time after a second, so that the
/// writer sees whether it is to end.
#[test]
fn host_is_read_and_told_until_full(rt: HostRuntime) -> Result<(), Fail> {
    assert!(rt; is_right(&rt, false)? && is_right(&rt, true)?);
    Ok(())
}

/// Whether this host is the next that calls, and is read and told.
fn is_next(listener: &HostListener, far: TcpStream) -> io::Result<bool> {
    let Some(call) = listener.accept()? else {
        return Ok(false);
    };
    let HostCall {
        address,
        stream: _stream,
        mut reader,
        mut writer,
    } = call;
    let is_it = address == far.local_addr()?;
    Ok(is_it && is_read_and_told(&mut reader, &mut writer, far)?)
}

/// Where no host calls there is none in time. Two that call are read and told, in their order.
#[test]
fn hosts_that_call_are_read_and_told(rt: HostRuntime) -> Result<(), Fail> {
    let socket = listen(&rt)?;
    let address = socket.local_addr()?;
    let listener = HostListener::new(socket)?;
    assert!(rt; listener.accept()?.is_none());
    let first = connect(&rt, address)?;
    let second = connect(&rt, address)?;
    assert!(rt; is_next(&listener, first)? && is_next(&listener, second)?);
    assert!(rt; listener.accept()?.is_none());
    Ok(())
}
