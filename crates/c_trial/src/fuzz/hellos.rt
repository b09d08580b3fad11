//! Both sides of the handshake.

use crate::fuzz::pieces::Pieces;
use crate::fuzz::transcript::Transcript;
use fault::Fault;
use rfb_wire::{HostHello, ViewerHello};

/// Writes down what there is to send to the viewer, and notes that it is sent.
fn say_to_viewer(hello: &mut ViewerHello, transcript: &mut Transcript<'_>) {
    let count = hello.out().len();
    transcript.bytes(hello.out());
    hello.sent(count);
}

/// A viewer's side of the handshake: what is said to it, its end, and whether it is done.
fn greet(hello: &mut ViewerHello, bytes: &[u8], lengths: &[u8], transcript: &mut Transcript<'_>) {
    let mut pieces = Pieces::new(bytes, lengths);
    let mut used: usize = 0;
    let mut fault = None;
    say_to_viewer(hello, transcript);
    for _ in 0..bytes.len() {
        let Some(piece) = pieces.next() else {
            break;
        };
        match hello.feed(piece) {
            Ok(count) => used = used.saturating_add(count),
            Err(found) => fault = Some(found),
        }
        say_to_viewer(hello, transcript);
    }
    transcript.end(fault, used);
    transcript.byte(u8::from(hello.done()));
}

/// The handshake with a viewer, of a screen of `width` by `height` with this name, over what the viewer says.
#[unsafe(no_mangle)]
pub extern "C" fn fuzz_viewer_hello(
    width: u32,
    height: u32,
    name: &[u8],
    bytes: &[u8],
    lengths: &[u8],
    out: &mut [u8],
) -> usize {
    let mut transcript = Transcript::new(out);
    let is_size = 1 <= width && width <= 4096 && 1 <= height && height <= 4096;
    if is_size && !name.is_empty() && name.len() <= 255 {
        let mut hello = ViewerHello::new(u64::from(width), u64::from(height), name);
        greet(&mut hello, bytes, lengths, &mut transcript);
    }
    transcript.len()
}

/// The reason that a host gave for its refusal.
fn write_reason(fault: &Option<Fault>, transcript: &mut Transcript<'_>) {
    if let Some(Fault::HostRefused(reason)) = fault {
        transcript.number(reason.len() as u64);
        transcript.bytes(reason.as_slice());
    }
}

/// The handshake with a host, over what the host says: what is said to it, its end, and whom it joined.
#[unsafe(no_mangle)]
pub extern "C" fn fuzz_host_hello(bytes: &[u8], lengths: &[u8], out: &mut [u8]) -> usize {
    let mut transcript = Transcript::new(out);
    let mut pieces = Pieces::new(bytes, lengths);
    let mut hello = HostHello::new(None);
    let mut used: usize = 0;
    let mut fault = None;
    for _ in 0..bytes.len() {
        let Some(piece) = pieces.next() else {
            break;
        };
        match hello.feed(piece) {
            Ok(count) => used = used.saturating_add(count),
            Err(found) => fault = Some(found),
        }
        let count = hello.out().len();
        transcript.bytes(hello.out());
        hello.sent(count);
    }
    write_joined(&hello, &mut transcript);
    write_reason(&fault, &mut transcript);
    transcript.end(fault, used);
    transcript.len()
}

fn write_joined(hello: &HostHello, transcript: &mut Transcript<'_>) {
    if let Some(joined) = hello.done() {
        transcript.number(joined.w);
        transcript.number(joined.h);
        transcript.number(joined.name.len() as u64);
        transcript.bytes(joined.name.as_slice());
    }
}
