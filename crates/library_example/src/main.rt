//! The crates as a library: follows a host, and looks at its screen.
//!
//! Standard input has bytes in hex, as a host with a screen of 8 by 1 pixels sends them after its handshake (RFC 6143,
//! section 7.6). They are read from a link in memory, and the screen is printed as they left it: a colour for each
//! pixel, in words of four bytes.
#![tactic(auto)]

ghost use Rattle.std.specs.Prelude.{◌≡◌, IfOk};

use fault::Fault;
use host_decoder::HostDecoder;
use host_reader::run_host;
use link::{MemoryLink, Took};
use painter::Painter;
use reflect_core::PlainScreen;
use std::alloc::Global;
use std::io::{self, Read};
use std::sync::Wait;
use std::test::Fail;

/// The width of the host's screen in pixels.
const WIDTH: u64 = 8;

/// The height of the host's screen in pixels.
const HEIGHT: u64 = 1;

fn main(rt: HostRuntime) -> Result<(), Fail> {
    let text = io::read_to_string(rt.alloc(), rt.stdin())?;
    let sends = bytes_of(rt.alloc(), text.as_str().trim())?;
    let (ended, updates, screen) = follow(&rt, rt.alloc(), sends)?;
    let row = words_of(rt.alloc(), screen.row(0))?;
    println!(rt; "updates: {updates}, fault: {}", number(ended))?;
    println!(rt; "screen: {row}")?;
    Ok(())
}

/// Follows a host whose handshake is done, until its bytes end. It answers how reading them ended, how many updates
/// they brought, and the screen as they left it.
fn follow<R: Wait>(
    rt: &R,
    alloc: Global,
    sends: Vec<u8>,
) -> Result<(Result<(), Fault>, u64, Painter), Fail>
    ensures { IfOk result (λ followed. (followed.2.width ≡ WIDTH) × (followed.2.height ≡ HEIGHT)) }
{
    let takes = vec![in alloc; Took::Bytes(sends.len())]?;
    let mut link = MemoryLink::new(alloc, sends, takes, Vec::new(alloc))?;
    let mut painter = Painter::new(alloc, WIDTH, HEIGHT)?;
    let mut decoder = HostDecoder::new(alloc, WIDTH, HEIGHT);
    let mut updates = PlainScreen::new(alloc, WIDTH, HEIGHT)?;
    let ended = run_host(
        rt,
        alloc,
        &mut link,
        &mut decoder,
        &mut painter,
        &mut updates,
    );
    Ok((ended, updates.updates(), painter))
}

/// The bytes of words of hex digits, which are divided by one blank each.
fn bytes_of(alloc: Global, text: &str) -> Result<Vec<u8>, Fail> {
    let mut bytes = Vec::new(alloc);
    for word in text.split(' ') {
        bytes.extend_from_slice(hex::decode(alloc, word)?.as_slice())?;
    }
    Ok(bytes)
}

/// Colours in upper-case hex, one blank between two of them.
fn words_of(alloc: Global, colours: &[u32]) -> Result<String, Fail> {
    let mut text = String::new(alloc);
    for colour in colours {
        if !text.is_empty() {
            text.push(' ')?;
        }
        text.push_str(hex::encode_upper(alloc, &colour.to_be_bytes())?.as_str())?;
    }
    Ok(text)
}

/// A fault's number, or 0 where there is none.
fn number(answer: Result<(), Fault>) -> u64 {
    match answer {
        Ok(()) => 0,
        Err(fault) => fault.number(),
    }
}
