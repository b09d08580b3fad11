//! What `bench/host_decoder` calls.

ghost use Rattle.std.specs.Prelude.{◌<◌};
ghost use Rattle.host_decoder.specs.Decoder.{IsFor};

use host_decoder::HostScreen;
use painter::Painter;
use std::alloc::Global;

/// Reads one message in pieces of `step` bytes, and answers whether it was whole at its end.
fn read_message(screen: &mut HostScreen, message: &[u8], step: usize) -> bool
    requires some { 0 < step }
    requires pair { IsFor screen.old.decoder screen.old.painter }
    ensures pair { IsFor screen.new.decoder screen.new.painter }
{
    let mut left = message;
    while !left.is_empty() {
        let (piece, rest) = left.split_at(left.len().min(step));
        if screen.decoder.feed(&mut screen.painter, piece).is_err() {
            return false;
        }
        left = rest;
    }
    screen.decoder.whole().is_some()
}

/// Reads one message this many times.
fn read_messages(screen: &mut HostScreen, message: &[u8], step: usize, times: u32) -> bool
    requires some { 0 < step }
    requires pair { IsFor screen.old.decoder screen.old.painter }
{
    for _ in 0..times {
        if !read_message(screen, message, step) {
            return false;
        }
    }
    true
}

/// Copies the colours of the screen, as far as they have room.
fn copy_screen(painter: &Painter, shown: &mut [u32]) {
    let (width, height) = painter.size();
    let mut rows = shown.chunks_exact_mut((width as usize).max(1));
    for y in 0..height {
        if let Some(row) = rows.next() {
            let colours = painter.row(y);
            if row.len() == colours.len() {
                row.copy_from_slice(colours);
            }
        }
    }
}

/// Reads one message of a host this many times, in pieces of `step` bytes, on a screen of `width` by `height`, and
/// copies what is shown then. Answers false where it isn't one whole message, or there is no memory or no such screen.
#[unsafe(no_mangle)]
pub extern "C" fn bench_host_message(
    alloc: Global,
    width: u32,
    height: u32,
    message: &[u8],
    step: u32,
    times: u32,
    shown: &mut [u32],
) -> bool {
    if width == 0 || width > 4096 || height == 0 || height > 4096 || step == 0 {
        return false;
    }
    let (w, h) = (u64::from(width), u64::from(height));
    let Ok(mut screen) = HostScreen::new(alloc, w, h) else {
        return false;
    };
    let whole = read_messages(&mut screen, message, step as usize, times);
    copy_screen(&screen.painter, shown);
    whole
}
