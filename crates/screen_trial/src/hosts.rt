//! What a host sends, in pieces (RFC 6143, 7.6).

ghost use Rattle.host_decoder.specs.Decoder.{IsFor};
ghost use Rattle.raster.specs.Size.{IsScreenSize};

use crate::copies::tell_copies;
use crate::lines::{Tried, otherwise};
use crate::values::Values;
use host_decoder::{HostEvent, HostScreen};
use std::alloc::Global;

/// Bytes of a case in pieces are cut at each place up to this one.
const LAST_CUT: usize = 80;

/// A host's screen, and how the bytes of a line are cut: behind the first ones, and then in pieces.
#[derive(Drop)]
struct Host {
    screen: HostScreen,
    first: usize,
    piece: usize,
    ghost pair: { IsFor screen.decoder screen.painter },
}

/// Adds what a whole message brings: its type (RFC 6143, 7.6), the copies, tiles and colours of an update, and a text
/// that is kept.
fn tell_event(event: &HostEvent, seen: &mut Values) -> Option<()> {
    match event {
        HostEvent::Paint(patch) => {
            let (numbers, colours) = patch.tiles();
            seen.tell(&[0])?;
            tell_copies(patch.copies(), seen)?;
            seen.tell(numbers)?;
            seen.show(colours)
        }
        HostEvent::Map => seen.tell(&[1]),
        HostEvent::Bell(_) => seen.tell(&[2]),
        HostEvent::Cut(patch) => {
            seen.tell(&[3])?;
            seen.tell_text(patch.text_bytes()?)
        }
        HostEvent::LongCut => seen.tell(&[3]),
    }
}

impl Host {
    /// Takes a piece before which no message is whole, and answers the number of the fault that it shows, or 0. It
    /// answers `None` where a part of it isn't used.
    fn take(&mut self, piece: &[u8]) -> Option<u64> {
        if self.screen.decoder.whole().is_some() {
            return None;
        }
        match self.screen.decoder.feed(&mut self.screen.painter, piece) {
            Ok(used) if used == piece.len() => Some(0),
            Ok(_) => None,
            Err(fault) => Some(fault.number()),
        }
    }

    /// Takes the bytes in pieces, of which only the last may show a fault.
    fn take_all(&mut self, bytes: &[u8]) -> Option<u64> {
        let (first, rest) = bytes.split_at(self.first.min(bytes.len()));
        let mut fault = 0;
        if !first.is_empty() || rest.is_empty() {
            fault = self.take(first)?;
        }
        for piece in rest.chunks(self.piece.max(1)) {
            if fault != 0 {
                return None;
            }
            fault = self.take(piece)?;
        }
        Some(fault)
    }

    /// Takes so many rectangles of one pixel in Raw, all at the top left.
    fn take_dots(&mut self, count: u32) -> Option<u64> {
        let mut fault = 0;
        for k in 0..count {
            let [blue, green, red, _] = k.to_le_bytes();
            let dot = [0, 0, 0, 0, 0, 1, 0, 1, 0, 0, 0, 0, blue, green, red, 0];
            fault = self.take(&dot)?.max(fault);
        }
        Some(fault)
    }
}

impl Tried for Host {
    fn play(&mut self, alloc: Global, word: &str, given: &Values, seen: &mut Values) -> Option<()> {
        let bytes = given.bytes.as_slice();
        let (w, h) = self.screen.decoder.size();
        let fault = match (word, given.numbers.as_slice()) {
            ("size", []) => return seen.tell(&[w, h]),
            ("row", [y]) if *y < h => return seen.show(self.screen.painter.row(*y)),
            ("event", []) => {
                return match self.screen.decoder.whole() {
                    Some(event) => tell_event(&event, seen),
                    None => Some(()),
                };
            }
            ("used", []) => match self.screen.decoder.feed(&mut self.screen.painter, bytes) {
                Ok(used) => return seen.tell(&[used as u64]),
                Err(fault) => fault.number(),
            },
            ("feed", []) => self.take_all(bytes)?,
            ("zeros", [count]) => {
                let zeros = vec![in alloc; 0u8; usize::try_from(*count).ok()?].ok()?;
                self.take_all(zeros.as_slice())?
            }
            ("dots", [count]) => self.take_dots(u32::try_from(*count).ok()?)?,
            _ => return None,
        };
        if fault != 0 {
            seen.tell(&[fault])?;
        }
        Some(())
    }
}

/// Plays lines over a new host of a screen, and answers the first one that comes out otherwise.
pub fn play_host<'a>(
    alloc: Global,
    w: u64,
    h: u64,
    first: usize,
    piece: usize,
    lines: &'a str,
) -> Option<&'a str>
    requires { IsScreenSize w h }
{
    let Ok(screen) = HostScreen::new(alloc, w, h) else {
        return Some("no memory");
    };
    let mut host = Host {
        screen,
        first,
        piece,
    };
    otherwise(alloc, &mut host, lines)
}

/// Plays lines whose bytes come at once, one by one, and in two pieces cut at each place.
pub fn play_pieces<'a>(alloc: Global, w: u64, h: u64, lines: &'a str) -> Option<&'a str>
    requires { IsScreenSize w h }
{
    let mut line = play_host(alloc, w, h, 0, 1, lines);
    for first in 0..=LAST_CUT {
        if line.is_none() {
            line = play_host(alloc, w, h, first, usize::MAX, lines);
        }
    }
    line
}
