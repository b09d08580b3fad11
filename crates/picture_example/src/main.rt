//! The crates as a library: shows a picture of its own to a viewer.
//!
//! A picture of 8 by 1 pixels is painted, and put on a screen as one update. Then a viewer is served from that screen
//! over a link in memory, and what it was given is printed.
#![tactic(auto)]

ghost use Rattle.std.specs.Prelude.{◌≡◌, IfOk};

mod ends;

use ends::{NoInput, NoRest, NoStop};
use fault::Fault;
use joined_runs::RectForm;
use link::{Gave, MemoryLink, Took};
use painter::Painter;
use raster::Rect;
use reflect_core::{PlainScreen, Puts};
use roles::Role;
use std::alloc::Global;
use std::sync::Wait;
use std::test::Fail;
use viewer_server::{Beginning, NoProgress, Visit, run_viewer};
use viewer_session::{AnswerForm, Session};

/// The form in which viewers are answered.
const FORM: AnswerForm = AnswerForm {
    runs: RectForm::Joined,
    zrle: false,
    copies: true,
};

/// The width of the picture in pixels.
const WIDTH: u64 = 8;

/// The height of the picture in pixels.
const HEIGHT: u64 = 1;

/// The whole picture.
const SKY: Rect = Rect {
    x: 0,
    y: 0,
    w: 8,
    h: 1,
};

/// Its first pixel.
const SUN: Rect = Rect {
    x: 0,
    y: 0,
    w: 1,
    h: 1,
};

/// What the viewer sends: a list of encodings with Hextile, and a request for the whole screen (RFC 6143, 7.5.2 and
/// 7.5.3).
const VIEWER: [u8; 18] = [2, 0, 0, 1, 0, 0, 0, 5, 3, 0, 0, 0, 0, 0, 0, 8, 0, 1];

/// How many pieces the viewer takes at most: an update's header, and a rectangle each.
const PIECES: usize = 16;

/// How many bytes of a piece it takes at once.
const ROOM: usize = 4096;

fn main(rt: HostRuntime) -> Result<(), Fail> {
    let screen = draw(rt.alloc())?;
    let (ended, given) = serve_viewer(&rt, rt.alloc(), screen)?;
    println!(rt; "viewer: {given}, fault: {}", number(ended))?;
    Ok(())
}

/// A screen that shows the picture: all blue, and the first pixel red.
fn draw(alloc: Global) -> Result<PlainScreen, Fault>
    ensures { IfOk result (λ screen. (screen.width ≡ WIDTH) × (screen.height ≡ HEIGHT)) }
{
    let mut painter = Painter::new(alloc, WIDTH, HEIGHT)?;
    painter.put(SKY, &[0x0000FF; 8]);
    painter.put(SUN, &[0xFF0000]);
    let patch = painter.patch()?;
    let mut screen = PlainScreen::new(alloc, WIDTH, HEIGHT)?;
    let put = screen.put(patch);
    if let Err((fault, _)) = &put {
        return Err(*fault);
    }
    screen.raise();
    Ok(screen)
}

/// Serves a viewer that only looks on, and whose handshake is done: it asks, takes its answer and ends. It answers how
/// serving ended, and the bytes that the viewer was given, in hex.
fn serve_viewer<R: Wait>(
    rt: &R,
    alloc: Global,
    screen: PlainScreen,
) -> Result<(Result<(), Fault>, String), Fail>
    requires { (screen.width ≡ WIDTH) × (screen.height ≡ HEIGHT) }
{
    let sends = Vec::from_slice(alloc, &VIEWER)?;
    let takes = vec![in alloc; Took::Bytes(VIEWER.len()), Took::End]?;
    let gives = Vec::from_elem(alloc, Gave::Bytes(ROOM), PIECES)?;
    let link = MemoryLink::new(alloc, sends, takes, gives)?;
    let session = Session::ready(alloc, WIDTH, HEIGHT, Role::View, FORM, None)?;
    let first = Beginning::of(&link, &screen, &NoInput, &session);
    let mut visit = Visit::new(&first, link, screen, NoInput, session);
    let ended = run_viewer(rt, &mut visit, &NoStop, &NoRest, &NoProgress);
    let (link, _, _, _) = visit.into_parts(());
    Ok((ended, words_of(alloc, link.given())?))
}

/// Bytes in upper-case hex, in words of four bytes each; the last word may be shorter.
fn words_of(alloc: Global, bytes: &[u8]) -> Result<String, Fail> {
    let mut text = String::new(alloc);
    for word in bytes.chunks(4) {
        if !text.is_empty() {
            text.push(' ')?;
        }
        text.push_str(hex::encode_upper(alloc, word)?.as_str())?;
    }
    Ok(text)
}

/// A fault's number, or 0 where there is none.
fn number(answer: Result<(), Fault>) -> u64 {
    match answer {
        Ok(()) => 0,
        Err(fault) => fault.number(),
    }
}
