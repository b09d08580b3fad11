//! Sessions over a plain screen, act by act, and what a viewer holds.

ghost use Rattle.std.specs.Prelude.{◌≡◌};
ghost use Rattle.raster.specs.Size.{IsScreenSize};

use crate::act::Act;
use painter::Painter;
use raster::{Rect, Size};
use reflect_core::{PlainScreen, Puts, ScreenSource};
use rfb_wire::ClientMessage;
use roles::{Held, Role};
use std::alloc::Global;
use viewer_session::{AnswerForm, Session};

/// Plays the lines over a new session, with its hello or after it, and answers the first line that comes out otherwise.
/// Where there is a host's size, the viewer is told of sizes. It is answered in this form.
pub fn play_session<'a>(
    alloc: Global,
    width: u64,
    height: u64,
    lines: &'a str,
    greets: bool,
    host: Option<Size>,
    form: AnswerForm,
) -> Option<&'a str>
    requires { IsScreenSize width height }
{
    let opened = if greets {
        Session::open(alloc, width, height, b"T", Role::Full, form, host)
    } else {
        Session::ready(alloc, width, height, Role::Full, form, host)
    };
    let Ok(mut session) = opened else {
        return Some("no session");
    };
    let Ok(mut screen) = PlainScreen::new(alloc, width, height) else {
        return Some("no screen");
    };
    otherwise(alloc, &mut session, &mut screen, lines)
}

/// Plays the lines, and answers the first line that comes out otherwise.
fn otherwise<'a>(
    alloc: Global,
    session: &mut Session,
    screen: &mut PlainScreen,
    lines: &'a str,
) -> Option<&'a str>
    requires { (session.old.width ≡ screen.old.width) × (session.old.height ≡ screen.old.height) }
{
    for line in lines.lines() {
        let holds = match Act::read(line) {
            Some(act) => holds(alloc, session, screen, &act),
            None => false,
        };
        if !holds {
            return Some(line);
        }
    }
    None
}

/// Plays a line, and answers whether all is as it says.
fn holds(alloc: Global, session: &mut Session, screen: &mut PlainScreen, act: &Act<'_>) -> bool
    requires { (session.old.width ≡ screen.old.width) × (session.old.height ≡ screen.old.height) }
    ensures { (session.new.width ≡ screen.new.width) × (session.new.height ≡ screen.new.height) }
{
    match act.word {
        "turn" => match session.turn(screen) {
            Ok(begun) => act.says(begun),
            Err(_) => false,
        },
        "put" => puts(alloc, screen, None),
        "copy" => match act.second() {
            Some(y) => copies(alloc, screen, act.number, y),
            None => false,
        },
        "size" => match act.second() {
            Some(height) => {
                let width = act.number;
                puts(alloc, screen, Some(Size { width, height }))
            }
            None => false,
        },
        "raise" => {
            screen.raise();
            true
        }
        _ => does(alloc, session, act),
    }
}

/// A new size is put, or a red pixel and a blue one.
fn puts(alloc: Global, screen: &mut PlainScreen, size: Option<Size>) -> bool
    ensures { (screen.new.width ≡ screen.old.width) × (screen.new.height ≡ screen.old.height) }
{
    let (w, h) = screen.size();
    if w < 2 || w > 4096 || h < 1 || h > 4096 {
        return false;
    }
    let area = Rect {
        x: 0,
        y: 0,
        w: 2,
        h: 1,
    };
    let Ok(mut painter) = Painter::new(alloc, w, h) else {
        return false;
    };
    match size {
        Some(size) if size.width <= w && size.height <= h => painter.resize(size),
        Some(_) => return false,
        None => painter.put(area, &[0xFF0000, 0x0000FF]),
    }
    match painter.patch() {
        Ok(patch) => screen.put(patch).is_ok(),
        Err(_) => false,
    }
}

/// The first two pixels of the screen are copied to this place of it.
fn copies(alloc: Global, screen: &mut PlainScreen, x: u64, y: u64) -> bool
    ensures { (screen.new.width ≡ screen.old.width) × (screen.new.height ≡ screen.old.height) }
{
    let (w, h) = screen.size();
    if w < 2 || w > 4096 || h < 1 || h > 4096 || x > w - 2 || y >= h {
        return false;
    }
    let Ok(mut painter) = Painter::new(alloc, w, h) else {
        return false;
    };
    let area = Rect { x, y, w: 2, h: 1 };
    painter.copy(area, 0, 0);
    match painter.patch() {
        Ok(patch) => screen.put(patch).is_ok(),
        Err(_) => false,
    }
}

/// Plays a line of the session alone, and answers whether all is as it says.
fn does(alloc: Global, session: &mut Session, act: &Act<'_>) -> bool
    ensures { (session.new.width ≡ session.old.width) × (session.new.height ≡ session.old.height) }
{
    match act.word {
        "feed" | "fails" => feeds(alloc, session, act),
        "shows" => is_out(alloc, session, act),
        "piece" => {
            let is_piece = is_out(alloc, session, act);
            sends(session);
            is_piece
        }
        "sends" => {
            sends(session);
            true
        }
        "input" => act.says(session.take_input().is_some()),
        "lifts" | "points" | "none" => act.releases(session.leave()),
        _ => is_so(session, act),
    }
}

/// Feeds bytes. As many of them are used as the line says, or they are at fault.
fn feeds(alloc: Global, session: &mut Session, act: &Act<'_>) -> bool
    ensures { (session.new.width ≡ session.old.width) × (session.new.height ≡ session.old.height) }
{
    let Some(bytes) = act.bytes(alloc) else {
        return false;
    };
    match session.feed(bytes.as_slice()) {
        Ok(used) => act.word == "feed" && used as u64 == act.number,
        Err(fault) => act.word == "fails" && act.names(fault),
    }
}

/// Whether these bytes are the piece that is sent next.
fn is_out(alloc: Global, session: &Session, act: &Act<'_>) -> bool {
    match act.bytes(alloc) {
        Some(bytes) => session.out() == bytes.as_slice(),
        None => false,
    }
}

/// The piece is sent.
fn sends(session: &mut Session)
    ensures { (session.new.width ≡ session.old.width) × (session.new.height ≡ session.old.height) }
{
    let count = session.out().len();
    session.sent(count);
}

/// Whether the session shows what a line says.
fn is_so(session: &Session, act: &Act<'_>) -> bool {
    match act.word {
        "between" => act.says(session.between()),
        "ready" => act.says(session.is_ready()),
        "waits" => act.says(session.has_input()),
        "releases" => session.releases() as u64 == act.number,
        "fault" => match session.fault() {
            Some(fault) => act.names(fault),
            None => false,
        },
        _ => false,
    }
}

/// Plays the lines over what a viewer of this role holds, and answers the first line that comes out otherwise.
pub fn play_held<'a>(role: Role, lines: &'a str) -> Option<&'a str> {
    let mut held = Held::new();
    for line in lines.lines() {
        let holds = match Act::read(line) {
            Some(act) => has_held(&mut held, role, &act),
            None => false,
        };
        if !holds {
            return Some(line);
        }
    }
    None
}

/// Plays a line, and answers whether all is as it says.
fn has_held(held: &mut Held, role: Role, act: &Act<'_>) -> bool {
    if act.word == "releases" {
        return held.releases() as u64 == act.number;
    }
    match message_of(act) {
        Some(message) => act.lets(held.passes(role, &message)),
        None => act.releases(held.release()),
    }
}

/// The message that a line says.
fn message_of(act: &Act<'_>) -> Option<ClientMessage> {
    let key = u32::try_from(act.number).ok()?;
    match act.word {
        "press" => Some(ClientMessage::Key { down: true, key }),
        "lift" => Some(ClientMessage::Key { down: false, key }),
        "click" => Some(ClientMessage::Pointer {
            mask: 1,
            x: 3,
            y: 4,
        }),
        _ => None,
    }
}
