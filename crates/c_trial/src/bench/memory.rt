//! What `bench/memory` calls.

ghost use Rattle.std.specs.Prelude.{◌≡◌, ◌≤◌, true};

use fault::Fault;
use joined_runs::RectForm;
use reflect_core::PlainScreen;
use roles::Role;
use std::alloc::Global;
use viewer_session::{AnswerForm, Session};

/// The form in which viewers are answered.
const JOINED: AnswerForm = AnswerForm {
    runs: RectForm::Joined,
    zrle: false,
    copies: true,
};

/// The most pieces that a session sends of an answer: its header, and one for each row of tiles.
const MOST_PIECES: u32 = 257;

/// A viewer's messages: the one encoding that it takes, and a request for the whole screen (RFC 6143, 7.5.2, 7.5.3).
fn messages(encoding: u8, width: u16, height: u16) -> [u8; 18] {
    let [left, right] = width.to_be_bytes();
    let [upper, lower] = height.to_be_bytes();
    [
        2, 0, 0, 1, 0, 0, 0, encoding, 3, 0, 0, 0, 0, 0, left, right, upper, lower,
    ]
}

/// Takes what a session sends, piece by piece, and answers how many bytes that is.
fn take_all(session: &mut Session) -> u64 {
    let mut total: u64 = 0;
    for _piece in 0..MOST_PIECES {
        let count = session.out().len();
        session.sent(count);
        total = total.saturating_add(count as u64);
    }
    total
}

/// Opens a session over a black screen, which answers with all of it. Answers how many bytes that is. It fails where
/// memory is refused (`Memory`).
fn serve(
    alloc: Global,
    screen: &mut PlainScreen,
    encoding: u8,
    width: u16,
    height: u16,
) -> Result<u64, Fault>
    requires size { (screen.old.width ≡ width) × (screen.old.height ≡ height) }
    requires wide { (1 ≤ width) × (width ≤ 4096) }
    requires high { (1 ≤ height) × (height ≤ 4096) }
{
    let (wide, high) = (u64::from(width), u64::from(height));
    let mut session = Session::ready(alloc, wide, high, Role::Full, JOINED, None)?;
    session.feed(&messages(encoding, width, height))?;
    session.turn(screen)?;
    Ok(take_all(&mut session))
}

/// Whether a screen can have this size.
fn is_size(width: u16, height: u16) -> bool
    ensures wide { result ≡ true → (1 ≤ width) × (width ≤ 4096) }
    ensures high { result ≡ true → (1 ≤ height) × (height ≤ 4096) }
{
    1 <= width && width <= 4096 && 1 <= height && height <= 4096
}

/// Makes a screen without a session. Answers false where there is no memory or no such screen.
#[unsafe(no_mangle)]
pub extern "C" fn bench_screen(alloc: Global, width: u16, height: u16) -> bool {
    is_size(width, height) && PlainScreen::new(alloc, u64::from(width), u64::from(height)).is_ok()
}

/// Makes a screen, and a session that answers with all of it in the encoding of this number. Answers how many bytes
/// that is, and 0 where there is no memory or no such screen.
#[unsafe(no_mangle)]
pub extern "C" fn bench_session(alloc: Global, encoding: u8, width: u16, height: u16) -> u64 {
    if !is_size(width, height) {
        return 0;
    }
    let Ok(mut screen) = PlainScreen::new(alloc, u64::from(width), u64::from(height)) else {
        return 0;
    };
    serve(alloc, &mut screen, encoding, width, height).unwrap_or(0)
}
