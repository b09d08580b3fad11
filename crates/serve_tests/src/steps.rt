//! What one end of a connection does, step by step.

use crate::asks::reads_up_to;
use crate::loopback::{MOST, VERSION, asks, hears, is_closed_beside, sends, update};
use crate::operator::{is_answered, is_answered_of, is_done, is_removed};
use crate::refusals::{Refusal, is_another_refused, is_refused};
use crate::room::{Count, Ear};
use crate::system::SocketFiles;
use std::io::{ErrorKind, Read};
use std::net::{Net, Shutdown, TcpListener, TcpStream};
use std::sync::Wait;
use std::thread;
use std::time::{Clock, Duration};

/// The screen is 2 by 1, of 32 bits a pixel, named T (RFC 6143, 7.3.2 and 7.4).
pub(crate) const INIT: &[u8] =
    b"\0\x02\0\x01\x20\x18\0\x01\0\xFF\0\xFF\0\xFF\x10\x08\0\0\0\0\0\0\0\x01T";

/// What a joining client gives: its format, its five encodings, and a request for the whole screen, whose width and
/// height are still to come (RFC 6143, 7.5.1 to 7.5.3).
pub(crate) const ASKED: &[u8] = b"\0\0\0\0\x20\x18\0\x01\0\xFF\0\xFF\0\xFF\x10\x08\0\0\0\0\
      \x02\0\0\x05\0\0\0\x01\0\0\0\x05\0\0\0\x02\0\0\0\0\xFF\xFF\xFF\x21\
      \x03\0\0\0\0\0";

/// How many bytes of a screen's description are its width and its height (RFC 6143, 7.3.2).
const SIZE_LEN: usize = 4;

/// Asks for the whole screen, or for what is new of it (RFC 6143, 7.5.3).
pub(crate) const ASK: &[u8] = b"\x03\0\0\0\0\0\0\x02\0\x01";

pub(crate) const ASK_NEW: &[u8] = b"\x03\x01\0\0\0\0\0\x02\0\x01";

/// What follows a viewer's version: None, and shared (RFC 6143, 7.1.2 and 7.3.1).
pub(crate) const CHOICE_AND_SHARED: &[u8] = b"\x01\x01";

/// The server's side up to its screen: the version, one type of security, and that it went well (RFC 6143, 7.1.1 to
/// 7.1.3).
pub(crate) const GREETING: &[u8] = b"RFB 003.008\n\x01\x01\0\0\0\0";

/// The answer of a black screen: one rectangle, Raw (RFC 6143, 7.6.1 and 7.7.1).
pub(crate) const BLACK: &[u8] = b"\0\0\0\x01\0\0\0\0\0\x02\0\x01\0\0\0\0\0\0\0\0\0\0\0\0";

/// This many answers at most are black.
const MOST_BLACK: u64 = 1_000_000;

/// An end that waits until the other has gone reads this often at most.
const READS: u64 = 20_000;

/// After this many milliseconds with nothing to do each thread waits.
const LULL_MILLIS: u64 = 200;

/// A step.
#[derive(Clone, Copy)]
pub(crate) enum Step {
    /// Sends these bytes.
    Sends(&'static [u8]),
    /// Sends these bytes, which may be too late.
    Slips(&'static [u8]),
    /// Is sent these bytes next.
    Hears(&'static [u8]),
    /// Is sent bytes that end so at last.
    HearsUpTo(&'static [u8]),
    /// As a host, with this screen at the end, meets a client that joins as it should.
    IsJoined(&'static [u8]),
    /// As a host, sends this update, and is asked anew.
    Update(u16),
    /// As a host, sends the updates from this one to that one. Each is sent once the one before was shown.
    Updates(u16, u16),
    /// As a viewer that has sent its version, is greeted, with this screen at the end.
    IsGreeted(&'static [u8]),
    /// As a viewer, asks for what is new, and is shown this update, perhaps after a black screen.
    IsShown(u16),
    /// As a viewer, asks so, and is shown this update.
    Asks(&'static [u8], u16),
    /// As a viewer, asks for what is new each time, and is shown the updates from this one to that one.
    Follows(u16, u16),
    /// As a viewer that has asked for what is new, is shown this update, and asks anew.
    Sees(u16),
    /// As a viewer, asks so each time until the answer isn't this black screen. It is the last of these then.
    AsksUntil(&'static [u8], &'static [u8], &'static [u8]),
    /// As a viewer, is told so that it isn't let in.
    IsRefused(&'static Refusal),
    /// Another viewer that comes is told so that it isn't let in.
    AnotherIsRefused(&'static Refusal),
    /// Nothing listens at the port on another address.
    IsClosedBeside,
    /// The count is this one from now on.
    Marks(Count, u64),
    /// The count is one more.
    Adds(Count),
    /// The count is at least this one in time.
    Reaches(Count, u64),
    /// The count is this one now.
    Counts(Count, u64),
    /// The clock is this many seconds ahead from now on.
    PutsForward(u64),
    /// The clock stands from now on.
    StopsTheClock,
    /// This text comes on standard error in time.
    IsTold(&'static str),
    /// This text is not on standard error.
    IsNotTold(&'static str),
    /// The text on standard output ends so.
    HasSaid(&'static str),
    /// An operator's text is answered with each of these parts, where bars stand round the answer.
    IsAnswered(&'static str, &'static [&'static str]),
    /// An operator's text is answered with this viewer's address between these two.
    IsAnsweredOf(&'static str, &'static str, &'static str),
    /// The program's own command asks so, and ends with this status.
    IsDone(&'static str, u8),
    /// What stands where an operator is heard is removed.
    Removes,
    /// Is sent nothing for a while.
    IsQuiet,
    /// Sends nothing from now on.
    ShutsDown,
    /// Is let go without a byte.
    IsLetGo,
    /// Is let go without a byte, or the connection is broken.
    IsCut,
    /// The other end goes in time. What it sent meanwhile is read, since otherwise the system would call the
    /// connection broken.
    SeesItGo,
}

/// More than a side of the handshake may take, in seconds.
pub(crate) const TOO_LONG: u64 = 11;

/// A host gives its version and then nothing for longer than it may, by the clock of the scene. The client gives its
/// own, and goes.
pub(crate) const IS_SILENT: &[Step] = &[
    Step::Sends(VERSION),
    Step::Hears(VERSION),
    Step::PutsForward(TOO_LONG),
    Step::SeesItGo,
];

/// Whether each of these steps goes as it should, at the port of a viewer.
pub(crate) fn plays<R>(ear: &Ear<R>, port: u16, stream: &mut TcpStream, steps: &[Step]) -> bool
where
    R: Net<Stream = TcpStream, Listener = TcpListener> + SocketFiles + Wait + Clock + Drop,
{
    let mut is_right = true;
    for step in steps {
        is_right = is_right && is_taken(ear, port, stream, step);
    }
    is_right
}

/// Whether this step goes as it should.
pub(crate) fn is_taken<R>(ear: &Ear<R>, port: u16, stream: &mut TcpStream, step: &Step) -> bool
where
    R: Net<Stream = TcpStream, Listener = TcpListener> + SocketFiles + Wait + Clock + Drop,
{
    match *step {
        Step::IsRefused(refusal) => is_refused(ear, refusal, stream),
        Step::AnotherIsRefused(refusal) => is_another_refused(ear, port, refusal),
        Step::IsClosedBeside => is_closed_beside(ear, port),
        Step::HasSaid(words) => ear.has_said(words),
        Step::IsAnswered(text, parts) => is_answered(ear, port, text, parts),
        Step::IsAnsweredOf(text, before, after) => {
            is_answered_of(ear, port, stream, text, before, after)
        }
        Step::IsDone(request, status) => is_done(ear, port, request, status),
        Step::Removes => is_removed(ear, port),
        Step::IsJoined(init) => is_joined(stream, init),
        Step::Update(number) => is_sent(ear, stream, number),
        Step::Updates(from, to) => are_sent(ear, stream, from, to),
        Step::Follows(from, to) => follows(ear, stream, from, to),
        Step::IsQuiet => is_quiet(ear, stream),
        Step::HearsUpTo(bytes) => reads_up_to(ear, stream, bytes),
        _ => match is_counted(ear, step) {
            Some(is_right) => is_right,
            None => is_said(stream, step),
        },
    }
}

/// Whether a step goes as it should that has to do with the room alone. There is no answer for any other.
fn is_counted<R: Wait + Clock + Drop>(ear: &Ear<R>, step: &Step) -> Option<bool> {
    match *step {
        Step::Marks(count, number) => Some(ear.marks(count, number)),
        Step::Adds(count) => Some(ear.adds(count)),
        Step::Reaches(count, number) => Some(ear.reaches(count, number)),
        Step::Counts(count, number) => Some(ear.counts(count, number)),
        Step::PutsForward(seconds) => Some(ear.marks(Count::Ahead, seconds)),
        Step::StopsTheClock => Some(ear.stops_the_clock()),
        Step::IsTold(words) => Some(ear.hears(words)),
        Step::IsNotTold(words) => Some(!ear.has(words)),
        _ => None,
    }
}

/// Whether a step goes as it should that has to do with the connection alone. No other does.
fn is_said(stream: &mut TcpStream, step: &Step) -> bool {
    match *step {
        Step::Sends(bytes) => sends(stream, bytes),
        Step::Slips(bytes) => {
            let _ = sends(stream, bytes);
            true
        }
        Step::Hears(bytes) => hears(stream, bytes),
        Step::IsGreeted(init) => is_greeted(stream, init),
        Step::IsShown(number) => is_shown(stream, number),
        Step::Asks(request, number) => is_update(stream, request, number),
        Step::Sees(number) => hears(stream, &update(number)) && sends(stream, ASK_NEW),
        Step::AsksUntil(request, black, wanted) => asks_until(stream, request, black, wanted),
        Step::ShutsDown => stream.shutdown(Shutdown::Write).is_ok(),
        Step::IsLetGo => is_let_go(stream, false),
        Step::IsCut => is_let_go(stream, true),
        Step::SeesItGo => sees_it_go(stream),
        _ => false,
    }
}

/// Whether the client of this host sends what a joining client has to send. It asks for the size that it was told.
fn is_joined(stream: &mut TcpStream, init: &[u8]) -> bool {
    let mut is_right = true;
    for (said, wanted) in [
        (VERSION, VERSION),
        (b"\x01\x01".as_slice(), b"\x01".as_slice()),
        (b"\0\0\0\0".as_slice(), b"\x01".as_slice()),
        (init, ASKED),
    ] {
        is_right = is_right && sends(stream, said) && hears(stream, wanted);
    }
    match init.get(..SIZE_LEN) {
        Some(size) => is_right && hears(stream, size),
        None => false,
    }
}

/// Whether this update is sent, and the client asks anew for what is new of the whole screen.
fn is_sent<R: Wait + Clock + Drop>(ear: &Ear<R>, stream: &mut TcpStream, number: u16) -> bool {
    sends(stream, &update(number))
        && hears(stream, ASK_NEW)
        && ear.marks(Count::Asked, u64::from(number))
}

/// Whether these updates are sent, and each is shown.
fn are_sent<R: Wait + Clock + Drop>(
    ear: &Ear<R>,
    stream: &mut TcpStream,
    from: u16,
    to: u16,
) -> bool {
    for number in from..=to {
        if !is_sent(ear, stream, number) || !ear.reaches(Count::Shown, u64::from(number)) {
            return false;
        }
    }
    true
}

/// Whether a viewer is greeted, with this screen at the end.
fn is_greeted(stream: &mut TcpStream, init: &[u8]) -> bool {
    sends(stream, CHOICE_AND_SHARED) && hears(stream, GREETING) && hears(stream, init)
}

/// Whether this request is answered by this update.
fn is_update(stream: &mut TcpStream, request: &[u8], number: u16) -> bool {
    sends(stream, request) && hears(stream, &update(number))
}

/// Whether a viewer that asks for what is new is shown this update, perhaps after a black screen.
fn is_shown(stream: &mut TcpStream, number: u16) -> bool {
    let mut given = [0u8; 24];
    let mut is_answered = asks(stream, ASK_NEW, &mut given);
    if given.as_slice() == BLACK {
        is_answered = is_answered && asks(stream, ASK_NEW, &mut given);
    }
    is_answered && given == update(number)
}

/// Whether a viewer that asks for what is new is shown these updates. It tells the number of each.
fn follows<R: Wait + Clock + Drop>(
    ear: &Ear<R>,
    stream: &mut TcpStream,
    from: u16,
    to: u16,
) -> bool {
    for number in from..=to {
        if !is_update(stream, ASK_NEW, number) || !ear.marks(Count::Shown, u64::from(number)) {
            return false;
        }
    }
    true
}

/// Whether the first answer that isn't black is the wanted one. A black one is as long as any other, or shorter.
fn asks_until(stream: &mut TcpStream, request: &[u8], black: &[u8], wanted: &[u8]) -> bool {
    let mut room = [0u8; MOST];
    let Some(begins) = room.get_mut(..black.len()) else {
        return false;
    };
    for _ in 0..MOST_BLACK {
        if !asks(stream, request, begins) {
            return false;
        }
        if &*begins != black {
            break;
        }
    }
    match wanted.strip_prefix(&*begins) {
        Some(rest) => hears(stream, rest),
        None => false,
    }
}

/// Whether this end is let go without a byte, or may be by a broken connection.
fn is_let_go(stream: &mut TcpStream, may_break: bool) -> bool {
    match stream.read(&mut [0]) {
        Ok(count) => count == 0,
        Err(error) => may_break && error.kind() == ErrorKind::ConnectionReset,
    }
}

/// Whether the other end goes in time.
fn sees_it_go(stream: &mut TcpStream) -> bool {
    let mut rest = [0u8; 64];
    for _ in 0..READS {
        match stream.read(&mut rest) {
            Ok(0) => return true,
            Ok(_) => {}
            Err(_) => return false,
        }
    }
    false
}

/// Whether this end is sent nothing for a while.
fn is_quiet<R: Wait + Clock + Drop>(ear: &Ear<R>, stream: &mut TcpStream) -> bool {
    thread::sleep(ear, Duration::from_millis(LULL_MILLIS));
    stream.set_nonblocking(true).is_ok() && stream.read(&mut [0]).is_err()
}
