//! What an operator asks over a socket of this machine.

use crate::call::call;
use crate::halls::Halls;
use crate::lifeline::{Lifeline, Stays};
use crate::order::{SkipOrder, StopOrder};
use crate::state::state;
use crate::writer_reach::WriterReach;
use connections::Desk;
use play_control::{ClockTime, PlayRequest};
use player::{Player, last_time};
use recorder::Recording;
use run_control::{Outcome, Request};
use std::alloc::Global;
use std::io::{ErrorKind, Read, Write};
use std::net::{Net, TcpStream};
use std::os::unix::fs::FileTypeExt;
use std::os::unix::net::{UnixListener, UnixStream};
use std::rt::Files;
use std::sync::{Arc, Wait};
use std::time::{Clock, Duration};
use std::{io, thread};

/// For how long an operator may say nothing, or take nothing of the answer, in milliseconds.
const PATIENCE_MILLIS: u64 = 1_000;

/// A request comes in so many reads at most, and has at most `LONGEST` bytes.
const MOST_READS: usize = 8;

const LONGEST: usize = 96;

/// How often a stop looks whether the host was told all that viewers held, or have sent where it is left for the next
/// one, and the pause after each look, in milliseconds.
const MOST_LOOKS: usize = 400;

const LOOK_MILLIS: u64 = 5;

/// For how long at most an operator that has stopped the run is kept waiting for its end, in milliseconds.
const END_MILLIS: u64 = 10_000;

/// For how long nobody is heard after the system refused a connection, in milliseconds.
const PAUSE_MILLIS: u64 = 100;

/// What is answered where an operator's line is no request.
const NO_REQUEST: &[u8] =
    b"error: no request: state, state json, drain, undrain, end PLACE, next, pause, play, seek HH:MM:SS, call full|view IP:PORT or stop\n";

/// What is answered where no recording is played.
const NO_RECORDING: &str = "error: no recording is played now\n";

/// An operator's socket, and what requests reach before there are halls.
#[derive(Drop)]
pub(crate) struct Control {
    pub(crate) listener: UnixListener,
    pub(crate) desk: Arc<Desk, Global>,
    /// The hosts' writer, which tells the host what viewers held.
    pub(crate) writer: WriterReach,
    /// How many places there are for viewers of each role.
    pub(crate) full_places: u64,
    pub(crate) view_places: u64,
    /// How the recording stands, if the run is recorded.
    pub(crate) recording: Option<Arc<Recording, Global>>,
    /// What plays the hosts that are recordings.
    pub(crate) player: Arc<Player, Global>,
    pub(crate) lifeline: Arc<Lifeline<StopOrder, SkipOrder>, Global>,
}

/// What a request reaches.
#[derive(Drop)]
pub(crate) struct Reach {
    pub(crate) alloc: Global,
    pub(crate) control: Control,
    pub(crate) halls: Arc<Halls, Global>,
}

/// Whether there is a socket at this path to which nobody listens: a run that has ended left it.
fn is_stale<R: Files + Net>(rt: &R, path: &str) -> bool {
    let is_socket = match rt.symlink_metadata(path) {
        Ok(found) => found.file_type().is_socket(),
        Err(_) => false,
    };
    is_socket
        && match UnixStream::connect(rt, path) {
            Ok(_) => false,
            Err(error) => error.kind() == ErrorKind::ConnectionRefused,
        }
}

/// Listens at a path of this machine, in the place of a socket that is stale. It fails where a file of another kind is
/// there, or a socket that is listened to; that stays.
pub(crate) fn listen<R: Files + Net>(rt: &R, path: &str) -> io::Result<UnixListener> {
    if is_stale(rt, path) {
        rt.remove_file(path)?;
    }
    UnixListener::bind(rt, path)
}

/// Reads until a line has come, or whoever asks says no more, and answers how many bytes there are. `None` where that
/// takes more reads, or more bytes, than a request has.
fn read_line(stream: &UnixStream, bytes: &mut [u8; LONGEST]) -> io::Result<Option<usize>> {
    let mut count: usize = 0;
    for _ in 0..MOST_READS {
        let rest = bytes.get_mut(count..).unwrap_or(&mut []);
        if rest.is_empty() {
            break;
        }
        let read = (&mut &*stream).read(rest)?;
        count = count.saturating_add(read);
        if read == 0 || bytes.get(..count).unwrap_or(b"").contains(&b'\n') {
            return Ok(Some(count));
        }
    }
    Ok(None)
}

/// What an operator asks: of the run, or of the recording that is played.
#[derive(Clone, Copy)]
enum ControlRequest {
    Run(Request),
    Player(PlayRequest),
}

/// The request of the first line of these bytes, if it is one.
fn request_in(bytes: &[u8]) -> Option<ControlRequest> {
    let Ok(text) = std::str::from_utf8(bytes) else {
        return None;
    };
    let line = text.lines().next()?;
    match Request::read(line) {
        Some(request) => Some(ControlRequest::Run(request)),
        None => Some(ControlRequest::Player(PlayRequest::read(line)?)),
    }
}

/// What is answered to a request with this outcome.
fn outcome_text(outcome: Outcome) -> &'static str {
    match outcome {
        Outcome::Done => "done\n",
        Outcome::NoPlace => "error: there is no such place\n",
        Outcome::Nobody => "error: the place has no viewer\n",
        Outcome::Drained => "error: nobody is let in: undrain lets viewers in again\n",
        Outcome::Ending => "error: the run ends already\n",
    }
}

/// Waits until the host was told all that viewers have sent, or held when they left, though not for long.
fn await_last_words<R: Wait + Clock>(rt: &R, reach: &Reach) {
    for _ in 0..MOST_LOOKS {
        if reach.control.writer.seat.is_quiet() || !reach.control.lifeline.holds(rt) {
            return;
        }
        thread::sleep(rt, Duration::from_millis(LOOK_MILLIS));
    }
}

/// Ends the run: all viewers leave, and the host is told what they held up to then. After that no host is read. Whoever
/// asked for it is kept until the run has ended.
fn stop<R: Net + Wait + Clock>(rt: &R, reach: &Reach, stream: &UnixStream, order: StopOrder) {
    reach.halls.close(rt);
    await_last_words(rt, reach);
    let _ = (&mut &*stream).write_all(b"done\n");
    let lifeline = &reach.control.lifeline;
    lifeline.cut(rt, order);
    lifeline.await_end(rt, Duration::from_millis(END_MILLIS));
}

/// Leaves the host for the next one, once it was told what viewers have sent up to then, and says what became of that.
/// Where the host has ended by itself meanwhile, the next one has its turn all the same.
fn go_on<R: Wait + Clock>(rt: &R, reach: &Reach, order: SkipOrder) -> &'static str {
    let lifeline = &reach.control.lifeline;
    match lifeline.number(rt) {
        Ok(number) => {
            await_last_words(rt, reach);
            lifeline.skip(rt, number, order);
            "done\n"
        }
        Err(Stays::NoHost) => "error: there is no host now\n",
        Err(Stays::NoOther) => "error: no other host follows: stop ends the run\n",
    }
}

/// Answers one request.
fn answer<R: Net<Stream = TcpStream> + Wait + Clock>(
    rt: &R,
    reach: &Reach,
    request: Request,
    stream: &UnixStream,
) -> io::Result<()> {
    let mut out = stream;
    let outcome = reach.control.desk.ask(rt, request);
    if let Some(order) = StopOrder::of(request) {
        stop(rt, reach, stream, order);
        return Ok(());
    }
    if let Request::State(form) = request {
        let text = state(rt, reach, form)?;
        return out.write_all(text.as_bytes());
    }
    if let (Outcome::Done, Request::Call(role, address)) = (outcome, request) {
        let text = call(rt, reach.alloc, &reach.halls, role, address)?;
        return out.write_all(text.as_bytes());
    }
    let text = match (outcome, SkipOrder::of(request)) {
        (Outcome::Done, Some(order)) => go_on(rt, reach, order),
        _ => outcome_text(outcome),
    };
    out.write_all(text.as_bytes())
}

/// Has the recording that is played go on from this time, and says what became of that. It isn't left for a time behind
/// its end.
fn seek<R: Files + Wait>(rt: &R, reach: &Reach, time: ClockTime) -> io::Result<&'static str> {
    let player = &reach.control.player;
    let Some(path) = player.path(rt)? else {
        return Ok(NO_RECORDING);
    };
    let Ok(last) = last_time(rt, reach.alloc, path.as_str()) else {
        return Ok("error: the recording can't be opened now\n");
    };
    if time.millis() > last {
        return Ok("error: the recording ends before that time\n");
    }
    if player.seek(rt, time.millis()) {
        Ok("done\n")
    } else {
        Ok(NO_RECORDING)
    }
}

/// Answers one request to the recording that is played.
fn answer_player<R: Files + Wait + Clock>(
    rt: &R,
    reach: &Reach,
    request: PlayRequest,
    stream: &UnixStream,
) -> io::Result<()> {
    let player = &reach.control.player;
    let text = match request {
        PlayRequest::Pause if player.pause(rt) => "done\n",
        PlayRequest::Play if player.play(rt) => "done\n",
        PlayRequest::Pause | PlayRequest::Play => NO_RECORDING,
        PlayRequest::Seek(time) => seek(rt, reach, time)?,
    };
    let mut out = stream;
    out.write_all(text.as_bytes())
}

/// Hears one request, and answers it. The result says whether the run is to end.
fn hear<R: Net<Stream = TcpStream> + Files + Wait + Clock>(
    rt: &R,
    reach: &Reach,
    stream: &UnixStream,
) -> io::Result<bool> {
    let patience = Duration::from_millis(PATIENCE_MILLIS);
    stream.set_read_timeout(Some(patience))?;
    stream.set_write_timeout(Some(patience))?;
    let mut bytes = [0u8; LONGEST];
    let asked = match read_line(stream, &mut bytes)? {
        Some(count) => request_in(bytes.get(..count).unwrap_or(b"")),
        None => None,
    };
    match asked {
        Some(ControlRequest::Run(request)) => {
            answer(rt, reach, request, stream)?;
            Ok(matches!(request, Request::Stop))
        }
        Some(ControlRequest::Player(request)) => {
            answer_player(rt, reach, request, stream)?;
            Ok(false)
        }
        None => {
            let mut out = stream;
            out.write_all(NO_REQUEST)?;
            Ok(false)
        }
    }
}

/// Hears one request after another, until one ends the run. Where an operator breaks off, the next one is heard.
pub(crate) fn keep_control<R: Net<Stream = TcpStream> + Files + Wait + Clock>(
    rt: &R,
    reach: &Reach,
) {
    for stream in reach.control.listener.incoming() {
        let Ok(stream) = stream else {
            thread::sleep(rt, Duration::from_millis(PAUSE_MILLIS));
            continue;
        };
        if let Ok(true) = hear(rt, reach, &stream) {
            return;
        }
    }
}
