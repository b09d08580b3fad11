//! A viewer's link.

ghost use Rattle.std.specs.Prelude.{◌≡◌};

use crate::account::{Account, gave_of};
use crate::greeted::GreetedSocket;
use crate::hello::{HELLO_LEN, Patience, longest_wait};
use crate::noted::Noted;
use crate::options::outlast;
use crate::seat::Seat;
use crate::send_buffer::{MOST_KEPT, SendBuffer};
use crate::socket::Socket;
use link::{Gave, Link, Took};
use mio::net::TcpStream;
use run_traits::Parting;
use std::alloc::Global;
use std::io;
use std::io::ErrorKind;
use std::marker::Model;
use std::sync::{Arc, Wait};
use std::time::{Clock, Duration, Instant};

/// From this many bytes on a slice is written at once, after what is kept. It isn't kept where the system has no room
/// for it.
const LARGE: usize = 16_384;

/// How a connection stands after this answer of the system.
fn parting_after(before: Parting, answer: &io::Result<usize>) -> Parting {
    match answer {
        Ok(_) => before,
        Err(error) => match error.kind() {
            ErrorKind::WouldBlock | ErrorKind::Interrupted => before,
            ErrorKind::TimedOut => Parting::Stalled,
            ErrorKind::ConnectionReset | ErrorKind::BrokenPipe => Parting::Closed,
            _ => Parting::Broken,
        },
    }
}

/// How many bytes the system has taken, with `more` added to those before. The number is noted at the seat.
fn counted(seat: &Seat, sent: u64, more: usize) -> u64 {
    let sent = sent.saturating_add(more as u64);
    seat.count().note_bytes(sent);
    sent
}

/// A viewer's connection. `take` waits until bytes come, until the seat's alarm rings, or until kept bytes can go out.
///
/// `give` keeps small slices, and `take` writes what is kept before it waits, so an answer of many rectangles is one
/// call of the system. A large slice is written from where it lies, in one call with what is kept. Where the system has
/// no room for it, the slice stays with the caller, uncopied. While bytes can't go out, rings are left unanswered, so a
/// viewer that takes nothing costs nothing.
///
/// Where its viewer is to leave (`Seat::dismiss`) the link ends, as if the peer had closed it.
///
/// It is proved over every socket; a viewer's socket is a stream over TCP.
#[derive(Drop)]
pub struct ViewerTcpLink<R: Wait + Clock + Drop, S: Socket = GreetedSocket<Noted<TcpStream>>> {
    rt: R,
    socket: S,
    seat: Arc<Seat, Global>,
    kept: SendBuffer,
    // Whether the last `give` had no room.
    is_full: bool,
    // Whether the system had no room for the last write, and no wait has ended since.
    is_blocked: bool,
    // Whether a write failed, so that kept bytes may be lost.
    is_broken: bool,
    opened: Instant,
    // How many bytes of the hello are awaited over this link, and how many of these are missing.
    awaited: usize,
    missing: usize,
    // How the connection stands, and how many bytes the system took, for a log.
    parting: Parting,
    sent: u64,
    account: Account,
}

impl<R: Wait + Clock + Drop, S: Socket> Model for ViewerTcpLink<R, S> {
    ghost use Rattle.std.specs.Prelude.{◌≡◌, ◌-◌, true, length};
    ghost use Rattle.connections.specs.Wires.{Wired, Carries};

    ghost Value = { Wired };

    ghost view = { λ l. record {
      own = l.account;
      sent = S.sent l.socket;
      received = S.received l.socket;
      kept = l.kept.bytes;
      is_open = true;
    } };

    // The bytes of the hello that are missing are those of the awaited ones that weren't taken.
    ghost invariant = { λ l. Carries (record {
      own = l.account;
      sent = S.sent l.socket;
      received = S.received l.socket;
      kept = l.kept.bytes;
      is_open = true;
    }) × (l.missing ≡ l.awaited - length l.account.taken) };
}

impl<R: Wait + Clock + Drop> ViewerTcpLink<R> {
    ghost use Rattle.std.specs.Prelude.{◌≡◌, [], IfOk};
    ghost use Rattle.connections.specs.Wires.{fresh};

    /// A link that has taken and given nothing, to a viewer that may take nothing for this many seconds. It fails where
    /// memory is refused, or where the system refuses an option or the clock.
    pub fn new(
        rt: R,
        alloc: Global,
        stream: std::net::TcpStream,
        seat: &Arc<Seat, Global>,
        stalled: u64,
    ) -> io::Result<ViewerTcpLink<R>>
        ensures { IfOk result (λ link. link ≡ fresh) }
    {
        outlast(&stream, stalled)?;
        stream.set_nonblocking(true)?;
        let socket = GreetedSocket::new(Noted::new(TcpStream::from_std(stream)));
        ViewerTcpLink::at(rt, alloc, socket, seat, HELLO_LEN)
    }

    /// A link that has taken and given nothing, over a socket by which the viewer may have been greeted. Over it
    /// `awaited` bytes of the viewer's hello are awaited: none where a link above awaits them. This seat hears the
    /// socket from now on. It fails where memory is refused, or where the system refuses the clock.
    pub fn at(
        rt: R,
        alloc: Global,
        mut socket: GreetedSocket<Noted<TcpStream>>,
        seat: &Arc<Seat, Global>,
        awaited: usize,
    ) -> io::Result<ViewerTcpLink<R>>
        requires sent { socket.sent ≡ [] }
        requires received { socket.received ≡ [] }
        ensures { IfOk result (λ link. link ≡ fresh) }
    {
        seat.hear(&rt, &mut socket)?;
        ViewerTcpLink::awaiting(rt, alloc, socket, seat, awaited)
    }
}

impl<R: Wait + Clock + Drop, S: Socket> ViewerTcpLink<R, S> {
    ghost use Rattle.std.specs.Prelude.{◌≡◌, ◌<◌, [], length, IfOk};
    ghost use Rattle.link.specs.Links.{TakesAs, GivesAs};
    ghost use Rattle.connections.specs.Wires.{Carries, fresh};

    /// A link that has taken and given nothing, over a socket that has sent and received nothing and that never waits.
    /// It fails where memory is refused, or where the system refuses the clock. The caller has to see to it that the
    /// seat hears the socket.
    pub fn over(
        rt: R,
        alloc: Global,
        socket: S,
        seat: &Arc<Seat, Global>,
    ) -> io::Result<ViewerTcpLink<R, S>>
        requires sent { S.sent socket ≡ [] }
        requires received { S.received socket ≡ [] }
        ensures { IfOk result (λ link. link ≡ fresh) }
    {
        ViewerTcpLink::awaiting(rt, alloc, socket, seat, HELLO_LEN)
    }

    /// Such a link, over which so many bytes of the viewer's hello are awaited.
    fn awaiting(
        rt: R,
        alloc: Global,
        socket: S,
        seat: &Arc<Seat, Global>,
        awaited: usize,
    ) -> io::Result<ViewerTcpLink<R, S>>
        requires sent { S.sent socket ≡ [] }
        requires received { S.received socket ≡ [] }
        ensures { IfOk result (λ link. link ≡ fresh) }
    {
        let opened = Instant::now(&rt)?;
        let kept = SendBuffer::new(alloc)?;
        let seat = Arc::try_clone(seat)?;
        Ok(ViewerTcpLink {
            rt,
            socket,
            seat,
            kept,
            is_full: false,
            is_blocked: false,
            is_broken: false,
            opened,
            awaited,
            missing: awaited,
            parting: Parting::Open,
            sent: 0,
            account: Account::new(),
        })
    }

    /// The socket below.
    pub fn socket(&self) -> &S
        ensures sent { S.sent result.now ≡ self.now.sent }
        ensures received { S.received result.now ≡ self.now.received }
    {
        &self.socket
    }

    /// It does nothing. Its clause says that, at every moment, what was given is what the socket has sent followed by
    /// what is kept, and what was taken is what the socket has received.
    pub fn carries(&self)
        ensures { Carries self.now }
    {
        let _ = &self.missing;
    }

    /// How the connection stands. No clause says so.
    pub fn parting(&self) -> Parting {
        self.parting
    }

    /// How many bytes the system took. No clause says so.
    pub fn sent(&self) -> u64 {
        self.sent
    }

    /// How long ago the viewer came, or no time where the clock can't be read.
    pub fn age(&self) -> Duration {
        self.opened.elapsed(&self.rt).unwrap_or(Duration::ZERO)
    }

    /// Writes once from what is kept. It answers false where nothing is left, or nothing more goes out now.
    fn write_kept(&mut self) -> bool
        ensures { self.new.own ≡ self.old.own }
    {
        if self.kept.is_empty() {
            return false;
        }
        let answer = self.kept.send_to(&mut self.socket);
        self.parting = parting_after(self.parting, &answer);
        match gave_of(&answer) {
            Gave::Bytes(count) => {
                self.sent = counted(&self.seat, self.sent, count);
                self.is_blocked = false;
                true
            }
            Gave::Nothing => {
                self.is_blocked = true;
                false
            }
            _ => {
                self.is_broken = true;
                false
            }
        }
    }

    /// Whether bytes wait until the system has room: kept ones, or ones that were given in vain.
    fn holds_back(&self) -> bool {
        self.is_blocked || !self.kept.is_empty()
    }

    /// Writes what is kept, as far as the system takes it now.
    fn write_all_kept(&mut self)
        ensures { self.new.own ≡ self.old.own }
    {
        // Each round but the last writes at least one byte.
        for _ in 0..=MOST_KEPT {
            if !self.write_kept() {
                return;
            }
        }
    }

    /// Writes a large slice at once, behind what is kept.
    fn write_large(&mut self, bytes: &[u8]) -> Gave
        ensures { GivesAs result self.old.own self.new.own bytes.now }
    {
        let kept = self.kept.len();
        let answer = self.kept.send_with(&mut self.socket, bytes);
        self.parting = parting_after(self.parting, &answer);
        match gave_of(&answer) {
            Gave::Bytes(count) => self.sent = counted(&self.seat, self.sent, count),
            Gave::Nothing => self.is_blocked = true,
            _ => self.is_broken = true,
        }
        self.account.give_behind(kept, &answer, bytes)
    }

    /// Keeps as many of the bytes as there is room for.
    fn keep(&mut self, bytes: &[u8]) -> Gave
        requires { 0 < length bytes.now }
        ensures { GivesAs result self.old.own self.new.own bytes.now }
    {
        let count = self.kept.keep(bytes);
        if count == 0 {
            return Gave::Nothing;
        }
        let (kept, _) = bytes.split_at(count);
        self.account.note_given(kept);
        Gave::Bytes(count)
    }

    /// Reads without a wait. It tells the peer's end only once nothing is kept.
    fn read(&mut self, into: &mut [u8]) -> Took
        requires { 0 < length into.old }
        ensures { TakesAs result self.old.own self.new.own into.new }
    {
        let answer = self.socket.receive(into);
        if !self.kept.is_empty() && matches!(answer, Ok(0)) {
            return Took::Nothing;
        }
        let took = self.account.take(&answer, into);
        self.parting = match took {
            Took::End => Parting::Closed,
            _ => parting_after(self.parting, &answer),
        };
        if let Took::Bytes(count) = took {
            self.missing = self.missing.saturating_sub(count);
        }
        took
    }

    /// How long a wait may last now: this long, or without an end. It is `None` where the hello is late, and where the
    /// clock can't be read.
    fn patience(&mut self) -> Option<Option<Duration>>
        ensures { self.new.own ≡ self.old.own }
    {
        let passed = self.opened.elapsed(&self.rt).ok()?;
        match longest_wait(self.missing, passed) {
            Patience::Endless => Some(None),
            Patience::AtMost(left) => Some(Some(left)),
            Patience::Over => {
                self.parting = Parting::Late;
                None
            }
        }
    }

    /// Waits. It answers false where it can't wait, or where the hello is late before the wait or after it.
    fn wait(&mut self) -> bool
        ensures { self.new.own ≡ self.old.own }
    {
        let Some(most) = self.patience() else {
            return false;
        };
        let waited = self.seat.wait(&self.rt, most);
        if !self.holds_back() {
            self.seat.answer();
        }
        self.is_blocked = false;
        waited.is_ok() && (self.missing == 0 || self.patience().is_some())
    }
}

impl<R: Wait + Clock + Drop, S: Socket> Link for ViewerTcpLink<R, S> {
    ghost state = { λ l. l.own };

    fn take(&mut self, into: &mut [u8]) -> Took {
        self.write_all_kept();
        if self.is_broken {
            self.account.fail();
            return Took::Failed;
        }
        if self.seat.is_dismissed() {
            self.parting = Parting::Dismissed;
            self.account.end();
            return Took::End;
        }
        if self.is_full && !self.holds_back() {
            // There is room again, so the caller can go on giving.
            self.is_full = false;
            return Took::Nothing;
        }
        match self.read(into) {
            Took::Nothing => {}
            took => return took,
        }
        if !self.holds_back() && self.seat.answer() {
            // The seat was rung, so the caller looks.
            return Took::Nothing;
        }
        if !self.wait() {
            self.account.fail();
            return Took::Failed;
        }
        self.read(into)
    }

    fn give(&mut self, bytes: &[u8]) -> Gave {
        if self.kept.is_full() {
            self.write_all_kept();
        }
        if self.is_broken {
            self.account.fail();
            return Gave::Failed;
        }
        let gave = if self.is_blocked {
            Gave::Nothing
        } else if bytes.len() < LARGE {
            self.keep(bytes)
        } else {
            self.write_large(bytes)
        };
        self.is_full = self.is_full || gave == Gave::Nothing;
        gave
    }

    /// A caller that flushes may not wait in `take`, where room would be found. So bytes for which there was no room
    /// before are tried again here.
    fn flush(&mut self) {
        self.is_blocked = false;
        self.write_all_kept();
    }

    fn failures(&self) -> u64 {
        self.account.failures()
    }
}
