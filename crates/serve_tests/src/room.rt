//! What the parts of a scene share, and the runtime on which `serve` runs in it.

ghost use Rattle.std.specs.Prelude.{◌≤◌, length};

use std::alloc::{AllocError, Global};
use std::boxed::Box;
use std::fmt::Display;
use std::io::ErrorKind;
use std::net::{IpAddr, Ipv4Addr, Net, SocketAddr, TcpListener, TcpStream};
use std::os::fd::OwnedFd;
use std::os::unix::net as unix;
use std::os::unix::net::UnixStream;
use std::sync::atomic::{AtomicU64, Ordering};
use std::sync::{Mutex, MutexGuard, Wait};
use std::thread::Threads;
use std::time::{Clock, Duration};
use std::{io, thread};

/// A wait has this many turns of a millisecond.
const TURNS: u64 = 20_000;

/// A stop pauses for this many milliseconds between its looks at the host.
const LOOK_MILLIS: u64 = 5;

/// A text on standard error takes this many milliseconds while the clock stands.
const SLOW_MILLIS: u64 = 100;

/// What the parts of a scene share.
#[derive(Drop)]
pub(crate) struct Room {
    /// The text on standard error.
    text: Mutex<String>,
    /// The text on standard output.
    said: Mutex<String>,
    /// The lines that have to come on standard error.
    wanted: Mutex<String>,
    /// Where systemd hears of the service, or an empty text where it hasn't started it.
    pub(crate) notify: Mutex<String>,
    shown: AtomicU64,
    asked: AtomicU64,
    looked: AtomicU64,
    lookups: AtomicU64,
    home: AtomicU64,
    ahead: AtomicU64,
    rested: AtomicU64,
    waited: AtomicU64,
    tried: AtomicU64,
    standing: AtomicU64,
    is_over: AtomicU64,
}

/// What is counted in a room.
#[derive(Clone, Copy)]
pub(crate) enum Count {
    /// The number of the last update that the viewer with full control was shown, or how many viewers wait for news.
    Shown,
    /// The number of the last update after which the host was asked anew.
    Asked,
    /// The number of the last update after which the viewer that only looks on has typed in vain.
    Looked,
    /// How often the system was asked for the addresses of `desk`.
    Lookups,
    /// The last number of the address 127.0.0.N that this name has, or 0 where it has none.
    Home,
    /// How many seconds the clock is ahead.
    Ahead,
    /// How many pauses of a second were made.
    Rested,
    /// How many pauses of five milliseconds were made.
    Waited,
    /// The last numbers of the addresses that were tried for as long as a host's may be, one digit after another.
    Tried,
    /// What the clock shows while it stands, in milliseconds, or 0 while it goes on.
    Standing,
    /// 1 once the run has ended and what it says later is lost.
    Over,
}

/// The name of a machine whose address the room has, and one of machines at 127.0.0.5 to 127.0.0.2 and then at
/// 127.0.0.1. Each other name is the system's.
const DESK: &str = "desk";

const DESKS: &str = "desks";

/// The last numbers of the addresses of those machines.
const MANY: [u8; 5] = [5, 4, 3, 2, 1];

/// For how many seconds one address of a host is tried (docs/OPERATING.md, "How long it waits").
const PATIENCE_SECONDS: u64 = 5;

/// At this address the system has no memory for a port.
const SHORT: [u8; 4] = [127, 0, 0, 9];

/// A runtime whose standard output and error stand in a room, and whose clock the room puts forward or stops. The name
/// `desk` moves with it.
#[derive(Clone, Copy, Drop)]
pub(crate) struct Ear<R: Drop> {
    pub(crate) rt: R,
    pub(crate) alloc: Global,
    pub(crate) room: &'static Room,
}

impl Room {
    /// An empty room. It is never freed: threads of `serve` may outlast it.
    pub(crate) fn new(alloc: Global) -> Result<&'static Room, AllocError> {
        let room = Box::new(
            alloc,
            Room {
                text: Mutex::new(String::new(alloc)),
                said: Mutex::new(String::new(alloc)),
                wanted: Mutex::new(String::new(alloc)),
                notify: Mutex::new(String::new(alloc)),
                shown: AtomicU64::new(0),
                asked: AtomicU64::new(0),
                looked: AtomicU64::new(0),
                lookups: AtomicU64::new(0),
                home: AtomicU64::new(0),
                ahead: AtomicU64::new(0),
                rested: AtomicU64::new(0),
                waited: AtomicU64::new(0),
                tried: AtomicU64::new(0),
                standing: AtomicU64::new(0),
                is_over: AtomicU64::new(0),
            },
        )?;
        Ok(Box::leak(room))
    }

    /// A count.
    fn count(&self, count: Count) -> &AtomicU64 {
        match count {
            Count::Shown => &self.shown,
            Count::Asked => &self.asked,
            Count::Looked => &self.looked,
            Count::Lookups => &self.lookups,
            Count::Home => &self.home,
            Count::Ahead => &self.ahead,
            Count::Rested => &self.rested,
            Count::Waited => &self.waited,
            Count::Tried => &self.tried,
            Count::Standing => &self.standing,
            Count::Over => &self.is_over,
        }
    }
}

impl<R: Drop> Ear<R> {
    /// A runtime over this one, for a part of the scene in this room.
    pub(crate) fn new(rt: R, alloc: Global, room: &'static Room) -> Ear<R> {
        Ear { rt, alloc, room }
    }

    /// The count is this one from now on. It answers true, as a step that went well.
    pub(crate) fn marks(&self, count: Count, number: u64) -> bool {
        self.room.count(count).store(number, Ordering::SeqCst);
        true
    }

    /// Whether the count is this one now.
    pub(crate) fn counts(&self, count: Count, wanted: u64) -> bool {
        self.room.count(count).load(Ordering::SeqCst) == wanted
    }

    /// The count is one more. It answers true, as a step that went well.
    pub(crate) fn adds(&self, count: Count) -> bool {
        let _ = self.room.count(count).fetch_add(1, Ordering::SeqCst);
        true
    }
}

impl<R: Wait + Clock + Drop> Ear<R> {
    /// The lines that have to come on standard error.
    pub(crate) fn wanted(&self) -> MutexGuard<'_, String> {
        self.room.wanted.lock(self)
    }

    /// Whether it is noted that this line has to come on standard error.
    pub(crate) fn wants(&self, before: &str, address: SocketAddr, after: &str) -> bool {
        write!(self.room.wanted.lock(self), "{before}{address}{after}\n").is_ok()
    }

    /// Whether this text is on standard error.
    pub(crate) fn has(&self, words: &str) -> bool {
        self.room.text.lock(self).as_str().contains(words)
    }

    /// Whether this text is on standard error.
    pub(crate) fn has_of(&self, before: &str, address: SocketAddr, after: &str) -> bool {
        match format!(in self.alloc; "{before}{address}{after}") {
            Ok(words) => self.has(words.as_str()),
            Err(_) => false,
        }
    }

    /// Whether this text comes on standard error in time.
    pub(crate) fn hears(&self, words: &str) -> bool {
        for _ in 0..TURNS {
            if self.has(words) {
                return true;
            }
            thread::sleep(&self.rt, Duration::from_millis(1));
        }
        false
    }

    /// Whether this text comes on standard error in time.
    pub(crate) fn hears_of(&self, before: &str, address: SocketAddr, after: &str) -> bool {
        match format!(in self.alloc; "{before}{address}{after}") {
            Ok(words) => self.hears(words.as_str()),
            Err(_) => false,
        }
    }

    /// Whether the count is at least this one in time.
    pub(crate) fn reaches(&self, count: Count, wanted: u64) -> bool {
        let number = self.room.count(count);
        for _ in 0..TURNS {
            if wanted <= number.load(Ordering::SeqCst) {
                return true;
            }
            thread::sleep(&self.rt, Duration::from_millis(1));
        }
        false
    }

    /// Whether the lines that have to come on standard error come there in time, and no others.
    pub(crate) fn is_told(&self) -> bool {
        for _ in 0..TURNS {
            if self.has_all_lines() {
                return true;
            }
            thread::sleep(&self.rt, Duration::from_millis(1));
        }
        false
    }

    /// Whether they are there now. No two lines that are wanted fit the same one.
    fn has_all_lines(&self) -> bool {
        let text = self.room.text.lock(self);
        let wanted = self.room.wanted.lock(self);
        are_all_lines(text.as_str(), wanted.as_str())
    }
}

/// Whether the lines of a text are as many as are wanted, and each of these is there.
fn are_all_lines(text: &str, wanted: &str) -> bool {
    let mut are_there = text.lines().count() == wanted.lines().count();
    for line in wanted.lines() {
        are_there = are_there && stands_in(text, line);
    }
    are_there
}

/// Whether one of the lines of a text is as it is wanted.
fn stands_in(text: &str, wanted: &str) -> bool {
    for told in text.lines() {
        if fits(told, wanted) {
            return true;
        }
    }
    false
}

/// Whether a line is the wanted one: of a line of the log, what comes after its time is compared, except its seconds;
/// of any other, how it begins.
fn fits(told: &str, wanted: &str) -> bool {
    told.starts_with(wanted) || is_logged(told, wanted)
}

/// Whether a line of the log is the wanted one after its time. A star at the end stands for whatever follows.
fn is_logged(told: &str, wanted: &str) -> bool {
    match (told.split_once("Z "), wanted.strip_suffix('*')) {
        (Some((_, line)), Some(begins)) => line.starts_with(begins),
        (Some((_, line)), None) => line == wanted || is_timed(line, wanted),
        _ => false,
    }
}

/// Whether a line is the wanted one except its seconds.
fn is_timed(line: &str, wanted: &str) -> bool {
    match line.split_once(" seconds=") {
        Some((before, rest)) => match rest.split_once(' ') {
            Some((_, after)) => is_joint(wanted, before, after),
            None => false,
        },
        None => false,
    }
}

/// Whether these two, with a blank between them, are the line.
fn is_joint(line: &str, before: &str, after: &str) -> bool {
    match line.strip_prefix(before) {
        Some(rest) => match rest.strip_prefix(' ') {
            Some(rest) => rest == after,
            None => false,
        },
        None => false,
    }
}

impl<R: Wait + Drop> Wait for Ear<R> {}

impl<R: Threads + Drop> Threads for Ear<R> {}

impl<R: Wait + Clock + Drop> Ear<R> {
    /// Whether the text on standard output ends so.
    pub(crate) fn has_said(&self, words: &str) -> bool {
        self.room.said.lock(self).as_str().ends_with(words)
    }

    /// Adds a value to a text of the room.
    fn put<D: Display + Drop>(&self, text: &Mutex<String>, value: D, end: &str) -> io::Result<()> {
        match write!(text.lock(self), "{value}{end}") {
            Ok(()) => Ok(()),
            Err(_) => Err(io::Error::from(ErrorKind::OutOfMemory)),
        }
    }
}

impl<R: Wait + Clock + Drop> Ear<R> {
    /// Whether the clock stands.
    fn stands(&self) -> bool {
        self.room.standing.load(Ordering::SeqCst) > 0
    }

    /// The clock stands from now on. Then whoever waits for so long at most waits as long as it takes, and each text on
    /// standard error takes a while. It answers whether the clock could be read.
    pub(crate) fn stops_the_clock(&self) -> bool {
        match self.monotonic() {
            Ok(now) => {
                let millis = now.as_secs().saturating_mul(1_000);
                let millis = millis.saturating_add(u64::from(now.subsec_millis()));
                self.marks(Count::Standing, millis.max(1))
            }
            Err(_) => false,
        }
    }

    /// The run has ended. Where the clock stands, all that it had to say was said by then, so what comes later is lost,
    /// as it is where a program has ended.
    pub(crate) fn ends(&self) {
        if self.stands() {
            let _ = self.marks(Count::Over, 1);
        }
    }

    /// Adds a value to the text on standard error.
    fn say<D: Display + Drop>(&self, value: D, end: &str) -> io::Result<()> {
        if self.stands() {
            thread::sleep(&self.rt, Duration::from_millis(SLOW_MILLIS));
        }
        if self.room.is_over.load(Ordering::SeqCst) > 0 {
            return Ok(());
        }
        self.put(&self.room.text, value, end)
    }
}

impl<R: Wait + Clock + Drop> Eprint for Ear<R> {
    fn eprint<D: Display + Drop>(&self, value: D) -> io::Result<()> {
        self.say(value, "")
    }

    fn eprintln<D: Display + Drop>(&self, value: D) -> io::Result<()> {
        self.say(value, "\n")
    }
}

impl<R: Wait + Clock + Drop> Print for Ear<R> {
    fn print<D: Display + Drop>(&self, value: D) -> io::Result<()> {
        self.put(&self.room.said, value, "")
    }

    fn println<D: Display + Drop>(&self, value: D) -> io::Result<()> {
        self.put(&self.room.said, value, "\n")
    }

    fn write_all(&self, _bytes: &[u8]) -> io::Result<()> {
        Err(io::Error::from(ErrorKind::Unsupported))
    }
}

impl<R: Clock + Drop> Clock for Ear<R> {
    fn monotonic(&self) -> io::Result<Duration> {
        let standing = self.room.standing.load(Ordering::SeqCst);
        if standing > 0 {
            return Ok(Duration::from_millis(standing));
        }
        let ahead = Duration::from_secs(self.room.ahead.load(Ordering::SeqCst));
        Ok(self.rt.monotonic()?.saturating_add(ahead))
    }

    fn since_1970(&self) -> io::Result<Duration> {
        self.rt.since_1970()
    }

    // The pauses of a stop take no time while the clock stands.
    fn sleep(&self, duration: Duration) {
        let is_look = duration == Duration::from_millis(LOOK_MILLIS);
        if !is_look || self.room.standing.load(Ordering::SeqCst) == 0 {
            self.rt.sleep(duration);
        }
        if is_look {
            let _ = self.room.waited.fetch_add(1, Ordering::SeqCst);
        }
        if duration == Duration::from_secs(1) {
            let _ = self.room.rested.fetch_add(1, Ordering::SeqCst);
        }
    }
}

/// The last number of an address, or 0 where it isn't one of IPv4.
fn last_number(address: SocketAddr) -> u64 {
    match address {
        SocketAddr::V4(address) => {
            let [_, _, _, last] = address.ip().octets();
            u64::from(last)
        }
        SocketAddr::V6(_) => 0,
    }
}

impl<R: Drop> Ear<R> {
    /// Notes that this address is tried.
    fn note_try(&self, address: SocketAddr) {
        let tried = self.room.tried.load(Ordering::SeqCst).saturating_mul(10);
        let _ = self.marks(Count::Tried, tried.saturating_add(last_number(address)));
    }
}

/// The addresses of many machines at this port, as far as there is room for them, and how many these are.
fn find_many(port: u16, found: &mut [SocketAddr]) -> usize
    ensures { result ≤ length found.new }
{
    for (place, number) in found.iter_mut().zip(MANY) {
        *place = SocketAddr::from((Ipv4Addr::new(127, 0, 0, number), port));
    }
    found.len().min(MANY.len())
}

impl<R: Net<Stream = TcpStream, Listener = TcpListener> + Drop> Net for Ear<R> {
    type Stream = TcpStream;

    type Listener = TcpListener;

    fn bind(&self, address: SocketAddr) -> io::Result<TcpListener> {
        if address.ip() == IpAddr::from(SHORT) {
            return Err(io::Error::from(ErrorKind::OutOfMemory));
        }
        self.rt.bind(address)
    }

    fn connect(&self, address: SocketAddr) -> io::Result<TcpStream> {
        self.rt.connect(address)
    }

    fn connect_timeout(&self, address: SocketAddr, timeout: Duration) -> io::Result<TcpStream> {
        if timeout == Duration::from_secs(PATIENCE_SECONDS) {
            self.note_try(address);
        }
        self.rt.connect_timeout(address, timeout)
    }

    fn connect_unix(&self, address: &unix::SocketAddr) -> io::Result<UnixStream> {
        self.rt.connect_unix(address)
    }

    fn unix_socket(&self) -> io::Result<OwnedFd> {
        self.rt.unix_socket()
    }

    fn lookup_host(&self, host: &str, port: u16, found: &mut [SocketAddr]) -> io::Result<usize> {
        if host == DESKS {
            return Ok(find_many(port, found));
        }
        if host != DESK {
            return self.rt.lookup_host(host, port, found);
        }
        let _ = self.room.lookups.fetch_add(1, Ordering::SeqCst);
        let Ok(home) = u8::try_from(self.room.home.load(Ordering::SeqCst)) else {
            return Err(io::Error::from(ErrorKind::NotFound));
        };
        match found.first_mut() {
            Some(first) if home > 0 => {
                *first = SocketAddr::from((Ipv4Addr::new(127, 0, 0, home), port));
                Ok(1)
            }
            _ => Err(io::Error::from(ErrorKind::NotFound)),
        }
    }
}
