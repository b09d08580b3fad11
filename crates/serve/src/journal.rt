//! The log: a line an event, on standard error.

use crate::exposure::Exposure;
use crate::host_text::call_address;
use crate::incident::{Incident, gravity_of};
use crate::quoted::Quoted;
use fault::Fault;
use jiff::Timestamp;
use link::Record;
use notify::standard_error_has_room;
use recorder::{EndReason, RecordingNews};
use roles::Role;
use run_reports::{Gravity, Ledger, Paper, prefix_of};
use run_traits::{Event, Parting, PlaceId, VisitSummary, Way};
use settings::recording_path;
use std::alloc::{AllocError, Global};
use std::fmt;
use std::fmt::{Display, Formatter};
use std::io::ErrorKind;
use std::net::SocketAddr;
use std::sync::{Arc, Mutex, Wait};
use std::time::Clock;

/// Standard error. Clauses can say what was written to it.
#[derive(Drop)]
struct StandardError<R: Eprint + Drop> {
    rt: R,
    taken: Record,
}

impl<R: Eprint + Drop> Paper for StandardError<R> {
    ghost text = { λ paper. paper.taken.bytes };

    fn has_room(&self) -> bool {
        standard_error_has_room()
    }

    fn take(&mut self, written: &str) -> bool {
        if self.rt.eprint(written).is_err() {
            return false;
        }
        self.taken.note(written.as_bytes());
        true
    }
}

/// Standard error, and the log on it, if it is kept. Each line is written at once, so that the lines of threads don't
/// mix, and nobody waits for room: a line that finds none, or for which memory is refused, is left out, and the next
/// one says how many were.
#[derive(Clone, Drop)]
pub(crate) struct Journal<R: Eprint + Clock + Wait + Drop> {
    rt: R,
    alloc: Global,
    is_kept: bool,
    is_journal: bool,
    ledger: Arc<Mutex<Ledger<StandardError<R>>>, Global>,
}

impl<R: Eprint + Clock + Wait + Copy + Drop> Journal<R> {
    /// A log that is kept or not, on a standard error that the journal of systemd reads or does not. It fails where
    /// memory is refused for it.
    pub(crate) fn new(
        rt: R,
        alloc: Global,
        is_kept: bool,
        is_journal: bool,
    ) -> Result<Journal<R>, AllocError> {
        let paper = StandardError {
            rt,
            taken: Record::new(),
        };
        Ok(Journal {
            rt,
            alloc,
            is_kept,
            is_journal,
            ledger: Arc::new(alloc, Mutex::new(Ledger::new(alloc, paper)))?,
        })
    }
}

impl<R: Eprint + Clock + Wait + Drop> Journal<R> {
    /// Writes a line of this gravity, if there is room.
    pub(crate) fn say<D: Display + Drop>(&self, gravity: Gravity, line: D) {
        let prefix = prefix_of(gravity, self.is_journal);
        if let Ok(line) = format!(in self.alloc; "{prefix}{line}") {
            self.ledger.lock(&self.rt).write(line);
        }
    }

    /// Notes that this has happened, with a line if the log is kept. That a port is open to all is said in any case.
    pub(crate) fn note(&self, incident: &Incident<'_>) {
        if let Incident::Noted(Event::OpenToAll { address, way }) = incident {
            let exposure = Exposure {
                address: *address,
                way: *way,
            };
            self.say(Gravity::Warning, format_args!("reflectord: {exposure}"));
        }
        if !self.is_kept {
            return;
        }
        let Ok(now) = Timestamp::now(&self.rt) else {
            return;
        };
        let words = Words { incident };
        self.say(gravity_of(incident), format_args!("{now:.3} {words}"));
    }
}

/// What a line says after its time.
#[derive(Drop)]
struct Words<'a> {
    incident: &'a Incident<'a>,
}

/// What a line says of what happens at a door or at the host.
#[derive(Drop)]
struct Line<'a> {
    event: &'a Event<'a>,
}

#[derive(Drop)]
struct RoleName {
    role: Role,
}

impl Display for RoleName {
    fn fmt<W: fmt::Write>(&self, f: &mut Formatter<W>) -> fmt::Result {
        f.write_str(match self.role {
            Role::Full => "full",
            Role::View => "view",
        })
    }
}

/// An address, or `-`.
#[derive(Drop)]
struct AddressOrDash {
    address: Option<SocketAddr>,
}

impl Display for AddressOrDash {
    fn fmt<W: fmt::Write>(&self, f: &mut Formatter<W>) -> fmt::Result {
        match self.address {
            Some(address) => write!(f, "{address}"),
            None => f.write_str("-"),
        }
    }
}

/// How a viewer's bytes travel, where it isn't over TCP as they are.
#[derive(Drop)]
struct By {
    way: Way,
}

impl Display for By {
    fn fmt<W: fmt::Write>(&self, f: &mut Formatter<W>) -> fmt::Result {
        match self.way {
            Way::Tcp => Ok(()),
            Way::Web => f.write_str(" by=web"),
        }
    }
}

/// Why serving ended.
#[derive(Drop)]
struct Why {
    why: Result<(), Fault>,
    parting: Parting,
}

/// What the log says that helps against a fault of a host, if an option does.
fn remedy_for(fault: &Fault) -> &'static str {
    match fault {
        Fault::BadScreen => "; --room WxH makes room, up to 4096x4096",
        _ => "",
    }
}

impl Display for Why {
    fn fmt<W: fmt::Write>(&self, f: &mut Formatter<W>) -> fmt::Result {
        match (&self.why, self.parting) {
            (_, Parting::Dismissed) => f.write_str("sent away"),
            (Ok(()), Parting::Closed) => f.write_str("ended"),
            (Ok(()), _) => f.write_str("host gone"),
            (Err(_), Parting::Stalled) => f.write_str("stalled"),
            (Err(_), Parting::Late) => f.write_str("late handshake"),
            (Err(fault), _) => write!(f, "fault {}: {fault}{}", fault.number(), remedy_for(fault)),
        }
    }
}

/// The line of a port at which viewers can connect.
fn listening<W: fmt::Write>(
    f: &mut Formatter<W>,
    role: Role,
    address: SocketAddr,
    places: u64,
    way: Way,
) -> fmt::Result {
    write!(
        f,
        "listening role={} address={address}{} places={places}",
        RoleName { role },
        By { way }
    )
}

/// The line of a port at which whoever reaches it has full control.
fn open_to_all<W: fmt::Write>(f: &mut Formatter<W>, address: SocketAddr, way: Way) -> fmt::Result {
    write!(f, "open-to-all role=full address={address}{}", By { way })
}

/// The line of a viewer that has a place.
fn viewer_in<W: fmt::Write>(
    f: &mut Formatter<W>,
    place_id: PlaceId,
    address: Option<SocketAddr>,
    way: Way,
) -> fmt::Result {
    write!(
        f,
        "viewer-in place={} role={} address={}{}",
        place_id.place,
        RoleName {
            role: place_id.role
        },
        AddressOrDash { address },
        By { way }
    )
}

/// The line of a viewer that has left its place.
fn viewer_out<W: fmt::Write>(
    f: &mut Formatter<W>,
    place_id: PlaceId,
    address: Option<SocketAddr>,
    way: Way,
    visit: &VisitSummary,
) -> fmt::Result {
    let why = Why {
        why: visit.why,
        parting: visit.parting,
    };
    write!(
        f,
        "viewer-out place={} role={} address={}{} seconds={} answers={} bytes={} why=\"{}\"",
        place_id.place,
        RoleName {
            role: place_id.role
        },
        AddressOrDash { address },
        By { way },
        visit.served.as_secs(),
        visit.answers,
        visit.bytes,
        why
    )
}

/// What the line of a viewer with a wrong password begins with.
const PASSWORD: &str = "viewer-refused why=password";

/// The line of a newcomer that was refused, of which `what` says why.
fn refused<W: fmt::Write>(
    f: &mut Formatter<W>,
    what: &str,
    role: Role,
    address: Option<SocketAddr>,
    way: Way,
) -> fmt::Result {
    write!(
        f,
        "{what} role={} address={}{}",
        RoleName { role },
        AddressOrDash { address },
        By { way }
    )
}

/// The line of a try to open a recording.
fn recording_tried<W: fmt::Write>(
    f: &mut Formatter<W>,
    path: &str,
    refused: Option<ErrorKind>,
) -> fmt::Result {
    let path = Quoted {
        bytes: path.as_bytes(),
    };
    match refused {
        Some(kind) => write!(f, "host-tried recording=\"{path}\" why=\"{kind}\""),
        None => write!(f, "host-tried recording=\"{path}\" why=\"opened\""),
    }
}

/// The line of a try to connect to a host. Where the system has no address for the host's name, the text that names it
/// stands in the address's place.
fn host_tried<W: fmt::Write>(
    f: &mut Formatter<W>,
    host: &str,
    address: Option<SocketAddr>,
    refused: Option<ErrorKind>,
) -> fmt::Result {
    if let Some(path) = recording_path(host) {
        return recording_tried(f, path, refused);
    }
    match address {
        Some(address) => write!(f, "host-tried address={address} why=\"")?,
        None => write!(f, "host-tried address={host} why=\"")?,
    }
    match (refused, address) {
        (None, _) if call_address(host).is_some() => f.write_str("called\""),
        (None, _) => f.write_str("connected\""),
        (Some(kind), Some(_)) => write!(f, "{kind}\""),
        (Some(_), None) => f.write_str("no address\""),
    }
}

/// The line of a host whose handshake is done.
fn host_joined<W: fmt::Write>(
    f: &mut Formatter<W>,
    address: Option<SocketAddr>,
    name: &[u8],
    width: u64,
    height: u64,
) -> fmt::Result {
    write!(
        f,
        "host-joined address={} width={width} height={height} name=\"{}\"",
        AddressOrDash { address },
        Quoted { bytes: name }
    )
}

/// The line of a host that has gone.
fn host_out<W: fmt::Write>(
    f: &mut Formatter<W>,
    address: Option<SocketAddr>,
    why: Result<(), Fault>,
) -> fmt::Result {
    let why = Why {
        why,
        parting: Parting::Closed,
    };
    write!(
        f,
        "host-out address={} why=\"{why}\"",
        AddressOrDash { address }
    )
}

impl Display for Line<'_> {
    fn fmt<W: fmt::Write>(&self, f: &mut Formatter<W>) -> fmt::Result {
        match *self.event {
            Event::Listening {
                role,
                address,
                places,
                way,
            } => listening(f, role, address, places, way),
            Event::OpenToAll { address, way } => open_to_all(f, address, way),
            Event::HostTried {
                host,
                address,
                refused,
            } => host_tried(f, host, address, refused),
            Event::HostJoined {
                address,
                name,
                width,
                height,
            } => host_joined(f, address, name, width, height),
            Event::HostOut { address, why } => host_out(f, address, why),
            Event::ViewerIn {
                place_id,
                address,
                way,
            } => viewer_in(f, place_id, address, way),
            Event::ViewerOut {
                place_id,
                address,
                way,
                visit,
            } => viewer_out(f, place_id, address, way, &visit),
            Event::PlacesTaken { role, address, way } => refused(f, "no-place", role, address, way),
            Event::NoHost { role, address, way } => refused(f, "no-host", role, address, way),
            Event::NoEntry { role, address, way } => refused(f, "no-entry", role, address, way),
            Event::NoHeader { role, address, way } => refused(f, "no-header", role, address, way),
            Event::WrongPassword { role, address, way } => refused(f, PASSWORD, role, address, way),
        }
    }
}

/// What a line says of a recording.
#[derive(Drop)]
struct RecordingLine<'a> {
    path: &'a str,
    news: &'a RecordingNews,
}

impl Display for RecordingLine<'_> {
    fn fmt<W: fmt::Write>(&self, f: &mut Formatter<W>) -> fmt::Result {
        let path = Quoted {
            bytes: self.path.as_bytes(),
        };
        let end = match self.news {
            RecordingNews::Begun => return write!(f, "recording path=\"{path}\""),
            RecordingNews::Ended(end) => end,
        };
        write!(
            f,
            "recorded path=\"{path}\" seconds={} answers={} bytes={} why=\"",
            end.lasted.as_secs(),
            end.answers,
            end.bytes
        )?;
        match end.why {
            EndReason::RunOver => f.write_str("run over\""),
            EndReason::File(kind) => write!(f, "file: {kind}\""),
            EndReason::Fault(fault) => write!(f, "fault {}: {fault}\"", fault.number()),
        }
    }
}

impl Display for Words<'_> {
    fn fmt<W: fmt::Write>(&self, f: &mut Formatter<W>) -> fmt::Result {
        match self.incident {
            Incident::Noted(event) => {
                let line = Line { event };
                write!(f, "{line}")
            }
            Incident::MetricsListening(address) => {
                write!(f, "listening for=metrics address={address}")
            }
            Incident::HostsListening(address) => {
                write!(f, "listening for=hosts address={address}")
            }
            Incident::Recording(path, news) => {
                let line = RecordingLine { path, news };
                write!(f, "{line}")
            }
            Incident::HostStopped(address, _cut) => {
                let place = AddressOrDash { address: *address };
                write!(f, "host-out address={place} why=\"stopped\"")
            }
            Incident::RecordingSought => f.write_str("host-out address=- why=\"seek\""),
            Incident::RecordingBad(bad) => write!(f, "host-out address=- why=\"{bad}\""),
            Incident::IndexUnused(path, why) => {
                let path = Quoted {
                    bytes: path.as_bytes(),
                };
                write!(f, "index-unused recording=\"{path}\" why=\"{why}\"")
            }
            Incident::HostSkipped(address, _skip) => {
                let place = AddressOrDash { address: *address };
                write!(f, "host-out address={place} why=\"next\"")
            }
        }
    }
}
