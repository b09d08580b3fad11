//! Meeting hosts.

ghost use Rattle.std.specs.Prelude.{◌≡◌, IfOk, IfSome, false, true};
ghost use Rattle.serve.specs.Hosts.{end_state, is_untimed};
ghost use Rattle.link.specs.Joins.{Joins};
ghost use Rattle.raster.specs.Size.{IsScreenSize};
ghost use Rattle.run_traits.specs.Unused.{unused};
ghost use Rattle.settings.specs.Rooms.{FitsInto};

use crate::held_host::Grip;
use crate::host_end::HostEnd;
use crate::trouble::{Stage, Trouble};
use connections::{HostCall, HostLink, HostListener, JoiningLink};
use fault::Fault;
use host_turns::HostEnds;
use link::join_host;
use player::{DeafLink, OpenedRecording, Player, UnusedIndex, open_recording};
use rfb_wire::Joined;
use settings::{Room, fits};
use std::alloc::Global;
use std::fs::File;
use std::io;
use std::io::ErrorKind;
use std::net::{Net, SocketAddr, TcpStream, ToSocketAddrs};
use std::rt::Files;
use std::sync::{Arc, Wait};
use std::time::{Clock, Duration};
use vnc_auth::Password;

/// The seconds that a connection to a host may take.
const CONNECT_SECONDS: u64 = 5;

/// The most addresses of a host's name that are tried, one after the other.
const MOST_ADDRESSES: usize = 4;

/// On which terms a first host is met: the room into which it has to fit, if there is one yet, and the password that it
/// may ask for, if one is known.
#[derive(Clone, Copy, Drop)]
pub(crate) struct Terms {
    pub(crate) room: Option<Room>,
    pub(crate) password: Option<Password>,
}

/// A host that was joined: the ends of its connection, one to be read, over which it was joined, and one to be written,
/// over which nothing was given yet.
#[derive(Drop)]
pub(crate) struct Met<R: Wait + Clock + Drop> {
    pub(crate) reader: HostEnd<R>,
    pub(crate) writer: HostEnd<R>,
    pub(crate) has_called: bool,
    pub(crate) joined: Joined,
    /// The password that hosts may ask for, if one is known.
    pub(crate) password: Option<Password>,
    pub(crate) ghost joins: { ∥ Joins password unused (end_state reader) joined ∥₁ },
    pub(crate) ghost fresh: { end_state writer ≡ unused },
}

/// Connects to a host: the end to be read, over which the handshake has ten seconds, and the end to be written.
fn connect<R: Net<Stream = TcpStream> + Wait + Clock + Copy + Drop>(
    rt: R,
    address: SocketAddr,
) -> io::Result<Reached<R>>
    ensures untimed { IfOk result (λ reached. is_untimed reached.writer ≡ true) }
    ensures fresh { IfOk result (λ reached.
        (end_state reached.reader ≡ unused) × (end_state reached.writer ≡ unused)) }
    ensures called { IfOk result (λ reached. reached.has_called ≡ false) }
{
    let patience = Duration::from_secs(CONNECT_SECONDS);
    let stream = TcpStream::connect_timeout(&rt, &address, patience)?;
    let (reader, writer) = HostLink::pair(stream.try_clone()?)?;
    let reader = JoiningLink::new(rt, reader)?;
    Ok(Reached {
        address: Some(address),
        grip: Grip::Stream(stream),
        reader: HostEnd::Tcp(reader),
        writer: HostEnd::Tcp(JoiningLink::without_limit(rt, writer)),
        has_called: false,
        unused_index: None,
    })
}

/// The host that calls here next: the same ends as of one that is connected to. It is `None` where none calls within
/// half a second.
pub(crate) fn called<R: Wait + Clock + Copy + Drop>(
    rt: R,
    listener: &HostListener,
) -> io::Result<Option<Reached<R>>>
    ensures untimed { IfOk result (λ call. IfSome call (λ reached.
        is_untimed reached.writer ≡ true)) }
    ensures fresh { IfOk result (λ call. IfSome call (λ reached.
        (end_state reached.reader ≡ unused) × (end_state reached.writer ≡ unused))) }
    ensures called { IfOk result (λ call. IfSome call (λ reached. reached.has_called ≡ true)) }
{
    let Some(call) = listener.accept()? else {
        return Ok(None);
    };
    let HostCall {
        address,
        stream,
        reader,
        writer,
    } = call;
    let reader = JoiningLink::new(rt, reader)?;
    Ok(Some(Reached {
        address: Some(address),
        grip: Grip::Stream(stream),
        reader: HostEnd::Tcp(reader),
        writer: HostEnd::Tcp(JoiningLink::without_limit(rt, writer)),
        has_called: true,
        unused_index: None,
    }))
}

/// The recording at this path, as a host that is connected to: an end over which it is heard, and one that hears
/// nothing.
pub(crate) fn opened<R: Files<File = File> + Wait + Clock + Copy + Drop>(
    rt: R,
    alloc: Global,
    path: &str,
    player: &Arc<Player, Global>,
) -> Result<Reached<R>, Missed>
    ensures untimed { IfOk result (λ reached. is_untimed reached.writer ≡ true) }
    ensures fresh { IfOk result (λ reached.
        (end_state reached.reader ≡ unused) × (end_state reached.writer ≡ unused)) }
    ensures called { IfOk result (λ reached. reached.has_called ≡ false) }
{
    let missed = |error: io::Error| Missed {
        address: None,
        stage: Stage::OpenRecording,
        error,
    };
    let grip = match Arc::try_clone(player) {
        Ok(player) => Grip::Player(player),
        Err(_) => return Err(missed(io::Error::from(ErrorKind::OutOfMemory))),
    };
    match open_recording(rt, alloc, path, player) {
        Ok(OpenedRecording { host, unused_index }) => Ok(Reached {
            address: None,
            grip,
            reader: HostEnd::Played(host),
            writer: HostEnd::Deaf(DeafLink::new()),
            has_called: false,
            unused_index,
        }),
        Err(error) => Err(missed(error)),
    }
}

/// A host that was connected to, at this address, or has called from there, or a recording, which has no address: the
/// ends of its connection, and what ends it from another thread.
#[derive(Drop)]
pub(crate) struct Reached<R: Wait + Clock + Drop> {
    pub(crate) address: Option<SocketAddr>,
    pub(crate) grip: Grip,
    pub(crate) reader: HostEnd<R>,
    pub(crate) writer: HostEnd<R>,
    /// Whether it has called.
    pub(crate) has_called: bool,
    /// Why the index of a recording isn't used, if it has one that isn't.
    pub(crate) unused_index: Option<UnusedIndex>,
}

/// A host that wasn't connected to: the last address that was tried, or none where the system had none for its name,
/// or where it is a recording; what was being done, and what the system said.
#[derive(Drop)]
pub(crate) struct Missed {
    pub(crate) address: Option<SocketAddr>,
    pub(crate) stage: Stage,
    pub(crate) error: io::Error,
}

impl Missed {
    /// What went wrong.
    pub(crate) fn trouble(self) -> Trouble {
        Trouble::of(self.stage, self.error)
    }
}

/// Connects to a host at one of the addresses that its text has now, in the system's order.
pub(crate) fn connect_by_text<R: Net<Stream = TcpStream> + Wait + Clock + Copy + Drop>(
    rt: R,
    host: &str,
) -> Result<Reached<R>, Missed>
    ensures untimed { IfOk result (λ reached. is_untimed reached.writer ≡ true) }
    ensures fresh { IfOk result (λ reached.
        (end_state reached.reader ≡ unused) × (end_state reached.writer ≡ unused)) }
    ensures called { IfOk result (λ reached. reached.has_called ≡ false) }
{
    let addresses = match host.to_socket_addrs(&rt) {
        Ok(addresses) => addresses,
        Err(error) => {
            return Err(Missed {
                address: None,
                stage: Stage::LookUp,
                error,
            });
        }
    };
    let mut missed = Missed {
        address: None,
        stage: Stage::LookUp,
        error: io::Error::from(ErrorKind::NotFound),
    };
    for address in addresses.take(MOST_ADDRESSES) {
        match connect(rt, address) {
            Ok(reached) => return Ok(reached),
            Err(error) => {
                missed = Missed {
                    address: Some(address),
                    stage: Stage::Connect,
                    error,
                };
            }
        }
    }
    Err(missed)
}

/// Joins the host of this number over the ends of its connection, on these terms. After that the ends have no deadline.
/// It fails with `BadScreen` where the host doesn't fit into the room.
#[tactic(auto, using(crate::proofs::Sizes::is_screen))]
pub(crate) fn join<R>(
    rt: &R,
    number: usize,
    terms: &Terms,
    ends: HostEnds<HostEnd<R>>,
) -> Result<Met<R>, Trouble>
where
    R: Net<Stream = TcpStream> + Wait + Clock + Copy + Drop,
    requires untimed { is_untimed ends.writer ≡ true }
    requires fresh { (end_state ends.reader ≡ unused) × (end_state ends.writer ≡ unused) }
    ensures size { IfOk result (λ met. IsScreenSize met.joined.w met.joined.h) }
    ensures fits { IfOk result (λ met. FitsInto terms.now.room met.joined.w met.joined.h) }
    ensures untimed { IfOk result (λ met.
        (is_untimed met.reader ≡ true) × (is_untimed met.writer ≡ true)) }
    ensures password { IfOk result (λ met. met.password ≡ terms.now.password) }
{
    let HostEnds {
        mut reader,
        writer,
        has_called,
    } = ends;
    let joined = match join_host(rt, terms.password, &mut reader) {
        Ok(joined) => joined,
        Err(fault) => {
            let stage = match reader.why() {
                Some(bad) => Stage::Play(number, bad),
                None => Stage::Join(number),
            };
            return Err(Trouble::new(stage, fault));
        }
    };
    if !fits(&terms.room, joined.w, joined.h) {
        return Err(Trouble::new(Stage::Join(number), Fault::BadScreen));
    }
    if let Err(error) = reader.lift() {
        return Err(Trouble::of(Stage::Connect, error));
    }
    Ok(Met {
        reader,
        writer,
        has_called,
        joined,
        password: terms.password,
    })
}
