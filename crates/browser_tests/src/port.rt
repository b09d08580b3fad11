//! A web port before a lobby of one place, at which a file is had.

use crate::asks::{Ask, NOT_FOUND, PORT};
use crate::loopback::{listen, port_at};
use bytes::Bytes;
use connections::{Desk, Key, Lobby, RoleListener, Seat, WebEntry, WebPorter};
use roles::Role;
use std::alloc::{AllocError, Global};
use std::hash::RandomState;
use std::io;
use std::io::ErrorKind;
use std::net::{SocketAddr, TcpListener};
use std::sync::Arc;
use web_site::{Admission, FileTable, Site};

/// A file, and its path.
const FILE: &[u8] = b"let a;";

const PATH: &str = "/app/ui.js";

/// The file is given.
pub(crate) const FOUND: Ask = Ask {
    request: &[
        "GET /app/ui.js HTTP/1.1\r\nHost: 127.0.0.1:",
        PORT,
        "\r\n\r\n",
    ],
    status: b"HTTP/1.1 200 ",
    line: b"",
    body: FILE,
};

/// It isn't given under a path that leads to it in another way.
pub(crate) const AROUND: Ask = Ask {
    request: &[
        "GET /app/../app/ui.js HTTP/1.1\r\nHost: 127.0.0.1:",
        PORT,
        "\r\n\r\n",
    ],
    status: NOT_FOUND,
    line: b"",
    body: b"",
};

/// A lobby, the porter of the port before it, and the port's number.
#[derive(Drop)]
pub(crate) struct WebPort {
    pub(crate) lobby: Arc<Lobby, Global>,
    pub(crate) porter: WebPorter,
    pub(crate) port: u16,
}

/// A seat.
pub(crate) fn seat(net: &HostRuntime) -> io::Result<Arc<Seat, Global>> {
    let seat = Seat::new(net, net.alloc())?;
    Ok(Arc::new(net.alloc(), seat)?)
}

/// A lobby of one place for viewers of this role, who come by a port with this key.
fn lobby(alloc: Global, role: Role, key: Key) -> Result<Arc<Lobby, Global>, AllocError> {
    let desk = Arc::new(alloc, Desk::new(alloc, 1)?)?;
    Ok(Arc::new(alloc, Lobby::new(alloc, role, key, 1, 60, desk)?)?)
}

/// The table of the one file.
fn files(alloc: Global) -> io::Result<Arc<FileTable, Global>> {
    let path = String::from_str(alloc, PATH)?;
    let mut files = FileTable::new(alloc);
    match files.add(path, Bytes::from_static(FILE)) {
        Ok(()) => Ok(Arc::new(alloc, files)?),
        Err(_) => Err(io::Error::from(ErrorKind::OutOfMemory)),
    }
}

/// A list of this text alone.
fn only(alloc: Global, text: String) -> Result<Vec<String>, AllocError> {
    let mut list = Vec::new(alloc);
    list.push(text)?;
    Ok(list)
}

/// The port's own pages may open a WebSocket, at its own address.
fn admission(alloc: Global, address: SocketAddr) -> io::Result<Admission> {
    let hosts = only(alloc, format!(in alloc; "{address}")?)?;
    let origins = only(alloc, format!(in alloc; "http://{address}")?)?;
    Ok(Admission { hosts, origins })
}

/// What the port at this address answers.
fn site(alloc: Global, address: SocketAddr) -> io::Result<Arc<Site, Global>> {
    let site = Site::new(alloc, files(alloc)?, admission(alloc, address)?, false)?;
    Ok(Arc::new(alloc, site)?)
}

/// The port of this listener, before this lobby.
fn entry(alloc: Global, listener: TcpListener, lobby: &Arc<Lobby, Global>) -> io::Result<WebEntry> {
    let site = site(alloc, listener.local_addr()?)?;
    let shared = Arc::try_clone(lobby)?;
    let listener = RoleListener::new(listener, lobby.role()).with_key(lobby.key());
    WebEntry::new(listener, site, shared)
}

/// The porter of this port alone.
fn porter(net: &HostRuntime, entry: WebEntry) -> io::Result<WebPorter> {
    let keys = RandomState::new(net)?;
    let mut entries = Vec::new(net.alloc());
    entries.push(entry)?;
    WebPorter::new(net, net.alloc(), entries, keys)
}

impl WebPort {
    /// A new port with this key, for viewers of this role.
    pub(crate) fn open(net: &HostRuntime, role: Role, key: Key) -> io::Result<WebPort> {
        let lobby = lobby(net.alloc(), role, key)?;
        let listener = listen(net)?;
        let port = port_at(&listener);
        let porter = porter(net, entry(net.alloc(), listener, &lobby)?)?;
        Ok(WebPort {
            lobby,
            porter,
            port,
        })
    }
}
