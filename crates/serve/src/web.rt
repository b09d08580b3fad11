//! The ports for browsers.

ghost use Rattle.std.specs.Prelude.{◌≡◌, ◌++◌, ◌∷◌, [], All, IfOk, IfSome, MatchOption, None, OnOk};
ghost use Rattle.std.specs.String.{string_bytes};
ghost use Rattle.std.specs.Arc.{arc_value};
ghost use Rattle.roles.specs.declared.role.Role.TheVariants.{Full};
ghost use Rattle.serve.specs.Browsers.{AreWebEntries, IsSiteFor, IsWebEntryFor, looks_only};
ghost use Rattle.serve.specs.Doors.{AreBoth, IsEntryFor, IsFullEntry};
ghost use Rattle.serve.specs.Origins.{IsAnOrigin};
ghost use Rattle.serve.specs.Ports.{AsksForBrowsers, AsksForWeb};

use crate::bound::{Bound, Ports};
use crate::means::Means;
use crate::open::{RoleEntry, announce};
use crate::origins::{admission_of, first_bad};
use crate::runtime::{REQUEST_STACK, Runtime};
use crate::trouble::{Stage, Trouble};
use connections::{Seat, WebEntry, WebPorter};
use fault::Fault;
use roles::Role;
use run_traits::{Log, Way};
use settings::{Settings, places_of, proxy_of, web_address_of, web_port_of};
use std::alloc::{AllocError, AllocGlobal, Global};
use std::hash::RandomState;
use std::net::{Net, SocketAddr, TcpListener, TcpStream};
use std::rt::Files;
use std::sync::Arc;
use std::thread::Builder;
use web_root::{RootFault, SystemDisk, read_all};
use web_site::{FileTable, Site};

/// The files of the folder for browsers, if one is named.
fn read_files<R: Files + AllocGlobal + Copy + Drop>(
    rt: R,
    alloc: Global,
    settings: &Settings,
) -> Result<FileTable, Trouble>
    ensures { settings.now.web_root ≡ None → IfOk result (λ files. files ≡ []) }
{
    let Some(root) = &settings.web_root else {
        return Ok(FileTable::new(alloc));
    };
    match read_all(alloc, &SystemDisk::new(rt, root.as_str())) {
        Ok(files) => Ok(files),
        Err(RootFault::Memory) => Err(Trouble::new(Stage::Start, Fault::Memory)),
        Err(fault) => Err(Trouble::new(Stage::ReadRoot(fault), Fault::LinkFailed)),
    }
}

/// The files that browsers are sent. They are read here, once, and shared by all web ports. It fails here, too, where a
/// text is no origin.
pub(crate) fn files_of<R: Files + AllocGlobal + Copy + Drop>(
    rt: R,
    alloc: Global,
    settings: &Settings,
) -> Result<Arc<FileTable, Global>, Trouble>
    ensures files { settings.now.web_root ≡ None → IfOk result (λ files. arc_value files ≡ []) }
    ensures origins { IfOk result (λ _. All (λ origin. IsAnOrigin (string_bytes origin))
        settings.now.web_origins.items) }
{
    if let Some(number) = first_bad(settings.web_origins.as_slice()) {
        return Err(Trouble::new(Stage::ReadOrigin(number), Fault::LinkFailed));
    }
    let files = read_files(rt, alloc, settings)?;
    match Arc::new(alloc, files) {
        Ok(files) => Ok(files),
        Err(_) => Err(Trouble::new(Stage::Start, Fault::Memory)),
    }
}

/// Whether viewers of this role only look on.
fn looks_only(role: Role) -> bool
    ensures { result ≡ looks_only role }
{
    match role {
        Role::Full => false,
        Role::View => true,
    }
}

/// What the web port of a role answers at this address.
fn site_of(
    alloc: Global,
    settings: &Settings,
    role: Role,
    address: SocketAddr,
    files: &Arc<FileTable, Global>,
) -> Result<Arc<Site, Global>, AllocError>
    ensures { IfOk result (λ site.
        IsSiteFor role settings.now (arc_value files.now) address (arc_value site)) }
{
    let admission = admission_of(alloc, address, settings.web_origins.as_slice())?;
    let files = Arc::try_clone(files)?;
    let site = Site::new(alloc, files, admission, looks_only(role))?;
    Ok(Arc::new(alloc, site)?)
}

/// Listens for the browsers of this entry's role, if there is a port for them, and tells the log where.
#[tactic(auto, using(crate::proofs::Asking::asks_for_web))]
fn open_web<R: Net<Stream = TcpStream, Listener = TcpListener>, G: Log>(
    means: &Means<'_, R, G>,
    settings: &Settings,
    ports: &mut Ports,
    role: Role,
    entry: &RoleEntry<'_>,
    files: &Arc<FileTable, Global>,
) -> Result<Option<WebEntry>, Trouble>
    requires { IsEntryFor role settings.now entry.now }
    ensures asked { AsksForWeb role settings.now ports.old ports.new }
    ensures entry { IfOk result (λ web. IfSome web (λ entry.
        IsWebEntryFor role settings.now (arc_value files.now) entry)) }
{
    let Some(port) = web_port_of(settings, role) else {
        return Ok(None);
    };
    let Ok(address) = web_address_of(settings, role, port) else {
        return Err(Trouble::new(Stage::ReadBind(role), Fault::LinkFailed));
    };
    let Ok(site) = site_of(means.alloc, settings, role, address, files) else {
        return Err(Trouble::new(Stage::Start, Fault::Memory));
    };
    let Ok(lobby) = Arc::try_clone(&entry.lobby) else {
        return Err(Trouble::new(Stage::Start, Fault::Memory));
    };
    let Ok(proxy) = proxy_of(settings) else {
        return Err(Trouble::new(Stage::ReadProxy, Fault::LinkFailed));
    };
    let key = lobby.key();
    let bound = match Bound::at(means.rt, ports, address, role, key, proxy) {
        Ok(bound) => bound,
        Err(error) => return Err(Trouble::of(Stage::ListenWeb(role), error)),
    };
    match WebEntry::new(bound.into_listener(), site, lobby) {
        Ok(web) => {
            let places = places_of(settings, role);
            announce(means.log, role, &key, address, places, Way::Web);
            Ok(Some(web))
        }
        Err(error) => Err(Trouble::of(Stage::ListenWeb(role), error)),
    }
}

/// Adds a web port, if there is one.
fn add(ports: &mut Vec<WebEntry>, port: Option<WebEntry>) -> Result<(), Trouble>
    ensures { OnOk result (MatchOption port (ports.new.items ≡ ports.old.items)
        (λ port. ports.new.items ≡ ports.old.items ++ port ∷ [])) }
{
    let Some(port) = port else {
        return Ok(());
    };
    match ports.push(port) {
        Ok(()) => Ok(()),
        Err(_) => Err(Trouble::new(Stage::Start, Fault::Memory)),
    }
}

/// The web port of those with full control, if they have an entry.
fn open_full_web<R: Net<Stream = TcpStream, Listener = TcpListener>, G: Log>(
    means: &Means<'_, R, G>,
    settings: &Settings,
    ports: &mut Ports,
    full: &Option<RoleEntry<'_>>,
    files: &Arc<FileTable, Global>,
) -> Result<Option<WebEntry>, Trouble>
    requires { IsFullEntry settings.now full.now }
    ensures asked { AsksForWeb Full settings.now ports.old ports.new }
    ensures entry { IfOk result (λ web. IfSome web (λ entry.
        IsWebEntryFor Full settings.now (arc_value files.now) entry)) }
{
    match full {
        Some(entry) => open_web(means, settings, ports, Role::Full, entry, files),
        None => Ok(None),
    }
}

/// Listens for the browsers with full control, and then for those that only look on, where there are ports for them.
#[tactic(auto, using(crate::proofs::Asking::first_web_alone, crate::proofs::Asking::both_webs))]
pub(crate) fn open_webs<R: Net<Stream = TcpStream, Listener = TcpListener>, G: Log>(
    means: &Means<'_, R, G>,
    settings: &Settings,
    ports: &mut Ports,
    entries: (&Option<RoleEntry<'_>>, &RoleEntry<'_>),
    files: &Arc<FileTable, Global>,
) -> Result<Vec<WebEntry>, Trouble>
    requires { AreBoth settings.now entries.0.now entries.1.now }
    ensures asked { AsksForBrowsers settings.now ports.old ports.new }
    ensures entries { IfOk result (λ web.
        AreWebEntries settings.now (arc_value files.now) web.items) }
{
    let (full, view) = entries;
    let mut web = Vec::new(means.alloc);
    let entry = open_full_web(means, settings, ports, full, files)?;
    add(&mut web, entry)?;
    let entry = open_web(means, settings, ports, Role::View, view, files)?;
    add(&mut web, entry)?;
    Ok(web)
}

/// The same seats, for one more owner.
pub(crate) fn shared(
    alloc: Global,
    seats: &[Arc<Seat, Global>],
) -> Result<Vec<Arc<Seat, Global>>, AllocError> {
    let mut shared = Vec::new(alloc);
    for seat in seats {
        shared.push(Arc::try_clone(seat)?)?;
    }
    Ok(shared)
}

/// Starts the thread that lets browsers in, if there are ports for them.
pub(crate) fn start_web_porter<R, G>(
    rt: R,
    alloc: Global,
    entries: Vec<WebEntry>,
    seats: Vec<Arc<Seat, Global>>,
    log: &G,
) -> Result<(), Trouble>
where
    R: Runtime,
    G: Log + Clone + Drop + Send + 'static,
{
    if entries.is_empty() {
        return Ok(());
    }
    let keys = match RandomState::new(&rt) {
        Ok(keys) => keys,
        Err(error) => return Err(Trouble::of(Stage::Start, error)),
    };
    let porter = match WebPorter::new(&rt, alloc, entries, keys) {
        Ok(porter) => porter,
        Err(error) => return Err(Trouble::of(Stage::Start, error)),
    };
    let Ok(log) = log.clone() else {
        return Err(Trouble::new(Stage::Start, Fault::Memory));
    };
    let started = Builder::new()
        .stack_size(REQUEST_STACK)
        .spawn(&rt, move || porter.keep(&rt, seats.as_slice(), &log));
    match started {
        Ok(_porter) => Ok(()),
        Err(error) => Err(Trouble::of(Stage::Start, error)),
    }
}
