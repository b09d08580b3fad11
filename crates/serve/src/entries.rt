//! Where the viewers of both roles come in.

ghost use Rattle.std.specs.Prelude.{◌≡◌, All, IfOk, true};
ghost use Rattle.roles.specs.declared.role.Role.TheVariants.{Full};
ghost use Rattle.serve.specs.Browsers.{LetsNullIn};
ghost use Rattle.serve.specs.Doors.{AreBoth, IsFullEntry};
ghost use Rattle.serve.specs.Ports.{AsksForPeople, AsksFor, AsksForViewers};

use crate::bound::Ports;
use crate::means::Means;
use crate::open::{RoleEntry, open};
use crate::trouble::{Stage, Trouble};
use crate::web::{files_of, open_webs};
use connections::{Desk, WebEntry};
use fault::Fault;
use roles::Role;
use run_traits::Log;
use settings::{Settings, places_of};
use std::alloc::{AllocGlobal, Global};
use std::net::{Net, TcpListener, TcpStream};
use std::rt::Files;
use std::sync::Arc;

/// The doors of all places.
fn desk_of(alloc: Global, settings: &Settings) -> Result<Arc<Desk, Global>, Trouble> {
    let places = places_of(settings, Role::Full).saturating_add(places_of(settings, Role::View));
    let Ok(desk) = Desk::new(alloc, places as usize) else {
        return Err(Trouble::new(Stage::Start, Fault::Memory));
    };
    match Arc::new(alloc, desk) {
        Ok(desk) => Ok(desk),
        Err(_) => Err(Trouble::new(Stage::Start, Fault::Memory)),
    }
}

/// Listens for the viewers with full control, unless there are only those who look on.
fn open_full<'a, R: Net<Stream = TcpStream, Listener = TcpListener> + Files, G: Log>(
    means: &Means<'_, R, G>,
    settings: &'a Settings,
    ports: &mut Ports,
    desk: &Arc<Desk, Global>,
) -> Result<Option<RoleEntry<'a>>, Trouble>
    ensures asked { AsksFor Full settings.now ports.old ports.new }
    ensures closed { settings.now.view_only ≡ true → ports.new ≡ ports.old }
    ensures entry { IfOk result (λ full. IsFullEntry settings.now full) }
{
    if settings.view_only {
        return Ok(None);
    }
    let full = open(means, settings, ports, Role::Full, desk)?;
    Ok(Some(full))
}

/// Listens for the viewers with full control, if there are to be some, and then for those that only look on, and asks
/// for no other port.
#[tactic(auto, using(crate::proofs::Asking::first_alone, crate::proofs::Asking::both))]
pub(crate) fn open_both<'a, R: Net<Stream = TcpStream, Listener = TcpListener> + Files, G: Log>(
    means: &Means<'_, R, G>,
    settings: &'a Settings,
    ports: &mut Ports,
) -> Result<(Option<RoleEntry<'a>>, RoleEntry<'a>), Trouble>
    ensures asked { AsksForViewers settings.now ports.old ports.new }
    ensures both { IfOk result (λ entries. AreBoth settings.now entries.0 entries.1) }
{
    let desk = desk_of(means.alloc, settings)?;
    let full = open_full(means, settings, ports, &desk)?;
    let view = open(means, settings, ports, Role::View, &desk)?;
    Ok((full, view))
}

/// Where all come in: viewers with full control, if there are to be some, those who only look on, and browsers.
#[derive(Drop)]
pub(crate) struct Entrances<'a> {
    pub(crate) full: Option<RoleEntry<'a>>,
    pub(crate) view: RoleEntry<'a>,
    pub(crate) web: Vec<WebEntry>,
}

/// Reads the files for browsers, and then listens for all.
#[tactic(auto, using(crate::proofs::Asking::none, crate::proofs::Asking::viewers_alone, crate::proofs::Asking::all))]
pub(crate) fn open_all<'a, R, G>(
    means: &Means<'_, R, G>,
    settings: &'a Settings,
    ports: &mut Ports,
) -> Result<Entrances<'a>, Trouble>
where
    R: Net<Stream = TcpStream, Listener = TcpListener> + Files + AllocGlobal + Copy + Drop,
    G: Log,
    ensures asked { AsksForPeople settings.now ports.old ports.new }
    ensures both { IfOk result (λ entrances. AreBoth settings.now entrances.full entrances.view) }
    ensures null { IfOk result (λ entrances.
        All (λ entry. ¬ (LetsNullIn entry)) entrances.web.items) }
{
    let files = files_of(*means.rt, means.alloc, settings)?;
    let (full, view) = open_both(means, settings, ports)?;
    let web = open_webs(means, settings, ports, (&full, &view), &files)?;
    Ok(Entrances { full, view, web })
}
