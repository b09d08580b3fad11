//! Listening for viewers.

ghost use Rattle.std.specs.Prelude.{◌≡◌, ◌++◌, ◌∷◌, [], IfOk};
ghost use Rattle.std.specs.Arc.{arc_value};
ghost use Rattle.std.specs.Net.Socket.{socket_port};
ghost use Rattle.settings.specs.Addresses.{IsAddressFor, IsProxyFor};
ghost use Rattle.settings.specs.ByRole.{port_for};
ghost use Rattle.serve.specs.Locks.{IsKeyFor};
ghost use Rattle.serve.specs.Ports.{AsksFor};

use crate::bound::{Bound, Ports};
use crate::means::Means;
use crate::password::key_of;
use crate::trouble::{Stage, Trouble};
use connections::{Desk, Key, Lobby};
use fault::Fault;
use roles::Role;
use run_traits::{Event, Log, Way};
use settings::{Settings, address_of, places_of, proxy_of};
use std::alloc::Global;
use std::net::{Net, SocketAddr, TcpListener, TcpStream};
use std::rt::Files;
use std::sync::Arc;

/// Where the viewers of a role come in, and the lobby to which they are let. It listens at the port that the settings
/// have for the role of that lobby, and is locked where they say so.
#[derive(Drop)]
pub(crate) struct RoleEntry<'a> {
    pub(crate) settings: &'a Settings,
    pub(crate) bound: Bound,
    pub(crate) lobby: Arc<Lobby, Global>,
    pub(crate) ghost port: { socket_port bound.address
        ≡ port_for (arc_value lobby).role settings.now },
    pub(crate) ghost proxy: { ∥ IsProxyFor settings.now bound.listener.proxy ∥₁ },
    pub(crate) ghost role: { bound.listener.role ≡ (arc_value lobby).role },
    pub(crate) ghost key: { bound.listener.key ≡ (arc_value lobby).key },
    pub(crate) ghost lock: { IsKeyFor (arc_value lobby).role settings.now (arc_value lobby).key },
}

/// Tells the log that the viewers of a role can connect at this address, by a port with this key. Where other machines
/// may reach it, and whoever does has full control, the log is told so, too.
pub(crate) fn announce<G: Log>(
    log: &G,
    role: Role,
    key: &Key,
    address: SocketAddr,
    places: u64,
    way: Way,
) {
    log.note(&Event::Listening {
        role,
        address,
        places,
        way,
    });
    let is_kept = key.is_locked() || address.ip().is_loopback();
    match role {
        Role::Full if !is_kept => log.note(&Event::OpenToAll { address, way }),
        _ => {}
    }
}

/// Listens for the viewers of a role, where the settings say, and tells the log where. A file with their password is
/// read before.
#[tactic(auto, using(crate::proofs::Asking::asks_for))]
pub(crate) fn open<'a, R: Net<Stream = TcpStream, Listener = TcpListener> + Files, G: Log>(
    means: &Means<'_, R, G>,
    settings: &'a Settings,
    ports: &mut Ports,
    role: Role,
    desk: &Arc<Desk, Global>,
) -> Result<RoleEntry<'a>, Trouble>
    ensures asked { AsksFor role settings.now ports.old ports.new }
    ensures settings { IfOk result (λ entry. entry.settings.now ≡ settings.now) }
    ensures address { IfOk result (λ entry. IsAddressFor role settings.now entry.bound.address) }
    ensures role { IfOk result (λ entry. (arc_value entry.lobby).role ≡ role) }
    ensures key { IfOk result (λ entry. IsKeyFor role settings.now entry.bound.listener.key) }
    ensures proxy { IfOk result (λ entry. IsProxyFor settings.now entry.bound.listener.proxy) }
    ensures stalled { IfOk result (λ entry.
        (arc_value entry.lobby).stalled ≡ settings.now.stalled) }
{
    let alloc = means.alloc;
    let places = places_of(settings, role);
    let Ok(address) = address_of(settings, role) else {
        return Err(Trouble::new(Stage::ReadBind(role), Fault::LinkFailed));
    };
    let Ok(proxy) = proxy_of(settings) else {
        return Err(Trouble::new(Stage::ReadProxy, Fault::LinkFailed));
    };
    let key = key_of(means.rt, alloc, settings, role)?;
    let bound = match Bound::at(means.rt, ports, address, role, key, proxy) {
        Ok(bound) => bound,
        Err(error) => return Err(Trouble::of(Stage::Listen(role), error)),
    };
    let Ok(desk) = Arc::try_clone(desk) else {
        return Err(Trouble::new(Stage::Start, Fault::Memory));
    };
    let Ok(lobby) = Lobby::new(alloc, role, key, places, settings.stalled, desk) else {
        return Err(Trouble::new(Stage::Start, Fault::Memory));
    };
    let Ok(lobby) = Arc::new(alloc, lobby) else {
        return Err(Trouble::new(Stage::Start, Fault::Memory));
    };
    announce(means.log, role, &key, address, places, Way::Tcp);
    Ok(RoleEntry {
        settings,
        bound,
        lobby,
    })
}
