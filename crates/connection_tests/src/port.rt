//! A port over TCP whose lobby has one place, and the door of that place.

ghost use Rattle.std.specs.Prelude.{◌≡◌, IfOk};
ghost use Rattle.std.specs.Arc.{arc_value};
ghost use Rattle.roles.specs.declared.role.Role.TheVariants.{Full};
ghost use Rattle.connections.specs.Doors.{role_behind};

use crate::sockets::{listen, make_seat};
use connections::{Desk, Key, Lobby, RoleListener, TcpDoor, TcpEntry, TcpPorter};
use roles::Role;
use run_traits::Log;
use std::alloc::Global;
use std::io;
use std::net::{IpAddr, SocketAddr};
use std::sync::{Arc, Wait};
use std::time::Clock;

/// A lobby with one place, for viewers with full control, who come by a port with this key.
pub(crate) fn make_lobby(alloc: Global, key: Key) -> io::Result<Arc<Lobby, Global>>
    ensures { IfOk result (λ lobby. (arc_value lobby).role ≡ Full) }
{
    let desk = Arc::new(alloc, Desk::new(alloc, 1)?)?;
    Ok(Arc::new(alloc, Lobby::new(alloc, Role::Full, key, 1, 60, desk)?)?)
}

/// Where a new port listens whose viewers come to this lobby, and its porter. The headers of this proxy are believed,
/// if there is one.
pub(crate) fn make_porter(
    net: &HostRuntime,
    lobby: &Arc<Lobby, Global>,
    proxy: Option<IpAddr>,
) -> io::Result<(SocketAddr, TcpPorter)>
    requires { (arc_value lobby.now).role ≡ Full }
{
    let socket = listen(net)?;
    let address = socket.local_addr()?;
    let listener = RoleListener::new(socket, Role::Full)
        .with_key(lobby.key())
        .behind(proxy);
    let entry = TcpEntry::new(listener, Arc::try_clone(lobby)?)?;
    Ok((address, TcpPorter::new(net, net.alloc(), entry)?))
}

/// The door of the place, which tells this log who comes and who leaves.
pub(crate) fn make_door<R: Wait + Clock + Drop, G: Log + Drop>(
    rt: R,
    net: &HostRuntime,
    lobby: &Arc<Lobby, Global>,
    log: G,
) -> io::Result<TcpDoor<R, G>>
    ensures { IfOk result (λ door. role_behind door ≡ (arc_value lobby.now).role) }
{
    let seat = make_seat(net)?;
    let lobby = Arc::try_clone(lobby)?;
    Ok(TcpDoor::new(rt, net.alloc(), lobby, seat, 1, log))
}
