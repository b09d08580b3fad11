//! The ports of a run, and the one place where one is bound. No clause says what the system does with an address.

ghost use Rattle.std.specs.Prelude.{◌≡◌, ◌++◌, ◌∷◌, [], IfOk, OnOk};
ghost use Rattle.serve.specs.Ports.{IsAskedAtMost};

use connections::{Key, RoleListener};
use roles::Role;
use std::alloc::Global;
use std::io;
use std::marker::Model;
use std::net::{IpAddr, Net, SocketAddr, TcpListener, TcpStream};

/// The addresses at which the system was asked for a port, in order.
#[derive(Drop)]
pub struct Ports {
    asked: Vec<SocketAddr>,
}

impl Model for Ports {
    ghost use Rattle.std.specs.Prelude.{List};
    ghost use Rattle.std.specs.declared.net.socket_addr.SocketAddr.{SocketAddr as Address};

    ghost Value = { List Address };

    ghost view = { λ ports. ports.asked.items };
}

impl Ports {
    /// None yet.
    pub fn new(alloc: Global) -> Ports
        ensures { result ≡ [] }
    {
        Ports {
            asked: Vec::new(alloc),
        }
    }

    /// Listens at this address, at which the system is asked for a port. It fails where that is refused, or memory for
    /// the list of what was asked.
    pub(crate) fn listen<R: Net<Stream = TcpStream, Listener = TcpListener>>(
        &mut self,
        rt: &R,
        address: SocketAddr,
    ) -> io::Result<TcpListener>
        ensures ok { OnOk result (self.new ≡ self.old ++ address ∷ []) }
        ensures asked { IsAskedAtMost address self.old self.new }
    {
        self.asked.push(address)?;
        TcpListener::bind(rt, address)
    }
}

/// A listener for the viewers of a role, with the address at which the system was asked for it.
#[derive(Drop)]
pub(crate) struct Bound {
    listener: RoleListener,
    address: SocketAddr,
}

impl Bound {
    /// Listens at this address for the viewers of this role, who come by a port with this key. The headers of this
    /// proxy are believed there, if one is given. It fails where the system refuses that, or memory for the list of
    /// what was asked.
    pub(crate) fn at<R: Net<Stream = TcpStream, Listener = TcpListener>>(
        rt: &R,
        ports: &mut Ports,
        address: SocketAddr,
        role: Role,
        key: Key,
        proxy: Option<IpAddr>,
    ) -> io::Result<Bound>
        ensures address { IfOk result (λ bound. bound.address ≡ address) }
        ensures role { IfOk result (λ bound. bound.listener.role ≡ role) }
        ensures key { IfOk result (λ bound. bound.listener.key ≡ key) }
        ensures proxy { IfOk result (λ bound. bound.listener.proxy ≡ proxy) }
        ensures ok { OnOk result (ports.new ≡ ports.old ++ address ∷ []) }
        ensures asked { IsAskedAtMost address ports.old ports.new }
    {
        let socket = ports.listen(rt, address)?;
        Ok(Bound {
            listener: RoleListener::new(socket, role).with_key(key).behind(proxy),
            address,
        })
    }

    /// The listener, with the role and the proxy, for whoever owns it from now on.
    pub(crate) fn into_listener(self) -> RoleListener
        ensures { result ≡ self.listener }
    {
        self.listener
    }
}
