//! Listeners of a role, and the newcomers that come by them.

ghost use Rattle.std.specs.Prelude.{◌≡◌, ◌↔◌, IfOk, IfSome, IsTrue, None, Ok, Some, [], false};
ghost use Rattle.connections.specs.declared.key.Key.TheVariants.{Open};
ghost use Rattle.connections.specs.Keys.{HasUnlockedBy, is_locked};
ghost use Rattle.run_traits.specs.declared.event.Way.TheVariants.{Tcp, Web};
ghost use Rattle.connections.specs.Calls.{IsCalledAs};
ghost use Rattle.connections.specs.Greetings.{IsFromProxy, IsGreeted, IsKnown, IsSameComer, untouched};
ghost use Rattle.web_site.specs.Guests.{IsLetIn};

use crate::called::Called;
use crate::greeted::GreetedSocket;
use crate::greeting::Greeting;
use crate::key::Key;
use crate::messages::MessageSocket;
use crate::noted::Noted;
use crate::whence::Whence;
use arrayvec::ArrayVec;
use link::Record;
use roles::Role;
use run_traits::Way;
use std::io;
use std::net::{IpAddr, SocketAddr, TcpListener, TcpStream};
use vnc_auth::CHALLENGE_LEN;
use web_site::Guest;

/// A listener for the viewers of one role, the key of its port, and the proxy whose headers are believed, if one is.
#[derive(Drop)]
pub struct RoleListener {
    socket: TcpListener,
    role: Role,
    key: Key,
    proxy: Option<IpAddr>,
}

/// A newcomer that came by a listener, or was called for it: its stream, the role and the key of that listener, and
/// where it comes from. Only a listener makes one.
#[derive(Drop)]
pub struct Arrival {
    stream: TcpStream,
    role: Role,
    key: Key,
    whence: Whence,
}

/// A newcomer that may be let to a lobby: its socket, its role, the key of the port that it came by, how its bytes
/// travel, and its address, if anyone told it. Over TCP it has said its version, and was told ours; at a locked port it
/// has answered its own challenge, too, over TCP or in messages. Only a newcomer that came by a listener becomes one.
#[derive(Drop)]
pub struct Entrant {
    socket: GreetedSocket<Noted<mio::net::TcpStream>>,
    role: Role,
    key: Key,
    way: Way,
    address: Option<SocketAddr>,
    ghost unsent: { socket.sent ≡ [] },
    ghost unreceived: { socket.received ≡ [] },
    ghost greeted: { way ≡ Tcp → ∥ IsGreeted key socket ∥₁ },
    ghost unlocked: { ∥ HasUnlockedBy way key socket.said socket.heard ∥₁ },
}

impl RoleListener {
    /// A listener over this socket, for the viewers of this role. Its port is open, and no proxy is believed.
    pub fn new(socket: TcpListener, role: Role) -> RoleListener
        ensures { (result.socket ≡ socket) × (result.role ≡ role) × (result.key ≡ Open)
            × (result.proxy ≡ None) }
    {
        RoleListener {
            socket,
            role,
            key: Key::Open,
            proxy: None,
        }
    }

    /// The same listener, at a port with this key.
    pub fn with_key(self, key: Key) -> RoleListener
        ensures { result ≡ record self { key = key } }
    {
        RoleListener { key, ..self }
    }

    /// The same listener, where the headers of this proxy are believed, if there is one.
    pub fn behind(self, proxy: Option<IpAddr>) -> RoleListener
        ensures { result ≡ record self { proxy = proxy } }
    {
        RoleListener { proxy, ..self }
    }

    /// Its socket.
    pub fn socket(&self) -> &TcpListener
        ensures { result.now ≡ self.now.socket }
    {
        &self.socket
    }

    /// The role of the newcomers that come by it.
    pub fn role(&self) -> Role
        ensures { result ≡ self.now.role }
    {
        self.role
    }

    /// The key of its port.
    pub fn key(&self) -> Key
        ensures { result ≡ self.now.key }
    {
        self.key
    }

    /// The next newcomer, whose connection is over TCP so far. The call waits for it, unless the socket is one that
    /// doesn't wait. A header is wanted from a newcomer that comes from the proxy, and believed. It is wanted from no
    /// other.
    pub fn accept(&self) -> io::Result<Arrival>
        ensures role { IfOk result (λ arrival. arrival.role ≡ self.now.role) }
        ensures key { IfOk result (λ arrival. arrival.key ≡ self.now.key) }
        ensures proxied { IfOk result (λ arrival.
            IsTrue arrival.whence.is_proxied ↔ IsFromProxy self.now.proxy arrival.whence.peer) }
        ensures front { IfOk result (λ arrival. arrival.whence.front ≡ []) }
    {
        let (stream, peer) = self.socket.accept()?;
        Ok(Arrival {
            stream,
            role: self.role(),
            key: self.key(),
            whence: Whence::new(Some(peer), &self.proxy),
        })
    }

    /// A viewer that was called, as a newcomer to this listener's port. It is `None` for one that was called in another
    /// role. The caller of this role calls none of those, but its lock can't keep that for the proof.
    pub(crate) fn take_in(&self, called: Called) -> Option<Arrival>
        ensures role { IfSome result (λ arrival. arrival.role ≡ self.now.role) }
        ensures key { IfSome result (λ arrival. arrival.key ≡ self.now.key) }
        ensures called { IfSome result (λ arrival. IsCalledAs called arrival) }
    {
        if called.role() != self.role {
            return None;
        }
        let whence = Whence::of_address(Some(called.address()));
        Some(Arrival {
            role: called.role(),
            stream: called.into_stream(),
            key: self.key,
            whence,
        })
    }
}

impl Arrival {
    /// The role of the listener that it came by.
    pub fn role(&self) -> Role
        ensures { result ≡ self.now.role }
    {
        self.role
    }

    /// The key of that listener's port.
    pub fn key(&self) -> Key
        ensures { result ≡ self.now.key }
    {
        self.key
    }

    /// Its stream.
    pub fn stream(&self) -> &TcpStream
        ensures { result.now ≡ self.now.stream }
    {
        &self.stream
    }

    /// Where it comes from.
    pub fn whence(&self) -> &Whence
        ensures { result.now ≡ self.now.whence }
    {
        &self.whence
    }

    /// Takes the next byte of a proxy's header.
    pub(crate) fn feed(&mut self, byte: u8)
        ensures role { self.new.role ≡ self.old.role }
        ensures key { self.new.key ≡ self.old.key }
        ensures same { IsSameComer self.old.whence self.new.whence }
    {
        self.whence.feed(byte);
    }

    /// Its greeting, over TCP, with a challenge of its own. Its stream has to be one that doesn't wait.
    pub(crate) fn into_greeting(
        self,
        challenge: [u8; CHALLENGE_LEN],
    ) -> Greeting<Noted<mio::net::TcpStream>>
        requires { self.whence.front ≡ [] }
        ensures whence { result.whence ≡ self.whence }
        ensures key { result.key ≡ self.key }
    {
        let stream = mio::net::TcpStream::from_std(self.stream);
        Greeting::new(Noted::new(stream), self.whence, self.key, challenge)
    }

    /// Its greeting in messages, with a challenge of its own, if this guest's handshake let it in. It is `None` where
    /// the handshake didn't, or where the address isn't known yet. Its stream has to be one that doesn't wait.
    pub(crate) fn ask_in_messages(
        self,
        guest: Guest,
        challenge: [u8; CHALLENGE_LEN],
    ) -> Option<Greeting<MessageSocket<Noted<mio::net::TcpStream>>>>
        ensures key { IfSome result (λ greeting. greeting.key ≡ self.key) }
        ensures challenge { IfSome result (λ greeting. greeting.challenge ≡ challenge) }
        ensures handshake { IfSome result (λ _. ∥ IsLetIn guest ∥₁) }
        ensures address { IfSome result (λ greeting.
            IsKnown self.whence (Some (Ok greeting.whence.peer))) }
        ensures direct { IfSome result (λ greeting. greeting.whence.is_proxied ≡ false) }
    {
        let Some(Ok(address)) = self.whence.known() else {
            return None;
        };
        let is_let_in = guest.is_let_in();
        if !is_let_in {
            return None;
        }
        let stream = mio::net::TcpStream::from_std(self.stream);
        let messages = MessageSocket::new(Noted::new(stream));
        let whence = Whence::of_address(address);
        Some(Greeting::new(messages, whence, self.key, challenge))
    }

    /// The same newcomer as one that may be let to a lobby, whose bytes travel in messages, if this guest's handshake
    /// let it in. It is `None` where the handshake didn't, where the address isn't known yet, or where its port is
    /// locked, so that a password is asked for first.
    pub fn let_in(self, guest: Guest) -> Option<Entrant>
        ensures role { IfSome result (λ entrant. entrant.role ≡ self.role) }
        ensures key { IfSome result (λ entrant. entrant.key ≡ self.key) }
        ensures open { IfSome result (λ _. self.key ≡ Open) }
        ensures way { IfSome result (λ entrant. entrant.way ≡ Web) }
        ensures handshake { IfSome result (λ _. ∥ IsLetIn guest ∥₁) }
        ensures address { IfSome result (λ entrant.
            IsKnown self.whence (Some (Ok entrant.address))) }
        ensures socket { IfSome result (λ entrant. entrant.socket ≡ untouched) }
    {
        if !guest.is_let_in() {
            return None;
        }
        if self.key.is_locked() {
            return None;
        }
        let Some(Ok(address)) = self.whence.known() else {
            return None;
        };
        let stream = mio::net::TcpStream::from_std(self.stream);
        Some(Entrant {
            socket: GreetedSocket::new(Noted::new(stream)),
            role: self.role,
            key: Key::Open,
            way: Way::Web,
            address,
        })
    }
}

impl Entrant {
    /// A newcomer whose own version has come over TCP and, at a locked port, the answer to its challenge, in a greeting
    /// by a listener of this role. It is `None` where that hasn't come.
    pub(crate) fn greeted(
        role: Role,
        greeting: Greeting<Noted<mio::net::TcpStream>>,
    ) -> Option<Entrant>
        ensures role { IfSome result (λ entrant. entrant.role ≡ role) }
        ensures key { IfSome result (λ entrant. entrant.key ≡ greeting.key) }
        ensures way { IfSome result (λ entrant. entrant.way ≡ Tcp) }
        ensures address { IfSome result (λ entrant.
            IsKnown greeting.whence (Some (Ok entrant.address))) }
    {
        let key = greeting.key();
        let (socket, address) = greeting.done()?;
        Some(Entrant {
            socket,
            role,
            key,
            way: Way::Tcp,
            address,
        })
    }

    /// A newcomer that was greeted in messages, by a listener of this role: its own version has come and, at a locked
    /// port, the answer to its challenge. It is `None` where that hasn't come, and where the message that brought it
    /// has more bytes after it.
    #[tactic(auto, using(crate::proofs::Unlocking::carried))]
    pub(crate) fn greeted_in_messages(
        role: Role,
        greeting: Greeting<MessageSocket<Noted<mio::net::TcpStream>>>,
    ) -> Option<Entrant>
        requires direct { greeting.whence.is_proxied ≡ false }
        ensures role { IfSome result (λ entrant. entrant.role ≡ role) }
        ensures key { IfSome result (λ entrant. entrant.key ≡ greeting.key) }
        ensures way { IfSome result (λ entrant. entrant.way ≡ Web) }
        ensures address { IfSome result (λ entrant. entrant.address ≡ greeting.whence.peer) }
    {
        let key = greeting.key();
        greeting.whence().reads_no_other_header();
        let (messages, address) = greeting.done()?;
        let (stream, said, heard) = messages.into_below().into_below()?;
        let front = Record::new();
        // By this socket nothing of the greeting is said or heard again: its link says and hears the frames after the
        // greeting.
        let socket = GreetedSocket::greeted(
            stream,
            front,
            said,
            heard,
            ArrayVec::new(),
            ArrayVec::new(),
        );
        Some(Entrant {
            socket,
            role,
            key,
            way: Way::Web,
            address,
        })
    }

    /// The role of the listener that it came by.
    pub fn role(&self) -> Role
        ensures { result ≡ self.now.role }
    {
        self.role
    }

    /// It does nothing. Its clause says that nobody becomes an entrant of a locked port without the answer to its own
    /// challenge: the version and a challenge were said to the entrant, and it has answered that challenge as only
    /// someone can who knows the password. Where its bytes travel in messages, this is true of the data of the frames.
    pub fn has_unlocked(&self)
        ensures { ∥ HasUnlockedBy self.now.way self.now.key
            self.now.socket.said self.now.socket.heard ∥₁ }
    {
        let _ = &self.way;
    }

    /// Whether the port that it came by has a password.
    pub fn is_locked(&self) -> bool
        ensures { result ≡ is_locked self.now.key }
    {
        self.key.is_locked()
    }

    /// How its bytes travel.
    pub fn way(&self) -> Way
        ensures { result ≡ self.now.way }
    {
        self.way
    }

    /// Its address, if anyone told it.
    pub fn address(&self) -> Option<SocketAddr>
        ensures { result ≡ self.now.address }
    {
        self.address
    }

    /// Its socket, for a link.
    pub(crate) fn into_socket(self) -> GreetedSocket<Noted<mio::net::TcpStream>>
        ensures { result ≡ self.socket }
    {
        self.socket
    }
}
