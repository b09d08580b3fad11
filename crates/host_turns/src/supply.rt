//! Where further hosts come from.

ghost use Rattle.std.specs.Prelude.{◌≡◌, None, IfSome, IsNone};
ghost use Rattle.run_traits.specs.Unused.{unused};

use fault::Fault;
use link::Link;
use rfb_wire::Joined;

/// The two ends of a host's connection.
#[derive(Drop)]
pub struct HostEnds<L: Link> {
    /// The end to be read. Over it the host is joined, so it has to limit the time for the handshake.
    pub reader: L,
    /// The end to be written, over which nothing was given yet.
    pub writer: L,
    /// Whether the host has called. Otherwise it was connected to.
    pub has_called: bool,
}

/// Where the hosts come from that follow one that has ended. It is asked in the thread that reads the hosts.
pub trait Hosts<L: Link>: Drop {
    ghost use Rattle.std.specs.Prelude.{ℕ, Bool, Option};

    /// The fact that this end came, just as it is, with the connection of a host, which had called or not; it is the
    /// end to be read. Only `next` says so, and each supply says what it means.
    ghost came: { (has_called : Bool) → L → Type 0 };

    /// The fact that no host is left. Only `next` says so, and each supply says what it means.
    ghost are_out: { Self → Type 0 };

    /// The number of seconds after which the first host has its turn again, once the last has had its own; `None` where
    /// it never has one again. No call changes this. Where the first host has its turn again there is always a next
    /// host.
    ghost again: { Self → Option ℕ };

    /// The connection of the next host, or `None` where no host is left. It may wait without an end.
    fn next(&mut self) -> Option<HostEnds<L>>
        ensures came { IfSome result (λ host. came host.has_called host.reader) }
        ensures fresh { IfSome result (λ host. L.state host.writer ≡ unused) }
        ensures out { IsNone result → are_out self.new }
        ensures never { IsNone result → again self.old ≡ None }
        ensures again { again self.new ≡ again self.old };

    /// A host was joined, and its screen fits into the room. It is read from now on, so a limit of time may be lifted.
    fn joined(&mut self, reader: &mut L, host: &Joined)
        ensures link { L.state reader.new ≡ L.state reader.old }
        ensures again { again self.new ≡ again self.old };

    /// Is told of each host once it is left, and why. A host, the first one included, may have been read to its end, it
    /// may not have been joined, or its screen may not have fitted into the room (`BadScreen`).
    fn left(&mut self, reader: &mut L, why: Result<(), Fault>)
        ensures link { L.state reader.new ≡ L.state reader.old }
        ensures again { again self.new ≡ again self.old };
}

/// A supply of no further hosts: the run ends with its first one.
#[derive(Clone, Copy, Drop)]
pub struct NoHosts;

impl<L: Link> Hosts<L> for NoHosts {
    ghost use Rattle.std.specs.Prelude.{⊤, None};

    ghost came = { λ _ _. ⊤ };

    ghost are_out = { λ _. ⊤ };

    ghost again = { λ _. None };

    fn next(&mut self) -> Option<HostEnds<L>> {
        None
    }

    fn joined(&mut self, _reader: &mut L, _host: &Joined) {}

    fn left(&mut self, _reader: &mut L, _why: Result<(), Fault>) {}
}
