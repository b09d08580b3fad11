//! The sockets by which links send and receive.

ghost use Rattle.std.specs.Prelude.{◌≡◌, ℕ, List, ◌++◌};
ghost use Rattle.std.specs.Io.{ReadsAtMost, WritesAtMost};
ghost use Rattle.connections.specs.Wires.{moved};

use std::io;
use std::time::Duration;

/// A stream to a peer. It is known what has gone over it.
pub trait Socket: Drop {
    /// All bytes that it has sent, in order.
    ghost sent: { Self → List ℕ };

    /// All bytes that it has received, in order.
    ghost received: { Self → List ℕ };

    /// Sends the first of these bytes, and answers how many they are.
    fn send(&mut self, bytes: &[u8]) -> io::Result<usize>
        ensures bound { WritesAtMost result bytes.now }
        ensures sent { sent self.new ≡ sent self.old ++ moved result bytes.now }
        ensures received { received self.new ≡ received self.old };

    /// Sends the first of the bytes of both slices at once, those of `first` before those of `second`, and answers how
    /// many they are.
    fn send_both(&mut self, first: &[u8], second: &[u8]) -> io::Result<usize>
        ensures bound { WritesAtMost result (first.now ++ second.now) }
        ensures sent { sent self.new ≡ sent self.old ++ moved result (first.now ++ second.now) }
        ensures received { received self.new ≡ received self.old };

    /// Receives bytes into the front of the slice, and answers how many they are.
    fn receive(&mut self, into: &mut [u8]) -> io::Result<usize>
        ensures bound { ReadsAtMost result into.new }
        ensures received { received self.new ≡ received self.old ++ moved result into.new }
        ensures sent { sent self.new ≡ sent self.old };
}

/// A host's socket: its receives can be limited in time, and it can be closed.
pub trait HostSocket: Socket {
    /// From now on no `receive` lasts longer than this, if there is a limit.
    fn limit(&self, longest: Option<Duration>) -> io::Result<()>;

    /// Closes both directions. Each send and each receive fails from now on.
    fn close(&mut self)
        ensures sent { Self.sent self.new ≡ Self.sent self.old }
        ensures received { Self.received self.new ≡ Self.received self.old };
}
