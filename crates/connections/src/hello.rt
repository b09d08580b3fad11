//! How long a viewer's side of the handshake may take.

ghost use Rattle.std.specs.Prelude.{◌≡◌, ◌-◌};
ghost use Rattle.std.specs.Duration.{as_nanos};
ghost use Rattle.connections.specs.Hello.{IsPatience};

use std::time::Duration;

/// The bytes of a viewer's side of the handshake: its version, its choice and its shared-flag (RFC 6143, 7.1.1, 7.1.2,
/// 7.3.1).
pub(crate) const HELLO_LEN: usize = 14;

/// The seconds that either side of a handshake may take: a viewer's, and a host's whole one.
pub(crate) const HELLO_SECONDS: u64 = 10;

/// How long a wait for a viewer may last.
#[derive(Clone, Copy, Drop)]
pub(crate) enum Patience {
    /// At most this long: the seconds for the hello aren't over.
    AtMost(Duration),
    /// Without an end: the hello has come.
    Endless,
    /// No wait: the hello is late.
    Over,
}

/// How long a wait may last where `missing` bytes of the hello are missing, this long after the viewer came. A wait
/// that begins within the seconds for the hello never outlasts these, even where no byte is missing here. For the bytes
/// may carry messages in which some of the hello is still missing, and the link that counts those bytes looks again
/// then.
pub(crate) fn longest_wait(missing: usize, passed: Duration) -> Patience
    ensures { IsPatience result missing (as_nanos passed) }
{
    match Duration::from_secs(HELLO_SECONDS).checked_sub(passed) {
        Some(left) if !left.is_zero() => Patience::AtMost(left),
        _ if missing == 0 => Patience::Endless,
        _ => Patience::Over,
    }
}
