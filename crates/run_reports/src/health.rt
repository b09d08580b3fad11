//! What a balancer is told.

ghost use Rattle.std.specs.Prelude.{◌≡◌};
ghost use Rattle.run_reports.specs.Healths.{health_for, is_full, is_taken, word_for};

use crate::counters::Counters;
use roles::Role;

/// Whether a viewer that comes now would be served, and why not.
#[derive(Clone, Copy, Debug, PartialEq, Eq)]
pub enum Health {
    /// It would be served.
    Ready,
    /// No host is joined.
    NoHost,
    /// An operator lets nobody in.
    Drained,
    /// All places that the viewer could have are taken.
    Full,
}

/// Whether no place of a role is free.
fn is_taken(counters: &Counters, role: Role) -> bool
    ensures { result ≡ is_taken counters.now role }
{
    match role {
        Role::Full => counters.viewers.full >= counters.places.full,
        Role::View => counters.viewers.view >= counters.places.view,
    }
}

/// Whether no place of this role is free; or, where no role is named, no place of either role.
fn is_full(counters: &Counters, role: Option<Role>) -> bool
    ensures { result ≡ is_full counters.now role }
{
    match role {
        Some(role) => is_taken(counters, role),
        None => is_taken(counters, Role::Full) && is_taken(counters, Role::View),
    }
}

/// The health of a run with these numbers, whose doors an operator has drained or hasn't, for a viewer of this role, or
/// of either.
pub fn health_of(counters: &Counters, is_drained: bool, role: Option<Role>) -> Health
    ensures { result ≡ health_for counters.now is_drained role }
{
    if !counters.is_joined {
        Health::NoHost
    } else if is_drained {
        Health::Drained
    } else if is_full(counters, role) {
        Health::Full
    } else {
        Health::Ready
    }
}

/// The line that tells a health.
pub fn health_word(health: Health) -> &'static str
    ensures { result.now ≡ word_for health }
{
    match health {
        Health::Ready => "ready\n",
        Health::NoHost => "no host\n",
        Health::Drained => "drained\n",
        Health::Full => "full\n",
    }
}
