//! What is counted of a run.

ghost use Rattle.std.specs.Prelude.{◌≡◌};
ghost use Rattle.run_reports.specs.EventCounts.{after, fewer, more, nothing};

use crate::counters::ByRole;
use roles::Role;

/// What happens at the doors and at the host, as far as it is counted.
#[derive(Clone, Copy, Debug, PartialEq, Eq)]
pub enum CountedEvent {
    /// A host was joined.
    Joined,
    /// The host has ended, or wasn't joined.
    HostLeft,
    /// A viewer of this role has a place.
    Came(Role),
    /// A viewer of this role has left its place.
    Left(Role),
    /// A viewer that came by this role's port was refused.
    Refused(Role),
}

/// What has happened in a run. A count that has reached the greatest number of 64 bits stays there.
#[derive(Clone, Copy, Debug)]
pub struct EventCounts {
    /// Whether a host is joined.
    pub is_joined: bool,
    /// How many hosts were joined.
    pub joins: u64,
    /// How many viewers have a place.
    pub viewers: ByRole,
    /// How many viewers came.
    pub came: ByRole,
    /// How many viewers were refused.
    pub refused: ByRole,
}

const NONE: ByRole = ByRole { full: 0, view: 0 };

/// The numbers with one more of a role.
fn more(numbers: ByRole, role: Role) -> ByRole
    ensures { result ≡ more numbers role }
{
    match role {
        Role::Full => ByRole {
            full: numbers.full.saturating_add(1),
            ..numbers
        },
        Role::View => ByRole {
            view: numbers.view.saturating_add(1),
            ..numbers
        },
    }
}

/// The numbers with one fewer of a role.
fn fewer(numbers: ByRole, role: Role) -> ByRole
    ensures { result ≡ fewer numbers role }
{
    match role {
        Role::Full => ByRole {
            full: numbers.full.saturating_sub(1),
            ..numbers
        },
        Role::View => ByRole {
            view: numbers.view.saturating_sub(1),
            ..numbers
        },
    }
}

impl EventCounts {
    /// The counts of a run in which nothing has happened.
    pub fn new() -> EventCounts
        ensures { result ≡ nothing }
    {
        EventCounts {
            is_joined: false,
            joins: 0,
            viewers: NONE,
            came: NONE,
            refused: NONE,
        }
    }

    /// Counts that this has happened.
    pub fn note(&mut self, happening: CountedEvent)
        ensures { self.new ≡ after self.old happening }
    {
        match happening {
            CountedEvent::Joined => {
                self.is_joined = true;
                self.joins = self.joins.saturating_add(1);
            }
            CountedEvent::HostLeft => self.is_joined = false,
            CountedEvent::Came(role) => {
                self.viewers = more(self.viewers, role);
                self.came = more(self.came, role);
            }
            CountedEvent::Left(role) => self.viewers = fewer(self.viewers, role),
            CountedEvent::Refused(role) => self.refused = more(self.refused, role),
        }
    }
}
