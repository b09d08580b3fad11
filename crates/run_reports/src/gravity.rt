//! How grave a line of the log is.

ghost use Rattle.std.specs.Prelude.{◌≡◌};
ghost use Rattle.run_reports.specs.Lines.{prefix_for};

/// How grave a line of the log is, as the journal of systemd counts it.
#[derive(Clone, Copy, Debug, PartialEq, Eq)]
pub enum Gravity {
    /// The run ends by a fault.
    Fault,
    /// A host has ended or wasn't joined, or a port is open to all.
    Warning,
    /// Every other line.
    Plain,
}

/// What stands before a line of this gravity: its number in angle brackets where the journal reads it (sd-daemon(3)),
/// and nothing elsewhere. A plain line has no number, since the journal takes a line without one as plain.
pub fn prefix_of(gravity: Gravity, is_journal: bool) -> &'static str
    ensures { result.now ≡ prefix_for gravity is_journal }
{
    match gravity {
        Gravity::Fault if is_journal => "<3>",
        Gravity::Warning if is_journal => "<4>",
        _ => "",
    }
}
