//! Hosts that are recordings.

ghost use Rattle.std.specs.Prelude.{List, ℕ, IfNone, IfSome};
ghost use Rattle.settings.specs.Recordings.{PlaysFrom};

/// How the text of a host begins where the host is a recording.
const FILE: &str = "file:";

/// The path of the recording, where this text of a host names one.
pub fn recording_path(text: &str) -> Option<&str>
    ensures some { IfSome result (λ path. PlaysFrom text.now path.now) }
    ensures none { IfNone result ((path : List ℕ) → ¬ PlaysFrom text.now path) }
{
    text.strip_prefix(FILE)
}
