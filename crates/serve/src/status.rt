//! Exit statuses.

ghost use Rattle.std.specs.Prelude.{◌≡◌};
ghost use Rattle.serve.specs.Statuses.{IsStatus, status_for};

use fault::Fault;

/// The exit status of a run that ended so: 0 where the host ended between two messages, 4 where memory was refused, and
/// 3 for every other fault.
pub(crate) fn status_of(ended: &Result<(), Fault>) -> u8
    ensures status { result ≡ status_for ended.now }
    ensures range { IsStatus result }
{
    match ended {
        Ok(()) => 0,
        Err(Fault::Memory) => 4,
        Err(_) => 3,
    }
}
