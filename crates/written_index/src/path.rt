//! The path of an index.

ghost use Rattle.std.specs.Prelude.{IfOk};
ghost use Rattle.std.specs.String.{string_bytes};
ghost use Rattle.written_index.specs.Paths.{IsIndexPath};

use std::alloc::{AllocError, Global};

/// How the name of a recording ends, and what stands in its place in the name of its index.
const RECORDING_END: &str = ".fbs";

const INDEX_END: &str = ".fbi";

/// The path of the index of a recording at this path: the same, with `.fbi` for the `.fbs` at its end, or behind it. It
/// fails where memory is refused.
pub fn index_path(alloc: Global, recording: &str) -> Result<String, AllocError>
    ensures { IfOk result (λ index. IsIndexPath recording.now (string_bytes index)) }
{
    let stem = recording.strip_suffix(RECORDING_END).unwrap_or(recording);
    let mut path = String::from_str(alloc, stem)?;
    path.push_str(INDEX_END)?;
    Ok(path)
}
