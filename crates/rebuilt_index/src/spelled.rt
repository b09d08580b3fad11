//! The file of an index.

ghost use Rattle.std.specs.Prelude.{◌≡◌, ◌++◌, length, take, IfOk};
ghost use Rattle.recording_index.specs.IndexBytes.{entries_bytes, index_bytes, line};

use recording_index::{ENTRY_LEN, INDEX_LINE, KeyMoment, write_moment};
use std::alloc::{AllocError, Global};

/// The bytes of the index with these key moments: its line, and then the entry of each. It fails where memory is
/// refused.
pub fn index_file(alloc: Global, moments: &[KeyMoment]) -> Result<Vec<u8>, AllocError>
    ensures { IfOk result (λ file. file.items ≡ index_bytes moments.now) }
{
    let mut file = Vec::new(alloc);
    file.extend_from_slice(&INDEX_LINE)?;
    for moment in moments {
        let mut entry = [0; ENTRY_LEN];
        write_moment(*moment, &mut entry);
        file.extend_from_slice(&entry)?;
    }
    Ok(file)
}
