//! From the file of a recording to the file of its index.

ghost use Rattle.std.specs.Prelude.{◌≡◌, [], IfOk, IfErr, OnOk};
ghost use Rattle.recording.specs.BlockReading.{blocks_in};
ghost use Rattle.rebuilt_index.specs.Failing.{HasNoIndex};
ghost use Rattle.written_index.specs.Failing.{IsNotWritten, IsToldOf};
ghost use Rattle.written_index.specs.Written.{IsIndexFile, IsWritten};

use crate::error::IndexError;
use crate::new_file::{FileAt, NewFile};
use crate::path::index_path;
use playback::Recorded;
use rebuilt_index::{BadRebuild, index_file, rebuild_index};
use show::RecordingFile;
use std::alloc::Global;
use std::fs;
use std::rt::Files;
use std::sync::Wait;

/// The bytes of the index of a recording, whose file is at its beginning and is read to its end. It fails as
/// `rebuilt_index::rebuild_index` does, and where memory is refused for the bytes.
pub fn index_of<F: Recorded, R: Wait>(
    rt: &R,
    alloc: Global,
    file: &mut F,
) -> Result<Vec<u8>, BadRebuild>
    requires start { F.start file.old ≡ 0 }
    requires none { F.so_far file.old ≡ [] }
    ensures ok { IfOk result (λ index. IsIndexFile (blocks_in (F.so_far file.new)) index.items) }
    ensures all { OnOk result (F.is_all 0 (F.so_far file.new)) }
    ensures err { IfErr result (λ bad. HasNoIndex F.has_failed bad (F.so_far file.new)) }
{
    let moments = rebuild_index(rt, alloc, file)?;
    let index = index_file(alloc, moments.as_slice())?;
    Ok(index)
}

/// Writes the index of a recording, whose file is at its beginning, into a new file, once all of the recording was
/// read. It fails with `Rebuild` where that can't be read on or its session is at fault, with `Memory` where memory is
/// refused, with `HasIndex` where the new file is there already, and with `Output` where it can't be written.
pub fn write_into<F: Recorded, N: NewFile, R: Wait>(
    rt: &R,
    alloc: Global,
    recording: &mut F,
    file: &mut N,
) -> Result<(), IndexError>
    requires start { F.start recording.old ≡ 0 }
    requires none { F.so_far recording.old ≡ [] }
    ensures ok { OnOk result (IsWritten N.has (F.so_far recording.new)) }
    ensures all { OnOk result (F.is_all 0 (F.so_far recording.new)) }
    ensures err { IfErr result (λ error. IsNotWritten F.has_failed N.is_there N.has_failed error
        (F.so_far recording.new)) }
{
    let index = index_of(rt, alloc, recording)?;
    file.make(index.as_slice())
}

/// Writes the index of the recording at a path into a new file beside it (`index_path`), once all of the recording was
/// read. It fails with `Input` where the recording can't be opened, with `HasIndex` where there is a file at the
/// index's path, which stays as it is, and otherwise as `write_into` does. After an error no new file is there, but
/// where the system refuses to take away a part that it has written.
pub fn write_index<R: Files + Wait>(
    rt: &R,
    alloc: Global,
    recording: &str,
) -> Result<(), IndexError>
    ensures { IfErr result (λ error. IsToldOf error) }
{
    let path = index_path(alloc, recording)?;
    let opened = fs::open(rt, recording).map_err(IndexError::Input)?;
    let mut from = RecordingFile::new(opened);
    let mut to = FileAt::new(rt, path.as_str());
    write_into(rt, alloc, &mut from, &mut to)
}
