//! The index beside a recording, and the key moment at which a player begins.

ghost use Rattle.std.specs.Prelude.{◌≡◌, ◌≢◌, Err, Ok, Some};
ghost use Rattle.player.specs.declared.index.UnusedIndex.TheVariants.{OtherRecording};

use recording_index::{BadIndex, Index, KeyMoment};
use std::alloc::Global;
use std::fs;
use std::io::{ErrorKind, Read, Seek, SeekFrom};
use std::rt::Files;
use thiserror::Error;

/// How the name of a recording ends, and what stands in its place in the name of its index.
const RECORDING_END: &str = ".fbs";

const INDEX_END: &str = ".fbi";

/// Why the index beside a recording isn't used, so that the recording is heard from its beginning on.
#[derive(Clone, Copy, Debug, Error)]
pub enum UnusedIndex {
    /// It can't be read: this is what the system said.
    #[error("the index can not be read: {0}")]
    Unreadable(ErrorKind),
    /// It is no index, or memory is refused for it.
    #[error("{0}")]
    Bad(BadIndex),
    /// At the place of one of its key moments no block of that time begins.
    #[error("the index is of another recording")]
    OtherRecording,
}

/// The index beside this recording, if there is such a file. It fails where that can't be read (`Unreadable`), is no
/// index, or memory is refused (`Bad`).
fn index_of<R: Files>(rt: &R, alloc: Global, path: &str) -> Result<Option<Index>, UnusedIndex> {
    let stem = path.strip_suffix(RECORDING_END).unwrap_or(path);
    let Ok(path) = format!(in alloc; "{stem}{INDEX_END}") else {
        return Err(UnusedIndex::Bad(BadIndex::Memory));
    };
    let mut file = match fs::open(rt, path.as_str()) {
        Ok(file) => file,
        Err(error) if error.kind() == ErrorKind::NotFound => return Ok(None),
        Err(error) => return Err(UnusedIndex::Unreadable(error.kind())),
    };
    let mut bytes = Vec::new(alloc);
    if let Err(error) = file.read_to_end(&mut bytes) {
        return Err(UnusedIndex::Unreadable(error.kind()));
    }
    match Index::read(alloc, bytes.as_slice()) {
        Ok(index) => Ok(Some(index)),
        Err(bad) => Err(UnusedIndex::Bad(bad)),
    }
}

/// The next four bytes of a file, as a number whose most significant byte comes first.
fn read_number<F: Read>(file: &mut F) -> Option<u32> {
    let mut field = [0u8; 4];
    file.read_exact(&mut field).ok()?;
    Some(u32::from_be_bytes(field))
}

/// The time of the block that begins at this place of a recording: it stands behind the block's length and padded data.
fn time_at<R: Files>(rt: &R, path: &str, place: u64) -> Option<u32> {
    let mut file = fs::open(rt, path).ok()?;
    file.seek(SeekFrom::Start(place)).ok()?;
    let padded = read_number(&mut file)?.checked_next_multiple_of(4)?;
    file.seek(SeekFrom::Current(i64::from(padded))).ok()?;
    read_number(&mut file)
}

/// The key moment, where a block of its time begins at its place. `begun` is the time of the block that begins there,
/// if one does. Otherwise the moment is of another recording (`OtherRecording`).
fn entered(moment: KeyMoment, begun: Option<u32>) -> Result<KeyMoment, UnusedIndex>
    ensures ok { begun ≡ Some moment.time → result ≡ Ok moment }
    ensures other { begun ≢ Some moment.time → result ≡ Err OtherRecording }
{
    if begun == Some(moment.time) {
        Ok(moment)
    } else {
        Err(UnusedIndex::OtherRecording)
    }
}

/// The last key moment at or before a time, in milliseconds, by the index beside this recording: none where there is no
/// such file, or no such moment. It fails where the index isn't to be used.
pub(crate) fn moment_at<R: Files>(
    rt: &R,
    alloc: Global,
    path: &str,
    time: u64,
) -> Result<Option<KeyMoment>, UnusedIndex> {
    let time = u32::try_from(time).unwrap_or(u32::MAX);
    let Some(index) = index_of(rt, alloc, path)? else {
        return Ok(None);
    };
    let Some(moment) = index.last_at(time) else {
        return Ok(None);
    };
    let begun = time_at(rt, path, moment.place);
    Ok(Some(entered(moment, begun)?))
}
