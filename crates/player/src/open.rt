//! Opening a recording.

ghost use Rattle.std.specs.Prelude.{◌≡◌, IfOk};
ghost use Rattle.playback.specs.Playing.{state_of};
ghost use Rattle.run_traits.specs.Unused.{unused};

use crate::host::PlayedHost;
use crate::index::{UnusedIndex, moment_at};
use crate::pace::PlayerPace;
use crate::player::Player;
use link::{Link, Took};
use playback::{Pace, PlayedLink, Recorded};
use recording_index::KeyMoment;
use show::{AtOnce, RecordingFile};
use std::alloc::Global;
use std::rt::Files;
use std::sync::{Arc, Wait};
use std::time::Clock;
use std::{fs, io};

/// How many bytes of a recording are taken at once where only its end is sought.
const PIECE_LEN: usize = 16_384;

/// A recording that was opened: its link, and why the index beside it isn't used, if there is one that isn't.
#[derive(Drop)]
pub struct OpenedRecording<R: Wait + Clock + Drop, F: Recorded> {
    pub host: PlayedHost<R, F>,
    pub unused_index: Option<UnusedIndex>,
}

/// A link over which a recording is heard at a pace, from this key moment on, or from its beginning on.
fn link_from<R: Files, P: Pace>(
    rt: &R,
    alloc: Global,
    path: &str,
    pace: P,
    moment: Option<KeyMoment>,
) -> io::Result<PlayedLink<RecordingFile<R::File>, P>>
    ensures { IfOk result (λ link. state_of link ≡ unused) }
{
    let file = RecordingFile::new(fs::open(rt, path)?);
    let link = match moment {
        Some(moment) => PlayedLink::from_key(alloc, file, pace, None, moment)?,
        None => PlayedLink::new(alloc, file, pace, None)?,
    };
    Ok(link)
}

/// Opens the recording at this path, which the player plays from now on. It is heard from the last key moment at or
/// before the time from which it is played, if the index beside it has one, and otherwise from its beginning on. What
/// was said before that time is heard at once. It fails where the file can't be opened, or memory is refused.
pub fn open_recording<R: Files + Wait + Clock + Copy + Drop>(
    rt: R,
    alloc: Global,
    path: &str,
    player: &Arc<Player, Global>,
) -> io::Result<OpenedRecording<R, RecordingFile<R::File>>>
    ensures { IfOk result (λ opened. opened.host.own ≡ unused) }
{
    let name = String::from_str(alloc, path)?;
    let from = player.begin(&rt, name);
    let pace = PlayerPace::new(rt, Arc::try_clone(player)?);
    let (moment, unused_index) = match moment_at(&rt, alloc, path, from) {
        Ok(moment) => (moment, None),
        Err(why) => (None, Some(why)),
    };
    match link_from(&rt, alloc, path, pace, moment) {
        Ok(link) => Ok(OpenedRecording {
            host: PlayedHost::new(rt, link, Arc::try_clone(player)?),
            unused_index,
        }),
        Err(error) => {
            player.end(&rt);
            Err(error)
        }
    }
}

/// The time of the last block that can be read of the recording at this path, in milliseconds. Nothing waits for that
/// time. It fails where the file can't be opened, or memory is refused.
pub fn last_time<R: Files + Wait>(rt: &R, alloc: Global, path: &str) -> io::Result<u64> {
    // Without an index that may be used it is heard from its beginning on.
    let moment = moment_at(rt, alloc, path, u64::MAX).unwrap_or(None);
    let mut link = link_from(rt, alloc, path, AtOnce, moment)?;
    let mut piece = [0u8; PIECE_LEN];
    for _ in rt.forever() {
        match link.take(&mut piece) {
            Took::Bytes(_) | Took::Nothing => {}
            Took::End | Took::Failed => return Ok(link.time()),
        }
    }
    unreachable!()
}
