//! From the file of a recording to the files of pictures.

ghost use Rattle.std.specs.Prelude.{◌<◌};

use crate::at_once::AtOnce;
use crate::error::ShowError;
use crate::file::RecordingFile;
use crate::session::png_of_recording;
use fault::Fault;
use playback::{BadPlayback, PlayedLink};
use std::alloc::Global;
use std::fs;
use std::rt::Files;
use std::sync::Wait;

/// How many milliseconds a second has.
const SECOND: u64 = 1000;

/// A file of PNG, or why there is none, and the time of the last block of the recording that was played for it, in
/// milliseconds.
#[derive(Drop)]
struct Shot {
    file: Result<Vec<u8>, ShowError>,
    time: u64,
}

/// Why there is no picture: the fault of the session, or, where its link failed, why that couldn't be played on.
fn reason(fault: Fault, why: Option<BadPlayback>) -> ShowError {
    match (fault, why) {
        (Fault::LinkEnded, _) => ShowError::NoScreen,
        (Fault::LinkFailed, Some(why)) => ShowError::Playback(why),
        (Fault::Memory, _) => ShowError::Memory,
        (fault, _) => ShowError::Session(fault),
    }
}

/// The picture that a recording shows at a time, in milliseconds since it began, or at its end. Nothing waits for that
/// time.
fn shot_at<R: Files + Wait>(
    rt: &R,
    alloc: Global,
    recording: &str,
    at: Option<u64>,
) -> Result<Shot, ShowError> {
    let opened = fs::open(rt, recording).map_err(ShowError::Input)?;
    let link = PlayedLink::new(alloc, RecordingFile::new(opened), AtOnce, at)?;
    let (file, link) = png_of_recording(rt, alloc, link);
    let time = link.time();
    let file = file.map_err(|fault| reason(fault, link.why()));
    Ok(Shot { file, time })
}

/// Writes what a recording shows at a time, in milliseconds since it began, or at its end, to a file of PNG. The file
/// is made, or made anew, once there is a picture.
pub fn show<R: Files + Wait>(
    rt: &R,
    alloc: Global,
    recording: &str,
    at: Option<u64>,
    picture: &str,
) -> Result<(), ShowError> {
    let shot = shot_at(rt, alloc, recording, at)?;
    let file = shot.file?;
    fs::write(rt, picture, file.as_slice()).map_err(ShowError::Output)
}

/// The path of the picture at a second: `HH-MM-SS.png` in a folder.
fn path_of(alloc: Global, folder: &str, second: u64) -> Result<String, ShowError> {
    let (hours, minutes, seconds) = (second / 3600, second / 60 % 60, second % 60);
    Ok(format!(in alloc; "{folder}/{hours:02}-{minutes:02}-{seconds:02}.png")?)
}

/// Writes what a recording shows each so many seconds, from its beginning to its end, to files of PNG in a folder that
/// is there: `HH-MM-SS.png`, of the time. It answers how many files it has written: none for a time by which the
/// recording shows no screen yet. Where the recording can't be played on, or is at fault, the files of the times before
/// that are written first. For each file the recording is played from its beginning.
pub fn show_each<R: Files + Wait>(
    rt: &R,
    alloc: Global,
    recording: &str,
    seconds: u32,
    folder: &str,
) -> Result<u64, ShowError>
    requires { 0 < seconds }
{
    let last = shot_at(rt, alloc, recording, None)?;
    let step = u64::from(seconds);
    let mut written: u64 = 0;
    for count in 0..=last.time / SECOND / step {
        let second = count * step;
        let shot = shot_at(rt, alloc, recording, Some(second * SECOND))?;
        match shot.file {
            Ok(file) => {
                let path = path_of(alloc, folder, second)?;
                fs::write(rt, path.as_str(), file.as_slice()).map_err(ShowError::Output)?;
                written += 1;
            }
            Err(ShowError::NoScreen) => {}
            Err(error) => return Err(error),
        }
    }
    // What is wrong behind the last picture's time, or that there is no screen at all, is told, too.
    let _end = last.file?;
    Ok(written)
}
