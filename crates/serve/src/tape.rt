//! Recording a run.

ghost use Rattle.std.specs.Prelude.{◌≡◌, IfOk, is_some};

use crate::incident::{Incident, RunLog};
use crate::trouble::{Stage, Trouble};
use connections::Seat;
use fault::Fault;
use jiff::Timestamp;
use recorder::{
    RecorderDoor, Recording, RecordingFiles, RecordingLog, RecordingNews, RecordingReports,
};
use settings::Settings;
use std::alloc::{AllocError, Global};
use std::fs::File;
use std::io;
use std::net::Net;
use std::rt::Files;
use std::sync::{Arc, Wait};
use std::time::{Clock, Duration};

/// How the name of a recording ends, and what stands in its place in the name of its index.
const RECORDING_END: &str = ".fbs";

const INDEX_END: &str = ".fbi";

/// For how long the end of a recording is waited for once the last host has ended, in milliseconds.
const GOODBYE_MILLIS: u64 = 1_000;

/// The log of a recording: the run's, which is told the path.
#[derive(Drop)]
pub(crate) struct RecordingNotes<G: RunLog + Drop> {
    log: G,
    path: String,
}

impl<G: RunLog + Drop> RecordingLog for RecordingNotes<G> {
    fn note(&self, news: &RecordingNews) {
        self.log
            .note_incident(&Incident::Recording(self.path.as_str(), news));
    }
}

/// The recorder of a run: its door, and the seat at which its thread waits.
#[derive(Drop)]
pub(crate) struct Recorder<R: Wait + Clock + Drop, G: RunLog + Drop> {
    pub(crate) door: RecorderDoor<R, File, RecordingNotes<G>>,
    pub(crate) seat: Arc<Seat, Global>,
}

/// Where a recording and its index are.
#[derive(Drop)]
pub(crate) struct RecordingPaths {
    recording: String,
    index: String,
}

/// A recording that is to be made: its files, which are new, where they are, and how it stands.
#[derive(Drop)]
pub(crate) struct Tape {
    files: RecordingFiles<File>,
    pub(crate) paths: RecordingPaths,
    pub(crate) recording: Arc<Recording, Global>,
}

/// The path of a recording that begins now, for which this text stands.
fn path_of<R: Clock>(rt: &R, alloc: Global, text: &str) -> Result<String, Trouble> {
    let now = match Timestamp::now(rt) {
        Ok(now) => now,
        Err(_) => return Err(Trouble::new(Stage::Record, Fault::LinkFailed)),
    };
    match now.strftime(alloc, text.as_bytes()) {
        Ok(path) => Ok(path),
        Err(_) => Err(Trouble::new(Stage::Start, Fault::Memory)),
    }
}

/// The path of the index of a recording at this path.
fn index_path_of(alloc: Global, path: &str) -> Result<String, AllocError> {
    let stem = path.strip_suffix(RECORDING_END).unwrap_or(path);
    format!(in alloc; "{stem}{INDEX_END}")
}

/// A new file at each path. Where one of them is there already, or can't be made, neither is left here that wasn't.
fn files_at<R: Files<File = File>>(
    rt: &R,
    paths: &RecordingPaths,
) -> io::Result<RecordingFiles<File>> {
    let recording = File::create_new(rt, paths.recording.as_str())?;
    match File::create_new(rt, paths.index.as_str()) {
        Ok(index) => Ok(RecordingFiles { recording, index }),
        Err(error) => {
            let _ = rt.remove_file(paths.recording.as_str());
            Err(error)
        }
    }
}

/// The recording that the settings ask for, if they do. Its files are made here, and are new: it fails where one of
/// them is there, or can't be made.
pub(crate) fn tape_of<R: Files<File = File> + Clock>(
    rt: &R,
    alloc: Global,
    settings: &Settings,
) -> Result<Option<Tape>, Trouble>
    ensures { IfOk result (λ tape. is_some tape ≡ is_some settings.now.recording) }
{
    let Some(text) = &settings.recording else {
        return Ok(None);
    };
    let recording = path_of(rt, alloc, text.as_str())?;
    let Ok(index) = index_path_of(alloc, recording.as_str()) else {
        return Err(Trouble::new(Stage::Start, Fault::Memory));
    };
    let Ok(standing) = Arc::new(alloc, Recording::new()) else {
        return Err(Trouble::new(Stage::Start, Fault::Memory));
    };
    let paths = RecordingPaths { recording, index };
    match files_at(rt, &paths) {
        Ok(files) => Ok(Some(Tape {
            files,
            paths,
            recording: standing,
        })),
        Err(error) => Err(Trouble::of(Stage::Record, error)),
    }
}

impl RecordingPaths {
    /// Takes the files away again where nothing was recorded into them.
    fn clear<R: Files>(&self, rt: &R) {
        // Where they can't be taken away, they are empty.
        let _ = rt.remove_file(self.recording.as_str());
        let _ = rt.remove_file(self.index.as_str());
    }
}

/// What a run has to do with its recording beside making it.
#[derive(Drop)]
pub(crate) struct Keeper {
    paths: RecordingPaths,
    recording: Arc<Recording, Global>,
}

impl Keeper {
    /// Waits for the end of the recording, though not for long. Where nothing was recorded its files are taken away.
    pub(crate) fn close<R: Files + Wait + Clock>(&self, rt: &R) {
        self.recording
            .await_end(rt, Duration::from_millis(GOODBYE_MILLIS));
        if self.recording.bytes() == 0 {
            self.paths.clear(rt);
        }
    }
}

/// Takes the files of a recording away again, if there is to be one, since the run doesn't begin.
pub(crate) fn clear<R: Files>(rt: &R, tape: &Option<Tape>) {
    if let Some(tape) = tape {
        tape.paths.clear(rt);
    }
}

/// Where it stands how this recording goes, for another thread, if there is a recording.
pub(crate) fn standing_of(tape: &Option<Tape>) -> Result<Option<Arc<Recording, Global>>, Trouble> {
    let Some(tape) = tape else {
        return Ok(None);
    };
    match Arc::try_clone(&tape.recording) {
        Ok(recording) => Ok(Some(recording)),
        Err(_) => Err(Trouble::new(Stage::Start, Fault::Memory)),
    }
}

/// How many milliseconds lie between two key moments.
fn key_millis(settings: &Settings) -> u32 {
    u32::try_from(settings.recording_key.saturating_mul(1_000)).unwrap_or(u32::MAX)
}

/// The recorder of this recording, and what the run keeps of it. Key moments are as far apart as the settings say.
fn recorder_at<R, G>(
    rt: R,
    alloc: Global,
    settings: &Settings,
    tape: Tape,
    seat: Seat,
    log: &G,
) -> Result<(Recorder<R, G>, Keeper), AllocError>
where
    R: Wait + Clock + Copy + Drop,
    G: RunLog + Clone + Drop,
{
    let Tape {
        files,
        paths,
        recording,
    } = tape;
    let seat = Arc::new(alloc, seat)?;
    let reports = RecordingReports {
        recording: Arc::try_clone(&recording)?,
        log: RecordingNotes {
            log: log.clone()?,
            path: paths.recording.clone()?,
        },
    };
    let door = RecorderDoor::new(
        rt,
        alloc,
        files,
        key_millis(settings),
        Arc::try_clone(&seat)?,
        reports,
    )?;
    Ok((Recorder { door, seat }, Keeper { paths, recording }))
}

/// The recorder of this recording, whose thread waits at a seat of its own, and what the run keeps of it, if it is
/// recorded.
pub(crate) fn recorder_of<R, G>(
    rt: R,
    alloc: Global,
    settings: &Settings,
    tape: Option<Tape>,
    log: &G,
) -> Result<(Option<Recorder<R, G>>, Option<Keeper>), Trouble>
where
    R: Wait + Clock + Net + Copy + Drop,
    G: RunLog + Clone + Drop,
    ensures { IfOk result (λ both. is_some both.0 ≡ is_some tape) }
{
    let Some(tape) = tape else {
        return Ok((None, None));
    };
    let seat = match Seat::new(&rt, alloc) {
        Ok(seat) => seat,
        Err(error) => return Err(Trouble::of(Stage::Start, error)),
    };
    match recorder_at(rt, alloc, settings, tape, seat, log) {
        Ok((recorder, keeper)) => Ok((Some(recorder), Some(keeper))),
        Err(_) => Err(Trouble::new(Stage::Start, Fault::Memory)),
    }
}
