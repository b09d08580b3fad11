//! The door of the place in which a run is recorded.

ghost use Rattle.std.specs.Prelude.{◌≡◌};
ghost use Rattle.std.specs.Option.{ForSome};
ghost use Rattle.record_link.specs.Linked.{state_of};
ghost use Rattle.run_traits.specs.Unused.{unused};

use crate::file::RecordedFile;
use crate::news::{EndReason, RecordingEnd, RecordingLog, RecordingNews};
use crate::standing::Recording;
use crate::watch::RecorderWatch;
use connections::Seat;
use fault::Fault;
use record_link::RecordLink;
use run_traits::{Door, LeftLink, PlaceCount};
use std::alloc::{AllocError, Global};
use std::io::{ErrorKind, Write};
use std::sync::{Arc, Wait};
use std::time::Clock;

/// The link of a recorder whose file is of this kind.
pub type RecorderLink<R, F> = RecordLink<RecordedFile<F>, RecorderWatch<R>>;

/// The files of a recording, which have nothing yet: what was said, and its key moments.
#[derive(Drop)]
pub struct RecordingFiles<F: Write + Drop> {
    pub recording: F,
    pub index: F,
}

/// Where it is told how a recording stands: to those who read that while it is made, and to its log.
#[derive(Drop)]
pub struct RecordingReports<N: RecordingLog> {
    pub recording: Arc<Recording, Global>,
    pub log: N,
}

/// The door of the place in which a run is recorded. One viewer comes through it, which looks on, and whose link writes
/// the recording; when that has left, none comes any more.
#[derive(Drop)]
pub struct RecorderDoor<R: Wait + Clock + Drop, F: Write + Drop, N: RecordingLog> {
    rt: R,
    // The recorder's link, until it has come.
    link: Option<RecorderLink<R, F>>,
    seat: Arc<Seat, Global>,
    recording: Arc<Recording, Global>,
    log: N,
    ghost fresh: { ForSome link (λ l. state_of l ≡ unused) },
}

/// Why a recording ended. `why` is how its session ended, and `failure` what its file said when it refused bytes, if it
/// did.
fn reason_of(failure: Option<ErrorKind>, why: Result<(), Fault>) -> EndReason {
    match (failure, why) {
        (Some(kind), _) => EndReason::File(kind),
        (None, Ok(())) => EndReason::RunOver,
        (None, Err(fault)) => EndReason::Fault(fault),
    }
}

impl<R: Wait + Clock + Copy + Drop, F: Write + Drop, N: RecordingLog> RecorderDoor<R, F, N> {
    /// The door of a recording into these files, whose thread waits at this seat. Key moments are so many milliseconds
    /// apart. It takes all the memory that the link will need.
    pub fn new(
        rt: R,
        alloc: Global,
        files: RecordingFiles<F>,
        key_every: u32,
        seat: Arc<Seat, Global>,
        reports: RecordingReports<N>,
    ) -> Result<RecorderDoor<R, F, N>, AllocError> {
        let RecordingReports { recording, log } = reports;
        let watch = RecorderWatch::new(rt, Arc::try_clone(&seat)?);
        let counted = Some(Arc::try_clone(&recording)?);
        let file = RecordedFile::new(files.recording, counted);
        let index = RecordedFile::new(files.index, None);
        let link = RecordLink::new(alloc, file, index, watch, key_every)?;
        Ok(RecorderDoor {
            rt,
            link: Some(link),
            seat,
            recording,
            log,
        })
    }
}

impl<R, F, N> Door for RecorderDoor<R, F, N>
where
    R: Wait + Clock + Copy + Drop + Send,
    F: Write + Drop + Send,
    N: RecordingLog + Send,
{
    ghost use Rattle.std.specs.Prelude.{◌≡◌};
    ghost use Rattle.record_link.specs.Linked.{state_of};
    ghost use Rattle.recorder.specs.Door.{LetsIn, SeesOff};
    ghost use Rattle.roles.specs.declared.role.Role.TheVariants.{View};

    type Viewer = RecorderLink<R, F>;

    ghost is_for = { λ _ role. role ≡ View };

    ghost lets_in = { LetsIn };

    ghost sees_off = { SeesOff };

    fn next(&mut self) -> Option<RecorderLink<R, F>> {
        let link = self.link.take()?;
        self.recording.begin(&self.rt);
        self.log.note(&RecordingNews::Begun);
        Some(link)
    }

    fn count(&self) -> &PlaceCount {
        self.seat.count()
    }

    /// The last bytes go into a whole block before it is told that the recording has ended.
    fn left(
        &mut self,
        mut viewer: LeftLink<RecorderLink<R, F>>,
        answers: u64,
        why: Result<(), Fault>,
    )
        ensures { SeesOff self.old (state_of viewer.link) why self.new }
    {
        viewer.flush();
        let link = viewer.look();
        link.carries();
        let failure = link.recording().file().failure();
        let end = RecordingEnd {
            why: reason_of(failure, why),
            lasted: link.watch().elapsed(),
            answers,
            bytes: self.recording.bytes(),
        };
        self.log.note(&RecordingNews::Ended(end));
        self.recording.end(&self.rt, failure);
    }
}
