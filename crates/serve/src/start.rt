//! Starting the thread that hears an operator.

ghost use Rattle.std.specs.Prelude.{◌≡◌, IfOk, IfSome, is_some, true};
ghost use Rattle.serve.specs.States.{HasPlacesFor};

use crate::control::{Control, Reach, keep_control, listen};
use crate::halls::Halls;
use crate::lifeline::Lifeline;
use crate::order::{SkipOrder, StopOrder};
use crate::runtime::{Runtime, STACK};
use crate::trouble::{Stage, Trouble};
use crate::writer_reach::WriterReach;
use connections::Desk;
use fault::Fault;
use player::Player;
use recorder::Recording;
use roles::Role;
use settings::{Settings, places_of};
use std::alloc::{AllocError, Global};
use std::net::Net;
use std::os::unix::net::UnixListener;
use std::rt::Files;
use std::sync::{Arc, Wait};
use std::thread::Builder;

/// What of a run the requests of an operator reach.
#[derive(Drop)]
pub(crate) struct RunReach<'a> {
    /// The doors of all places.
    pub(crate) desk: &'a Arc<Desk, Global>,
    pub(crate) writer: &'a WriterReach,
    /// What plays the hosts that are recordings.
    pub(crate) player: &'a Arc<Player, Global>,
    /// How the run's own recording stands, if there is one.
    pub(crate) recording: Option<Arc<Recording, Global>>,
}

/// What hears an operator, whose requests reach this of a run. The operator is heard at this listener, and may end the
/// run by a new lifeline.
fn prepared(
    alloc: Global,
    listener: UnixListener,
    settings: &Settings,
    reach: RunReach<'_>,
) -> Result<Control, AllocError>
    ensures { IfOk result (λ control. HasPlacesFor settings.now control) }
{
    let RunReach {
        desk,
        writer,
        player,
        recording,
    } = reach;
    Ok(Control {
        listener,
        desk: Arc::try_clone(desk)?,
        writer: writer.another()?,
        full_places: places_of(settings, Role::Full),
        view_places: places_of(settings, Role::View),
        recording,
        player: Arc::try_clone(player)?,
        lifeline: Arc::new(alloc, Lifeline::new())?,
    })
}

/// Listens for an operator, if the settings have a path for it. Requests reach this of the run.
pub(crate) fn control_of<R: Files + Net>(
    rt: &R,
    alloc: Global,
    settings: &Settings,
    reach: RunReach<'_>,
) -> Result<Option<Control>, Trouble>
    ensures heard { IfOk result (λ control. is_some control ≡ is_some settings.now.control) }
    ensures places { IfOk result (λ control. IfSome control (λ c. HasPlacesFor settings.now c)) }
{
    let Some(path) = &settings.control else {
        return Ok(None);
    };
    let listener = match listen(rt, path.as_str()) {
        Ok(listener) => listener,
        Err(error) => return Err(Trouble::of(Stage::Control, error)),
    };
    match prepared(alloc, listener, settings, reach) {
        Ok(control) => Ok(Some(control)),
        Err(_) => Err(Trouble::new(Stage::Start, Fault::Memory)),
    }
}

/// Another end of the lifeline by which an operator may end the run, if one can.
pub(crate) fn lifeline_of(
    control: &Option<Control>,
) -> Result<Option<Arc<Lifeline<StopOrder, SkipOrder>, Global>>, Trouble>
    ensures { IfOk result (λ lifeline. is_some lifeline ≡ is_some control.now) }
{
    let Some(control) = control else {
        return Ok(None);
    };
    match Arc::try_clone(&control.lifeline) {
        Ok(lifeline) => Ok(Some(lifeline)),
        Err(_) => Err(Trouble::new(Stage::Start, Fault::Memory)),
    }
}

/// Notes that the run has ended: an operator that has stopped it waits for that. The result shows it where one has.
pub(crate) fn was_cut<R: Wait>(
    rt: &R,
    lifeline: &Option<Arc<Lifeline<StopOrder, SkipOrder>, Global>>,
) -> Option<StopOrder>
    ensures { is_some result ≡ true → is_some lifeline.now ≡ true }
{
    match lifeline {
        Some(lifeline) => {
            lifeline.end(rt);
            lifeline.is_cut(rt)
        }
        None => None,
    }
}

/// Starts the thread that hears the operator, whose requests reach these halls.
pub(crate) fn start_control<R>(
    rt: R,
    alloc: Global,
    control: Control,
    halls: Arc<Halls, Global>,
) -> Result<(), Trouble>
where
    R: Runtime,
{
    let reach = Reach {
        alloc,
        control,
        halls,
    };
    let started = Builder::new()
        .stack_size(STACK)
        .spawn(&rt, move || keep_control(&rt, &reach));
    match started {
        Ok(_hearer) => Ok(()),
        Err(error) => Err(Trouble::of(Stage::Start, error)),
    }
}
