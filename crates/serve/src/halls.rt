//! Where viewers come in, from the first to the last.

ghost use Rattle.std.specs.Prelude.{◌≡◌, IfOk, IfSome, true};
ghost use Rattle.std.specs.Arc.{arc_value};
ghost use Rattle.raster.specs.Size.{IsScreenSize};
ghost use Rattle.serve.specs.Hosts.{is_untimed};
ghost use Rattle.settings.specs.Rooms.{FitsInto};

use crate::control::Control;
use crate::entries::Entrances;
use crate::incident::RunLog;
use crate::means::Means;
use crate::meet::{Met, Terms};
use crate::rooms::{Hall, start_porter};
use crate::runtime::Runtime;
use crate::start::start_control;
use crate::supply::Supply;
use crate::trouble::{Stage, Trouble};
use crate::web::start_web_porter;
use connections::{RoleCaller, Seat};
use fault::Fault;
use roles::Role;
use run_traits::Log;
use std::alloc::Global;
use std::sync::{Arc, Wait};
use std::time::Clock;

/// Where the viewers of each role come in, while their doors are kept.
#[derive(Drop)]
pub(crate) struct Halls {
    full: Option<Hall>,
    view: Hall,
}

impl Halls {
    /// Starts the threads that let viewers in, those with full control and browsers if there are to be some. The
    /// threads of all places wait at these seats.
    fn start<R, G>(
        rt: R,
        alloc: Global,
        entrances: Entrances<'_>,
        seats: Vec<Arc<Seat, Global>>,
        log: &G,
    ) -> Result<Halls, Trouble>
    where
        R: Runtime,
        G: Log + Clone + Drop + Send + 'static,
    {
        let Entrances { full, view, web } = entrances;
        start_web_porter(rt, alloc, web, seats, log)?;
        let full = match full {
            Some(entry) => Some(start_porter(rt, alloc, entry, log)?),
            None => None,
        };
        let view = start_porter(rt, alloc, view, log)?;
        Ok(Halls { full, view })
    }

    /// What calls viewers of this role, if there are places of it.
    pub(crate) fn caller(&self, role: Role) -> Option<&Arc<RoleCaller, Global>>
        ensures { IfSome result (λ caller. (arc_value caller.now).role ≡ role) }
    {
        if self.view.caller().role() == role {
            return Some(self.view.caller());
        }
        let full = self.full.as_ref()?;
        if full.caller().role() == role {
            return Some(full.caller());
        }
        None
    }

    /// There is a host: viewers are let in from now on.
    fn open<R: Wait>(&self, rt: &R) {
        if let Some(full) = &self.full {
            full.open(rt);
        }
        self.view.open(rt);
    }

    /// No more viewers come, and those that are there are waited for, though not for long.
    pub(crate) fn close<R: Wait + Clock>(&self, rt: &R) {
        if let Some(full) = &self.full {
            full.close(rt);
        }
        self.view.close(rt);
    }
}

/// Lets nobody in yet.
fn hold<R: Wait>(rt: &R, entrances: &Entrances<'_>) {
    if let Some(full) = &entrances.full {
        full.lobby.hold(rt, true);
    }
    entrances.view.lobby.hold(rt, true);
}

/// Starts the threads that let viewers in, and the one that hears an operator, if one may ask something.
fn start_all<R, G>(
    means: &Means<'_, R, G>,
    entrances: Entrances<'_>,
    seats: Vec<Arc<Seat, Global>>,
    control: Option<Control>,
) -> Result<Arc<Halls, Global>, Trouble>
where
    R: Runtime,
    G: Log + Clone + Drop + Send + 'static,
{
    let rt = *means.rt;
    let alloc = means.alloc;
    let halls = Halls::start(rt, alloc, entrances, seats, means.log)?;
    let Ok(halls) = Arc::new(alloc, halls) else {
        return Err(Trouble::new(Stage::Start, Fault::Memory));
    };
    if let Some(control) = control {
        let Ok(theirs) = Arc::try_clone(&halls) else {
            return Err(Trouble::new(Stage::Start, Fault::Memory));
        };
        start_control(rt, alloc, control, theirs)?;
    }
    Ok(halls)
}

/// Meets the first host, on these terms, and lets viewers in. Where that host is tried again, or calls, they are told
/// until then that there is none yet; where it is tried once, they wait.
pub(crate) fn welcome<R, G>(
    means: &Means<'_, R, G>,
    supply: &mut Supply<R, G>,
    terms: &Terms,
    entrances: Entrances<'_>,
    seats: Vec<Arc<Seat, Global>>,
    control: Option<Control>,
) -> Result<(Met<R>, Arc<Halls, Global>), Trouble>
where
    R: Runtime,
    G: RunLog + Clone + Drop + Send + 'static,
    ensures size { IfOk result (λ both. IsScreenSize both.0.joined.w both.0.joined.h) }
    ensures fits { IfOk result (λ both. FitsInto terms.now.room both.0.joined.w both.0.joined.h) }
    ensures untimed { IfOk result (λ both.
        (is_untimed both.0.reader ≡ true) × (is_untimed both.0.writer ≡ true)) }
    ensures password { IfOk result (λ both. both.0.password ≡ terms.now.password) }
    ensures again { supply.new.turns.again ≡ supply.old.turns.again }
    ensures lifeline { supply.new.lifeline ≡ supply.old.lifeline }
{
    if !supply.waits() {
        let met = supply.first(terms)?;
        let halls = start_all(means, entrances, seats, control)?;
        return Ok((met, halls));
    }
    hold(means.rt, &entrances);
    let halls = start_all(means, entrances, seats, control)?;
    match supply.first(terms) {
        Ok(met) => {
            halls.open(means.rt);
            Ok((met, halls))
        }
        Err(trouble) => {
            halls.close(means.rt);
            Err(trouble)
        }
    }
}
