//! A run of one place.

ghost use Rattle.std.specs.Prelude.{◌≡◌, IfOk};
ghost use Rattle.roles.specs.declared.role.Role.TheVariants.{Full};
ghost use Rattle.run_traits.specs.Unused.{unused};

use crate::board::Board;
use crate::bytes::{HEIGHT, UPDATE, WIDTH};
use crate::wire::{Peer, Wire};
use arrayvec::ArrayVec;
use fault::Fault;
use host_turns::{HostEnds, NoHosts, RunScreen};
use joined_runs::RectForm;
use reflector::{InputCounts, RunHosts, RunPlaces, RunShared, Running, run_all};
use rfb_wire::Joined;
use roles::Role;
use run_traits::{Door, NoAlarm};
use shared_screen::{Naming, Opened, Publishes};
use std::alloc::{AllocError, Global};
use std::marker::Brand;
use std::sync::{Arc, Wait};
use std::test::Fail;
use std::thread::Threads;
use std::time::Clock;
use viewer_session::AnswerForm;

/// The one host of a run, and no other after it.
fn one_host(alloc: Global, board: &Arc<Board, Global>) -> Result<RunHosts<Wire, NoHosts>, Fault>
    ensures ends { IfOk result (λ hosts.
        (hosts.first.reader ≡ unused) × (hosts.first.writer ≡ unused)) }
    ensures size { IfOk result (λ hosts. (hosts.joined.w ≡ WIDTH) × (hosts.joined.h ≡ HEIGHT)) }
{
    let mut name = ArrayVec::new();
    name.push(b'T');
    Ok(RunHosts {
        first: HostEnds {
            reader: Wire::new(alloc, Peer::HostRead, UPDATE, board)?,
            writer: Wire::new(alloc, Peer::HostTold, b"", board)?,
            has_called: false,
        },
        joined: Joined {
            w: WIDTH,
            h: HEIGHT,
            name,
        },
        further: NoHosts,
    })
}

/// What counts a run's input, and the alarms of everyone and of the writer, which nobody hears.
fn make_shared(alloc: Global) -> Result<RunShared<NoAlarm, NoAlarm>, AllocError> {
    Ok(RunShared {
        everyone: Arc::new(alloc, NoAlarm)?,
        writer: Arc::new(alloc, NoAlarm)?,
        input: Arc::new(alloc, InputCounts::new())?,
    })
}

/// A run over a history that J names. It answers whether the run ended without a fault, after its place did.
fn over<J, D, R>(
    rt: R,
    alloc: Global,
    history: Opened<J>,
    door: D,
    board: &Arc<Board, Global>,
) -> Result<bool, Fail>
where
    J: Naming + Publishes + Send + Sync + 'static,
    D: Door + Send + 'static,
    R: Threads + Wait + Clock + Copy + Drop + Send + 'static,
    requires history { history.seen.book ≡ J.book }
    requires screen { (WIDTH ≡ J.width) × (HEIGHT ≡ J.height) }
    requires role { D.is_for door Full }
{
    let mut doors = Vec::new(alloc);
    doors.push((Role::Full, door))?;
    let places = RunPlaces {
        doors,
        form: AnswerForm {
            runs: RectForm::Joined,
            zrle: false,
            copies: false,
        },
    };
    let room = RunScreen {
        alloc,
        width: WIDTH,
        height: HEIGHT,
        password: None,
    };
    let running = run_all::<J, Wire, NoHosts, D, NoAlarm, NoAlarm, R>(
        rt,
        room,
        history,
        one_host(alloc, board)?,
        places,
        make_shared(alloc)?,
    )?;
    let Running {
        ran: _,
        last,
        links: _,
        hosts: _,
        publisher: _,
        told_links: _,
        taker: _,
        strokes: _,
        dropped: _,
        places,
    } = running;
    for place in places {
        let _ = place.join(&rt);
    }
    Ok(last.answer.is_ok())
}

/// Whether a run whose one place serves the viewers of this door with full control ends without a fault. The host sends
/// one update, and ends once all viewers have left.
pub(crate) fn ends_well<D, R>(
    rt: R,
    alloc: Global,
    door: D,
    board: &Arc<Board, Global>,
) -> Result<bool, Fail>
where
    D: Door + Send + 'static,
    R: Threads + Wait + Clock + Copy + Drop + Send + 'static,
    requires { D.is_for door Full }
{
    over::<Brand, D, R>(rt, alloc, Opened::new(), door, board)
}
