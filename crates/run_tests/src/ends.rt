//! A run, and what it leaves.

ghost use Rattle.std.specs.Prelude.{◌≡◌, ◌≤◌, All, vec_len, IfOk};
ghost use Rattle.raster.specs.Size.{IsScreenSize};
ghost use Rattle.input_relay.specs.Ends.{host_of, relay_of};

use crate::board::Board;
use crate::peer::Script;
use crate::queue::Queue;
use crate::sight::View;
use crate::wire::Wire;
use arrayvec::ArrayVec;
use fault::Fault;
use host_turns::{Hosts, RunScreen};
use input_relay::{Settled, settle};
use joined_runs::RectForm;
use link::Link;
use raster::Rect;
use reflect_core::{Cut, ScreenSource};
use reflector::{InputCounts, Place, RunHosts, RunPlaces, RunShared, Running, join_place, run_all};
use rfb_wire::Joined;
use roles::Role;
use run_traits::{Door, NoAlarm, PlaceCount};
use shared_screen::{Naming, Opened, Publisher, Publishes, Watcher};
use std::alloc::Global;
use std::marker::Brand;
use std::sync::atomic::Ordering;
use std::sync::{Arc, Wait};
use std::test::Fail;
use std::thread::Threads;
use std::time::Clock;
use tiles::Have;
use viewer_session::AnswerForm;

/// How a run is to end: with a fault of this number, or with none, 0; with this many links handed back; with this
/// update, its last; with this many inputs that were dropped, and this many that weren't taken.
pub(crate) struct End {
    pub(crate) fault: u64,
    pub(crate) links: usize,
    pub(crate) last: u64,
    pub(crate) dropped: u64,
    pub(crate) left: usize,
}

/// A run: its screen, which update turns that black, the viewers of each place, the two ends of each host, and how it
/// is to end.
pub(crate) struct Course {
    pub(crate) name: &'static str,
    pub(crate) view: &'static View,
    pub(crate) black: u64,
    pub(crate) places: &'static [&'static [Script]],
    /// How often the first viewer of each place comes again before the one after it.
    pub(crate) again: u64,
    pub(crate) hosts: &'static [Script],
    /// Whether another host may be asked for after the last.
    pub(crate) may_end: bool,
    pub(crate) end: End,
}

/// Whether a watcher that met the publisher cuts the last update.
fn shows<J: Naming>(
    alloc: Global,
    watcher: &mut Watcher<J>,
    view: &View,
    last: u64,
) -> Result<bool, Fault>
    requires { IsScreenSize view.now.w view.now.h
        × (view.now.w ≡ J.width) × (view.now.h ≡ J.height) }
{
    let all = Rect {
        x: 0,
        y: 0,
        w: view.w,
        h: view.h,
    };
    let have = Have::new(alloc, view.w, view.h)?;
    let mut cut = Cut::new(alloc, view.w, view.h)?;
    let number = watcher.cut(&all, &have, None, &mut cut)?;
    Ok(number == last && view.is_held(cut.colours.as_slice(), last))
}

/// How many inputs weren't taken.
fn left_in<R: Wait + Drop>(settled: &mut Settled<R>) -> usize {
    for count in 0..256 {
        if settled.next().is_none() {
            return count;
        }
    }
    256
}

/// Whether the run ended as it should, each place shows the last update, and the gauge of the input reads what became
/// of it.
fn ends<J, L, H, D, R>(
    rt: R,
    alloc: Global,
    running: Running<L, H, Publisher<J, R>, Watcher<J>, D, R>,
    input: &InputCounts,
    view: &View,
    end: &End,
) -> Result<bool, Fail>
where
    J: Naming + Publishes + Send + Sync + 'static,
    L: Link,
    H: Drop,
    D: Door,
    R: Threads + Wait + Drop + Copy,
    requires screen { IsScreenSize view.now.w view.now.h
        × (view.now.w ≡ J.width) × (view.now.h ≡ J.height) }
    requires relay { All (λ place. relay_of place.promise.sender.value ≡ host_of running.taker)
        running.places.items }
{
    let Running {
        ran: _,
        last,
        links,
        publisher,
        taker,
        hosts: _hosts,
        strokes: _,
        dropped,
        told_links: _,
        places,
    } = running;
    let fault = match &last.answer {
        Ok(()) => 0,
        Err(fault) => fault.number(),
    };
    let are_dropped = dropped == end.dropped && input.dropped() == end.dropped;
    let mut is_right = fault == end.fault && links.len() == end.links && are_dropped;
    let mut senders = Vec::new(alloc);
    for place in places {
        let Place {
            door: _,
            mut watcher,
            sender,
        } = join_place(&rt, place, &publisher);
        let shown = shows(alloc, &mut watcher, view, end.last);
        is_right = matches!(shown, Ok(true)) && is_right;
        senders.push(sender)?;
    }
    let waiting = input.waiting(&rt);
    let mut settled = settle(senders, taker);
    Ok(is_right && waiting == end.left && left_in(&mut settled) == end.left)
}

/// The doors of the places, no fewer than one and no more than 64.
fn doors_of(
    alloc: Global,
    board: &Arc<Board, Global>,
    course: &Course,
) -> Result<Vec<(Role, Queue)>, Fault>
    ensures { IfOk result (λ doors. (1 ≤ vec_len doors) × (vec_len doors ≤ 64)) }
{
    let mut doors = Vec::new(alloc);
    for (place, scripts) in course.places.iter().enumerate() {
        let queue = Queue {
            alloc,
            board: Arc::try_clone(board)?,
            place,
            scripts,
            again: course.again,
            may_end: true,
            count: PlaceCount::new(),
        };
        doors.push((Role::Full, queue))?;
    }
    match doors.len() {
        1..=64 => Ok(doors),
        _ => Err(Fault::NoPlace),
    }
}

/// The hosts of the run.
fn hosts_of(alloc: Global, board: &Arc<Board, Global>, course: &Course) -> Result<Queue, Fault> {
    Ok(Queue {
        alloc,
        board: Arc::try_clone(board)?,
        place: 0,
        scripts: course.hosts,
        again: 0,
        may_end: course.may_end,
        count: PlaceCount::new(),
    })
}

/// The first host of a run over a screen of this view.
fn joined_of(view: &View) -> Joined
    ensures { (result.w ≡ view.now.w) × (result.h ≡ view.now.h) }
{
    let mut name = ArrayVec::new();
    name.push(b'T');
    Joined {
        w: view.w,
        h: view.h,
        name,
    }
}

/// A run over a history that J names.
fn over<J, R>(
    rt: R,
    alloc: Global,
    history: Opened<J>,
    board: &Arc<Board, Global>,
    course: &Course,
) -> Result<bool, Fail>
where
    J: Naming + Publishes + Send + Sync + 'static,
    R: Threads + Wait + Clock + Copy + Drop + Send + 'static,
    requires history { history.seen.book ≡ J.book }
    requires screen { IsScreenSize course.now.view.now.w course.now.view.now.h
        × (course.now.view.now.w ≡ J.width) × (course.now.view.now.h ≡ J.height) }
{
    let input = Arc::new(alloc, InputCounts::new())?;
    let shared = RunShared {
        everyone: Arc::new(alloc, NoAlarm)?,
        writer: Arc::new(alloc, NoAlarm)?,
        input: Arc::try_clone(&input)?,
    };
    let mut further = hosts_of(alloc, board, course)?;
    let places = RunPlaces {
        doors: doors_of(alloc, board, course)?,
        form: AnswerForm {
            runs: RectForm::Joined,
            zrle: false,
            copies: false,
        },
    };
    let Some(first) = Hosts::next(&mut further) else {
        return Ok(false);
    };
    let room = RunScreen {
        alloc,
        width: course.view.w,
        height: course.view.h,
        password: None,
    };
    let hosts = RunHosts {
        first,
        joined: joined_of(course.view),
        further,
    };
    let running = run_all::<J, Wire, Queue, Queue, NoAlarm, NoAlarm, R>(
        rt, room, history, hosts, places, shared,
    )?;
    ends(rt, alloc, running, &input, course.view, &course.end)
}

/// Whether a run goes as it should.
pub(crate) fn goes_right<R>(rt: R, alloc: Global, course: &Course) -> Result<bool, Fail>
where
    R: Threads + Wait + Clock + Copy + Drop + Send + 'static,
{
    let (1..=4096, 1..=4096) = (course.view.w, course.view.h) else {
        return Ok(false);
    };
    let board = Board::new(alloc, course.view, course.black)?;
    let is_right = over::<Brand, R>(rt, alloc, Opened::new(), &board, course)?;
    Ok(is_right && board.is_left() && board.flaws.load(Ordering::SeqCst) == 0)
}
