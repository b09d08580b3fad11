//! Screens that are shared: turns of what is put, looked at and cut, and looks beside cuts and puts.

ghost use Rattle.std.specs.Prelude.{◌≡◌, ◌≤◌};

use crate::puts::{ALL, MANY, Reads, Room, beside, puts_many, puts_one};
use fault::Fault;
use painter::Wanted;
use pixel_format::Format;
use reflect_core::{Cut, ScreenSource};
use shared_screen::{Naming, Opened, Publisher, Publishes, Watcher, shared};
use std::alloc::Global;
use std::marker::Brand;
use std::sync::Wait;
use std::test::*;
use std::thread::Threads;

impl<J: Naming> Reads for Watcher<J> {
    ghost fits = { (4 ≡ J.width) × (4 ≡ J.height) };

    fn reads(&mut self, room: &mut Room) -> Option<(u64, u64)> {
        let looked = self.look();
        let cut = self.cut(&ALL, &room.have, None, &mut room.cut).ok()?;
        if room.shows(cut) {
            Some((looked, cut))
        } else {
            None
        }
    }
}

/// What is done in the turn of a watcher and of a room, which holds a cut, and how that has to come out.
enum Act {
    /// The patches from this one to that one are put.
    Puts(u64, u64),
    /// This patch is refused, and once more.
    IsRefused(u64),
    /// The watcher is told of all that was put.
    Learns,
    /// The watcher meets the publisher.
    Meets,
    /// The watcher wants forms in the format of this viewer, or none.
    Wants(Option<Drawing>),
    /// The watcher looks at this number.
    Looks(u64),
    /// The watcher cuts this many updates into the room, which shows them.
    Cuts(u64),
    /// The room shows this many updates still.
    Shows(u64),
    /// Whether a form was kept of what the room shows.
    HasForm(bool),
    /// What the room shows was encoded in the format of this viewer alone, or in none.
    IsEncoded(Option<Drawing>),
}

/// Who draws in a format of 32 bits: a host's viewer, a browser (red lowest, least significant byte first), or one that
/// does as browsers, but most significant byte first (RFC 6143, 7.4).
#[derive(Clone, Copy, PartialEq)]
enum Drawing {
    Hosts,
    Browsers,
    Other,
}

/// The format of who draws.
fn format_of(drawing: Drawing) -> Option<Format> {
    let bytes = match drawing {
        Drawing::Hosts => [32, 24, 0, 1, 0, 255, 0, 255, 0, 255, 16, 8, 0, 0, 0, 0],
        Drawing::Browsers => [32, 24, 0, 1, 0, 255, 0, 255, 0, 255, 0, 8, 16, 0, 0, 0],
        Drawing::Other => [32, 24, 1, 1, 0, 255, 0, 255, 0, 255, 0, 8, 16, 0, 0, 0],
    };
    Format::read(&bytes).ok()
}

/// Whether what a cut shows was encoded in the format of this viewer alone, or in none.
fn is_encoded(cut: &Cut, wanted: Option<Drawing>) -> bool {
    let mut right = true;
    for drawing in [Drawing::Hosts, Drawing::Browsers, Drawing::Other] {
        let has = match format_of(drawing) {
            Some(format) => cut.encoded(&ALL, &format).is_some(),
            None => return false,
        };
        right = right && has == (wanted == Some(drawing));
    }
    right
}

/// A watcher and a room, by their numbers, and their acts.
struct Turn(usize, usize, &'static [Act]);

/// What is done with a new shared screen.
enum Course {
    /// These turns are taken.
    Turns(&'static [Turn]),
    /// All watchers but the last read beside very many puts. Then each looks at the last number, including the one that
    /// never looked, and cuts that many updates.
    Beside,
    /// Five patches are put, where memory may be short.
    Short,
}

/// A shared screen, how many watchers it has, and the number of the last update.
struct ScreenCase {
    name: &'static str,
    places: usize,
    course: Course,
    last: u64,
}

/// The second watcher, which is told of each of three patches, looks at each and cuts each. The first, which meets the
/// publisher after them, looks at the last.
const TOLD: ScreenCase = ScreenCase {
    name: "three puts are told",
    places: 2,
    course: Course::Turns(&[
        Turn(
            1,
            0,
            &[
                Act::Puts(1, 1),
                Act::Learns,
                Act::Looks(1),
                Act::Cuts(1),
                Act::Puts(2, 2),
                Act::Learns,
                Act::Looks(2),
                Act::Cuts(2),
                Act::Puts(3, 3),
                Act::Learns,
                Act::Looks(3),
                Act::Cuts(3),
            ],
        ),
        Turn(0, 0, &[Act::Meets, Act::Looks(3)]),
    ]),
    last: 3,
};

/// For the first of three patches the first watcher wants forms, for the second both do, and for the third the second
/// does. A form is kept only of what the second patch changed.
const KEPT: ScreenCase = ScreenCase {
    name: "forms are kept for two watchers",
    places: 2,
    course: Course::Turns(&[
        Turn(0, 0, &[Act::Wants(Some(Drawing::Hosts))]),
        Turn(
            1,
            0,
            &[
                Act::Wants(None),
                Act::Puts(1, 1),
                Act::Cuts(1),
                Act::HasForm(false),
                Act::Wants(Some(Drawing::Hosts)),
                Act::Puts(2, 2),
                Act::Cuts(2),
                Act::HasForm(true),
            ],
        ),
        Turn(0, 0, &[Act::Wants(None)]),
        Turn(1, 0, &[Act::Puts(3, 3), Act::Cuts(3), Act::HasForm(false)]),
    ]),
    last: 3,
};

/// One watcher alone shares nothing. Of the two formats of hosts and browsers the one that more watchers want is
/// chosen, and the host's where as many want either, or none of them.
const CHOSEN: ScreenCase = ScreenCase {
    name: "areas are encoded in the format of most watchers",
    places: 3,
    course: Course::Turns(&[
        Turn(0, 0, &[Act::Puts(1, 1), Act::Cuts(1), Act::IsEncoded(None)]),
        Turn(
            0,
            0,
            &[
                Act::Wants(Some(Drawing::Browsers)),
                Act::Puts(2, 2),
                Act::Cuts(2),
                Act::IsEncoded(None),
            ],
        ),
        Turn(
            1,
            0,
            &[
                Act::Wants(Some(Drawing::Hosts)),
                Act::Puts(3, 3),
                Act::Cuts(3),
                Act::IsEncoded(Some(Drawing::Hosts)),
            ],
        ),
        Turn(
            2,
            0,
            &[
                Act::Wants(Some(Drawing::Browsers)),
                Act::Puts(4, 4),
                Act::Cuts(4),
                Act::IsEncoded(Some(Drawing::Browsers)),
            ],
        ),
        Turn(2, 0, &[Act::Wants(Some(Drawing::Browsers))]),
        Turn(1, 0, &[Act::Wants(Some(Drawing::Browsers))]),
        Turn(
            2,
            0,
            &[
                Act::Wants(Some(Drawing::Other)),
                Act::Puts(5, 5),
                Act::Cuts(5),
                Act::IsEncoded(Some(Drawing::Browsers)),
            ],
        ),
        Turn(0, 0, &[Act::Wants(Some(Drawing::Other))]),
        Turn(
            1,
            0,
            &[
                Act::Wants(Some(Drawing::Other)),
                Act::Puts(6, 6),
                Act::Cuts(6),
                Act::IsEncoded(Some(Drawing::Hosts)),
            ],
        ),
        Turn(
            0,
            0,
            &[
                Act::Wants(None),
                Act::Puts(7, 7),
                Act::Cuts(7),
                Act::IsEncoded(Some(Drawing::Hosts)),
            ],
        ),
        Turn(
            1,
            0,
            &[
                Act::Wants(None),
                Act::Puts(8, 8),
                Act::Cuts(8),
                Act::IsEncoded(None),
            ],
        ),
    ]),
    last: 8,
};

/// The number of the put after very many.
const LAST: u64 = MANY + 1;

/// Four threads read beside one that puts.
const BESIDE: ScreenCase = ScreenCase {
    name: "very many puts beside four watchers",
    places: 5,
    course: Course::Beside,
    last: LAST,
};

/// Each of four places holds a cut of another update. Then puts go on, and change none of these cuts. Where one place
/// holds a second cut, there are as many boards as there may be, seven: those of five cuts and of two copies. So a put
/// is refused, and changes nothing, until that cut is of a newer update.
const STALLED: ScreenCase = ScreenCase {
    name: "places that stall hold a board each",
    places: 4,
    course: Course::Turns(&[
        Turn(0, 0, &[Act::Puts(1, 1), Act::Cuts(1)]),
        Turn(1, 1, &[Act::Puts(2, 2), Act::Cuts(2)]),
        Turn(2, 2, &[Act::Puts(3, 3), Act::Cuts(3)]),
        Turn(3, 3, &[Act::Puts(4, 4), Act::Cuts(4), Act::Puts(5, 99)]),
        Turn(
            0,
            4,
            &[
                Act::Puts(100, 100),
                Act::Cuts(100),
                Act::Puts(101, 102),
                Act::IsRefused(103),
                Act::Shows(100),
            ],
        ),
        Turn(0, 0, &[Act::Shows(1)]),
        Turn(0, 1, &[Act::Shows(2)]),
        Turn(0, 2, &[Act::Shows(3)]),
        Turn(0, 3, &[Act::Shows(4)]),
        Turn(0, 4, &[Act::Cuts(102), Act::Puts(103, 103)]),
        Turn(0, 0, &[Act::Shows(1)]),
        Turn(0, 1, &[Act::Shows(2)]),
        Turn(0, 2, &[Act::Shows(3)]),
        Turn(0, 3, &[Act::Shows(4)]),
    ]),
    last: 103,
};

static CASES: [ScreenCase; 5] = [TOLD, KEPT, CHOSEN, BESIDE, STALLED];

/// Five puts are answered, at once or the next time.
static SHORT: ScreenCase = ScreenCase {
    name: "puts without memory",
    places: 2,
    course: Course::Short,
    last: 5,
};

/// Whether the act comes out right.
fn comes_right<J: Naming + Publishes, R: Wait + Drop>(
    alloc: Global,
    publisher: &mut Publisher<J, R>,
    watcher: &mut Watcher<J>,
    room: &mut Room,
    act: &Act,
) -> bool
    requires { (4 ≡ J.width) × (4 ≡ J.height) }
{
    match act {
        Act::Puts(first, last) => {
            matches!(puts_many(alloc, publisher, *first, *last, false), Ok(true))
        }
        Act::IsRefused(n) => matches!(puts_one(alloc, publisher, *n, true), Ok(false)),
        Act::Learns => {
            watcher.learn(&publisher.news());
            true
        }
        Act::Meets => {
            watcher.meet(publisher);
            true
        }
        Act::Wants(wants) => {
            watcher.want(Wanted {
                forms: wants.and_then(format_of),
                parts: false,
            });
            true
        }
        Act::Looks(n) => watcher.look() == *n,
        Act::Cuts(n) => {
            let cut = watcher.cut(&ALL, &room.have, None, &mut room.cut);
            matches!(cut, Ok(number) if number == *n) && room.shows(*n)
        }
        Act::Shows(n) => room.shows(*n),
        Act::HasForm(is_kept) => matches!(room.cut.forms().first(), Some(Some(_))) == *is_kept,
        Act::IsEncoded(drawing) => is_encoded(&room.cut, *drawing),
    }
}

/// Whether each act of a turn comes out right.
fn acts_come_right<J: Naming + Publishes, R: Wait + Drop>(
    alloc: Global,
    publisher: &mut Publisher<J, R>,
    watcher: &mut Watcher<J>,
    room: &mut Room,
    acts: &[Act],
) -> bool
    requires { (4 ≡ J.width) × (4 ≡ J.height) }
{
    let mut right = true;
    for act in acts {
        right = comes_right(alloc, publisher, watcher, room, act) && right;
    }
    right
}

/// Whether each turn comes out right.
fn turns_come_right<J: Naming + Publishes, R: Wait + Drop>(
    alloc: Global,
    publisher: &mut Publisher<J, R>,
    watchers: &mut [Watcher<J>],
    rooms: &mut [Room],
    turns: &[Turn],
) -> bool
    requires { (4 ≡ J.width) × (4 ≡ J.height) }
{
    let mut right = true;
    for Turn(watcher, room, acts) in turns {
        right = match (watchers.get_mut(*watcher), rooms.get_mut(*room)) {
            (Some(watcher), Some(room)) => {
                acts_come_right(alloc, publisher, watcher, room, acts) && right
            }
            _ => false,
        };
    }
    right
}

/// Whether each watcher looks at this number.
fn all_look<J: Naming>(watchers: &mut [Watcher<J>], number: u64) -> bool {
    let mut right = true;
    for watcher in watchers {
        right = watcher.look() == number && right;
    }
    right
}

/// Whether each watcher, once it has met the publisher, cuts this many updates.
fn all_cut<J: Naming + Publishes, R: Wait + Drop>(
    publisher: &Publisher<J, R>,
    watchers: &mut [Watcher<J>],
    room: &mut Room,
    number: u64,
) -> bool
    requires { (4 ≡ J.width) × (4 ≡ J.height) }
{
    let mut right = true;
    for watcher in watchers {
        watcher.meet(publisher);
        let cut = watcher.cut(&ALL, &room.have, None, &mut room.cut);
        right = matches!(cut, Ok(found) if found == number) && room.shows(number) && right;
    }
    right
}

/// Whether all is right where all watchers but the last read beside very many puts. After these each watcher, including
/// the one that never looked, looks at the last number and cuts that many updates. After one more put each looks once
/// more.
fn reads_beside<J: Naming + Publishes + Send + Sync, R: Threads + Wait + Sync + Send + Copy + Drop>(
    rt: R,
    alloc: Global,
    publisher: &mut Publisher<J, R>,
    watchers: &mut [Watcher<J>],
    room: &mut Room,
) -> bool
    requires { (4 ≡ J.width) × (4 ≡ J.height) }
{
    let is_read = match watchers.split_last_mut() {
        Some((_, readers)) => beside(&rt, alloc, publisher, readers),
        None => false,
    };
    let is_seen = all_look(watchers, MANY);
    let is_cut = all_cut(publisher, watchers, room, MANY);
    let is_put = matches!(puts_one(alloc, publisher, LAST, false), Ok(true));
    is_read && is_seen && is_cut && is_put && all_look(watchers, LAST)
}

/// Whether the course comes out right. It fails where memory is short.
fn goes_right<J: Naming + Publishes + Send + Sync, R: Threads + Wait + Sync + Send + Copy + Drop>(
    rt: R,
    alloc: Global,
    publisher: &mut Publisher<J, R>,
    watchers: &mut [Watcher<J>],
    rooms: &mut [Room],
    course: &Course,
) -> Result<bool, Fault>
    requires { (4 ≡ J.width) × (4 ≡ J.height) }
{
    match course {
        Course::Turns(turns) => Ok(turns_come_right(alloc, publisher, watchers, rooms, turns)),
        Course::Beside => match rooms.first_mut() {
            Some(room) => Ok(reads_beside(rt, alloc, publisher, watchers, room)),
            None => Ok(false),
        },
        Course::Short => puts_many(alloc, publisher, 1, 5, true),
    }
}

/// Whether each watcher looks at the last number still, and finds no publisher to cut.
fn is_gone<J: Naming>(watchers: &mut [Watcher<J>], rooms: &mut [Room], last: u64) -> bool
    requires { (4 ≡ J.width) × (4 ≡ J.height) }
{
    let Some(room) = rooms.last_mut() else {
        return false;
    };
    let mut right = true;
    for watcher in watchers {
        let cut = watcher.cut(&ALL, &room.have, None, &mut room.cut);
        right = watcher.look() == last && matches!(cut, Err(Fault::Gone)) && right;
    }
    right
}

/// Room for five cuts.
fn make_rooms(alloc: Global) -> Result<Vec<Room>, Fault> {
    let mut rooms = Vec::new(alloc);
    for _ in 0..5u64 {
        rooms.push(Room::new(alloc)?)?;
    }
    Ok(rooms)
}

/// Whether all is right with a new shared screen, up to its publisher's end.
fn plays<J: Naming + Publishes + Send + Sync, R: Threads + Wait + Sync + Send + Copy + Drop>(
    rt: R,
    alloc: Global,
    opened: Opened<J>,
    case: &ScreenCase,
) -> Result<bool, Fault>
    requires { (opened.seen.book ≡ J.book) × (4 ≡ J.width) × (4 ≡ J.height) }
{
    let places = case.places.clamp(1, 66);
    let (mut publisher, mut watchers) = shared::<J, R>(rt, alloc, opened, 4, 4, places)?;
    let watchers = watchers.as_mut_slice();
    let mut rooms = make_rooms(alloc)?;
    let rooms = rooms.as_mut_slice();
    let is_right = goes_right(rt, alloc, &mut publisher, watchers, rooms, &case.course);
    publisher.end();
    let is_left = is_gone(watchers, rooms, case.last);
    match is_right {
        Ok(is_right) => Ok(is_right && is_left),
        Err(fault) => Err(fault),
    }
}

/// Each case goes right. The first that doesn't is named.
#[test]
fn screens_are_shared(rt: HostRuntime) -> Result<(), Fail> {
    for case in &CASES {
        if !plays::<Brand, _>(rt, rt.alloc(), Opened::new(), case).unwrap_or(false) {
            return Err(Fail::new(case.name));
        }
    }
    Ok(())
}

/// All is right with a shared screen, at once or the next time: where memory is refused that is what is answered
/// (`Memory`), and nothing is amiss with the memory that is there then. `rt try --test --fail-alloc N` refuses the Nth
/// allocation, and the gate none.
#[test]
fn without_memory(rt: HostRuntime) {
    let mut shared = Err(Fault::Memory);
    for _ in 0..2u64 {
        if matches!(shared, Err(Fault::Memory)) {
            shared = plays::<Brand, _>(rt, rt.alloc(), Opened::new(), &SHORT);
        }
    }
    assert!(rt; matches!(shared, Ok(true)));
}
