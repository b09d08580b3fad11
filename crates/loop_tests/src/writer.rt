//! What the host's writer tells the host.

ghost use Rattle.std.specs.Prelude.{◌≡◌, length};

use crate::noted::{NotedScreen, Notes};
use crate::watch::{ALWAYS, Watch, link_of, make_watch, number, red_and_blue};
use fault::{Fault, LIMIT};
use host_writer::{DropCount, TellBeginning, Telling, run_writer};
use input_relay::{Sender, Taker, relay};
use link::{Gave, MemoryLink};
use reflect_core::PlainScreen;
use rfb_wire::Text;
use roles::{Input, Strokes};
use std::alloc::Global;
use std::sync::Wait;
use std::sync::atomic::Ordering;
use std::test::Fail;

/// Sets a flag at the tenth look.
#[derive(Drop)]
struct TenLooks<'a> {
    count: u64,
    flag: &'a Watch,
}

impl<'a> Notes for TenLooks<'a> {
    fn look(&mut self) {
        self.count = self.count.saturating_add(1);
        if self.count == 10 {
            self.flag.asked.store(ALWAYS, Ordering::SeqCst);
        }
    }
}

/// An input that a place sends.
#[derive(Clone, Copy)]
enum Sent {
    /// Whether the key goes down, and which it is.
    Key(bool, u32),
    /// The buttons that are down, and the position.
    Pointer(u8, u16, u16),
    /// A text of two letters.
    Text,
}

/// What a host is told of a screen of 2 by 1, up to its tenth look.
#[derive(Drop)]
struct Case<'a> {
    name: &'a str,
    // Whether the relay has one place, or two.
    is_alone: bool,
    // The inputs in the relay, each with the number of its place.
    inputs: &'a [(usize, Sent)],
    // The answers by which its link gives, each with how often it comes, and how often the flag is asked before it is
    // set.
    gives: &'a [(Gave, usize)],
    stop: u64,
    // The number of the fault, or 0, and how often the loop rests, at least and at most.
    answer: u64,
    rests: (u64, u64),
    // What the host is told, and how many inputs of each of the two places are dropped.
    given: &'a [u8],
    dropped: (u64, u64),
}

/// Sends these inputs, each at its place. It answers whether all were taken.
fn send_all<R: Wait + Drop>(
    alloc: Global,
    senders: &mut [Sender<R>],
    inputs: &[(usize, Sent)],
) -> Result<bool, Fault> {
    let mut are_taken = true;
    for (place, sent) in inputs {
        let sender = senders.get_mut(*place).ok_or(Fault::Gone)?;
        let input = match *sent {
            Sent::Key(down, key) => Input::Key { down, key },
            Sent::Pointer(mask, x, y) => Input::Pointer { mask, x, y },
            Sent::Text => Input::Cut(Text::from_vec([0x68, 0xE9].to_vec(alloc)?)),
        };
        are_taken &= sender.send(input).is_ok();
    }
    Ok(are_taken)
}

/// The end of a relay in which these inputs wait.
fn relay_with<R: Wait + Drop + Copy>(
    rt: R,
    alloc: Global,
    case: &Case<'_>,
) -> Result<Taker<R>, Fault> {
    let made = if case.is_alone {
        relay(rt, alloc, 1)
    } else {
        relay(rt, alloc, 2)
    };
    let (mut senders, taker) = made?;
    match send_all(alloc, senders.as_mut_slice(), case.inputs) {
        Ok(true) => Ok(taker),
        Ok(false) => Err(Fault::QueueFull),
        Err(fault) => Err(fault),
    }
}

/// How many inputs were dropped.
#[derive(Drop)]
struct DropCounter {
    count: u64,
}

impl DropCount for DropCounter {
    ghost dropped = { λ drops. drops.count };

    fn count_one(&mut self) {
        self.count = LIMIT.min(self.count.saturating_add(1));
    }
}

/// Tells the host what was relayed. It answers whether all is as told: the answer, the rests, and how many inputs were
/// dropped, of each place and of both.
fn tells<R: Wait + Drop>(
    rt: &R,
    case: &Case<'_>,
    link: MemoryLink,
    taker: Taker<R>,
    strokes: Strokes,
    screen: PlainScreen,
) -> bool
    requires screen { (screen.width ≡ 2) × (screen.height ≡ 1) }
    requires places { length strokes.counts ≡ 2 }
{
    let watch = make_watch(case.stop);
    let source = NotedScreen {
        screen,
        notes: TenLooks {
            count: 0,
            flag: &watch,
        },
    };
    let drops = DropCounter { count: 0 };
    let first = TellBeginning::of(&link, &source, &taker, &strokes, &drops);
    let mut telling = Telling::new(&first, link, source, taker, strokes, drops);
    let answer = run_writer(rt, &mut telling, &watch, &watch);
    let (link, _, _, strokes, drops) = telling.into_parts(());
    let rests = watch.rests.load(Ordering::SeqCst);
    let is_rested = case.rests.0 <= rests && rests <= case.rests.1;
    let dropped = (strokes.dropped(0), strokes.dropped(1));
    let are_counted = dropped == case.dropped
        && drops.count == case.dropped.0.saturating_add(case.dropped.1);
    let is_answered = number(answer) == case.answer && link.given() == case.given;
    is_answered && is_rested && are_counted
}

/// Whether the host of a new screen is told as the case says.
fn goes_as_told<R: Wait + Drop + Copy>(
    rt: R,
    alloc: Global,
    case: &Case<'_>,
) -> Result<bool, Fault> {
    let taker = relay_with(rt, alloc, case)?;
    let link = link_of(alloc, &[], &[], case.gives)?;
    let screen = red_and_blue(alloc)?;
    let strokes = Strokes::new(alloc, 2)?;
    Ok(tells(&rt, case, link, taker, strokes, screen))
}

/// The letter a is pressed.
const PRESS_A: Sent = Sent::Key(true, 0x61);

/// That press in bytes, and a request for what is new of the whole screen.
const PRESS_AND_REQUEST: [u8; 18] = [4, 1, 0, 0, 0, 0, 0, 0x61, 3, 1, 0, 0, 0, 0, 0, 2, 0, 1];

/// One input in the relay and one raise give that input's bytes and one request; the loop ends at the tenth look.
const INPUT_AND_REQUEST: Case<'static> = Case {
    name: "writer tells input and asks",
    is_alone: true,
    inputs: &[(0, PRESS_A)],
    gives: &[
        (Gave::Nothing, 1),
        (Gave::Bytes(7), 1),
        (Gave::Nothing, 1),
        (Gave::Bytes(7), 3),
    ],
    stop: ALWAYS,
    answer: 0,
    rests: (9, 9),
    given: &PRESS_AND_REQUEST,
    dropped: (0, 0),
};

/// A key, a position and a text are told in their order, the request after the first of them, however the link cuts
/// them.
const EACH_FORM: Case<'static> = Case {
    name: "writer tells each form",
    is_alone: true,
    inputs: &[(0, PRESS_A), (0, Sent::Pointer(3, 258, 7)), (0, Sent::Text)],
    gives: &[(Gave::Bytes(1), 40)],
    stop: ALWAYS,
    answer: 0,
    rests: (7, 7),
    // The key, the request, two buttons that are down at 258, 7, and the text of two letters.
    given: &[
        4, 1, 0, 0, 0, 0, 0, 0x61, 3, 1, 0, 0, 0, 0, 0, 2, 0, 1, 5, 3, 1, 2, 0, 7, 6, 0, 0, 0, 0,
        0, 0, 2, 0x68, 0xE9,
    ],
    dropped: (0, 0),
};

/// While the first place has a button down, nothing of the second passes: the host is told the stroke whole. The loop
/// rests at most once a look.
const STROKES_ARE_WHOLE: Case<'static> = Case {
    name: "writer keeps strokes whole",
    is_alone: false,
    inputs: &[
        (0, Sent::Pointer(1, 0, 0)),
        (1, PRESS_A),
        (1, Sent::Key(false, 0x61)),
        (0, Sent::Pointer(0, 1, 0)),
        (1, PRESS_A),
    ],
    gives: &[(Gave::Bytes(6), 40)],
    stop: ALWAYS,
    answer: 0,
    rests: (0, 10),
    // A button goes down at 0, 0, what is new is asked for, the button goes up at 1, 0, and the letter a is pressed.
    given: &[
        5, 1, 0, 0, 0, 0, 3, 1, 0, 0, 0, 0, 0, 2, 0, 1, 5, 0, 0, 1, 0, 0, 4, 1, 0, 0, 0, 0, 0, 0x61,
    ],
    dropped: (0, 2),
};

/// The writer doesn't wait, once the flag is set, for a host that took three bytes of an input and then nothing.
const STALLED_IS_LET_GO: Case<'static> = Case {
    name: "stalled host is let go",
    is_alone: true,
    inputs: &[(0, PRESS_A)],
    gives: &[(Gave::Bytes(3), 1), (Gave::Nothing, 50)],
    stop: 10,
    answer: 0,
    rests: (0, 10),
    given: &[4, 1, 0],
    dropped: (0, 0),
};

static CASES: [Case<'static>; 4] = [
    INPUT_AND_REQUEST,
    EACH_FORM,
    STROKES_ARE_WHOLE,
    STALLED_IS_LET_GO,
];

/// Whether the host is told this many bytes where its link takes them one at a time, and then answers so.
fn is_told_until<R: Wait + Drop + Copy>(
    rt: R,
    alloc: Global,
    count: usize,
    last: Gave,
    answer: u64,
) -> Result<bool, Fault> {
    let case = Case {
        name: "a call",
        is_alone: true,
        inputs: &[(0, PRESS_A)],
        gives: &[(Gave::Bytes(1), count), (last, 1)],
        stop: ALWAYS,
        answer,
        rests: (0, 10),
        given: &PRESS_AND_REQUEST[..count.min(18)],
        dropped: (0, 0),
    };
    goes_as_told(rt, alloc, &case)
}

/// Each case goes as it is told above.
#[test]
fn host_is_told(rt: HostRuntime) -> Result<(), Fail> {
    for case in &CASES {
        if !goes_as_told(rt, rt.alloc(), case).unwrap_or(false) {
            return Err(Fail::new(case.name));
        }
    }
    Ok(())
}

/// A link that fails at any of its 18 calls is `LinkFailed`. Where the link ends before the first byte of the input or
/// of the request there is no fault, and inside them it is `LinkEnded`. The bytes before that call are told. The first
/// call at which it goes otherwise is printed.
#[test]
fn writer_fails_or_ends_at_each_call(rt: HostRuntime) -> Result<(), Fail> {
    for count in 0..=18 {
        let at_failure = if count < 18 { 21 } else { 0 };
        let is_before = count == 0 || count == 8 || count == 18;
        let at_end = if is_before { 0 } else { 22 };
        for (last, answer) in [(Gave::Failed, at_failure), (Gave::End, at_end)] {
            if !is_told_until(rt, rt.alloc(), count, last, answer).unwrap_or(false) {
                return Err(Fail::new(count));
            }
        }
    }
    Ok(())
}
