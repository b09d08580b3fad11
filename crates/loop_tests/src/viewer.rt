//! What a viewer is given, and what of its input is relayed.

ghost use Rattle.std.specs.Prelude.{◌≡◌, ◌⊎◌, None};
ghost use Rattle.fault.specs.declared.kinds.Fault.TheVariants.{QueueFull, NumbersOut};
ghost use Rattle.input_relay.specs.Ends.{inputs_of};

use crate::watch::{ALWAYS, link_of, make_watch, number, red_and_blue};
use fault::Fault;
use input_relay::{Sender, Taker, relay};
use joined_runs::RectForm;
use link::{Gave, MemoryLink, Took};
use reflect_core::PlainScreen;
use roles::{Input, InputSink, Role};
use std::alloc::Global;
use std::sync::Wait;
use std::sync::atomic::Ordering;
use std::test::Fail;
use viewer_server::{Beginning, NoProgress, Visit, run_viewer};
use viewer_session::{AnswerForm, Session};

/// The form in which viewers are answered.
const FORM: AnswerForm = AnswerForm {
    runs: RectForm::OfRows,
    zrle: false,
    copies: false,
};

/// The end of a relay that is full for this many calls, and refuses the input of this number for good. It counts what
/// it is offered.
#[derive(Drop)]
struct Sink<R: Wait + Drop> {
    sender: Sender<R>,
    full: u64,
    lost: u64,
    offers: u64,
}

impl<R: Wait + Drop> InputSink for Sink<R> {
    ghost sent = { λ s. inputs_of s.sender };

    ghost may_refuse = { λ fault. (fault ≡ QueueFull) ⊎ (fault ≡ NumbersOut) };

    fn send(&mut self, input: Input) -> Result<(), (Fault, Input)> {
        self.offers = self.offers.wrapping_add(1);
        if self.offers == self.lost {
            return Err((Fault::NumbersOut, input));
        }
        if self.full > 0 {
            self.full -= 1;
            return Err((Fault::QueueFull, input));
        }
        Sender::send(&mut self.sender, input)
    }
}

/// A viewer of a screen that is red and blue, and what comes of it.
#[derive(Drop)]
struct Case<'a> {
    name: &'a str,
    role: Role,
    // What it sends, and the answers by which its link takes and gives, each with how often it comes.
    sends: &'a [u8],
    takes: &'a [(Took, usize)],
    gives: &'a [(Gave, usize)],
    // For how many calls the relay is full, which input it refuses for good, or 0, and how often the flag is asked
    // before it is set.
    full: u64,
    lost: u64,
    stop: u64,
    // The number of the fault, or 0, how often the loop rests, at least and at most, and how often the relay is
    // offered an input, at most.
    answer: u64,
    rests: (u64, u64),
    offers: u64,
    // What the viewer is given, and the next inputs that are relayed, in order.
    given: &'a [u8],
    relayed: &'a [[u64; 4]],
}

/// Serves the viewer. It answers whether all comes of it as told, but what is relayed.
fn serves<R: Wait + Drop>(
    rt: &R,
    case: &Case<'_>,
    link: MemoryLink,
    sink: Sink<R>,
    screen: PlainScreen,
    session: Session,
) -> bool
    requires screen { (screen.width ≡ session.width) × (screen.height ≡ session.height) }
    requires uncut { session.asked.last ≡ None }
{
    let watch = make_watch(case.stop);
    let first = Beginning::of(&link, &screen, &sink, &session);
    let mut visit = Visit::new(&first, link, screen, sink, session);
    let answer = run_viewer(rt, &mut visit, &watch, &watch, &NoProgress);
    let (link, _, sink, _) = visit.into_parts(());
    let rests = watch.rests.load(Ordering::SeqCst);
    let is_rested = case.rests.0 <= rests && rests <= case.rests.1;
    let is_answered = number(answer) == case.answer && sink.offers <= case.offers;
    is_answered && is_rested && link.given() == case.given
}

/// Serves a new viewer of a new screen.
fn serves_anew<R: Wait + Drop>(
    rt: &R,
    alloc: Global,
    case: &Case<'_>,
    link: MemoryLink,
    sink: Sink<R>,
) -> Result<bool, Fault> {
    let screen = red_and_blue(alloc)?;
    let session = Session::ready(alloc, 2, 1, case.role, FORM, None)?;
    Ok(serves(rt, case, link, sink, screen, session))
}

/// A relay for one viewer.
fn relay_of<R: Wait + Drop + Copy>(
    rt: R,
    alloc: Global,
    case: &Case<'_>,
) -> Result<(Sink<R>, Taker<R>), Fault> {
    let (mut senders, taker) = relay(rt, alloc, 1)?;
    match senders.pop() {
        Some(sender) => {
            let sink = Sink {
                sender,
                full: case.full,
                lost: case.lost,
                offers: 0,
            };
            Ok((sink, taker))
        }
        None => Err(Fault::Gone),
    }
}

/// Whether these are the next inputs that were relayed, each as four numbers, of which the first is the kind: 4 with
/// down and the key, 5 with the mask and the position, 6 for a text, and 0 where there is none.
fn relays<R: Wait + Drop>(taker: &mut Taker<R>, wanted: &[[u64; 4]]) -> bool {
    let mut is_so = true;
    for input in wanted {
        let next = match taker.take() {
            Some((_, Input::Key { down, key })) => [4, u64::from(down), u64::from(key), 0],
            Some((_, Input::Pointer { mask, x, y })) => {
                [5, u64::from(mask), u64::from(x), u64::from(y)]
            }
            Some((_, Input::Cut(_))) => [6, 0, 0, 0],
            None => [0; 4],
        };
        is_so = is_so && next == *input;
    }
    is_so
}

/// Whether the viewer is served as told.
fn goes_as_told<R: Wait + Drop + Copy>(
    rt: R,
    alloc: Global,
    case: &Case<'_>,
) -> Result<bool, Fault> {
    let link = link_of(alloc, case.sends, case.takes, case.gives)?;
    let (sink, mut taker) = relay_of(rt, alloc, case)?;
    let is_served = serves_anew(&rt, alloc, case, link, sink);
    let is_relayed = relays(&mut taker, case.relayed);
    Ok(matches!(is_served, Ok(true)) && is_relayed)
}

const ASK: [u8; 10] = [3, 0, 0, 0, 0, 0, 0, 2, 0, 1];

const ANSWER: [u8; 24] = [
    0, 0, 0, 1, 0, 0, 0, 0, 0, 2, 0, 1, 0, 0, 0, 0, 0, 0, 0xFF, 0, 0xFF, 0, 0, 0,
];

/// The letter a is pressed, two buttons at 258, 7, and the screen is asked for.
const INPUT_AND_ASK: [u8; 24] = [
    4, 1, 0, 0, 0, 0, 0, 0x61, 5, 3, 1, 2, 0, 7, 3, 0, 0, 0, 0, 0, 0, 2, 0, 1,
];

/// What of it goes to the host, with the releases, and nothing else.
const RELAYED: [[u64; 4]; 5] = [
    [4, 1, 0x61, 0],
    [5, 3, 258, 7],
    [4, 0, 0x61, 0],
    [5, 0, 258, 7],
    [0; 4],
];

/// No input is relayed.
const NO_INPUT: [[u64; 4]; 1] = [[0; 4]];

/// A viewer that asks, sends nothing a hundred times and ends, and takes one byte at each `give`, has the answer whole.
const HAS_ITS_ANSWER: Case<'static> = Case {
    name: "viewer has its answer",
    role: Role::Full,
    sends: &ASK,
    takes: &[(Took::Bytes(10), 1), (Took::Nothing, 100), (Took::End, 1)],
    gives: &[(Gave::Bytes(1), 40)],
    full: 0,
    lost: 0,
    stop: ALWAYS,
    answer: 0,
    rests: (0, 0),
    offers: ALWAYS,
    given: &ANSWER,
    relayed: &NO_INPUT,
};

/// A viewer that ends with bytes unsent, which it had no room for.
const ENDS_WITH_BYTES_UNSENT: Case<'static> = Case {
    name: "viewer ends with bytes unsent",
    role: Role::Full,
    sends: &ASK,
    takes: &[(Took::Bytes(10), 1), (Took::End, 1)],
    gives: &[(Gave::Bytes(3), 1), (Gave::Nothing, 2)],
    full: 0,
    lost: 0,
    stop: ALWAYS,
    answer: 22,
    rests: (0, 0),
    offers: ALWAYS,
    given: &[0, 0, 0],
    relayed: &NO_INPUT,
};

/// A viewer whose bytes are at fault.
const AT_FAULT: Case<'static> = Case {
    name: "viewer at fault",
    role: Role::Full,
    sends: &[7],
    takes: &[(Took::Bytes(1), 1)],
    gives: &[],
    full: 0,
    lost: 0,
    stop: ALWAYS,
    answer: 6,
    rests: (0, 0),
    offers: ALWAYS,
    given: &[],
    relayed: &NO_INPUT,
};

/// A viewer's input is relayed in order, and then what it leaves held down is released.
const INPUT_IS_RELAYED: Case<'static> = Case {
    name: "viewer input is relayed",
    role: Role::Full,
    sends: &INPUT_AND_ASK,
    takes: &[(Took::Bytes(24), 1), (Took::Nothing, 1), (Took::End, 1)],
    gives: &[(Gave::Bytes(30), 2)],
    full: 0,
    lost: 0,
    stop: ALWAYS,
    answer: 0,
    rests: (0, 0),
    offers: ALWAYS,
    given: &ANSWER,
    relayed: &RELAYED,
};

/// While the relay is full, for three calls, the loop rests; then the screen that was asked for after the input is
/// given.
const INPUT_WAITS: Case<'static> = Case {
    name: "viewer input waits and is relayed",
    role: Role::Full,
    sends: &INPUT_AND_ASK,
    takes: &[(Took::Bytes(24), 1), (Took::Nothing, 1), (Took::End, 1)],
    gives: &[(Gave::Bytes(30), 2)],
    full: 3,
    lost: 0,
    stop: ALWAYS,
    answer: 0,
    rests: (3, 3),
    offers: ALWAYS,
    given: &ANSWER,
    relayed: &RELAYED,
};

/// The input of a viewer that may only see isn't relayed.
const VIEW_IS_NOT_RELAYED: Case<'static> = Case {
    name: "input of a view is not relayed",
    role: Role::View,
    sends: &INPUT_AND_ASK,
    takes: &[(Took::Bytes(24), 1), (Took::Nothing, 1), (Took::End, 1)],
    gives: &[(Gave::Bytes(30), 2)],
    full: 0,
    lost: 0,
    stop: ALWAYS,
    answer: 0,
    rests: (0, 0),
    offers: ALWAYS,
    given: &ANSWER,
    relayed: &NO_INPUT,
};

/// Where the link fails while an input waits, the input goes in before the release. The loop rests at most once for
/// each call at which the relay is full.
const WAITING_INPUT_GOES_IN_FIRST: Case<'static> = Case {
    name: "waiting input goes in first",
    role: Role::Full,
    sends: &[3, 0, 0, 0, 0, 0, 0, 2, 0, 1, 4, 1, 0, 0, 0, 0, 0, 0x62],
    takes: &[(Took::Bytes(18), 1)],
    gives: &[(Gave::Bytes(3), 1), (Gave::Failed, 1)],
    full: 4,
    lost: 0,
    stop: ALWAYS,
    answer: 21,
    rests: (0, 4),
    offers: ALWAYS,
    given: &[0, 0, 0],
    relayed: &[[4, 1, 0x62, 0], [4, 0, 0x62, 0], [0; 4]],
};

/// A viewer that sends nothing is let go once the flag is set, before its link fails.
const SILENT_IS_LET_GO: Case<'static> = Case {
    name: "silent viewer is let go",
    role: Role::Full,
    sends: &[],
    takes: &[(Took::Nothing, 20), (Took::Failed, 1)],
    gives: &[],
    full: 0,
    lost: 0,
    stop: 5,
    answer: 0,
    rests: (0, 0),
    offers: ALWAYS,
    given: &[],
    relayed: &NO_INPUT,
};

/// Where the sink stays full, a viewer that leaves is waited for until the flag is set; then its input is given up.
/// What it asks for after the input isn't read.
const FULL_SINK_IS_GIVEN_UP: Case<'static> = Case {
    name: "full sink is given up",
    role: Role::Full,
    sends: &PRESS_AND_ASK,
    takes: &[(Took::Bytes(18), 1)],
    gives: &[(Gave::Bytes(30), 1)],
    full: 50,
    lost: 0,
    stop: 10,
    answer: 0,
    rests: (0, 10),
    offers: ALWAYS,
    given: &[],
    relayed: &NO_INPUT,
};

/// The letters a and b are pressed.
const TWO_KEYS: [u8; 16] = [4, 1, 0, 0, 0, 0, 0, 0x61, 4, 1, 0, 0, 0, 0, 0, 0x62];

/// The first input is taken and the second is refused for good: then the sink is offered neither the second once more
/// nor a release, though it would take both.
const NOTHING_IS_OFFERED_AFTER_A_REFUSAL: Case<'static> = Case {
    name: "nothing is offered after a refusal",
    role: Role::Full,
    sends: &TWO_KEYS,
    takes: &[(Took::Bytes(16), 1), (Took::End, 1)],
    gives: &[],
    full: 0,
    lost: 2,
    stop: ALWAYS,
    answer: 31,
    rests: (0, ALWAYS),
    offers: 2,
    given: &[],
    relayed: &[[4, 1, 0x61, 0], [0; 4]],
};

static CASES: [Case<'static>; 10] = [
    HAS_ITS_ANSWER,
    ENDS_WITH_BYTES_UNSENT,
    AT_FAULT,
    INPUT_IS_RELAYED,
    INPUT_WAITS,
    VIEW_IS_NOT_RELAYED,
    WAITING_INPUT_GOES_IN_FIRST,
    SILENT_IS_LET_GO,
    FULL_SINK_IS_GIVEN_UP,
    NOTHING_IS_OFFERED_AFTER_A_REFUSAL,
];

/// Each case goes as it is told above.
#[test]
fn viewer_is_served(rt: HostRuntime) -> Result<(), Fail> {
    for case in &CASES {
        if !goes_as_told(rt, rt.alloc(), case).unwrap_or(false) {
            return Err(Fail::new(case.name));
        }
    }
    Ok(())
}

/// The letter a is pressed, and the screen is asked for. Its bytes are taken one at a time, and those of the answer
/// given one at a time, so there are 18 calls to take, 24 to give, and one that finds the end.
const PRESS_AND_ASK: [u8; 18] = [4, 1, 0, 0, 0, 0, 0, 0x61, 3, 0, 0, 0, 0, 0, 0, 2, 0, 1];

/// The links' calls of a run in which none fails.
const CALLS: usize = 43;

/// Serves a viewer whose link answers so at this call, counted from 0, and ends with its bytes. It answers whether
/// serving ended with this answer, whether the viewer was given the bytes before that call, and whether what came of
/// its input was relayed and released.
fn is_served_until<R: Wait + Drop + Copy>(
    rt: R,
    alloc: Global,
    call: usize,
    last: (Took, Gave),
    answer: u64,
) -> Result<bool, Fault> {
    let count = call.saturating_sub(18).min(24);
    let is_taking = call < 18 || call == 42;
    let is_giving = 18 <= call && call < 42;
    let pressed: [[u64; 4]; 3] = [[4, 1, 0x61, 0], [4, 0, 0x61, 0], [0; 4]];
    let case = Case {
        name: "a call",
        role: Role::Full,
        sends: &PRESS_AND_ASK,
        takes: &[
            (Took::Bytes(1), call.min(18)),
            (last.0, usize::from(is_taking)),
        ],
        gives: &[(Gave::Bytes(1), count), (last.1, usize::from(is_giving))],
        full: 0,
        lost: 0,
        stop: ALWAYS,
        answer,
        rests: (0, 0),
        offers: ALWAYS,
        given: &ANSWER[..count],
        relayed: if call < 8 { &NO_INPUT } else { &pressed },
    };
    goes_as_told(rt, alloc, &case)
}

/// A link that fails at any of its calls is `LinkFailed`. A link that ends at any of its calls is `LinkEnded`, except
/// between two messages with nothing unsent. The first call at which it goes otherwise is printed.
#[test]
fn viewer_fails_or_ends_at_each_call(rt: HostRuntime) -> Result<(), Fail> {
    for call in 0..=CALLS {
        let at_failure = if call < CALLS { 21 } else { 0 };
        let is_between = call == 0 || call == 8 || call >= 42;
        let at_end = if is_between { 0 } else { 22 };
        for (last, answer) in [
            ((Took::Failed, Gave::Failed), at_failure),
            ((Took::End, Gave::End), at_end),
        ] {
            if !is_served_until(rt, rt.alloc(), call, last, answer).unwrap_or(false) {
                return Err(Fail::new(call));
            }
        }
    }
    Ok(())
}
