//! What may take too long for a browser's link: its handshake, and a silent screen. The clock is put forward by hand.

use crate::browser::{MESSAGE, PING, sends_frame};
use crate::clock::{ByHand, no_millis, puts_forward};
use crate::loopback::{hears, pair};
use crate::port::seat;
use connections::{BrowserLink, Seat, ViewerTcpLink};
use link::{Gave, Link, Took};
use run_traits::{Alarm, Parting};
use std::alloc::Global;
use std::io;
use std::io::ErrorKind;
use std::net::TcpStream;
use std::sync::atomic::AtomicU64;
use std::sync::{Arc, Wait};
use std::test::*;
use std::time::Clock;

/// A viewer's side of the handshake: its version, its choice and its shared-flag (RFC 6143, 7.1.1, 7.1.2 and 7.3.1).
const HELLO: &[u8] = b"RFB 003.008\n\x01\x01";

const VERSION: &[u8] = b"RFB 003.008\n";

/// A link may answer Nothing this often before bytes come.
const TRIES: u64 = 1_000;

/// What happens to a browser's link.
#[derive(Clone, Copy)]
enum Step {
    /// The browser sends a frame that begins so, with this payload.
    Sends(u8, &'static [u8]),
    /// The link takes these bytes next, which have come at once.
    Takes(&'static [u8]),
    /// The clock is put forward by this many milliseconds.
    Forward(u64),
    /// Once it is rung, the link answers so.
    Looks(Took),
    /// The link has failed this often.
    HasFailed(u64),
    /// The link is given this byte, and the browser is sent these bytes, which end with a message of it.
    IsSent(u8, &'static [u8]),
}

/// A browser's link, and how its connection stands at the end.
struct Scene {
    /// The name that is printed where the scene goes otherwise.
    name: &'static str,
    steps: &'static [Step],
    parting: Parting,
}

/// Whether the link takes these bytes next.
fn takes<L: Link>(link: &mut L, wanted: &[u8]) -> bool {
    let mut into = [0u8; 64];
    for _ in 0..TRIES {
        match link.take(&mut into) {
            Took::Bytes(count) => return into.get(..count) == Some(wanted),
            Took::Nothing => {}
            _ => return false,
        }
    }
    false
}

/// Whether the link takes this byte, and the browser is sent these bytes then.
fn is_sent<L: Link>(link: &mut L, far: &mut TcpStream, byte: u8, wanted: &[u8]) -> bool {
    let gave = link.give(&[byte]);
    link.flush();
    gave == Gave::Bytes(1) && hears(far, wanted)
}

/// Whether this step goes as it should.
fn is_taken<L: Link>(
    link: &mut L,
    far: &mut TcpStream,
    seat: &Seat,
    millis: &AtomicU64,
    step: &Step,
) -> bool {
    match *step {
        Step::Sends(first, payload) => sends_frame(far, first, payload),
        Step::Takes(wanted) => takes(link, wanted),
        Step::Forward(more) => puts_forward(millis, more),
        Step::Looks(wanted) => {
            seat.ring();
            link.take(&mut [0u8; 64]) == wanted
        }
        Step::HasFailed(wanted) => link.failures() == wanted,
        Step::IsSent(byte, wanted) => is_sent(link, far, byte, wanted),
    }
}

/// Whether each of these steps goes as it should.
fn plays<L: Link>(
    link: &mut L,
    far: &mut TcpStream,
    seat: &Seat,
    millis: &AtomicU64,
    steps: &[Step],
) -> bool {
    let mut is_right = true;
    for step in steps {
        is_right = is_right && is_taken(link, far, seat, millis, step);
    }
    is_right
}

/// A browser's link over this connection.
fn link_over<R>(
    rt: R,
    alloc: Global,
    near: TcpStream,
    seat: &Arc<Seat, Global>,
) -> io::Result<BrowserLink<R>>
where
    R: Wait + Clock + Copy + Drop,
{
    let below = ViewerTcpLink::new(rt, alloc, near, seat, 60)?;
    BrowserLink::new(rt, alloc, below, false)
}

/// Whether a scene goes as it should over a new link, by a clock that shows these milliseconds.
fn is_right<H>(hand: H, millis: &AtomicU64, net: &HostRuntime, scene: &Scene) -> io::Result<bool>
where
    H: Wait + Clock + Copy + Drop,
{
    let seat = seat(net)?;
    let Some((mut far, near)) = pair(net) else {
        return Err(io::Error::from(ErrorKind::NotConnected));
    };
    let mut link = link_over(hand, net.alloc(), near, &seat)?;
    let is_right = plays(&mut link, &mut far, &seat, millis, scene.steps);
    Ok(is_right && link.parting() == scene.parting)
}

/// The version with its frame has more bytes than the hello, and pings follow, but its messages have less.
const GIVEN_UP: &[Step] = &[
    Step::Sends(MESSAGE, VERSION),
    Step::Takes(VERSION),
    Step::Sends(PING, b"ping"),
    Step::Forward(9_999),
    Step::Looks(Took::Nothing),
    Step::HasFailed(0),
    Step::Sends(PING, b"ping"),
    Step::Forward(1),
    Step::Looks(Took::Failed),
    Step::HasFailed(1),
];

/// The hello comes in time. A ping is sent after 30 seconds without a byte given, but not before.
const KEPT_ALIVE: &[Step] = &[
    Step::Sends(MESSAGE, HELLO),
    Step::Takes(HELLO),
    Step::Forward(29_999),
    Step::Looks(Took::Nothing),
    Step::IsSent(b'A', b"\x82\x01A"),
    Step::Looks(Took::Nothing),
    Step::Forward(30_000),
    Step::Looks(Took::Nothing),
    Step::IsSent(b'B', b"\x89\0\x82\x01B"),
    Step::HasFailed(0),
];

const SCENES: &[Scene] = &[
    Scene {
        name: "a browser whose hello isn't whole in its messages is given up after ten seconds",
        steps: GIVEN_UP,
        parting: Parting::Late,
    },
    Scene {
        name: "a browser that has sent its hello may stay, and is pinged while the screen is silent",
        steps: KEPT_ALIVE,
        parting: Parting::Open,
    },
];

#[test]
fn link_waits_as_long_as_it_may(rt: HostRuntime) -> Result<(), Fail> {
    for scene in SCENES {
        let millis = no_millis(rt.alloc())?;
        let hand = ByHand {
            rt,
            millis,
            drawn: no_millis(rt.alloc())?,
            is_standing: true,
        };
        if !is_right(hand, millis, &rt, scene).unwrap_or(false) {
            return Err(Fail::new(scene.name));
        }
    }
    Ok(())
}
