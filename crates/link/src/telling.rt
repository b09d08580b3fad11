//! Tells a host the first messages, once its handshake is whole.

ghost use Rattle.std.specs.Prelude.{◌≡◌, ◌<◌, ◌≤◌, ℕ, List, Option, MatchResult, length};
ghost use Rattle.rfb_wire.specs.Handshake.{Joined};
ghost use Rattle.link.specs.Joins.{LinkFails, first_messages};
ghost use Rattle.link.specs.Links.{LinkState};
ghost use Rattle.link.specs.Moment.{IsTelling, TellsSoFar};

use crate::hearing::give_some;
use crate::link::Link;
use fault::Fault;
use pixel_format::Format;
use raster::{COPY_RECT, Encoding, Rect};
use rfb_wire::{DESKTOP_SIZE, write_request, write_set_encodings, write_set_pixel_format};

/// How many bytes a SetPixelFormat has (RFC 6143, 7.5.1).
const FORMAT_LEN: usize = 20;

/// How many bytes a SetEncodings with five encodings has (RFC 6143, 7.5.2).
const ENCODINGS_LEN: usize = 24;

/// How many bytes the first messages have: these two, and a FramebufferUpdateRequest of 10 (RFC 6143, 7.5.3).
pub(crate) const MESSAGES_LEN: usize = 54;

/// Writes the first messages to a host whose screen has this size: the format of `Format::HOST`, the encodings
/// CopyRect, Hextile, RRE and Raw, then DesktopSize, and a request of the whole screen.
fn write_messages(width: u64, height: u64, out: &mut [u8])
    requires room { length out.old ≡ 54 }
    requires size { (width ≤ 4096) × (height ≤ 4096) }
    ensures { (joined : Joined) → joined.w ≡ width → joined.h ≡ height
        → out.new ≡ first_messages joined }
{
    let screen = Rect {
        x: 0,
        y: 0,
        w: width,
        h: height,
    };
    let numbers = [
        COPY_RECT,
        Encoding::Hextile.number(),
        Encoding::Rre.number(),
        Encoding::Raw.number(),
        DESKTOP_SIZE,
    ];
    let (format, others) = out.split_at_mut(FORMAT_LEN);
    write_set_pixel_format(&Format::HOST, format);
    let (encodings, request) = others.split_at_mut(ENCODINGS_LEN);
    write_set_encodings(&numbers, encodings);
    write_request(false, &screen, request);
}

/// The first messages to a host whose screen has this size.
pub(crate) fn messages_of(width: u64, height: u64) -> [u8; MESSAGES_LEN]
    requires { (width ≤ 4096) × (height ≤ 4096) }
    ensures { (joined : Joined) → joined.w ≡ width → joined.h ≡ height
        → result ≡ first_messages joined }
{
    let mut messages = [0; MESSAGES_LEN];
    write_messages(width, height, &mut messages);
    messages
}

/// Gives the link as many further bytes of these messages as it takes now. `given` counts the bytes that were given.
pub(crate) fn tell<L: Link>(link: &mut L, messages: &[u8], given: &mut usize) -> Result<(), Fault>
    requires { given.old < length messages.now }
    ensures so_far { (password : Option (List ℕ)) (start : LinkState) (joined : Joined)
        → TellsSoFar password start (L.state link.old) joined messages.now given.old
        → TellsSoFar password start (L.state link.new) joined messages.now given.new }
    ensures keeps { (password : Option (List ℕ)) (start : LinkState) (joined : Joined)
        → IsTelling password start (L.state link.old) joined messages.now given.old
        → MatchResult result
        (λ _. IsTelling password start (L.state link.new) joined messages.now given.new)
        (λ fault. LinkFails fault start (L.state link.new)) }
{
    let (_, left) = messages.split_at(*given);
    let count = give_some(link, left)?;
    *given += count;
    Ok(())
}
