//! Lines of a script.

ghost use Rattle.std.specs.Prelude.{◌≡◌, ◌≢◌, ◌==◌, ◌≤◌, ◌<◌, ◌^◌, ◌++◌, ◌∷◌, ◌&&◌, ◌||◌, ℕ, All, IfOk, IfErr, IfSome, IfNone, codes, length, nat_lt, slice_index};
ghost use Rattle.std.specs.Fmt.{decimal};
ghost use Rattle.fault.specs.declared.kinds.Fault.TheVariants.{Memory};
ghost use Rattle.replay.specs.Script.{blank};
ghost use Rattle.replay.specs.Line.{IsInRange, ReadsBehind, Says, access_word};
ghost use Rattle.replay.specs.declared.line.Access as declared_access;
ghost use Rattle.replay.specs.declared.line.Line as declared;

use crate::hexadecimal::script_bytes;
use fault::Fault;
use std::alloc::Global;

/// What a viewer of a script may do.
#[derive(Clone, Copy, Debug, PartialEq, Eq)]
pub enum Access {
    /// It sees the screen and sends input.
    Full,
    /// It only sees the screen.
    View,
}

/// What a line of a script says.
#[derive(Debug, Drop)]
pub enum Line<'a> {
    /// The screen's width and height in pixels, and its name. The first line says this, and no other does.
    Screen(u64, u64, &'a str),
    /// These bytes come from the host.
    Host(Vec<u8>),
    /// The tally becomes the number of updates.
    Raise,
    /// A viewer joins whose hello counts as done.
    Open(u64, Access),
    /// A viewer joins, and begins with its hello.
    Greet(u64, Access),
    /// These bytes come from a viewer.
    Viewer(u64, Vec<u8>),
    /// A viewer has a turn.
    Turn(u64),
    /// A viewer leaves.
    Leave(u64),
    /// All inputs that wait go to the host, except those that break into another viewer's stroke.
    Input,
    /// The script asks how many inputs of a viewer were dropped.
    Dropped(u64),
    /// The host has ended, and the next one begins.
    Next,
}

impl<'a> Line<'a> {
    /// Reads a line, without its line feed. It answers `None` where the line has no valid form. Its only fault is
    /// `Memory`.
    pub fn read(alloc: Global, line: &'a str) -> Result<Option<Line<'a>>, Fault>
        ensures in_range { IfOk result (λ found. IfSome found IsInRange) }
        ensures says { IfOk result (λ found. IfSome found (λ said. Says said line.now)) }
        ensures none { IfOk result (λ found.
            IfNone found ((said : declared.Line) → IsInRange said → ¬ Says said line.now)) }
        ensures memory { IfErr result (λ fault. fault ≡ Memory) }
    {
        if line == "raise" {
            return Ok(Some(Line::Raise));
        }
        if line == "input" {
            return Ok(Some(Line::Input));
        }
        if line == "next" {
            return Ok(Some(Line::Next));
        }
        let Some((word, rest)) = split(line) else {
            return Ok(None);
        };
        match word {
            "screen" => Ok(screen_line(rest)),
            "host" => host_line(alloc, rest),
            "open" => Ok(open_line(rest)),
            "greet" => Ok(greet_line(rest)),
            "viewer" => viewer_line(alloc, rest),
            "turn" => Ok(turn_line(rest)),
            "leave" => Ok(leave_line(rest)),
            "dropped" => Ok(dropped_line(rest)),
            _ => Ok(None),
        }
    }
}

/// Whether a text has a plus or a leading zero, which `parse` would take.
fn is_padded(text: &[u8]) -> bool
    ensures { result ≡ ((slice_index text.now 0 == 43)
        || ((slice_index text.now 0 == 48) && nat_lt 1 (length text.now))) }
{
    !text.is_empty() && (text[0] == b'+' || (text[0] == b'0' && text.len() > 1))
}

/// A number in decimal digits, without a sign and without leading zeros.
fn number(text: &str) -> Option<u64>
    ensures found { IfSome result (λ found. (found < 2 ^ 64) × (text.now ≡ decimal found)) }
    ensures none { IfNone result ((n : ℕ) → n < 2 ^ 64 → text.now ≢ decimal n) }
{
    if is_padded(text.as_bytes()) {
        return None;
    }
    text.parse::<u64>().ok()
}

/// The word before the first blank, and what follows it.
fn split(text: &str) -> Option<(&str, &str)>
    ensures found { IfSome result (λ parts.
        (text.now ≡ parts.0.now ++ (blank ∷ parts.1.now)) × All (λ b. b ≢ blank) parts.0.now) }
    ensures none { IfNone result (All (λ b. b ≢ blank) text.now) }
{
    text.split_once(' ')
}

/// A number from 1 on.
fn number_up_to(greatest: u64, text: &str) -> Option<u64>
    ensures found { IfSome result (λ found.
        (1 ≤ found) × (found ≤ greatest) × (text.now ≡ decimal found)) }
    ensures none { IfNone result ((n : ℕ) → 1 ≤ n → n ≤ greatest → text.now ≢ decimal n) }
{
    match number(text) {
        Some(found) if found >= 1 && found <= greatest => Some(found),
        _ => None,
    }
}

/// The number of a viewer.
fn viewer_number(text: &str) -> Option<u64>
    ensures found { IfSome result (λ viewer.
        (1 ≤ viewer) × (viewer ≤ 64) × (text.now ≡ decimal viewer)) }
    ensures none { IfNone result ((n : ℕ) → 1 ≤ n → n ≤ 64 → text.now ≢ decimal n) }
{
    number_up_to(64, text)
}

/// `W H NAME`: the name is all that follows the one blank after H, 1 to 255 bytes.
fn screen_line(text: &str) -> Option<Line<'_>>
    ensures { ReadsBehind (codes "screen") text.now result }
{
    let (width, rest) = split(text)?;
    let (height, name) = split(rest)?;
    let width = number_up_to(4096, width)?;
    let height = number_up_to(4096, height)?;
    if name.is_empty() || name.len() > 255 {
        return None;
    }
    Some(Line::Screen(width, height, name))
}

/// What follows `host`: `HEX`, the bytes that the host sends.
fn host_line(alloc: Global, text: &str) -> Result<Option<Line<'static>>, Fault>
    ensures reads { IfOk result (ReadsBehind (codes "host") text.now) }
    ensures memory { IfErr result (λ fault. fault ≡ Memory) }
{
    match script_bytes(alloc, text)? {
        Some(bytes) => Ok(Some(Line::Host(bytes))),
        None => Ok(None),
    }
}

/// `full` or `view`
fn access_of(word: &str) -> Option<Access>
    ensures found { IfSome result (λ access. word.now ≡ access_word access) }
    ensures none { IfNone result
        ((access : declared_access.Access) → word.now ≢ access_word access) }
{
    match word {
        "full" => Some(Access::Full),
        "view" => Some(Access::View),
        _ => None,
    }
}

/// `V full` or `V view`
fn place_of(text: &str) -> Option<(u64, Access)>
    ensures found { IfSome result (λ place. (1 ≤ place.0) × (place.0 ≤ 64)
        × (text.now ≡ decimal place.0 ++ (blank ∷ access_word place.1))) }
    ensures none { IfNone result ((n : ℕ) (access : declared_access.Access) → 1 ≤ n → n ≤ 64
        → text.now ≢ decimal n ++ (blank ∷ access_word access)) }
{
    let (viewer, word) = split(text)?;
    let access = access_of(word)?;
    let viewer = viewer_number(viewer)?;
    Some((viewer, access))
}

fn open_line(text: &str) -> Option<Line<'static>>
    ensures { ReadsBehind (codes "open") text.now result }
{
    let (viewer, access) = place_of(text)?;
    Some(Line::Open(viewer, access))
}

fn greet_line(text: &str) -> Option<Line<'static>>
    ensures { ReadsBehind (codes "greet") text.now result }
{
    let (viewer, access) = place_of(text)?;
    Some(Line::Greet(viewer, access))
}

/// What follows `viewer`: `V HEX`, the viewer and the bytes that it sends.
fn viewer_line(alloc: Global, text: &str) -> Result<Option<Line<'static>>, Fault>
    ensures reads { IfOk result (ReadsBehind (codes "viewer") text.now) }
    ensures memory { IfErr result (λ fault. fault ≡ Memory) }
{
    let Some((viewer, hex)) = split(text) else {
        return Ok(None);
    };
    let Some(viewer) = viewer_number(viewer) else {
        return Ok(None);
    };
    match script_bytes(alloc, hex)? {
        Some(bytes) => Ok(Some(Line::Viewer(viewer, bytes))),
        None => Ok(None),
    }
}

/// What follows `turn`: `V`, the viewer whose turn it is.
fn turn_line(text: &str) -> Option<Line<'static>>
    ensures { ReadsBehind (codes "turn") text.now result }
{
    let viewer = viewer_number(text)?;
    Some(Line::Turn(viewer))
}

/// What follows `leave`: `V`, the viewer that leaves.
fn leave_line(text: &str) -> Option<Line<'static>>
    ensures { ReadsBehind (codes "leave") text.now result }
{
    let viewer = viewer_number(text)?;
    Some(Line::Leave(viewer))
}

/// What follows `dropped`: `V`, the viewer whose dropped inputs are counted.
fn dropped_line(text: &str) -> Option<Line<'static>>
    ensures { ReadsBehind (codes "dropped") text.now result }
{
    let viewer = viewer_number(text)?;
    Some(Line::Dropped(viewer))
}
