//! What is read together of a rectangle in Hextile.

ghost use Rattle.std.specs.Prelude.{◌≡◌, ◌≤◌};
ghost use Rattle.hextile_codec.specs.Ahead.{needed, head_len, is_failed, fault_for};

use crate::mask::{ANY_SUBRECTS, BACKGROUND_SPECIFIED, FOREGROUND_SPECIFIED, has};
use fault::Fault;
use pixel_format::Format;

/// What can be wrong with a tile.
#[derive(Clone, Copy)]
pub enum Flaw {
    NoBackground,
    NoForeground,
    SubrectOutside,
}

impl Flaw {
    /// The fault that it is.
    pub fn fault(self) -> Fault
        ensures { result ≡ fault_for self }
    {
        match self {
            Flaw::NoBackground => Fault::NoBackground,
            Flaw::NoForeground => Fault::NoForeground,
            Flaw::SubrectOutside => Fault::SubrectOutside,
        }
    }
}

/// What the next bytes of a tile are.
#[derive(Clone, Copy)]
pub enum Stage {
    /// Its mask.
    Mask,
    /// The pixels of a Raw tile, of which this many have come.
    RawPixels(u64),
    /// What this mask announces: background, foreground and the number of subrectangles.
    Head(u8),
    /// This many subrectangles, which may each have a colour.
    Subrects { coloured: bool, left: u64 },
    /// None: the tile is faulty.
    Failed(Flaw),
}

/// Whether the tile is faulty.
pub fn is_failed(stage: Stage) -> bool
    ensures { result ≡ is_failed stage }
{
    matches!(stage, Stage::Failed(_))
}

/// The most bytes that are looked at together: two colours of 4, and a number of subrectangles.
pub const MOST_NEEDED: usize = 9;

/// How many bytes tell what a mask announces.
pub fn head_len(format: &Format, mask: u8) -> usize
    ensures value { result ≡ head_len format.now mask }
    ensures most { result ≤ MOST_NEEDED }
{
    let pixel = format.bytes();
    let background = if has(mask, BACKGROUND_SPECIFIED) {
        pixel
    } else {
        0
    };
    let foreground = if has(mask, FOREGROUND_SPECIFIED) {
        pixel
    } else {
        0
    };
    let count = if has(mask, ANY_SUBRECTS) { 1 } else { 0 };
    background + foreground + count
}

/// How many bytes are looked at together.
pub fn needed(format: &Format, stage: Stage) -> usize
    ensures value { result ≡ needed format.now stage }
    ensures most { result ≤ MOST_NEEDED }
{
    match stage {
        Stage::Mask | Stage::Failed(_) => 1,
        Stage::RawPixels(_) => format.bytes(),
        Stage::Head(mask) => head_len(format, mask),
        Stage::Subrects { coloured: true, .. } => format.bytes() + 2,
        Stage::Subrects {
            coloured: false,
            ..
        } => 2,
    }
}
