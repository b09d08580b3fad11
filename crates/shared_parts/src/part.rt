//! A part, and the screen that it shows.

ghost use Rattle.std.specs.Prelude.{◌≡◌};
ghost use Rattle.shared_parts.specs.Parts.{IsScreen};

use counted_slot::Fits;
use pixel_format::Format;
use raster::Rect;
use std::snapshot::Snapshot;

/// A screen of colours, which stand in rows of `width`. Only contracts see the colours: none are kept here.
#[derive(Drop)]
pub struct Screen {
    pub width: u64,
    pub colours: Snapshot<Vec<u32>>,
}

impl Screen {
    /// The screen of these colours.
    pub(crate) fn new(width: u64, colours: &Vec<u32>) -> Screen
        ensures { IsScreen width colours.now.items result }
    {
        Screen {
            width,
            colours: Snapshot::of(colours),
        }
    }
}

/// The part of a zlib stream that inflates to the tiles of an area of a screen, for viewers of one pixel format.
#[derive(Drop)]
pub struct Part {
    pub format: Format,
    pub area: Rect,
    pub bytes: Vec<u8>,
}

impl Fits for Part {
    ghost use Rattle.shared_parts.specs.Parts.{ShowsArea};

    type Tag = Screen;

    ghost fits = { λ screen part. ShowsArea part.format screen.width screen.colours.value.items
        part.area part.bytes.items };
}
