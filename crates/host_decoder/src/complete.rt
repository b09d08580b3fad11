//! What follows once all bytes of a part have come.

ghost use Rattle.std.specs.Prelude.{◌≡◌, ℕ, List, length};
ghost use Rattle.pixel_format.specs.PixelFormat.{host_format};
ghost use Rattle.byte_reading.specs.Reading.{after};
ghost use Rattle.raster.specs.Screen.{Canvas};
ghost use Rattle.raster.specs.Size.{IsScreenSize};
ghost use Rattle.raster.specs.Update as update;
ghost use Rattle.rfb_wire.specs.ClientMessage.{text};
ghost use Rattle.rfb_wire.specs.ServerMessage.{LostText, ServerCutText, fault_outside, fields_of, is_at_corner, set_color_map_entries};
ghost use Rattle.host_decoder.specs.Decoder.{GoesOn, Holds, IsSuited, Stands, StandsUnpainted, Stays, Suits, SuitsPart, form_of};
ghost use Rattle.host_decoder.specs.declared.part.HostPart.TheVariants.{Area};
ghost use Rattle.host_decoder.specs.Parts.{len_of};

use crate::event::HostEvent;
use crate::part::HostPart;
use crate::passed::Passed;
use crate::state::HostState;
use crate::update_data::{begin_data, next_rectangle};
use fault::{Fault, LONGEST_TEXT};
use painter::{Painter, Patch};
use raster::Rect;
use rfb_wire::{
    BELL, DESKTOP_SIZE, FRAMEBUFFER_UPDATE, Fields, KeptText, SERVER_CUT_TEXT,
    SET_COLOUR_MAP_ENTRIES, Text, read_colour_map_head, read_encoding, read_text_head,
    read_update_head,
};
use std::alloc::Global;

/// What follows the type of a message.
fn behind_kind(painter: &Painter, kind: u8) -> HostState
    requires size { IsScreenSize painter.now.width painter.now.height }
    ensures suits { Suits painter.now.width painter.now.height result }
    ensures stands { StandsUnpainted painter.now.width painter.now.height result
        (fields_of host_format painter.now.width painter.now.height kind) }
{
    let part = match kind {
        FRAMEBUFFER_UPDATE => HostPart::Count,
        SET_COLOUR_MAP_ENTRIES => HostPart::Colours,
        BELL => {
            let (width, height) = painter.size();
            return HostState::Whole(HostEvent::Bell(Patch::bell(width, height)));
        }
        SERVER_CUT_TEXT => HostPart::Length,
        _ => return HostState::Failed(Fault::UnknownMessage(kind)),
    };
    HostState::Fields(Fields::of(part))
}

/// Whether a rectangle begins at the screen's top left, as a new size does.
fn is_at_corner(area: &Rect) -> bool
    ensures { result ≡ is_at_corner area.now }
{
    area.x == 0 && area.y == 0
}

/// The state after a rectangle's position; `left` more rectangles follow.
fn behind_area(painter: &Painter, left: u16, b: &[u8]) -> HostState
    requires { length b.now ≡ 8 }
    ensures suits { Suits painter.now.width painter.now.height result }
    ensures stands { (start : Canvas) (sofar : List update.Paint) → Holds start painter.now sofar
        → Stands painter.now.width painter.now.height result start painter.now
        (after (form_of painter.now.width painter.now.height sofar (Area left)) b.now) }
{
    let area = Rect::read(b);
    let (width, height) = painter.size();
    if area.within(width, height) {
        HostState::Fields(Fields::of(HostPart::Encoding(left, area)))
    } else if is_at_corner(&area) {
        HostState::Fields(Fields::of(HostPart::Outside))
    } else {
        HostState::Failed(Fault::RectOutside)
    }
}

/// The fault of a rectangle that leaves the screen, by its encoding: as a new size it is too large.
fn outside(encoding: u32) -> Fault
    ensures { result ≡ fault_outside encoding }
{
    if encoding == DESKTOP_SIZE {
        Fault::BadScreen
    } else {
        Fault::RectOutside
    }
}

/// What follows the number of a colour map's entries. Each entry has six bytes.
fn behind_colours(b: &[u8]) -> HostState
    requires { length b.now ≡ 5 }
    ensures stands { (w h : ℕ) → StandsUnpainted w h result (after set_color_map_entries b.now) }
    ensures suits { (w h : ℕ) → Suits w h result }
{
    let count = read_colour_map_head(b);
    HostState::past(Passed::Colours, u32::from(count) * 6)
}

/// What follows the length of a text.
fn behind_length(alloc: Global, painter: &Painter, b: &[u8]) -> HostState
    requires size { IsScreenSize painter.now.width painter.now.height }
    requires count { length b.now ≡ 7 }
    ensures suits { Suits painter.now.width painter.now.height result }
    ensures stands { StandsUnpainted painter.now.width painter.now.height result
        (after (text ServerCutText LostText) b.now) }
{
    let len = read_text_head(b);
    if len > LONGEST_TEXT {
        HostState::past(Passed::Text(len), len)
    } else if len == 0 {
        HostState::text(painter, Text::from_vec(Vec::new(alloc)))
    } else {
        HostState::Keeping(KeptText::begin(alloc, len as usize))
    }
}

/// How reading goes on after a part that has these bytes.
pub(crate) fn complete(alloc: Global, painter: &mut Painter, part: HostPart, b: &[u8]) -> HostState
    requires size { IsScreenSize painter.old.width painter.old.height }
    requires count { length b.now ≡ len_of part }
    requires suits { SuitsPart painter.old.width painter.old.height part }
    ensures stays { Stays painter.old painter.new result }
    ensures goes_on { (start : Canvas) (sofar : List update.Paint) → Holds start painter.old sofar
        → IsSuited part sofar
        → GoesOn painter.old painter.new result start
        (after (form_of painter.old.width painter.old.height sofar part) b.now) }
{
    match part {
        HostPart::Kind => behind_kind(painter, b[0]),
        HostPart::Count => next_rectangle(painter, read_update_head(b)),
        HostPart::Area(left) => behind_area(painter, left, b),
        HostPart::Encoding(left, area) => { begin_data(painter, left, area, read_encoding(b)) }
        HostPart::Outside => HostState::Failed(outside(read_encoding(b))),
        HostPart::Colours => behind_colours(b),
        HostPart::Length => behind_length(alloc, painter, b),
    }
}
