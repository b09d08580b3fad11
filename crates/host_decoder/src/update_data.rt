//! The rectangles of an update, one after another (RFC 6143, 7.6.1).

ghost use Rattle.std.specs.Prelude.{◌≡◌, ◌<◌, ◌≤◌, List, [], ◌∷◌, ◌++◌, length, map, unwrap_or};
ghost use Rattle.byte_reading.specs.Reading.{Reading};
ghost use Rattle.pixel_format.specs.PixelFormat.{host_format};
ghost use Rattle.raster.specs.Screen.{Canvas, IsWithin};
ghost use Rattle.raster.specs.Size.{IsScreenSize};
ghost use Rattle.raster.specs.Update as update;
ghost use Rattle.rfb_wire.specs.ServerMessage.{data_of};
ghost use Rattle.host_decoder.specs.Data.{DataStands, IsWanting};
ghost use Rattle.host_decoder.specs.Decoder.{GoesOn, Holds, Stays, Uses, rectangles, with_others};
ghost use Rattle.host_decoder.specs.Updates.{in_colours};
ghost use Rattle.host_decoder.specs.declared.state.HostState.TheVariants as state;

use crate::data::Data;
use crate::event::HostEvent;
use crate::part::HostPart;
use crate::state::HostState;
use painter::Painter;
use raster::{Rect, Size};
use rfb_wire::{DESKTOP_SIZE, Fields};

/// The state where `left` rectangles are still to come: it wants the next one's header. Where none is left, it is the
/// end of the update, with its patch.
pub(crate) fn next_rectangle(painter: &mut Painter, left: u16) -> HostState
    ensures stays { Stays painter.old painter.new result }
    ensures goes_on { (start : Canvas) (sofar : List update.Paint) → Holds start painter.old sofar
        → GoesOn painter.old painter.new result start
        (rectangles painter.old.width painter.old.height sofar left) }
{
    if left > 0 {
        return HostState::Fields(Fields::of(HostPart::Area(left - 1)));
    }
    match painter.patch() {
        Ok(patch) => HostState::Whole(HostEvent::Paint(patch)),
        Err(fault) => HostState::Failed(fault),
    }
}

/// Reads a rectangle's data from the front of these bytes, and paints them; `left` more rectangles follow. It answers
/// the next state, or none where more data follow, and how many bytes it took.
pub(crate) fn read_data(
    painter: &mut Painter,
    left: u16,
    reader: &mut Data,
    bytes: &[u8],
) -> (Option<HostState>, usize)
    requires width { reader.old.width ≡ painter.old.width }
    requires height { reader.old.height ≡ painter.old.height }
    ensures stays { Stays painter.old painter.new
        (unwrap_or result.0 (state.Pixels left reader.new)) }
    ensures within { result.1 ≤ length bytes.now }
    ensures some { IsWanting reader.old → 0 < length bytes.now → 0 < result.1 }
    ensures uses { (start : Canvas) (sofar : List update.Paint) (reading : Reading update.Paint)
        → DataStands reader.old start (map in_colours sofar) painter.old reading
        → Uses painter.old painter.new (unwrap_or result.0 (state.Pixels left reader.new)) start
        (with_others painter.old.width painter.old.height sofar left reading) bytes.now result.1 }
{
    let (used, whole) = match reader.feed(painter, bytes) {
        Ok(fed) => fed,
        Err(fault) => return (Some(HostState::Failed(fault)), bytes.len()),
    };
    if !whole {
        return (None, used);
    }
    (Some(next_rectangle(painter, left)), used)
}

/// The state after a rectangle's encoding; `left` more rectangles follow. A new size has no data.
pub(crate) fn begin_data(painter: &mut Painter, left: u16, area: Rect, encoding: u32) -> HostState
    requires size { IsScreenSize painter.old.width painter.old.height }
    requires within { IsWithin area painter.old.width painter.old.height }
    ensures stays { Stays painter.old painter.new result }
    ensures goes_on { (start : Canvas) (sofar : List update.Paint) → Holds start painter.old sofar
        → GoesOn painter.old painter.new result start
        (with_others painter.old.width painter.old.height sofar left
        (data_of host_format painter.old.width painter.old.height area encoding)) }
{
    if encoding == DESKTOP_SIZE {
        painter.resize(Size {
            width: area.w,
            height: area.h,
        });
        return next_rectangle(painter, left);
    }
    let (width, height) = painter.size();
    match Data::new(width, height, area, encoding) {
        // The rectangle's data may have no byte.
        Ok(mut reader) => {
            let (next, _) = read_data(painter, left, &mut reader, &[]);
            next.unwrap_or(HostState::Pixels(left, reader))
        }
        Err(fault) => HostState::Failed(fault),
    }
}
