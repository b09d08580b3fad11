//! How a decoder's state takes bytes from the front of a piece. Each call answers the next state, or none where the
//! state stays, and how many bytes were taken.

ghost use Rattle.std.specs.Prelude.{◌≡◌, ◌<◌, ◌≤◌, [], length, unwrap_or};
ghost use Rattle.byte_reading.specs.Reading.{Reading};
ghost use Rattle.raster.specs.Screen.{Canvas};
ghost use Rattle.raster.specs.Size.{IsScreenSize};
ghost use Rattle.painter.specs.Painter.{Painting};
ghost use Rattle.rfb_wire.specs.ServerMessage.{ServerMessage};
ghost use Rattle.host_decoder.specs.Decoder.{Stands, Stays, SuitsPart, Uses};
ghost use Rattle.host_decoder.specs.declared.state.HostState.TheVariants as state;

use crate::complete::complete;
use crate::part::HostPart;
use crate::passed::Passed;
use crate::state::HostState;
use painter::Painter;
use rfb_wire::{Fields, FixedPart, KeptText, SkippedBytes};
use std::alloc::Global;

/// Takes bytes of fields whose length is fixed.
pub(crate) fn take_fields(
    alloc: Global,
    painter: &mut Painter,
    fields: &mut Fields<HostPart>,
    bytes: &[u8],
) -> (Option<HostState>, usize)
    requires size { IsScreenSize painter.old.width painter.old.height }
    requires suits { SuitsPart painter.old.width painter.old.height fields.old.0 }
    requires some { 0 < length bytes.now }
    ensures stays { Stays painter.old painter.new (unwrap_or result.0 (state.Fields fields.new)) }
    ensures within { (0 < result.1) × (result.1 ≤ length bytes.now) }
    ensures uses { (start : Canvas) (r : Reading ServerMessage)
        → Stands painter.old.width painter.old.height (state.Fields fields.old) start painter.old r
        → Uses painter.old painter.new (unwrap_or result.0 (state.Fields fields.new))
        start r bytes.now result.1 }
{
    let part = fields.part();
    let count = bytes.len().min(fields.left());
    let (next, _) = bytes.split_at(count);
    if count < fields.left() {
        fields.keep(next);
        return (None, count);
    }
    let all = fields.whole(next);
    (
        Some(complete(alloc, painter, part, &all[..part.len()])),
        count,
    )
}

/// Takes bytes of a text that is kept. Where memory for the text is refused, no more is read.
pub(crate) fn take_text(
    alloc: Global,
    painter: &Painter,
    kept: &mut KeptText,
    bytes: &[u8],
) -> (Option<HostState>, usize)
    requires size { IsScreenSize painter.now.width painter.now.height }
    requires some { 0 < length bytes.now }
    ensures stays { Stays painter.now painter.now (unwrap_or result.0 (state.Keeping kept.new)) }
    ensures within { (0 < result.1) × (result.1 ≤ length bytes.now) }
    ensures uses { (start : Canvas) (r : Reading ServerMessage)
        → Stands painter.now.width painter.now.height (state.Keeping kept.old) start painter.now r
        → Uses painter.now painter.now (unwrap_or result.0 (state.Keeping kept.new))
        start r bytes.now result.1 }
{
    let count = bytes.len().min(kept.left());
    let (next, _) = bytes.split_at(count);
    if count < kept.left() {
        return match kept.keep(next) {
            Ok(()) => (None, count),
            Err(fault) => (Some(HostState::Failed(fault)), count),
        };
    }
    match kept.finish(alloc, next) {
        Ok(text) => (Some(HostState::text(painter, text)), count),
        Err(fault) => (Some(HostState::Failed(fault)), count),
    }
}

/// Takes bytes that are read past.
pub(crate) fn skip(
    what: Passed,
    past: &mut SkippedBytes,
    bytes: &[u8],
) -> (Option<HostState>, usize)
    requires some { 0 < length bytes.now }
    ensures stays { (painter : Painting)
        → Stays painter painter (unwrap_or result.0 (state.Passing what past.new)) }
    ensures within { (0 < result.1) × (result.1 ≤ length bytes.now) }
    ensures uses { (painter : Painting) (start : Canvas) (r : Reading ServerMessage)
        → Stands painter.width painter.height (state.Passing what past.old) start painter r
        → Uses painter painter (unwrap_or result.0 (state.Passing what past.new))
        start r bytes.now result.1 }
{
    let count = bytes.len().min(past.left());
    if count < past.left() {
        past.skip(count);
        return (None, count);
    }
    (Some(HostState::Whole(what.event())), count)
}
