//! Takes one piece of the host's bytes.

ghost use Rattle.std.specs.Prelude.{◌≡◌, ℕ, ◌<◌, Bool, false, None, List, length};
ghost use Rattle.raster.specs.Screen.{Canvas};
ghost use Rattle.raster.specs.Update.{Update};
ghost use Rattle.host_decoder.specs.Decoder.{IsFor};
ghost use Rattle.link.specs.Links.{LinkState};
ghost use Rattle.host_reader.specs.Moment.{HasReadSoFar, IsReadSoFar, IsRunning, RunsOrEnds};
ghost use Rattle.host_reader.specs.Running.{CanRead, outcome};
ghost use Rattle.host_reader.specs.Sizes.{HasSize, KeepsSize, SameScreenSize};

use crate::events::put_piece;
use fault::Fault;
use host_decoder::HostDecoder;
use link::{Link, Took};
use painter::Painter;
use reflect_core::Puts;

/// What the whole reading answers where this answer of the link ends it; `None` where the reading goes on.
fn outcome(took: Took, is_between: bool) -> Option<Result<(), Fault>>
    ensures { result ≡ outcome took is_between }
{
    match took {
        Took::Bytes(_) => None,
        Took::Nothing => None,
        Took::End if is_between => Some(Ok(())),
        Took::End => Some(Err(Fault::LinkEnded)),
        Took::Failed => Some(Err(Fault::LinkFailed)),
    }
}

/// Takes the bytes that have come, and puts the update of each message that ends in them. It answers three things: what
/// reading answers if it ends here, or `None`; whether the bytes so far end between two messages; and whether reading
/// them came to a stop.
pub(crate) fn hear<L: Link, P: Puts>(
    link: &mut L,
    decoder: &mut HostDecoder,
    painter: &mut Painter,
    publisher: &mut P,
    buffer: &mut [u8],
    is_between: bool,
) -> (Option<Result<(), Fault>>, bool, bool)
    requires room { 0 < length buffer.old }
    requires reads { CanRead decoder.old painter.old }
    requires painter { IsFor decoder.old painter.old }
    requires publisher { HasSize P.width P.height publisher.old decoder.old.width
        decoder.old.height }
    ensures room { length buffer.new ≡ length buffer.old }
    ensures decoder { SameScreenSize decoder.old decoder.new }
    ensures painter { IsFor decoder.new painter.new }
    ensures publisher { KeepsSize P.width P.height publisher.old publisher.new }
    ensures given { (L.state link.new).given ≡ (L.state link.old).given }
    ensures on { result.0 ≡ None → result.2 ≡ false }
    ensures so_far { (w h : ℕ) (screen : Canvas) (start : LinkState) (old : List Update)
        → decoder.old.width ≡ w → decoder.old.height ≡ h
        → HasReadSoFar w h screen decoder.old painter.old is_between start (L.state link.old) old
        (P.updates publisher.old)
        → IsReadSoFar result.2 w h screen decoder.new painter.new result.1 start (L.state link.new)
        old (P.updates publisher.new) }
    ensures keeps { (w h : ℕ) (screen : Canvas) (start : LinkState) (old : List Update)
        → decoder.old.width ≡ w → decoder.old.height ≡ h
        → IsRunning w h screen decoder.old painter.old is_between start (L.state link.old) old
        (P.updates publisher.old)
        → RunsOrEnds result.0 w h screen decoder.new painter.new result.1 start (L.state link.new)
        old (P.updates publisher.new) }
{
    let took = link.take(buffer);
    if let Took::Bytes(count) = took {
        let (piece, _) = buffer.split_at(count);
        return match put_piece(decoder, painter, publisher, piece, is_between) {
            Ok(between) => (None, between, false),
            Err(fault) => (Some(Err(fault)), is_between, true),
        };
    }
    (outcome(took, is_between), is_between, false)
}
