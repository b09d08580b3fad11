//! Puts the updates that a host's messages bring.

ghost use Rattle.std.specs.Prelude.{◌≡◌, ℕ, [], ◌∷◌, ◌++◌, Bool, List, length, IfErr, MatchResult, OnOk};
ghost use Rattle.raster.specs.Screen.{Canvas};
ghost use Rattle.raster.specs.Update.{Update};
ghost use Rattle.host_decoder.specs.Decoder.{IsFor};
ghost use Rattle.host_decoder.specs.Events.{IsSized, brought_by};
ghost use Rattle.reflect_core.specs.Plain.{IsPutRefusal};
ghost use Rattle.host_reader.specs.Running.{CanRead, HasRead, Stops};
ghost use Rattle.host_reader.specs.Sizes.{HasSize, KeepsSize, SameScreenSize};

use fault::Fault;
use host_decoder::{HostDecoder, HostEvent};
use painter::{Painter, Patch};
use reflect_core::Puts;

/// Puts a patch, of the publisher's size, into the list of updates. It fails with `Memory` where memory is refused, and
/// with `NumbersOut` where there is no number for the update. Then nothing has changed.
pub fn put_patch<P: Puts>(publisher: &mut P, patch: Patch) -> Result<(), Fault>
    requires { (patch.width ≡ P.width publisher.old) × (patch.height ≡ P.height publisher.old) }
    ensures size { KeepsSize P.width P.height publisher.old publisher.new }
    ensures ok { OnOk result (P.updates publisher.new
        ≡ P.updates publisher.old ++ patch.update ∷ []) }
    ensures err { IfErr result (λ fault. IsPutRefusal (length (P.updates publisher.old)) fault
        × (P.updates publisher.new ≡ P.updates publisher.old)) }
{
    match publisher.put(patch) {
        Ok(_) => Ok(()),
        Err((fault, _patch)) => Err(fault),
    }
}

/// Puts the update that a message brings. A colour map brings none, nor does a text that isn't kept.
fn put_event<P: Puts>(publisher: &mut P, event: HostEvent) -> Result<(), Fault>
    requires { IsSized (P.width publisher.old) (P.height publisher.old) event }
    ensures size { KeepsSize P.width P.height publisher.old publisher.new }
    ensures ok { OnOk result (P.updates publisher.new
        ≡ P.updates publisher.old ++ brought_by event) }
    ensures err { IfErr result (λ fault. IsPutRefusal (length (P.updates publisher.old)) fault
        × (P.updates publisher.new ≡ P.updates publisher.old)) }
{
    match event {
        HostEvent::Paint(patch) => put_patch(publisher, patch),
        HostEvent::Bell(patch) => put_patch(publisher, patch),
        HostEvent::Cut(patch) => put_patch(publisher, patch),
        HostEvent::Map => Ok(()),
        HostEvent::LongCut => Ok(()),
    }
}

/// Puts the update of each message that ends in a piece of the host's bytes, in order. It answers whether the piece
/// ends between two messages. The bytes before it may have ended inside one.
///
/// It fails at a fault of the bytes, and where the decoder or the publisher refuse. What was put before stays.
pub(crate) fn put_piece<P: Puts>(
    decoder: &mut HostDecoder,
    painter: &mut Painter,
    publisher: &mut P,
    piece: &[u8],
    is_between: bool,
) -> Result<bool, Fault>
    requires reads { CanRead decoder.old painter.old }
    requires painter { IsFor decoder.old painter.old }
    requires publisher { HasSize P.width P.height publisher.old decoder.old.width
        decoder.old.height }
    ensures decoder { SameScreenSize decoder.old decoder.new }
    ensures painter { IsFor decoder.new painter.new }
    ensures publisher { KeepsSize P.width P.height publisher.old publisher.new }
    ensures puts { (screen : Canvas) (stream : List ℕ) (old : List Update)
        → HasRead decoder.old.width decoder.old.height screen decoder.old painter.old is_between
        stream old (P.updates publisher.old)
        → MatchResult result
        (λ between.
        HasRead decoder.old.width decoder.old.height screen decoder.new painter.new between
        (stream ++ piece.now) old (P.updates publisher.new))
        (λ fault.
        Stops decoder.old.width decoder.old.height screen fault (stream ++ piece.now) old
        (P.updates publisher.new)) }
{
    let mut used = 0;
    let mut between = is_between;
    while used < piece.len() {
        let (_, left) = piece.split_at(used);
        used += decoder.feed(painter, left)?;
        match decoder.whole() {
            Some(event) => {
                put_event(publisher, event)?;
                between = true;
            }
            None => between = false,
        }
    }
    Ok(between)
}
