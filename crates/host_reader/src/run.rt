//! The host's side of the reflector.

ghost use Rattle.std.specs.Prelude.{◌≡◌, Bool, true, false, IfErr, OnOk};
ghost use Rattle.host_decoder.specs.Decoder.{IsFor};
ghost use Rattle.raster.specs.Screen.{Canvas};
ghost use Rattle.host_reader.specs.Moment.{EndsSo};
ghost use Rattle.host_reader.specs.Running.{AwaitsMessage, EndsBetween, EndsWith};
ghost use Rattle.host_reader.specs.Sizes.{HasSize, KeepsSize, SameScreenSize};

use crate::reading::{HostBeginning, Reading};
use fault::Fault;
use host_decoder::HostDecoder;
use link::Link;
use painter::Painter;
use reflect_core::Puts;
use std::alloc::Global;
use std::sync::Wait;

/// How many bytes are taken from the link at a time, at most.
const PIECE: usize = 65536;

/// A loop that calls a reading's step until the link ends or a fault comes, as `read_on` does. Of what matters it is
/// lent the reading alone, so it can call the reading's step, and nothing else.
pub trait ReadsOn<L: Link, P: Puts> {
    /// Reads on until the link ends or a fault comes.
    fn read_on(&self, reading: &mut Reading<'_, L, P>) -> Result<(), Fault>
        requires begins { (screen : Canvas)
            × AwaitsMessage reading.old.decoder.now reading.old.painter.now screen }
        requires on { (reading.old.is_between ≡ true) × (reading.old.is_over ≡ false) }
        ensures reads { (screen : Canvas)
            → AwaitsMessage reading.old.decoder.now reading.old.painter.now screen
            → EndsSo reading.old.decoder.now.width reading.old.decoder.now.height
            screen result (L.state reading.old.link.now) (L.state reading.new.link.now)
            (P.updates reading.old.publisher.now) (P.updates reading.new.publisher.now) }
        ensures given { (L.state reading.new.link.now).given
            ≡ (L.state reading.old.link.now).given }
        ensures decoder { SameScreenSize reading.old.decoder.now reading.new.decoder.now }
        ensures painter { IsFor reading.new.decoder.now reading.new.painter.now }
        ensures publisher { KeepsSize P.width P.height reading.old.publisher.now
            reading.new.publisher.now }
        ensures same { (reading.new.link.ghost_name ≡ reading.old.link.ghost_name)
            × (reading.new.decoder.ghost_name ≡ reading.old.decoder.ghost_name)
            × (reading.new.painter.ghost_name ≡ reading.old.painter.ghost_name)
            × (reading.new.publisher.ghost_name ≡ reading.old.publisher.ghost_name) }
        ensures first { reading.new.first ≡ reading.old.first };
}

/// Takes and reads the host's bytes, piece by piece, until the link ends or a fault comes. Of what matters it is lent
/// the reading alone, so it can call the reading's step, and nothing else.
pub fn read_on<L: Link, P: Puts, R: Wait>(
    rt: &R,
    reading: &mut Reading<'_, L, P>,
) -> Result<(), Fault>
    requires begins { (screen : Canvas)
        × AwaitsMessage reading.old.decoder.now reading.old.painter.now screen }
    requires on { (reading.old.is_between ≡ true) × (reading.old.is_over ≡ false) }
    ensures reads { (screen : Canvas)
        → AwaitsMessage reading.old.decoder.now reading.old.painter.now screen
        → EndsSo reading.old.decoder.now.width reading.old.decoder.now.height
        screen result (L.state reading.old.link.now) (L.state reading.new.link.now)
        (P.updates reading.old.publisher.now) (P.updates reading.new.publisher.now) }
    ensures given { (L.state reading.new.link.now).given ≡ (L.state reading.old.link.now).given }
    ensures decoder { SameScreenSize reading.old.decoder.now reading.new.decoder.now }
    ensures painter { IsFor reading.new.decoder.now reading.new.painter.now }
    ensures publisher { KeepsSize P.width P.height reading.old.publisher.now
        reading.new.publisher.now }
    ensures same { (reading.new.link.ghost_name ≡ reading.old.link.ghost_name)
        × (reading.new.decoder.ghost_name ≡ reading.old.decoder.ghost_name)
        × (reading.new.painter.ghost_name ≡ reading.old.painter.ghost_name)
        × (reading.new.publisher.ghost_name ≡ reading.old.publisher.ghost_name) }
    ensures first { reading.new.first ≡ reading.old.first }
{
    for _ in rt.forever() {
        if let Some(answer) = reading.hear() {
            return answer;
        }
    }
    unreachable!()
}

/// The same as `run_host`, with `by` in place of a handle: of the calls made here `by` alone may wait.
pub fn read_host<L: Link, P: Puts, F: ReadsOn<L, P>>(
    by: &F,
    alloc: Global,
    link: &mut L,
    decoder: &mut HostDecoder,
    painter: &mut Painter,
    publisher: &mut P,
) -> Result<(), Fault>
    requires begins { (screen : Canvas) × AwaitsMessage decoder.old painter.old screen }
    requires painter { IsFor decoder.old painter.old }
    requires publisher { HasSize P.width P.height publisher.old decoder.old.width
        decoder.old.height }
    ensures decoder { SameScreenSize decoder.old decoder.new }
    ensures painter { IsFor decoder.new painter.new }
    ensures publisher { KeepsSize P.width P.height publisher.old publisher.new }
    ensures given { (L.state link.new).given ≡ (L.state link.old).given }
    ensures ok { OnOk result ((screen : Canvas) → AwaitsMessage decoder.old painter.old screen
        → EndsBetween decoder.old.width decoder.old.height screen (L.state link.old)
        (L.state link.new) (P.updates publisher.old) (P.updates publisher.new)) }
    ensures err { IfErr result (λ fault. (screen : Canvas)
        → AwaitsMessage decoder.old painter.old screen
        → EndsWith decoder.old.width decoder.old.height screen fault (L.state link.old)
        (L.state link.new) (P.updates publisher.old) (P.updates publisher.new)) }
{
    let mut buffer = vec![in alloc; 0u8; PIECE]?;
    let first = HostBeginning::of(link, decoder, painter, publisher);
    let mut reading = Reading::new(
        &first,
        link,
        decoder,
        painter,
        publisher,
        buffer.as_mut_slice(),
    );
    by.read_on(&mut reading)
}

/// Reads on by a handle that may wait.
#[derive(Drop)]
struct Waiting<'a, R: Wait> {
    rt: &'a R,
}

impl<'a, L: Link, P: Puts, R: Wait> ReadsOn<L, P> for Waiting<'a, R> {
    fn read_on(&self, reading: &mut Reading<'_, L, P>) -> Result<(), Fault> {
        read_on(self.rt, reading)
    }
}

/// Takes the host's bytes from a link that has done its handshake, and puts the update of each whole message, in order,
/// until the link ends. It is `Ok` where the link ends between two messages. The room for the bytes is taken once, at
/// the start.
///
/// It fails with `LinkEnded` where the link ends inside a message, and with `LinkFailed` where the link fails. Where
/// the bytes are at fault, it fails at the byte that shows this, with `UnknownMessage`, `RectOutside`, `BadScreen`,
/// `UnknownEncoding`, `SubrectOutside`, `NoBackground`, `NoForeground` or `CopyOutside`; then the updates of all
/// messages before that byte are put. It fails with `Memory` where memory is refused, and with `NumbersOut` where the
/// publisher has no more numbers; then only the first updates are put. What was put stays in each case. Over the screen
/// that the decoder and the painter began with, the updates that were put have the same effect, one by one, as those of
/// the bytes.
pub fn run_host<L: Link, P: Puts, R: Wait>(
    rt: &R,
    alloc: Global,
    link: &mut L,
    decoder: &mut HostDecoder,
    painter: &mut Painter,
    publisher: &mut P,
) -> Result<(), Fault>
    requires begins { (screen : Canvas) × AwaitsMessage decoder.old painter.old screen }
    requires painter { IsFor decoder.old painter.old }
    requires publisher { HasSize P.width P.height publisher.old decoder.old.width
        decoder.old.height }
    ensures decoder { SameScreenSize decoder.old decoder.new }
    ensures painter { IsFor decoder.new painter.new }
    ensures publisher { KeepsSize P.width P.height publisher.old publisher.new }
    ensures given { (L.state link.new).given ≡ (L.state link.old).given }
    ensures ok { OnOk result ((screen : Canvas) → AwaitsMessage decoder.old painter.old screen
        → EndsBetween decoder.old.width decoder.old.height screen (L.state link.old)
        (L.state link.new) (P.updates publisher.old) (P.updates publisher.new)) }
    ensures err { IfErr result (λ fault. (screen : Canvas)
        → AwaitsMessage decoder.old painter.old screen
        → EndsWith decoder.old.width decoder.old.height screen fault (L.state link.old)
        (L.state link.new) (P.updates publisher.old) (P.updates publisher.new)) }
{
    read_host(&Waiting { rt }, alloc, link, decoder, painter, publisher)
}
