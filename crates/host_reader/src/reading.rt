//! The reading of one host: its link and what is put of it, in the hands of one step.

ghost use Rattle.std.specs.Prelude.{◌≡◌, ℕ, ◌<◌, Bool, true, false, None, List, length};
ghost use Rattle.raster.specs.Screen.{Canvas};
ghost use Rattle.raster.specs.Update.{Update};
ghost use Rattle.host_decoder.specs.Decoder.{IsFor};
ghost use Rattle.link.specs.Links.{LinkState};
ghost use Rattle.host_reader.specs.Moment.{IsReadSoFar, IsRunning, ReadsSoFar, RunsOrEnds};
ghost use Rattle.host_reader.specs.Running.{AwaitsMessage, CanRead};
ghost use Rattle.host_reader.specs.Sizes.{HasSize, KeepsSize, SameScreenSize};

use crate::hear::hear;
use fault::Fault;
use host_decoder::HostDecoder;
use link::Link;
use painter::Painter;
use reflect_core::Puts;
use std::snapshot::Snapshot;

/// How a reading began. At run time it has no bytes: only clauses read it.
pub struct HostBeginning<L, P> {
    pub link: Snapshot<L>,
    pub decoder: Snapshot<HostDecoder>,
    pub painter: Snapshot<Painter>,
    pub publisher: Snapshot<P>,
}

impl<L, P> Drop for HostBeginning<L, P> {
    fn drop(self) {
        let HostBeginning {
            link: _,
            decoder: _,
            painter: _,
            publisher: _,
        } = self;
    }
}

impl<L, P> HostBeginning<L, P> {
    /// The beginning of a reading with this link, this decoder, this painter and this publisher.
    pub fn of(link: &L, decoder: &HostDecoder, painter: &Painter, publisher: &P) -> Self
        ensures link { result.link.value ≡ link.now }
        ensures decoder { result.decoder.value ≡ decoder.now }
        ensures painter { result.painter.value ≡ painter.now }
        ensures publisher { result.publisher.value ≡ publisher.now }
    {
        HostBeginning {
            link: Snapshot::of(link),
            decoder: Snapshot::of(decoder),
            painter: Snapshot::of(painter),
            publisher: Snapshot::of(publisher),
        }
    }
}

/// A host's link, what decodes and paints its bytes, and the publisher to which its updates are put.
///
/// Only the reading's own step uses these while the reading has them. The step takes no handle, so it is proved to end
/// where the calls of the link and the publisher end, and `lawful` holds at its end. So `so_far` is true however often
/// the step was called.
#[derive(Drop)]
pub struct Reading<'a, L: Link, P: Puts> {
    link: &'a mut L,
    decoder: &'a mut HostDecoder,
    painter: &'a mut Painter,
    publisher: &'a mut P,
    buffer: &'a mut [u8],
    // Whether the bytes that were taken end between two messages.
    is_between: bool,
    // Whether reading them came to a stop: the bytes are at fault, or memory or numbers ran out.
    is_over: bool,
    // How it all began. It is lent, so no step can put another beginning in its place.
    first: &'a HostBeginning<L, P>,
    ghost room: { 0 < length buffer.now },
    ghost size: { (decoder.now.width ≡ first.now.decoder.value.width)
        × (decoder.now.height ≡ first.now.decoder.value.height) },
    ghost painter_size: { (painter.now.width ≡ decoder.now.width)
        × (painter.now.height ≡ decoder.now.height) },
    ghost publisher_size: { HasSize P.width P.height publisher.now decoder.now.width
        decoder.now.height },
    ghost given: { (L.state link.now).given ≡ (L.state first.now.link.value).given },
    ghost lawful: { ∥ ((screen : Canvas)
        → AwaitsMessage first.now.decoder.value first.now.painter.value screen
        → IsReadSoFar is_over first.now.decoder.value.width first.now.decoder.value.height screen
        decoder.now painter.now is_between (L.state first.now.link.value) (L.state link.now)
        (P.updates first.now.publisher.value) (P.updates publisher.now)) ∥₁ },
}

impl<'a, L: Link, P: Puts> Reading<'a, L, P> {
    /// A reading that begins, over room for a piece of the host's bytes.
    pub fn new(
        first: &'a HostBeginning<L, P>,
        link: &'a mut L,
        decoder: &'a mut HostDecoder,
        painter: &'a mut Painter,
        publisher: &'a mut P,
        buffer: &'a mut [u8],
    ) -> Self
        requires first { (first.now.link.value ≡ link.old) × (first.now.decoder.value ≡ decoder.old)
            × (first.now.painter.value ≡ painter.old)
            × (first.now.publisher.value ≡ publisher.old) }
        requires room { 0 < length buffer.old }
        requires painter { IsFor decoder.old painter.old }
        requires publisher { HasSize P.width P.height publisher.old decoder.old.width
            decoder.old.height }
        ensures link { (result.link.now ≡ link.old)
            × (result.link.ghost_name ≡ link.entry.ghost_name) }
        ensures decoder { (result.decoder.now ≡ decoder.old)
            × (result.decoder.ghost_name ≡ decoder.entry.ghost_name) }
        ensures painter { (result.painter.now ≡ painter.old)
            × (result.painter.ghost_name ≡ painter.entry.ghost_name) }
        ensures publisher { (result.publisher.now ≡ publisher.old)
            × (result.publisher.ghost_name ≡ publisher.entry.ghost_name) }
        ensures begins { (result.is_between ≡ true) × (result.is_over ≡ false) }
        ensures first { result.first ≡ first.entry }
    {
        Reading {
            link,
            decoder,
            painter,
            publisher,
            buffer,
            is_between: true,
            is_over: false,
            first,
        }
    }

    /// It does nothing. Its clauses say what is true of the reading at every moment.
    pub fn so_far(&self)
        ensures given { (L.state self.now.link.now).given
            ≡ (L.state self.now.first.now.link.value).given }
        ensures reads { ∥ ((screen : Canvas)
            → AwaitsMessage self.now.first.now.decoder.value self.now.first.now.painter.value screen
            → ReadsSoFar self.now.first.now.decoder.value.width
            self.now.first.now.decoder.value.height screen (L.state self.now.first.now.link.value)
            (L.state self.now.link.now) (P.updates self.now.first.now.publisher.value)
            (P.updates self.now.publisher.now)) ∥₁ }
    {}

    /// Takes the bytes that have come, and puts the update of each message that ends in them. Where the reading ends
    /// here, it answers how; otherwise it answers `None`.
    pub(crate) fn hear(&mut self) -> Option<Result<(), Fault>>
        requires on { self.old.is_over ≡ false }
        requires reads { CanRead self.old.decoder.now self.old.painter.now }
        ensures keeps { (w h : ℕ) (screen : Canvas) (start : LinkState) (old : List Update)
            → self.old.decoder.now.width ≡ w → self.old.decoder.now.height ≡ h
            → IsRunning w h screen self.old.decoder.now self.old.painter.now self.old.is_between
            start (L.state self.old.link.now) old (P.updates self.old.publisher.now)
            → RunsOrEnds result w h screen self.new.decoder.now self.new.painter.now
            self.new.is_between start (L.state self.new.link.now) old
            (P.updates self.new.publisher.now) }
        ensures on { result ≡ None → self.new.is_over ≡ false }
        ensures given { (L.state self.new.link.now).given ≡ (L.state self.old.link.now).given }
        ensures decoder { SameScreenSize self.old.decoder.now self.new.decoder.now }
        ensures publisher { KeepsSize P.width P.height self.old.publisher.now
            self.new.publisher.now }
        ensures same { (self.new.link.ghost_name ≡ self.old.link.ghost_name)
            × (self.new.decoder.ghost_name ≡ self.old.decoder.ghost_name)
            × (self.new.painter.ghost_name ≡ self.old.painter.ghost_name)
            × (self.new.publisher.ghost_name ≡ self.old.publisher.ghost_name) }
        ensures first { self.new.first ≡ self.old.first }
    {
        let (answer, is_between, is_over) = hear(
            self.link,
            self.decoder,
            self.painter,
            self.publisher,
            self.buffer,
            self.is_between,
        );
        self.is_between = is_between;
        self.is_over = is_over;
        answer
    }
}
