//! A follower of what a host says, from some place on.

ghost use Rattle.std.specs.Prelude.{◌≡◌, true, false};
ghost use Rattle.host_decoder.specs.Decoder.{IsFor};
ghost use Rattle.raster.specs.Size.{IsScreenSize};

use fault::Fault;
use host_decoder::{HostDecoder, HostEvent};
use painter::Painter;
use std::alloc::Global;

/// A host's screen, black at first, and what has come of its messages.
#[derive(Drop)]
pub(crate) struct Follower {
    pub(crate) decoder: HostDecoder,
    pub(crate) painter: Painter,
    /// Whether the bytes that have come end between two messages.
    pub(crate) is_between: bool,
    /// Whether an update of the screen has come.
    pub(crate) is_painted: bool,
    ghost pair: { IsFor decoder painter },
}

/// Whether a screen may be so large.
fn is_screen_size(width: u64, height: u64) -> bool
    ensures yes { result ≡ true → IsScreenSize width height }
    ensures no { result ≡ false → ¬ IsScreenSize width height }
{
    1 <= width && width <= 4096 && 1 <= height && height <= 4096
}

/// Whether a message has brought an update of the screen.
fn is_paint(event: &Option<HostEvent>) -> bool {
    matches!(event, Some(HostEvent::Paint(_)))
}

impl Follower {
    ghost use Rattle.std.specs.Prelude.{ℕ, ◌⊎◌, List, [], ◌++◌, take, IfOk, IfErr, OnOk};
    ghost use Rattle.byte_reading.specs.Reading.{Faulty, rest, taken};
    ghost use Rattle.fault.specs.declared.kinds.Fault.TheVariants.{BadScreen, Memory};
    ghost use Rattle.host_decoder.specs.Decoder.{host_message};
    ghost use Rattle.rebuilt_index.specs.Following.{Follows, HasFed};

    /// One to whom no byte has come. It fails where no screen has this size (`BadScreen`), and where memory is refused
    /// (`Memory`).
    pub(crate) fn new(alloc: Global, width: u64, height: u64) -> Result<Follower, Fault>
        ensures ok { IfOk result (λ follower. Follows width height follower []) }
        ensures err { IfErr result (λ fault.
            (fault ≡ Memory) ⊎ ((fault ≡ BadScreen) × ¬ IsScreenSize width height)) }
    {
        if !is_screen_size(width, height) {
            return Err(Fault::BadScreen);
        }
        let painter = Painter::new(alloc, width, height)?;
        let decoder = HostDecoder::new(alloc, width, height);
        Ok(Follower {
            decoder,
            painter,
            is_between: true,
            is_painted: false,
        })
    }

    /// Takes the message that is whole in what came last, if one is.
    fn take_message(&mut self)
        ensures { (w h : ℕ) (stream piece : List ℕ) → HasFed w h self.old stream piece
            → Follows w h self.new
            (stream ++ take (taken (rest (host_message w h) stream) piece) piece) }
    {
        let event = self.decoder.whole();
        self.is_between = event.is_some();
        self.is_painted |= is_paint(&event);
    }

    /// Follows what comes next. It fails at a fault of the bytes, and where memory is refused.
    pub(crate) fn feed(&mut self, piece: &[u8]) -> Result<(), Fault>
        ensures ok { (w h : ℕ) (stream : List ℕ) → Follows w h self.old stream
            → OnOk result (Follows w h self.new (stream ++ piece.now)) }
        ensures err { (w h : ℕ) (stream : List ℕ) → Follows w h self.old stream
            → IfErr result (λ fault. (fault ≡ Memory)
            ⊎ (rest (host_message w h) (stream ++ piece.now) ≡ Faulty fault)) }
    {
        let mut used = 0;
        for start in 0..piece.len() {
            // Each message ends behind where it begins, so nothing is left out.
            if start >= used {
                let (_, left) = piece.split_at(start);
                used = start + self.decoder.feed(&mut self.painter, left)?;
                self.take_message();
            }
        }
        Ok(())
    }
}
