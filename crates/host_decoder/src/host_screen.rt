//! A host's screen, and what reads it.

ghost use Rattle.std.specs.Prelude.{◌≡◌, ◌≤◌, [], ◌∷◌, IfErr, IfOk};
ghost use Rattle.fault.specs.declared.kinds.Fault.TheVariants.{Memory};
ghost use Rattle.painter.specs.Same.{AreSameUpdates};
ghost use Rattle.raster.specs.Screen.{Canvas, opening};
ghost use Rattle.raster.specs.Size.{IsScreenSize};
ghost use Rattle.raster.specs.Switch.{switch_to};
ghost use Rattle.host_decoder.specs.Decoder.{Decodes, IsFor, host_message};

use crate::decoder::HostDecoder;
use fault::Fault;
use painter::{Painter, Patch};
use raster::Size;
use std::alloc::Global;

/// A decoder, and the painter of the screen that it reads. Both are of one size, and are fed together:
/// `screen.decoder.feed(&mut screen.painter, piece)`.
#[derive(Drop)]
pub struct HostScreen {
    pub decoder: HostDecoder,
    pub painter: Painter,
}

impl HostScreen {
    /// A black screen of `width` by `height` pixels, whose host has sent no byte yet. It fails where memory is refused
    /// (`Memory`).
    pub fn new(alloc: Global, width: u64, height: u64) -> Result<Self, Fault>
        requires { IsScreenSize width height }
        ensures size { IfOk result (λ screen.
            (screen.decoder.width ≡ width) × (screen.decoder.height ≡ height)) }
        ensures pair { IfOk result (λ screen. IsFor screen.decoder screen.painter) }
        ensures begins { IfOk result (λ screen.
            Decodes screen.decoder screen.painter opening (host_message width height)) }
        ensures err { IfErr result (λ fault. fault ≡ Memory) }
    {
        let painter = Painter::new(alloc, width, height)?;
        let decoder = HostDecoder::new(alloc, width, height);
        Ok(HostScreen { decoder, painter })
    }

    /// A host's screen as by `new`, for a host of this size that follows another. With it comes the patch that turns
    /// the screen of the host before it black, and tells the size. It fails where memory is refused (`Memory`).
    pub fn switched(
        alloc: Global,
        width: u64,
        height: u64,
        size: Size,
    ) -> Result<(Self, Patch), Fault>
        requires screen { IsScreenSize width height }
        requires fits { (size.width ≤ width) × (size.height ≤ height) }
        ensures size { IfOk result (λ made.
            (made.0.decoder.width ≡ width) × (made.0.decoder.height ≡ height)) }
        ensures pair { IfOk result (λ made. IsFor made.0.decoder made.0.painter) }
        ensures begins { IfOk result (λ made.
            Decodes made.0.decoder made.0.painter opening (host_message width height)) }
        ensures sized { IfOk result (λ made. (made.1.width ≡ width) × (made.1.height ≡ height)) }
        ensures same { IfOk result (λ made. (start : Canvas)
            → AreSameUpdates width height start (switch_to size ∷ []) (made.1.update ∷ [])) }
        ensures err { IfErr result (λ fault. fault ≡ Memory) }
    {
        let (painter, patch) = Painter::black(alloc, width, height, size)?;
        let decoder = HostDecoder::new(alloc, width, height);
        Ok((HostScreen { decoder, painter }, patch))
    }
}
