//! Reading what a host sends, in whatever pieces it comes.

ghost use Rattle.std.specs.Prelude.{◌≡◌, true, [], Err, None, IfNone, IfOk, IfSome, ◌≤◌, length};
ghost use Rattle.fault.specs.declared.kinds.Fault.{Fault};
ghost use Rattle.fault.specs.declared.kinds.Fault.TheVariants.{Memory};
ghost use Rattle.byte_reading.specs.Reading.{Reading, Faulty, renewed, whole_of};
ghost use Rattle.raster.specs.Screen.{Canvas};
ghost use Rattle.raster.specs.Size.{IsScreenSize};
ghost use Rattle.painter.specs.Painter.{Painting};
ghost use Rattle.rfb_wire.specs.ServerMessage.{ServerMessage};
ghost use Rattle.host_decoder.specs.Decoder.{Decodes, Feeds, Holds, IsFor, host_message, is_refused, start, waiting};
ghost use Rattle.host_decoder.specs.Events.{BringsWhole, brought_by, screen_behind};

use crate::event::HostEvent;
use crate::state::HostState;
use fault::Fault;
use painter::Painter;
use std::alloc::Global;
use std::marker::Model;
use std::mem;

/// A decoder of what a host sends after its handshake (RFC 6143, 7.6 and 7.7), over a screen of one size. It holds what
/// has come of the next message. Contracts see the width and the height of the screen in pixels, and what the decoder
/// holds.
///
/// Rectangles are painted into the painter's screen as they come. At an update's end the patch is made of the tiles
/// that they touched. No patch is ever made of a message that isn't whole.
#[derive(Drop)]
pub struct HostDecoder {
    alloc: Global,
    width: u64,
    height: u64,
    state: HostState,
}

impl Model for HostDecoder {
    ghost use Rattle.host_decoder.specs.Decoder.{Decoding, IsDecoding};

    ghost Value = { Decoding };

    ghost view = { λ d. record { width = d.width; height = d.height; state = d.state } };

    ghost invariant = { λ d. IsDecoding d.width d.height d.state };
}

impl HostDecoder {
    /// A decoder to which no byte has come, for a screen of `width` by `height` pixels. It takes no memory.
    pub fn new(alloc: Global, width: u64, height: u64) -> Self
        requires { IsScreenSize width height }
        ensures value { result ≡ record { width = width; height = height; state = start } }
        ensures begins { (screen : Canvas) (painter : Painting) → Holds screen painter []
            → Decodes result painter screen (host_message width height) }
    {
        HostDecoder {
            alloc,
            width,
            height,
            state: HostState::start(),
        }
    }

    /// The width and height of the screen in pixels.
    pub fn size(&self) -> (u64, u64)
        ensures { (result.0 ≡ self.now.width) × (result.1 ≡ self.now.height) }
    {
        (self.width, self.height)
    }

    /// Takes the next piece, up to the end of a whole message, and answers how many bytes it used. It uses none while a
    /// message waits to be taken, and none after a fault, which it names again.
    ///
    /// It fails with `UnknownMessage`, `RectOutside`, `BadScreen` (for a new size that leaves the screen),
    /// `UnknownEncoding`, `CopyOutside`, `SubrectOutside`, `NoBackground` or `NoForeground` at the byte that shows the
    /// fault, and with `Memory` where memory is refused. Each is final. The painter's screen may then show a part of a
    /// message, and is useless from then on.
    pub fn feed(&mut self, painter: &mut Painter, piece: &[u8]) -> Result<usize, Fault>
        requires { IsFor self.old painter.old }
        ensures size { (self.new.width ≡ self.old.width) × (self.new.height ≡ self.old.height)
            × IsFor self.new painter.new }
        ensures within { IfOk result (λ used. used ≤ length piece.now) }
        ensures feeds { (screen : Canvas) (r : Reading ServerMessage)
            → Decodes self.old painter.old screen r
            → Feeds self.new painter.new screen r piece.now result }
        ensures refused { is_refused self.old.state ≡ true
            → (result ≡ Err Memory) × (self.new ≡ self.old) × (painter.new ≡ painter.old) }
        ensures faulty { (screen : Canvas) (fault : Fault)
            → Decodes self.old painter.old screen (Faulty fault)
            → (result ≡ Err fault) × Decodes self.new painter.new screen (Faulty fault)
            × (painter.new ≡ painter.old) }
    {
        self.state.feed(self.alloc, painter, piece)
    }

    /// Takes the event of the message that is whole, if there is one. The next bytes begin another.
    pub fn whole(&mut self) -> Option<HostEvent>
        ensures size { (self.new.width ≡ self.old.width) × (self.new.height ≡ self.old.height) }
        ensures given { (painter : Painting) (screen : Canvas) (r : Reading ServerMessage)
            → Decodes self.old painter screen r
            → BringsWhole self.old.width self.old.height screen result (whole_of r)
            × Decodes self.new painter
            (screen_behind self.old.width self.old.height screen (whole_of r))
            (renewed (host_message self.old.width self.old.height) r) }
        ensures refused { is_refused self.old.state ≡ true → result ≡ None }
        ensures none { IfNone result (self.new ≡ self.old) }
        ensures some { IfSome result (λ event.
            (waiting self.old.state ≡ brought_by event) × (self.new.state ≡ start)) }
    {
        match mem::replace(&mut self.state, HostState::start()) {
            HostState::Whole(event) => Some(event),
            state => {
                self.state = state;
                None
            }
        }
    }

    /// The host has ended, and the bytes of another host come next. The part of a message that has come is forgotten,
    /// and so is a whole message whose event wasn't taken.
    pub fn next_host(&mut self)
        ensures value { self.new ≡ record self.old { state = start } }
        ensures begins { (screen : Canvas) (painter : Painting) → Holds screen painter []
            → Decodes self.new painter screen (host_message self.old.width self.old.height) }
    {
        self.state = HostState::start();
    }
}
