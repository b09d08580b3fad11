//! The bytes of a message that are read past. Nothing of them is kept.

ghost use Rattle.std.specs.Prelude.{ℕ};
ghost use Rattle.host_decoder.specs.Decoder.{StandsUnpainted, passing};
ghost use Rattle.host_decoder.specs.declared.state.HostState.TheVariants as state;

use crate::event::HostEvent;

/// What the bytes are that a decoder reads past.
#[derive(Clone, Copy)]
pub(crate) enum Passed {
    /// The entries of a colour map, which no true-colour screen needs (RFC 6143, 7.6.2).
    Colours,
    /// A text of this many bytes, which is too long to be kept (RFC 6143, 7.6.4).
    Text(u32),
}

impl Passed {
    /// The event of the message, once none of its bytes is left.
    pub(crate) fn event(self) -> HostEvent
        ensures { (w h : ℕ) → StandsUnpainted w h (state.Whole result) (passing 0 self) }
    {
        match self {
            Passed::Colours => HostEvent::Map,
            Passed::Text(_) => HostEvent::LongCut,
        }
    }
}
