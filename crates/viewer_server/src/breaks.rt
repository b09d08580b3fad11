//! Why serving breaks off.

ghost use Rattle.std.specs.Prelude.{◌≡◌};
ghost use Rattle.viewer_server.specs.declared.breaks.Break.TheVariants.{At};

use fault::Fault;

/// Why serving breaks off, and what becomes of the viewer's input that the sink hasn't taken.
#[derive(Drop)]
pub(crate) enum Break {
    /// The viewer's bytes, its link or the source are at fault. The input is still offered to the sink.
    At(Fault),
    /// The sink has refused an input for good. The input is given up.
    Refused(Fault),
}

impl From<Fault> for Break {
    ghost from_gives = { λ fault why. why ≡ At fault };

    fn from(fault: Fault) -> Break {
        Break::At(fault)
    }
}
