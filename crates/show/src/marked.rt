//! A link to a recording whose state tells how the recording is played.

ghost use Rattle.std.specs.Prelude.{◌≡◌};

use link::{Gave, Link, Took};
use playback::{Pace, PlayedLink, Recorded};
use std::marker::Model;

/// A link to a recording, which is that link in all that it does. To contracts it has taken two numbers before all
/// else: the time up to which the recording is played, and the place from which on. A reader of any link only adds to
/// what was taken, so the two are the same once it has read.
#[derive(Drop)]
pub(crate) struct MarkedLink<F: Recorded, P: Pace> {
    link: PlayedLink<F, P>,
}

impl<F: Recorded, P: Pace> Model for MarkedLink<F, P> {
    ghost use Rattle.playback.specs.Playing.{Played};

    ghost Value = { Played };

    ghost view = { λ m. m.link };
}

impl<F: Recorded, P: Pace> MarkedLink<F, P> {
    ghost use Rattle.std.specs.Prelude.{◌≡◌};

    /// This link.
    pub(crate) fn new(link: PlayedLink<F, P>) -> MarkedLink<F, P>
        ensures { result ≡ link }
    {
        MarkedLink { link }
    }

    /// The link that it is.
    pub(crate) fn into_played(self) -> PlayedLink<F, P>
        ensures { result ≡ self }
    {
        self.link
    }
}

impl<F: Recorded, P: Pace> Link for MarkedLink<F, P> {
    ghost use Rattle.show.specs.Marked.{marked_state};

    ghost state = { marked_state };

    #[tactic(auto, using(crate::proofs::Unmarked::takes_marked))]
    fn take(&mut self, into: &mut [u8]) -> Took {
        self.link.take(into)
    }

    #[tactic(auto, using(crate::proofs::Unmarked::gives_marked))]
    fn give(&mut self, bytes: &[u8]) -> Gave {
        self.link.give(bytes)
    }

    fn flush(&mut self) {
        self.link.flush();
    }

    fn failures(&self) -> u64 {
        self.link.failures()
    }
}
