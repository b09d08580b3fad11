//! A screen that notes how a loop uses it.

ghost use Rattle.std.specs.Prelude.{◌≡◌, length};

use fault::Fault;
use painter::Wanted;
use raster::Rect;
use reflect_core::{Cut, PlainScreen, ScreenSource};
use tiles::Have;

/// Notes of how a screen is used. Nothing is noted but for what a type says.
pub(crate) trait Notes {
    /// Notes a look, before it is answered.
    fn look(&mut self) {}

    /// Notes what answers would use from now on of what cuts lend.
    fn want(&self, _wanted: Wanted) {}
}

/// A screen, and the notes of how it is used.
#[derive(Drop)]
pub(crate) struct NotedScreen<N: Drop> {
    pub(crate) screen: PlainScreen,
    pub(crate) notes: N,
}

impl<N: Notes + Drop> ScreenSource for NotedScreen<N> {
    ghost known = { λ s. s.screen.updates };

    ghost answered = { λ s. length s.screen.updates };

    ghost width = { λ s. s.screen.width };

    ghost height = { λ s. s.screen.height };

    ghost may_end = { ⊥ };

    ghost looks = { λ old reply new. (reply ≡ old.screen.tally) × (new.screen ≡ old.screen) };

    ghost cuts = { λ old number new. (number ≡ length old.screen.updates) × (new ≡ old) };

    fn size(&self) -> (u64, u64) {
        self.screen.size()
    }

    fn look(&mut self) -> u64 {
        self.notes.look();
        self.screen.look()
    }

    fn cut(
        &mut self,
        area: &Rect,
        have: &Have,
        since: Option<u64>,
        into: &mut Cut,
    ) -> Result<u64, Fault> {
        self.screen.cut(area, have, since, into)
    }

    fn want(&self, wanted: Wanted) {
        self.notes.want(wanted);
    }
}
