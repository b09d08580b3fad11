//! Which hosts are told, in turn, and the links over which they are told.

ghost use Rattle.std.specs.Prelude.{◌≡◌};
ghost use Rattle.run_traits.specs.Unused.{unused};

use crate::teller::TellerKey;
use host_turns::{Handover, NumberedLink};
use host_writer::TellBeginning;
use link::{Link, StopFlag};
use roles::Strokes;
use run_traits::Alarm;
use std::alloc::Global;
use std::sync::{Arc, Wait};

/// The link of a host that is to be told, over which nothing was given yet. It is sealed: only a teller opens it, with
/// a key that nobody else can make, so that nobody else gives anything over it.
#[derive(Drop)]
pub struct CameLink<L: Link> {
    link: L,
    number: u64,
    ghost fresh: { L.state link ≡ unused },
}

impl<L: Link> CameLink<L> {
    /// How telling this host begins, by these.
    pub(crate) fn beginning<S, K, D>(
        &self,
        source: &S,
        taker: &K,
        strokes: &Strokes,
        drops: &D,
    ) -> TellBeginning<L, S, K, D>
        ensures fresh { L.state result.link.value ≡ unused }
        ensures parts { (result.link.value ≡ self.now.link) × (result.source.value ≡ source.now)
            × (result.taker.value ≡ taker.now) × (result.strokes.value ≡ strokes.now)
            × (result.drops.value ≡ drops.now) }
    {
        TellBeginning::of(&self.link, source, taker, strokes, drops)
    }

    /// The link, for a teller.
    pub(crate) fn open(self, _key: TellerKey) -> L
        ensures { result ≡ self.link }
    {
        let CameLink { link, number: _ } = self;
        link
    }
}

/// The end of a handover at which the links of the hosts that are told come out, one after another.
#[derive(Drop)]
pub(crate) struct HandoverTaker<L: Link, W: Alarm + Drop> {
    handover: Arc<Handover<L, W>, Global>,
}

/// The flag of one host, which is set once that host was left.
#[derive(Drop)]
pub(crate) struct LeftFlag<'a, L: Link, W: Alarm + Drop> {
    handover: &'a Handover<L, W>,
    number: u64,
}

impl<L: Link, W: Alarm + Drop> HandoverTaker<L, W> {
    /// The end of this handover.
    pub(crate) fn new(handover: Arc<Handover<L, W>, Global>) -> HandoverTaker<L, W> {
        HandoverTaker { handover }
    }

    /// Waits for the link of the next host that is told, and seals it. It answers `None` where no more come. No clause
    /// says which links come.
    pub(crate) fn next<R: Wait>(&self, rt: &R) -> Option<CameLink<L>> {
        let NumberedLink { link, number } = self.handover.take(rt)?;
        Some(CameLink { link, number })
    }

    /// The flag of the host whose link this is.
    pub(crate) fn left_flag(&self, came: &CameLink<L>) -> LeftFlag<'_, L, W> {
        LeftFlag {
            handover: &*self.handover,
            number: came.number,
        }
    }
}

impl<'a, L: Link, W: Alarm + Drop> StopFlag for LeftFlag<'a, L, W> {
    ghost use Rattle.std.specs.Prelude.{⊤};

    ghost was_set = { λ _. ⊤ };

    fn is_set(&self) -> bool {
        self.handover.is_left(self.number)
    }
}
