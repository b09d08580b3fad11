//! What links were given, for clauses.

ghost use Rattle.std.specs.Prelude.{◌≡◌, [], ◌∷◌, ◌++◌};
ghost use Rattle.run_traits.specs.LinkTrails.{links_in};

use link::Link;
use std::mem;
use std::snapshot::Snapshot;

/// Links one after another, each as it was at one time. No link and no byte is kept.
#[derive(Drop)]
enum Trail<L> {
    /// No link was noted.
    Nothing,
    /// These links, and then this one.
    Then(Snapshot<Trail<L>>, Snapshot<L>),
}

/// The links over which hosts were told, or viewers were served, one after another: each as it came, and then as it was
/// left. At run time it has no bytes: only clauses read it (`links_in`).
#[derive(Drop)]
pub struct LinkTrail<L> {
    trail: Snapshot<Trail<L>>,
}

impl<L: Link> LinkTrail<L> {
    /// No link was noted yet.
    pub fn new() -> LinkTrail<L>
        ensures { links_in L.state result ≡ [] }
    {
        LinkTrail {
            trail: Snapshot::of(&Trail::Nothing),
        }
    }

    /// Notes this link, as it is now, after those before.
    pub fn note(&mut self, link: &L)
        ensures { links_in L.state self.new ≡ links_in L.state self.old ++ L.state link.now ∷ [] }
    {
        let before = mem::replace(&mut self.trail, Snapshot::of(&Trail::Nothing));
        self.trail = Snapshot::of(&Trail::Then(before, Snapshot::of(link)));
    }
}
