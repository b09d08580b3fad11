//! A list of updates that only clauses read.
ghost use Rattle.std.specs.Prelude.{◌≡◌, List, [], ◌∷◌, ◌++◌};
ghost use Rattle.std.specs.Borrow.{ftrue};
ghost use Rattle.raster.specs.Update.{Update};

use painter::Patch;
use std::marker::{Model, PhantomData};

/// The updates that were put. It takes no memory, and its methods do nothing at run time.
#[derive(Drop)]
pub struct Noted {
    marker: PhantomData<u8>,
    pub ghost updates: { List Update },
}

impl Model for Noted {
    ghost also_owns = { λ _. ftrue };
}

impl Noted {
    /// A record in which nothing was noted.
    pub fn new() -> Noted
        ensures { result.updates ≡ [] }
    {
        Noted {
            marker: PhantomData,
        }
    }

    /// Notes the update of this patch, after those that were noted before.
    pub fn note(&mut self, _patch: &Patch)
        ensures { self.new.updates ≡ self.old.updates ++ _patch.now.update ∷ [] }
    {}
}
