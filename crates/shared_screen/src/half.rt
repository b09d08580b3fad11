//! The author's share of the number of changes. The functions here are proved by hand.

ghost use Rattle.std.specs.Prelude.{◌≡◌, ℕ, Bool, true, false, List, None, length, []};
ghost use Rattle.shared_screen.specs.Shares.{holding};

use crate::change::Change;
use crate::law::{Law, Nothing, Turn};
use crate::naming::Publicity;
use logbook::{Gained, Offer, Start};
use std::marker::{Model, PhantomData};

/// The share, or nothing while the share is in an offer. At run time it has no bytes.
pub(crate) struct Half {
    marker: PhantomData<()>,
    pub ghost names: { List ℕ },
    pub ghost here: { Bool },
    pub ghost number: { ℕ },
}

impl Model for Half {
    ghost also_owns = { λ h. holding h.names h.here h.number };
}

/// The rule's share and the author's, of a history without a change.
pub(crate) fn begin<P: Publicity>() -> (Start<Change, (u64, u64), Law<P>>, Half)
    ensures { (result.0.shown ≡ []) × (result.1.names ≡ result.0.names) × (result.1.here ≡ true)
        × (result.1.number ≡ 0) }
{
    (
        Start {
            marker: PhantomData,
        },
        Half {
            marker: PhantomData,
        },
    )
}

impl Half {
    /// The same offer, which now trades the share and asks for the same change.
    pub fn offered<P: Publicity>(
        &mut self,
        asked: &Offer<Change, (u64, u64), Law<P>, Nothing>,
    ) -> Offer<Change, (u64, u64), Law<P>, Turn>
        requires { self.old.here ≡ true }
        ensures { (self.new.names ≡ self.old.names) × (self.new.here ≡ false)
            × (result.names ≡ self.old.names) × (result.ask ≡ asked.now.ask)
            × (length result.about ≡ self.old.number) × (result.state ≡ None) }
    {
        Offer {
            marker: PhantomData,
        }
    }

    /// The share comes back from an offer. There were as many changes as the share said.
    pub fn back(&mut self, gained: Gained<Change, (u64, u64), Turn>)
        requires { gained.names ≡ self.old.names }
        ensures { (self.new.names ≡ self.old.names) × (self.new.here ≡ true)
            × (self.new.number ≡ gained.answer.1) × (gained.answer.0 ≡ length gained.about) }
    {
        let Gained { marker: _ } = gained;
    }
}

impl Drop for Half {
    fn drop(self) {
        let Self { marker: _ } = self;
    }
}

unsafe impl Send for Half {}
