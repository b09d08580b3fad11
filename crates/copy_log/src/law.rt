//! Laws about the copies that are passed on.

ghost use Rattle.copy_log.specs.KeepsUp.{CopiesKeepUp, CopiesLieIn, CopiesStayOff, LackedIsTouched, LackedStays, LackingSame, NonePassed, PassingGoesOn, SameIsPassed, TouchedIsLacked};

/// A viewer that held its area of the screen before some updates, but for the tiles that it lacked, holds it after
/// them, but for the tiles that it lacks then, once it has made the copies that are passed on (RFC 6143, 7.7.2).
pub fn copies_keep_up()
    ensures { CopiesKeepUp }
{}

/// What is lacked before some updates is lacked after them. A tile that is lacked after them and wasn't before is
/// touched by one of them.
pub fn lacked_is_touched()
    ensures stays { LackedStays }
    ensures touched { LackedIsTouched }
{}

/// Where no copy is passed on, a tile that was lacked before some updates, or that one of them touches, is lacked after
/// them.
pub fn touched_is_lacked()
    ensures { TouchedIsLacked }
{}

/// The copies that are passed on lie in the viewer's area, and so do their sources (RFC 6143, 7.7.2).
pub fn copies_lie_in()
    ensures { CopiesLieIn }
{}

/// The copies that are passed on change nothing of a tile that none of the updates touches.
pub fn copies_stay_off()
    ensures { CopiesStayOff }
{}

/// Updates are gone through one after the other: what is passed on of some goes on from what was passed on of those
/// before them.
pub fn passing_goes_on()
    ensures { PassingGoesOn }
{}

/// Where the same tiles of the screen were lacked before some updates, the same is passed on of these.
pub fn lacking_same()
    ensures { LackingSame }
{}

/// Of updates without copies none is passed on. Two updates that begin with the same copies, and whose other paints
/// touch the same tiles and are no copies, come to the same.
pub fn same_is_passed()
    ensures none { NonePassed }
    ensures same { SameIsPassed }
{}
