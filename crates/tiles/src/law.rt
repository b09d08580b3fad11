//! Laws about what the runs of due tiles bring, and about what no update touches.

ghost use Rattle.tiles.specs.Brings.{DueWhereTouched, RunsBringTheDue, UntouchedStays};

/// The runs of an area hold exactly the positions of the area that lie in due tiles. Each is a part of the screen and
/// not empty, and there are at most 32,768: the count of a FramebufferUpdate, which goes up to 65,535, leaves room for
/// copies in front of them (RFC 6143, section 7.6.1).
pub fn runs_bring_the_due()
    ensures { RunsBringTheDue }
{}

/// A rectangle that no update after the first n touches looks as it did after these n. A rectangle that was sent at n
/// is due exactly where the number of its last touch is above n.
pub fn untouched_stays()
    ensures stays { UntouchedStays }
    ensures due { DueWhereTouched }
{}
