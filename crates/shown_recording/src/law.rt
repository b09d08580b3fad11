//! What the pictures of a recording show.

ghost use Rattle.shown_recording.specs.Shown.{PicturesAreOfTheSession};

use playback::Pace;
use played_session::recorders_keep_what_was_shown;

/// A picture that is made of what was played of a recorder's file, from the file's beginning up to any time, shows the
/// session's whole screen as it was after some number of updates. One for which no less was played shows it after at
/// least so many.
pub fn pictures_are_of_the_session<P: Pace>()
    ensures { PicturesAreOfTheSession P.has_come }
{
    recorders_keep_what_was_shown();
}
