//! What is so of answers and of the viewers that follow them.

ghost use Rattle.zrle_answer.specs.Followed.{UpdatesEndAtOnePlace, FollowingIsOneThing, FollowingAllIsOneThing, FollowingLeadsSomewhere, PaintsLieOnTheScreen, AnswersAreFollowed, AreasAreHeld, AnswersShowWhatLooksAlike, OtherAnswersAreAnswers, ZrleIsUsedByLeaveAlone, OtherMessagesAreFollowedAlike, SessionsAreFollowed, FollowingGoesOn, DataAreOneStream};
ghost use Rattle.zrle_answer.specs.Example.{ExampleIsFollowed};
ghost use Rattle.zrle_answer.specs.Written.{CutsAreAnswered};

use zrle_codec::{data_bring_one_thing, parts_are_read};

/// An update ends at one place: none begins another, whatever follows.
pub fn updates_end_at_one_place()
    ensures { UpdatesEndAtOnePlace }
{
    data_bring_one_thing();
}

/// What happens to a follower leads it to one state alone: what it holds at each position, and the state of its stream.
pub fn following_is_one_thing()
    ensures { FollowingIsOneThing }
{
    data_bring_one_thing();
}

/// So do several things, in order.
pub fn following_all_is_one_thing()
    ensures { FollowingAllIsOneThing }
{
    data_bring_one_thing();
}

/// No bytes lead a follower nowhere.
pub fn following_leads_somewhere()
    ensures { FollowingLeadsSomewhere }
{}

/// What is read of an update lies on the screen.
pub fn paints_lie_on_the_screen()
    ensures { PaintsLieOnTheScreen }
{}

/// A viewer that follows an answer's bytes holds what the answer was made of, whatever the state of its stream.
pub fn answers_are_followed()
    ensures { AnswersAreFollowed }
{
    parts_are_read();
}

/// After an answer of what is due in an area, a viewer holds the area.
pub fn areas_are_held()
    ensures { AreasAreHeld }
{
    data_bring_one_thing();
    parts_are_read();
}

/// An answer of one screen, as of a cut, is one of each other that looks the same in its rectangles.
pub fn answers_show_what_looks_alike()
    ensures { AnswersShowWhatLooksAlike }
{}

/// An answer that is written of a cut is one of the screen that was cut, in the tiles that were due there.
pub fn cuts_are_answered()
    ensures { CutsAreAnswered }
{}

/// An answer without ZRLE is an answer.
pub fn other_answers_are_answers()
    ensures { OtherAnswersAreAnswers }
{}

/// Where ZRLE may not be used there is no other answer, and the stream stays as it is.
pub fn zrle_is_used_by_leave_alone()
    ensures { ZrleIsUsedByLeaveAlone }
{}

/// A message without ZRLE is followed as it is by a viewer that doesn't take ZRLE.
pub fn other_messages_are_followed_alike()
    ensures { OtherMessagesAreFollowedAlike }
{}

/// All that a session sends is followed, whatever formats it takes between its answers.
pub fn sessions_are_followed()
    ensures { SessionsAreFollowed }
{
    parts_are_read();
}

/// What is followed up to a moment and from it on is followed whole.
pub fn following_goes_on()
    ensures { FollowingGoesOn }
{}

/// The zlib data of all rectangles of a connection in ZRLE are one zlib stream.
pub fn data_are_one_stream()
    ensures { DataAreOneStream }
{}

/// A connection whose bytes were typed by hand is followed to what it shows.
pub fn example_is_followed()
    ensures { ExampleIsFollowed }
{}
