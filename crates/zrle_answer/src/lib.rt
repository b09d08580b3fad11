//! Answers that may have rectangles in ZRLE, and what a viewer that takes ZRLE makes of them (RFC 6143, section 7.7.6).
//!
//! `specs/Answer` says what an answer's bytes are, `specs/Reading` what an update is read as, and `specs/Follower` what
//! a viewer holds that follows it. Nothing here takes a handle.
#![tactic(auto)]

mod answer;
mod law;
mod noise;
mod one;
mod plan;
mod rectangle;

pub use answer::{AnswerWriter, Unwritten};
pub use law::{
    answers_are_followed, answers_show_what_looks_alike, areas_are_held, cuts_are_answered,
    data_are_one_stream, example_is_followed, following_all_is_one_thing, following_goes_on,
    following_is_one_thing, following_leads_somewhere, other_answers_are_answers,
    other_messages_are_followed_alike, paints_lie_on_the_screen, sessions_are_followed,
    updates_end_at_one_place, zrle_is_used_by_leave_alone,
};
pub use rectangle::{RectangleWriter, ZRLE, append_part};
