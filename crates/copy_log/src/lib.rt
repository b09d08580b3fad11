//! The copies by which a host scrolls, kept of its last updates, and which of them a viewer is sent in place of tiles
//! (RFC 6143, sections 7.6.1 and 7.7.2).
//!
//! Only `CopyLog::new` and `Passed::new` take memory, and fail where it is refused (`Memory`); all else always succeeds
//! where its condition holds. No handle is needed.
#![tactic(auto)]

mod copy_rect;
mod held;
mod law;
mod log;
mod met;
mod note;
mod passed;

pub use copy_rect::CopyRect;
pub use held::{HeldTiles, SentAt};
pub use law::{
    copies_keep_up, copies_lie_in, copies_stay_off, lacked_is_touched, lacking_same,
    passing_goes_on, same_is_passed, touched_is_lacked,
};
pub use log::{CopyLog, KEPT};
pub use note::MOST_COPIES;
pub use passed::{MOST_PASSED, Passed};
