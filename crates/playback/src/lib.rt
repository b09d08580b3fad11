//! A link whose peer is a recorded session: what a host once said is heard again, at the recording's pace.
//!
//! A `PlayedLink` reads a `Recorded`, a file of which nothing is known but what POSIX says of `read`. It hands out what
//! the blocks of the recording say, as a host of RFB 3.8 with security type None (RFC 6143, 7.1 to 7.3), each byte once
//! its `Pace` has told that the byte's time may be shown. `specs/Heard` states what is heard, and `specs/Playing` what
//! is true at every moment. Memory: one piece of the file, taken as the link is made, and room for the block that
//! comes. Handles: none.
#![tactic(auto)]

mod bad;
mod law;
mod opening;
mod pace;
mod played;
mod recorded;
mod reel;

pub use bad::{BadOpening, BadPlayback};
pub use law::{beginnings_are_heard, endings_are_heard, openings_are_heard, recordings_are_heard};
pub use pace::Pace;
pub use played::PlayedLink;
pub use recorded::Recorded;
