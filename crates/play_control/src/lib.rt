//! What an operator says of a recording that is played: times, speeds and requests, as texts; and up to which time it
//! is played.
//!
//! All of it is functions of values. The caller reads the lines, and has a clock. Memory: none. Handles: none.
#![tactic(auto)]

mod clock_time;
mod course;
mod request;
mod speed;

pub use clock_time::ClockTime;
pub use course::Course;
pub use request::PlayRequest;
pub use speed::Speed;
