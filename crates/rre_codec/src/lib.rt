//! RRE (RFC 6143, section 7.7.3), both ways, over pixel values of any accepted format.
//!
//! A rectangle is a background and subrectangles of one value each, painted over it in order. One spelling is written,
//! of our own choice: the first pixel's value as background, and the runs of each row, or these joined with those below
//! them. Every spelling is read. Nothing here takes memory or a handle.
#![tactic(auto)]

mod corners;
mod reading;
mod run;
mod stage;
mod writing;

pub use reading::Reader;
pub use writing::{encode, encode_as};
