//! The picture that a recorded session shows.
//!
//! `picture_of` reads a host's handshake and messages from a link until the link ends, as the reflector reads them from
//! its host, and answers what the host's screen shows then. It takes memory for two screens of the host's size, however
//! long the session is. It waits as its link does, so it takes a handle that may wait.
#![tactic(auto)]

mod follow;
mod noted;
mod picture;

pub use follow::picture_of;
pub use picture::Picture;
