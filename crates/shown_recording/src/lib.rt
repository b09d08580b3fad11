//! A law about the pictures of a recording: each shows what the session's screen was that was recorded.
//!
//! It joins what is promised of a recorder's link (`record_link`), of who plays its file (`playback`), of the picture
//! that is made of what was played (`recorded_picture`), and of the session that was recorded (`played_session`).
//! Nothing here runs.
#![tactic(auto)]

mod law;

pub use law::pictures_are_of_the_session;
