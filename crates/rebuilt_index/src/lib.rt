//! The index of a recorded session, made anew from the recording: its key moments, at each of which a player may begin.
//!
//! `rebuild_index` reads a recording to its end. It follows the session from its beginning on, as a player does, and
//! from a block on that may be a key moment, beside: where both show the same, a player may begin at that block.
//! `specs/Anew` states when that is so. Memory: two screens of the session's size, the block that comes, and the key
//! moments. Handles: Wait, since no clause says how long a file is.
#![tactic(auto)]

mod bad;
mod follower;
mod law;
mod place;
mod rebuild;
mod seeker;
mod spelled;

pub use bad::BadRebuild;
pub use law::players_may_begin;
pub use rebuild::rebuild_index;
pub use spelled::index_file;
