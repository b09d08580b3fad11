//! Serves one viewer over a link, from any source of screens, and relays its input (RFC 6143, 7.1 to 7.3 and 7.5 to
//! 7.7).
//!
//! Nothing here takes memory but a viewer's text, which is dropped where it finds none. `run_viewer` waits as its link
//! and its rest do, so it takes a handle that may wait.
#![tactic(auto)]

mod breaks;
mod inbox;
mod law;
mod leave;
mod progress;
mod run;
mod serve;
mod visit;

pub use law::viewer_holds_each_answer;
pub use progress::{NoProgress, Progress};
pub use run::run_viewer;
pub use visit::{Beginning, Visit};
