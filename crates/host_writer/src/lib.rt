//! Tells a host the input of viewers, and asks it for what is new (RFC 6143, 7.5.3 to 7.5.6).
//!
//! It works over any link and any source of screens. Nothing here takes memory. `run_writer` waits as the link and the
//! rest do, so it takes a handle that may wait; no step of a `Telling` does.
#![tactic(auto)]

mod dropped;
mod give;
mod input;
mod input_source;
mod law;
mod looking;
mod run;
mod saying;
mod telling;

pub use dropped::DropCount;
pub use input_source::InputSource;
pub use law::told_input_is_unbroken;
pub use run::run_writer;
pub use telling::{TellBeginning, Telling};
