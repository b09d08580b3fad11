//! What can be wrong with a peer, a link or a call, and the bounds that all crates share.
//!
//! Memory: none is taken. Handles: none. No call is refused.
#![tactic(auto)]

mod kinds;
mod limits;
mod reason;

pub use kinds::Fault;
pub use limits::{LIMIT, LONGEST_TEXT};
pub use reason::{LONGEST_REASON, Reason};
