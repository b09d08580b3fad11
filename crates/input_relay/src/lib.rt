//! Inputs of several viewers (RFC 6143, 7.5.4 to 7.5.6) on their way to the host, in order for each viewer.
//!
//! `specs/Relay` states the rule of the queue, and `specs/Ends` what each of its ends knows.
//! Memory: `relay` and `gauge` alone take it. Handles: `Wait`, since a call may wait for a thread that is inside one;
//! no thread is started. `relay`, `send` and `gauge` may be refused and say so by their `Result`, all others succeed.
#![tactic(auto)]

mod queue;
mod sink;

pub use queue::{Gauge, Sender, Settled, Taker, relay, settle};
