//! Reads a host's messages from a link, and puts their updates (RFC 6143, section 7.6).
//!
//! `run_host` takes room for a piece of 65,536 bytes once; reading and putting may take more. It waits for the host, so
//! it takes a handle that may wait.
#![tactic(auto)]

mod events;
mod hear;
mod reading;
mod run;

pub use events::put_patch;
pub use reading::{HostBeginning, Reading};
pub use run::{ReadsOn, read_host, read_on, run_host};
