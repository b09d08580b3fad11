//! What a port for machines answers: a run's numbers to Prometheus, and whether viewers are served to a balancer. HTTP
//! itself is the kit's `http_server`.
//!
//! Nothing here listens at a port. Memory: for an answer. Handles: none.
#![tactic(auto)]

mod booth;
mod hasty;
mod watched;

pub use booth::{MOST_HEAD, answer_one};
pub use hasty::Hasty;
pub use watched::Watched;
