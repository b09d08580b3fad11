//! Reads the hosts of a run in turn: each is joined, over a screen that turns black, and read to its end.
//!
//! `read_all` runs in the thread that reads the hosts, and hands each of them (`Handover`) to the thread that tells it.
//! It takes memory for each further host: room for its link, and for what reads the host.
#![tactic(auto)]

mod ending;
mod handover;
mod host;
mod hosts;
mod stages;
mod supply;

pub use ending::Ending;
pub use handover::{Handover, NumberedLink, SealedEnd};
pub use host::RunScreen;
pub use hosts::read_all;
pub use stages::{EndedRun, FirstHost, IdleRun, JoinedRun, MetRun, RunBeginning};
pub use supply::{HostEnds, Hosts, NoHosts};
