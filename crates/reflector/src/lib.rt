//! Runs a reflector over any links and doors: a thread for each place of a viewer, one that tells the host, and one
//! that reads it.
//!
//! `run_all` takes memory as it begins, and fails where it is refused (`Memory`) or no place is left (`NoPlace`). It
//! starts threads and waits for them, so it takes a handle that may do so. No clause says that a thread makes progress,
//! or that a call returns.
#![tactic(auto)]

mod context;
mod counted;
mod given;
mod handover_taker;
mod input_counts;
mod join;
mod law;
mod named_sender;
mod no_sender;
mod place;
mod ran;
mod reader;
mod run;
mod running;
mod session_maker;
mod stages;
mod teller;
mod threads;
mod writer;

pub use given::{RunHosts, RunPlaces, RunShared};
pub use handover_taker::CameLink;
pub use input_counts::InputCounts;
pub use join::join_place;
pub use law::{
    looks_and_cuts_are_one_history, viewers_that_look_on_send_nothing, visits_are_of_one_list,
    visits_are_over_the_links_of_the_trail, visits_keep_the_promise,
};
pub use place::{OfPlace, Place, PlaceHandle};
pub use ran::Ran;
pub use run::run_all;
pub use run_traits::LinkTrail;
pub use running::Running;
pub use session_maker::SessionMaker;
pub use stages::{BusyPlace, FreePlace, LeftPlace, MetPlace, PlaceBeginning, PlaceKey};
pub use teller::{BusyTeller, FreeTeller, TellerBeginning, TellerKey};
