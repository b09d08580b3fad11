//! What an operator asks of a running reflector, and what a request does to its doors.
//!
//! A request is a line of text. Here are functions of values alone, which say what a request does and who may come in
//! after it. The caller reads the lines, and has viewers wait at the doors. Memory: for the places, once, and for an
//! answer's text.
#![tactic(auto)]

mod doors;
mod law;
mod request;

pub use doors::{Doors, Entry, Outcome, PlaceState};
pub use law::{
    call_changes_no_door, drained_doors_let_nobody_in, end_asks_one_place, next_changes_no_door,
    nobody_comes_in_after_a_stop, whoever_is_there_stays,
};
pub use request::{Request, StateForm};
