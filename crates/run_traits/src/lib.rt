//! The traits by which a run meets the system around it: what wakes its threads, where its viewers come from, who is
//! told what happens, and what is counted meanwhile.
//!
//! No contract says that a ring wakes a thread, or how long anything lasts. Memory: none. Handles: Wait where a call
//! may wait.
#![tactic(auto)]

mod alarm;
mod count;
mod door;
mod either_door;
mod event;
mod left_link;
mod link_trail;
mod ringing;
mod stop;

pub use alarm::{Alarm, NoAlarm};
pub use count::{HostCount, PlaceCount, clock_millis};
pub use door::Door;
pub use either_door::EitherDoor;
pub use event::{Event, Log, NoLog, Parting, PlaceId, VisitSummary, Way};
pub use left_link::{EitherLeft, LeftLink};
pub use link_trail::LinkTrail;
pub use ringing::Ringing;
pub use stop::Stop;
