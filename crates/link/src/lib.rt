//! A link to a peer, and the handshake with a host over it (RFC 6143, sections 7.1 to 7.3 and 7.5).
//!
//! A link takes bytes from its peer and gives it bytes, and says what came of each call. Only `MemoryLink::new` takes
//! memory. `join_host`, `join_on` and `give_all` wait as their link does, so they take a handle that may wait; nothing
//! else does. A `Record` has bytes that went over a link, for clauses alone.
#![tactic(auto)]

mod byte_record;
mod either_link;
mod give;
mod hearing;
mod join;
mod joining;
mod link;
mod memory_link;
mod telling;
mod waiting;

pub use byte_record::Record;
pub use either_link::EitherLink;
pub use give::{Halt, give_all};
pub use join::{JoinsOn, join_by, join_host, join_on};
pub use joining::Joining;
pub use link::{Gave, Link, Took};
pub use memory_link::MemoryLink;
pub use waiting::{Rest, StopFlag};
