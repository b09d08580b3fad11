//! The index of a recorded session, in the form `FBI 001.000`: its key moments, at each of which a player may begin.
//!
//! An index is a line and then entries. Each entry has a time, in milliseconds since the recording began, and a place:
//! how many bytes of the recording stand before the block of that time. `specs/IndexBytes` states which bytes spell an
//! index, `specs/IndexReading` how it is read, and `specs/KeyMoments` of which recordings it is one. Memory: `Index`
//! has room for its key moments. Handles: none. Bytes come and go as the caller's slices.
#![tactic(auto)]

mod bad;
mod form;
mod index;
mod law;
mod moment;

pub use bad::BadIndex;
pub use form::{ENTRY_LEN, INDEX_LINE};
pub use index::Index;
pub use law::{
    beginnings_of_an_index, indexes_are_read, key_moments_are_added, key_moments_lead_to_blocks,
    one_spelling,
};
pub use moment::{KeyMoment, write_moment};
