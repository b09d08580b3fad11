//! Parts of ZRLE that several viewers of a screen are sent (RFC 6143, section 7.7.6): whoever needs one first makes it,
//! and the others copy it.
//!
//! A part is kept beside the colours that it shows, so a clause says of each that is found what it shows. Nobody takes a
//! lock or waits: each step is a compare-exchange. Nothing here takes a handle.
#![tactic(auto)]

mod mark;
mod part;
mod place;
mod shared;

pub use part::{Part, Screen};
pub use place::{PartMaker, PartReader};
pub use shared::SharedParts;
