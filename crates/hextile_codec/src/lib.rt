//! Hextile (RFC 6143, section 7.7.4), both ways, over pixel values of any accepted format.
//!
//! A rectangle is cut into tiles of 16 by 16. Each has a mask that says what follows: its pixels as in Raw, or a
//! background and subrectangles painted over it in order. A colour that a tile leaves unsaid is the last that the
//! rectangle specified. What is written is one spelling of our own: the tile's first pixel as background and the runs of
//! each row, or its most frequent value and these runs joined with those below them; and Raw where that has no more
//! bytes. Nothing here takes memory or a handle.
#![tactic(auto)]

mod breaks;
mod chosen;
mod coloured;
mod colours;
mod crowded;
mod drawing;
mod frequent;
mod head;
mod joining;
mod kept;
mod law;
mod listing;
mod marking;
mod mask;
mod pixels;
mod put;
mod reaching;
mod reading;
mod rows;
mod runs;
mod source;
mod stage;
mod subrects;
mod tile;
mod tile_kind;
mod tile_marks;
mod writing;

pub use joining::TileRoom;
pub use kept::{TileForm, form_of_tile};
pub use law::head_is_tinted;
pub use reading::Reader;
pub use source::PixelSource;
pub use writing::{encode, encode_as, encode_from};
