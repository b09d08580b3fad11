//! The first line of an index, and the length of its entries.

/// The line with which an index begins: its form, and that form's version.
pub const INDEX_LINE: [u8; 12] = *b"FBI 001.000\n";

/// How many bytes an entry has: four of its time, and eight of its place.
pub const ENTRY_LEN: usize = 12;

/// How many bytes a time has.
pub(crate) const TIME_LEN: usize = 4;

/// How many bytes a place has.
pub(crate) const PLACE_LEN: usize = 8;
