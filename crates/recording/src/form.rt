//! The first line of a recording, and the bounds of its blocks.

/// The line with which a recording begins: its form, and that form's version.
pub const FIRST_LINE: [u8; 12] = *b"FBS 001.000\n";

/// The most bytes of data that the writer puts into one block.
pub const LONGEST_WRITTEN: usize = 65_536;

/// The most bytes of data of a block that the reader takes, 16 MiB: the form sets no bound, and a block is held whole.
pub const LONGEST_READ: usize = 1 << 24;

/// The most bytes that a block of the writer has: its length, its data with the padding, and its time.
pub const LONGEST_SPELLING: usize = LONGEST_WRITTEN + 8;
