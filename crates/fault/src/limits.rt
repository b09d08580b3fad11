//! Bounds that the whole workspace shares.

/// The greatest number of an update, and the greatest count of anything that is counted for ever: 2 to the 62nd.
pub const LIMIT: u64 = 1 << 62;

/// The greatest length in bytes of a cut text that is kept; a longer text is read past. RFC 6143, 7.5.6 and 7.6.4, sets
/// no bound.
pub const LONGEST_TEXT: u32 = 65_536;
