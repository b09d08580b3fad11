//! A block of a recording, as it was read.

/// A block: bytes that a server said, and the time at which they came, in milliseconds since the recording began.
#[derive(Clone, Copy)]
pub struct Block<'a> {
    /// What the server said.
    pub said: &'a [u8],
    /// The time, in milliseconds.
    pub time: u32,
}
