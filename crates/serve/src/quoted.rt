//! What a peer says, in a line of ours.

use std::fmt;
use std::fmt::{Display, Formatter};

/// Bytes of a peer, of which each that isn't printable is escaped.
#[derive(Drop)]
pub(crate) struct Quoted<'a> {
    pub(crate) bytes: &'a [u8],
}

impl Display for Quoted<'_> {
    fn fmt<W: fmt::Write>(&self, f: &mut Formatter<W>) -> fmt::Result {
        for byte in self.bytes {
            write!(f, "{}", byte.escape_ascii())?;
        }
        Ok(())
    }
}
