//! What is said of a port where whoever reaches it has full control.

use run_traits::Way;
use std::fmt;
use std::fmt::{Display, Formatter};
use std::net::SocketAddr;

/// What is open to whom, and what would keep them out. A port for browsers asks for no password.
#[derive(Drop)]
pub(crate) struct Exposure {
    pub(crate) address: SocketAddr,
    pub(crate) way: Way,
}

impl Display for Exposure {
    fn fmt<W: fmt::Write>(&self, f: &mut Formatter<W>) -> fmt::Result {
        let remedy = match self.way {
            Way::Tcp => "--full-password-file, --full-bind 127.0.0.1 or --view-only",
            Way::Web => "--full-bind 127.0.0.1 or --view-only",
        };
        write!(
            f,
            "whoever reaches {} types and clicks there, and isn't asked for a password; {remedy} keeps others out",
            self.address
        )
    }
}
