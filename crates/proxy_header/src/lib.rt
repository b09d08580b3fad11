//! Reads the header that a proxy sends before a connection's own bytes, by version 2 of the PROXY protocol (its section
//! 2.2), in whatever pieces it comes.
//!
//! The header tells the address from which the proxy was connected to. No memory is taken.
#![tactic(auto)]

mod address;
mod law;
mod origin;
mod reader;
mod state;

pub use law::{bad_headers_are_refused, headers_are_read};
pub use origin::{Origin, Refusal};
pub use reader::HeaderReader;
