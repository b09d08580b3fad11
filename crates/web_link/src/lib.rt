//! A link whose bytes travel in the binary messages of a WebSocket (RFC 6455), over any link.
//!
//! It is the server's end, after the opening handshake. It takes no memory, and waits only as the link below does.
#![tactic(auto)]

mod code;
mod gathering;
mod message_buffer;
mod refusal;
mod saying;
mod unsent;
mod web;

pub use gathering::GatheringLink;
pub use refusal::{MOST_REFUSAL, refusal_frames};
pub use saying::Saying;
pub use web::WebLink;
