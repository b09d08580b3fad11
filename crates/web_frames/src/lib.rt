//! The frames of a WebSocket peer, read in whatever pieces they come (RFC 6455, sections 5.2 to 5.5).
//!
//! Headers are read by the kit's `websocket`. A payload is handed on as it comes, so no frame has to be held, whatever
//! its size. No memory is taken.
#![tactic(auto)]

mod control;
mod law;
mod position;
mod reader;
mod write;

pub use law::{all_frames_are_read, nothing_is_read_after_a_breach, nothing_is_read_after_a_close};
pub use position::{Breach, FrameKind, Position};
pub use reader::{FrameReader, MOST_CONTROL};
pub use write::{MOST_FRAME, binary_head, control_frame};
