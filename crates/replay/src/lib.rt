//! The scripts that drive a reflector: what their lines say, how they spell bytes, and how they are played over the
//! world of `reflect_world`.
//!
//! RFC 6143 has no scripts: they are this project's own.
//! Memory: that of the world, of one line of the script, and of what is printed for it.
//! Handles: none. `replay` reads and writes through what it is given.
#![tactic(auto)]

mod hexadecimal;
mod line;
mod player;
mod reads;

pub use hexadecimal::{script_bytes, shown};
pub use line::{Access, Line};
pub use player::replay;
