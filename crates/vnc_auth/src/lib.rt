//! The answer to a challenge of VNC Authentication (RFC 6143, 7.2.2), and the cipher by which it is made, DES (FIPS
//! 46-3).
//!
//! It takes no memory and reaches nothing outside. DES with eight characters is weak: whoever hears a challenge and its
//! answer can try passwords.
#![tactic(auto)]

mod bits;
mod blocks;
mod challenge;
mod key;
mod password;
mod rounds;
mod tables;

pub use challenge::{CHALLENGE_LEN, answer, is_answer};
pub use password::Password;
