//! How bytes are read. The crate has definitions and lemmas alone. A form of messages is a reading: it takes one byte
//! after another, and after each it is done, at a fault, or in want of the next byte (RFC 6143, section 7).
//!
//! Every reader of the crates above is proved against `specs/Reading`. `proofs/ReadingLaws` shows that bytes that come
//! in pieces are read as those that come at once. There is no code: nothing is called here, and no memory is taken.
#![tactic(auto)]
