//! Laws about a recording that is played: it shows what the viewer held that it was (RFC 6143, section 7.6).
//!
//! A recording is what a viewer was sent. Who plays it decodes these bytes as a host's. The viewer is a session's
//! (`viewer_session`, `viewer_server`), and the decoder is `host_decoder`: each has definitions of its own, and here
//! they meet. Nothing here runs.
#![tactic(auto)]

mod law;

pub use law::{
    hellos_are_heard, players_never_go_back, recorders_are_for_recording,
    recorders_keep_what_was_shown, recordings_show_what_was_sent, viewers_and_decoders_read_alike,
};
