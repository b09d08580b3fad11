//! The second form in which rectangles are written: runs that are joined with those below them (RFC 6143, 7.7.3, 7.7.4).
//!
//! Every reader of the encodings reads both forms. `specs/Joined` defines the second, `law` says what holds of both,
//! and `joining` tells both codecs which runs are joined. Nothing takes memory.
#![tactic(auto)]

mod joining;
mod law;
mod rect_form;

pub use joining::{RowRun, height};
pub use law::{form_is_read, form_is_tinted, forms_differ, joined_is_shorter};
pub use rect_form::RectForm;
